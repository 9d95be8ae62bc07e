ghost use Rattle.std.specs.Prelude.{◌≡◌, ◌⊎◌, ◌==◌, ◌<◌, ◌-◌, ◌^◌, ℕ, Bool, true, false, IsTrue, List, is_some, length, min, Ok, Result as result_of};
ghost use Rattle.sha2.specs.Sha256.{sha256};
ghost use Rattle.gate_base.specs.Causes.{Rose};
ghost use Rattle.gate_base.specs.Told.{ClockNow};
ghost use Rattle.swift_calls.specs.History.{budget, present, FaultFree};
ghost use Rattle.account_calls.specs.declared.state.Known.TheVariants.{Unsure};
ghost use Rattle.account_calls.specs.Calls.{Any, Met};
ghost use Rattle.recovery.specs.declared.state.SettleFault.{SettleFault as unsettled};
ghost use Rattle.recovery.specs.Settling.{Settles};
ghost use Rattle.sweep.specs.Swept.{survey_of};
ghost use Rattle.sigv4.specs.Keys.{keys_of, are_keys, secret_of};
ghost use Rattle.sign_cmd.specs.Signing.{AnswersFirst, SendsFirst, SignsOn};
ghost use Rattle.sign_cmd.specs.declared.first.Signing.{Signing};
ghost use Rattle.presign_cmd.specs.Presigning.{Presigns, AnswersFirst as UrlFirst, SendsFirst as UrlSends};
ghost use Rattle.presign_cmd.specs.declared.first.Presigning.{Presigning};
ghost use Rattle.trial_cmd.specs.Served.{TrialDoes, TrialReplied};
ghost use Rattle.trial_cmd.specs.declared.serve.Trial.{Trial as trial_end};
ghost use Rattle.gateway.specs.Exchange.{Where};
ghost use Rattle.gateway.specs.World.{world, IsObservable, Continues};
ghost use Rattle.gateway_cmd.specs.Facts.{Apart, Does, Fits, HasWorked, ends_by_store, is_possible, is_serving, is_signing, tells, uses_line};
ghost use Rattle.gateway_cmd.specs.Report.{is_plain, IsStatus, Says, Reports, end_of, outcome_of_presigning, recovered, surveyed_line, swept_line, trial_report_line, code_of, line_of, outcome_of_trial};
ghost use Rattle.gateway_cmd.specs.Tasks.{asked_for, to_serve, to_sign, to_presign, to_recover, to_sweep, to_check, Serving, service_of, to_try};
ghost use Rattle.gateway_cmd.specs.declared.status.RunOutcome.{RunOutcome as how};
ghost use Rattle.gateway_cmd.specs.declared.status.RunOutcome.TheVariants as ends;
ghost use Rattle.gateway_cmd.specs.declared.status.Status.TheVariants.{Done};
ghost use Rattle.gateway_cmd.specs.Run.{RunTraced, RunStands, RunRefines};
ghost use Rattle.gateway_cmd.specs.Session.{LineServed, StoreRecovered, StoreTried};
ghost use Rattle.gateway_cmd.specs.Sweeps.{LeavesSwept, StoreSurveyed, StoreSwept, Surveys, Sweeps};

use crate::attempt::attempt;
use crate::status::{RunOutcome, Status, Told, inconsistent_line, run_report_lines};
use gate_base::{Bytes, Clock, Draws, Line, Sink};
use std::alloc::Global;
use swift_calls::Swift;

/// A whole run of `s3gate` with these words, which follow the program's name, by the keys of a key text (see
/// [`sigv4::Keys::read`]). `session` serves the connections of the line, `serve` no more of them than the words say,
/// `sign` signs its first request, and `presign` makes a URL of it for the moment that the clock gives. `recover` settles the
/// store; `sweep` settles it, removes what is left over on its account, and forgets the completions from before a moment; `check`
/// counts what stands on the account, and writes nothing; `trial` answers so many requests over the store that a number determines.
/// The answer is the exit status: 0 where no connection is left to serve, or the signature, the URL, that the store is settled, what
/// was removed or counted, or how the trial was answered was reported; 2 where the words are refused (see
/// [`gateway_cli::read_words`]), or the key text, or it hasn't the key that is to sign; 3 where the line failed to give another
/// connection, or at all while a request was to be signed; 4 where the store failed while it was to be settled, swept or counted, or
/// under a trial's read; 5 where memory ran out; 6 where the report of what was done failed; 7 where the store then answered what it
/// doesn't over a consistent account; 8 where no request stood first on the line, or one that can't be signed, or have a URL.
///
/// Of a run that serves, three clauses say what became of its requests, each with its span: the numbers of calls before
/// it, as its operation began, at its commit point, and after it. `traced` is over every store, `account` over every line,
/// and `refines` joins both. So an account that is consistent at entry is left consistent also where a run is stopped (see
/// [`crate::law_many_runs_of_all`]).
pub fn run<N: Line<W>, R: Sink, W: Swift, C: Clock, D: Draws>(
    alloc: Global,
    words: &[String],
    keys: &str,
    line: &mut N,
    report: &mut R,
    store: &mut W,
    clock: &mut C,
    draws: &mut D,
) -> u8
    // The causes of the status. 5, out of memory, may come at any time: no clause gives its cause.
    ensures status { IsStatus result }
    ensures usage { result ≡ 2 → is_possible (asked_for words.now) keys.now ≡ false }
    ensures refused { is_possible (asked_for words.now) keys.now ≡ false → (result ≡ 5 → ⊥)
        → result ≡ 2 }
    ensures line { result ≡ 3 → uses_line (asked_for words.now) ≡ true }
    ensures store { (result ≡ 4) ⊎ (result ≡ 7)
        → (is_possible (asked_for words.now) keys.now ≡ true)
        × (ends_by_store (asked_for words.now) ≡ true) }
    ensures request { result ≡ 8 → (is_possible (asked_for words.now) keys.now ≡ true)
        × (is_signing (asked_for words.now) ≡ true) }

    // Words and keys that are refused touch nothing but the report; and each task leaves alone what it has no use for.
    ensures idle { is_possible (asked_for words.now) keys.now ≡ false → (line.new ≡ line.old)
        × (store.new ≡ store.old) × (clock.new ≡ clock.old) × (draws.new ≡ draws.old) }
    ensures apart { Apart (asked_for words.now) (line.new ≡ line.old) (store.new ≡ store.old)
        (clock.new ≡ clock.old) (draws.new ≡ draws.old) }

    // A run that serves, and what it does to the line: 3 comes only where the line failed to give a connection, and 0 only where all
    // connections were served, or as many as were asked for. Where the line's count of faults did not rise, none failed.
    ensures serving { (serving : Serving) → asked_for words.now ≡ to_serve serving
        → LineServed serving (result == 3) (result == 0) (N.model line.old) (N.model line.new) }

    // A run that signs, or makes a URL: at most one connection of the line begins, and at most the interim line is sent on it: 3 comes only where
    // the line failed.
    ensures signing { (id region : List ℕ) → asked_for words.now ≡ to_sign id region
        → SignsOn (result == 3) (W.history store.old).called (N.model line.old) (N.model line.new) }

    ensures presigning { (id region : List ℕ) (expires : ℕ) → asked_for words.now ≡ to_presign id region expires
        → SignsOn (result == 3) (W.history store.old).called (N.model line.old) (N.model line.new) }

    // A run that settles: 4 comes only where the store's count of faults rose, and 7 never over a consistent account. The state of the
    // account stays at each number of calls, whatever the status; by 0 and 6 no completion is sealed on it any more.
    ensures recovering { asked_for words.now ≡ to_recover
        → StoreRecovered result (W.history store.old) (W.history store.new) }

    // A run that sweeps: 4 comes only where the store's count of faults rose, and 7 never over a consistent account. Whatever the
    // status, at each number of calls the state is the one at entry without the first of the completions that are to be forgotten.
    // By 0 and 6 the account was swept from the number of calls at which it was settled: nothing is left over on it, and the counts
    // are what the report says.
    ensures sweeping { (before : ℕ) → asked_for words.now ≡ to_sweep before
        → StoreSwept before result (W.history store.old) (W.history store.new) }
    ensures swept { (before : ℕ) → asked_for words.now ≡ to_sweep before → Met Any (W.history store.old)
        → (result ≡ 0) ⊎ (result ≡ 6)
        → (leaves : LeavesSwept before (W.history store.old) (W.history store.new))
        × Reports (swept_line leaves.swept) (R.model report.old) (R.model report.new) }

    // A run that surveys: 4 and 7 come as above, and the state stays at each number of calls. By 0 and 6 the account is left as it is,
    // and the report says what stands on it.
    ensures checking { asked_for words.now ≡ to_check
        → StoreSurveyed result (W.history store.old) (W.history store.new) }
    ensures surveyed { asked_for words.now ≡ to_check → Met Any (W.history store.old)
        → (result ≡ 0) ⊎ (result ≡ 6)
        → Reports (surveyed_line (survey_of (present (W.history store.old)))) (R.model report.old) (R.model report.new) }

    // A run that tries the store: 4 comes only where the store's count of faults rose, and 7 never over a consistent account.
    ensures trying { (number requests : ℕ) → asked_for words.now ≡ to_try number requests
        → StoreTried result (W.history store.old) (W.history store.new) }

    // By 0 and 6, where that count did not rise, what was written for the requests are their replies in print alone, each in whole: none
    // is ServiceUnavailable or the out-of-memory reply, and over an observable store with a consistent account (true) each is the
    // machine's. The report has the number of these bytes and their hash.
    ensures replied { (number requests : ℕ) → asked_for words.now ≡ to_try number requests
        → (result ≡ 0) ⊎ (result ≡ 6)
        → (Rose (W.history store.old).faults (W.history store.new).faults → ⊥)
        → (all : Bool) → Where all (Met Any (W.history store.old)) → (output : List ℕ)
        × TrialReplied all number requests (W.history store.old) output (W.history store.new)
        × Reports (trial_report_line requests (min (length output) (2 ^ 64 - 1)) (sha256 output))
        (R.model report.old) (R.model report.new) }

    // The task was done as its end says, over line, store, clock and draws. The report has the lines of that end, and nothing else;
    // where its count of faults rose, the first bytes of them. It is left alone where all connections were served.
    ensures report { (ended : how) × (text : List ℕ) × Fits (asked_for words.now) ended
        × Does (asked_for words.now) keys.now ended
        (world (N.model line.old) (W.history store.old) Unsure (C.model clock.old) (D.model draws.old))
        (λ known. world (N.model line.new) (W.history store.new) known (C.model clock.new) (D.model draws.new))
        × Says ended result text × Reports text (R.model report.old) (R.model report.new) }
    ensures silent { is_serving (asked_for words.now) ≡ true → result ≡ 0
        → report.new ≡ report.old }
    ensures unreported { result ≡ 6 → (is_some (tells (asked_for words.now)) ≡ true)
        × Rose (R.model report.old).faults (R.model report.new).faults }
    ensures reported { is_some (tells (asked_for words.now)) ≡ true → result ≡ 0
        → (R.model report.new).faults ≡ (R.model report.old).faults }

    // What was observable still is, and what the store told of its calls before the run stays. Where its count of faults
    // did not rise and calls are left, no call failed. `Continues` reads nothing of `Unsure`, which fills a place.
    ensures on { Continues
        (world (N.model line.old) (W.history store.old) Unsure (C.model clock.old) (D.model draws.old))
        (world (N.model line.new) (W.history store.new) Unsure (C.model clock.new) (D.model draws.new)) }
    ensures fault_free { IsTrue (W.history store.old).observable
        → (W.history store.new).called < budget
        → (Rose (W.history store.old).faults (W.history store.new).faults → ⊥)
        → FaultFree (W.history store.new) (W.history store.old).called
        (W.history store.new).called }

    // Where line, clock and draws are observable, a run that serves is a trace: its connections in order, none skipped, and
    // of each the requests in order. The interim line is sent where it is owed for a request, before its first call; the bytes
    // that are expected for the request, or where the line failed under them the first of these, are sent at its commit point
    // or later, and before the next request's first call. Over every store a
    // request that is no operation gets its code without a call, ServiceUnavailable comes only where the store's count of
    // faults rose, and no call lies outside the spans.
    ensures traced { (serving : Serving) → asked_for words.now ≡ to_serve serving
        → IsObservable (world (N.model line.old) (W.history store.old) Unsure (C.model clock.old) (D.model draws.old))
        → RunTraced (service_of serving keys.now)
        (world (N.model line.old) (W.history store.old) Unsure (C.model clock.old) (D.model draws.old))
        (λ known. world (N.model line.new) (W.history store.new) known (C.model clock.new) (D.model draws.new)) }

    // Where the store is observable, and its account is consistent at entry, the account stays consistent, and goes
    // through the steps of requests that follow one another, whatever the line tells of them.
    ensures account { (serving : Serving) → asked_for words.now ≡ to_serve serving → Met Any (W.history store.old)
        → RunStands serving.settings (W.history store.new) (W.history store.old).called (W.history store.new).called }

    // Under the premises of both, the replies are the machine's too, each after its step.
    ensures refines { (serving : Serving) → asked_for words.now ≡ to_serve serving
        → IsObservable (world (N.model line.old) (W.history store.old) Unsure (C.model clock.old)
        (D.model draws.old)) → Met Any (W.history store.old)
        → RunRefines (service_of serving keys.now) (W.history store.new)
        (world (N.model line.old) (W.history store.old) Unsure (C.model clock.old)
        (D.model draws.old)) (λ known. world (N.model line.new) (W.history store.new) known
        (C.model clock.new) (D.model draws.new)) }

    // Over an observable store, whose account is consistent at entry, a run is one that may stand among others (see
    // [`crate::law_many_runs_of_all`]): it answers requests, or leaves the state, or forgets completions.
    ensures works { Met Any (W.history store.old)
        → HasWorked (asked_for words.now) (W.history store.old) (W.history store.new) }

    // What is signed is the line's first request, by the secret of the key. Nothing was sent but the interim line, where it is owed.
    ensures effect_signed { (id region secret : List ℕ) → asked_for words.now ≡ to_sign id region
        → are_keys (keys_of keys.now) ≡ true → secret_of id (keys_of keys.now) ≡ Some secret
        → IsTrue (N.model line.old).observable → (result ≡ 5 → ⊥) → (signing : Signing)
        × AnswersFirst secret region (N.model line.old).transcript.waiting signing
        × SendsFirst (W.history store.old).called (N.model line.old).transcript signing
        (N.model line.new).transcript × (text : List ℕ) × Says (end_of signing) result text
        × Reports text (R.model report.old) (R.model report.new) }

    // The URL is one of the line's first request, by the secret of the key, for the moment that the clock gave.
    ensures effect_presigned { (id region secret : List ℕ) (expires : ℕ)
        → asked_for words.now ≡ to_presign id region expires → are_keys (keys_of keys.now) ≡ true
        → secret_of id (keys_of keys.now) ≡ Some secret → IsTrue (N.model line.old).observable
        → (result ≡ 5 → ⊥) → (moment : ℕ) × ClockNow (C.model clock.old) moment (C.model clock.new)
        × (presigning : Presigning)
        × UrlFirst (Presigns secret id region moment expires) (N.model line.old).transcript.waiting
        presigning × UrlSends (W.history store.old).called (N.model line.old).transcript presigning
        (N.model line.new).transcript × (text : List ℕ) × Says (outcome_of_presigning presigning) result text
        × Reports text (R.model report.old) (R.model report.new) }

    // The store was settled, and how that ended is what is reported.
    ensures effect_recovered { asked_for words.now ≡ to_recover → are_keys (keys_of keys.now) ≡ true
        → (result ≡ 5 → ⊥) → (settled : result_of (Unit {0}) unsettled)
        × Settles (W.history store.old) (W.history store.new) settled × (text : List ℕ)
        × Says (recovered settled) result text
        × Reports text (R.model report.old) (R.model report.new) }

    // The account was swept, or surveyed, and how that ended is what is reported.
    ensures effect_swept { (before : ℕ) → asked_for words.now ≡ to_sweep before → are_keys (keys_of keys.now) ≡ true
        → (result ≡ 5 → ⊥) → (ended : how)
        × Sweeps before ended (W.history store.old) (W.history store.new) × (text : List ℕ)
        × Says ended result text × Reports text (R.model report.old) (R.model report.new) }
    ensures effect_surveyed { asked_for words.now ≡ to_check → are_keys (keys_of keys.now) ≡ true
        → (result ≡ 5 → ⊥) → (ended : how)
        × Surveys ended (W.history store.old) (W.history store.new) × (text : List ℕ)
        × Says ended result text × Reports text (R.model report.old) (R.model report.new) }

    // The requests of the number were answered as one connection over the store, and how that ended is what is reported.
    ensures effect_tried { (number requests : ℕ) → asked_for words.now ≡ to_try number requests
        → are_keys (keys_of keys.now) ≡ true → (result ≡ 5 → ⊥) → (trial : trial_end)
        × TrialDoes number requests (W.history store.old) (Ok trial) (W.history store.new)
        × (text : List ℕ) × Says (outcome_of_trial requests trial) result text
        × Reports text (R.model report.old) (R.model report.new) }
{
    let ended = attempt(alloc, words, keys, line, store, clock, draws);
    tell(alloc, ended, report)
}

/// Reports how a run ended. The answer is its exit status.
fn tell<R: Sink>(alloc: Global, ended: RunOutcome, report: &mut R) -> u8
    ensures says { (text : List ℕ) × Says ended result text
        × Reports text (R.model report.old) (R.model report.new) }
    ensures silent { ended ≡ ends.Plain Done → report.new ≡ report.old }
    ensures unreported { result ≡ 6 → (is_plain ended ≡ false)
        × Rose (R.model report.old).faults (R.model report.new).faults }
    ensures reported { is_plain ended ≡ false → result ≡ 0
        → (R.model report.new).faults ≡ (R.model report.old).faults }
{
    match ended {
        RunOutcome::Told(told) => tell_told(alloc, &told, report),
        RunOutcome::Inconsistent { container, name } => {
            tell_inconsistent(alloc, &container, &name, report)
        }
        RunOutcome::Plain(status) => tell_run_status(status, report),
    }
}

/// Reports how a run ended that has nothing to tell: nothing where all was done.
fn tell_run_status<R: Sink>(status: Status, report: &mut R) -> u8
    ensures code { result ≡ code_of status }
    ensures reports { Reports (line_of status) (R.model report.old) (R.model report.new) }
    ensures silent { status ≡ Done → report.new ≡ report.old }
{
    if let Status::Done = status {
        return 0;
    }
    let _ = report.put(status.line());
    status.code()
}

/// Reports what a run has to tell. The status says whether it could.
fn tell_told<R: Sink>(alloc: Global, told: &Told, report: &mut R) -> u8
    ensures says { (text : List ℕ) × Says (ends.Told told.now) result text
        × Reports text (R.model report.old) (R.model report.new) }
    ensures unreported { result ≡ 6 → Rose (R.model report.old).faults (R.model report.new).faults }
    ensures reported { result ≡ 0 → (R.model report.new).faults ≡ (R.model report.old).faults }
{
    match run_report_lines(alloc, told) {
        Ok(lines) => match report.put(lines.as_slice()) {
            Ok(()) => 0,
            Err(_) => 6,
        },
        Err(_) => tell_run_status(Status::Memory, report),
    }
}

/// Reports of which object the store answered what it doesn't over a consistent account.
fn tell_inconsistent<R: Sink>(alloc: Global, container: &Bytes, name: &Bytes, report: &mut R) -> u8
    ensures says { (text : List ℕ) × Says (ends.Inconsistent container.now name.now) result text
        × Reports text (R.model report.old) (R.model report.new) }
    ensures code { (result ≡ 7) ⊎ (result ≡ 5) }
{
    match inconsistent_line(alloc, container.as_slice(), name.as_slice()) {
        Ok(line) => {
            let _ = report.put(line.as_slice());
            7
        }
        Err(_) => tell_run_status(Status::Memory, report),
    }
}
