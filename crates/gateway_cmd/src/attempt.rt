//! A run but for its report: the words, and then the command that they name.
ghost use Rattle.std.specs.Prelude.{◌≡◌, ◌≢◌, ◌≤◌, ℕ, true, false, IsTrue, List, Some, None};
ghost use Rattle.gate_base.specs.Told.{ClockNow};
ghost use Rattle.account_calls.specs.declared.state.Known.{Known as what_is_known};
ghost use Rattle.account_calls.specs.declared.state.Known.TheVariants.{Unsure};
ghost use Rattle.sigv4.specs.Keys.{keys_of, are_keys, secret_of};
ghost use Rattle.sign_cmd.specs.Signing.{AnswersFirst, SendsFirst, SignsOn};
ghost use Rattle.sign_cmd.specs.declared.first.Signing.{Signing};
ghost use Rattle.presign_cmd.specs.Presigning.{Presigns, AnswersFirst as UrlFirst, SendsFirst as UrlSends};
ghost use Rattle.presign_cmd.specs.declared.first.Presigning.{Presigning};
ghost use Rattle.gateway_cli.specs.Words.{IsProper, is_region};
ghost use Rattle.gateway.specs.World.{world, world_as, world_known, Continues, IsUntouched, ServesOver, StaysLent};
ghost use Rattle.gateway_cmd.specs.Facts.{Apart, Does, Fits, is_possible};
ghost use Rattle.gateway_cmd.specs.Report.{Admits, is_done, is_failed_run, end_of, outcome_of_presigning};
ghost use Rattle.gateway_cmd.specs.Tasks.{asked_for, settings_of, task_of, to_serve, to_sign, to_presign};
ghost use Rattle.gateway_cmd.specs.declared.status.RunOutcome.TheVariants as ended;
ghost use Rattle.gateway_cmd.specs.declared.status.Status.TheVariants as status;
ghost use Rattle.gateway_cmd.specs.Run.{RunTraces};
ghost use Rattle.gateway_cmd.specs.Session.{LineServed};

use crate::keys::read_keys;
use crate::recover::recover;
use crate::session::session;
use crate::status::{RunOutcome, Status, Told};
use crate::sweeping::{check_account, sweep_account};
use crate::trial::try_store;
use account_calls::Known;
use gate_base::{Bytes, Clock, Draws, Line, drop};
use gateway::{Service, World};
use gateway_cli::{Command, WordsFault, read_words};
use http_service::Stopped;
use presign::UrlSigner;
use presign_cmd::{Presigning, presign_first};
use s3_machine::Settings;
use sign_cmd::{Signing, sign_first};
use sigv4::Keys;
use std::alloc::Global;
use swift_calls::Swift;

/// Reads the words, and does what they ask for. It is the first that is done over the store: nothing is known of it.
pub fn attempt<N: Line<W>, W: Swift, C: Clock, D: Draws>(
    alloc: Global,
    words: &[String],
    keys: &str,
    line: &mut N,
    store: &mut W,
    clock: &mut C,
    draws: &mut D,
) -> RunOutcome
    ensures admits { Admits (is_possible (asked_for words.now) keys.now) result }
    ensures fits { Fits (asked_for words.now) result }
    ensures idle { is_possible (asked_for words.now) keys.now ≡ false → (line.new ≡ line.old)
        × (store.new ≡ store.old) × (clock.new ≡ clock.old) × (draws.new ≡ draws.old) }
    ensures apart { Apart (asked_for words.now) (line.new ≡ line.old) (store.new ≡ store.old)
        (clock.new ≡ clock.old) (draws.new ≡ draws.old) }
    ensures on { Continues
        (world (N.model line.old) (W.history store.old) Unsure (C.model clock.old) (D.model draws.old))
        (world (N.model line.new) (W.history store.new) Unsure (C.model clock.new) (D.model draws.new)) }
    ensures does { Does (asked_for words.now) keys.now result
        (world (N.model line.old) (W.history store.old) Unsure (C.model clock.old) (D.model draws.old))
        (world_known (N.model line.new) (W.history store.new) (C.model clock.new)
        (D.model draws.new)) }
{
    let mut lent = World::over(line, store, clock, draws);
    perform_by_words(alloc, words, keys, &mut lent)
}

/// The same, over what is lent as one.
fn perform_by_words<N: Line<W>, W: Swift, C: Clock, D: Draws>(
    alloc: Global,
    words: &[String],
    keys: &str,
    lent: &mut World<'_, N, W, C, D>,
) -> RunOutcome
    ensures stays { StaysLent lent.old lent.new }
    ensures admits { Admits (is_possible (asked_for words.now) keys.now) result }
    ensures fits { Fits (asked_for words.now) result }
    ensures idle { is_possible (asked_for words.now) keys.now ≡ false
        → IsUntouched lent.old lent.new }
    ensures apart { Apart (asked_for words.now) (lent.new.line.now ≡ lent.old.line.now)
        (lent.new.store.now ≡ lent.old.store.now) (lent.new.clock.now ≡ lent.old.clock.now)
        (lent.new.draws.now ≡ lent.old.draws.now) }
    ensures on { Continues
        (world_as N.model W.history C.model D.model lent.old Unsure)
        (world_as N.model W.history C.model D.model lent.new Unsure) }
    ensures does { Does (asked_for words.now) keys.now result
        (world_as N.model W.history C.model D.model lent.old Unsure)
        (world_as N.model W.history C.model D.model lent.new) }
{
    match read_words(alloc, words) {
        Ok(command) => perform_by_key_text(alloc, command, keys, lent),
        Err(WordsFault::Refused) => RunOutcome::Plain(Status::Usage),
        Err(WordsFault::Memory) => RunOutcome::Plain(Status::Memory),
    }
}

/// Does what is asked for, by the keys of a key text.
fn perform_by_key_text<N: Line<W>, W: Swift, C: Clock, D: Draws>(
    alloc: Global,
    command: Command,
    keys: &str,
    lent: &mut World<'_, N, W, C, D>,
) -> RunOutcome
    requires { IsProper command }
    ensures stays { StaysLent lent.old lent.new }
    ensures admits { Admits (is_possible (task_of (Some command)) keys.now) result }
    ensures fits { Fits (task_of (Some command)) result }
    ensures idle { is_possible (task_of (Some command)) keys.now ≡ false
        → IsUntouched lent.old lent.new }
    ensures apart { Apart (task_of (Some command)) (lent.new.line.now ≡ lent.old.line.now)
        (lent.new.store.now ≡ lent.old.store.now) (lent.new.clock.now ≡ lent.old.clock.now)
        (lent.new.draws.now ≡ lent.old.draws.now) }
    ensures on { Continues
        (world_as N.model W.history C.model D.model lent.old Unsure)
        (world_as N.model W.history C.model D.model lent.new Unsure) }
    ensures does { Does (task_of (Some command)) keys.now result
        (world_as N.model W.history C.model D.model lent.old Unsure)
        (world_as N.model W.history C.model D.model lent.new) }
{
    match read_keys(alloc, keys) {
        Ok(keys) => perform_by_keys(alloc, command, keys, lent),
        Err(status) => {
            drop(command);
            RunOutcome::Plain(status)
        }
    }
}

/// Does what is asked for, by keys. What it does is said of each text that has these keys.
fn perform_by_keys<N: Line<W>, W: Swift, C: Clock, D: Draws>(
    alloc: Global,
    command: Command,
    keys: Keys,
    lent: &mut World<'_, N, W, C, D>,
) -> RunOutcome
    requires proper { IsProper command }
    requires keys { are_keys keys ≡ true }
    ensures stays { StaysLent lent.old lent.new }
    ensures admits { (text : List ℕ) → keys ≡ keys_of text
        → Admits (is_possible (task_of (Some command)) text) result }
    ensures fits { Fits (task_of (Some command)) result }
    ensures idle { (text : List ℕ) → keys ≡ keys_of text
        → is_possible (task_of (Some command)) text ≡ false → IsUntouched lent.old lent.new }
    ensures apart { Apart (task_of (Some command)) (lent.new.line.now ≡ lent.old.line.now)
        (lent.new.store.now ≡ lent.old.store.now) (lent.new.clock.now ≡ lent.old.clock.now)
        (lent.new.draws.now ≡ lent.old.draws.now) }
    ensures on { Continues
        (world_as N.model W.history C.model D.model lent.old Unsure)
        (world_as N.model W.history C.model D.model lent.new Unsure) }
    ensures does { (text : List ℕ) → keys ≡ keys_of text → Does (task_of (Some command)) text result
        (world_as N.model W.history C.model D.model lent.old Unsure)
        (world_as N.model W.history C.model D.model lent.new) }
{
    match command {
        Command::Session {
            region,
            least_part,
            largest_body,
            extended,
        } => {
            let settings = settings_of(region, least_part, largest_body, extended);
            RunOutcome::Plain(serve(alloc, settings, keys, None, lent))
        }
        Command::Serve {
            region,
            connections,
            least_part,
            largest_body,
            extended,
        } => {
            let settings = settings_of(region, least_part, largest_body, extended);
            RunOutcome::Plain(serve(alloc, settings, keys, Some(connections), lent))
        }
        Command::Recover => recover(alloc, lent.store),
        Command::Sweep { before } => sweep_account(alloc, before, lent.store),
        Command::Check => check_account(alloc, lent.store),
        Command::Trial { number, requests } => try_store(alloc, number, requests, lent.store),
        Command::Sign { key, region } => {
            let by = SigningKey {
                keys: &keys,
                id: &key,
                region: &region,
            };
            sign(alloc, &by, lent.line, lent.store)
        }
        Command::Presign {
            key,
            region,
            expires,
        } => {
            let by = SigningKey {
                keys: &keys,
                id: &key,
                region: &region,
            };
            presign(alloc, &by, expires, lent.line, lent.store, lent.clock)
        }
    }
}

/// The settings of a service of that region, with that least part, that largest body, and whether it is extended.
fn settings_of(region: Bytes, least_part: u64, largest_body: u64, extended: bool) -> Settings
    ensures { result ≡ settings_of region least_part largest_body extended }
{
    Settings {
        extended,
        ..Settings::strict(region, least_part, largest_body)
    }
}

/// Serves the connections of the line, so many at most.
fn serve<N: Line<W>, W: Swift, C: Clock, D: Draws>(
    alloc: Global,
    settings: Settings,
    keys: Keys,
    most: Option<u64>,
    lent: &mut World<'_, N, W, C, D>,
) -> Status
    ensures stays { StaysLent lent.old lent.new }
    ensures fits { Fits (to_serve (record { settings = settings; most = most })) (ended.Plain result) }
    ensures taken { ended.Plain result ≢ ended.Plain status.Usage }
    ensures line { LineServed (record { settings = settings; most = most })
        (is_failed_run (ended.Plain result)) (is_done (ended.Plain result))
        (N.model lent.old.line.now) (N.model lent.new.line.now) }
    ensures serves { (known : what_is_known)
        × ServesOver settings (RunTraces (record { settings = settings; keys = keys }))
        (world_as N.model W.history C.model D.model lent.old Unsure)
        (world_as N.model W.history C.model D.model lent.new known) }
{
    let service = Service { settings, keys };
    lent.known = Known::Unsure;
    match session(alloc, &service, most, lent) {
        Stopped::Done => Status::Done,
        Stopped::Line => Status::Line,
    }
}

/// The key that is to sign: its id among the keys, for a region.
#[derive(Drop)]
struct SigningKey<'a> {
    keys: &'a Keys,
    id: &'a Bytes,
    region: &'a Bytes,
}

/// Signs the first request of the line by that key.
fn sign<N: Line<W>, W: Swift>(
    alloc: Global,
    by: &SigningKey<'_>,
    line: &mut N,
    store: &W,
) -> RunOutcome
    ensures usage { result ≡ ended.Plain status.Usage → secret_of by.now.id.now by.now.keys.now
        ≡ None }
    ensures refused { secret_of by.now.id.now by.now.keys.now ≡ None
        → (result ≡ ended.Plain status.Usage)
        × (line.new ≡ line.old) }
    ensures fits { (id region : List ℕ) → Fits (to_sign id region) result }
    ensures line { SignsOn (is_failed_run result) (W.history store.now).called (N.model line.old)
        (N.model line.new) }
    ensures effect { (secret : List ℕ) → secret_of by.now.id.now by.now.keys.now ≡ Some secret
        → IsTrue (N.model line.old).observable → (signing : Signing)
        × AnswersFirst secret by.now.region.now (N.model line.old).transcript.waiting signing
        × SendsFirst (W.history store.now).called (N.model line.old).transcript signing
        (N.model line.new).transcript × (result ≡ end_of signing) }
{
    match by.keys.secret(by.id.as_slice()) {
        Some(secret) => end_of(sign_first(alloc, secret, by.region.as_slice(), line, store)),
        None => RunOutcome::Plain(Status::Usage),
    }
}

/// Makes a URL of the first request of the line by that key, for the moment that the clock gives.
fn presign<N: Line<W>, W: Swift, C: Clock>(
    alloc: Global,
    by: &SigningKey<'_>,
    expires: u64,
    line: &mut N,
    store: &W,
    clock: &mut C,
) -> RunOutcome
    requires keys { are_keys by.now.keys.now ≡ true }
    requires region { is_region by.now.region.now ≡ true }
    requires least { 1 ≤ expires }
    requires most { expires ≤ 604800 }
    ensures usage { result ≡ ended.Plain status.Usage → secret_of by.now.id.now by.now.keys.now
        ≡ None }
    ensures refused { secret_of by.now.id.now by.now.keys.now ≡ None
        → (result ≡ ended.Plain status.Usage)
        × (line.new ≡ line.old) × (clock.new ≡ clock.old) }
    ensures fits { (id region : List ℕ) (expires : ℕ) → Fits (to_presign id region expires) result }
    ensures line { SignsOn (is_failed_run result) (W.history store.now).called (N.model line.old)
        (N.model line.new) }
    ensures clock { IsTrue (C.model clock.old).observable → IsTrue (C.model clock.new).observable }
    ensures effect { (secret : List ℕ) → secret_of by.now.id.now by.now.keys.now ≡ Some secret
        → IsTrue (N.model line.old).observable → (moment : ℕ)
        × ClockNow (C.model clock.old) moment (C.model clock.new) × (presigning : Presigning)
        × UrlFirst (Presigns secret by.now.id.now by.now.region.now moment expires)
        (N.model line.old).transcript.waiting presigning
        × UrlSends (W.history store.now).called (N.model line.old).transcript presigning
        (N.model line.new).transcript × (result ≡ outcome_of_presigning presigning) }
{
    match by.keys.secret(by.id.as_slice()) {
        Some(secret) => {
            let signer = UrlSigner {
                secret,
                id: by.id.as_slice(),
                region: by.region.as_slice(),
                moment: clock.now(),
                expires,
            };
            outcome_of_presigning(presign_first(alloc, &signer, line, store))
        }
        None => RunOutcome::Plain(Status::Usage),
    }
}

/// How a run ends that was to make a URL.
fn outcome_of_presigning(presigning: Presigning) -> RunOutcome
    ensures { result ≡ outcome_of_presigning presigning }
{
    match presigning {
        Presigning::Url(url) => RunOutcome::Told(Told::Url(url)),
        Presigning::NoRequest => RunOutcome::Plain(Status::Request),
        Presigning::LineFailed => RunOutcome::Plain(Status::Line),
        Presigning::Memory => RunOutcome::Plain(Status::Memory),
    }
}

/// How a run ends that was to sign.
fn end_of(signing: Signing) -> RunOutcome
    ensures { result ≡ end_of signing }
{
    match signing {
        Signing::Signed(signed) => RunOutcome::Told(Told::Signature(signed)),
        Signing::NoRequest => RunOutcome::Plain(Status::Request),
        Signing::LineFailed => RunOutcome::Plain(Status::Line),
        Signing::Memory => RunOutcome::Plain(Status::Memory),
    }
}
