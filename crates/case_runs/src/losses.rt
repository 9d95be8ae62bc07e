//! Any call may fail, and the client still sees one service: the one request of a case is made anew with each loss of each
//! of its calls, and a new run, the probe, looks at the account after each number of calls.
use crate::machine::machine_after_setup;
use crate::play::First;
use crate::program::Program;
use crate::running::{failing_store_for_run, run_program_on_store, unfailing_store_for_run};
use case_text::{
    Fault, Given, LARGE, Told, has_given_line, is_piece_service_unavailable, line_of_run,
    tell_pieces_without_calls, tell_statuses_of_pieces,
};
use gate_base::{Counted, List, MemLine, Piece};
use planned_swift::MemSwift;
use std::alloc::Global;

/// How a call is lost: its request, its answer, or all from it on.
const LOSSES: [&str; 3] = ["before ", "after ", "stop "];

/// What a sweep compares with: the texts of the answer without a loss, of what the probe sees before the request took effect and
/// after, and the call by which it took effect, or 0.
#[derive(Clone, Copy)]
struct Ordinary<'a> {
    answer: &'a str,
    before: &'a str,
    after: &'a str,
    commit: u64,
}

/// What is given to the requests and to the probe, and what stood before.
#[derive(Clone, Copy)]
struct Setting<'a> {
    first: &'a First<'a>,
    given: Given<'a>,
    probe: Given<'a>,
}

/// A call that is lost, and how.
#[derive(Clone, Copy)]
struct Loss {
    word: &'static str,
    call: u64,

    /// Whether the request takes effect all the same.
    is_done: bool,
}

/// Tells the statuses that the probe is answered before the request and after it, and all that isn't as it is to be.
pub(crate) fn sweep_case<P: Program>(
    alloc: Global,
    program: &P,
    first: &First,
    given: Given<'_>,
    told: &mut Told,
) {
    let setting = Setting {
        first,
        given,
        probe: Given {
            lines: given.lines,
            word: "probe",
        },
    };
    if let Some(mut store) = unfailing_store_for_run(
        alloc,
        first.store,
        first.store.calls(),
        told,
    ) {
        sweep_over(alloc, program, &setting, &mut store, told);
    }
}

fn sweep_over<P: Program>(
    alloc: Global,
    program: &P,
    setting: &Setting,
    store: &mut MemSwift,
    told: &mut Told,
) {
    if let Some(mut line) = line_of_run(alloc, setting.given, LARGE, told) {
        let mut answer = Told::new(alloc);
        tell_answers_for_sweep(alloc, program, setting.given, store, &mut line, &mut answer);
        told.note_fault_of(&answer);
        sweep_with_probes(
            alloc,
            program,
            setting,
            store,
            line.pieces(),
            answer.text(),
            told,
        );
    }
}

/// Runs the program, and tells what it answers, and nothing of calls.
fn tell_answers_for_sweep<P: Program>(
    alloc: Global,
    program: &P,
    given: Given<'_>,
    store: &mut MemSwift,
    line: &mut MemLine,
    told: &mut Told,
) {
    let _done = run_program_on_store(alloc, program, given, store, line, told);
    tell_pieces_without_calls(alloc, line.pieces(), told);
}

fn sweep_with_probes<P: Program>(
    alloc: Global,
    program: &P,
    setting: &Setting,
    made: &MemSwift,
    pieces: &[Piece],
    answer: &str,
    told: &mut Told,
) {
    let mut before = Told::new(alloc);
    probe_with_machine(
        alloc,
        program,
        setting,
        &[],
        setting.first.store,
        "before",
        &mut before,
        told,
    );
    let mut after = Told::new(alloc);
    probe_with_machine(
        alloc, program, setting, pieces, made, "after", &mut after, told,
    );
    let texts = Ordinary {
        answer,
        before: before.text(),
        after: after.text(),
        commit: 0,
    };
    sweep_each_loss(alloc, program, setting, made, &texts, told);
}

/// What the probe sees on the account of a store, behind a request that was answered by these pieces. It is what the machine
/// answers, where that is asked.
fn probe_with_machine<P: Program>(
    alloc: Global,
    program: &P,
    setting: &Setting,
    pieces: &[Piece],
    store: &MemSwift,
    word: &str,
    seen: &mut Told,
    told: &mut Told,
) {
    if let Some(mut line) = line_of_run(alloc, setting.probe, LARGE, told) {
        probe_on_line(
            alloc,
            program,
            setting.probe,
            store,
            store.calls(),
            &mut line,
            seen,
        );
        tell_statuses_of_pieces(word, line.pieces(), told);
        compare_probe_with_machine(alloc, setting, pieces, line.pieces(), told);
    }
}

fn probe_on_line<P: Program>(
    alloc: Global,
    program: &P,
    probe: Given<'_>,
    store: &MemSwift,
    at: u64,
    line: &mut MemLine,
    seen: &mut Told,
) {
    if let Some(mut later) = unfailing_store_for_run(alloc, store, at, seen) {
        tell_answers_for_sweep(alloc, program, probe, &mut later, line, seen);
    }
}

fn compare_probe_with_machine(
    alloc: Global,
    setting: &Setting,
    pieces: &[Piece],
    seen: &[Piece],
    told: &mut Told,
) {
    if has_given_line(setting.given, "nomodel") {
        return;
    }
    if let Some(mut machine) = machine_after_setup(alloc, setting.first, setting.given, told) {
        machine.answer_run(setting.given, pieces, told);
        machine.answer_run(setting.probe, seen, told);
    }
}

fn sweep_each_loss<P: Program>(
    alloc: Global,
    program: &P,
    setting: &Setting,
    made: &MemSwift,
    texts: &Ordinary,
    told: &mut Told,
) {
    let commit = commit_seen_by_probe(alloc, program, setting.probe, made, texts, told);
    let ordinary = Ordinary { commit, ..*texts };
    for call in 1..=made.calls() {
        for word in &LOSSES {
            let word = *word;
            let is_done = commit != 0 && (commit < call || (call == commit && word == "after "));
            let loss = Loss {
                word,
                call,
                is_done,
            };
            sweep_one_loss(alloc, program, setting, &loss, &ordinary, told);
        }
    }
}

/// The least number of calls after which the probe sees the request done, where it can see that; else 0.
fn commit_seen_by_probe<P: Program>(
    alloc: Global,
    program: &P,
    probe: Given<'_>,
    store: &MemSwift,
    texts: &Ordinary,
    told: &mut Told,
) -> u64 {
    if texts.before == texts.after {
        return 0;
    }
    for at in 0..=store.calls() {
        if is_seen_by_probe(alloc, program, probe, store, at, texts.after) {
            return at;
        }
    }
    told.note_fault(Fault::Unread("a request that never takes effect"));
    0
}

/// Whether the probe sees this on the account that a store had after so many calls.
fn is_seen_by_probe<P: Program>(
    alloc: Global,
    program: &P,
    probe: Given<'_>,
    store: &MemSwift,
    at: u64,
    text: &str,
) -> bool {
    let mut seen = Told::new(alloc);
    probe_after_calls(alloc, program, probe, store, at, &mut seen);
    seen.text() == text
}

fn probe_after_calls<P: Program>(
    alloc: Global,
    program: &P,
    probe: Given<'_>,
    store: &MemSwift,
    at: u64,
    seen: &mut Told,
) {
    if let Some(mut line) = line_of_run(alloc, probe, LARGE, seen) {
        probe_on_line(alloc, program, probe, store, at, &mut line, seen);
    }
}

fn sweep_one_loss<P: Program>(
    alloc: Global,
    program: &P,
    setting: &Setting,
    loss: &Loss,
    ordinary: &Ordinary,
    told: &mut Told,
) {
    if let Some(mut store) = losing_store(alloc, setting.first.store, loss, told) {
        sweep_loss_over_store(alloc, program, setting, loss, &mut store, ordinary, told);
    }
}

/// A store with the account that another has, which loses the call.
fn losing_store(alloc: Global, first: &MemSwift, loss: &Loss, told: &mut Told) -> Option<MemSwift> {
    let before = numbers_of_loss(alloc, loss, "before ", told);
    let after = numbers_of_loss(alloc, loss, "after ", told);
    let stop = if loss.word == "stop " { loss.call } else { 0 };
    failing_store_for_run(alloc, first, first.calls(), before, after, stop, told)
}

fn sweep_loss_over_store<P: Program>(
    alloc: Global,
    program: &P,
    setting: &Setting,
    loss: &Loss,
    store: &mut MemSwift,
    ordinary: &Ordinary,
    told: &mut Told,
) {
    if let Some(mut line) = line_of_run(alloc, setting.given, LARGE, told) {
        compare_reply_after_loss(
            alloc,
            program,
            setting.given,
            loss,
            store,
            &mut line,
            ordinary,
            told,
        );
        compare_probes_after_loss(alloc, program, setting.probe, store, loss, ordinary, told);
    }
}

/// The number of the call, where it is lost so; else none.
fn numbers_of_loss(alloc: Global, loss: &Loss, word: &str, told: &mut Told) -> List<u64> {
    let mut numbers = List::new(alloc);
    if loss.word == word {
        told.push(&mut numbers, loss.call);
    }
    numbers
}

/// The reply to a request one of whose calls was lost is ServiceUnavailable, where a call failed, or the ordinary one, where
/// what it says was done. Where it tells the bytes of an object, it may be cut short behind the head or a piece.
fn compare_reply_after_loss<P: Program>(
    alloc: Global,
    program: &P,
    given: Given<'_>,
    loss: &Loss,
    store: &mut MemSwift,
    line: &mut MemLine,
    ordinary: &Ordinary,
    told: &mut Told,
) {
    let mut came = Told::new(alloc);
    tell_answers_for_sweep(alloc, program, given, store, line, &mut came);
    let failed = loss.call <= store.calls();
    if failed
        && came.text().starts_with("status 0\n")
        && (is_piece_service_unavailable(line.pieces())
            || is_cut_short(line.pieces(), came.text(), ordinary.answer))
    {
        return told.note_fault_of(&came);
    }
    let done = ordinary.commit == 0 || loss.is_done;
    let due = if done { ordinary.answer } else { "" };
    told.say_if_other(loss.word, loss.call, &came, due);
}

/// Whether these pieces, of which that text is told, are the first of those that an answer has, but not all.
fn is_cut_short(pieces: &[Piece], came: &str, answer: &str) -> bool {
    match answer.strip_prefix(came) {
        Some(rest) => !pieces.is_empty() && rest.starts_with("piece "),
        None => false,
    }
}

/// The probe over the account after each number of calls sees the request as not done, or as done where that is to be.
fn compare_probes_after_loss<P: Program>(
    alloc: Global,
    program: &P,
    probe: Given<'_>,
    store: &MemSwift,
    loss: &Loss,
    ordinary: &Ordinary,
    told: &mut Told,
) {
    for at in 0..=store.calls() {
        let due = if loss.is_done && ordinary.commit <= at {
            ordinary.after
        } else {
            ordinary.before
        };
        if !is_seen_by_probe(alloc, program, probe, store, at, due) {
            tell_loss_and_probe(alloc, program, probe, store, at, loss, told);
        }
    }
}

/// Tells how a call was lost, and what the probe sees after so many calls.
fn tell_loss_and_probe<P: Program>(
    alloc: Global,
    program: &P,
    probe: Given<'_>,
    store: &MemSwift,
    at: u64,
    loss: &Loss,
    told: &mut Told,
) {
    told.say_number(loss.word, loss.call);
    told.say_number(", probe after calls: ", at);
    told.say("\n");
    probe_after_calls(alloc, program, probe, store, at, told);
}
