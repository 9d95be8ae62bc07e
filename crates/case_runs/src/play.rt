//! A case is run by each of its sizes, and once over the wire. What came is told once, and what is otherwise in another run
//! beside it.
use crate::files::put_files_of_setup;
use crate::forgetting::probe_after_forgetting;
use crate::left::tell_left_after_run;
use crate::losses::sweep_case;
use crate::machine::compare_case_with_machine;
use crate::program::Program;
use crate::running::{
    empty_store_for_run, failing_store_for_run, run_program_on_store, unfailing_store_for_run,
};
use crate::wire::play_wire;
use case_text::{
    Fault, Given, LARGE, Told, are_pieces_successful, check_given_lines, given_numbers,
    given_text_behind, has_given_line, line_of_run, number_of_text, tell_pieces,
};
use gate_base::{Counted, MemLine, Piece};
use planned_swift::MemSwift;
use std::alloc::Global;
use swift_calls::Swift;

/// The sizes by which a case is run that names none.
const SIZES: &str = "1 7 1024";

/// The run that stands before a case: what it was given, the store after it, and its pieces.
#[derive(Clone, Copy)]
pub(crate) struct First<'a> {
    pub(crate) given: Given<'a>,
    pub(crate) store: &'a MemSwift,
    pub(crate) pieces: &'a [Piece],
}

/// Tells whether the requests of a setup are served.
pub(crate) fn play_setup<P: Program>(
    alloc: Global,
    program: &P,
    setup: Given<'_>,
    told: &mut Told,
) {
    if let Some(mut store) = empty_store_for_run(alloc, told) {
        serve_setup_on_store(alloc, program, setup, &mut store, "served\n", told);
    }
}

/// Runs the requests of a setup over a store, and puts its files. Where each is served, that is said; else what came is told.
pub(crate) fn serve_setup_on_store<P: Program, W: Swift>(
    alloc: Global,
    program: &P,
    setup: Given<'_>,
    store: &mut W,
    served: &str,
    told: &mut Told,
) {
    if let Some(mut line) = line_of_run(alloc, setup, LARGE, told) {
        serve_setup_on_line(alloc, program, setup, store, &mut line, served, told);
    }
}

fn serve_setup_on_line<P: Program, W: Swift>(
    alloc: Global,
    program: &P,
    setup: Given<'_>,
    store: &mut W,
    line: &mut MemLine,
    served: &str,
    told: &mut Told,
) {
    let mut came = Told::new(alloc);
    let is_run = run_program_on_store(alloc, program, setup, store, line, &mut came);
    put_files_of_setup(alloc, setup, store, &mut came);
    tell_pieces(alloc, setup, line.pieces(), &mut came);
    let is_answered = line.pieces().is_empty() != setup.lines.contains('>');
    if is_run && is_answered && are_pieces_successful(line.pieces()) {
        told.say(served);
    } else {
        told.note_fault_of(&came);
        told.say(came.text());
    }
}

/// Tells what comes of the runs of a case on the account that a setup leaves.
pub(crate) fn play_case<P: Program>(
    alloc: Global,
    program: &P,
    setup: Given<'_>,
    below: &str,
    told: &mut Told,
) {
    let given = Given {
        lines: below,
        word: "connection",
    };
    check_given_lines(given, told);
    if let Some(mut store) = empty_store_for_run(alloc, told) {
        play_case_after_setup(alloc, program, setup, given, &mut store, told);
    }
}

fn play_case_after_setup<P: Program>(
    alloc: Global,
    program: &P,
    setup: Given<'_>,
    given: Given<'_>,
    store: &mut MemSwift,
    told: &mut Told,
) {
    if let Some(mut line) = line_of_run(alloc, setup, LARGE, told) {
        serve_setup_on_line(alloc, program, setup, store, &mut line, "", told);
        let first = First {
            given: setup,
            store,
            pieces: line.pieces(),
        };
        play_case_each_way(alloc, program, &first, given, told);
    }
}

/// What came by the last size, and what came otherwise by each other size, over the wire, in a sweep, and behind a run that
/// forgets.
fn play_case_each_way<P: Program>(
    alloc: Global,
    program: &P,
    first: &First,
    given: Given<'_>,
    told: &mut Told,
) {
    let sizes = given_numbers(alloc, given, "pieces", SIZES, told);
    match sizes.as_slice().split_last() {
        Some((last, others)) => play_case_by_sizes(
            alloc, program, first, given, *last, others, told,
        ),
        None => told.note_fault(Fault::Unread("no size of pieces")),
    }
    if has_given_line(given, "sweep") {
        sweep_case(alloc, program, first, given, told);
    } else if has_given_line(given, "probe") {
        probe_after_forgetting(alloc, program, first, given, told);
    }
}

fn play_case_by_sizes<P: Program>(
    alloc: Global,
    program: &P,
    first: &First,
    given: Given<'_>,
    last: u64,
    others: &[u64],
    told: &mut Told,
) {
    let mut usual = Told::new(alloc);
    play_case_by_size(alloc, program, first, given, last, &mut usual);
    told.note_fault_of(&usual);
    told.say(usual.text());
    for size in others {
        let mut other = Told::new(alloc);
        play_case_by_size(alloc, program, first, given, *size, &mut other);
        told.say_if_other("by ", *size, &other, usual.text());
    }
    play_wire(alloc, program, first.given, given, last, usual.text(), told);
}

/// Tells what comes by a size, and what the machine answers where that is otherwise.
fn play_case_by_size<P: Program>(
    alloc: Global,
    program: &P,
    first: &First,
    given: Given<'_>,
    size: u64,
    told: &mut Told,
) {
    if let Some(mut store) = store_after_setup(alloc, given, first.store, told) {
        play_case_on_store(alloc, program, first, given, size, &mut store, told);
    }
}

fn play_case_on_store<P: Program>(
    alloc: Global,
    program: &P,
    first: &First,
    given: Given<'_>,
    size: u64,
    store: &mut MemSwift,
    told: &mut Told,
) {
    if let Some(mut line) = line_of_run(alloc, given, size, told) {
        tell_run_of_case(alloc, program, given, store, &mut line, told);
        tell_left_after_case(alloc, given, store, told);
        compare_case_with_machine(alloc, first, given, line.pieces(), told);
    }
}

/// A store with the account that another has, whose calls fail as a case says.
fn store_after_setup(
    alloc: Global,
    given: Given<'_>,
    first: &MemSwift,
    told: &mut Told,
) -> Option<MemSwift> {
    let stop = match given_text_behind(given, "stop") {
        Some(text) => number_of_text(text, told),
        None => 0,
    };
    let before = given_numbers(alloc, given, "before", "", told);
    let after = given_numbers(alloc, given, "after", "", told);
    failing_store_for_run(alloc, first, first.calls(), before, after, stop, told)
}

/// Runs the program, and tells all of it but what is left.
pub(crate) fn tell_run_of_case<P: Program, W: Swift>(
    alloc: Global,
    program: &P,
    given: Given<'_>,
    store: &mut W,
    line: &mut MemLine,
    told: &mut Told,
) {
    let _done = run_program_on_store(alloc, program, given, store, line, told);
    if has_given_line(given, "tell calls") {
        told.say_number("calls ", store.calls());
        told.say("\n");
    }
    tell_pieces(alloc, given, line.pieces(), told);
}

/// What a store keeps, by the calls of another that begins with it.
fn tell_left_after_case(alloc: Global, given: Given<'_>, store: &MemSwift, told: &mut Told) {
    if let Some(mut later) = unfailing_store_for_run(alloc, store, store.calls(), told) {
        tell_left_after_run(alloc, given, &mut later, told);
    }
}
