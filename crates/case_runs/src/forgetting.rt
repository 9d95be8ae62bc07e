//! A run that forgets completions: a new run, the probe, is answered over the account that it left. The machine that forgets the
//! same answers the probe alike, and has forgotten as many.
use crate::machine::machine_after_setup;
use crate::play::First;
use crate::program::Program;
use crate::running::{run_program_on_store, unfailing_store_for_run};
use case_text::{Fault, Given, LARGE, Told, line_of_run, tell_statuses_of_pieces};
use gate_base::{Counted, Piece};
use planned_swift::MemSwift;
use std::alloc::Global;

/// Tells the statuses that the probe is answered behind the run of a case, and what the machine does otherwise.
pub(crate) fn probe_after_forgetting<P: Program>(
    alloc: Global,
    program: &P,
    first: &First,
    given: Given<'_>,
    told: &mut Told,
) {
    if let Some(mut store) = unfailing_store_for_run(
        alloc,
        first.store,
        first.store.calls(),
        told,
    ) {
        forget_and_probe(alloc, program, first, given, &mut store, told);
    }
}

fn forget_and_probe<P: Program>(
    alloc: Global,
    program: &P,
    first: &First,
    given: Given<'_>,
    store: &mut MemSwift,
    told: &mut Told,
) {
    if let Some(mut line) = line_of_run(alloc, given, LARGE, told) {
        let mut came = Told::new(alloc);
        let _done = run_program_on_store(alloc, program, given, store, &mut line, &mut came);
        told.note_fault_of(&came);
        probe_forgotten(alloc, program, first, given, store, came.text(), told);
    }
}

/// The probe over the account that a store has, behind a run that told this.
fn probe_forgotten<P: Program>(
    alloc: Global,
    program: &P,
    first: &First,
    given: Given<'_>,
    store: &MemSwift,
    report: &str,
    told: &mut Told,
) {
    let Some((_, lines)) = given.lines.split_once("\nprobe\n") else {
        return told.note_fault(Fault::Unread("a probe without a line"));
    };
    let probe = Given {
        lines,
        word: "setup",
    };
    if let Some(mut line) = line_of_run(alloc, probe, LARGE, told) {
        if let Some(mut later) = unfailing_store_for_run(alloc, store, store.calls(), told) {
            let mut seen = Told::new(alloc);
            let _done = run_program_on_store(
                alloc, program, probe, &mut later, &mut line, &mut seen,
            );
            told.note_fault_of(&seen);
        }
        tell_statuses_of_pieces("after", line.pieces(), told);
        compare_forgotten_with_machine(alloc, first, given, report, probe, line.pieces(), told);
    }
}

/// Tells what the machine that ran the setup forgets, and what it answers the probe then, where that is otherwise.
fn compare_forgotten_with_machine(
    alloc: Global,
    first: &First,
    given: Given<'_>,
    report: &str,
    probe: Given<'_>,
    seen: &[Piece],
    told: &mut Told,
) {
    if let Some(mut machine) = machine_after_setup(alloc, first, first.given, told) {
        machine.forget_as_run(given, report, told);
        machine.answer_run(probe, seen, told);
    }
}
