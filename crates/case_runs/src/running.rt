//! How the program is run: over any store, on a line that is lent.
use crate::program::Program;
use case_text::{
    Fault, Given, Told, clock_of_run, given_keys, given_numbers, given_text_behind,
    tell_bytes_by_lines, words_of_text,
};
use gate_base::{Counted, List, ListClock, ListDraws, MemLine, MemSink};
use planned_swift::{Account, MemSwift};
use std::alloc::Global;
use swift_calls::Swift;

/// Runs the program over a store, and tells its status and its report. Whether the status is 0.
pub(crate) fn run_program_on_store<P: Program, W: Swift>(
    alloc: Global,
    program: &P,
    given: Given<'_>,
    store: &mut W,
    line: &mut MemLine,
    told: &mut Told,
) -> bool {
    let keys = given_keys(alloc, given);
    told.note_fault_of(&keys);
    let mut report = MemSink::new(alloc, given_numbers(alloc, given, "unreported", "", told));
    let status = run_program_with_report(
        alloc,
        program,
        given,
        keys.text(),
        store,
        line,
        &mut report,
        told,
    );
    told.say_number("status ", u64::from(status));
    told.say("\n");
    tell_report_of_program(alloc, report.bytes(), told);
    status == 0
}

fn run_program_with_report<P: Program, W: Swift>(
    alloc: Global,
    program: &P,
    given: Given<'_>,
    keys: &str,
    store: &mut W,
    line: &mut MemLine,
    report: &mut MemSink,
    told: &mut Told,
) -> u8 {
    let text = match given_text_behind(given, "words") {
        Some(text) => text,
        None => "session",
    };
    let words = words_of_text(alloc, text, told);
    match clock_of_run(alloc, given, told) {
        Some(mut clock) => run_program_with_clock(
            alloc, program, &words, keys, store, line, report, &mut clock,
        ),
        None => 0,
    }
}

fn run_program_with_clock<P: Program, W: Swift>(
    alloc: Global,
    program: &P,
    words: &[String],
    keys: &str,
    store: &mut W,
    line: &mut MemLine,
    report: &mut MemSink,
    clock: &mut ListClock,
) -> u8 {
    let mut draws = ListDraws::new(List::new(alloc));
    program.run(alloc, words, keys, line, report, store, clock, &mut draws)
}

fn tell_report_of_program(alloc: Global, report: &[u8], told: &mut Told) {
    if !report.is_empty() {
        told.say("report\n");
        tell_bytes_by_lines(alloc, report, told);
    }
}

/// A store without a container.
pub(crate) fn empty_store_for_run(alloc: Global, told: &mut Told) -> Option<MemSwift> {
    let account = Account {
        containers: List::new(alloc),
    };
    let store = MemSwift::new(alloc, account, List::new(alloc), List::new(alloc), 0);
    told.keep_made(store)
}

/// A store with the account that another had after `at` calls, whose calls don't fail.
pub(crate) fn unfailing_store_for_run(
    alloc: Global,
    first: &MemSwift,
    at: u64,
    told: &mut Told,
) -> Option<MemSwift> {
    failing_store_for_run(
        alloc,
        first,
        at,
        List::new(alloc),
        List::new(alloc),
        0,
        told,
    )
}

/// The same, but the calls of these numbers fail without effect, or after their effect, and all from the last number on, which
/// may be 0 for none.
pub(crate) fn failing_store_for_run(
    alloc: Global,
    first: &MemSwift,
    at: u64,
    before: List<u64>,
    after: List<u64>,
    stop: u64,
    told: &mut Told,
) -> Option<MemSwift> {
    if first.calls() < at {
        told.note_fault(Fault::Unread("no such call"));
        return None;
    }
    match first.account_at(at) {
        Ok(account) => told.keep_made(MemSwift::new(alloc, account, before, after, stop)),
        Err(_) => {
            told.note_fault(Fault::Memory);
            None
        }
    }
}
