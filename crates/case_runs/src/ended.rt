//! How a connection ends: `ended [CALL..]` serves one connection of the bytes of the lines `>` over a store without a container, while
//! the line's calls of these numbers fail: the first is `next`, and its reads and writes follow. It tells the end as
//! `serve_connection` gives it, and behind `written` the statuses of what was written.
ghost use Rattle.std.specs.Prelude.{IsTrue};
ghost use Rattle.gate_base.specs.MemLine.{is_open_of};

use crate::machine::{Service, service_of_run};
use crate::program::Program;
use crate::running::empty_store_for_run;
use case_text::{
    Given, LARGE, Told, clock_of_run, line_of_one_connection, numbers_of_text,
    tell_statuses_of_pieces,
};
use case_verbs::opens_connection;
use gate_base::{ListClock, MemLine};
use planned_swift::MemSwift;
use std::alloc::Global;

pub(crate) fn tell_ended_connection<P: Program>(
    alloc: Global,
    program: &P,
    text: &str,
    given: &[u8],
    told: &mut Told,
) {
    let fails = numbers_of_text(alloc, text, ' ', told);
    if let Some(mut line) = line_of_one_connection(alloc, given, LARGE, fails, told) {
        tell_end_on_line(alloc, program, &mut line, told);
        tell_statuses_of_pieces("written", line.pieces(), told);
    }
}

/// What the service is given that serves it: nothing but what is usual.
const USUAL: Given<'static> = Given {
    lines: "",
    word: "setup",
};

fn tell_end_on_line<P: Program>(alloc: Global, program: &P, line: &mut MemLine, told: &mut Told) {
    if let Some(mut store) = empty_store_for_run(alloc, told) {
        tell_end_over_store(alloc, program, &mut store, line, told);
    }
}

fn tell_end_over_store<P: Program>(
    alloc: Global,
    program: &P,
    store: &mut MemSwift,
    line: &mut MemLine,
    told: &mut Told,
) {
    if let Some(mut clock) = clock_of_run(alloc, USUAL, told) {
        if opens_connection::<MemSwift>(line) {
            serve_and_tell_end(alloc, program, store, line, &mut clock, told);
        }
    }
}

fn serve_and_tell_end<P: Program>(
    alloc: Global,
    program: &P,
    store: &mut MemSwift,
    line: &mut MemLine,
    clock: &mut ListClock,
    told: &mut Told,
)
    requires { IsTrue (is_open_of line.old) }
{
    if let Some(Service { settings, keys }) = service_of_run(alloc, USUAL, told) {
        program.tell_end(alloc, store, settings, keys, line, clock, told);
    }
}
