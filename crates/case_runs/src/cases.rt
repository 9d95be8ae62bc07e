//! The cases of a file. A case is its first line, the lines that are given to it, and the lines `= ` that are expected of it. The
//! program has no use for the latter: they end a case, and are passed over.
use crate::ended::tell_ended_connection;
use crate::play::{play_case, play_setup};
use crate::program::Program;
use case_text::{
    Given, Told, append_bytes_of_lines, cut_text, is_line_passed_over, tell_text_by_lines,
};
use case_verbs::tell_verb;
use gate_base::Bytes;
use std::alloc::Global;

/// Tells what comes of each case of a text, up to the first with a fault.
pub fn tell_cases_of_text<P: Program>(alloc: Global, program: &P, text: &str, told: &mut Told) {
    let mut setup = "";
    let mut rest = text;
    for _ in 0..=text.len() {
        let (first, behind) = cut_text(rest, '\n');
        let (below, next) = split_case(first, behind);
        if first == "setup" {
            setup = below;
        }
        if !is_line_passed_over(first) {
            tell_case(alloc, program, first, setup, below, told);
        }
        if next.is_empty() || told.fault().is_some() {
            return;
        }
        rest = next;
    }
}

/// The lines that belong to a case with that first line, and those behind them: the former go up to the first line behind the
/// expected ones; of a case that is no run also up to a line that gives no bytes. None belongs to a line that is passed over.
fn split_case<'a>(first: &str, text: &'a str) -> (&'a str, &'a str) {
    if is_line_passed_over(first) {
        return ("", text);
    }
    let size = size_of_case_lines(first == "setup" || first.starts_with("case "), text);
    match text.split_at_checked(size) {
        Some(parts) => parts,
        None => (text, ""),
    }
}

fn size_of_case_lines(is_run: bool, text: &str) -> usize {
    let mut size = 0usize;
    let mut is_behind = false;
    for line in text.split('\n') {
        if !is_line_passed_over(line) && (is_behind || !(is_run || line.starts_with('>'))) {
            return size;
        }
        is_behind = is_behind || line.starts_with('=');
        size = size.saturating_add(line.len()).saturating_add(1);
    }
    size
}

/// Tells the first line of a case, and what comes of it.
fn tell_case<P: Program>(
    alloc: Global,
    program: &P,
    first: &str,
    setup: &str,
    below: &str,
    told: &mut Told,
) {
    told.say(first);
    told.say("\n");
    let mut came = Told::new(alloc);
    tell_case_by_word(alloc, program, first, setup, below, &mut came);
    told.note_fault_of(&came);
    tell_text_by_lines(came.text(), told);
}

fn tell_case_by_word<P: Program>(
    alloc: Global,
    program: &P,
    first: &str,
    setup: &str,
    below: &str,
    told: &mut Told,
) {
    let setup = Given {
        lines: setup,
        word: "setup",
    };
    match cut_text(first, ' ') {
        ("setup", _) => play_setup(alloc, program, setup, told),
        ("case", _) => play_case(alloc, program, setup, below, told),
        (verb, text) => tell_verb_case(alloc, program, verb, text, below, told),
    }
}

fn tell_verb_case<P: Program>(
    alloc: Global,
    program: &P,
    verb: &str,
    text: &str,
    below: &str,
    told: &mut Told,
) {
    let mut given = Bytes::new(alloc);
    append_bytes_of_lines(alloc, below, &mut given, told);
    if verb == "ended" {
        tell_ended_connection(alloc, program, text, given.as_slice(), told);
    } else {
        tell_verb(alloc, verb, text, given.as_slice(), told);
    }
}
