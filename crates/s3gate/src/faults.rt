//! What is said on standard error where a run can't begin, or is refused.

use crate::refused::refused_words_line;
use environment::{SetupFault, report_variable_fault};
use gate_base::{Bytes, Memory};
use gateway_cli::{WordsFault, read_words};
use sigv4::{Keys, KeysFault};
use std::io::Write;

/// The exit status where memory ran out before the run began.
const MEMORY: u8 = 5;

/// The exit status where a variable of the environment won't do, or what it names.
const SETUP: u8 = 9;

/// Says why the run can't begin. The exit status.
pub fn explain_setup_fault(rt: &HostRuntime, fault: SetupFault) -> u8 {
    match fault {
        SetupFault::Memory => MEMORY,
        SetupFault::Variable(name, why) => {
            report_variable_fault(rt, b"s3gate: setup\n", name, why);
            SETUP
        }
    }
}

/// Says why a run was refused, behind its report: the words, the key file, or the key to sign with.
pub fn explain_refusal(rt: &HostRuntime, words: &[String], keys: &str) {
    match read_words(rt.alloc(), words) {
        Ok(_) => explain_keys(rt, keys),
        Err(WordsFault::Refused) => explain_words(rt, words),
        Err(WordsFault::Memory) => {}
    }
}

fn explain_words(rt: &HostRuntime, words: &[String]) {
    if let Ok(line) = refused_words_line(rt.alloc(), words) {
        say_on_standard_error(rt, line.as_slice());
    }
}

fn explain_keys(rt: &HostRuntime, keys: &str) {
    match Keys::read(rt.alloc(), keys.as_bytes()) {
        Ok(_) => say_on_standard_error(rt, b"S3GATE_KEYS: not the key to sign with\n"),
        Err(KeysFault::BadLine(line)) => say_line(rt, line, b" is no key\n"),
        Err(KeysFault::Twice(line)) => say_line(rt, line, b" repeats an id\n"),
        Err(KeysFault::Memory) => {}
    }
}

/// Says what is wrong with a line of the key file, which is counted from 0.
fn say_line(rt: &HostRuntime, line: u64, what: &[u8]) {
    if let Ok(text) = line_text(rt, line.saturating_add(1), what) {
        say_on_standard_error(rt, text.as_slice());
    }
}

fn line_text(rt: &HostRuntime, line: u64, what: &[u8]) -> Result<Bytes, Memory> {
    let mut text = Bytes::from_slice(rt.alloc(), b"S3GATE_KEYS: line ")?;
    text.append(format!(in rt.alloc(); "{line}")?.as_bytes())?;
    text.append(what)?;
    Ok(text)
}

fn say_on_standard_error(rt: &HostRuntime, text: &[u8]) {
    let _ = rt.stderr().write_all(text);
}
