//! Prints what comes of the cases of data files: of public functions, and of whole runs of `s3gate` over a store in memory, at
//! hand or across the wire. `docs/TESTING.md` has the notation.
//!
//! The words behind the program's name are the files. It prints `file NAME` for each, and of each case the first line and what
//! came of it, each line of that behind `= `. What is expected it passes over: the gate compares. The status is 0, or 2 at the
//! first file that can't be read, or case with a line that is none of the notation; that is told, and nothing behind it is tried.
#![tactic(auto)]

mod gateway_program;

use case_runs::tell_cases_of_text;
use case_text::{Fault, Told, tell_value};
use gateway_program::GatewayProgram;
use std::process::ExitCode;
use std::{env, fs, io};

/// The exit status where a file can't be read as cases.
const UNREAD: u8 = 2;

fn main(rt: HostRuntime) -> io::Result<ExitCode> {
    for file in env::args(&rt)?.skip(1) {
        if !print_cases_of_file(&rt, file.as_str())? {
            return Ok(ExitCode::from(UNREAD));
        }
    }
    Ok(ExitCode::from(0))
}

/// Prints what comes of a file. Whether it is read as cases.
fn print_cases_of_file(rt: &HostRuntime, file: &str) -> io::Result<bool> {
    let mut told = Told::new(rt.alloc());
    tell_cases_of_file(rt, file, &mut told);
    let text = told.text();
    print!(rt; "{text}")?;
    Ok(told.fault().is_none())
}

/// Tells the name of a file, what comes of its cases, and what kept them from being read.
fn tell_cases_of_file(rt: &HostRuntime, file: &str, told: &mut Told) {
    told.say("file ");
    told.say(file);
    told.say("\n");
    match fs::read_to_string(rt, file) {
        Ok(text) => tell_cases_of_text(rt.alloc(), &GatewayProgram, text.as_str(), told),
        Err(_) => told.note_fault(Fault::Unread("no file that can be read")),
    }
    if let Some(fault) = told.fault() {
        told.say(file);
        told.say(": ");
        tell_value(&fault, told);
    }
}
