//! `swiftd`, a small Swift store in memory or in a file. The words after the program's name are those of
//! `store_cmd::run_store`. It serves the clients that come to the place which `SWIFTD_LISTEN` names.
#![tactic(auto)]

use environment::{
    Bounds, Clients, SetupFault, Why, ahead_limit, clients_at_variable_place,
    clone_environment_runtime, error_log, idle_limit, machine_memory, places,
    report_variable_fault, words,
};
use gate_base::{Line, List, MemLine, NoCount, StdSink};
use kept_store::{
    Alter, Beside, Connection, FileConnection, FileFault, KeptShelf, Settled, close_file,
    compact_file, open_beside, open_file,
};
use std::io::Write;
use std::process::ExitCode;
use std::str;
use store_cmd::{compacted_file, run_store, shelf_file};
use swift_store::{MapShelf, Shelf};

/// The exit status where memory ran out before the run began.
const MEMORY: u8 = 5;

/// The exit status where there is no place to listen at, or a variable won't do.
const SETUP: u8 = 9;

/// The most bytes of a body that is read ahead: the most that a store takes.
const LARGEST_BODY: usize = 1_073_741_824;

/// The reply to a request that is given up in the middle of its body, as Swift has it.
const TIMEOUT: &[u8] =
    b"HTTP/1.1 408 Request Timeout\r\nContent-Length: 0\r\nConnection: close\r\n\r\n";

const LISTEN: &str = "SWIFTD_LISTEN";

/// The option that names the file, as it stands in the line that says why the program can't begin.
const FILE: &str = "--file";

fn main(rt: HostRuntime) -> ExitCode {
    match start(&rt) {
        Ok(status) => ExitCode::from(status),
        Err(SetupFault::Memory) => ExitCode::from(MEMORY),
        Err(SetupFault::Variable(name, why)) => {
            report_variable_fault(&rt, b"swiftd: setup\n", name, why);
            ExitCode::from(SETUP)
        }
    }
}

/// A run over the clients, or where there are no words over no line at all.
fn start(rt: &HostRuntime) -> Result<u8, SetupFault> {
    let words = words(rt)?;
    if words.is_empty() {
        match MemLine::new(rt.alloc(), List::new(rt.alloc()), 1, List::new(rt.alloc())) {
            Ok(mut line) => run_over(rt, &words, &mut line, &mut MapShelf::new(rt.alloc())),
            Err(_) => Ok(MEMORY),
        }
    } else if let Some(path) = compacted_file(&words) {
        compact(rt, path)
    } else {
        match shelf_file(rt.alloc(), &words)? {
            Some(path) => serve_file(rt, &words, text_of_path(path.as_slice())?),
            None => serve(rt, &words, &mut MapShelf::new(rt.alloc())),
        }
    }
}

/// Writes the tables of a file anew, and ends.
fn compact(rt: &HostRuntime, path: &str) -> Result<u8, SetupFault> {
    match compact_file(rt, path, most_bytes(rt)) {
        Ok(()) => Ok(0),
        Err(fault) => Err(file_setup_fault(fault)),
    }
}

fn text_of_path(path: &[u8]) -> Result<&str, SetupFault> {
    match str::from_utf8(path) {
        Ok(text) => Ok(text),
        Err(_) => Err(SetupFault::Variable(FILE, Why::NotText)),
    }
}

/// A run over the clients that come, from the shelf of a file. At its end what stands in the log beside the file is written into it.
fn serve_file(rt: &HostRuntime, words: &[String], path: &str) -> Result<u8, SetupFault> {
    let connection = connection_to_file(rt, path)?;
    let beside = match open_beside(rt, path) {
        Ok(beside) => beside,
        Err(fault) => return Err(file_setup_fault(fault)),
    };
    match serve_connection(rt, words, connection, beside) {
        Ok((status, connection)) => {
            close_file(connection);
            status
        }
        Err(fault) => Err(fault),
    }
}

/// The same over any connection, which is given back. It is the one call for which a file is proved to be a store of SQLite's.
fn serve_connection<S: Alter + Drop>(
    rt: &HostRuntime,
    words: &[String],
    connection: Connection<S>,
    beside: Beside,
) -> Result<(Result<u8, SetupFault>, Connection<S>), SetupFault> {
    let mut shelf = match KeptShelf::adopt(rt.alloc(), connection, beside) {
        Ok(shelf) => shelf,
        Err(fault) => return Err(file_setup_fault(fault)),
    };
    report_settled(rt, shelf.settled());
    let status = serve(rt, words, &mut shelf);
    Ok((status, shelf.release()))
}

/// Says what no stop leaves, where the start found such: bodies of which no row tells, which it set aside, and rows without a body.
fn report_settled(rt: &HostRuntime, settled: Settled) {
    let mut output = rt.stderr();
    if settled.lost > 0 {
        let _ = output.write_all(b"swiftd: --file: bodies of which no row tells\n");
    }
    if settled.missing > 0 {
        let _ = output.write_all(b"swiftd: --file: rows whose body is missing\n");
    }
}

/// A run over the clients that come. The shelf is there before the program listens. What is kept for slow clients is sent before
/// it ends; the status is that of the run, as no client's failure has one.
fn serve<S: Shelf>(rt: &HostRuntime, words: &[String], shelf: &mut S) -> Result<u8, SetupFault> {
    let mut line = clients(rt)?;
    let status = run_over(rt, words, &mut line, shelf);
    let _ = line.into_line().finish();
    status
}

fn run_over<N: Line<NoCount>, S: Shelf>(
    rt: &HostRuntime,
    words: &[String],
    line: &mut N,
    shelf: &mut S,
) -> Result<u8, SetupFault> {
    let mut report = StdSink::output(clone_environment_runtime(rt)?);
    Ok(run_store(rt.alloc(), words, line, &mut report, shelf))
}

/// A connection to the file of this path, which is made where there is none. One of more than half of the machine's memory is
/// refused.
fn connection_to_file(rt: &HostRuntime, path: &str) -> Result<FileConnection, SetupFault> {
    match open_file(rt, path, most_bytes(rt)) {
        Ok(connection) => Ok(connection),
        Err(fault) => Err(file_setup_fault(fault)),
    }
}

/// Half of the machine's memory.
fn most_bytes(rt: &HostRuntime) -> u64 {
    match machine_memory(rt) {
        Some(bytes) => bytes / 2,
        None => u64::MAX,
    }
}

fn file_setup_fault(fault: FileFault) -> SetupFault {
    let why = match fault {
        FileFault::Memory => return SetupFault::Memory,
        FileFault::TooLarge => Why::TooLarge,
        FileFault::InUse => Why::FileInUse,
        FileFault::NoDatabase => Why::NoDatabase,
        FileFault::DamagedLog => Why::DamagedLog,
        FileFault::Behind => Why::Behind,
        FileFault::DiskFull => Why::DiskFull,
        FileFault::CannotOpen => Why::CannotOpen,
    };
    SetupFault::Variable(FILE, why)
}

/// The clients that come to the place which the environment names. How many of them are served is said by the words.
fn clients(rt: &HostRuntime) -> Result<Clients, SetupFault> {
    let bounds = Bounds {
        limit: idle_limit(rt, "SWIFTD_IDLE")?,
        ahead: ahead_limit(rt, "SWIFTD_AHEAD")? as usize,
        largest: LARGEST_BODY,
        floor: 0,
        places: places(rt) as usize,
        timeout: TIMEOUT,
    };
    let log = error_log(rt, "SWIFTD_LOG")?;
    clients_at_variable_place(rt, LISTEN, log, bounds)
}
