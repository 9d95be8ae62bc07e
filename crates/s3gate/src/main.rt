//! `s3gate`, the gateway. The words after the program's name are those of `gateway_cmd::run`, and the file that
//! `S3GATE_KEYS` names has the key text.
//!
//! `session` serves one connection on standard input and output, over a fresh store in memory. `serve` serves the clients
//! that come to the place which `S3GATE_LISTEN` names, over the Swift store at `S3GATE_STORE`, in its account
//! `S3GATE_ACCOUNT`, with the token `S3GATE_TOKEN`. `recover` settles that store; `sweep` removes what is left over on its account,
//! and `check` counts what stands there. `sign` signs the first request of standard input, and `presign` makes a URL of it; nothing is
//! written back. `trial` answers requests of its own over a store in memory.
#![tactic(auto)]

mod faults;
mod input;
mod probe;
mod refused;
mod said;
mod version;

use crate::faults::{explain_refusal, explain_setup_fault};
use crate::input::InputLine;
use crate::probe::probe_store;
use crate::said::{Limits, say_end, say_start};
use environment::{
    Bounds, Clients, LONGEST, SetupFault, Why, ahead_limit, clients_at_variable_place,
    clone_environment_runtime, error_log, floor_limit, idle_limit, number_in_variable, place_fault,
    places, required_variable, variable, words,
};
use gate_base::{Bytes, Copying, Line, RandomDraws, StdLine, StdSink, SystemClock};
use gateway_cli::{Command, USUAL_LARGEST_BODY, read_words};
use gateway_cmd::run;
use memory_swift::memory_store;
use sigv4::Keys;
use std::fs;
use std::io::ErrorKind;
use std::process::ExitCode;
use swift_calls::Swift;
use swift_client::{SwiftClient, TcpLink, over_tcp};
use swift_requests::{Place, is_place};
use wire_log::LoggedStore;

/// The exit status where memory ran out before the run began.
const MEMORY: u8 = 5;

/// The variables whose faults have more than one place.
const KEYS: &str = "S3GATE_KEYS";

const LISTEN: &str = "S3GATE_LISTEN";

const STORE: &str = "S3GATE_STORE";

const AHEAD: &str = "S3GATE_AHEAD";

const IDLE: &str = "S3GATE_IDLE";

const FLOOR: &str = "S3GATE_FLOOR";

const LOG: &str = "S3GATE_LOG";

const MEBIBYTE: u64 = 1_048_576;

const KIBIBYTE: u64 = 1_024;

/// The reply to a request that is given up in the middle of its body (Amazon S3 API Reference, "Error responses"). The line writes
/// it, so it has no id.
const TIMEOUT: &[u8] =
    b"HTTP/1.1 400 Bad Request\r\nContent-Type: application/xml\r\nContent-Length: 130\r\nConnection: close\r\n\r\n<?xml version=\"1.0\" encoding=\"UTF-8\"?>\n<Error><Code>RequestTimeout</Code><Message>The body did not come in time.</Message></Error>";

/// The exit status where the words or the key text are refused.
const REFUSED: u8 = 2;

/// How many seconds a call of the store may take, where `S3GATE_STORE_TIMEOUT` doesn't say: longer than a Swift proxy waits for
/// its own servers.
const USUAL_SILENCE: u64 = 300;

/// The Swift store, with a log of its failures on standard error.
type Store = LoggedStore<SwiftClient<TcpLink<HostRuntime>>, StdSink, HostRuntime>;

fn main(rt: HostRuntime) -> ExitCode {
    match start(&rt) {
        Ok(status) => ExitCode::from(status),
        Err(fault) => ExitCode::from(explain_setup_fault(&rt, fault)),
    }
}

/// A run by the words and the key text.
fn start(rt: &HostRuntime) -> Result<u8, SetupFault> {
    let keys = key_text(rt)?;
    start_by_keys(rt, keys.as_str())
}

fn start_by_keys(rt: &HostRuntime, keys: &str) -> Result<u8, SetupFault> {
    let words = words(rt)?;
    let status = start_with(rt, &words, keys)?;
    if status == REFUSED {
        explain_refusal(rt, &words, keys);
    }
    Ok(status)
}

/// A run over the line and the store that the first word asks for.
fn start_with(rt: &HostRuntime, words: &[String], keys: &str) -> Result<u8, SetupFault> {
    if begins_with(words, b"serve") {
        serve(rt, words, keys)
    } else if is_upkeep(words) {
        keep_up(rt, words, keys)
    } else {
        run_in_memory(rt, words, keys)
    }
}

/// A run over the clients that come, and the Swift store. Replies that are kept for slow clients are sent before it ends; the status
/// is that of the run, as no client's failure has one.
fn serve(rt: &HostRuntime, words: &[String], keys: &str) -> Result<u8, SetupFault> {
    let mut line = clients(rt, largest_body(rt, words, keys))?;
    let status = serve_on(rt, words, keys, &mut line);
    let _ = line.into_line().finish();
    status
}

fn serve_on(
    rt: &HostRuntime,
    words: &[String],
    keys: &str,
    line: &mut Clients,
) -> Result<u8, SetupFault> {
    let limit = store_limit(rt)?;
    let place = store_place(rt)?;
    begin(rt, words, keys, &place, limit)?;
    let status = serve_store(rt, words, keys, line, place, limit)?;
    if status == 0 {
        say_that_it_ended(rt, words, keys)?;
    }
    Ok(status)
}

/// Says what is served, and asks the store whether it can bear it, where the words are accepted.
fn begin(
    rt: &HostRuntime,
    words: &[String],
    keys: &str,
    place: &Place,
    limit: u64,
) -> Result<(), SetupFault> {
    match accepted_command(rt, words, keys) {
        Some(command) => begin_command(rt, &command, keys, place, limit),
        None => Ok(()),
    }
}

fn begin_command(
    rt: &HostRuntime,
    command: &Command,
    keys: &str,
    place: &Place,
    limit: u64,
) -> Result<(), SetupFault> {
    let limits = limits(rt, limit)?;
    let mut log = error_log(rt, LOG)?;
    say_start(rt, &mut log, command, keys, place, limits)?;
    probe_store(rt, &mut log, place, largest_body_of(command), limit)
}

/// A run over the clients that come, and the Swift store at that place.
fn serve_store(
    rt: &HostRuntime,
    words: &[String],
    keys: &str,
    line: &mut Clients,
    place: Place,
    limit: u64,
) -> Result<u8, SetupFault> {
    let mut store = swift_store(rt, place, limit)?;
    run_over(rt, words, keys, line, &mut store)
}

fn say_that_it_ended(rt: &HostRuntime, words: &[String], keys: &str) -> Result<(), SetupFault> {
    match accepted_command(rt, words, keys) {
        Some(command) => say_end_of(rt, &command),
        None => Ok(()),
    }
}

fn say_end_of(rt: &HostRuntime, command: &Command) -> Result<(), SetupFault> {
    let mut log = error_log(rt, LOG)?;
    say_end(rt, &mut log, command);
    Ok(())
}

/// The numbers that the log's first line has.
fn limits(rt: &HostRuntime, store: u64) -> Result<Limits, SetupFault> {
    Ok(Limits {
        idle: idle_limit(rt, IDLE)?,
        ahead: ahead_limit(rt, AHEAD)? / MEBIBYTE,
        floor: floor_limit(rt, FLOOR)? / KIBIBYTE,
        store,
    })
}

/// The most bytes of a body by the words, or the usual ones where those are to be refused.
fn largest_body(rt: &HostRuntime, words: &[String], keys: &str) -> u64 {
    match accepted_command(rt, words, keys) {
        Some(command) => largest_body_of(&command),
        None => USUAL_LARGEST_BODY,
    }
}

fn largest_body_of(command: &Command) -> u64 {
    match command {
        Command::Serve { largest_body, .. } => *largest_body,
        _ => USUAL_LARGEST_BODY,
    }
}

/// What the words ask for, where neither they nor the key text are to be refused.
fn accepted_command(rt: &HostRuntime, words: &[String], keys: &str) -> Option<Command> {
    match Keys::read(rt.alloc(), keys.as_bytes()) {
        Ok(_) => read_words(rt.alloc(), words).ok(),
        Err(_) => None,
    }
}

/// Whether the first word is that of a command over the store alone.
fn is_upkeep(words: &[String]) -> bool {
    begins_with(words, b"recover") || begins_with(words, b"sweep") || begins_with(words, b"check")
}

/// A run over the Swift store alone: it has a line, and reads nothing of it.
fn keep_up(rt: &HostRuntime, words: &[String], keys: &str) -> Result<u8, SetupFault> {
    let limit = store_limit(rt)?;
    let place = store_place(rt)?;
    probe_accepted(rt, words, keys, &place, limit)?;
    keep_up_store(rt, words, keys, place, limit)
}

/// Asks the store whether it can bear the gateway, where the words are accepted.
fn probe_accepted(
    rt: &HostRuntime,
    words: &[String],
    keys: &str,
    place: &Place,
    limit: u64,
) -> Result<(), SetupFault> {
    if is_accepted(rt, words, keys) {
        let mut log = error_log(rt, LOG)?;
        probe_store(rt, &mut log, place, USUAL_LARGEST_BODY, limit)?;
    }
    Ok(())
}

fn is_accepted(rt: &HostRuntime, words: &[String], keys: &str) -> bool {
    accepted_command(rt, words, keys).is_some()
}

fn keep_up_store(
    rt: &HostRuntime,
    words: &[String],
    keys: &str,
    place: Place,
    limit: u64,
) -> Result<u8, SetupFault> {
    let mut store = swift_store(rt, place, limit)?;
    let mut line = InputLine::new(clone_environment_runtime(rt)?);
    run_over(rt, words, keys, &mut line, &mut store)
}

/// A run over the standard streams, and a store in memory.
fn run_in_memory(rt: &HostRuntime, words: &[String], keys: &str) -> Result<u8, SetupFault> {
    match memory_store(rt.alloc()) {
        Ok(mut store) => run_on_standard_streams(rt, words, keys, &mut store),
        Err(_) => Ok(MEMORY),
    }
}

fn run_on_standard_streams<W: Swift>(
    rt: &HostRuntime,
    words: &[String],
    keys: &str,
    store: &mut W,
) -> Result<u8, SetupFault> {
    if begins_with(words, b"session") {
        let mut line = StdLine::new(clone_environment_runtime(rt)?);
        run_over(rt, words, keys, &mut line, store)
    } else {
        let mut line = InputLine::new(clone_environment_runtime(rt)?);
        run_over(rt, words, keys, &mut line, store)
    }
}

fn run_over<N: Line<W>, W: Swift>(
    rt: &HostRuntime,
    words: &[String],
    keys: &str,
    line: &mut N,
    store: &mut W,
) -> Result<u8, SetupFault> {
    let mut report = report_for(clone_environment_runtime(rt)?, words);
    let mut clock = SystemClock::new(clone_environment_runtime(rt)?);
    let mut draws = RandomDraws::new(clone_environment_runtime(rt)?);
    Ok(run(
        rt.alloc(),
        words,
        keys,
        line,
        &mut report,
        store,
        &mut clock,
        &mut draws,
    ))
}

/// The text of the access keys: that of the file which the environment names, or none where it names no file.
fn key_text(rt: &HostRuntime) -> Result<String, SetupFault> {
    match variable(rt, KEYS)? {
        Some(path) if path.is_empty() => Err(SetupFault::Variable(KEYS, Why::Empty)),
        Some(path) => read_key_file(rt, path.as_str()),
        None => Ok(String::new(rt.alloc())),
    }
}

fn read_key_file(rt: &HostRuntime, path: &str) -> Result<String, SetupFault> {
    match fs::read_to_string(rt, path) {
        Ok(text) => Ok(text),
        Err(error) if error.kind() == ErrorKind::OutOfMemory => Err(SetupFault::Memory),
        Err(error) => Err(SetupFault::Variable(KEYS, Why::of_file(error.kind()))),
    }
}

/// The clients that come to the place which the environment names. How many of them are served is said by the words.
fn clients(rt: &HostRuntime, largest: u64) -> Result<Clients, SetupFault> {
    let bounds = Bounds {
        limit: idle_limit(rt, IDLE)?,
        ahead: ahead_for(rt, largest)? as usize,
        largest: largest as usize,
        floor: floor_limit(rt, FLOOR)?,
        places: places(rt) as usize,
        timeout: TIMEOUT,
    };
    let log = error_log(rt, LOG)?;
    clients_at_variable_place(rt, LISTEN, log, bounds)
}

/// How many bytes are read ahead or kept to be sent, at most. Bodies of more bytes than the usual ones are read ahead whole, so that
/// one of them has to have room.
fn ahead_for(rt: &HostRuntime, largest: u64) -> Result<u64, SetupFault> {
    let bytes = ahead_limit(rt, AHEAD)?;
    if USUAL_LARGEST_BODY < largest && bytes < largest {
        return Err(SetupFault::Variable(AHEAD, Why::BelowBody(largest)));
    }
    Ok(bytes)
}

/// How many seconds a call of the store may take.
fn store_limit(rt: &HostRuntime) -> Result<u64, SetupFault> {
    number_in_variable(rt, "S3GATE_STORE_TIMEOUT", USUAL_SILENCE, LONGEST)
}

/// The Swift store at that place. The first call connects to it.
fn swift_store(rt: &HostRuntime, place: Place, limit: u64) -> Result<Store, SetupFault> {
    let name = place.host.copy()?;
    let log = error_log(rt, LOG)?;
    let store = store_at(rt, place, limit)?;
    Ok(LoggedStore::new(store, log, name))
}

fn store_at(
    rt: &HostRuntime,
    place: Place,
    limit: u64,
) -> Result<SwiftClient<TcpLink<HostRuntime>>, SetupFault> {
    if !is_place(&place) {
        return Err(SetupFault::Variable(STORE, Why::NotField));
    }
    Ok(over_tcp(clone_environment_runtime(rt)?, rt.alloc(), place, limit)?)
}

/// Where the store is, and its account and token.
fn store_place(rt: &HostRuntime) -> Result<Place, SetupFault> {
    let host = store_host(rt)?;
    let account = required_variable(rt, "S3GATE_ACCOUNT")?;
    let token = required_variable(rt, "S3GATE_TOKEN")?;
    Ok(Place {
        host,
        account,
        token,
    })
}

fn store_host(rt: &HostRuntime) -> Result<Bytes, SetupFault> {
    let host = required_variable(rt, STORE)?;
    match str::from_utf8(host.as_slice()) {
        Ok(text) => match place_fault(text) {
            Some(why) => Err(SetupFault::Variable(STORE, why)),
            None => Ok(host),
        },
        Err(_) => Err(SetupFault::Variable(STORE, Why::NotText)),
    }
}

/// The report stands on standard error where the first word is that of a command that serves, for then standard output
/// is the client's; else on standard output.
fn report_for(rt: HostRuntime, words: &[String]) -> StdSink {
    if begins_with(words, b"session") || begins_with(words, b"serve") {
        StdSink::error(rt)
    } else {
        StdSink::output(rt)
    }
}

fn begins_with(words: &[String], command: &[u8]) -> bool {
    match words.first() {
        Some(word) => word.as_bytes() == command,
        None => false,
    }
}
