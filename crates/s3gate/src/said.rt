//! What the log says as `serve` begins, and as it ends behind the last of its turns.

use crate::version::VERSION;
use environment::{ErrorLog, SetupFault, variable};
use gate_base::{Bytes, Memory};
use gateway_cli::{Command, USUAL_LARGEST_BODY};
use std::alloc::Global;
use swift_requests::Place;

/// The numbers of a run that variables say: seconds that a client may be silent and a call of the store may take, MiB that are held, and
/// KiB that a client moves at least.
#[derive(Clone, Copy)]
pub struct Limits {
    pub idle: u64,
    pub ahead: u64,
    pub floor: u64,
    pub store: u64,
}

/// The first line of the log: the version, the places, the account and the settings; and a second where there is no key. Where memory
/// runs out there is none.
pub fn say_start(
    rt: &HostRuntime,
    log: &mut ErrorLog,
    command: &Command,
    keys: &str,
    place: &Place,
    limits: Limits,
) -> Result<(), SetupFault> {
    match variable(rt, "S3GATE_LISTEN")? {
        Some(text) => say_first_line(rt, log, command, keys, text.as_bytes(), place, limits),
        None => say_first_line(rt, log, command, keys, b"", place, limits),
    }
    if keys.is_empty() {
        say_no_key(rt, log)?;
    }
    Ok(())
}

fn say_first_line(
    rt: &HostRuntime,
    log: &mut ErrorLog,
    command: &Command,
    keys: &str,
    listens: &[u8],
    place: &Place,
    limits: Limits,
) {
    if let Ok(line) = start_line(rt.alloc(), command, keys, listens, place, limits) {
        log.say(line.as_slice());
    }
}

fn start_line(
    alloc: Global,
    command: &Command,
    keys: &str,
    listens: &[u8],
    place: &Place,
    limits: Limits,
) -> Result<Bytes, Memory> {
    let mut line = Bytes::from_slice(alloc, b"s3gate ")?;
    line.append(VERSION)?;
    append_named(&mut line, b": listens at ", listens)?;
    append_named(&mut line, b", store ", place.host.as_slice())?;
    append_named(&mut line, b", account ", place.account.as_slice())?;
    append_count(alloc, &mut line, b", ", count_of_keys(keys), b" keys")?;
    append_words(alloc, &mut line, command)?;
    append_limits(alloc, &mut line, limits)?;
    Ok(line)
}

fn append_words(alloc: Global, line: &mut Bytes, command: &Command) -> Result<(), Memory> {
    if let Command::Serve {
        region,
        connections,
        least_part,
        largest_body,
        extended,
    } = command
    {
        append_named(line, b", region ", region.as_slice())?;
        append_count(alloc, line, b", connections ", *connections, b"")?;
        append_count(alloc, line, b", least part ", *least_part, b"")?;
        append_profile(alloc, line, *largest_body, *extended)?;
    }
    Ok(())
}

/// What is asked for beyond the usual, which isn't said.
fn append_profile(
    alloc: Global,
    line: &mut Bytes,
    largest_body: u64,
    extended: bool,
) -> Result<(), Memory> {
    if largest_body != USUAL_LARGEST_BODY {
        append_count(alloc, line, b", largest body ", largest_body, b"")?;
    }
    if extended {
        line.append(b", extended")?;
    }
    Ok(())
}

fn append_limits(alloc: Global, line: &mut Bytes, limits: Limits) -> Result<(), Memory> {
    append_count(alloc, line, b", idle ", limits.idle, b" s")?;
    append_count(alloc, line, b", ahead ", limits.ahead, b" MiB")?;
    append_count(alloc, line, b", floor ", limits.floor, b" KiB")?;
    append_count(alloc, line, b", store timeout ", limits.store, b" s")
}

fn append_named(line: &mut Bytes, name: &[u8], text: &[u8]) -> Result<(), Memory> {
    line.append(name)?;
    line.append(text)
}

fn append_count(
    alloc: Global,
    line: &mut Bytes,
    front: &[u8],
    count: u64,
    end: &[u8],
) -> Result<(), Memory> {
    line.append(front)?;
    line.append(format!(in alloc; "{count}")?.as_bytes())?;
    line.append(end)
}

/// How many keys a key text has that is accepted: a line each, of which the last may lack its end.
fn count_of_keys(keys: &str) -> u64 {
    let mut count = 0u64;
    for byte in keys.as_bytes() {
        if *byte == b' ' {
            count = count.saturating_add(1);
        }
    }
    count
}

fn say_no_key(rt: &HostRuntime, log: &mut ErrorLog) -> Result<(), SetupFault> {
    match variable(rt, "S3GATE_KEYS")? {
        Some(_) => log.say(
            b"s3gate: no key in the file of S3GATE_KEYS: every request is anonymous",
        ),
        None => log.say(b"s3gate: no key, since S3GATE_KEYS isn't set: every request is anonymous"),
    }
    Ok(())
}

/// Says that as many turns were had as the words say.
pub fn say_end(rt: &HostRuntime, log: &mut ErrorLog, command: &Command) {
    if let Command::Serve { connections, .. } = command {
        if let Ok(line) = end_line(rt.alloc(), *connections) {
            log.say(line.as_slice());
        }
    }
}

fn end_line(alloc: Global, connections: u64) -> Result<Bytes, Memory> {
    let mut line = Bytes::from_slice(alloc, b"s3gate: ended behind the last of its turns")?;
    append_count(alloc, &mut line, b": --connections is ", connections, b"")?;
    Ok(line)
}
