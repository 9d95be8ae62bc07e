//! The line of a log for one reply.
ghost use Rattle.std.specs.Prelude.{◌≡◌};

use crate::moment::moment_text;
use crate::pieces::append_log_pieces;
use crate::target::append_request_for_log;
use gate_base::{Bytes, Memory};
use itoa::Buffer;
use std::alloc::Global;
use std::net::SocketAddr;

/// What a log says of one reply.
#[derive(Clone, Copy)]
pub struct Entry<'a> {
    /// When it was sent, in milliseconds since the beginning of 1970.
    pub moment: u64,
    /// The number of the line's connection, from 1.
    pub connection: u64,
    /// The first line of the request; none where it isn't known.
    pub request: Option<&'a [u8]>,
    /// The reply's status and the request's id, or `-`.
    pub status: &'a [u8],
    pub id: &'a [u8],
    /// The bytes of the reply, head and body; none where it couldn't be sent.
    pub bytes: Option<u64>,
    /// Whether the line gave its client up because it was slow.
    pub slow: bool,
    /// How many calls of the store were made for it.
    pub calls: u64,
    /// The milliseconds from the first byte of the request that was read.
    pub took: u64,
    /// The client's address, and the id of the key that the request names; none where it isn't known, or names none.
    pub peer: Option<SocketAddr>,
    pub key: Option<&'a [u8]>,
    /// The milliseconds that the request waited for its turn.
    pub waited: u64,
}

/// Room for most lines.
const ROOM: usize = 256;

/// The line, with its end: time, connection, method and target, status, id, bytes, calls, milliseconds, the client's address, the
/// key's id and the milliseconds that it waited, with a space between each two. `-` stands for what isn't known, twice where neither method
/// nor target is. In place of the bytes `slow` says that the client was given up.
pub fn log_entry_line(alloc: Global, entry: &Entry) -> Result<Bytes, Memory> {
    let mut line = Bytes::with_room(alloc, ROOM)?;
    append_log_entry(alloc, &mut line, entry)?;
    Ok(line)
}

fn append_log_entry(alloc: Global, line: &mut Bytes, entry: &Entry) -> Result<(), Memory> {
    append_log_front(line, entry)?;
    append_log_pieces(line, &[b" ", entry.status, b" ", entry.id])?;
    append_log_costs(line, entry)?;
    append_log_client(alloc, line, entry)
}

fn append_log_front(line: &mut Bytes, entry: &Entry) -> Result<(), Memory> {
    line.append(&moment_text(entry.moment))?;
    append_log_number(line, entry.connection)?;
    line.append(b" ")?;
    match entry.request {
        Some(request) => append_request_for_log(line, request),
        None => line.append(b"- -"),
    }
}

fn append_log_costs(line: &mut Bytes, entry: &Entry) -> Result<(), Memory> {
    append_log_size(line, entry)?;
    append_log_number(line, entry.calls)?;
    append_log_number(line, entry.took)
}

fn append_log_size(line: &mut Bytes, entry: &Entry) -> Result<(), Memory> {
    match entry.bytes {
        Some(bytes) => append_log_number(line, bytes),
        None if entry.slow => line.append(b" slow"),
        None => line.append(b" -"),
    }
}

fn append_log_client(alloc: Global, line: &mut Bytes, entry: &Entry) -> Result<(), Memory> {
    line.append(b" ")?;
    append_log_peer(alloc, line, entry.peer)?;
    append_log_pieces(line, &[b" ", entry.key.unwrap_or(b"-")])?;
    append_log_number(line, entry.waited)?;
    line.append(b"\n")
}

fn append_log_peer(
    alloc: Global,
    line: &mut Bytes,
    peer: Option<SocketAddr>,
) -> Result<(), Memory> {
    match peer {
        Some(peer) => line.append(format!(in alloc; "{peer}")?.as_bytes()),
        None => line.append(b"-"),
    }
}

/// Appends a space and a number.
fn append_log_number(line: &mut Bytes, number: u64) -> Result<(), Memory> {
    let mut digits = Buffer::new();
    append_log_pieces(line, &[b" ", digits.format(number).as_bytes()])
}
