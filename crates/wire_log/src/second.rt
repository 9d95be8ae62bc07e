//! The second line of a log for a reply that doesn't say by itself what it is about.

use crate::asked::Asked;
use crate::moment::moment_text;
use crate::pieces::append_log_pieces;
use crate::target::{append_name_for_log, append_query_names_for_log, split_logged_text};
use gate_base::{Bytes, Memory};
use itoa::Buffer;
use std::alloc::Global;

/// The line for a reply of 501: the headers that it may be for, or where the request has none of these, the names of its query.
pub(crate) fn unimplemented_log_line(
    alloc: Global,
    moment: u64,
    connection: u64,
    asked: &Asked,
) -> Result<Bytes, Memory> {
    let mut line = second_log_line_front(alloc, moment, connection)?;
    append_log_unimplemented(&mut line, asked)?;
    Ok(line)
}

fn append_log_unimplemented(line: &mut Bytes, asked: &Asked) -> Result<(), Memory> {
    line.append(b" not implemented:")?;
    let names = asked.refusable();
    if names.is_empty() {
        append_query_names_for_log(line, asked.first_line().unwrap_or(b""))?;
    }
    append_log_pieces(line, &[names, b"\n"])
}

/// The line for a reply that says that the store is inconsistent: the container and the object of the last call.
pub(crate) fn inconsistent_log_line(
    alloc: Global,
    moment: u64,
    connection: u64,
    call: &[u8],
) -> Result<Bytes, Memory> {
    let mut line = second_log_line_front(alloc, moment, connection)?;
    append_log_inconsistent(&mut line, call)?;
    Ok(line)
}

fn append_log_inconsistent(line: &mut Bytes, call: &[u8]) -> Result<(), Memory> {
    let (container, name) = split_logged_text(call, b'/');
    line.append(b" inconsistent:")?;
    append_name_for_log(line, container)?;
    append_name_for_log(line, name)?;
    line.append(b"\n")
}

fn second_log_line_front(alloc: Global, moment: u64, connection: u64) -> Result<Bytes, Memory> {
    let mut digits = Buffer::new();
    let mut line = Bytes::from_slice(alloc, &moment_text(moment))?;
    append_log_pieces(&mut line, &[b" ", digits.format(connection).as_bytes()])?;
    Ok(line)
}
