//! The messages that cases give.
use crate::talk::Talk;
use case_text::{Fault, Told, bytes_of_escaped_text, copy_of_bytes, text_of_bytes};
use gate_base::{List, Pair};
use http_wire::Message;
use std::alloc::Global;

/// The message of a request line without its version, or of none, and of the lines below it. In the values of its headers
/// `\HH` stands for a byte, so that they may have bytes that no connection gives.
pub(crate) fn message_of_case(
    alloc: Global,
    line: &str,
    given: &[u8],
    told: &mut Told,
) -> Option<Message> {
    let version = if line.is_empty() { "" } else { " HTTP/1.1\r\n" };
    let mut bytes = copy_of_bytes(alloc, line.as_bytes(), told);
    told.append(&mut bytes, version.as_bytes());
    told.append(&mut bytes, given);
    told.append(&mut bytes, b"\r\n");
    unescaped_message(alloc, bytes.as_slice(), told)
}

fn unescaped_message(alloc: Global, given: &[u8], told: &mut Told) -> Option<Message> {
    let mut talk = Talk::open_over_bytes(alloc, given, told)?;
    let mut message = talk.next_message();
    unescape_message(alloc, &mut message, told);
    message
}

fn unescape_message(alloc: Global, message: &mut Option<Message>, told: &mut Told) {
    match message {
        Some(message) => unescape_headers(alloc, &mut message.headers, told),
        None => told.note_fault(Fault::Unread("no request")),
    }
}

fn unescape_headers(alloc: Global, headers: &mut List<Pair>, told: &mut Told) {
    for at in 0..headers.len() {
        if at < headers.len() {
            let header = headers.at_mut(at);
            header.value = bytes_of_escaped_text(
                alloc,
                text_of_bytes(header.value.as_slice(), told),
                told,
            );
        }
    }
}
