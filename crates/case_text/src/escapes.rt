//! Texts with escapes, and hexadecimal digits.
use crate::{Fault, Told};
use gate_base::Bytes;
use hex::FromHexError;
use std::alloc::Global;

/// The bytes of a text in which `\HH` stands for the byte with those two hexadecimal digits, and all else for itself.
pub fn bytes_of_escaped_text(alloc: Global, text: &str, told: &mut Told) -> Bytes {
    let mut bytes = Bytes::new(alloc);
    let mut rest = text;
    for _ in 0..=text.len() {
        let Some((before, after)) = rest.split_once('\\') else {
            told.append(&mut bytes, rest.as_bytes());
            return bytes;
        };
        told.append(&mut bytes, before.as_bytes());
        rest = append_escape(alloc, after, &mut bytes, told);
    }
    bytes
}

/// Appends the byte of the two digits that stand first. What stands behind them.
fn append_escape<'a>(alloc: Global, text: &'a str, to: &mut Bytes, told: &mut Told) -> &'a str {
    match text.split_at_checked(2) {
        Some((digits, rest)) => {
            append_hex(alloc, digits, to, told);
            rest
        }
        None => {
            told.note_fault(Fault::Unread("a backslash without two digits"));
            ""
        }
    }
}

/// The bytes of hexadecimal digits.
pub fn hex_bytes(alloc: Global, digits: &str, told: &mut Told) -> Bytes {
    let mut bytes = Bytes::new(alloc);
    append_hex(alloc, digits, &mut bytes, told);
    bytes
}

pub(crate) fn append_hex(alloc: Global, digits: &str, to: &mut Bytes, told: &mut Told) {
    match hex::decode(alloc, digits) {
        Ok(bytes) => told.append(to, bytes.as_slice()),
        Err(FromHexError::OutOfMemory) => told.note_fault(Fault::Memory),
        Err(_) => told.note_fault(Fault::Unread("no hexadecimal digits")),
    }
}
