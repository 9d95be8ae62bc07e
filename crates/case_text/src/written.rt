//! Bytes that were written, line by line.
use crate::{Fault, Told, copy_of_bytes, tell_value};
use gate_base::cut;
use md5::{Digest, Md5};
use std::alloc::Global;

/// The longest line of bytes that is told whole.
const MOST_SHOWN: usize = 65_536;

/// Appends each line of a text behind `= `; an empty line is `=`.
pub fn tell_text_by_lines(text: &str, told: &mut Told) {
    for line in text.lines() {
        told.say(if line.is_empty() { "=" } else { "= " });
        told.say(line);
        told.say("\n");
    }
}

/// Appends bytes, each line of them as a line: `< TEXT` with CR LF, `<n TEXT` with LF, `<. TEXT` without a line end. A line that
/// isn't plain text is told as a value, with its line end; one that is very long by `<# SIZE MD5`.
pub fn tell_bytes_by_lines(alloc: Global, bytes: &[u8], told: &mut Told) {
    let mut rest = bytes;
    for _ in 0..bytes.len() {
        if rest.is_empty() {
            return;
        }
        let size = cut(rest, b'\n').0.len().saturating_add(1);
        let (line, next) = match rest.split_at_checked(size) {
            Some(parts) => parts,
            None => (rest, b"".as_slice()),
        };
        tell_line_of_bytes(alloc, line, told);
        rest = next;
    }
}

fn tell_line_of_bytes(alloc: Global, line: &[u8], told: &mut Told) {
    if MOST_SHOWN < line.len() {
        return tell_hash_of_line(alloc, line, told);
    }
    let (bytes, mark) = line_and_end_mark(line);
    match str::from_utf8(bytes) {
        Ok(text) if is_plain_line(text) => {
            told.say(mark);
            told.say(if text.is_empty() { "" } else { " " });
            told.say(text);
            told.say("\n");
        }
        _ => tell_value(&copy_of_bytes(alloc, line, told), told),
    }
}

/// A line without its end, and the mark that tells the end.
fn line_and_end_mark(line: &[u8]) -> (&[u8], &'static str) {
    if let Some(text) = line.strip_suffix(b"\r\n") {
        return (text, "<");
    }
    match line.strip_suffix(b"\n") {
        Some(text) => (text, "<n"),
        None => (line, "<."),
    }
}

/// Whether a text has no control character, and doesn't end in a space.
fn is_plain_line(text: &str) -> bool {
    for byte in text.as_bytes() {
        if *byte < b' ' || *byte == 127 {
            return false;
        }
    }
    !text.ends_with(' ')
}

fn tell_hash_of_line(alloc: Global, line: &[u8], told: &mut Told) {
    told.say_number("<# ", line.len() as u64);
    match hex::encode(alloc, Md5::digest(line)) {
        Ok(hash) => {
            told.say(" ");
            told.say(hash.as_str());
            told.say("\n");
        }
        Err(_) => told.note_fault(Fault::Memory),
    }
}
