//! Which request is at hand, from the bytes that are read of a connection.

use crate::key::{logged_key_of_header, logged_key_of_query};
use crate::refusable::is_refusable_header;
use crate::reply::trim_cr_for_log;
use crate::target::append_name_for_log;
use gate_base::Bytes;
use std::alloc::Global;
use std::mem::replace;

/// The bytes of a line that are kept. No longer line of a head is looked at but the first, of which so many are.
const KEPT: usize = 8192;

/// The most bytes of the names of headers that are kept.
const MOST_NAMES: usize = 512;

/// The most digits of a length.
const DIGITS: usize = 15;

/// What the bytes that were read say of the request at hand.
#[derive(Clone, Copy, PartialEq, Eq)]
enum Stage {
    /// No byte of the next request came.
    Before,
    /// Its head is coming.
    Head,
    /// Its head came, and of its body so many bytes are still to come.
    Body(u64),
    /// Its end isn't known, or bytes behind it came. So it isn't known either where the next one begins.
    Unknown,
}

/// The first line of the request at hand, as far as it is known, and what is needed to know where the next one begins. Of its
/// other lines the id of the key that signed is kept, and the names of headers that it may be answered 501 for; of its body nothing.
#[derive(Drop)]
pub(crate) struct Asked {
    stage: Stage,
    first: Bytes,
    /// The line that is coming.
    line: Bytes,
    body: u64,
    has_length: bool,
    /// The id of the key in its Authorization header, and each name of such a header behind a space.
    key: Bytes,
    refusable: Bytes,
    alloc: Global,
}

impl Asked {
    pub(crate) fn new(alloc: Global) -> Asked {
        Asked::at(alloc, Stage::Before)
    }

    /// Nothing was read of the request at that stage.
    fn at(alloc: Global, stage: Stage) -> Asked {
        Asked {
            stage,
            first: Bytes::new(alloc),
            line: Bytes::new(alloc),
            body: 0,
            has_length: false,
            key: Bytes::new(alloc),
            refusable: Bytes::new(alloc),
            alloc,
        }
    }

    /// A connection begins.
    pub(crate) fn begin(&mut self) {
        self.clear(Stage::Before);
    }

    /// Whether the next byte is the first of a request.
    pub(crate) fn is_before(&self) -> bool {
        self.stage == Stage::Before
    }

    /// The first line of the request at hand; none where it isn't known.
    pub(crate) fn first_line(&self) -> Option<&[u8]> {
        if self.first.is_empty() {
            None
        } else {
            Some(self.first.as_slice())
        }
    }

    /// The id of the key that the request at hand names, in its Authorization header or else in its query.
    pub(crate) fn key(&self) -> Option<&[u8]> {
        if !self.key.is_empty() {
            return Some(self.key.as_slice());
        }
        logged_key_of_query(self.first.as_slice())
    }

    /// The names of its headers that it may be answered 501 for, each behind a space.
    pub(crate) fn refusable(&self) -> &[u8] {
        self.refusable.as_slice()
    }

    /// The request was answered. The next one is known where this one's end was.
    pub(crate) fn answered(&mut self) {
        match self.stage {
            Stage::Before | Stage::Body(0) => self.clear(Stage::Before),
            _ => self.clear(Stage::Unknown),
        }
    }

    fn clear(&mut self, stage: Stage) {
        *self = Asked::at(self.alloc, stage);
    }

    /// These bytes were read.
    pub(crate) fn read(&mut self, bytes: &[u8]) {
        if self.stage == Stage::Before {
            self.stage = Stage::Head;
        }
        let mut rest = bytes;
        for _line in 0..bytes.len() {
            if self.stage != Stage::Head {
                break;
            }
            rest = self.read_line(rest);
            if rest.is_empty() {
                break;
            }
        }
        self.read_body(rest.len() as u64);
    }

    /// Takes the line at the front, or what is there of it. The bytes behind it.
    fn read_line<'a>(&mut self, bytes: &'a [u8]) -> &'a [u8] {
        match bytes.iter().position(|byte| *byte == b'\n') {
            Some(end) => {
                self.keep(&bytes[..end]);
                self.end_line();
                &bytes[end + 1..]
            }
            None => {
                self.keep(bytes);
                b""
            }
        }
    }

    /// Where memory runs out, the line isn't known, and so nothing behind it.
    fn keep(&mut self, bytes: &[u8]) {
        let room = KEPT.saturating_sub(self.line.len());
        if self.line.append(&bytes[..room.min(bytes.len())]).is_err() {
            self.stage = Stage::Unknown;
        }
    }

    fn end_line(&mut self) {
        if self.stage == Stage::Head {
            self.take_line();
        }
        self.line = Bytes::new(self.alloc);
    }

    /// Takes a whole line of the head. Empty ones before the first are passed over.
    fn take_line(&mut self) {
        let is_empty = trim_cr_for_log(self.line.as_slice()).is_empty();
        if self.first.is_empty() {
            if !is_empty {
                self.first = replace(&mut self.line, Bytes::new(self.alloc));
            }
        } else if is_empty {
            self.stage = Stage::Body(self.body);
        } else {
            self.hear_line();
        }
    }

    fn hear_line(&mut self) {
        let line = replace(&mut self.line, Bytes::new(self.alloc));
        self.hear(trim_cr_for_log(line.as_slice()));
    }

    /// Takes what a header says of the key and of the request's end.
    fn hear(&mut self, line: &[u8]) {
        let Some(colon) = line.iter().position(|byte| *byte == b':') else {
            return;
        };
        let name = &line[..colon];
        let value = line[colon + 1..].trim_ascii();
        self.note_header(name, value);
        self.hear_end(name, value);
    }

    /// What finds no memory isn't known.
    fn note_header(&mut self, name: &[u8], value: &[u8]) {
        if name.eq_ignore_ascii_case(b"authorization") {
            self.note_key(value);
        } else if is_refusable_header(self.first.as_slice(), name, value) {
            self.note_refusable(name);
        }
    }

    fn note_key(&mut self, value: &[u8]) {
        if let (true, Some(key)) = (self.key.is_empty(), logged_key_of_header(value)) {
            let _ = self.key.append(key);
        }
    }

    fn note_refusable(&mut self, name: &[u8]) {
        let room = MOST_NAMES.saturating_sub(self.refusable.len());
        if name.len() < room {
            let _ = append_name_for_log(&mut self.refusable, name);
        }
    }

    /// Takes what a header says of the request's end.
    fn hear_end(&mut self, name: &[u8], value: &[u8]) {
        if name.eq_ignore_ascii_case(b"transfer-encoding") {
            self.stage = Stage::Unknown;
        } else if name.eq_ignore_ascii_case(b"content-length") {
            match body_length_for_log(value) {
                Some(length) if !self.has_length => {
                    self.has_length = true;
                    self.body = length;
                }
                _ => self.stage = Stage::Unknown,
            }
        }
    }

    /// Bytes behind the head were read.
    fn read_body(&mut self, count: u64) {
        if let Stage::Body(left) = self.stage {
            self.stage = match left.checked_sub(count) {
                Some(left) => Stage::Body(left),
                None => Stage::Unknown,
            };
        }
    }
}

/// The number that the digits write.
fn body_length_for_log(digits: &[u8]) -> Option<u64> {
    if digits.is_empty() || digits.len() > DIGITS {
        return None;
    }
    let mut sum = 0u64;
    for digit in digits {
        if !digit.is_ascii_digit() {
            return None;
        }
        sum = sum.saturating_mul(10).saturating_add((*digit & 15) as u64);
    }
    Some(sum)
}
