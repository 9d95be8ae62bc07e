//! A connection in memory, and the messages that are read from it.
ghost use Rattle.std.specs.Prelude.{IsTrue};
ghost use Rattle.gate_base.specs.MemLine.{is_open_of};

use case_text::{Fault, LARGE, Told, line_of_one_connection, tell_value};
use gate_base::{Counted, Line, List, MemLine, NoCount, drop};
use http_wire::{BODY_LIMIT, Got, Message, ReadFault, Reader};
use std::alloc::Global;

/// A connection that is open, its reader, the most bytes that a body has, and how many of the pieces that were written are told.
#[derive(Drop)]
pub struct Talk {
    line: MemLine,
    reader: Reader,
    limit: u64,
    told: usize,
    ghost open: { IsTrue (is_open_of line) },
}

impl Talk {
    /// Begins to talk over a line of one connection, by the usual limit of a body.
    pub fn new(alloc: Global, mut line: MemLine, told: &mut Told) -> Option<Talk> {
        if !opens_connection::<NoCount>(&mut line) {
            told.note_fault(Fault::Unread("no connection"));
            return None;
        }
        let reader = told.keep_made(Reader::new(alloc))?;
        Some(Talk {
            line,
            reader,
            limit: BODY_LIMIT,
            told: 0,
        })
    }

    /// Begins to talk over a connection of these bytes.
    pub fn open_over_bytes(alloc: Global, given: &[u8], told: &mut Told) -> Option<Talk> {
        let line = line_of_one_connection(alloc, given, LARGE, List::new(alloc), told)?;
        Talk::new(alloc, line, told)
    }

    /// A body has at most so many bytes from now on.
    pub fn limit_bodies(&mut self, limit: u64) {
        self.limit = limit;
    }

    /// The next answer of the reader.
    pub fn next_front(&mut self) -> Result<Got, ReadFault> {
        self.reader
            .next_request(self.limit, &mut self.line, &NoCount)
    }

    /// The next message; none where none comes next.
    pub fn next_message(&mut self) -> Option<Message> {
        match self.next_front() {
            Ok(Got::Request(message)) => Some(message),
            other => {
                drop(other);
                None
            }
        }
    }

    /// Reads the next answer. Whether it is a request.
    pub fn passes_request(&mut self) -> bool {
        let got = self.next_front();
        let is_request = matches!(got, Ok(Got::Request(_)));
        drop(got);
        is_request
    }

    /// Tells the pieces that were written and aren't told yet.
    pub fn tell_written(&mut self, told: &mut Told) {
        let pieces = self.line.pieces();
        for piece in pieces.iter().skip(self.told) {
            tell_value(&piece.bytes, told);
        }
        self.told = pieces.len();
    }
}

/// Whether a connection begins on a line.
pub fn opens_connection<C: Counted>(line: &mut MemLine) -> bool
    ensures { IsTrue result → IsTrue (is_open_of line.new) }
{
    match Line::<C>::next(line) {
        Ok(begun) => begun,
        Err(_) => false,
    }
}
