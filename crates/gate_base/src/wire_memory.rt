ghost use Rattle.std.specs.Prelude.{◌≡◌, ◌<◌, ◌≤◌, ◌+◌, min, take, length, nat_lt, IfOk, OnOk, OnErr, vec_len, vec_capacity};
ghost use Rattle.std.specs.Vec.Iter.{into_iter_len};
ghost use Rattle.gate_base.specs.Transcript.{empty, Begins, Takes, with_piece, with_fault};

use crate::{Bytes, List, Memory, Piece};
use std::alloc::Global;
use std::vec::IntoIter;

/// Copies so many bytes to the front of the buffer.
fn copy_front(bytes: &[u8], buf: &mut [u8], count: usize)
    requires bytes { count ≤ length bytes.now }
    requires room { count ≤ length buf.old }
    ensures { take count buf.new ≡ take count bytes.now }
{
    buf[..count].copy_from_slice(&bytes[..count]);
}

/// Connections in memory: those that wait, the present one with how much of it was read, and the pieces sent.
#[derive(Drop)]
pub(crate) struct MemWire {
    alloc: Global,
    waiting: IntoIter<Bytes>,
    present: Bytes,
    at: usize,
    sent: List<Piece>,
    faulty: Vec<bool>,
    ghost within: { at ≤ length present },
    ghost room: { vec_len faulty + into_iter_len waiting ≤ vec_capacity faulty },
}

impl MemWire {
    ghost use Rattle.gate_base.specs.MemWire.{told_by};

    /// All the connections wait. It takes the room for a note per connection.
    pub(crate) fn new(alloc: Global, connections: List<Bytes>) -> Result<MemWire, Memory>
        ensures { IfOk result
            (λ transcript. told_by transcript ≡ record empty { waiting = connections }) }
    {
        let faulty = Vec::with_capacity(alloc, connections.len())?;
        Ok(MemWire {
            alloc,
            waiting: connections.into_vec().into_iter(),
            present: Bytes::new(alloc),
            at: 0,
            sent: List::new(alloc),
            faulty,
        })
    }

    pub(crate) fn pieces(&self) -> &[Piece]
        ensures { result.now ≡ (told_by self.now).sent }
    {
        self.sent.as_slice()
    }

    pub(crate) fn has_waiting(&self) -> bool
        ensures { result ≡ nat_lt 0 (length (told_by self.now).waiting) }
    {
        self.waiting.len() > 0
    }

    pub(crate) fn has_rest(&self) -> bool
        ensures { result ≡ nat_lt 0 (length (told_by self.now).rest) }
    {
        self.at < self.present.len()
    }

    /// Ends the present connection where another waits, which begins. False where none waits.
    pub(crate) fn begin(&mut self) -> bool
        ensures { Begins result (told_by self.old) (told_by self.new) }
    {
        match self.waiting.next() {
            None => false,
            Some(bytes) => {
                self.present = bytes;
                self.at = 0;
                self.faulty.push(false).unwrap();
                true
            }
        }
    }

    /// Reads of the present connection, as much as there is, but at most `most` bytes and what the buffer has room for.
    pub(crate) fn take(&mut self, buf: &mut [u8], most: usize) -> usize
        requires most { 0 < most }
        requires room { 0 < length buf.old }
        ensures count { result ≡ min most (min (length buf.old) (length (told_by self.old).rest)) }
        ensures taken { Takes (take result buf.new) (told_by self.old) (told_by self.new) }
    {
        let rest = &self.present.as_slice()[self.at..];
        let count = most.min(buf.len().min(rest.len()));
        copy_front(rest, buf, count);
        self.at += count;
        count
    }

    /// Keeps what was sent on the present connection. Where memory runs out, nothing is kept.
    pub(crate) fn keep(&mut self, at: u64, bytes: &[u8]) -> Result<(), Memory>
        ensures ok { OnOk result (told_by self.new ≡ with_piece (told_by self.old) at bytes.now) }
        ensures err { OnErr result (told_by self.new ≡ told_by self.old) }
    {
        let piece = Piece {
            connection: self.faulty.len() as u64,
            at,
            bytes: Bytes::from_slice(self.alloc, bytes)?,
        };
        self.sent.push(piece)
    }

    /// Notes of the present connection that the count of faults rose while it was served.
    pub(crate) fn add_fault(&mut self)
        requires { 0 < (told_by self.old).begun }
        ensures { told_by self.new ≡ with_fault (told_by self.old) }
    {
        let last = self.faulty.len() - 1;
        self.faulty[last] = true;
    }
}
