//! The traits of the outside world. Each has one ghost member, its model, and one record for each call (see
//! `specs/Line.antt` and `specs/Told.antt`). What a record says of contents holds where the object tells its contents,
//! as those in memory do; what it says of causes holds always. A count of faults is one that a `u64` keeps: at the
//! greatest value of a `u64` it counts as risen.
ghost use Rattle.std.specs.Prelude.{◌≡◌, ◌<◌, ℕ, length, IsTrue};
ghost use Rattle.gate_base.specs.Line.{LineModel, LineNext, LineRead, LineWrite, LineClose, IsLine};
ghost use Rattle.gate_base.specs.Told.{SinkModel, SinkPut, SourceModel, ClockNow, DrawsDraw};

use crate::{Bytes, Copying, Failed, Memory};

/// Each moment of a clock is below this one: the end of the year 9999, in seconds since the beginning of 1970.
pub const MOMENT_LIMIT: u64 = 253_402_300_800;

/// How many calls of a line begin a connection or give bytes: past it each further call that would be one is Failed.
pub const CALL_LIMIT: u64 = 1 << 63;

/// What has counted its calls since it was made.
pub trait Counted {
    ghost called: { Self → ℕ };

    /// The number of calls made. At the greatest value it stays.
    fn calls(&self) -> u64
        ensures { result ≡ called self.now };
}

/// The count of a program that has no store.
#[derive(Clone, Copy, Debug, PartialEq, Eq)]
pub struct NoCount;

impl Counted for NoCount {
    ghost called = { λ _. 0 };

    fn calls(&self) -> u64 {
        0
    }
}

impl<C: Counted> Counted for &mut C {
    ghost called = { λ s. C.called s.now };

    fn calls(&self) -> u64 {
        (**self).calls()
    }
}

/// What one write sent: on which connection, counted from 1, when, by the number of calls that the store had
/// counted, and the bytes.
#[derive(Debug, Drop)]
pub struct Piece {
    pub connection: u64,
    pub at: u64,
    pub bytes: Bytes,
}

impl Copying for Piece {
    fn copy(&self) -> Result<Piece, Memory> {
        Ok(Piece {
            connection: self.connection,
            at: self.at,
            bytes: self.bytes.copy()?,
        })
    }
}

/// Connections that are served in turn. `C` is the type of the one store that the caller was handed, so that no
/// other number of calls can be recorded with a piece. No connection is open before the first `next`.
pub trait Line<C: Counted> {
    /// What the line counts, and where it is observable, the bytes left of each connection and the pieces sent.
    ghost model: { Self → LineModel };

    /// Ends the present connection. True where another begins, which is then open, and false where there is none.
    /// Failed only where both counts of faults rose. At most 2^63 calls of `next` and `read` answer true or give bytes:
    /// past that each further call that would be one is Failed.
    fn next(&mut self) -> Result<bool, Failed>
        ensures { LineNext (model self.old) result (model self.new) };

    /// Reads at least one byte, or 0 exactly at the connection's end. Failed only where the count of faults rose.
    fn read(&mut self, buf: &mut [u8]) -> Result<usize, Failed>
        requires open { IsTrue (model self.old).is_open }
        requires room { 0 < length buf.old }
        ensures { LineRead (model self.old) (length buf.old) buf.new result (model self.new) };

    /// Sends all the bytes as one piece, recorded with the connection and with `store.calls()`. On Failed, only
    /// where the count of faults rose, a prefix of the bytes was sent.
    fn write(&mut self, store: &C, bytes: &[u8]) -> Result<(), Failed>
        requires { IsTrue (model self.old).is_open }
        ensures { LineWrite (model self.old) (C.called store.now) bytes.now result
            (model self.new) };

    /// Ends the present connection.
    fn close(&mut self)
        ensures { LineClose (model self.old) (model self.new) };

    /// Each connection that has begun has its place in `faulty`, and the faults of `next` are among the faults.
    ghost is_line: { (line : Self) → IsLine (model line) };
}

/// Where a program's report goes.
pub trait Sink {
    /// What the sink counts, and where it is observable, the bytes put.
    ghost model: { Self → SinkModel };

    /// Puts all the bytes. On Failed, only where the count of faults rose, a prefix of them was put.
    fn put(&mut self, bytes: &[u8]) -> Result<(), Failed>
        ensures { SinkPut (model self.old) bytes.now result (model self.new) };
}

/// A clock, which can't fail.
pub trait Clock {
    /// The moments still to come, where the clock is observable: past the end of the list it repeats the last.
    ghost model: { Self → SourceModel };

    /// The moment, in seconds since the beginning of 1970, below [`MOMENT_LIMIT`].
    fn now(&mut self) -> u64
        ensures { ClockNow (model self.old) result (model self.new) };
}

/// A source of words of 128 bits, which can't fail.
pub trait Draws {
    /// The draws still to come, where the source is observable: past the end of the list each is the one before plus one
    /// modulo 2^128.
    ghost model: { Self → SourceModel };

    fn draw(&mut self) -> u128
        ensures { DrawsDraw (model self.old) result (model self.new) };
}
