//! What came of a client and was not given yet.
ghost use Rattle.std.specs.Prelude.{◌≤◌, length};

use std::alloc::{AllocError, Global};
use std::collections::VecDeque;
use std::io;
use std::io::Read;

/// The bytes that one read asks for, at most.
const READ: usize = 65_536;

/// And while a head is sought.
const HEAD_READ: usize = 4_096;

/// The room of each piece behind the first ones. A block of that size the C library gives back to the system as soon as it is
/// freed. One that is smaller may stay in its heap, and would be held beside what took its bytes.
const ROOM: usize = 33_554_432;

/// The most bytes that a piece has. The rest of its room is never written, and so it is no memory.
const PIECE: usize = 2_097_152;

/// Before so many bytes came the room for more is no larger than what came.
const EARLY: usize = 1_048_576;

/// A larger room is given back once it is empty, so that clients that only stay connected hold little.
const KEPT: usize = 8_192;

/// Bytes in the order in which they came: those that were read while a head was sought stand in one vector, and those of its request
/// behind them in pieces, each of which is let go once it is given.
#[derive(Drop)]
pub(crate) struct Came {
    /// The first bytes, from `given` on.
    front: Vec<u8>,
    given: usize,
    /// What stands behind them, but for the first `taken` bytes of the first piece. Only the last piece has room left.
    pieces: VecDeque<Vec<u8>>,
    taken: usize,
    /// How many bytes all pieces have.
    behind: usize,
}

impl Came {
    pub(crate) fn new(alloc: Global) -> Came {
        Came {
            front: Vec::new(alloc),
            given: 0,
            pieces: VecDeque::new(alloc),
            taken: 0,
            behind: 0,
        }
    }

    /// How many bytes are held. Those of a piece are until it is let go.
    pub(crate) fn len(&self) -> usize {
        self.front.len().saturating_add(self.behind)
    }

    pub(crate) fn is_empty(&self) -> bool {
        self.front.is_empty() && self.behind == 0
    }

    /// The bytes in which a head is sought.
    pub(crate) fn front(&self) -> &[u8] {
        self.front.as_slice()
    }

    /// Reads once. `size` is how many bytes the request at the front has, 0 while that isn't known, and no more than these are read.
    pub(crate) fn hear<S: Read>(
        &mut self,
        stream: &mut S,
        size: usize,
    ) -> Result<io::Result<usize>, AllocError> {
        if size == 0 {
            return read_more(stream, &mut self.front, HEAD_READ);
        }
        let left = size.saturating_sub(self.len()).max(1);
        self.make_room(left)?;
        let Some(piece) = self.pieces.back_mut() else {
            return Err(AllocError);
        };
        let came = piece.len();
        let room = piece.capacity().min(PIECE).saturating_sub(came);
        let got = read_more(stream, piece, READ.min(room).min(left));
        let more = piece.len().saturating_sub(came);
        self.behind = self.behind.saturating_add(more);
        got
    }

    /// Makes a new piece where the last one is full, so that no byte is moved again. `left` is how many bytes are still to come.
    fn make_room(&mut self, left: usize) -> Result<(), AllocError> {
        if self.has_room() {
            return Ok(());
        }
        let alloc = *self.front.allocator();
        let came = self.len();
        let room = if came < EARLY {
            left.min(came.max(READ))
        } else {
            ROOM
        };
        self.pieces.push_back(Vec::with_capacity(alloc, room)?)?;
        Ok(())
    }

    fn has_room(&self) -> bool {
        match self.pieces.back() {
            Some(piece) => piece.len() < piece.capacity().min(PIECE),
            None => false,
        }
    }

    /// Gives first bytes, of those that stand together. 0 where there are none.
    pub(crate) fn give(&mut self, buf: &mut [u8]) -> usize
        ensures { result ≤ length buf.old }
    {
        if self.given >= self.front.len() {
            return self.give_of_piece(buf);
        }
        let count = copy_first(buf, &self.front[self.given..]);
        self.given = self.given.saturating_add(count);
        if self.given >= self.front.len() {
            self.empty_front();
        }
        count
    }

    fn give_of_piece(&mut self, buf: &mut [u8]) -> usize
        ensures { result ≤ length buf.old }
    {
        let Some(piece) = self.pieces.front() else {
            return 0;
        };
        let size = piece.len();
        let count = copy_first(buf, &piece[self.taken.min(size)..]);
        self.taken = self.taken.saturating_add(count);
        if self.taken >= size {
            let _ = self.pieces.pop_front();
            self.taken = 0;
            self.behind = self.behind.saturating_sub(size);
        }
        count
    }

    /// What was given is gone: what stands behind it is at the front.
    pub(crate) fn advance(&mut self) {
        let rest = self.front.len().saturating_sub(self.given);
        self.front
            .copy_within(self.given.min(self.front.len()).., 0);
        self.front.truncate(rest);
        self.given = 0;
    }

    /// Lets all go.
    pub(crate) fn clear(&mut self) {
        self.empty_front();
        self.clear_pieces();
    }

    /// Lets all go that stands behind the bytes in which the head was sought.
    pub(crate) fn clear_pieces(&mut self) {
        self.pieces.clear();
        self.taken = 0;
        self.behind = 0;
    }

    fn empty_front(&mut self) {
        self.given = 0;
        if self.front.capacity() > KEPT {
            let alloc = *self.front.allocator();
            self.front = Vec::new(alloc);
        } else {
            self.front.truncate(0);
        }
    }
}

/// Reads once, and puts what came, so many bytes at most, at the end.
fn read_more<S: Read>(
    stream: &mut S,
    bytes: &mut Vec<u8>,
    most: usize,
) -> Result<io::Result<usize>, AllocError> {
    let came = bytes.len();
    bytes.resize(came.saturating_add(most), 0)?;
    let start = came.min(bytes.len());
    let got = stream.read(&mut bytes[start..]);
    let count = match &got {
        Ok(count) => *count,
        Err(_) => 0,
    };
    bytes.truncate(came.saturating_add(count));
    Ok(got)
}

/// Copies first bytes, as many as there is room for.
fn copy_first(buf: &mut [u8], bytes: &[u8]) -> usize
    ensures within { result ≤ length buf.old }
    ensures bytes { result ≤ length bytes.now }
{
    let count = buf.len().min(bytes.len());
    buf[..count].copy_from_slice(&bytes[..count]);
    count
}
