//! What a client is to be sent.

use crate::wire::Wire;
use std::alloc::{AllocError, Global};
use std::io;
use std::io::{ErrorKind, Read, Write};
use std::net::OpenStream;
use std::time::Duration;

/// How many writes are made on one client before others have their turn.
const TURNS: usize = 32;

/// How an interim reply begins. The reply itself is still to come.
const INTERIM: &[u8] = b"HTTP/1.1 1";

/// The bytes that a client doesn't take at once.
#[derive(Drop)]
pub(crate) struct Outbox {
    /// What is kept to be sent, from `sent` on.
    unsent: Vec<u8>,
    sent: usize,
    /// Whether a part of the reply was sent, behind which more may come.
    replying: bool,
}

impl Outbox {
    pub(crate) fn new(alloc: Global) -> Outbox {
        Outbox {
            unsent: Vec::new(alloc),
            sent: 0,
            replying: false,
        }
    }

    /// How many bytes it has room for. Those that were sent are held until all are.
    pub(crate) fn len(&self) -> usize {
        self.unsent.len()
    }

    pub(crate) fn is_empty(&self) -> bool {
        self.unsent.is_empty()
    }

    pub(crate) fn is_replying(&self) -> bool {
        self.replying
    }

    /// No part of a reply was sent.
    pub(crate) fn begin(&mut self) {
        self.replying = false;
    }

    /// These bytes are to be sent. They are of the reply, unless there is none yet and they are an interim one.
    pub(crate) fn begin_sending<S: Read + Write + OpenStream + Drop>(
        &mut self,
        wire: &mut Wire<S>,
        bytes: &[u8],
        now: Duration,
    ) {
        self.replying = self.replying || !bytes.starts_with(INTERIM);
        if self.unsent.is_empty() {
            wire.begin_taking(now);
        }
    }

    /// How many bytes the client takes at once, or are kept for it, where they are at most so many.
    pub(crate) fn put<S: Read + Write + OpenStream + Drop>(
        &mut self,
        wire: &mut Wire<S>,
        bytes: &[u8],
        room: usize,
        now: Duration,
    ) -> io::Result<usize> {
        let count = self.take(wire, bytes, now)?;
        let rest = &bytes[count.min(bytes.len())..];
        if rest.len() <= room && self.keep(rest).is_ok() {
            Ok(bytes.len())
        } else {
            Ok(count)
        }
    }

    /// How many bytes the client takes at once. None while others are kept for it.
    fn take<S: Read + Write + OpenStream + Drop>(
        &mut self,
        wire: &mut Wire<S>,
        bytes: &[u8],
        now: Duration,
    ) -> io::Result<usize> {
        self.flush(wire, now);
        let count = if self.unsent.is_empty() {
            send(wire, bytes, now)
        } else {
            0
        };
        if wire.has_failed() {
            return Err(io::Error::from(ErrorKind::BrokenPipe));
        }
        Ok(count)
    }

    /// Sends of what is kept what the client takes at once.
    pub(crate) fn flush<S: Read + Write + OpenStream + Drop>(
        &mut self,
        wire: &mut Wire<S>,
        now: Duration,
    ) {
        let count = send(wire, &self.unsent[self.sent.min(self.unsent.len())..], now);
        self.sent = self.sent.saturating_add(count);
        if wire.has_failed() || self.sent >= self.unsent.len() {
            self.forget();
        }
    }

    /// All that was kept is sent. Its room stays for the next piece of the same reply.
    fn forget(&mut self) {
        if !self.unsent.is_empty() {
            self.sent = 0;
            self.unsent.truncate(0);
            if !self.replying {
                self.give_room_back();
            }
        }
    }

    /// The reply is whole: where nothing of it is kept any more, no room is.
    pub(crate) fn end_reply(&mut self) {
        self.replying = false;
        if self.unsent.is_empty() {
            self.give_room_back();
        }
    }

    fn give_room_back(&mut self) {
        let alloc = *self.unsent.allocator();
        self.unsent = Vec::new(alloc);
    }

    /// Keeps bytes to be sent later.
    pub(crate) fn keep(&mut self, bytes: &[u8]) -> Result<(), AllocError> {
        self.unsent.extend_from_slice(bytes)
    }
}

/// How many of the bytes a client takes at once.
pub(crate) fn send<S: Read + Write + OpenStream + Drop>(
    wire: &mut Wire<S>,
    bytes: &[u8],
    now: Duration,
) -> usize {
    let mut count = 0usize;
    for _turn in 0..TURNS {
        if !wire.is_writable() || count >= bytes.len() {
            break;
        }
        count = count.saturating_add(wire.write(&bytes[count..], now));
    }
    count.min(bytes.len())
}
