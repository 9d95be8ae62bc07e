//! A client's stream, with what the system said of it.

use std::io;
use std::io::{ErrorKind, Read, Write};
use std::net::{OpenStream, Shutdown};
use std::time::Duration;

/// Who waits for room has as many bytes at hand, unless it has fewer to send.
const PAGE: usize = 4_096;

/// A stream that waits for nothing.
#[derive(Drop)]
pub(crate) struct Wire<S> {
    pub(crate) stream: S,
    /// What the system reported, and no refusal took back.
    readable: bool,
    writable: bool,
    /// Its end came, or it failed.
    over: bool,
    failed: bool,
    /// When it last gave anything, and when it last took anything or began to be given anything.
    heard: Duration,
    took: Duration,
    /// When the system last reported that there is something to read, as early as that may be.
    reported: Duration,
    /// How many bytes it has given and taken in all.
    moved: u64,
}

impl<S: Read + Write + OpenStream + Drop> Wire<S> {
    /// A stream that has just come, and may have been ready since `reported`.
    pub(crate) fn new(stream: S, reported: Duration, now: Duration) -> Wire<S> {
        Wire {
            stream,
            readable: true,
            writable: true,
            over: false,
            failed: false,
            heard: now,
            took: now,
            reported,
            moved: 0,
        }
    }

    pub(crate) fn is_readable(&self) -> bool {
        self.readable
    }

    pub(crate) fn is_writable(&self) -> bool {
        self.writable
    }

    pub(crate) fn is_over(&self) -> bool {
        self.over
    }

    pub(crate) fn has_failed(&self) -> bool {
        self.failed
    }

    pub(crate) fn moved(&self) -> u64 {
        self.moved
    }

    /// When it last gave or took anything.
    pub(crate) fn last(&self) -> Duration {
        self.heard.max(self.took)
    }

    /// When it last gave anything.
    pub(crate) fn heard(&self) -> Duration {
        self.heard
    }

    /// When it has taken nothing for the limit of time.
    pub(crate) fn last_taking(&self, limit: Duration) -> Duration {
        self.took.saturating_add(limit)
    }

    /// From now on it may give nothing for a time.
    pub(crate) fn begin_hearing(&mut self, now: Duration) {
        self.heard = now;
    }

    /// From now on it may take nothing for the limit of time.
    pub(crate) fn begin_taking(&mut self, now: Duration) {
        self.took = now;
    }

    /// When the system last reported that there is something to read.
    pub(crate) fn reported(&self) -> Duration {
        self.reported
    }

    /// Notes what the system reported, which may have been so since `moment`.
    pub(crate) fn mark(&mut self, readable: bool, writable: bool, moment: Duration) {
        if readable {
            self.reported = moment;
        }
        self.readable = self.readable || readable;
        self.writable = self.writable || writable;
    }

    /// Where it seems to have taken nothing for the limit of time it is tried once more.
    pub(crate) fn try_again(&mut self, now: Duration, limit: Duration) {
        if self.last_taking(limit) <= now {
            self.try_now();
        }
    }

    /// It is tried whether it takes anything. The system reports room only once there is much of it, and a client that takes slowly takes
    /// less than that.
    pub(crate) fn try_now(&mut self) {
        self.writable = self.writable || !self.failed;
    }

    /// Nothing comes of it any more.
    pub(crate) fn fail(&mut self) {
        self.over = true;
        self.failed = true;
        self.writable = false;
    }

    /// Whether so many bytes are there to be read, or a page of them.
    pub(crate) fn has_bytes(&self, count: usize) -> bool {
        let mut buf = [0; PAGE];
        match self.stream.peek(&mut buf) {
            Ok(came) => count.min(PAGE) <= came,
            Err(_) => false,
        }
    }

    /// Its writing side ends. False where it can't be ended.
    pub(crate) fn shut(&mut self) -> bool {
        self.stream.shutdown(Shutdown::Write).is_ok()
    }

    /// How many bytes came, with what that says of the stream.
    pub(crate) fn note_read(&mut self, got: io::Result<usize>, now: Duration) -> usize {
        match got {
            Ok(0) => {
                self.over = true;
                0
            }
            Ok(count) => {
                self.heard = now;
                self.moved = self.moved.saturating_add(count as u64);
                count
            }
            Err(error) => {
                match error.kind() {
                    ErrorKind::WouldBlock => self.readable = false,
                    ErrorKind::Interrupted => {}
                    _ => {
                        self.over = true;
                        self.failed = true;
                    }
                }
                0
            }
        }
    }

    /// How many of the bytes it takes by one call.
    pub(crate) fn write(&mut self, bytes: &[u8], now: Duration) -> usize {
        match self.stream.write(bytes) {
            Ok(0) => {
                self.fail();
                0
            }
            Ok(count) => {
                self.took = now;
                self.moved = self.moved.saturating_add(count as u64);
                count
            }
            Err(error) => {
                match error.kind() {
                    ErrorKind::WouldBlock => self.writable = false,
                    ErrorKind::Interrupted => {}
                    _ => self.fail(),
                }
                0
            }
        }
    }
}
