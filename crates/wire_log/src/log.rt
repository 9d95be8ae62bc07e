//! Where the lines of a log go, and the time.

use crate::cause::{Cause, append_cause};
use crate::moment::moment_text;
use crate::pieces::append_log_pieces;
use gate_base::{Bytes, Memory, Sink};
use std::alloc::Global;
use std::time::{Clock, Duration};

/// A log on a sink. A line that finds no memory isn't written, and what becomes of one that is isn't asked.
#[derive(Drop)]
pub struct Log<K, R> {
    rt: R,
    alloc: Global,
    sink: K,
    is_on: bool,
}

impl<K: Sink, R: Clock> Log<K, R> {
    /// A log on that sink. One that isn't on writes nothing, and never reads the clock.
    pub fn new(rt: R, alloc: Global, sink: K, is_on: bool) -> Log<K, R> {
        Log {
            rt,
            alloc,
            sink,
            is_on,
        }
    }

    /// Writes a line of a text alone: the time, a space, and the text.
    pub fn say(&mut self, text: &[u8]) {
        if self.is_on {
            let line = said_log_line(self.alloc, self.moment(), text);
            self.put(line);
        }
    }

    /// Writes a line of a store: what is said, and why.
    pub fn say_store(&mut self, place: &[u8], what: &[u8], cause: Cause) {
        if self.is_on {
            self.say_made(said_of_logged_store(self.alloc, place, what, cause));
        }
    }

    fn say_made(&mut self, text: Result<Bytes, Memory>) {
        if let Ok(text) = text {
            self.say(text.as_slice());
        }
    }

    pub(crate) fn is_on(&self) -> bool {
        self.is_on
    }

    pub(crate) fn alloc(&self) -> Global {
        self.alloc
    }

    /// The moment, in milliseconds since the beginning of 1970; 0 where the clock can't be read.
    pub(crate) fn moment(&self) -> u64 {
        match self.rt.since_1970() {
            Ok(time) => milliseconds(time),
            Err(_) => 0,
        }
    }

    /// Milliseconds on a clock that never goes back; 0 where it can't be read.
    pub(crate) fn ticks(&self) -> u64 {
        match self.rt.monotonic() {
            Ok(time) => milliseconds(time),
            Err(_) => 0,
        }
    }

    /// Writes one line, by one call.
    pub(crate) fn put(&mut self, line: Result<Bytes, Memory>) {
        if let Ok(line) = line {
            let _ = self.sink.put(line.as_slice());
        }
    }
}

fn said_log_line(alloc: Global, moment: u64, text: &[u8]) -> Result<Bytes, Memory> {
    let mut line = Bytes::from_slice(alloc, &moment_text(moment))?;
    append_log_pieces(&mut line, &[b" ", text, b"\n"])?;
    Ok(line)
}

fn said_of_logged_store(
    alloc: Global,
    place: &[u8],
    what: &[u8],
    cause: Cause,
) -> Result<Bytes, Memory> {
    let mut text = Bytes::from_slice(alloc, b"store ")?;
    append_log_pieces(&mut text, &[place, b": ", what])?;
    append_cause(&mut text, cause)?;
    Ok(text)
}

fn milliseconds(time: Duration) -> u64 {
    let part = time.subsec_millis() as u64;
    time.as_secs().saturating_mul(1000).saturating_add(part)
}
