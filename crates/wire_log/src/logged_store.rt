//! A store whose failures are logged.
ghost use Rattle.std.specs.Prelude.{◌≡◌};

use crate::cause::{Cause, Explains, append_cause};
use crate::last_call::{LastCall, path_of_logged_call};
use crate::log::Log;
use crate::moment::moment_text;
use crate::pieces::append_log_pieces;
use gate_base::{Bytes, Counted, Memory, Sink};
use std::alloc::Global;
use std::time::Clock;
use swift_calls::{Swift, SwiftFault, SwiftReply, SwiftRequest};

/// A store over another, which does whatever that one does, and logs the first call that fails, each failed one with another cause
/// than the last, and the first that is answered again.
#[derive(Drop)]
pub struct LoggedStore<W, K, R> {
    store: W,
    log: Log<K, R>,
    /// Where the store is, as the log names it.
    place: Bytes,
    /// Why the last call failed; none where it was answered.
    failing: Option<Cause>,
    /// Of which container and object the last call was, where the log is on.
    last: Bytes,
}

impl<W, K: Sink, R: Clock> LoggedStore<W, K, R> {
    /// The store, which the log names by that place.
    pub fn new(store: W, log: Log<K, R>, place: Bytes) -> LoggedStore<W, K, R>
        ensures { result.store ≡ store }
    {
        let last = Bytes::new(log.alloc());
        LoggedStore {
            store,
            log,
            place,
            failing: None,
            last,
        }
    }

    /// That was the last call. Where memory runs out it isn't known.
    fn note_call(&mut self, request: &SwiftRequest)
        ensures { self.new.store ≡ self.old.store }
    {
        let alloc = self.log.alloc();
        self.last = match path_of_logged_call(alloc, request) {
            Ok(path) => path,
            Err(_) => Bytes::new(alloc),
        };
    }

    /// The last call was answered, or failed for that cause.
    fn note(&mut self, failing: Option<Cause>)
        ensures { self.new.store ≡ self.old.store }
    {
        if self.failing == failing {
            return;
        }
        self.failing = failing;
        let line = store_log_line(
            self.log.alloc(),
            self.log.moment(),
            self.place.as_slice(),
            failing,
        );
        self.log.put(line);
    }
}

impl<W: Explains, K: Sink, R: Clock> LoggedStore<W, K, R> {
    /// That call was answered so.
    fn note_answer(&mut self, request: &SwiftRequest, answer: &Result<SwiftReply, SwiftFault>)
        ensures { self.new.store ≡ self.old.store }
    {
        if !self.log.is_on() {
            return;
        }
        self.note_call(request);
        match answer {
            Ok(_) => self.note(None),
            Err(SwiftFault::Failed) => self.note_fault(),
            Err(SwiftFault::Memory) => {}
        }
    }

    /// The last call failed.
    fn note_fault(&mut self)
        ensures { self.new.store ≡ self.old.store }
    {
        let cause = self.store.cause().unwrap_or(Cause::Other);
        self.note(Some(cause));
    }
}

/// The line, with its end: time, `store`, the place and a colon, and the cause or that it is well again.
fn store_log_line(
    alloc: Global,
    moment: u64,
    place: &[u8],
    failing: Option<Cause>,
) -> Result<Bytes, Memory> {
    let mut line = Bytes::from_slice(alloc, &moment_text(moment))?;
    append_log_pieces(&mut line, &[b" store ", place, b": "])?;
    append_state_of_logged_store(&mut line, failing)?;
    Ok(line)
}

fn append_state_of_logged_store(line: &mut Bytes, failing: Option<Cause>) -> Result<(), Memory> {
    match failing {
        Some(cause) => append_cause(line, cause)?,
        None => line.append(b"well again")?,
    }
    line.append(b"\n")
}

impl<W: Counted, K, R> Counted for LoggedStore<W, K, R> {
    ghost called = { λ logged. W.called logged.store };

    fn calls(&self) -> u64 {
        self.store.calls()
    }
}

impl<W, K, R> LastCall for LoggedStore<W, K, R> {
    fn last_call(&self) -> &[u8] {
        self.last.as_slice()
    }
}

impl<W: Swift + Explains, K: Sink, R: Clock> Swift for LoggedStore<W, K, R> {
    ghost history = { λ logged. W.history logged.store };

    ghost counted = { λ logged. W.counted logged.store };

    ghost is_history = { λ logged. W.is_history logged.store };

    fn call(&mut self, request: &SwiftRequest) -> Result<SwiftReply, SwiftFault> {
        let result = self.store.call(request);
        self.note_answer(request, &result);
        result
    }

    fn call_newest(&mut self, request: &SwiftRequest) -> Result<SwiftReply, SwiftFault> {
        let result = self.store.call_newest(request);
        self.note_answer(request, &result);
        result
    }
}
