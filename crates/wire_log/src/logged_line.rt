//! A line whose replies are logged.
ghost use Rattle.std.specs.Prelude.{◌≡◌};

use crate::asked::Asked;
use crate::entry::{Entry, log_entry_line};
use crate::last_call::LastCall;
use crate::log::Log;
use crate::peers::Peers;
use crate::reply::{LoggedReply, is_unlogged_interim};
use crate::second::{inconsistent_log_line, unimplemented_log_line};
use gate_base::{Bytes, Counted, Failed, Line, Memory, Sink};
use std::net::SocketAddr;
use std::time::Clock;

/// A line over another, which does whatever that one does, and logs each reply: what is written until the line is next read, closed or
/// asked for another connection, but for interim replies before it. Its line of the log is written then, and behind it for two statuses a
/// second one: for 501 what of the request may be meant, for 500 the last call of the store.
#[derive(Drop)]
pub struct LoggedLine<N, K, R, P> {
    line: N,
    peers: P,
    log: Log<K, R>,
    asked: Asked,
    /// The number of the connection at hand, from 1.
    connection: u64,
    /// The ticks at which the request at hand began to be read.
    begun: u64,
    /// How many calls of the store there were at the last reply.
    calls: u64,
    /// The reply at hand, of which a part was written.
    reply: Option<LoggedReply>,
    /// The last call of the store before a reply that says that the store is inconsistent.
    last: Bytes,
    /// The client of the connection at hand.
    peer: Option<SocketAddr>,
    /// Whether the line gave it up because it was slow.
    slow: bool,
    /// How many milliseconds the request at hand waited.
    waited: u64,
}

impl<N, K: Sink, R: Clock, P> LoggedLine<N, K, R, P> {
    /// The line, with its replies logged there, and its clients as those tell them.
    pub fn new(line: N, log: Log<K, R>, peers: P) -> LoggedLine<N, K, R, P>
        ensures { result.line ≡ line }
    {
        let asked = Asked::new(log.alloc());
        let last = Bytes::new(log.alloc());
        LoggedLine {
            line,
            peers,
            log,
            asked,
            connection: 0,
            begun: 0,
            calls: 0,
            reply: None,
            last,
            peer: None,
            slow: false,
            waited: 0,
        }
    }

    /// A connection begins.
    fn note_next(&mut self, peer: Option<SocketAddr>)
        ensures { self.new.line ≡ self.old.line }
    {
        self.connection = self.connection.saturating_add(1);
        self.peer = peer;
        self.slow = false;
        if self.log.is_on() {
            self.asked.begin();
            self.begun = self.log.ticks();
        }
    }

    /// These bytes were read, of a request that had waited for so long.
    fn note_read(&mut self, bytes: &[u8], waited: u64)
        ensures { self.new.line ≡ self.old.line }
    {
        if !self.log.is_on() || bytes.is_empty() {
            return;
        }
        if self.asked.is_before() {
            self.begun = self.log.ticks();
            self.waited = waited;
        }
        self.asked.read(bytes);
    }

    /// The read failed. Where the line gave the client up, what it wrote by itself is the reply.
    fn note_failed_read(&mut self, refusal: &[u8], slow: bool)
        ensures { self.new.line ≡ self.old.line }
    {
        self.slow = slow;
        if slow || !refusal.is_empty() {
            self.note_write(refusal, self.calls, !slow);
        }
    }

    /// This was written, when there had been so many calls.
    fn note_write(&mut self, bytes: &[u8], calls: u64, sent: bool)
        ensures { self.new.line ≡ self.old.line }
    {
        if !self.log.is_on() {
            return;
        }
        let reply = match self.reply {
            Some(reply) => reply,
            None if is_unlogged_interim(bytes) => return,
            None => LoggedReply::new(bytes),
        };
        let mut reply = reply.with_piece(bytes.len(), sent);
        reply.calls = calls;
        reply.moment = self.log.moment();
        reply.ticks = self.log.ticks();
        self.reply = Some(reply);
    }

    /// A reply that says that the store is inconsistent came behind that call.
    fn note_last_call(&mut self, call: &[u8])
        ensures { self.new.line ≡ self.old.line }
    {
        let is_inconsistent = match self.reply {
            Some(reply) => reply.is_inconsistent(),
            None => false,
        };
        if is_inconsistent {
            if let Ok(last) = Bytes::from_slice(self.log.alloc(), call) {
                self.last = last;
            }
        }
    }

    /// The second line for a reply, if it has one.
    fn end_with_second_line(&mut self, reply: &LoggedReply)
        ensures { self.new.line ≡ self.old.line }
    {
        let alloc = self.log.alloc();
        if reply.is_not_implemented() {
            let line = unimplemented_log_line(alloc, reply.moment, self.connection, &self.asked);
            self.log.put(line);
        } else if reply.is_inconsistent() {
            let call = self.last.as_slice();
            let line = inconsistent_log_line(alloc, reply.moment, self.connection, call);
            self.log.put(line);
        }
    }

    /// The reply at hand is whole, if there is one: its line is written.
    fn end_reply(&mut self)
        ensures { self.new.line ≡ self.old.line }
    {
        if let Some(reply) = self.reply {
            let line = self.line_for(&reply);
            self.log.put(line);
            self.end_with_second_line(&reply);
            self.asked.answered();
            self.begun = reply.ticks;
            self.calls = reply.calls;
            self.reply = None;
        }
    }

    /// The line of the log for a reply.
    fn line_for(&self, reply: &LoggedReply) -> Result<Bytes, Memory> {
        let request = self.asked.first_line();
        let entry = Entry {
            moment: reply.moment,
            connection: self.connection,
            request,
            status: reply.status(),
            id: reply.id(),
            bytes: reply.bytes,
            slow: self.slow,
            calls: reply.calls.saturating_sub(self.calls),
            took: reply.ticks.saturating_sub(self.begun),
            peer: self.peer,
            key: self.asked.key(),
            waited: self.waited,
        };
        log_entry_line(self.log.alloc(), &entry)
    }
}

impl<N: Drop, K: Sink + Drop, R: Clock + Drop, P: Drop> LoggedLine<N, K, R, P> {
    /// The line itself. The reply at hand is whole.
    pub fn into_line(self) -> N
        ensures { result ≡ self.line }
    {
        let mut logged = self;
        logged.end_reply();
        logged.line
    }
}

impl<C: Counted + LastCall, N: Line<C>, K: Sink, R: Clock, P: Peers<N>> Line<C>
    for LoggedLine<N, K, R, P> {
    ghost model = { λ logged. N.model logged.line };

    ghost is_line = { λ logged. N.is_line logged.line };

    fn next(&mut self) -> Result<bool, Failed> {
        self.end_reply();
        let result = self.line.next();
        if let Ok(true) = result {
            let peer = self.peers.peer(&self.line);
            self.note_next(peer);
        }
        result
    }

    fn read(&mut self, buf: &mut [u8]) -> Result<usize, Failed> {
        self.end_reply();
        match self.line.read(buf) {
            Ok(count) => {
                let waited = self.peers.waited(&self.line);
                self.note_read(&buf[..count], waited);
                Ok(count)
            }
            Err(fault) => {
                let refusal = self.peers.refusal(&self.line);
                let slow = self.peers.was_slow(&self.line);
                self.note_failed_read(refusal, slow);
                Err(fault)
            }
        }
    }

    fn write(&mut self, store: &C, bytes: &[u8]) -> Result<(), Failed> {
        let result = self.line.write(store, bytes);
        self.slow = result.is_err() && self.peers.was_slow(&self.line);
        self.note_write(bytes, store.calls(), result.is_ok());
        self.note_last_call(store.last_call());
        result
    }

    fn close(&mut self) {
        self.end_reply();
        self.line.close();
    }
}
