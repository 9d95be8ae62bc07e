//! Connections that a listener accepts, side by side, as a line. It tells nothing of their bytes.
ghost use Rattle.std.specs.Prelude.{◌≡◌, ◌≤◌, ◌<◌, ◌+◌, ◌-◌, ◌^◌, false, length, IfOk, None};
ghost use Rattle.std.specs.Option.{unwrap_or};
ghost use Rattle.std.proofs.Common.{sym, true≢false};
ghost use Rattle.std.proofs.Math.Nat.{le-add_left};
ghost use Rattle.gate_base.specs.Causes.{Rose};
ghost use Rattle.gate_base.specs.Line.{silent_line};

use crate::bounds::Bounds;
use crate::crowd::Crowd;
use crate::pace::milliseconds;
use gate_base::{CALL_LIMIT, Counted, Failed, Line, NoCount};
use std::alloc::Global;
use std::io;
use std::io::ErrorKind;
use std::net::{Net, SocketAddr};
use std::time::Clock;

/// Connections that a listener accepts, side by side in one thread. All who wait are accepted, up to 900; the others stay in the
/// listener's queue until one of those leaves, or has been idle for a second and gives its place away.
///
/// `next` gives the one that has had a whole request for the longest time, so a silent or a slow client delays nobody. After a
/// reply a connection gives way to one that has waited with a request, also where its own next one is there: `read` gives 0, and it
/// stays connected. When its turn has come, `next` gives it again, as one more connection.
///
/// Requests are read ahead, head and body, and of a reply what a client doesn't take at once is kept and sent while others are
/// served. All that together has a bound, of which a quarter is for the request that began first of those that are coming. Past the
/// bound a write waits until its client has taken it, and a request that found no room for a second (11 where the last such one was
/// slow) is given before it is there whole; one larger than the bound isn't let wait. A request whose end the line doesn't know is given
/// at once too, and then its connection doesn't give way but ends: one with a transfer coding, a head over 16,384 bytes or of more than
/// 100 headers, or a body over the largest that is read ahead, and what can't become a request, where its first 4,096 bytes show that.
///
/// A client that expects `100 Continue` is sent that by the line, once its head is there and its body isn't. The same bytes, written
/// before the reply, are then passed over.
///
/// While another client has a whole request, or waits for room, the line waits for the one that is served only as long as it gives or
/// takes the floor in each 5 seconds of such waiting. While a client waits for room, one that has some of it and moves less than that is
/// given up.
///
/// Who is given up, or is silent for the limit of time, in the middle of its body is sent the reply `timeout` of the bounds by the line,
/// where no byte of a reply was sent, and its `read` is Failed. One that waited for its turn is given as far as its head first.
///
/// A reply is all that is written until more is read, `next` is asked for, or the connection is closed; an interim reply before it
/// isn't of it. Nothing that stands behind its request is looked at before that, and between its pieces the other clients are.
///
/// A connection on which nothing moves for the limit of time ends, and so does one whose head takes longer in all. That is a fault
/// where a part of its request was given, or a write waits for it; between two requests, and while a head is read ahead or a reply
/// that was kept is sent, it is none. A write that succeeds has its bytes sent or kept.
///
/// When a connection is closed, its writing side ends once what is kept for it is sent. What it still sends is dropped meanwhile, while
/// others are served: at most 16 MiB, and until it is silent for 0.2 seconds. Closed at once, bytes that come late would destroy
/// the last reply on its way.
#[derive(Drop)]
pub struct TcpLine<R: Net> {
    crowd: Crowd<R>,
    connected: bool,
    /// The limit of time in seconds, above 0.
    limit: u64,
    /// How many connections may still begin.
    left: u64,
    spent: u64,
    /// The calls of `next` that failed, and the others that did.
    next_faults: u64,
    other_faults: u64,
}

impl<R: Net + Clock + Drop> TcpLine<R> {
    /// A line of the clients of a listener, with no connection open yet. At most so many `connections` begin, and without that
    /// number as many as clients ask for; one that gave way and comes again is one more. Two clients' bytes may go 2 MiB past what
    /// `bounds` lets be held, and the buffers that hold them may be twice as large; behind the first MiB of a request each 2 MiB stand in
    /// room of 32 MiB, of which what no byte came to is no memory. The length of a body that is read ahead has at most 10 digits.
    ///
    /// A limit of 0 is `ErrorKind::InvalidInput`, and want of memory `ErrorKind::OutOfMemory`. Any other error is the
    /// system's, which can't wait for the listener.
    pub fn new(
        rt: R,
        alloc: Global,
        listener: R::Listener,
        connections: Option<u64>,
        bounds: Bounds,
    ) -> io::Result<TcpLine<R>>
        ensures line { IfOk result (λ line.
            ⟦<TcpLine<R> as Line<NoCount>>⟧.model line ≡ silent_line false 0 0) }
        ensures limit { IfOk result (λ line. (line.limit ≡ bounds.limit) × (0 < bounds.limit)) }
        ensures connections { IfOk result (λ line. line.left ≡ unwrap_or connections (2 ^ 64 - 1)) }
    {
        if bounds.limit == 0 {
            return Err(io::Error::from(ErrorKind::InvalidInput));
        }
        Ok(TcpLine {
            crowd: Crowd::new(rt, alloc, listener, bounds)?,
            connected: false,
            limit: bounds.limit,
            left: connections.unwrap_or(u64::MAX),
            spent: 0,
            next_faults: 0,
            other_faults: 0,
        })
    }

    /// Sends what is kept for slow clients, and ends all connections; for the end of the program, since nothing is sent behind the last
    /// call. It takes as long as the slowest of them, each at most the limit of time without taking anything.
    ///
    /// The error is the system's, which can't wait for the clients. What was kept is lost then.
    pub fn finish(&mut self) -> io::Result<()> {
        self.crowd.finish()
    }

    /// Whether the client that was served last was given up because others waited and it moved less than the floor.
    pub fn was_slow(&self) -> bool {
        self.crowd.was_slow()
    }

    /// What the line has written by itself to the client that was served last: the reply of [`Bounds`](crate::Bounds) to a request that is
    /// given up in the middle of its body, or nothing.
    pub fn refusal(&self) -> &'static [u8] {
        self.crowd.refusal()
    }

    /// How many milliseconds the request that was given last has waited for its turn, once its head was there. It may be less by as much as
    /// the line didn't look before.
    pub fn waited(&self) -> u64 {
        milliseconds(self.crowd.waited())
    }

    /// The address of the client whose connection is open.
    pub fn peer(&self) -> Option<SocketAddr> {
        self.crowd.peer()
    }

    fn fail(&mut self) -> Failed
        ensures faults { Rose (self.old.other_faults + self.old.next_faults)
            (self.new.other_faults + self.new.next_faults) }
        ensures same { self.new ≡ record self.old { other_faults = self.new.other_faults } }
    {
        self.other_faults = self.other_faults.saturating_add(1);
        Failed
    }

    fn fail_next(&mut self) -> Failed
        ensures faults { Rose (self.old.other_faults + self.old.next_faults)
            (self.new.other_faults + self.new.next_faults) }
        ensures next_faults { Rose self.old.next_faults self.new.next_faults }
        ensures same { self.new ≡ record self.old { next_faults = self.new.next_faults } }
    {
        self.next_faults = self.next_faults.saturating_add(1);
        Failed
    }
}

impl<R: Net + Clock + Drop, C: Counted> Line<C> for TcpLine<R> {
    ghost model = { λ line. record (silent_line line.connected (line.other_faults + line.next_faults) line.spent) { next_faults = line.next_faults } };

    ghost is_line = { λ line. record { one_for_each = λ observable. absurd (true≢false (sym observable)); next_within = le-add_left line.next_faults line.other_faults } };

    /// Waits for the next request as long as it takes. False once as many connections began as may.
    fn next(&mut self) -> Result<bool, Failed> {
        self.connected = false;
        self.crowd.end();
        if self.left == 0 {
            return Ok(false);
        }
        if self.spent >= CALL_LIMIT || self.crowd.next().is_err() {
            return Err(self.fail_next());
        }
        self.connected = true;
        self.left -= 1;
        self.spent += 1;
        Ok(true)
    }

    fn read(&mut self, buf: &mut [u8]) -> Result<usize, Failed> {
        if self.spent >= CALL_LIMIT {
            return Err(self.fail());
        }
        match self.crowd.receive(buf) {
            Ok(0) => Ok(0),
            Ok(count) => {
                self.spent += 1;
                Ok(count)
            }
            Err(_) => Err(self.fail()),
        }
    }

    /// A piece of a reply. The reply is whole once more is read, or the connection ends.
    fn write(&mut self, _store: &C, bytes: &[u8]) -> Result<(), Failed> {
        match self.crowd.send(bytes) {
            Ok(()) => Ok(()),
            Err(_) => Err(self.fail()),
        }
    }

    fn close(&mut self) {
        self.connected = false;
        self.crowd.end();
    }
}
