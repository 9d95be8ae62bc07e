//! One client that is connected: what came of it, what it has not taken yet, and how it stands among the others.
ghost use Rattle.std.specs.Prelude.{◌≤◌, length, IfOk};

use crate::inbox::Inbox;
use crate::outbox::{Outbox, send};
use crate::pace::Stay;
use crate::wire::Wire;
use std::alloc::Global;
use std::collections::VecDeque;
use std::io;
use std::io::{Read, Write};
use std::net::{OpenStream, SocketAddr};
use std::time::Duration;

/// How many reads are made on one client before others have their turn.
const TURNS: usize = 32;

/// How many bytes are dropped of a client whose connection ends.
const DROPS: usize = 16_777_216;

/// How many milliseconds such a client may be silent.
const DROP_SILENCE: u64 = 200;

/// What asks for a body.
const ASKING: &[u8] = b"HTTP/1.1 100 Continue\r\n\r\n";

#[derive(Clone, Copy, PartialEq, Eq)]
pub(crate) enum Phase {
    /// It waits for a turn: nothing of a request was given yet.
    Waits,
    /// A request of it was given, and its reply isn't known to be whole.
    Served,
    /// It has its last reply, which may still be on its way.
    Closing,
}

/// What becomes of a client that was attended.
#[derive(Clone, Copy)]
pub(crate) enum After {
    /// There is more to do at once. No report comes of what a stream has already been found ready for.
    GoesOn,
    /// It sends more, for which there is no room.
    Full,
    /// Nothing is to be done before a report comes, or that moment.
    Rests(Duration),
    /// It is done with.
    Gone,
}

/// Why a client that is served gives no bytes.
#[derive(Clone, Copy)]
pub(crate) enum Lack {
    /// It came to its end.
    End,
    /// It failed or was silent for the limit, in the middle of its request.
    Fault,
    /// The rest of its request may come for so long.
    Rest(Duration),
    /// Its next request may come for so long.
    Next(Duration),
}

/// How a client stands among the others.
#[derive(Clone, Copy)]
pub(crate) struct Standing {
    /// The number of its turn among those that are ready, 0 where it has none, and whether it stands in the queue of those to be attended.
    pub(crate) turn: u64,
    pub(crate) stirred: bool,
    /// How many of its bytes are counted as held.
    pub(crate) counted: usize,
    /// Since when it has had more to send, for which there is no room.
    pub(crate) stalled: Option<Duration>,
    /// How it moves while another waits for the room that it has, and whether its request was given up since that was less than the
    /// floor.
    stay: Stay,
    slow: bool,
}

impl Standing {
    fn new(now: Duration) -> Standing {
        Standing {
            turn: 0,
            stirred: false,
            counted: 0,
            stalled: None,
            stay: Stay::new(now, 0),
            slow: false,
        }
    }

    fn stall(&mut self, now: Duration) {
        if self.stalled.is_none() {
            self.stalled = Some(now);
        }
    }
}

#[derive(Drop)]
pub(crate) struct Client<S> {
    wire: Wire<S>,
    pub(crate) peer: SocketAddr,
    phase: Phase,
    inbox: Inbox,
    outbox: Outbox,
    pub(crate) standing: Standing,
    /// Whether the writing side was ended, and how many bytes were dropped since.
    shut: bool,
    dropped: usize,
}

impl<S: Read + Write + OpenStream + Drop> Client<S> {
    /// A client that has just come, and may have been there since `reported`. `largest` is how many bytes a body has at most that is
    /// read ahead.
    pub(crate) fn new(
        alloc: Global,
        stream: S,
        peer: SocketAddr,
        largest: usize,
        reported: Duration,
        now: Duration,
    ) -> Client<S> {
        Client {
            wire: Wire::new(stream, reported, now),
            peer,
            phase: Phase::Waits,
            inbox: Inbox::new(alloc, largest, now),
            outbox: Outbox::new(alloc),
            standing: Standing::new(now),
            shut: false,
            dropped: 0,
        }
    }

    /// How many bytes it holds.
    pub(crate) fn held(&self) -> usize {
        self.inbox.len().saturating_add(self.outbox.len())
    }

    /// When it last sent or took anything.
    pub(crate) fn last(&self) -> Duration {
        self.wire.last()
    }

    /// When its request began.
    pub(crate) fn began(&self) -> Duration {
        self.inbox.began()
    }

    /// When the head of its request was there.
    pub(crate) fn headed(&self) -> Duration {
        self.inbox.headed()
    }

    /// How many bytes it has sent and taken in all.
    pub(crate) fn moved(&self) -> u64 {
        self.wire.moved()
    }

    /// Since when it has been silent between two requests, if it is.
    pub(crate) fn idle_since(&self) -> Option<Duration> {
        if self.phase == Phase::Waits && self.inbox.is_empty() && self.outbox.is_empty() {
            Some(self.last())
        } else {
            None
        }
    }

    /// Whether the request at its front is known, and a part of it is there.
    pub(crate) fn is_part(&self) -> bool {
        self.phase == Phase::Waits && self.inbox.is_part()
    }

    /// Since when its request has come, if that is known and a part of it is there.
    pub(crate) fn part_since(&self) -> Option<Duration> {
        if self.is_part() {
            Some(self.began())
        } else {
            None
        }
    }

    /// Since when it has had more of its request to send, for which there is no room.
    pub(crate) fn stalled_since(&self) -> Option<Duration> {
        if self.is_part() {
            self.standing.stalled
        } else {
            None
        }
    }

    /// Whether it can be given now. While bytes are kept for it, it can't: its replies stay in order, and are not more than one.
    pub(crate) fn is_next(&self) -> bool {
        self.phase == Phase::Waits && self.inbox.is_ready() && self.outbox.is_empty()
    }

    /// How many bytes of its request are still to come.
    pub(crate) fn need(&self) -> usize {
        self.inbox.need()
    }

    /// Whether its request has more bytes than that.
    pub(crate) fn is_larger(&self, most: usize) -> bool {
        self.inbox.is_larger(most)
    }

    /// Notes what the system reported of its stream, which may have been so since `moment`.
    pub(crate) fn mark(&mut self, readable: bool, writable: bool, moment: Duration) {
        self.wire.mark(readable, writable, moment);
    }

    /// Puts it into the queue of those to be attended, by its place, where it doesn't stand there. False without memory for that.
    pub(crate) fn stir(&mut self, place: usize, queue: &mut VecDeque<usize>) -> bool {
        if !self.standing.stirred {
            self.standing.stirred = queue.push_back(place).is_ok();
        }
        self.standing.stirred
    }

    /// Sends what is kept, and reads ahead or drops what comes. `full` says that there is no room to read ahead.
    pub(crate) fn attend(&mut self, now: Duration, limit: Duration, full: bool) -> After {
        self.wire.try_again(now, limit);
        self.outbox.flush(&mut self.wire, now);
        let gone = match self.phase {
            Phase::Waits => {
                if full && self.holds_part() {
                    return self.stall(now, limit);
                }
                self.standing.stalled = None;
                self.read_ahead(now, full)
            }
            Phase::Served => false,
            Phase::Closing => self.leave(now),
        };
        if gone {
            After::Gone
        } else {
            self.rest(now, limit)
        }
    }

    /// Whether it has bytes of a request, and more of them are to be read.
    fn holds_part(&self) -> bool {
        !self.inbox.is_empty()
            && !self.inbox.is_ready()
            && !self.wire.is_over()
            && self.wire.is_readable()
    }

    /// It waits for room. Only a head has a limit meanwhile.
    fn stall(&mut self, now: Duration, limit: Duration) -> After {
        self.standing.stall(now);
        if self.inbox.is_half_head() && self.began().saturating_add(limit) <= now {
            After::Gone
        } else {
            After::Full
        }
    }

    /// Reads ahead. Where there is no room that is one small piece, so that a short request is there whole. True once nothing can
    /// come of it.
    fn read_ahead(&mut self, now: Duration, full: bool) -> bool {
        let turns = if full { 1 } else { TURNS };
        if self.inbox.hear(&mut self.wire, turns, now).is_err() {
            self.fail();
        }
        self.ask_for_body(now);
        self.wire.is_over()
            && (self.wire.has_failed() || !self.inbox.is_ready() && self.outbox.is_empty())
    }

    /// What becomes of it by the time. One that is silent in the middle of a body gets an answer in its turn.
    fn rest(&mut self, now: Duration, limit: Duration) -> After {
        let end = self.deadline(limit);
        if end <= now && self.lapses() {
            After::Rests(Duration::MAX)
        } else if end <= now {
            After::Gone
        } else if self.goes_on() {
            After::GoesOn
        } else {
            After::Rests(end)
        }
    }

    /// Gives its request up, where a part of the body is still to come and it can be answered. False where it can't.
    fn lapses(&mut self) -> bool {
        let can = self.is_part()
            && self.outbox.is_empty()
            && !self.wire.is_over()
            && !self.wire.has_failed();
        if can {
            self.inbox.lapse();
        }
        can
    }

    /// Asks for the body of a request whose client waits to be asked, as the gateway would: once, and behind what is kept to be sent.
    fn ask_for_body(&mut self, now: Duration) {
        if !self.inbox.is_to_be_asked() || self.wire.is_over() || !self.outbox.is_empty() {
            return;
        }
        self.wire.begin_taking(now);
        let count = send(&mut self.wire, ASKING, now);
        if !self.wire.has_failed() {
            self.inbox.note_asked();
            if self
                .outbox
                .keep(&ASKING[count.min(ASKING.len())..])
                .is_err()
            {
                self.fail();
            }
        }
    }

    /// Whether these bytes were sent already. Those of a reply never were, whatever they spell.
    fn is_offered(&self, bytes: &[u8]) -> bool {
        self.inbox.was_asked() && !self.outbox.is_replying() && bytes == ASKING
    }

    /// It is given.
    pub(crate) fn begin(&mut self) {
        self.phase = Phase::Served;
        self.outbox.begin();
        self.inbox.begin();
        self.standing.turn = 0;
        self.standing.stalled = None;
    }

    /// Bytes of the request that is given: of those that came, and else from the stream. 0 where there is none now.
    pub(crate) fn give(&mut self, buf: &mut [u8], now: Duration) -> usize
        ensures { result ≤ length buf.old }
    {
        if self.phase == Phase::Served {
            self.inbox.give(&mut self.wire, buf, now)
        } else {
            0
        }
    }

    /// Whether a part of its reply was sent, behind which more may come.
    pub(crate) fn is_replying(&self) -> bool {
        self.outbox.is_replying()
    }

    /// Its reply is whole. What stands behind the request is its next.
    pub(crate) fn replied(&mut self, now: Duration) {
        self.outbox.end_reply();
        if self.inbox.advance(self.wire.is_over(), now) {
            self.phase = Phase::Waits;
        }
    }

    /// Whether nothing of a request is given, so that it can give way to another client.
    pub(crate) fn is_waiting(&self) -> bool {
        self.phase == Phase::Waits
    }

    /// Whether it takes nothing of what is kept for it until its end. Then its next request isn't given either.
    fn is_stuck(&self, end: Duration, now: Duration) -> bool {
        !self.outbox.is_empty() && end <= now
    }

    /// Why it gives nothing now. It may be silent for the limit.
    pub(crate) fn lack(&self, now: Duration, limit: Duration) -> Lack {
        let given = self.inbox.is_given();
        let end = self.silent_end(limit);
        if self.inbox.is_lapsed() {
            Lack::Fault
        } else if given && self.is_stuck(end, now) {
            Lack::End
        } else if self.inbox.is_ready() || !self.wire.is_over() && now < end {
            let wait = end.saturating_sub(now);
            if given {
                Lack::Next(wait)
            } else {
                Lack::Rest(wait)
            }
        } else if given || self.wire.is_over() && !self.wire.has_failed() {
            Lack::End
        } else {
            Lack::Fault
        }
    }

    /// When it has been silent for the limit, or for a head too long.
    fn silent_end(&self, limit: Duration) -> Duration {
        if self.phase == Phase::Waits {
            self.deadline(limit)
        } else {
            self.last().saturating_add(limit)
        }
    }

    /// These bytes are to be sent: from now on it may take nothing for the limit of time.
    pub(crate) fn begin_sending(&mut self, bytes: &[u8], now: Duration) {
        self.outbox.begin_sending(&mut self.wire, bytes, now);
    }

    /// When it has taken nothing for the limit of time.
    pub(crate) fn last_taking(&self, limit: Duration) -> Duration {
        self.wire.last_taking(limit)
    }

    /// It is tried whether it takes anything.
    pub(crate) fn try_now(&mut self) {
        self.wire.try_now();
    }

    /// How many bytes it takes at once, or are kept for it, where they are at most so many.
    pub(crate) fn put(
        &mut self,
        bytes: &[u8],
        room: usize,
        now: Duration,
        limit: Duration,
    ) -> io::Result<usize> {
        if self.is_offered(bytes) {
            return Ok(bytes.len());
        }
        self.wire.try_again(now, limit);
        self.outbox.put(&mut self.wire, bytes, room, now)
    }

    /// It may have room that another waits for. Where it is slow it fails.
    pub(crate) fn judge_stay(&mut self, now: Duration, floor: u64) {
        if !self.stays() {
            return self.begin_stay(now);
        }
        if self.standing.stay.is_over(now) {
            self.wire.try_now();
            self.outbox.flush(&mut self.wire, now);
            if self.standing.stay.is_slow(self.moved(), floor) && !self.has_more() {
                self.give_up_waiting();
            }
            self.begin_stay(now);
        }
    }

    /// What it holds is let go, because it is slow. Where it can be answered that is done in its turn.
    fn give_up_waiting(&mut self) {
        if self.lapses() {
            self.standing.slow = true;
        } else {
            self.fail();
        }
    }

    /// Whether its request was given up because it was slow, while it waited for its turn.
    pub(crate) fn was_slow(&self) -> bool {
        self.standing.slow
    }

    /// Answers the request that is given, of whose body a part didn't come. False where that can't be answered any more.
    pub(crate) fn refuse(&mut self, reply: &[u8], now: Duration) -> bool {
        let can = !reply.is_empty()
            && self.inbox.is_cut_short()
            && !self.outbox.is_replying()
            && self.outbox.is_empty();
        if !can {
            return false;
        }
        self.wire.begin_taking(now);
        self.outbox
            .put(&mut self.wire, reply, reply.len(), now)
            .is_ok()
    }

    /// Whether it waits for room itself, with more than a little at hand.
    fn has_more(&self) -> bool {
        self.standing.stalled.is_some() && self.wire.has_bytes(self.inbox.need())
    }

    /// From now on it is asked how it moves.
    pub(crate) fn begin_stay(&mut self, now: Duration) {
        self.standing.stay = Stay::new(now, self.moved());
    }

    /// Whether what it has is waited for: the rest of a request that is read, or that it takes what is kept for it.
    fn stays(&self) -> bool {
        if self.phase == Phase::Served {
            false
        } else if !self.outbox.is_empty() {
            true
        } else {
            !self.inbox.is_empty() && !self.inbox.is_ready()
        }
    }

    /// Nothing more comes of it, and nothing more is sent to it.
    pub(crate) fn fail(&mut self) {
        self.wire.fail();
    }

    /// It gets nothing more than what is kept for it.
    pub(crate) fn close(&mut self, now: Duration) {
        self.phase = Phase::Closing;
        self.outbox.end_reply();
        self.wire.begin_hearing(now);
        self.inbox.close();
    }

    /// Ends it from this side once all is sent, and drops what it still sends. True once there is no more to wait for.
    fn leave(&mut self, now: Duration) -> bool {
        if self.wire.has_failed() {
            return true;
        }
        if !self.outbox.is_empty() {
            return false;
        }
        if !self.shut {
            self.shut = true;
            self.wire.begin_hearing(now);
            if !self.wire.shut() {
                return true;
            }
        }
        self.drop_rest(now)
    }

    fn drop_rest(&mut self, now: Duration) -> bool {
        let mut buf = [0; 4096];
        for _turn in 0..TURNS {
            if self.wire.is_over() || self.dropped > DROPS {
                return true;
            }
            if !self.wire.is_readable() {
                return false;
            }
            let got = self.wire.stream.read(&mut buf);
            let count = self.wire.note_read(got, now);
            self.dropped = self.dropped.saturating_add(count);
        }
        self.wire.is_over()
    }

    /// When it is given up, if nothing comes or goes before. Who is served, or waits for a turn, isn't: those are not the silent ones.
    fn deadline(&self, limit: Duration) -> Duration {
        if self.phase == Phase::Closing && self.shut {
            self.wire
                .heard()
                .saturating_add(Duration::from_millis(DROP_SILENCE))
        } else if !self.outbox.is_empty() {
            self.last_taking(limit)
        } else if self.inbox.is_ready() || self.phase == Phase::Served {
            Duration::MAX
        } else if self.inbox.is_half_head() {
            self.began().saturating_add(limit)
        } else {
            self.last().saturating_add(limit)
        }
    }

    /// Whether more of it is to be done at once.
    fn goes_on(&self) -> bool {
        let hears = match self.phase {
            Phase::Waits => !self.inbox.is_ready(),
            Phase::Served => false,
            Phase::Closing => self.shut,
        };
        hears && self.wire.is_readable() && !self.wire.is_over()
            || self.wire.is_writable() && !self.outbox.is_empty()
    }
}
