//! The clients of a listener, side by side: which of them has a request, and what waits to be sent.
ghost use Rattle.std.specs.Prelude.{◌≤◌, length, IfOk};

use crate::bounds::Bounds;
use crate::client::{After, Client, Lack};
use crate::front::HEAD_LIMIT;
use crate::pace::Pace;
use crate::places::Places;
use crate::room::Room;
use crate::turns::{Turn, Turns};
use crate::watch::{LISTENER, Watch};
use mio::event::Event;
use std::alloc::Global;
use std::collections::VecDeque;
use std::io;
use std::io::{ErrorKind, Read, Write};
use std::net::{Net, OpenListener, OpenStream, SocketAddr};
use std::os::fd::AsRawFd;
use std::time::{Clock, Duration};

/// How many clients are accepted before those that are there are looked at again.
const ACCEPTS: usize = 256;

/// How many milliseconds a client is silent before it gives way to one that has no place.
const GRACE: u64 = 1_000;

/// How many milliseconds pass between two looks at all clients, and how long a listener rests that failed.
const REST: u64 = 100;

/// How many times in a row the listener may fail while nobody is connected.
const LOSSES: u32 = 100;

/// One thread reads ahead of all clients and sends what is kept for them, while one of them is served.
///
/// Work goes by two queues: who is to be attended, and who has a whole request. An outdated entry is passed over. Only every `REST` are all
/// clients looked at, for their times.
#[derive(Drop)]
pub(crate) struct Crowd<R: Net> {
    rt: R,
    alloc: Global,
    listener: R::Listener,
    watch: Watch,
    places: Places<R::Stream>,
    turns: Turns,
    stirred: VecDeque<usize>,
    /// The place of the client that is served.
    open: Option<usize>,
    /// Whether the listener may have clients, and whether they are still taken.
    waiting: bool,
    ending: bool,
    losses: u32,
    limit: Duration,
    /// The most bytes of a body that is read ahead.
    largest: usize,
    room: Room,
    pace: Pace,
    /// The reply to a request that is given up in the middle of its body.
    timeout: &'static [u8],
    /// Whether the client that is served was given up because it was slow, and whether it was sent that reply.
    slow: bool,
    refused: bool,
    /// How long its request has waited for its turn.
    waited: Duration,
    /// Whether its request was given before it was there whole.
    early: bool,
    now: Duration,
    /// When all clients are looked at next, though nothing comes.
    due: Duration,
}

impl<R: Net + Clock + Drop> Crowd<R> {
    pub(crate) fn new(
        rt: R,
        alloc: Global,
        listener: R::Listener,
        bounds: Bounds,
    ) -> io::Result<Crowd<R>> {
        listener.set_nonblocking(true)?;
        let now = rt.monotonic()?;
        let watch = Watch::new(&rt, alloc, listener.as_raw_fd(), now)?;
        Ok(Crowd {
            rt,
            alloc,
            listener,
            watch,
            places: Places::new(alloc, bounds.places),
            turns: Turns::new(alloc),
            stirred: VecDeque::new(alloc),
            open: None,
            waiting: true,
            ending: false,
            losses: 0,
            limit: Duration::from_secs(bounds.limit),
            largest: bounds.largest,
            room: Room::new(bounds.ahead.saturating_add(HEAD_LIMIT)),
            pace: Pace::new(bounds.floor),
            timeout: bounds.timeout,
            slow: false,
            refused: false,
            waited: Duration::ZERO,
            early: false,
            now,
            due: now,
        })
    }

    /// Waits until a client has a request, which is then served. The one that is served now ends.
    pub(crate) fn next(&mut self) -> io::Result<()> {
        self.end();
        let mut wait = Duration::ZERO;
        for _wait in 0..u64::MAX {
            self.look(wait)?;
            if let Some(place) = self.choose() {
                self.begin(place);
                return Ok(());
            }
            if self.losses >= LOSSES {
                self.losses = 0;
                break;
            }
            wait = Duration::MAX;
        }
        Err(io::Error::from(ErrorKind::Other))
    }

    /// The place of the client that has had a request for the longest time. One that has waited for room too long goes before.
    fn choose(&mut self) -> Option<usize> {
        match self.overdue() {
            Some(place) => Some(place),
            None => self.first_ready(),
        }
    }

    /// The place of the client that has waited for room the longest, where that is too long. Who never finds room for the whole doesn't
    /// wait for it.
    fn overdue(&mut self) -> Option<usize> {
        if !self.room.is_awaited() {
            return None;
        }
        let (place, since) = self.places.longest_stalled(self.now)?;
        if self.is_too_large(place) {
            return Some(place);
        }
        let due = self.room.end_of_patience(since)?;
        if due <= self.now {
            Some(place)
        } else {
            self.due = self.due.min(due);
            None
        }
    }

    fn is_too_large(&self, place: usize) -> bool {
        match self.places.get(place) {
            Some(client) => client.is_larger(self.room.most()),
            None => false,
        }
    }

    fn first_ready(&mut self) -> Option<usize> {
        for _entry in 0..self.turns.len() {
            let turn = self.turns.first()?;
            if self.is_due(turn) {
                return Some(turn.place);
            }
            self.turns.pass();
        }
        None
    }

    /// Whether that turn is still to come.
    fn is_due(&self, turn: Turn) -> bool {
        match self.places.get(turn.place) {
            Some(client) => client.standing.turn == turn.number && client.is_next(),
            None => false,
        }
    }

    /// The address of the client that is served.
    pub(crate) fn peer(&self) -> Option<SocketAddr> {
        match self.open {
            Some(place) => self.peer_at(place),
            None => None,
        }
    }

    fn peer_at(&self, place: usize) -> Option<SocketAddr> {
        match self.places.get(place) {
            Some(client) => Some(client.peer),
            None => None,
        }
    }

    fn is_next(&self, place: usize) -> bool {
        match self.places.get(place) {
            Some(client) => client.is_next(),
            None => false,
        }
    }

    fn begin(&mut self, place: usize) {
        self.open = Some(place);
        self.slow = false;
        self.refused = false;
        self.early = !self.is_next(place);
        self.pace.begin(self.now);
        if let Some(client) = self.places.get_mut(place) {
            self.waited = self.now.saturating_sub(client.headed());
            client.begin();
        }
    }

    /// How long the request that was given last has waited for its turn, once its head was there.
    pub(crate) fn waited(&self) -> Duration {
        self.waited
    }

    /// How many bytes the client there has sent and taken in all.
    fn moved_at(&self, place: usize) -> u64 {
        match self.places.get(place) {
            Some(client) => client.moved(),
            None => 0,
        }
    }

    /// Whether the client that was served last was given up because it was slow.
    pub(crate) fn was_slow(&self) -> bool {
        self.slow
    }

    /// Waits for the client that is served, at most so long. Where others wait too that is measured, and one that is slow fails.
    fn wait_for(&mut self, place: usize, wait: Duration) -> io::Result<()> {
        let moved = self.moved_at(place);
        if !self.is_contested() {
            self.pace.rest(moved);
            return self.look(wait);
        }
        let left = self.pace.left(moved);
        if left.is_zero() {
            return self.give_up(place);
        }
        let begun = self.rt.monotonic()?;
        self.look(wait.min(left))?;
        self.pace.wait(self.now.saturating_sub(begun));
        if self.early {
            self.room.note_yielding(self.now);
        }
        Ok(())
    }

    /// Whether another client has a whole request, or waits for room.
    fn is_contested(&mut self) -> bool {
        self.room.is_awaited() || self.first_ready().is_some()
    }

    /// What the line has answered by itself to the client that was served last.
    pub(crate) fn refusal(&self) -> &'static [u8] {
        if self.refused { self.timeout } else { b"" }
    }

    /// The client that is served is slow. Where its request can't be answered any more, nothing is sent to it, and what is kept for it is
    /// let go.
    fn give_up(&mut self, place: usize) -> io::Result<()> {
        self.slow = true;
        if self.early {
            self.room.note_early(true);
        }
        self.pace.give_up(self.now);
        self.refuse(place);
        if !self.refused {
            if let Some(client) = self.places.get_mut(place) {
                client.fail();
            }
        }
        Err(io::Error::from(ErrorKind::TimedOut))
    }

    /// Answers the request that is given, of whose body a part didn't come, where that can still be done.
    fn refuse(&mut self, place: usize) {
        if let Some(client) = self.places.get_mut(place) {
            self.slow = self.slow || client.was_slow();
            self.refused = client.refuse(self.timeout, self.now);
        }
        self.count(place);
    }

    /// The request that is given doesn't come to its end.
    fn break_off(&mut self, place: usize) -> io::Result<bool> {
        self.refuse(place);
        Err(io::Error::from(ErrorKind::TimedOut))
    }

    /// Bytes of the client that is served, or none: it came to its end, or gives way to another client that has a request,
    /// and comes again. A reply that it was sent is whole: only behind that its next request is known.
    pub(crate) fn receive(&mut self, buf: &mut [u8]) -> io::Result<usize>
        ensures { IfOk result (λ count. count ≤ length buf.old) }
    {
        self.end_reply();
        for _wait in 0..u64::MAX {
            let Some(place) = self.open else {
                return Ok(0);
            };
            let count = self.give(place, buf);
            if count > 0 {
                return Ok(count);
            }
            if self.is_at_end(place)? {
                return Ok(0);
            }
        }
        Ok(0)
    }

    fn give(&mut self, place: usize, buf: &mut [u8]) -> usize
        ensures { result ≤ length buf.old }
    {
        let count = match self.places.get_mut(place) {
            Some(client) => client.give(buf, self.now),
            None => 0,
        };
        self.count(place);
        count
    }

    /// Whether the client that is served has nothing more to give. Else its bytes may have come, after a wait.
    fn is_at_end(&mut self, place: usize) -> io::Result<bool> {
        let lack = match self.places.get(place) {
            Some(client) => client.lack(self.now, self.limit),
            None => Lack::End,
        };
        match lack {
            Lack::End => Ok(true),
            Lack::Fault => self.break_off(place),
            Lack::Rest(wait) => {
                self.wait_for(place, wait)?;
                Ok(false)
            }
            Lack::Next(wait) => self.gives_way(place, wait),
        }
    }

    /// Whether a client that has no request at hand gives way to one that has. If its next one is there already it has a turn behind
    /// theirs, so what they have sent is looked for first.
    fn gives_way(&mut self, place: usize, wait: Duration) -> io::Result<bool> {
        if self.is_next(place) {
            self.look(Duration::ZERO)?;
        }
        match self.choose() {
            Some(first) if first == place => {
                self.begin(place);
                Ok(false)
            }
            Some(_) => {
                self.park(place);
                Ok(true)
            }
            None => {
                self.look(wait)?;
                Ok(false)
            }
        }
    }

    /// It stays connected, though it isn't served. Where the end of the request that it was given isn't known it can't, and ends.
    fn park(&mut self, place: usize) {
        let waits = match self.places.get(place) {
            Some(client) => client.is_waiting(),
            None => false,
        };
        if waits {
            self.open = None;
        }
    }

    /// Sends bytes to the client that is served, or keeps what it doesn't take at once. More of the same reply may follow.
    pub(crate) fn send(&mut self, bytes: &[u8]) -> io::Result<()> {
        let Some(place) = self.open else {
            return Ok(());
        };
        self.begin_sending(place, bytes)?;
        let mut rest = bytes;
        for _wait in 0..u64::MAX {
            let count = self.put(place, rest)?;
            rest = &rest[count.min(rest.len())..];
            if rest.is_empty() {
                break;
            }
            self.wait_for_taking(place)?;
        }
        Ok(())
    }

    /// Between two pieces of a reply the other clients are looked at, since there may be many.
    fn begin_sending(&mut self, place: usize, bytes: &[u8]) -> io::Result<()> {
        if self.is_replying(place) {
            self.look(Duration::ZERO)?;
        } else {
            self.now = self.rt.monotonic()?;
        }
        if let Some(client) = self.places.get_mut(place) {
            client.begin_sending(bytes, self.now);
        }
        Ok(())
    }

    /// Whether a part of a reply was sent there, behind which more may come.
    fn is_replying(&self, place: usize) -> bool {
        match self.places.get(place) {
            Some(client) => client.is_replying(),
            None => false,
        }
    }

    /// How many bytes a client takes at once, or are kept for it.
    fn put(&mut self, place: usize, bytes: &[u8]) -> io::Result<usize> {
        let room = self.room.left();
        let last = self.pace.is_over();
        let count = match self.places.get_mut(place) {
            Some(client) => {
                if last {
                    client.try_now();
                }
                client.put(bytes, room, self.now, self.limit)?
            }
            None => bytes.len(),
        };
        self.count(place);
        Ok(count)
    }

    fn wait_for_taking(&mut self, place: usize) -> io::Result<()> {
        let end = match self.places.get(place) {
            Some(client) => client.last_taking(self.limit),
            None => Duration::ZERO,
        };
        let left = end.saturating_sub(self.now);
        if left.is_zero() {
            return Err(io::Error::from(ErrorKind::TimedOut));
        }
        self.wait_for(place, left)
    }

    /// The reply of the client that is served, if it was sent any, is whole.
    fn end_reply(&mut self) {
        if let Some(place) = self.open {
            if self.is_replying(place) {
                self.replied(place);
            }
        }
    }

    /// The report of its next request, or of its end, may have come already: so it is attended at once.
    fn replied(&mut self, place: usize) {
        if self.early {
            self.early = false;
            self.room.note_early(false);
        }
        if let Some(client) = self.places.get_mut(place) {
            client.replied(self.now);
        }
        self.attend(place);
    }

    /// Ends the client that is served, behind its reply. What is kept is sent first.
    pub(crate) fn end(&mut self) {
        if let Some(place) = self.open.take() {
            self.close(place);
        }
    }

    fn close(&mut self, place: usize) {
        if let Some(client) = self.places.get_mut(place) {
            client.close(self.now);
        }
        self.attend(place);
    }

    /// Sends what is kept, and ends all clients. One that takes nothing for the limit of time is given up. Nobody is accepted any more.
    pub(crate) fn finish(&mut self) -> io::Result<()> {
        self.now = self.rt.monotonic()?;
        self.open = None;
        self.ending = true;
        for place in 0..self.places.len() {
            self.close(place);
        }
        for _wait in 0..u64::MAX {
            if self.places.are_empty() {
                break;
            }
            self.look(Duration::from_millis(REST))?;
        }
        Ok(())
    }

    /// Waits for whatever comes first, at most so long, and does what is due with each client of which something came.
    /// Only then are others accepted: a place is taken of one that is idle, and what it has just sent must be known by then.
    fn look(&mut self, wait: Duration) -> io::Result<()> {
        let wait = self.wait_within(wait);
        self.now = self.watch.wait(&self.rt, wait)?;
        self.mark();
        self.attend_stirred();
        if self.waiting && !self.ending {
            self.accept();
        }
        if self.due <= self.now {
            self.attend_all();
        }
        Ok(())
    }

    /// No wait is longer than until the next look at all clients, which keeps the system's own limit of a wait.
    fn wait_within(&self, wait: Duration) -> Duration {
        if self.stirred.is_empty() {
            wait.min(self.due.saturating_sub(self.now))
        } else {
            Duration::ZERO
        }
    }

    /// Notes what the system reported.
    fn mark(&mut self) {
        for event in self.watch.events.iter() {
            let place = event.token().0;
            if place == LISTENER {
                self.waiting = true;
            } else if let Some(client) = self.places.get_mut(place) {
                mark_client(client, event, self.watch.since);
                let _ = client.stir(place, &mut self.stirred);
            }
        }
    }

    /// Attends those of whom something came. Who isn't done after that has its next turn behind the others.
    fn attend_stirred(&mut self) {
        for _entry in 0..self.stirred.len() {
            if let Some(place) = self.stirred.pop_front() {
                if let Some(client) = self.places.get_mut(place) {
                    client.standing.stirred = false;
                }
                self.attend(place);
            }
        }
    }

    /// Attends all clients, which ends those whose time is over, and goes on with those that waited for room.
    fn attend_all(&mut self) {
        let judges = self.room.begin_look(self.now);
        self.find_first();
        self.due = self.now.saturating_add(self.limit);
        for place in 0..self.places.len() {
            self.judge_stay(place, judges);
            self.attend(place);
        }
        self.due = self.due.max(self.rested());
        if self.waiting || self.room.is_awaited() {
            self.due = self.rested();
        }
    }

    /// Where another waits for room, a client that has some and is slow fails.
    fn judge_stay(&mut self, place: usize, judges: bool) {
        let floor = self.pace.floor();
        if let Some(client) = self.places.get_mut(place) {
            if judges {
                client.judge_stay(self.now, floor);
            } else {
                client.begin_stay(self.now);
            }
        }
    }

    /// Which client began first of those whose request is coming.
    fn find_first(&mut self) {
        self.room.first = self.places.oldest_part(self.now);
    }

    fn is_part(&self, place: usize) -> bool {
        match self.places.get(place) {
            Some(client) => client.is_part(),
            None => false,
        }
    }

    /// How many bytes of its request the first of those whose request is coming still needs.
    fn need_of_first(&self) -> usize {
        match self.room.first {
            Some(first) => self.need_at(first),
            None => 0,
        }
    }

    fn need_at(&self, place: usize) -> usize {
        match self.places.get(place) {
            Some(client) if client.is_part() => client.need(),
            _ => 0,
        }
    }

    /// The end of a rest that begins now.
    fn rested(&self) -> Duration {
        self.now.saturating_add(Duration::from_millis(REST))
    }

    /// Does what is due with one client.
    fn attend(&mut self, place: usize) {
        let need = self.need_of_first();
        let full = self.room.is_full_for(place, need);
        let (stalled, after) = match self.places.get_mut(place) {
            Some(client) => {
                let stalled = client.standing.stalled.is_some();
                (stalled, client.attend(self.now, self.limit, full))
            }
            None => return,
        };
        self.count(place);
        if stalled && !matches!(after, After::Full | After::Gone) {
            self.room.note_yielding(self.now);
        }
        match after {
            After::GoesOn => self.stir(place),
            After::Full => {
                self.room.note_waiting();
                self.rest();
            }
            After::Rests(end) => self.due = self.due.min(end),
            After::Gone => {
                if self.open != Some(place) {
                    self.forget(place);
                }
            }
        }
        self.note_part(place);
        self.line_up(place);
    }

    /// Counts anew what a client holds. Where that makes room, those who wait for it go on soon.
    fn count(&mut self, place: usize) {
        if let Some(client) = self.places.get_mut(place) {
            let held = client.held();
            if self.room.count(client.standing.counted, held) {
                self.due = self.now;
            }
            client.standing.counted = held;
        }
    }

    /// The first of those whose request is coming is another one once its own is there.
    fn note_part(&mut self, place: usize) {
        let part = self.is_part(place);
        if self.room.first == Some(place) && !part {
            self.room.first = None;
        }
        if self.room.first.is_none() && part {
            self.find_first();
        }
    }

    /// It is attended in the next look, or without memory for that in the next look at all.
    fn stir(&mut self, place: usize) {
        if let Some(client) = self.places.get_mut(place) {
            if !client.stir(place, &mut self.stirred) {
                self.due = self.now;
            }
        }
    }

    /// A client that can be given has a turn, behind those that others have.
    fn line_up(&mut self, place: usize) {
        if let Some(client) = self.places.get_mut(place) {
            if client.is_next() && client.standing.turn == 0 {
                match self.turns.give(place) {
                    Some(number) => client.standing.turn = number,
                    None => self.due = self.now,
                }
            }
        }
    }

    fn forget(&mut self, place: usize) {
        if let Some(client) = self.places.get(place) {
            if self.room.count(client.standing.counted, 0) {
                self.due = self.now;
            }
            self.places.empty(place);
        }
        if self.room.first == Some(place) {
            self.room.first = None;
        }
    }

    /// Accepts the clients that wait, as far as there are places.
    fn accept(&mut self) {
        for _client in 0..ACCEPTS {
            if !self.has_room() {
                return self.rest();
            }
            match self.listener.accept() {
                Ok((stream, peer)) => {
                    self.losses = 0;
                    self.welcome(stream, peer);
                }
                Err(error) => {
                    if self.stops(error.kind()) {
                        return;
                    }
                }
            }
        }
        self.rest();
    }

    /// Whether no more clients are accepted now, by an error of the listener. One that went away while it waited is passed over.
    fn stops(&mut self, error: ErrorKind) -> bool {
        match error {
            ErrorKind::WouldBlock => self.waiting = false,
            ErrorKind::ConnectionAborted | ErrorKind::Interrupted => return false,
            _ => {
                self.lose();
                self.rest();
            }
        }
        true
    }

    /// The listener has clients still, and no report comes of them: it is tried again a little later.
    fn rest(&mut self) {
        self.due = self.due.min(self.rested());
    }

    /// Whether there is a place for one more client: an empty one, or that of the one that has been idle the longest.
    fn has_room(&mut self) -> bool {
        if !self.places.has_room() {
            self.forget_idlest();
        }
        self.places.has_room()
    }

    /// The client that is served stays, also where it is idle.
    fn forget_idlest(&mut self) -> bool {
        let grace = Duration::from_millis(GRACE);
        match self
            .places
            .idlest(self.now.saturating_sub(grace), self.open)
        {
            Some(place) => {
                self.forget(place);
                true
            }
            None => false,
        }
    }

    /// The listener failed. Where clients are connected their descriptors may be what it wants: the one that has been idle the longest
    /// gives way. Where nobody is connected it is a loss.
    fn lose(&mut self) {
        if !self.forget_idlest() && self.places.are_empty() {
            self.losses = self.losses.saturating_add(1);
        }
    }

    /// A client that can't be watched is lost.
    fn welcome(&mut self, stream: R::Stream, peer: SocketAddr) {
        if stream.set_nonblocking(true).is_err() || stream.set_nodelay(true).is_err() {
            return;
        }
        let Ok(place) = self.places.take() else {
            return;
        };
        let source = stream.as_raw_fd();
        self.places.fill(
            place,
            Client::new(
                self.alloc,
                stream,
                peer,
                self.largest,
                self.watch.since,
                self.now,
            ),
        );
        if self.watch.add_stream(source, place).is_ok() {
            self.stir(place);
        } else {
            self.places.empty(place);
        }
    }
}

/// Notes what the system reported of a client's stream. One that failed, or was closed, is tried both ways.
fn mark_client<S: Read + Write + OpenStream + Drop>(
    client: &mut Client<S>,
    event: &Event,
    since: Duration,
) {
    let failed = event.is_error() || event.is_read_closed();
    let readable = event.is_readable() || failed;
    client.mark(readable, event.is_writable() || failed, since);
}
