//! What a client sends: the request at the front of it, and what stands behind.
ghost use Rattle.std.specs.Prelude.{◌≤◌, length};

use crate::came::Came;
use crate::front::{EARLY, Front, HEAD_LIMIT, find_front};
use crate::wire::Wire;
use std::alloc::{AllocError, Global};
use std::io::{Read, Write};
use std::net::OpenStream;
use std::time::Duration;

/// The bytes of a client that came and were not given yet, with what is known of the request at their front.
#[derive(Drop)]
pub(crate) struct Inbox {
    /// The most bytes of a body that is read ahead.
    largest: usize,
    /// What came and was not given, and in how many bytes of its front no end of a head was found.
    came: Came,
    sought: usize,
    /// How many bytes the request has, 0 while it isn't known, and how many of them are to be given.
    size: usize,
    left: usize,
    asks: bool,
    /// Whether the line has asked for the body in the gateway's place.
    offered: bool,
    /// Whether its requests have ends that are known; and where they haven't, whether it is in the middle of one.
    framed: bool,
    busy: bool,
    /// Whether the request can be given.
    ready: bool,
    /// Whether it is given up, though a part of its body is still to come.
    lapsed: bool,
    /// Whether its method is HEAD.
    bodiless: bool,
    /// When the request began, and when its head was there, or what there is instead.
    began: Duration,
    headed: Duration,
}

impl Inbox {
    pub(crate) fn new(alloc: Global, largest: usize, now: Duration) -> Inbox {
        Inbox {
            largest,
            came: Came::new(alloc),
            sought: 0,
            size: 0,
            left: 0,
            asks: false,
            offered: false,
            framed: true,
            busy: false,
            ready: false,
            lapsed: false,
            bodiless: false,
            began: now,
            headed: now,
        }
    }

    pub(crate) fn len(&self) -> usize {
        self.came.len()
    }

    pub(crate) fn is_empty(&self) -> bool {
        self.came.is_empty()
    }

    pub(crate) fn is_ready(&self) -> bool {
        self.ready
    }

    /// When the request at the front began.
    pub(crate) fn began(&self) -> Duration {
        self.began
    }

    /// When the head of the request at the front was there.
    pub(crate) fn headed(&self) -> Duration {
        self.headed
    }

    /// Whether the request at the front is known, and a part of it is to come.
    pub(crate) fn is_part(&self) -> bool {
        self.size != 0 && !self.ready
    }

    /// Whether the request was given up.
    pub(crate) fn is_lapsed(&self) -> bool {
        self.lapsed
    }

    /// Whether the request that is given lacks a part of its body, so that this can be answered.
    pub(crate) fn is_cut_short(&self) -> bool {
        self.size != 0 && self.left != 0 && !self.bodiless
    }

    /// Gives the request up: it is given as far as its head, and its body is let go.
    pub(crate) fn lapse(&mut self) {
        self.lapsed = true;
        self.ready = true;
        self.came.clear_pieces();
    }

    /// Whether a part of a request is there, of which nothing more is known.
    pub(crate) fn is_half_head(&self) -> bool {
        self.size == 0 && !self.came.is_empty()
    }

    /// How many bytes of the request are still to come.
    pub(crate) fn need(&self) -> usize {
        self.size.saturating_sub(self.came.len())
    }

    /// Whether the request has more bytes than that.
    pub(crate) fn is_larger(&self, most: usize) -> bool {
        self.size > most
    }

    /// Reads what comes, until the request at the front is there.
    pub(crate) fn hear<S: Read + Write + OpenStream + Drop>(
        &mut self,
        wire: &mut Wire<S>,
        turns: usize,
        now: Duration,
    ) -> Result<(), AllocError> {
        for _turn in 0..turns {
            if self.ready || wire.is_over() || !wire.is_readable() {
                return Ok(());
            }
            if self.came.is_empty() {
                self.began = now;
            }
            let got = self.came.hear(&mut wire.stream, self.size)?;
            let _ = wire.note_read(got, now);
            self.judge(wire.is_over(), wire.reported());
        }
        Ok(())
    }

    /// What stands at the front, by all that came, at that moment. A body that its client ended is given, for that gets an answer; half a
    /// head isn't.
    fn judge(&mut self, over: bool, moment: Duration) {
        if self.came.is_empty() {
            return;
        }
        if self.size == 0 && self.says_more() {
            self.headed = moment;
            self.find();
        }
        if self.size != 0 && (over || self.came.len() >= self.size) {
            self.ready = true;
        }
    }

    /// Whether more was read by which a head may end, or may be none: any byte at first, and later a line end, or as much as no head
    /// may have.
    fn says_more(&self) -> bool {
        let front = self.came.front();
        let sought = self.sought.min(front.len());
        front.len() <= EARLY || front.len() >= HEAD_LIMIT || front[sought..].contains(&b'\n')
    }

    fn find(&mut self) {
        self.sought = self.came.front().len();
        match find_front(self.came.front(), self.largest) {
            Front::Part => {}
            Front::Request { size, asks } => {
                self.size = size;
                self.asks = asks;
                self.bodiless = begins_with_head(self.came.front());
            }
            Front::Open => {
                self.framed = false;
                self.ready = true;
            }
        }
    }

    /// Whether its client waits to be asked for the body, and wasn't.
    pub(crate) fn is_to_be_asked(&self) -> bool {
        self.asks && !self.offered && !self.ready
    }

    pub(crate) fn note_asked(&mut self) {
        self.offered = true;
    }

    pub(crate) fn was_asked(&self) -> bool {
        self.offered
    }

    /// The request is given.
    pub(crate) fn begin(&mut self) {
        self.busy = true;
        self.ready = false;
        if self.size == 0 {
            self.framed = false;
        }
        self.left = self.size;
    }

    /// Bytes of the request that is given: of those that came, and else from the stream. 0 where there is none now.
    pub(crate) fn give<S: Read + Write + OpenStream + Drop>(
        &mut self,
        wire: &mut Wire<S>,
        buf: &mut [u8],
        now: Duration,
    ) -> usize
        ensures { result ≤ length buf.old }
    {
        let most = self.most(buf.len());
        let given = self.came.give(&mut buf[..most]);
        if given > 0 {
            self.note_given(given);
            return given;
        }
        if self.lapsed || wire.is_over() || !wire.is_readable() || most == 0 {
            return 0;
        }
        let got = wire.stream.read(&mut buf[..most]);
        let count = wire.note_read(got, now).min(most);
        self.note_given(count);
        count
    }

    fn note_given(&mut self, count: usize) {
        self.left = self.left.saturating_sub(count);
        self.busy = self.busy || count > 0;
    }

    /// How many bytes may be given into so much room.
    fn most(&self, room: usize) -> usize
        ensures { result ≤ room }
    {
        if self.framed {
            room.min(self.left)
        } else {
            room
        }
    }

    /// The reply is whole. What stands behind the request is the next. False where the request's end isn't known, or wasn't given.
    pub(crate) fn advance(&mut self, over: bool, now: Duration) -> bool {
        self.busy = false;
        if !self.framed || self.left != 0 || self.lapsed {
            return false;
        }
        self.came.advance();
        self.sought = 0;
        self.size = 0;
        self.asks = false;
        self.offered = false;
        self.ready = false;
        self.began = now;
        self.judge(over, now);
        true
    }

    /// Whether nothing more of the request is to come.
    pub(crate) fn is_given(&self) -> bool {
        if self.framed {
            self.left == 0
        } else {
            !self.busy
        }
    }

    /// Lets all go.
    pub(crate) fn close(&mut self) {
        self.ready = false;
        self.size = 0;
        self.came.clear();
    }
}

/// Whether a request has the method HEAD, to which no reply has a body.
fn begins_with_head(bytes: &[u8]) -> bool {
    bytes.trim_ascii_start().starts_with(b"HEAD ")
}
