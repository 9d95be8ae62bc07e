//! Waiting for a listener and many streams at once.
use mio::unix::SourceFd;
use mio::{Events, Interest, Poll, Token};
use std::alloc::Global;
use std::io;
use std::net::Net;
use std::os::fd::RawFd;
use std::time::{Clock, Duration};

/// How many reports one wait gives, at most: more than there are places, so that a client that sent anything is never taken
/// for a silent one.
const EVENTS: usize = 1024;

/// Below so many milliseconds a wait was none.
const AT_ONCE: u64 = 1;

/// The token of the listener. A client has the number of its place, which is lower.
pub(crate) const LISTENER: usize = EVENTS;

/// Reports come once, when a source becomes ready. A stream that is closed leaves by itself.
#[derive(Drop)]
pub(crate) struct Watch {
    poll: Poll,
    pub(crate) events: Events,
    /// What was reported last may have been so since then.
    pub(crate) since: Duration,
    /// When the last wait ended.
    looked: Duration,
}

impl Watch {
    /// Watches the listener, and no stream yet.
    pub(crate) fn new<R: Net>(
        rt: &R,
        alloc: Global,
        listener: RawFd,
        now: Duration,
    ) -> io::Result<Watch> {
        let watch = Watch {
            poll: Poll::new(rt)?,
            events: Events::with_capacity(alloc, EVENTS)?,
            since: now,
            looked: now,
        };
        watch.add(listener, LISTENER, Interest::READABLE)?;
        Ok(watch)
    }

    /// Watches a client's stream both ways, so that it need not be registered again.
    pub(crate) fn add_stream(&self, stream: RawFd, place: usize) -> io::Result<()> {
        self.add(stream, place, Interest::READABLE | Interest::WRITABLE)
    }

    /// Waits for reports, no longer than so. Those that were there at once may have been so since the wait before ended. The moment at which
    /// this one ends.
    pub(crate) fn wait<R: Clock>(&mut self, rt: &R, limit: Duration) -> io::Result<Duration> {
        let begun = rt.monotonic()?;
        self.poll.poll(&mut self.events, Some(limit))?;
        let now = rt.monotonic()?;
        let waited = now.saturating_sub(begun);
        self.since = if waited < Duration::from_millis(AT_ONCE) {
            self.looked
        } else {
            now
        };
        self.looked = now;
        Ok(now)
    }

    fn add(&self, source: RawFd, token: usize, interest: Interest) -> io::Result<()> {
        self.poll
            .registry()
            .register(&mut SourceFd(&source), Token(token), interest)
    }
}
