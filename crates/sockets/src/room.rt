//! What room there is for what is read ahead of clients, or kept for them.

use std::time::Duration;

/// How many bytes one client's reading may go past the room that there is for it.
const PAST: usize = 2_097_152;

/// For how many milliseconds a client waits for room.
const PATIENCE: u64 = 1_000;

/// And where the last one that had waited was slow: so long that those who have room and are slow are given up first. A window of theirs may
/// have begun just before they stopped.
const WARY_PATIENCE: u64 = 11_000;

/// The room of a line.
#[derive(Clone, Copy)]
pub(crate) struct Room {
    /// How many bytes are read ahead or wait to be sent, at most, and how many do.
    most: usize,
    held: usize,
    /// Whether a client waits for room, and since when one did each time that all were looked at.
    full: bool,
    crowded: Option<Duration>,
    /// The place of the client that began first of those whose request is coming. A quarter of the room is its own.
    pub(crate) first: Option<usize>,
    /// Whether the last client that was served before its request was there whole was slow.
    wary: bool,
    /// When the line last waited for such a one while others waited, or one that waited for room found some.
    yielded: Duration,
}

impl Room {
    pub(crate) fn new(most: usize) -> Room {
        Room {
            most,
            held: 0,
            full: false,
            crowded: None,
            first: None,
            wary: false,
            yielded: Duration::ZERO,
        }
    }

    /// For how many bytes more there is room.
    pub(crate) fn left(&self) -> usize {
        self.most.saturating_sub(self.held)
    }

    /// For how many bytes there is room in all.
    pub(crate) fn most(&self) -> usize {
        self.most
    }

    /// Whether a client waits for room.
    pub(crate) fn is_awaited(&self) -> bool {
        self.full
    }

    /// A client waits for room.
    pub(crate) fn note_waiting(&mut self) {
        self.full = true;
    }

    /// Whether there is none for the client at a place: for the first one also beside what another read past the room, and for the others
    /// without what the first one still needs, a quarter of all at most.
    pub(crate) fn is_full_for(&self, place: usize, need_of_first: usize) -> bool {
        match self.first {
            Some(first) if first == place => self.most.saturating_add(PAST) <= self.held,
            Some(_) => self.left() <= need_of_first.min(self.most / 4),
            None => self.left() == 0,
        }
    }

    /// A client holds so many bytes, where it held others before. True where those who wait for room go on by that.
    pub(crate) fn count(&mut self, before: usize, now: usize) -> bool {
        self.held = self.held.saturating_sub(before).saturating_add(now);
        self.full && now < before && self.held < self.most
    }

    /// All clients are looked at, by which it shows who waits. True where one did so before too.
    pub(crate) fn begin_look(&mut self, now: Duration) -> bool {
        let goes_on = self.full && self.crowded.is_some();
        self.crowded = if self.full {
            Some(self.crowded.unwrap_or(now))
        } else {
            None
        };
        self.full = false;
        goes_on
    }

    /// When a client that has waited for room since that moment is served as its request comes. It may hold the others, so that they have
    /// their turns before the next such one.
    pub(crate) fn end_of_patience(&self, since: Duration) -> Option<Duration> {
        let patience = if self.wary { WARY_PATIENCE } else { PATIENCE };
        let begun = since.max(self.yielded).max(self.crowded?);
        Some(begun.saturating_add(Duration::from_millis(patience)))
    }

    /// The line waited for one that is served so while others waited, or one that waited for room found some.
    pub(crate) fn note_yielding(&mut self, now: Duration) {
        self.yielded = now;
    }

    /// One that was served so has its reply, or was slow.
    pub(crate) fn note_early(&mut self, slow: bool) {
        self.wary = slow;
    }
}
