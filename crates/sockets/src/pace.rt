//! How long the line waits for who doesn't move, while others wait.

use std::time::Duration;

/// For how many milliseconds the line waits for a client that moves less than the floor, while others wait.
const PATIENCE: u64 = 5_000;

/// For how many at least, where it gave another one up just before.
const LEAST: u64 = 500;

/// In so many, what a client takes isn't counted: at first the system takes bytes in its place.
const START: u64 = 200;

/// For how long the line waits.
fn patience() -> Duration {
    Duration::from_millis(PATIENCE)
}

/// The whole milliseconds of a time.
pub(crate) fn milliseconds(time: Duration) -> u64 {
    time.as_secs()
        .saturating_mul(1_000)
        .saturating_add(time.subsec_millis() as u64)
}

/// How the client that is served moves in the time for which the line waits for it while others wait. Nothing else is of that time:
/// neither what the store takes nor what a request is worked on. It goes by windows: in each the client moves its part of the floor. One is
/// as long as `PATIENCE`, but for the first ones behind a client that was given up.
#[derive(Clone, Copy)]
pub(crate) struct Pace {
    /// How many bytes are moved in `PATIENCE`, at least. Where it is 0 there is no floor.
    floor: u64,
    /// How long the window at hand is, how much of it is over, and how many bytes were moved in it.
    window: Duration,
    waited: Duration,
    gained: u64,
    /// How much of the time is still to pass before bytes are counted.
    start: Duration,
    /// How many bytes the client had moved when that was last asked, and whether those that follow are of the window.
    seen: u64,
    counts: bool,
    /// When a client was given up.
    gave_up: Option<Duration>,
}

impl Pace {
    pub(crate) fn new(floor: u64) -> Pace {
        Pace {
            floor,
            window: patience(),
            waited: Duration::ZERO,
            gained: 0,
            start: Duration::ZERO,
            seen: 0,
            counts: false,
            gave_up: None,
        }
    }

    pub(crate) fn floor(&self) -> u64 {
        self.floor
    }

    /// Another client is served. So that many who don't move don't hold the others one after another, its first window is short where one
    /// was just given up, and each further one twice as long.
    pub(crate) fn begin(&mut self, now: Duration) {
        let window = match self.gave_up {
            Some(moment) => now.saturating_sub(moment),
            None => patience(),
        };
        self.begin_window(window);
        self.start = Duration::from_millis(START);
        self.counts = false;
    }

    fn begin_window(&mut self, window: Duration) {
        self.window = window.max(Duration::from_millis(LEAST)).min(patience());
        self.waited = Duration::ZERO;
        self.gained = 0;
    }

    /// Nobody else waits for it now, by when it has moved so many bytes in all.
    pub(crate) fn rest(&mut self, moved: u64) {
        self.settle(moved);
        self.counts = false;
    }

    /// How long it is still waited for, while others wait; it has moved so many bytes in all.
    pub(crate) fn left(&mut self, moved: u64) -> Duration {
        self.settle(moved);
        self.counts = true;
        if self.is_over() && self.is_enough() {
            self.begin_window(self.window.saturating_add(self.window));
        }
        self.window.saturating_sub(self.waited)
    }

    fn settle(&mut self, moved: u64) {
        if self.counts && self.start.is_zero() {
            self.gained = self.gained.saturating_add(moved.saturating_sub(self.seen));
        }
        self.seen = moved;
    }

    /// Whether as much was moved as the window asks for.
    fn is_enough(&self) -> bool {
        let window = milliseconds(self.window);
        self.floor.saturating_mul(window) <= self.gained.saturating_mul(PATIENCE)
    }

    /// The line waited for it so long, while others waited.
    pub(crate) fn wait(&mut self, time: Duration) {
        self.waited = self.waited.saturating_add(time);
        self.start = self.start.saturating_sub(time);
    }

    /// Whether the window is over.
    pub(crate) fn is_over(&self) -> bool {
        self.window <= self.waited
    }

    pub(crate) fn give_up(&mut self, now: Duration) {
        self.gave_up = Some(now);
    }
}

/// How a client moves that is not served, but has room which another waits for.
#[derive(Clone, Copy)]
pub(crate) struct Stay {
    since: Duration,
    /// How many bytes it had moved then.
    moved: u64,
}

impl Stay {
    pub(crate) fn new(now: Duration, moved: u64) -> Stay {
        Stay { since: now, moved }
    }

    /// Whether it has stayed for `PATIENCE`.
    pub(crate) fn is_over(&self, now: Duration) -> bool {
        self.since.saturating_add(patience()) <= now
    }

    /// Whether it has moved less than the floor since.
    pub(crate) fn is_slow(&self, moved: u64, floor: u64) -> bool {
        moved.saturating_sub(self.moved) < floor
    }
}
