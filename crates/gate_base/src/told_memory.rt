ghost use Rattle.std.specs.Prelude.{◌≡◌, ◌<◌, length, nat_lt, IsTrue};
ghost use Rattle.std.specs.List.{list_all};
ghost use Rattle.std.specs.Vec.Iter.{into_iter_items};
ghost use Rattle.gate_base.specs.declared.outside.TheConstants.{MOMENT_LIMIT};

use crate::{Clock, Draws, List, MOMENT_LIMIT};
use std::vec::IntoIter;

/// A clock in memory, for tests: it gives the moments of a list in turn, and after the last repeats it.
#[derive(Drop)]
pub struct ListClock {
    next: u64,
    later: IntoIter<u64>,
    ghost limit: { next < MOMENT_LIMIT },
    ghost limits: { IsTrue (list_all (λ m. nat_lt m MOMENT_LIMIT) (into_iter_items later)) },
}

impl ListClock {
    ghost use Rattle.gate_base.specs.ListTold.{moments_of};

    pub fn new(moments: List<u64>) -> ListClock
        requires some { 0 < length moments }
        requires limits { IsTrue (list_all (λ m. nat_lt m MOMENT_LIMIT) moments) }
        ensures { moments_of result ≡ moments }
    {
        let mut later = moments.into_vec().into_iter();
        let next = later.next().unwrap();
        ListClock { next, later }
    }
}

impl Clock for ListClock {
    ghost use Rattle.gate_base.specs.ListTold.{moments_of, source_of};

    ghost model = { λ clock. source_of (moments_of clock) };

    fn now(&mut self) -> u64 {
        let moment = self.next;
        if let Some(next) = self.later.next() {
            self.next = next;
        }
        moment
    }
}

/// Draws in memory, for tests: those of a list in turn, and after the last each is the one before plus one
/// modulo 2^128.
#[derive(Drop)]
pub struct ListDraws {
    next: u128,
    later: IntoIter<u128>,
}

impl ListDraws {
    ghost use Rattle.gate_base.specs.ListTold.{draws_of, draws_from};

    /// The draws of the list. An empty list begins at 1.
    pub fn new(draws: List<u128>) -> ListDraws
        ensures { draws_of result ≡ draws_from draws }
    {
        let mut later = draws.into_vec().into_iter();
        let next = match later.next() {
            Some(draw) => draw,
            None => 1,
        };
        ListDraws { next, later }
    }
}

impl Draws for ListDraws {
    ghost use Rattle.gate_base.specs.ListTold.{draws_of, source_of};

    ghost model = { λ draws. source_of (draws_of draws) };

    fn draw(&mut self) -> u128 {
        let draw = self.next;
        self.next = match self.later.next() {
            Some(next) => next,
            None => draw.wrapping_add(1),
        };
        draw
    }
}
