//! Who has a request, in the order in which it was there.

use std::alloc::Global;
use std::collections::VecDeque;

/// The turn of the client at that place, by its number from 1.
#[derive(Clone, Copy)]
pub(crate) struct Turn {
    pub(crate) place: usize,
    pub(crate) number: u64,
}

/// The turns that were given. One may be outdated, for a client that was served or ended meanwhile. So that it never becomes another turn
/// of the same place, each has a number.
#[derive(Drop)]
pub(crate) struct Turns {
    queue: VecDeque<Turn>,
    /// How many were given.
    given: u64,
}

impl Turns {
    pub(crate) fn new(alloc: Global) -> Turns {
        Turns {
            queue: VecDeque::new(alloc),
            given: 0,
        }
    }

    /// How many stand here.
    pub(crate) fn len(&self) -> usize {
        self.queue.len()
    }

    /// The one that was given first.
    pub(crate) fn first(&self) -> Option<Turn> {
        match self.queue.front() {
            Some(turn) => Some(*turn),
            None => None,
        }
    }

    /// That one is over.
    pub(crate) fn pass(&mut self) {
        let _ = self.queue.pop_front();
    }

    /// Gives one, behind all others. Its number; none without memory for it.
    pub(crate) fn give(&mut self, place: usize) -> Option<u64> {
        let number = self.given.saturating_add(1);
        if self.queue.push_back(Turn { place, number }).is_err() {
            return None;
        }
        self.given = number;
        Some(number)
    }
}
