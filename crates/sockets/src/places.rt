//! The clients that are connected, each at a place of its own.
use crate::client::Client;
use std::alloc::{AllocError, Global};
use std::io::{Read, Write};
use std::net::OpenStream;
use std::time::Duration;

/// How many clients are connected at once, at most; fewer where the line is made so. The others wait in the listener's queue. With the
/// connections to the store and what the program holds itself, that is below the 1024 descriptors that a process usually has.
const PLACES: usize = 900;

/// Which clients are sought.
#[derive(Clone, Copy)]
enum Sought {
    /// Those that are idle, but for the one at that place.
    Idle { served: Option<usize> },
    /// Those of whose request a part came.
    Part,
    /// Those of them that have more to send, for which there is no room.
    Stalled,
}

#[derive(Drop)]
pub(crate) struct Places<S> {
    slots: Vec<Option<Client<S>>>,
    /// The empty places among them.
    free: Vec<usize>,
    /// How many places there are, at most.
    most: usize,
}

impl<S: Read + Write + OpenStream + Drop> Places<S> {
    pub(crate) fn new(alloc: Global, most: usize) -> Places<S> {
        Places {
            most: most.min(PLACES).max(1),
            slots: Vec::new(alloc),
            free: Vec::new(alloc),
        }
    }

    /// How many places there have been, empty ones among them.
    pub(crate) fn len(&self) -> usize {
        self.slots.len()
    }

    pub(crate) fn get(&self, place: usize) -> Option<&Client<S>> {
        match self.slots.get(place) {
            Some(Some(client)) => Some(client),
            _ => None,
        }
    }

    pub(crate) fn get_mut(&mut self, place: usize) -> Option<&mut Client<S>> {
        match self.slots.get_mut(place) {
            Some(Some(client)) => Some(client),
            _ => None,
        }
    }

    pub(crate) fn has_room(&self) -> bool {
        !self.free.is_empty() || self.slots.len() < self.most
    }

    /// Takes an empty place. It is filled by `fill`, or given back by `empty`.
    pub(crate) fn take(&mut self) -> Result<usize, AllocError> {
        if let Some(place) = self.free.pop() {
            return Ok(place);
        }
        let place = self.slots.len();
        self.slots.push(None)?;
        Ok(place)
    }

    pub(crate) fn fill(&mut self, place: usize, client: Client<S>) {
        if let Some(slot) = self.slots.get_mut(place) {
            *slot = Some(client);
        }
    }

    /// Ends the client there, if any, and gives the place back. A place that finds no memory to be listed is lost.
    pub(crate) fn empty(&mut self, place: usize) {
        if let Some(slot) = self.slots.get_mut(place) {
            *slot = None;
            let _ = self.free.push(place);
        }
    }

    pub(crate) fn are_empty(&self) -> bool {
        self.slots.iter().all(|slot| slot.is_none())
    }

    /// The place of the client that has been idle for the longest time, and since that moment at least. The one at the place `served`
    /// isn't asked: it may be idle too, and stays.
    pub(crate) fn idlest(&self, moment: Duration, served: Option<usize>) -> Option<usize> {
        self.longest(Sought::Idle { served }, moment)
    }

    /// The place of the client that has had more of its request to send for the longest time, for which there is no room, and since when.
    pub(crate) fn longest_stalled(&self, now: Duration) -> Option<(usize, Duration)> {
        let place = self.longest(Sought::Stalled, now)?;
        let since = self.get(place)?.stalled_since()?;
        Some((place, since))
    }

    /// The place of the client that has been sending the same request for the longest time.
    pub(crate) fn oldest_part(&self, now: Duration) -> Option<usize> {
        self.longest(Sought::Part, now)
    }

    /// The place of the client that is sought and has been so for the longest time, and since that moment at least; the last of them.
    fn longest(&self, sought: Sought, moment: Duration) -> Option<usize> {
        let mut found = None;
        let mut since = moment;
        for place in 0..self.slots.len() {
            if let Some(began) = self.sought_since(sought, place) {
                if began <= since {
                    since = began;
                    found = Some(place);
                }
            }
        }
        found
    }

    /// Since when the client there is one that is sought. None where it isn't, or nobody is there.
    fn sought_since(&self, sought: Sought, place: usize) -> Option<Duration> {
        match (self.get(place), sought) {
            (Some(client), Sought::Part) => client.part_since(),
            (Some(client), Sought::Stalled) => client.stalled_since(),
            (Some(client), Sought::Idle { served }) if served != Some(place) => client.idle_since(),
            _ => None,
        }
    }
}
