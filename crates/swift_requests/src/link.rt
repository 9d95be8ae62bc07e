//! What brings a request to a store and its answer back.
ghost use Rattle.std.specs.Prelude.{◌≡◌, ◌<◌, ◌++◌, IsTrue};
ghost use Rattle.swift_calls.specs.History.{History, IsHistory, budget};
ghost use Rattle.swift_requests.specs.Link.{Exchanges};
ghost use Rattle.swift_requests.specs.declared.place.Place.{Place};
ghost use Rattle.swift_requests.specs.declared.link.LinkFault.TheVariants as fault;

use crate::Place;
use gate_base::{Bytes, Counted, Failed, Memory};

/// Why an exchange gave no answer.
#[derive(Clone, Copy)]
pub enum LinkFault {
    /// The request or its answer was lost, or what came is no whole answer.
    Failed,
    /// Memory ran out.
    Memory,
}

impl From<Failed> for LinkFault {
    ghost from_gives = { λ _ e. e ≡ fault.Failed };

    fn from(_: Failed) -> LinkFault {
        LinkFault::Failed
    }
}

impl From<Memory> for LinkFault {
    ghost from_gives = { λ _ e. e ≡ fault.Memory };

    fn from(_: Memory) -> LinkFault {
        LinkFault::Memory
    }
}

/// What exchanges messages with one store. It counts its exchanges, at most 2^63. Where it is observable, it tells the
/// store's account and its own count of faults as they stood after each exchange that it has counted.
pub trait Link: Counted {
    /// What the link counts, and where it is observable, the account and the count of faults after each number of
    /// exchanges.
    ghost history: { Self → History };

    /// Where the store's account is: what a request has to name to be one of this store.
    ghost place: { Self → Place };

    /// Sends the bytes of one request, which are those of `head` and behind them those of `body`, and puts the bytes of one whole
    /// answer into `front` and `rest`, in place of what they hold: those of `front`, and behind them those of `rest`. So neither
    /// is copied to stand in one piece; where an answer is parted isn't said, and either of its pieces may be empty.
    /// Failed comes only with a higher count of faults, and never where the history is sure: the request took no effect
    /// or its whole effect. Memory comes where the answer could not be received, after no effect or the whole effect, or
    /// before the request was sent, and then the exchange may not be counted. What the two hold after a fault isn't said.
    fn exchange(
        &mut self,
        head: &[u8],
        body: &[u8],
        front: &mut Bytes,
        rest: &mut Bytes,
    ) -> Result<(), LinkFault>
        requires { Self.called self.old < budget }
        ensures place { place self.new ≡ place self.old }
        ensures exchanges { Exchanges (place self.old) (history self.old) (head.now ++ body.now)
            (front.new ++ rest.new) result (history self.new) };

    /// The exchanges of the history are those that are counted.
    ghost counted: { (link : Self) → (history link).called ≡ Self.called link };

    /// The last count of the history is the count of faults itself, and from exchange to exchange it never falls.
    ghost is_history: { (link : Self) → IsHistory (history link) };

    /// While it is observable, exchanges are left: it keeps what each of them found, so memory ends before the count.
    ghost left: { (link : Self) → IsTrue (history link).observable → (history link).called < budget };
}
