//! A store of one account over a shelf: the bytes of a request in, an answer out.
ghost use Rattle.std.specs.Prelude.{◌≡◌, ◌<◌, ◌^◌, [], length, false, IsTrue, IfOk, OnErr};
ghost use Rattle.gate_base.specs.Causes.{RisesIf};
ghost use Rattle.memory_swift.specs.Handing.{Hands};
ghost use Rattle.swift_calls.specs.Step.{Fit};
ghost use Rattle.swift_calls.specs.declared.calls.SwiftRequest.{SwiftRequest};
ghost use Rattle.swift_requests.specs.Calls.{SpellsRequest};
ghost use Rattle.swift_requests.specs.Place.{IsPlace};
ghost use Rattle.swift_store.specs.Serving.{Served};
ghost use Rattle.swift_store.specs.Shelf.{ShelfKeeps};

use crate::reading::message_at_hand;
use gate_base::{Bytes, Memory};
use http_wire::Message;
use std::alloc::Global;
use swift_replies::{law_reads_back, refusal};
use swift_requests::Place;
use swift_store::{Shelf, StoreFault, serve};

/// A store of one account over a shelf.
#[derive(Drop)]
pub struct Store<S: Shelf> {
    pub(crate) shelf: S,
    pub(crate) place: Place,
    pub(crate) alloc: Global,
    ghost valid: { IsPlace place },
}

impl<S: Shelf> Store<S> {
    /// A store of the place's account. It takes no memory.
    pub fn new(alloc: Global, shelf: S, place: Place) -> Store<S>
        requires { IsPlace place }
        ensures shelf { result.shelf ≡ shelf }
        ensures place { result.place ≡ place }
    {
        Store {
            shelf,
            place,
            alloc,
        }
    }

    /// Appends the answer to one message, as [`serve`] does.
    pub fn serve(&mut self, message: Message, out: &mut Bytes) -> Result<(), StoreFault>
        ensures place { self.new.place ≡ self.old.place }
        ensures keeps { ShelfKeeps (S.model self.old.shelf) result (S.model self.new.shelf) }
        ensures served { Served (S.model self.old.shelf).observable self.old.place message
            (S.model self.old.shelf).account (S.model self.new.shelf).account out.old out.new
            result }
    {
        serve(self.alloc, &self.place, &mut self.shelf, message, out)
    }

    /// Appends the answer to the bytes of a request, as [`serve`] does where they are one whole message, and else `400 Bad
    /// Request`. True where the shelf failed, and then nothing is appended.
    pub(crate) fn hand_request_bytes(
        &mut self,
        bytes: &[u8],
        out: &mut Bytes,
    ) -> Result<bool, Memory>
        ensures place { self.new.place ≡ self.old.place }
        ensures faults { IfOk result (λ lost. RisesIf lost (S.model self.old.shelf).faults
            (S.model self.new.shelf).faults) }
        ensures sure { IsTrue (S.model self.old.shelf).sure → IsTrue (S.model self.new.shelf).sure }
        ensures never { IsTrue (S.model self.old.shelf).sure → IfOk result (λ lost. lost ≡ false) }
        ensures observable { IsTrue (S.model self.old.shelf).observable
            → IsTrue (S.model self.new.shelf).observable }
        ensures told { IsTrue (S.model self.new.shelf).observable
            → IsTrue (S.model self.old.shelf).observable }
        ensures same { IsTrue (S.model self.old.shelf).observable
            → OnErr result ((S.model self.new.shelf).account ≡ (S.model self.old.shelf).account) }
        ensures hands { out.old ≡ [] → length out.new < 2 ^ 63
            → IsTrue (S.model self.old.shelf).observable → (call : SwiftRequest) → Fit call
            → SpellsRequest self.old.place call bytes.now
            → Hands call (S.model self.old.shelf).account (S.model self.new.shelf).account out.new
            result }
    {
        law_reads_back();
        match message_at_hand(self.alloc, bytes)? {
            Some(message) => match self.serve(message, out) {
                Ok(()) => Ok(false),
                Err(StoreFault::Failed) => Ok(true),
                Err(StoreFault::Memory) => Err(Memory),
            },
            None => {
                let text = refusal(self.alloc, 400)?;
                out.append(text.as_slice())?;
                Ok(false)
            }
        }
    }
}
