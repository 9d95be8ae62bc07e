//! A store over a link.
ghost use Rattle.std.specs.Prelude.{◌≡◌, ◌+◌, ◌<◌, ◌++◌, IsTrue, IsErrOf};
ghost use Rattle.std.proofs.Common.{sym, ap, ◌∙◌};
ghost use Rattle.std.proofs.Math.Nat.{add-zero};
ghost use Rattle.std.proofs.lemmas.Bool.{and_parts, eqb-true};
ghost use Rattle.swift_calls.specs.History.{Calls, CountsFaults, budget};
ghost use Rattle.swift_calls.specs.Step.{Fit};
ghost use Rattle.swift_requests.specs.Calls.{SpellsRequest};
ghost use Rattle.swift_requests.specs.CallText.{body_with};
ghost use Rattle.swift_requests.specs.Place.{IsPlace};
ghost use Rattle.swift_client.specs.Client.{history_over, ReadsAs};

use gate_base::{Bytes, CALL_LIMIT, Counted};
use std::alloc::Global;
use std::mem::replace;
use swift_calls::{Swift, SwiftFault, SwiftReply, SwiftRequest};
use swift_replies::{WireFault, read_parted_answer};
use swift_requests::{Link, LinkFault, Place, WrittenCall, write_call};
use wire_log::{Cause, Explains, logged_cause_of_answer};

/// A Swift store over a link. Each call is one exchange, so its calls are those of the link.
///
/// It counts a fault where the link counts one, where an answer spells nothing (its status is none of the call's, a
/// header is missing or doesn't read), and where no call is left. It is observable where the link is and no answer spelled
/// nothing, and then the account after each call is the link's.
#[derive(Drop)]
pub struct SwiftClient<L: Link> {
    link: L,
    place: Place,
    alloc: Global,
    /// The answer to the call at hand, in the two pieces that the link gives. It is let go once it was read.
    front: Bytes,
    rest: Bytes,
    unread: Bytes,
    /// The answers that spelled nothing, and the calls made when none was left.
    own: u64,
    ghost placed: { IsPlace place },
}

impl<L: Link> SwiftClient<L> {
    /// A store whose account is at `place`, over `link`. No call is made.
    #[tactic(auto, using(crate::proofs::Calling::fresh_history))]
    pub fn new(alloc: Global, link: L, place: Place) -> SwiftClient<L>
        requires is_place { IsPlace place }
        requires same { IsTrue (L.history link).observable → L.place link ≡ place }
        ensures history { ⟦<SwiftClient<L> as Swift>⟧.history result ≡ L.history link }
        ensures link { result.link ≡ link }
        ensures place { result.place ≡ place }
    {
        SwiftClient {
            link,
            place,
            alloc,
            front: Bytes::new(alloc),
            rest: Bytes::new(alloc),
            unread: Bytes::new(alloc),
            own: 0,
        }
    }

    /// The first piece of the last answer that spelled nothing, with its head; empty where there was none.
    pub fn unread(&self) -> &[u8]
        ensures { result.now ≡ self.now.unread }
    {
        self.unread.as_slice()
    }

    /// One call, of whose replicas all are asked where it is the newest that is wanted.
    fn exchange_call(
        &mut self,
        request: &SwiftRequest,
        newest: bool,
    ) -> Result<SwiftReply, SwiftFault>
        requires fit { Fit request.now }
        ensures { Calls (⟦<SwiftClient<L> as Swift>⟧.history self.old)
            (⟦<SwiftClient<L> as Swift>⟧.history self.new) request.now result }
    {
        if self.link.calls() >= CALL_LIMIT {
            self.own = self.own.saturating_add(1);
            return Err(SwiftFault::Failed);
        }
        let written = write_call(self.alloc, &self.place, request, newest)?;
        self.exchange_written(request, &written)
    }

    /// The exchange of a call that was written, where one is left.
    fn exchange_written(
        &mut self,
        request: &SwiftRequest,
        written: &WrittenCall,
    ) -> Result<SwiftReply, SwiftFault>
        requires left { L.Counted.called self.old.link < budget }
        requires fit { Fit request.now }
        requires spells { SpellsRequest self.old.place request.now
            (written.now.head ++ body_with request.now written.now.made) }
        ensures { Calls (⟦<SwiftClient<L> as Swift>⟧.history self.old)
            (⟦<SwiftClient<L> as Swift>⟧.history self.new) request.now result }
    {
        match self.link.exchange(
            written.head.as_slice(),
            written.body(request),
            &mut self.front,
            &mut self.rest,
        ) {
            Ok(()) => self.read(request),
            Err(LinkFault::Failed) => Err(SwiftFault::Failed),
            Err(LinkFault::Memory) => Err(SwiftFault::Memory),
        }
    }

    /// What the answer that came says. Of one that spells nothing the first piece is kept.
    fn read(&mut self, request: &SwiftRequest) -> Result<SwiftReply, SwiftFault>
        requires { Fit request.now }
        ensures link { self.new.link ≡ self.old.link }
        ensures place { self.new.place ≡ self.old.place }
        ensures reads { ReadsAs request.now (self.old.front ++ self.old.rest) result }
        ensures own { CountsFaults self.old.own self.new.own result }
        ensures unread { IsErrOf result SwiftFault.Failed → self.new.unread ≡ self.old.front }
    {
        let front = replace(&mut self.front, Bytes::new(self.alloc));
        let rest = replace(&mut self.rest, Bytes::new(self.alloc));
        match read_parted_answer(self.alloc, request, front.as_slice(), rest) {
            Ok(reply) => Ok(reply),
            Err(WireFault::Memory) => Err(SwiftFault::Memory),
            Err(WireFault::NotACall) => unreachable!(),
            Err(WireFault::NotAnAnswer) => {
                self.unread = front;
                self.own = self.own.saturating_add(1);
                Err(SwiftFault::Failed)
            }
        }
    }
}

impl<L: Link> Counted for SwiftClient<L> {
    ghost called = { λ c. L.Counted.called c.link };

    fn calls(&self) -> u64 {
        self.link.calls()
    }
}

impl<L: Link> Swift for SwiftClient<L> {
    ghost history = { λ c. history_over (L.history c.link) (L.place c.link) c.place c.own };

    ghost counted = { λ c. L.counted c.link };

    ghost is_history = { λ c. record {
      last = λ observable left.
          let own = eqb-true c.own 0 (and_parts _ _ (and_parts _ _ observable).1).1 in
          (L.is_history c.link).last (and_parts _ _ observable).0 left ∙ sym (ap (λ own. (L.history c.link).faults + own) own ∙ add-zero (L.history c.link).faults);
      rise = λ observable. (L.is_history c.link).rise (and_parts _ _ observable).0;
    } };

    fn call(&mut self, request: &SwiftRequest) -> Result<SwiftReply, SwiftFault> {
        self.exchange_call(request, false)
    }

    fn call_newest(&mut self, request: &SwiftRequest) -> Result<SwiftReply, SwiftFault> {
        self.exchange_call(request, true)
    }
}

impl<L: Link + Explains> Explains for SwiftClient<L> {
    /// The link's cause, or else what the last answer that spelled nothing says.
    fn cause(&self) -> Option<Cause> {
        match self.link.cause() {
            Some(cause) => Some(cause),
            None => Some(logged_cause_of_answer(self.unread.as_slice())),
        }
    }
}
