//! A link to a store that is at hand.
ghost use Rattle.std.specs.Prelude.{◌≡◌, ◌+◌, ◌<◌, ◌≤◌, ◌^◌, [], ◌∷◌, ◌++◌, length, take, count_by, vec_len, vec_capacity, false, IsTrue, IfOk, IsErrOf, OnErr};
ghost use Rattle.std.proofs.Common.{refl, ap, subst, arith};
ghost use Rattle.std.proofs.Math.Seq.{take-length};
ghost use Rattle.std.proofs.lemmas.List.{take-take};
ghost use Rattle.std.proofs.lemmas.List.Sums.{sum_by-take-le};
ghost use Rattle.gate_base.specs.Causes.{Rose};
ghost use Rattle.swift_calls.specs.History.{budget};
ghost use Rattle.swift_calls.specs.Outcomes.{outcome_of};
ghost use Rattle.swift_calls.specs.Step.{Fit};
ghost use Rattle.swift_calls.specs.declared.calls.SwiftRequest.{SwiftRequest};
ghost use Rattle.swift_requests.specs.Calls.{SpellsRequest};
ghost use Rattle.swift_requests.specs.Link.{Exchanges};
ghost use Rattle.memory_swift.specs.Handing.{Goes, Hands};
ghost use Rattle.memory_swift.specs.Log.{GoesAs, IsFresh, IsServedUntold, Losses, Serves, history_by, is_sure_by, lost_after, planned};
ghost use Rattle.swift_store.specs.Shelf.{ShelfModel};

use crate::Store;
use gate_base::{Bytes, Counted, List, Memory};
use std::alloc::Global;
use std::snapshot::Snapshot;
use swift_calls::{Outcome, outcome_at};
use swift_requests::{Link, LinkFault};
use swift_store::Shelf;

/// The store as an exchange found it, which takes no memory, and whether the exchange was lost.
#[derive(Drop)]
pub(crate) struct Entry<S: Shelf> {
    pub(crate) was: Snapshot<Store<S>>,
    pub(crate) lost: bool,
}

/// A link that hands each request to a store, and loses messages by the numbers of their exchanges, from 1. It counts a
/// fault where a message was lost and where the store failed. It is observable where the store's shelf is, and then it
/// tells the account that each exchange found.
#[derive(Drop)]
pub struct StoreLink<S: Shelf> {
    store: Store<S>,
    log: Vec<Entry<S>>,
    before: List<u64>,
    after: List<u64>,
}

impl<S: Shelf> StoreLink<S> {
    /// A link to the store. The exchanges numbered in `before` lose their request, and those in `after` their answer; a
    /// number in both lists counts as one of `before`. No exchange was made.
    pub fn new(store: Store<S>, before: List<u64>, after: List<u64>) -> StoreLink<S>
        ensures fresh { IsFresh (S.model store.shelf).observable
            (is_sure_by (S.model store.shelf).sure before after) (S.model store.shelf).account
            (⟦<StoreLink<S> as Link>⟧.history result) }
        ensures place { ⟦<StoreLink<S> as Link>⟧.place result ≡ store.place }
        ensures losses { ⟦<StoreLink<S> as OverShelf>⟧.losses result ≡ record
            { before = before; after = after } }
        ensures before { result.before ≡ before }
        ensures after { result.after ≡ after }
    {
        StoreLink {
            log: Vec::new(store.alloc),
            store,
            before,
            after,
        }
    }

    /// How the exchange of a number goes.
    fn outcome(&self, number: u64) -> Outcome
        ensures { result ≡ outcome_of self.now.before self.now.after 0 number }
    {
        outcome_at(self.before.as_slice(), self.after.as_slice(), 0, number)
    }

    /// Writes down what an exchange found, and whether it was lost.
    fn note(&mut self, was: Snapshot<Store<S>>, lost: bool)
        requires { vec_len self.old.log < vec_capacity self.old.log }
        ensures log { self.new.log.items ≡ self.old.log.items
            ++ record { was = was; lost = lost } ∷ [] }
        ensures store { self.new.store ≡ self.old.store }
        ensures before { self.new.before ≡ self.old.before }
        ensures after { self.new.after ≡ self.old.after }
    {
        self.log.push_reserved(Entry { was, lost });
    }
}

/// Hands a request to the store, as the outcome says. True where no answer comes.
#[tactic(auto, using(crate::proofs::Logged::served_untold))]
fn hand_or_lose_message<S: Shelf>(
    outcome: Outcome,
    store: &mut Store<S>,
    request: &[u8],
    answer: &mut Bytes,
) -> Result<bool, Memory>
    ensures place { store.new.place ≡ store.old.place }
    ensures observable { IsTrue (S.model store.old.shelf).observable
        → IsTrue (S.model store.new.shelf).observable }
    ensures told { IsTrue (S.model store.new.shelf).observable
        → IsTrue (S.model store.old.shelf).observable }
    ensures same { IsTrue (S.model store.old.shelf).observable
        → OnErr result ((S.model store.new.shelf).account ≡ (S.model store.old.shelf).account) }
    ensures sure { IsTrue (S.model store.old.shelf).sure → IsTrue (S.model store.new.shelf).sure }
    ensures never { outcome ≡ Outcome.Answered → IsTrue (S.model store.old.shelf).sure
        → IfOk result (λ lost. lost ≡ false) }
    ensures goes { Goes (λ s. (S.model s.shelf).faults) outcome store.old store.new result }
    ensures hands { answer.old ≡ [] → length answer.new < 2 ^ 63
        → IsTrue (S.model store.old.shelf).observable → (call : SwiftRequest) → Fit call
        → SpellsRequest store.old.place call request.now
        → Hands call (S.model store.old.shelf).account (S.model store.new.shelf).account answer.new
        result }
    ensures untold { outcome ≡ Outcome.LostAfter → answer.old ≡ [] → length answer.new < 2 ^ 63
        → IsTrue (S.model store.old.shelf).observable
        → (Rose (S.model store.old.shelf).faults (S.model store.new.shelf).faults → ⊥)
        → IfOk result (λ lost. Serves store.old.place request.now (S.model store.old.shelf).account
        (S.model store.new.shelf).account) }
{
    match outcome {
        Outcome::LostBefore => Ok(true),
        Outcome::LostAfter => {
            let _failed = store.hand_request_bytes(request, answer)?;
            Ok(true)
        }
        Outcome::Answered => store.hand_request_bytes(request, answer),
    }
}

/// What a link over a shelf tells of itself beside its history.
pub trait OverShelf {
    /// Which of its exchanges lose a message.
    ghost losses: { Self → Losses };

    /// What its shelf tells.
    ghost shelf: { Self → ShelfModel };
}

impl<S: Shelf> OverShelf for StoreLink<S> {
    ghost losses = { λ l. record { before = l.before; after = l.after } };

    ghost shelf = { λ l. S.model l.store.shelf };
}

impl<S: Shelf> Counted for StoreLink<S> {
    ghost called = { λ l. length l.log.items };

    fn calls(&self) -> u64 {
        self.log.as_slice().len() as u64
    }
}

impl<S: Shelf> StoreLink<S> {
    /// One exchange of a request in one piece.
    fn exchange_message(&mut self, request: &[u8], reply: &mut Bytes) -> Result<(), LinkFault>
        requires { length self.old.log.items < budget }
        ensures place { ⟦<StoreLink<S> as Link>⟧.place self.new ≡ ⟦<StoreLink<S> as Link>⟧.place
            self.old }
        ensures exchanges { Exchanges (⟦<StoreLink<S> as Link>⟧.place self.old)
            (⟦<StoreLink<S> as Link>⟧.history self.old) request.now reply.new result
            (⟦<StoreLink<S> as Link>⟧.history self.new) }
        ensures losses { ⟦<StoreLink<S> as OverShelf>⟧.losses self.new ≡ ⟦<StoreLink<S> as OverShelf>⟧.losses self.old }
        ensures goes { GoesAs (planned (⟦<StoreLink<S> as OverShelf>⟧.losses self.old)
            ((⟦<StoreLink<S> as Link>⟧.history self.old).called + 1)) result
            (⟦<StoreLink<S> as OverShelf>⟧.shelf self.old)
            (⟦<StoreLink<S> as OverShelf>⟧.shelf self.new) }
        ensures untold { IsServedUntold (⟦<StoreLink<S> as Link>⟧.place self.old) request.now
            (planned (⟦<StoreLink<S> as OverShelf>⟧.losses self.old)
            ((⟦<StoreLink<S> as Link>⟧.history self.old).called + 1)) result
            (⟦<StoreLink<S> as OverShelf>⟧.shelf self.old)
            (⟦<StoreLink<S> as OverShelf>⟧.shelf self.new) }
        ensures kept { IsTrue (⟦<StoreLink<S> as OverShelf>⟧.shelf self.old).observable
            → IsErrOf result LinkFault.Memory
            → (⟦<StoreLink<S> as OverShelf>⟧.shelf self.new).account ≡ (⟦<StoreLink<S> as OverShelf>⟧.shelf self.old).account }
    {
        if self.log.reserve(1).is_err() {
            return Err(LinkFault::Memory);
        }
        let number = self.log.as_slice().len() as u64 + 1;
        let was = Snapshot::of(&self.store);
        let mut answer = Bytes::new(self.store.alloc);
        let outcome = self.outcome(number);
        let lost = hand_or_lose_message(outcome, &mut self.store, request, &mut answer)?;
        self.note(was, lost);
        if lost {
            return Err(LinkFault::Failed);
        }
        *reply = answer;
        Ok(())
    }
}

/// The bytes of a request, joined.
fn joined_request(alloc: Global, head: &[u8], body: &[u8]) -> Result<Bytes, Memory>
    ensures { IfOk result (λ request. request ≡ head.now ++ body.now) }
{
    let mut request = Bytes::with_room(alloc, head.len().saturating_add(body.len()))?;
    request.append(head)?;
    request.append(body)?;
    Ok(request)
}

impl<S: Shelf> Link for StoreLink<S> {
    ghost history = { λ l. history_by (λ s. (S.model s.shelf).observable) (λ s. (S.model s.shelf).account) (λ e. e.was.value) (λ e. e.lost) (is_sure_by (S.model l.store.shelf).sure l.before l.after) l.log.items l.store };

    ghost place = { λ l. l.store.place };

    ghost counted = { λ l. refl };

    ghost is_history = { λ l. record {
      last = λ observable left. ap (count_by (λ e. e.lost)) (take-length l.log.items);
      rise = λ observable j k order within.
          subst (λ entries. count_by (λ e. e.lost) entries ≤ lost_after (λ e. e.lost) l.log.items k) (take-take j k l.log.items order) (sum_by-take-le _ (take k l.log.items) j);
    } };

    ghost left = { λ l observable. let ok = l.log.ok in let small = l.log.small in omega (arith, ok, small) };

    /// The request is joined for the store, and its answer comes in one piece.
    fn exchange(
        &mut self,
        head: &[u8],
        body: &[u8],
        front: &mut Bytes,
        rest: &mut Bytes,
    ) -> Result<(), LinkFault>
        requires { length self.old.log.items < budget }
        ensures place { ⟦<StoreLink<S> as Link>⟧.place self.new ≡ ⟦<StoreLink<S> as Link>⟧.place
            self.old }
        ensures exchanges { Exchanges (⟦<StoreLink<S> as Link>⟧.place self.old)
            (⟦<StoreLink<S> as Link>⟧.history self.old) (head.now ++ body.now)
            (front.new ++ rest.new) result (⟦<StoreLink<S> as Link>⟧.history self.new) }
        ensures losses { ⟦<StoreLink<S> as OverShelf>⟧.losses self.new ≡ ⟦<StoreLink<S> as OverShelf>⟧.losses self.old }
        ensures goes { GoesAs (planned (⟦<StoreLink<S> as OverShelf>⟧.losses self.old)
            ((⟦<StoreLink<S> as Link>⟧.history self.old).called + 1)) result
            (⟦<StoreLink<S> as OverShelf>⟧.shelf self.old)
            (⟦<StoreLink<S> as OverShelf>⟧.shelf self.new) }
        ensures untold { IsServedUntold (⟦<StoreLink<S> as Link>⟧.place self.old)
            (head.now ++ body.now)
            (planned (⟦<StoreLink<S> as OverShelf>⟧.losses self.old)
            ((⟦<StoreLink<S> as Link>⟧.history self.old).called + 1)) result
            (⟦<StoreLink<S> as OverShelf>⟧.shelf self.old)
            (⟦<StoreLink<S> as OverShelf>⟧.shelf self.new) }
        ensures kept { IsTrue (⟦<StoreLink<S> as OverShelf>⟧.shelf self.old).observable
            → IsErrOf result LinkFault.Memory
            → (⟦<StoreLink<S> as OverShelf>⟧.shelf self.new).account ≡ (⟦<StoreLink<S> as OverShelf>⟧.shelf self.old).account }
    {
        let request = joined_request(self.store.alloc, head, body)?;
        *rest = Bytes::new(self.store.alloc);
        self.exchange_message(request.as_slice(), front)
    }
}
