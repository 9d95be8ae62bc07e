//! `Settled`, a store that was settled, over which operations are answered, and what is known of a store between two.
ghost use Rattle.std.specs.Prelude.{◌≡◌, map, IfOk, IsTrue};
ghost use Rattle.list_pages.specs.Listing.{name_in, page_request, AsksPage, IsPageOf};
ghost use Rattle.swift_calls.specs.History.{Calls, present};
ghost use Rattle.swift_calls.specs.Step.{Fit};
ghost use Rattle.upload_records.specs.Native.{IsSettled};
ghost use Rattle.account_calls.specs.Lent.{Stays};

use gate_base::List;
use list_pages::{PageFault, names};
use s3_machine::Settings;
use std::alloc::Global;
use swift_calls::{NameItem, Swift, SwiftFault, SwiftReply, SwiftRequest, drop_request};

/// What is known of a store between two operations.
#[derive(Clone, Copy, Debug, PartialEq, Eq)]
pub enum Known {
    /// No completion is sealed on its account, which has the gateway's own container.
    Settled,
    /// One may be, or the container may be missing.
    Unsure,
}

/// A store as an operation is answered over it: one that was settled when it was held ([`Settled::hold`]). The calls for plans
/// that make their own may seal a completion on it, so the type keeps nothing of that; the clauses of the other calls ask for it.
/// It has the allocator of the plans that are lent it.
#[derive(Drop)]
pub struct Settled<'a, W: Swift> {
    pub alloc: Global,
    pub store: &'a mut W,
    pub(crate) settings: &'a Settings,
}

impl<'a, W: Swift> Settled<'a, W> {
    /// A store that is known to be settled ([`Known::Settled`]). It takes no memory.
    pub fn hold(alloc: Global, store: &'a mut W, settings: &'a Settings) -> Settled<'a, W>
        requires { IsTrue (W.history store.old).observable
            → IsSettled (present (W.history store.old)) }
        ensures same { result.store.ghost_name ≡ store.entry.ghost_name }
        ensures store { result.store.now ≡ store.old }
        ensures settings { result.settings.now ≡ settings.now }
    {
        Settled {
            alloc,
            store,
            settings,
        }
    }

    /// The store.
    pub fn store(&self) -> &W
        ensures { result.now ≡ self.now.store.now }
    {
        self.store
    }

    /// The settings of the run.
    pub fn settings(&self) -> &Settings
        ensures { result.now ≡ self.now.settings.now }
    {
        self.settings
    }

    /// One call of the store, for a plan that makes its own. The request is given away, as for [`ask`].
    pub fn call(&mut self, request: SwiftRequest) -> Result<SwiftReply, SwiftFault>
        requires { Fit request }
        ensures stays { Stays self.old self.new }
        ensures calls { Calls (W.history self.old.store.now) (W.history self.new.store.now) request
            result }
    {
        ask(self.store, request)
    }

    /// The same, of which all replicas are asked, as for [`ask_newest`].
    pub fn call_newest(&mut self, request: SwiftRequest) -> Result<SwiftReply, SwiftFault>
        requires { Fit request }
        ensures stays { Stays self.old self.new }
        ensures calls { Calls (W.history self.old.store.now) (W.history self.new.store.now) request
            result }
    {
        ask_newest(self.store, request)
    }

    /// One page of the names of a container, for a plan that makes its own calls ([`list_pages::names`]).
    pub fn names(
        &mut self,
        container: &[u8],
        prefix: &[u8],
        marker: &[u8],
    ) -> Result<List<NameItem>, PageFault>
        requires { Fit (page_request container.now prefix.now marker.now) }
        ensures stays { Stays self.old self.new }
        ensures asks { AsksPage (W.history self.old.store.now) (W.history self.new.store.now)
            container.now prefix.now marker.now result }
        ensures page { IfOk result (λ items. IsPageOf prefix.now marker.now (map name_in items)) }
    {
        names(self.alloc, self.store, container, prefix, marker)
    }
}

/// One call of the store, whose request is given away: a request that is still owned where the answer is looked at costs
/// the proof of its function most.
pub fn ask<W: Swift>(store: &mut W, request: SwiftRequest) -> Result<SwiftReply, SwiftFault>
    requires { Fit request }
    ensures { Calls (W.history store.old) (W.history store.new) request result }
{
    let answer = store.call(&request);
    drop_request(request);
    answer
}

/// The same, of which all replicas are asked: for a call on whose answer something is deleted or overwritten.
pub fn ask_newest<W: Swift>(store: &mut W, request: SwiftRequest) -> Result<SwiftReply, SwiftFault>
    requires { Fit request }
    ensures { Calls (W.history store.old) (W.history store.new) request result }
{
    let answer = store.call_newest(&request);
    drop_request(request);
    answer
}
