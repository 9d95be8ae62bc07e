//! Stores over a shelf that is at hand.
ghost use Rattle.std.specs.Prelude.{◌≡◌, true, IfOk};
ghost use Rattle.std.specs.FinMap.{empty};
ghost use Rattle.memory_swift.specs.Log.{IsFresh, is_sure_by};
ghost use Rattle.swift_requests.specs.Place.{IsPlace};

use crate::{Store, StoreLink};
use gate_base::{Bytes, Copying, List, Memory};
use std::alloc::Global;
use swift_calls::Swift;
use swift_client::SwiftClient;
use swift_requests::Place;
use swift_store::{MapShelf, Shelf};

/// A store whose calls are served from the shelf, as requests and answers at `place`. The calls numbered in `before`, from
/// 1, lose their request, and those in `after` their answer.
pub fn client_over<S: Shelf + Drop>(
    alloc: Global,
    shelf: S,
    place: Place,
    before: List<u64>,
    after: List<u64>,
) -> Result<SwiftClient<StoreLink<S>>, Memory>
    requires { IsPlace place }
    ensures fresh { IfOk result (λ store. IsFresh (S.model shelf).observable
        (is_sure_by (S.model shelf).sure before after) (S.model shelf).account
        (⟦<SwiftClient<StoreLink<S>> as Swift>⟧.history store)) }
    ensures before { IfOk result (λ store. store.link.before ≡ before) }
    ensures after { IfOk result (λ store. store.link.after ≡ after) }
    ensures place { IfOk result (λ store. store.place ≡ place) }
{
    let there = place.copy()?;
    let store = Store::new(alloc, shelf, there);
    let link = StoreLink::new(store, before, after);
    Ok(SwiftClient::new(alloc, link, place))
}

/// A store in memory without a container. While calls are left, each is answered, as far as memory goes.
#[tactic(auto, using(crate::proofs::Fresh::fresh_empty))]
pub fn memory_store(alloc: Global) -> Result<SwiftClient<StoreLink<MapShelf>>, Memory>
    ensures { IfOk result (λ store. IsFresh true true empty
        (⟦<SwiftClient<StoreLink<MapShelf>> as Swift>⟧.history store)) }
{
    let place = memory_place(alloc)?;
    let shelf = MapShelf::new(alloc);
    client_over(alloc, shelf, place, List::new(alloc), List::new(alloc))
}

/// The place of a store that is reached over no network.
#[tactic(auto, using(crate::proofs::Fresh::memory_is_place))]
fn memory_place(alloc: Global) -> Result<Place, Memory>
    ensures { IfOk result IsPlace }
{
    Ok(Place {
        host: Bytes::from_slice(alloc, b"memory")?,
        account: Bytes::from_slice(alloc, b"memory")?,
        token: Bytes::from_slice(alloc, b"memory")?,
    })
}
