//! The calls that settle a store, one function a call: what is sealed is got, and rolled forward.
ghost use Rattle.std.specs.Prelude.{◌≡◌, ◌<◌, ◌+◌, true, IfOk, IfSome, IsTrue, None, Ok};
ghost use Rattle.swift_calls.specs.History.{present};
ghost use Rattle.upload_texts.specs.declared.sealed.Sealed.{Sealed as what_is_sealed};
ghost use Rattle.upload_texts.specs.Sealed.{has_sealed_text};
ghost use Rattle.upload_records.specs.Native.{IsSettled, sealed_segments, sealed_sub_manifests};
ghost use Rattle.account_calls.specs.Calls.{always, Any, Asks};
ghost use Rattle.account_calls.specs.Lent.{Stays};
ghost use Rattle.account_calls.specs.Puts.{Ensures, Stands, StandsIn};
ghost use Rattle.account_calls.specs.Sealed.{put_object_of, put_record_of, put_sub_of};
ghost use Rattle.recovery.specs.Rolls.{FinishesSealed, HasGateway, HasObject, HasRecord, HasSubs, HoldsOrFinished, HoldsSealed, IsCounted, IsFinished, IsSealed, KeepsFile, KeepsGateway, Leaves, LeavesClear, OpensGateway, SaysSealed, TellsSealed};

use crate::sealed::{rolled_forward_record_request, rolled_forward_record_text};
use account_calls::{
    PlanFault, Settled, ask, ask_newest, etag_of_put, interpret_container_put,
    interpret_file_delete, interpret_put_with_etag, interpret_sealed_get, object_request,
    sealed_segments, sub_manifest_count, sub_manifest_request,
};
use s3_machine::body_etag;
use slo_manifest::Segment;
use std::alloc::Global;
use swift_calls::{ReadList, Swift, SwiftRequest};
use upload_records::{gateway_container, sealed_name};
use upload_texts::Sealed;

/// Settles a store: makes the gateway's own container, and finishes the completion that is sealed there, if one is.
pub(crate) fn settle_unsure_store<W: Swift>(alloc: Global, store: &mut W) -> Result<(), PlanFault>
    ensures asks { Asks (always 15) (W.history store.old) (W.history store.new) Any
        (Leaves IsSettled) result }
    ensures counted { IsCounted 5 Any (W.history store.old) (W.history store.new) }
    ensures done { IsTrue (W.history store.old).observable → result ≡ Ok tt
        → IsSettled (present (W.history store.new)) }
    ensures finishes { FinishesSealed (W.history store.old) (W.history store.new) result }
{
    make_gateway(alloc, store)?;
    settle_made(alloc, store)
}

/// Makes the gateway's own container, which may be there, by PUT of it (Object Storage API v1, "Create container").
#[tactic(auto, using(account_calls::proofs::lemmas::SealedNames::gateway_is_container))]
fn make_gateway<W: Swift>(alloc: Global, store: &mut W) -> Result<(), PlanFault>
    ensures asks { Asks (always 1) (W.history store.old) (W.history store.new) Any
        OpensGateway result }
    ensures there { IsTrue (W.history store.old).observable → result ≡ Ok tt
        → HasGateway (present (W.history store.new)) }
    ensures holds { HoldsSealed (W.history store.old) (W.history store.new) }
{
    let reply = ask(
        store,
        SwiftRequest::PutContainer {
            container: gateway_container(alloc)?,
            readers: ReadList::Nobody,
            created: None,
        },
    )?;
    interpret_container_put(&reply)
}

/// Finishes the completion that is sealed, if one is.
fn settle_made<W: Swift>(alloc: Global, store: &mut W) -> Result<(), PlanFault>
    ensures asks { Asks (always 14) (W.history store.old) (W.history store.new) HasGateway
        (Leaves IsSettled) result }
    ensures counted { IsCounted 4 HasGateway (W.history store.old) (W.history store.new) }
    ensures done { LeavesClear tt (W.history store.old) (W.history store.new) result }
    ensures finishes { FinishesSealed (W.history store.old) (W.history store.new) result }
{
    match get_sealed(alloc, store)? {
        Some(sealed) => roll_forward(alloc, store, &sealed),
        None => Ok(()),
    }
}

/// The completion that is sealed, and `None` where none is, by GET of its file (Object Storage API v1, "Get object content and
/// metadata").
#[tactic(auto, using(account_calls::proofs::lemmas::SealedNames::gateway_is_container, account_calls::proofs::lemmas::SealedNames::sealed_is_object))]
fn get_sealed<W: Swift>(alloc: Global, store: &mut W) -> Result<Option<Sealed>, PlanFault>
    ensures asks { Asks (always 1) (W.history store.old) (W.history store.new) HasGateway
        TellsSealed result }
    ensures has { IfOk result (λ found. IfSome found (λ s. has_sealed_text s ≡ true)) }
    ensures keeps { KeepsGateway (W.history store.old) (W.history store.new) }
    ensures none { LeavesClear None (W.history store.old) (W.history store.new) result }
    ensures says { SaysSealed (W.history store.old) result }
    ensures holds { HoldsSealed (W.history store.old) (W.history store.new) }
{
    let container = gateway_container(alloc)?;
    let name = sealed_name(alloc)?;
    let reply = ask_newest(
        store,
        SwiftRequest::GetObject {
            container,
            name,
            range: None,
        },
    )?;
    interpret_sealed_get(alloc, &reply)
}

/// Finishes a sealed completion by a PUT of each of its sub-manifests and three calls: PUT of its object, PUT of its record, and
/// DELETE of what is sealed. The S3 state stays, in which the completion is finished since it was sealed. Failed comes only where the store's count of faults rose;
/// Memory where memory ran out; Inconsistent never over an observable consistent account on which this completion is sealed.
/// After Ok over an observable store that has the gateway's own container none is sealed, also where the account isn't
/// consistent; after a fault it may be sealed still. The container stays.
fn roll_forward<W: Swift>(alloc: Global, store: &mut W, sealed: &Sealed) -> Result<(), PlanFault>
    requires { has_sealed_text sealed.now ≡ true }
    ensures asks { Asks (always (3 + sealed_sub_manifests sealed.now)) (W.history store.old)
        (W.history store.new) (IsSealed sealed.now) (Leaves IsSettled) result }
    ensures keeps { KeepsGateway (W.history store.old) (W.history store.new) }
    ensures done { LeavesClear tt (W.history store.old) (W.history store.new) result }
    ensures rolls { HoldsOrFinished sealed.now (W.history store.old) (W.history store.new) }
    ensures finishes { Ensures (W.history store.new) (IsFinished sealed.now) result }
{
    put_sub_manifests(alloc, store, sealed)?;
    roll_forward_object(alloc, store, sealed)
}

/// Puts the sub-manifests of a sealed completion, which are none where its object's own manifest may list its parts.
fn put_sub_manifests<W: Swift>(
    alloc: Global,
    store: &mut W,
    sealed: &Sealed,
) -> Result<(), PlanFault>
    requires { has_sealed_text sealed.now ≡ true }
    ensures asks { Asks (always (sealed_sub_manifests sealed.now)) (W.history store.old)
        (W.history store.new) (IsSealed sealed.now)
        (Leaves (HasSubs sealed.now (sealed_sub_manifests sealed.now))) result }
    ensures keeps { KeepsGateway (W.history store.old) (W.history store.new) }
    ensures holds { HoldsSealed (W.history store.old) (W.history store.new) }
{
    let segments = sealed_segments(alloc, sealed)?;
    put_sub_manifests_of(alloc, store, sealed, segments.as_slice())
}

/// The same, by the segments that its parts are.
fn put_sub_manifests_of<W: Swift>(
    alloc: Global,
    store: &mut W,
    sealed: &Sealed,
    segments: &[Segment],
) -> Result<(), PlanFault>
    requires has { has_sealed_text sealed.now ≡ true }
    requires are { segments.now ≡ sealed_segments sealed.now }
    ensures asks { Asks (always (sealed_sub_manifests sealed.now)) (W.history store.old)
        (W.history store.new) (IsSealed sealed.now)
        (Leaves (HasSubs sealed.now (sealed_sub_manifests sealed.now))) result }
    ensures keeps { KeepsGateway (W.history store.old) (W.history store.new) }
    ensures holds { HoldsSealed (W.history store.old) (W.history store.new) }
{
    let count = sub_manifest_count(segments.len());
    for n in 0..count {
        put_sub_manifest(alloc, store, sealed, segments, n)?;
    }
    Ok(())
}

/// Puts the sub-manifest of that number, counted from 0, where those before it are there (Object Storage API v1, "Static large
/// objects").
fn put_sub_manifest<W: Swift>(
    alloc: Global,
    store: &mut W,
    sealed: &Sealed,
    segments: &[Segment],
    n: usize,
) -> Result<(), PlanFault>
    requires has { has_sealed_text sealed.now ≡ true }
    requires are { segments.now ≡ sealed_segments sealed.now }
    requires below { n < sealed_sub_manifests sealed.now }
    ensures asks { Asks (always 1) (W.history store.old) (W.history store.new)
        (HasSubs sealed.now n) (Leaves (HasSubs sealed.now (n + 1))) result }
    ensures keeps { KeepsGateway (W.history store.old) (W.history store.new) }
    ensures holds { HoldsSealed (W.history store.old) (W.history store.new) }
    ensures stands { Stands (W.history store.new) (put_sub_of sealed.now n) result }
{
    let request = sub_manifest_request(alloc, sealed, segments, n)?;
    let etag = etag_of_put(&request);
    let reply = ask(store, request)?;
    interpret_put_with_etag(&reply, &etag)
}

/// Finishes a sealed completion whose sub-manifests are there.
fn roll_forward_object<W: Swift>(
    alloc: Global,
    store: &mut W,
    sealed: &Sealed,
) -> Result<(), PlanFault>
    requires { has_sealed_text sealed.now ≡ true }
    ensures asks { Asks (always 3) (W.history store.old) (W.history store.new)
        (HasSubs sealed.now (sealed_sub_manifests sealed.now)) (Leaves IsSettled) result }
    ensures keeps { KeepsGateway (W.history store.old) (W.history store.new) }
    ensures done { LeavesClear tt (W.history store.old) (W.history store.new) result }
    ensures rolls { HoldsOrFinished sealed.now (W.history store.old) (W.history store.new) }
    ensures finishes { Ensures (W.history store.new) (IsFinished sealed.now) result }
{
    put_rolled_forward_object(alloc, store, sealed)?;
    finish_roll_forward(alloc, store, sealed)
}

/// Finishes a sealed completion, as [`roll_forward`] does, for a plan that sealed it. After a fault it may be sealed still, so
/// that the store isn't known to be settled.
pub fn roll_forward_held<W: Swift>(
    state: &mut Settled<'_, W>,
    sealed: &Sealed,
) -> Result<(), PlanFault>
    requires { has_sealed_text sealed.now ≡ true }
    ensures stays { Stays state.old state.new }
    ensures asks { Asks (always (3 + sealed_sub_manifests sealed.now))
        (W.history state.old.store.now) (W.history state.new.store.now) (IsSealed sealed.now)
        (Leaves IsSettled) result }
    ensures keeps { KeepsGateway (W.history state.old.store.now) (W.history state.new.store.now) }
    ensures done { LeavesClear tt (W.history state.old.store.now) (W.history state.new.store.now)
        result }
    ensures rolls { HoldsOrFinished sealed.now (W.history state.old.store.now) (W.history state.new.store.now) }
    ensures finishes { Ensures (W.history state.new.store.now) (IsFinished sealed.now) result }
{
    let alloc = state.alloc;
    roll_forward(alloc, state.store, sealed)
}

/// Puts the object of a sealed completion (Object Storage API v1, "Static large objects" and "Create or replace object").
fn put_rolled_forward_object<W: Swift>(
    alloc: Global,
    store: &mut W,
    sealed: &Sealed,
) -> Result<(), PlanFault>
    requires { has_sealed_text sealed.now ≡ true }
    ensures asks { Asks (always 1) (W.history store.old) (W.history store.new)
        (HasSubs sealed.now (sealed_sub_manifests sealed.now)) (Leaves (HasObject sealed.now)) result }
    ensures keeps { KeepsGateway (W.history store.old) (W.history store.new) }
    ensures holds { HoldsSealed (W.history store.old) (W.history store.new) }
    ensures stands { Stands (W.history store.new) (put_object_of sealed.now) result }
{
    let request = object_request(alloc, sealed)?;
    let etag = etag_of_put(&request);
    let reply = ask(store, request)?;
    interpret_put_with_etag(&reply, &etag)
}

/// Puts the record of a sealed completion whose object is there, and deletes what is sealed.
fn finish_roll_forward<W: Swift>(
    alloc: Global,
    store: &mut W,
    sealed: &Sealed,
) -> Result<(), PlanFault>
    requires { has_sealed_text sealed.now ≡ true }
    ensures asks { Asks (always 2) (W.history store.old) (W.history store.new)
        (HasObject sealed.now) (Leaves IsSettled) result }
    ensures keeps { KeepsGateway (W.history store.old) (W.history store.new) }
    ensures done { LeavesClear tt (W.history store.old) (W.history store.new) result }
    ensures rolls { StandsIn (present (W.history store.old)) (put_object_of sealed.now)
        → HoldsOrFinished sealed.now (W.history store.old) (W.history store.new) }
    ensures finishes { StandsIn (present (W.history store.old)) (put_object_of sealed.now)
        → Ensures (W.history store.new) (IsFinished sealed.now) result }
{
    put_rolled_forward_record(alloc, store, sealed)?;
    delete_rolled_forward_seal(alloc, store)
}

/// Puts the record of a sealed completion, with its moment (Object Storage API v1, "Create or replace object").
fn put_rolled_forward_record<W: Swift>(
    alloc: Global,
    store: &mut W,
    sealed: &Sealed,
) -> Result<(), PlanFault>
    requires { has_sealed_text sealed.now ≡ true }
    ensures asks { Asks (always 1) (W.history store.old) (W.history store.new)
        (HasObject sealed.now) (Leaves (HasRecord sealed.now)) result }
    ensures keeps { KeepsGateway (W.history store.old) (W.history store.new) }
    ensures holds { HoldsSealed (W.history store.old) (W.history store.new) }
    ensures object { KeepsFile (put_object_of sealed.now) (W.history store.old) (W.history store.new) }
    ensures stands { Stands (W.history store.new) (put_record_of sealed.now) result }
{
    let text = rolled_forward_record_text(alloc, sealed)?;
    let etag = body_etag(text.as_slice());
    let request = rolled_forward_record_request(alloc, sealed, text)?;
    let reply = ask(store, request)?;
    interpret_put_with_etag(&reply, &etag)
}

/// Deletes what is sealed, whose object and record are there (Object Storage API v1, "Delete object").
#[tactic(auto, using(account_calls::proofs::lemmas::SealedNames::gateway_is_container, account_calls::proofs::lemmas::SealedNames::sealed_is_object))]
fn delete_rolled_forward_seal<W: Swift>(alloc: Global, store: &mut W) -> Result<(), PlanFault>
    ensures asks { (sealed : what_is_sealed) → Asks (always 1) (W.history store.old)
        (W.history store.new)
        (HasRecord sealed) (Leaves IsSettled) result }
    ensures keeps { KeepsGateway (W.history store.old) (W.history store.new) }
    ensures done { LeavesClear tt (W.history store.old) (W.history store.new) result }
    ensures object { (sealed : what_is_sealed) → has_sealed_text sealed ≡ true
        → KeepsFile (put_object_of sealed) (W.history store.old) (W.history store.new) }
    ensures kept { (sealed : what_is_sealed) → has_sealed_text sealed ≡ true
        → KeepsFile (put_record_of sealed) (W.history store.old) (W.history store.new) }
{
    let container = gateway_container(alloc)?;
    let name = sealed_name(alloc)?;
    let reply = ask(store, SwiftRequest::DeleteObject { container, name })?;
    interpret_file_delete(&reply)
}
