//! The lists of the segments of an object that was completed from parts, read one after another.
ghost use Rattle.std.specs.Prelude.{◌≡◌, ◌<◌, ◌≤◌, ◌+◌, ℕ, List, true, length, IfOk};
ghost use Rattle.swift_calls.specs.History.{present};
ghost use Rattle.swift_calls.specs.Step.{Fit};
ghost use Rattle.swift_calls.specs.declared.calls.SwiftRequest.TheVariants.{GetManifest};
ghost use Rattle.upload_records.specs.Layout.{segments_name, sub_manifest_name};
ghost use Rattle.s3_names.specs.Id.{id_digits};
ghost use Rattle.account_calls.specs.Calls.{always, by_account, Asks, Given, GivenOf, HasObject};
ghost use Rattle.account_calls.specs.Lent.{Stays};
ghost use Rattle.account_calls.specs.Listing.{TellsOf};
ghost use Rattle.many_keys.specs.CopiedLists.{HasListed, HasSubs, ListsSegments, TellsCut, TellsRuns, TellsSub, is_cut, lists_subs, subs_in, subs_listed};

use crate::cut::{
    Cut, Piece, add_pieces, cut_of_list, id_of_list, lists_sub_manifests, proper_cut,
};
use account_calls::{PlanFault, Settled, interpret_listed_segments};
use gate_base::{Bytes, Copying, List, Memory};
use s3_machine::ObjectHead;
use s3_names::{BucketName, Key};
use slo_manifest::Segment;
use std::alloc::Global;
use swift_calls::{Swift, SwiftRequest};
use upload_records::{law_listing_found, law_object_listed, segments_container, sub_manifest_name};

/// The most sub-manifests that an object lists.
const MOST_SUB_MANIFESTS: usize = 10;

/// How the bytes of an object with an ETag of parts are cut, of which HEAD told this ETag and this size, by GET of the list of its
/// file's segments and of that of each sub-manifest among them (Object Storage API v1, "Static large objects"). Over an observable
/// consistent account at most one call, and one for each sub-manifest; the S3 state stays. Failed comes only where the store's count
/// of faults rose; Memory where memory ran out; Inconsistent where the lists aren't those of parts that make so many bytes, and never
/// over an observable consistent account whose object has these.
pub(crate) fn get_pieces_to_copy<W: Swift>(
    state: &mut Settled<'_, W>,
    bucket: &BucketName,
    key: &Key,
    head: &ObjectHead,
) -> Result<Cut, PlanFault>
    requires of_parts { 32 < length head.now.etag }
    requires filled { 0 < head.now.size }
    ensures stays { Stays state.old state.new }
    ensures proper { IfOk result (λ cut. is_cut head.now.size cut.pieces ≡ true) }
    ensures asks { Asks (by_account (1 + subs_listed (present (W.history state.old.store.now)) bucket.now key.now))
        (W.history state.old.store.now) (W.history state.new.store.now)
        (Given (HasObject bucket.now key.now head.now.etag head.now.size))
        (TellsOf (TellsCut bucket.now key.now)) result }
{
    let listed = get_listed_segments(state, bucket, key)?;
    get_pieces_of_list(state, bucket, listed.as_slice(), head.size)
}

/// The segments that the file of an object lists, by GET of its list.
fn get_listed_segments<W: Swift>(
    state: &mut Settled<'_, W>,
    bucket: &BucketName,
    key: &Key,
) -> Result<List<Segment>, PlanFault>
    ensures stays { Stays state.old state.new }
    ensures asks { (etag : List ℕ) (size : ℕ) → 32 < length etag → 0 < size
        → Asks (always 1) (W.history state.old.store.now) (W.history state.new.store.now)
        (Given (HasObject bucket.now key.now etag size))
        (TellsOf (ListsSegments bucket.now key.now)) result }
{
    law_listing_found();
    let container = bucket.copy_text()?;
    let name = key.copy_text()?;
    let reply = state.call(SwiftRequest::GetManifest { container, name })?;
    interpret_listed_segments(reply)
}

/// The pieces of an object of so many bytes whose file lists these segments.
fn get_pieces_of_list<W: Swift>(
    state: &mut Settled<'_, W>,
    bucket: &BucketName,
    listed: &[Segment],
    size: u64,
) -> Result<Cut, PlanFault>
    ensures stays { Stays state.old state.new }
    ensures proper { IfOk result (λ cut. is_cut size cut.pieces ≡ true) }
    ensures asks { (key etag : List ℕ) → 32 < length etag
        → Asks (always (subs_in listed.now)) (W.history state.old.store.now) (W.history state.new.store.now)
        (GivenOf (HasListed bucket.now key etag size listed.now)) (TellsOf (TellsCut bucket.now key)) result }
{
    let alloc = state.alloc;
    bucket.fits();
    law_object_listed();
    if lists_sub_manifests(listed) {
        return get_pieces_of_sub_manifests(state, bucket, listed, size);
    }
    cut_of_list(alloc, listed, size)
}

/// The pieces of an object whose file lists these sub-manifests, by GET of the list of each.
fn get_pieces_of_sub_manifests<W: Swift>(
    state: &mut Settled<'_, W>,
    bucket: &BucketName,
    listed: &[Segment],
    size: u64,
) -> Result<Cut, PlanFault>
    requires subs { lists_subs listed.now ≡ true }
    ensures stays { Stays state.old state.new }
    ensures proper { IfOk result (λ cut. is_cut size cut.pieces ≡ true) }
    ensures asks { (key etag : List ℕ) → 32 < length etag
        → Asks (always (length listed.now)) (W.history state.old.store.now) (W.history state.new.store.now)
        (GivenOf (HasListed bucket.now key etag size listed.now)) (TellsOf (TellsCut bucket.now key)) result }
{
    bucket.fits();
    law_object_listed();
    let count = listed.len();
    if count > MOST_SUB_MANIFESTS {
        return Err(PlanFault::Inconsistent);
    }
    let id = id_of_list(listed);
    let pieces = get_sub_manifests(state, bucket, id, count)?;
    proper_cut(id, pieces, size)
}

/// The pieces of what the first sub-manifests of an id list, by GET of the list of each.
fn get_sub_manifests<W: Swift>(
    state: &mut Settled<'_, W>,
    bucket: &BucketName,
    id: u128,
    count: usize,
) -> Result<List<Piece>, PlanFault>
    requires few { count ≤ 10 }
    ensures stays { Stays state.old state.new }
    ensures asks { Asks (always count) (W.history state.old.store.now) (W.history state.new.store.now)
        (GivenOf (HasSubs bucket.now id count)) (TellsOf (TellsRuns bucket.now id count)) result }
{
    let alloc = state.alloc;
    let mut pieces = List::new(alloc);
    for n in 0..count {
        let listed = get_sub_manifest(state, bucket, id, n)?;
        add_pieces(&mut pieces, listed.as_slice())?;
    }
    Ok(pieces)
}

/// The segments that the sub-manifest of that number, counted from 0, lists, by GET of its list.
fn get_sub_manifest<W: Swift>(
    state: &mut Settled<'_, W>,
    bucket: &BucketName,
    id: u128,
    n: usize,
) -> Result<List<Segment>, PlanFault>
    requires few { n < 10 }
    ensures stays { Stays state.old state.new }
    ensures asks { Asks (always 1) (W.history state.old.store.now) (W.history state.new.store.now)
        (GivenOf (HasSubs bucket.now id (n + 1))) (TellsOf (TellsSub bucket.now id n)) result }
{
    let alloc = state.alloc;
    let request = sub_manifest_list_request(alloc, bucket, id, n)?;
    let reply = state.call(request)?;
    interpret_listed_segments(reply)
}

/// The GET of the list of that sub-manifest.
fn sub_manifest_list_request(
    alloc: Global,
    bucket: &BucketName,
    id: u128,
    n: usize,
) -> Result<SwiftRequest, Memory>
    requires few { n < 10 }
    ensures request { IfOk result (λ request. request
        ≡ GetManifest (segments_name bucket.now) (sub_manifest_name (id_digits id) (n + 1))) }
    ensures fits { IfOk result Fit }
{
    let container = segments_container(alloc, bucket.bytes())?;
    let name = sub_manifest_name(alloc, id, n as u32 + 1)?;
    Ok(SwiftRequest::GetManifest { container, name })
}
