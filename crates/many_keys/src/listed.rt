//! The plan of the copy of an object that was completed from parts.
ghost use Rattle.std.specs.Prelude.{◌≡◌, ◌<◌, ◌+◌, ◌*◌, ◌^◌, [], ℕ, List, Option, false, true, length, IfOk};
ghost use Rattle.s3_names.specs.declared.acl.Acl.{Acl};
ghost use Rattle.s3_names.specs.Meta.{names_ascend};
ghost use Rattle.s3_machine.specs.Conditions.{no_conditions};
ghost use Rattle.s3_machine.specs.Copies.{is_onto_itself};
ghost use Rattle.s3_machine.specs.Step.{is_other_acl};
ghost use Rattle.s3_machine.specs.Proper.{IsProperDescribed};
ghost use Rattle.s3_machine.specs.declared.operation.Label.{Label};
ghost use Rattle.s3_machine.specs.Ops as ops;
ghost use Rattle.s3_machine.specs.declared.only_if.OnlyIf.TheVariants.{Always};
ghost use Rattle.s3_machine.specs.declared.operation.Described.{Described};
ghost use Rattle.swift_calls.specs.History.{present};
ghost use Rattle.swift_calls.specs.Step.{Fit};
ghost use Rattle.upload_records.specs.Native.{sealed_sub_manifests, sub_manifests};
ghost use Rattle.upload_texts.specs.Sealed.{has_sealed_text};
ghost use Rattle.account_calls.specs.Answers.{listed_by, records_of, segments_of};
ghost use Rattle.account_calls.specs.Calls.{always, by_account, Changes, Given, GivenOf};
ghost use Rattle.account_calls.specs.Lent.{Stays};
ghost use Rattle.account_calls.specs.Plan.{Plans};
ghost use Rattle.account_calls.specs.Puts.{EnsuresIfDone, Stands, StandsIn};
ghost use Rattle.account_calls.specs.Sealed.{put_object_of};
ghost use Rattle.account_calls.specs.declared.state.Known.TheVariants as known;
ghost use Rattle.many_keys.specs.Copies.{IsFoundSource, IsProperHead, TellsCopied};
ghost use Rattle.many_keys.specs.ObjectCopy.{IsOfHead, IsPutAs, is_own_copy, object_copied};
ghost use Rattle.many_keys.specs.CopiedLists.{CopiesObject, HasCopy, HasCut, IsCopy, MayFillCut, MayPut, sealed_copy, is_cut};
ghost use Rattle.many_keys.specs.OwnSegments.{HasOwnSegments, LeavesOutside, PutsWithSubs};

use crate::copies::end_copy_object_plan;
use crate::cut::Cut;
use crate::manifests::get_pieces_to_copy;
use crate::object_copy::{CopyIntoBucket, CopyTo};
use crate::segments::copy_source_segments;
use crate::source::content_of;
use crate::sub_manifests::put_copied_sub_manifests;
use account_calls::{
    PlanFault, Settled, etag_of_put, interpret_put_with_etag, object_request, sealed_object_tag,
};
use gate_base::{Bytes, Copying, List, Memory, drop};
use s3_machine::{ObjectHead, Reply};
use std::alloc::Global;
use swift_calls::{FilePut, Swift, SwiftRequest};
use swift_marks::pack;
use upload_calls::free_id;
use upload_records::law_unused_is_abandoned;
use upload_texts::{Sealed, SealedPart};

/// The rest of CopyObject without conditions, of a source that was completed from parts: GET of the list of its segments and of that of each of its
/// sub-manifests, the search of an id that is free, for each segment GET of its file and PUT of it under the id, PUT of each
/// sub-manifest of the copy, and then PUT of the copy's file, which lists what was put and commits. Over an observable consistent
/// account at most four calls, two for each record and each segment beside the bucket, and two for each segment and each sub-manifest
/// of the source. An empty source is put under a new id without the calls on its segments. The reply is made before the last call,
/// so that no memory is needed after it. After a fault some segments may be left that nothing names.
pub(crate) fn copy_source_of_parts<W: Swift>(
    state: &mut Settled<'_, W>,
    copy: CopyIntoBucket,
    head: ObjectHead,
) -> Result<Reply, PlanFault>
    requires acl { is_other_acl copy.acl copy.list ≡ false }
    requires other { is_own_copy copy ≡ false }
    requires head { IsProperHead head }
    requires of_parts { 32 < length head.etag }
    ensures stays { Stays state.old state.new }
    ensures plans { Plans (by_account (4 + 2 * (records_of (present (W.history state.old.store.now))
        copy.to.bucket
        + segments_of (present (W.history state.old.store.now)) copy.to.bucket)
        + 2 * listed_by (present (W.history state.old.store.now)) copy.from_bucket copy.from_key))
        (W.history state.old.store.now) (W.history state.new.store.now) state.old.settings.now
        (Given (IsOfHead copy head))
        (object_copied copy copy.acl no_conditions Always) copy.to.label known.Settled result }
    ensures stands { EnsuresIfDone (W.history state.new.store.now) (IsPutAs copy.to) result }
    ensures told { TellsCopied head.etag copy.to.label.moment result }
{
    if head.size == 0 {
        return copy_empty_source(state, copy.to, head);
    }
    let cut = get_pieces_to_copy(state, &copy.from_bucket, &copy.from_key, &head)?;
    copy_source_by_pieces(state, copy, head, cut)
}

/// The same of a source without a byte, whose file lists no segments.
fn copy_empty_source<W: Swift>(
    state: &mut Settled<'_, W>,
    to: CopyTo,
    head: ObjectHead,
) -> Result<Reply, PlanFault>
    requires head { IsProperHead head }
    requires of_parts { 32 < length head.etag }
    requires empty { head.size ≡ 0 }
    ensures stays { Stays state.old state.new }
    ensures plans { (acl : Option Acl) (list : Acl) (from_bucket from_key : List ℕ)
        → is_other_acl acl list ≡ false
        → is_onto_itself to.bucket to.key from_bucket from_key to.replaced ≡ false
        → Plans (by_account (2 * (records_of (present (W.history state.old.store.now)) to.bucket
        + segments_of (present (W.history state.old.store.now)) to.bucket + 1) + 1))
        (W.history state.old.store.now) (W.history state.new.store.now) state.old.settings.now
        (Given (IsFoundSource to.bucket list from_bucket from_key head))
        (ops.CopyObject to.bucket to.key acl from_bucket from_key to.replaced no_conditions Always)
        to.label known.Settled result }
    ensures stands { EnsuresIfDone (W.history state.new.store.now) (IsPutAs to) result }
    ensures told { TellsCopied head.etag to.label.moment result }
{
    let alloc = state.alloc;
    to.bucket.fits();
    to.key.fits();
    law_unused_is_abandoned();
    let id = free_id(state, &to.bucket, to.label.draw)?;
    let parts = List::new(alloc);
    let sealed = sealed_copy(to, id, head, parts);
    let end = put_listed_copy(state, &sealed);
    drop(sealed);
    end
}

/// The rest of the copy, of a source whose bytes are cut so.
fn copy_source_by_pieces<W: Swift>(
    state: &mut Settled<'_, W>,
    copy: CopyIntoBucket,
    head: ObjectHead,
    cut: Cut,
) -> Result<Reply, PlanFault>
    requires head { IsProperHead head }
    requires of_parts { 32 < length head.etag }
    requires cut { is_cut head.size cut.pieces ≡ true }
    ensures stays { Stays state.old state.new }
    ensures plans { (acl : Option Acl) (list : Acl) → is_other_acl acl list ≡ false
        → is_own_copy copy ≡ false
        → Plans (by_account (2 * (records_of (present (W.history state.old.store.now))
        copy.to.bucket
        + segments_of (present (W.history state.old.store.now)) copy.to.bucket + 1)
        + (2 * length cut.pieces + (sub_manifests (length cut.pieces) + 1))))
        (W.history state.old.store.now) (W.history state.new.store.now) state.old.settings.now
        (GivenOf (HasCut copy.to.bucket list copy.from_bucket copy.from_key head cut))
        (object_copied copy acl no_conditions Always) copy.to.label known.Settled result }
    ensures stands { EnsuresIfDone (W.history state.new.store.now) (IsPutAs copy.to) result }
    ensures told { TellsCopied head.etag copy.to.label.moment result }
{
    copy.to.bucket.fits();
    law_unused_is_abandoned();
    let id = free_id(state, &copy.to.bucket, copy.to.label.draw)?;
    copy_under(state, copy, head, &cut, id)
}

/// The rest of it, under an id that is free. A copy that was put lists segments which were put for it, over every observable store,
/// consistent or not.
fn copy_under<W: Swift>(
    state: &mut Settled<'_, W>,
    copy: CopyIntoBucket,
    head: ObjectHead,
    cut: &Cut,
    id: u128,
) -> Result<Reply, PlanFault>
    requires head { IsProperHead head }
    requires of_parts { 32 < length head.etag }
    requires cut { is_cut head.size cut.now.pieces ≡ true }
    ensures stays { Stays state.old state.new }
    ensures plans { (acl : Option Acl) (list : Acl) → is_other_acl acl list ≡ false
        → is_own_copy copy ≡ false
        → Plans (always (2 * length cut.now.pieces + (sub_manifests (length cut.now.pieces) + 1)))
        (W.history state.old.store.now) (W.history state.new.store.now) state.old.settings.now
        (GivenOf (MayFillCut copy.to.bucket list id copy.from_bucket copy.from_key head cut.now))
        (object_copied copy acl no_conditions Always) copy.to.label known.Settled result }
    ensures stands { EnsuresIfDone (W.history state.new.store.now) (IsPutAs copy.to) result }
    ensures told { TellsCopied head.etag copy.to.label.moment result }
    ensures own { EnsuresIfDone (W.history state.new.store.now)
        (HasOwnSegments copy.to.bucket copy.to.key id cut.now.pieces copy.to.label.moment) result }
{
    copy.to.bucket.fits();
    copy.to.key.fits();
    let parts = copy_source_segments(state, &copy.to, id, &copy.from_bucket, cut)?;
    let sealed = sealed_copy(copy.to, id, head, parts);
    let end = put_copy_of_parts(state, &sealed);
    drop(sealed);
    end
}

/// The rest of it, whose parts were put: PUT of its sub-manifests, and of its file.
fn put_copy_of_parts<W: Swift>(
    state: &mut Settled<'_, W>,
    sealed: &Sealed,
) -> Result<Reply, PlanFault>
    requires copy { IsCopy sealed.now }
    requires has { has_sealed_text sealed.now ≡ true }
    ensures stays { Stays state.old state.new }
    ensures plans { (acl : Option Acl) (list : Acl) (from_bucket from_key : List ℕ)
        (replaced : Option Described) (label : Label) → is_other_acl acl list ≡ false
        → is_onto_itself sealed.now.bucket sealed.now.key from_bucket from_key replaced ≡ false
        → sealed.now.moment ≡ label.moment
        → Plans (always (sealed_sub_manifests sealed.now + 1)) (W.history state.old.store.now)
        (W.history state.new.store.now) state.old.settings.now
        (GivenOf (MayPut list from_bucket from_key replaced sealed.now 0))
        (ops.CopyObject sealed.now.bucket sealed.now.key acl from_bucket from_key replaced
        no_conditions Always) label
        known.Settled result }
    ensures stands { EnsuresIfDone (W.history state.new.store.now)
        (λ tree. StandsIn tree (put_object_of sealed.now)) result }
    ensures told { TellsCopied sealed.now.etag sealed.now.moment result }
    ensures own { PutsWithSubs sealed.now (W.history state.old.store.now)
        (W.history state.new.store.now) result }
{
    put_copied_sub_manifests(state, sealed)?;
    put_listed_copy(state, sealed)
}

/// What is put as the copy, by the source's head. All is moved.
fn sealed_copy(to: CopyTo, id: u128, head: ObjectHead, list: List<SealedPart>) -> Sealed
    requires head { IsProperHead head }
    ensures copy { result ≡ sealed_copy to.bucket to.key id to.replaced head list to.label.moment }
    ensures content { IsProperDescribed
        (record { content_type = result.content_type; meta = result.meta }) }
    ensures ordered { names_ascend result.meta ≡ true }
    ensures fits { result.id < 2 ^ 128 }
{
    let moment = to.label.moment;
    let content = content_of(to.replaced, head.content_type, head.meta);
    Sealed {
        bucket: to.bucket.into_text(),
        key: to.key.into_text(),
        id,
        content_type: content.content_type,
        meta: content.meta,
        list,
        etag: head.etag,
        started: moment,
        moment,
    }
}

/// The last call of the copy, and the reply, which is made before it.
fn put_listed_copy<W: Swift>(
    state: &mut Settled<'_, W>,
    sealed: &Sealed,
) -> Result<Reply, PlanFault>
    requires copy { IsCopy sealed.now }
    ensures stays { Stays state.old state.new }
    ensures plans { (acl : Option Acl) (list : Acl) (from_bucket from_key : List ℕ)
        (replaced : Option Described) (label : Label) → is_other_acl acl list ≡ false
        → is_onto_itself sealed.now.bucket sealed.now.key from_bucket from_key replaced ≡ false
        → sealed.now.moment ≡ label.moment
        → Plans (always 1) (W.history state.old.store.now) (W.history state.new.store.now)
        state.old.settings.now
        (GivenOf (MayPut list from_bucket from_key replaced sealed.now (sealed_sub_manifests sealed.now)))
        (ops.CopyObject sealed.now.bucket sealed.now.key acl from_bucket from_key replaced
        no_conditions Always) label
        known.Settled result }
    ensures stands { EnsuresIfDone (W.history state.new.store.now)
        (λ tree. StandsIn tree (put_object_of sealed.now)) result }
    ensures told { TellsCopied sealed.now.etag sealed.now.moment result }
    ensures leaves { LeavesOutside sealed.now.bucket (W.history state.old.store.now)
        (W.history state.new.store.now) }
{
    let etag = sealed.etag.copy()?;
    end_copy_object_plan(put_copy_file(state, sealed), etag, sealed.moment)
}

/// Puts the copy, whose parts and sub-manifests stand beside the bucket, by PUT of its file (Object Storage API v1, "Static large objects"): the one
/// call that commits. At most one call. After Ok the S3 state has the copy in place of what stood under the key, and over every
/// observable store, consistent or not, its file stands. After Failed, which
/// comes only where the store's count of faults rose, and after Memory the state is the old one or that. Inconsistent never comes
/// over an observable consistent account of which this is so.
fn put_copy_file<W: Swift>(state: &mut Settled<'_, W>, sealed: &Sealed) -> Result<(), PlanFault>
    requires copy { IsCopy sealed.now }
    ensures stays { Stays state.old state.new }
    ensures changes { (from_bucket from_key : List ℕ) (replaced : Option Described)
        → Changes (always 1) (W.history state.old.store.now) (W.history state.new.store.now)
        (GivenOf (HasCopy from_bucket from_key replaced sealed.now (sealed_sub_manifests sealed.now)))
        (CopiesObject sealed.now.bucket sealed.now.key from_bucket from_key replaced
        sealed.now.moment) result }
    ensures stands { Stands (W.history state.new.store.now) (put_object_of sealed.now) result }
    ensures leaves { LeavesOutside sealed.now.bucket (W.history state.old.store.now)
        (W.history state.new.store.now) }
{
    let alloc = state.alloc;
    let request = copy_file_request(alloc, sealed)?;
    let etag = etag_of_put(&request);
    let reply = state.call(request)?;
    interpret_put_with_etag(&reply, &etag)
}

/// The PUT of the copy's file.
fn copy_file_request(alloc: Global, sealed: &Sealed) -> Result<SwiftRequest, Memory>
    requires copy { IsCopy sealed.now }
    ensures request { IfOk result (λ request. request ≡ put_object_of sealed.now) }
    ensures fits { IfOk result Fit }
{
    if sealed.list.is_empty() {
        return empty_copy_file_request(alloc, sealed);
    }
    object_request(alloc, sealed)
}

/// The PUT of a copy without a byte.
fn empty_copy_file_request(alloc: Global, sealed: &Sealed) -> Result<SwiftRequest, Memory>
    requires copy { IsCopy sealed.now }
    requires none { sealed.now.list ≡ [] }
    ensures request { IfOk result (λ request. request ≡ put_object_of sealed.now) }
    ensures fits { IfOk result Fit }
{
    let content_type = sealed_object_tag(alloc, sealed)?;
    let meta = pack(alloc, &sealed.meta)?;
    let container = sealed.bucket.copy()?;
    let name = sealed.key.copy()?;
    Ok(SwiftRequest::PutObject(FilePut {
        container,
        name,
        content_type,
        meta,
        body: Bytes::new(alloc),
        fresh: false,
    }))
}
