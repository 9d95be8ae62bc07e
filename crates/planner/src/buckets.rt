//! The plans of the operations on buckets.
ghost use Rattle.std.specs.Prelude.{◌≡◌, ◌+◌, [], IfOk};
ghost use Rattle.s3_machine.specs.declared.operation.Label.{Label};
ghost use Rattle.s3_machine.specs.declared.operation.Op.TheVariants.{OnObjects};
ghost use Rattle.s3_machine.specs.declared.operation.ObjectsOp.TheVariants.{CreateBucket, DeleteBucket, GetLocation, HeadBucket, ListBuckets};
ghost use Rattle.s3_machine.specs.Replies.{Made};
ghost use Rattle.s3_machine.specs.Buckets.{bucket_page};
ghost use Rattle.s3_machine.specs.Step.{buckets_reply};
ghost use Rattle.swift_calls.specs.History.{present};
ghost use Rattle.account_calls.specs.Answers.{most_calls};
ghost use Rattle.account_calls.specs.Calls.{always, by_account, Any, Given, GivenOf, LacksBucket};
ghost use Rattle.account_calls.specs.Lent.{Stays};
ghost use Rattle.account_calls.specs.declared.state.Known.TheVariants as known;
ghost use Rattle.account_calls.specs.Purging.{MayMake, purge_calls};
ghost use Rattle.upload_records.specs.Layout.{segments_name, uploads_name};
ghost use Rattle.account_calls.specs.Plan.{Plans, ended};
ghost use Rattle.account_calls.specs.Refusals.{Stops, Unrefused};
ghost use Rattle.account_calls.specs.Shows.{alone};
ghost use Rattle.planner.specs.Buckets.{dropped_reply, emptying, HasBareUploads, HasSides, HasUploads};
ghost use Rattle.planner.specs.Reading.{GivesNoByte};

use account_calls::{
    Dropped, PlanFault, Settled, delete_bucket_container, head_bucket, purge, put_bucket_container,
    put_container_beside,
};
use gate_base::{Bytes, Copying, List};
use s3_machine::{
    BucketAcl, BucketItem, BucketListing, BucketPage, Code, Label, ObjectsReply, Proper, Reply,
    bucket_page, may_read,
};
use s3_names::BucketName;
use swift_calls::Swift;
use upload_records::{segments_container, uploads_container};

/// CreateBucket: HEAD of the container; where it is missing, PUT of both containers beside it, the deletion of all files that stand
/// in them, and its PUT, which commits. The reply is made before the last PUT, so that no memory is needed after it. At most as many
/// calls as pages and files of both, and four more. The faults are those of the calls.
pub(crate) fn create_bucket<W: Swift>(
    state: &mut Settled<'_, W>,
    made: BucketAcl,
    label: &Label,
) -> Result<Reply, PlanFault>
    ensures stays { Stays state.old state.new }
    ensures plans { Plans (most_calls (OnObjects (CreateBucket made))
        (present (W.history state.old.store.now)))
        (W.history state.old.store.now) (W.history state.new.store.now) state.old.settings.now
        (Given Any) (OnObjects (CreateBucket made)) label.now known.Settled result }
    ensures stops { Stops alone 0 (W.history state.old.store.now) (W.history state.new.store.now) result }
    ensures bodiless { IfOk result GivesNoByte }
{
    made.bucket.fits();
    match head_bucket(state, &made.bucket)? {
        None => plan_create_missing_bucket(state, made, label),
        Some(_) => Ok(Reply::Refused(Code::BucketAlreadyOwnedByYou)),
    }
}

/// The rest of CreateBucket, where the bucket is missing: the names of the containers beside it are written, and the first of them
/// is made.
fn plan_create_missing_bucket<W: Swift>(
    state: &mut Settled<'_, W>,
    made: BucketAcl,
    label: &Label,
) -> Result<Reply, PlanFault>
    ensures stays { Stays state.old state.new }
    ensures plans { Plans (by_account (3 + emptying made.bucket
        (present (W.history state.old.store.now))))
        (W.history state.old.store.now) (W.history state.new.store.now) state.old.settings.now
        (Given (LacksBucket made.bucket)) (OnObjects (CreateBucket made)) label.now known.Settled
        result }
    ensures unrefused { Unrefused result }
    ensures bodiless { IfOk result GivesNoByte }
{
    let alloc = state.alloc;
    let uploads = uploads_container(alloc, made.bucket.bytes())?;
    let segments = segments_container(alloc, made.bucket.bytes())?;
    put_container_beside(state, &uploads)?;
    plan_create_bucket_segments(state, made, &uploads, &segments, label)
}

/// The second of them is made.
fn plan_create_bucket_segments<W: Swift>(
    state: &mut Settled<'_, W>,
    made: BucketAcl,
    uploads: &Bytes,
    segments: &Bytes,
    label: &Label,
) -> Result<Reply, PlanFault>
    requires uploads { uploads.now ≡ uploads_name made.bucket }
    requires segments { segments.now ≡ segments_name made.bucket }
    ensures stays { Stays state.old state.new }
    ensures plans { Plans (by_account (2 + emptying made.bucket
        (present (W.history state.old.store.now))))
        (W.history state.old.store.now) (W.history state.new.store.now) state.old.settings.now
        (GivenOf (HasUploads made.bucket)) (OnObjects (CreateBucket made)) label.now known.Settled
        result }
    ensures unrefused { Unrefused result }
    ensures bodiless { IfOk result GivesNoByte }
{
    made.bucket.fits();
    put_container_beside(state, segments)?;
    empty_uploads(state, made, uploads, segments, label)
}

/// All that stands in the first of them is deleted.
fn empty_uploads<W: Swift>(
    state: &mut Settled<'_, W>,
    made: BucketAcl,
    uploads: &Bytes,
    segments: &Bytes,
    label: &Label,
) -> Result<Reply, PlanFault>
    requires uploads { uploads.now ≡ uploads_name made.bucket }
    requires segments { segments.now ≡ segments_name made.bucket }
    ensures stays { Stays state.old state.new }
    ensures plans { Plans (by_account (1 + emptying made.bucket
        (present (W.history state.old.store.now))))
        (W.history state.old.store.now) (W.history state.new.store.now) state.old.settings.now
        (GivenOf (HasSides made.bucket)) (OnObjects (CreateBucket made)) label.now known.Settled
        result }
    ensures unrefused { Unrefused result }
    ensures bodiless { IfOk result GivesNoByte }
{
    let alloc = state.alloc;
    made.bucket.fits();
    let all = Bytes::new(alloc);
    purge(state, uploads, &all)?;
    empty_segments(state, made, segments, label)
}

/// All that stands in the second is deleted.
fn empty_segments<W: Swift>(
    state: &mut Settled<'_, W>,
    made: BucketAcl,
    segments: &Bytes,
    label: &Label,
) -> Result<Reply, PlanFault>
    requires segments { segments.now ≡ segments_name made.bucket }
    ensures stays { Stays state.old state.new }
    ensures plans { Plans (by_account
        (1 + purge_calls (present (W.history state.old.store.now)) (segments_name made.bucket) []))
        (W.history state.old.store.now) (W.history state.new.store.now) state.old.settings.now
        (GivenOf (HasBareUploads made.bucket)) (OnObjects (CreateBucket made)) label.now
        known.Settled result }
    ensures unrefused { Unrefused result }
    ensures bodiless { IfOk result GivesNoByte }
{
    let alloc = state.alloc;
    made.bucket.fits();
    let all = Bytes::new(alloc);
    purge(state, segments, &all)?;
    plan_create_bare_bucket(state, made, label)
}

/// The bucket is made, where both containers beside it are there without a file.
fn plan_create_bare_bucket<W: Swift>(
    state: &mut Settled<'_, W>,
    made: BucketAcl,
    label: &Label,
) -> Result<Reply, PlanFault>
    ensures stays { Stays state.old state.new }
    ensures plans { Plans (always 1) (W.history state.old.store.now) (W.history state.new.store.now)
        state.old.settings.now (GivenOf (MayMake made.bucket)) (OnObjects (CreateBucket made))
        label.now
        known.Settled result }
    ensures unrefused { Unrefused result }
    ensures bodiless { IfOk result GivesNoByte }
{
    let name = made.bucket.copy_text()?;
    end_create_bucket_plan(
        put_bucket_container(state, made.bucket, made.acl, label),
        name,
    )
}

/// The end of CreateBucket after its last call.
fn end_create_bucket_plan(end: Result<(), PlanFault>, bucket: Bytes) -> Result<Reply, PlanFault>
    ensures { result ≡ ended end (λ done. Made bucket) }
{
    match end {
        Ok(()) => Ok(Reply::OfObjects(ObjectsReply::Made(bucket))),
        Err(fault) => Err(fault),
    }
}

/// ListBuckets: GET of the account page by page, then HEAD of each bucket's container, whichever are asked for. At most as many calls
/// as there are pages and buckets, none of which commits. The faults are those of the calls.
pub(crate) fn list_buckets<W: Swift>(
    state: &mut Settled<'_, W>,
    asked: Proper<BucketListing>,
) -> Result<Reply, PlanFault>
    ensures stays { Stays state.old state.new }
    ensures plans { (label : Label)
        → Plans (most_calls (OnObjects (ListBuckets asked))
        (present (W.history state.old.store.now)))
        (W.history state.old.store.now) (W.history state.new.store.now) state.old.settings.now
        (Given Any) (OnObjects (ListBuckets asked)) label known.Settled result }
    ensures unrefused { Unrefused result }
    ensures bodiless { IfOk result GivesNoByte }
{
    let all = account_calls::list_buckets(state)?;
    Ok(end_list_buckets_plan(asked.into_value(), all))
}

/// The reply to ListBuckets, of all buckets that there are.
fn end_list_buckets_plan(asked: BucketListing, all: List<BucketItem>) -> Reply
    ensures { result ≡ buckets_reply asked (bucket_page asked all) }
{
    let (items, truncated) = bucket_page(&asked, all);
    Reply::OfObjects(ObjectsReply::Buckets(BucketPage {
        asked,
        items,
        truncated,
    }))
}

/// DeleteBucket: DELETE of the container, which commits. At most one call. The faults are those of the call.
pub(crate) fn delete_bucket<W: Swift>(
    state: &mut Settled<'_, W>,
    bucket: BucketName,
) -> Result<Reply, PlanFault>
    ensures stays { Stays state.old state.new }
    ensures plans { (label : Label)
        → Plans (always 1) (W.history state.old.store.now) (W.history state.new.store.now)
        state.old.settings.now (Given Any) (OnObjects (DeleteBucket bucket)) label known.Settled
        result }
    ensures bodiless { IfOk result GivesNoByte }
{
    end_delete_bucket_plan(delete_bucket_container(state, bucket))
}

/// The end of DeleteBucket after its call.
fn end_delete_bucket_plan(end: Result<Dropped, PlanFault>) -> Result<Reply, PlanFault>
    ensures { result ≡ ended end dropped_reply }
{
    match end {
        Ok(Dropped::Gone) => Ok(Reply::Gone),
        Ok(Dropped::Full) => Ok(Reply::Refused(Code::BucketNotEmpty)),
        Ok(Dropped::Missing) => Ok(Reply::Refused(Code::NoSuchBucket)),
        Err(fault) => Err(fault),
    }
}

/// HeadBucket: HEAD of the container. At most one call, which doesn't commit. The faults are those of the call.
pub(crate) fn plan_head_bucket<W: Swift>(
    state: &mut Settled<'_, W>,
    bucket: &BucketName,
    label: &Label,
) -> Result<Reply, PlanFault>
    ensures stays { Stays state.old state.new }
    ensures plans { Plans (always 1) (W.history state.old.store.now) (W.history state.new.store.now)
        state.old.settings.now (Given Any) (OnObjects (HeadBucket bucket.now)) label.now
        known.Settled result }
    ensures bodiless { IfOk result GivesNoByte }
{
    let Some(list) = head_bucket(state, bucket)? else {
        return Ok(Reply::Refused(Code::NoSuchBucket));
    };
    if !may_read(label.caller, list) {
        return Ok(Reply::Refused(Code::AccessDenied));
    }
    Ok(Reply::Done)
}

/// GetLocation: HEAD of the container. At most one call, which doesn't commit. The text of the region is copied before the
/// call. The faults are those of the call.
pub(crate) fn get_location<W: Swift>(
    state: &mut Settled<'_, W>,
    bucket: &BucketName,
) -> Result<Reply, PlanFault>
    ensures stays { Stays state.old state.new }
    ensures plans { (label : Label)
        → Plans (always 1) (W.history state.old.store.now) (W.history state.new.store.now)
        state.old.settings.now (Given Any) (OnObjects (GetLocation bucket.now)) label known.Settled
        result }
    ensures bodiless { IfOk result GivesNoByte }
{
    let region = state.settings().region.copy()?;
    match head_bucket(state, bucket)? {
        Some(_) => Ok(Reply::OfObjects(ObjectsReply::Location(region))),
        None => Ok(Reply::Refused(Code::NoSuchBucket)),
    }
}
