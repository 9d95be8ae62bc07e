//! The plan of AbortUpload.
ghost use Rattle.std.specs.Prelude.{◌≡◌, ◌+◌, ℕ, List};
ghost use Rattle.s3_names.specs.Id.{id_digits};
ghost use Rattle.s3_machine.specs.declared.operation.Label.{Label};
ghost use Rattle.s3_machine.specs.declared.operation.Op.TheVariants.{OnUploads};
ghost use Rattle.s3_machine.specs.declared.operation.UploadsOp.TheVariants.{AbortUpload};
ghost use Rattle.s3_machine.specs.Ops as ops;
ghost use Rattle.swift_calls.specs.History.{present};
ghost use Rattle.upload_records.specs.Layout.{segments_name, segments_prefix};
ghost use Rattle.account_calls.specs.Answers.{clears, named_by, pages};
ghost use Rattle.account_calls.specs.Calls.{by_account, Any, Given, GivenOf};
ghost use Rattle.account_calls.specs.Lent.{Stays};
ghost use Rattle.account_calls.specs.declared.state.Known.TheVariants as known;
ghost use Rattle.account_calls.specs.Refusals.{Stops, Unrefused};
ghost use Rattle.account_calls.specs.Shows.{alone};
ghost use Rattle.account_calls.specs.Plan.{Plans};
ghost use Rattle.upload_calls.specs.Found.{IsOpenUpload};
ghost use Rattle.plan_uploads.specs.Plans.{LeavesBeside, gone_behind};
ghost use Rattle.plan_uploads.specs.Replies.{AnswersUpload};

use account_calls::{PlanFault, Settled, purge};
use gate_base::Bytes;
use s3_machine::{Code, Reply, UploadName};
use s3_names::BucketName;
use swift_calls::Swift;
use upload_calls::{Found, drop_record, find_upload};
use upload_records::{segments_container, segments_prefix};

/// AbortUpload: HEAD of the bucket's container, GET of the upload's record, DELETE of the record, which commits, and then the
/// upload's segments are deleted page by page. Over an observable consistent account at most three calls more than there are
/// pages and segments. That the store failed behind the DELETE of the record is no failure of the operation: the reply is Gone
/// all the same, and segments may be left; where no call failed none is. The faults are those of the calls before, and Memory
/// where memory ran out behind it.
pub(crate) fn abort_upload<W: Swift>(
    state: &mut Settled<'_, W>,
    upload: &UploadName,
) -> Result<Reply, PlanFault>
    ensures stays { Stays state.old state.new }
    ensures plans { (label : Label)
        → Plans (by_account (3 + pages
        (named_by (present (W.history state.old.store.now)) upload.now.bucket upload.now.id)
        + named_by (present (W.history state.old.store.now)) upload.now.bucket upload.now.id))
        (W.history state.old.store.now) (W.history state.new.store.now) state.old.settings.now
        (Given Any) (OnUploads (AbortUpload upload.now)) label known.Settled result }
    ensures beside { (label : Label) → LeavesBeside (clears upload.now.bucket upload.now.id) label
        (W.history state.old.store.now) (W.history state.new.store.now) (Given Any) result }
    ensures stops { Stops alone 0 (W.history state.old.store.now) (W.history state.new.store.now) result }
    ensures kind { AnswersUpload result }
{
    upload.bucket.fits();
    match find_upload(state, &upload.bucket, &upload.key, &upload.id)? {
        Found::NoBucket => Ok(Reply::Refused(Code::NoSuchBucket)),
        Found::NoUpload => Ok(Reply::Refused(Code::NoSuchUpload)),
        Found::Open(id) => abort_open(state, &upload.bucket, id),
    }
}

/// The rest of AbortUpload, of an upload that is open. The names are written before the DELETE of the record, so that behind it
/// the deletion of the segments alone may want memory.
fn abort_open<W: Swift>(
    state: &mut Settled<'_, W>,
    bucket: &BucketName,
    id: u128,
) -> Result<Reply, PlanFault>
    ensures stays { Stays state.old state.new }
    ensures plans { (key text : List ℕ) (label : Label)
        → Plans (by_account (1 + pages
        (named_by (present (W.history state.old.store.now)) bucket.now (id_digits id))
        + named_by (present (W.history state.old.store.now)) bucket.now (id_digits id)))
        (W.history state.old.store.now) (W.history state.new.store.now) state.old.settings.now
        (GivenOf (IsOpenUpload bucket.now key text id)) (ops.AbortUpload bucket.now key text) label
        known.Settled result }
    ensures beside { (key text : List ℕ) (label : Label)
        → LeavesBeside (clears bucket.now text) label (W.history state.old.store.now)
        (W.history state.new.store.now) (GivenOf (IsOpenUpload bucket.now key text id)) result }
    ensures unrefused { Unrefused result }
    ensures kind { AnswersUpload result }
{
    let alloc = state.alloc;
    let folder = segments_container(alloc, bucket.bytes())?;
    let prefix = segments_prefix(alloc, id)?;
    plan_abort_and_purge_upload(state, bucket, id, &folder, &prefix)
}

/// The calls of AbortUpload from the one that commits on.
fn plan_abort_and_purge_upload<W: Swift>(
    state: &mut Settled<'_, W>,
    bucket: &BucketName,
    id: u128,
    folder: &Bytes,
    prefix: &Bytes,
) -> Result<Reply, PlanFault>
    requires folder { folder.now ≡ segments_name bucket.now }
    requires prefix { prefix.now ≡ segments_prefix (id_digits id) }
    ensures stays { Stays state.old state.new }
    ensures plans { (key text : List ℕ) (label : Label)
        → Plans (by_account (1 + pages
        (named_by (present (W.history state.old.store.now)) bucket.now (id_digits id))
        + named_by (present (W.history state.old.store.now)) bucket.now (id_digits id)))
        (W.history state.old.store.now) (W.history state.new.store.now) state.old.settings.now
        (GivenOf (IsOpenUpload bucket.now key text id)) (ops.AbortUpload bucket.now key text) label
        known.Settled result }
    ensures beside { (key text : List ℕ) (label : Label)
        → LeavesBeside (clears bucket.now text) label (W.history state.old.store.now)
        (W.history state.new.store.now) (GivenOf (IsOpenUpload bucket.now key text id)) result }
    ensures unrefused { Unrefused result }
    ensures kind { AnswersUpload result }
{
    bucket.fits();
    drop_record(state, bucket, id)?;
    end_abort_upload_plan(purge(state, folder, prefix))
}

/// The end of AbortUpload behind the call that commits.
fn end_abort_upload_plan(end: Result<(), PlanFault>) -> Result<Reply, PlanFault>
    ensures { result ≡ gone_behind end }
{
    match end {
        Ok(()) | Err(PlanFault::Failed) => Ok(Reply::Gone),
        Err(fault) => Err(fault),
    }
}
