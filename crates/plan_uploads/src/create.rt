//! The plan of CreateUpload.
ghost use Rattle.std.specs.Prelude.{◌≡◌, ◌<◌, ◌+◌, ◌*◌, false, Some};
ghost use Rattle.s3_names.specs.declared.acl.Acl.{Acl};
ghost use Rattle.s3_machine.specs.Step.{is_other_acl};
ghost use Rattle.s3_machine.specs.declared.operation.Op.TheVariants.{OnUploads};
ghost use Rattle.s3_machine.specs.declared.operation.UploadsOp.TheVariants.{CreateUpload};
ghost use Rattle.s3_machine.specs.Replies.{Started};
ghost use Rattle.swift_calls.specs.History.{present};
ghost use Rattle.account_calls.specs.Answers.{opens_in, records_of, segments_of};
ghost use Rattle.account_calls.specs.Calls.{always, by_account, Any, Given, GivenOf, TellsBucket};
ghost use Rattle.account_calls.specs.Lent.{Stays};
ghost use Rattle.account_calls.specs.declared.state.Known.TheVariants as known;
ghost use Rattle.account_calls.specs.Refusals.{Stops, Unrefused};
ghost use Rattle.account_calls.specs.Shows.{alone};
ghost use Rattle.account_calls.specs.Plan.{ended, Plans};
ghost use Rattle.account_calls.specs.Puts.{EnsuresIfDone};
ghost use Rattle.plan_uploads.specs.Plans.{LeavesBeside, MayStart, StandsStarted};
ghost use Rattle.plan_uploads.specs.Replies.{AnswersUpload};

use account_calls::{PlanFault, Settled, head_bucket};
use gate_base::Bytes;
use s3_machine::{Code, Label, Reply, StartedUpload, UploadStart, UploadsReply, is_other_acl};
use s3_names::Acl;
use swift_calls::Swift;
use upload_calls::{free_id, put_record};

/// CreateUpload: HEAD of the bucket's container, the search of an id that is free, then PUT of the upload's record, which
/// commits. Over an observable consistent account at most two calls for each record and each segment of the bucket, and four
/// more. The reply is made before the PUT, so that no memory is needed after it. An upload that is new at the end has the first
/// id that is free from the label's word of chance on, whatever the reply. The faults are those of the calls.
pub(crate) fn create_upload<W: Swift>(
    state: &mut Settled<'_, W>,
    start: UploadStart,
    label: &Label,
) -> Result<Reply, PlanFault>
    ensures stays { Stays state.old state.new }
    ensures plans { Plans (by_account (2 + 2 * (records_of (present (W.history state.old.store.now))
        start.bucket
        + segments_of (present (W.history state.old.store.now)) start.bucket + 1)))
        (W.history state.old.store.now) (W.history state.new.store.now) state.old.settings.now
        (Given Any) (OnUploads (CreateUpload start)) label.now known.Settled result }
    ensures beside { LeavesBeside (opens_in start.bucket) label.now (W.history state.old.store.now)
        (W.history state.new.store.now) (Given Any) result }
    ensures stands { EnsuresIfDone (W.history state.new.store.now)
        (StandsStarted start.bucket start.key start.described.content_type start.described.meta
        label.now.moment)
        result }
    ensures stops { Stops alone 0 (W.history state.old.store.now) (W.history state.new.store.now) result }
    ensures kind { AnswersUpload result }
{
    let Some(list) = head_bucket(state, &start.bucket)? else {
        return Ok(Reply::Refused(Code::NoSuchBucket));
    };
    plan_create_upload_within(state, start, list, label)
}

/// The rest of CreateUpload, in a bucket that has this access control list.
fn plan_create_upload_within<W: Swift>(
    state: &mut Settled<'_, W>,
    start: UploadStart,
    list: Acl,
    label: &Label,
) -> Result<Reply, PlanFault>
    ensures stays { Stays state.old state.new }
    ensures plans { Plans (by_account (1 + 2 * (records_of (present (W.history state.old.store.now))
        start.bucket + segments_of (present (W.history state.old.store.now)) start.bucket + 1)))
        (W.history state.old.store.now) (W.history state.new.store.now) state.old.settings.now
        (Given (λ s. TellsBucket start.bucket s (Some list)))
        (OnUploads (CreateUpload start)) label.now known.Settled result }
    ensures beside { LeavesBeside (opens_in start.bucket) label.now (W.history state.old.store.now)
        (W.history state.new.store.now) (Given (λ s. TellsBucket start.bucket s (Some list)))
        result }
    ensures stands { EnsuresIfDone (W.history state.new.store.now)
        (StandsStarted start.bucket start.key start.described.content_type start.described.meta
        label.now.moment)
        result }
    ensures stops { Stops alone 1 (W.history state.old.store.now) (W.history state.new.store.now) result }
    ensures kind { AnswersUpload result }
{
    start.bucket.fits();
    if is_other_acl(start.acl, list) {
        return Ok(Reply::Refused(Code::NotImplemented));
    }
    let id = free_id(state, &start.bucket, label.draw)?;
    start_under(state, start, id, label)
}

/// The PUT of CreateUpload, under an id that is free.
fn start_under<W: Swift>(
    state: &mut Settled<'_, W>,
    start: UploadStart,
    id: u128,
    label: &Label,
) -> Result<Reply, PlanFault>
    ensures stays { Stays state.old state.new }
    ensures plans { (list : Acl) → is_other_acl start.acl list ≡ false
        → Plans (always 1) (W.history state.old.store.now) (W.history state.new.store.now)
        state.old.settings.now (GivenOf (MayStart start.bucket list label.now.draw id))
        (OnUploads (CreateUpload start)) label.now known.Settled result }
    ensures beside { (list : Acl) → LeavesBeside (opens_in start.bucket) label.now
        (W.history state.old.store.now)
        (W.history state.new.store.now) (GivenOf (MayStart start.bucket list label.now.draw id))
        result }
    ensures stands { EnsuresIfDone (W.history state.new.store.now)
        (StandsStarted start.bucket start.key start.described.content_type start.described.meta
        label.now.moment)
        result }
    ensures unrefused { Unrefused result }
    ensures kind { AnswersUpload result }
{
    let bucket = start.bucket.copy_text()?;
    let key = start.key.copy_text()?;
    end_create_upload_plan(put_record(state, start, id, label), bucket, key, id)
}

/// The end of CreateUpload after its last call.
fn end_create_upload_plan(
    end: Result<(), PlanFault>,
    bucket: Bytes,
    key: Bytes,
    id: u128,
) -> Result<Reply, PlanFault>
    ensures { result ≡ ended end (λ done. Started bucket key id) }
{
    match end {
        Ok(()) => Ok(Reply::OfUploads(UploadsReply::Started(StartedUpload { bucket, key, id }))),
        Err(fault) => Err(fault),
    }
}
