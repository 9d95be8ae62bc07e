//! The plan of CompleteUpload.
ghost use Rattle.std.specs.Prelude.{◌≡◌, ◌<◌, ◌+◌, ◌^◌, ℕ, false, true, List, length, Some, IfOk};
ghost use Rattle.s3_names.specs.Id.{id_digits};
ghost use Rattle.s3_machine.specs.Uploads.{rises};
ghost use Rattle.s3_machine.specs.declared.items.PartItem.{PartItem};
ghost use Rattle.s3_machine.specs.declared.only_if.OnlyIf.TheVariants.{Always};
ghost use Rattle.s3_machine.specs.declared.operation.Label.{Label};
ghost use Rattle.s3_machine.specs.declared.operation.Listed.{Listed};
ghost use Rattle.s3_machine.specs.declared.operation.Op.TheVariants.{OnUploads};
ghost use Rattle.s3_machine.specs.declared.operation.UploadsOp.TheVariants.{CompleteUpload};
ghost use Rattle.s3_machine.specs.Ops as ops;
ghost use Rattle.s3_machine.specs.Replies as replies;
ghost use Rattle.swift_calls.specs.History.{present};
ghost use Rattle.upload_records.specs.Native.{s3_state, sealed_sub_manifests, sub_manifests};
ghost use Rattle.account_calls.specs.Answers.{completion_calls, condition_calls, named_by, pages};
ghost use Rattle.account_calls.specs.Calls.{always, by_account, Any, Given, GivenOf};
ghost use Rattle.account_calls.specs.Lent.{Stays};
ghost use Rattle.account_calls.specs.Refusals.{Stops, Unrefused};
ghost use Rattle.account_calls.specs.Shows.{in_upload};
ghost use Rattle.account_calls.specs.Plan.{Plans};
ghost use Rattle.account_calls.specs.Puts.{EnsuresIfDone};
ghost use Rattle.plan_uploads.specs.Completing.{Ascend, BreaksOff, HasParts, IsOpenAs, MayComplete, ShownByParts, StandsAs, StandsCompleted, ToldOrStands, answered_by, by_number, completion_of, end_in, has_small_chosen_part, known_in, listed_parts};
ghost use Rattle.plan_uploads.specs.Replies.{AnswersUpload};

use crate::chosen::{chosen_parts, has_small_chosen_part};
use crate::completed::{Opened, ToComplete, find_upload_to_complete};
use crate::seal::seal_and_finish;
use account_calls::{PlanFault, Settled, condition_refusal};
use gate_base::{Bytes, Copying, List, Memory, drop};
use s3_machine::{
    Code, CompletedObject, Label, MOST_PARTS, PartItem, Reply, UploadCompletion, UploadsReply,
    rises, upload_etag,
};
use s3_names::{BucketName, Key};
use std::alloc::Global;
use swift_calls::Swift;
use upload_calls::list_parts;
use upload_texts::{Sealed, SealedPart};

/// How a completion ended: what it is answered, and the fault by which its calls broke off from the one that seals it on, if they
/// did. Then it may be sealed still.
#[derive(Debug, Drop)]
pub(crate) struct Completing {
    pub(crate) end: Result<Reply, PlanFault>,
    pub(crate) unfinished: Option<PlanFault>,
}

/// CompleteUpload: HEAD of the bucket's container, GET of the upload's record, the names of its segments page by page, HEAD of the
/// object's file where there is a condition, then PUT of the completion into the gateway's own container, which commits, and the calls behind it, which put its sub-manifests, the
/// object and the record and delete what was sealed. Over an observable consistent account at most six calls more than there are
/// pages of the upload's segments, one for each sub-manifest, and one for a condition. A completion that is kept is answered again after the first two. The faults are those of the calls up to
/// the one that commits; that the store failed behind it is no failure of the operation. One that was done otherwise stands then, over
/// every observable store, consistent or not: its object and its record, or else what is sealed. That it may be sealed still is
/// told with the fault by which the calls broke off.
pub(crate) fn complete_upload<W: Swift>(
    state: &mut Settled<'_, W>,
    done: &UploadCompletion,
    label: &Label,
) -> Result<Completing, PlanFault>
    ensures stays { Stays state.old state.new }
    ensures plans { Plans (by_account (completion_calls
        (6 + condition_calls done.now.only_if + pages
        (named_by (present (W.history state.old.store.now)) done.now.bucket done.now.id)
        + sub_manifests (length done.now.list)) (s3_state (present (W.history state.old.store.now)))
        done.now.bucket done.now.key done.now.id done.now.list))
        (W.history state.old.store.now) (W.history state.new.store.now) state.old.settings.now
        (Given Any) (OnUploads (CompleteUpload done.now)) label.now
        (known_in result) (end_in result) }
    ensures unsure { BreaksOff (W.history state.old.store.now) (W.history state.new.store.now) result }
    ensures stands { EnsuresIfDone (W.history state.new.store.now)
        (ToldOrStands (known_in result) done.now.bucket done.now.key done.now.list label.now.moment
        (W.history state.old.store.now) (W.history state.new.store.now)) (end_in result) }
    ensures stops { Stops in_upload 0 (W.history state.old.store.now)
        (W.history state.new.store.now) (end_in result) }
    ensures kind { AnswersUpload (end_in result) }
{
    done.bucket.fits();
    match find_upload_to_complete(state, done)? {
        ToComplete::NoBucket => Ok(end_complete_upload_refused(Code::NoSuchBucket)),
        ToComplete::NoUpload => Ok(end_complete_upload_refused(Code::NoSuchUpload)),
        ToComplete::Again(etag) => Ok(end_complete_upload_again(&done.bucket, &done.key, etag)?),
        ToComplete::Open(opened) => complete_open(state, done, opened, label),
    }
}

/// A completion that is refused, or was done before: nothing is sealed.
fn end_complete_upload_unsealed(reply: Reply) -> Completing
    ensures { result ≡ answered_by reply }
{
    Completing {
        end: Ok(reply),
        unfinished: None,
    }
}

fn end_complete_upload_refused(code: Code) -> Completing
    ensures { result ≡ answered_by (replies.Refused code) }
{
    end_complete_upload_unsealed(Reply::Refused(code))
}

fn end_complete_upload_again(
    bucket: &BucketName,
    key: &Key,
    etag: Bytes,
) -> Result<Completing, Memory>
    ensures { IfOk result
        (λ completing. completing ≡ answered_by (replies.Completed bucket.now key.now etag)) }
{
    let bucket = bucket.copy_text()?;
    let key = key.copy_text()?;
    Ok(end_complete_upload_unsealed(completed_of(bucket, key, etag)))
}

/// The rest of CompleteUpload, of an upload that is open.
fn complete_open<W: Swift>(
    state: &mut Settled<'_, W>,
    done: &UploadCompletion,
    opened: Opened,
    label: &Label,
) -> Result<Completing, PlanFault>
    ensures stays { Stays state.old state.new }
    ensures plans { (text : List ℕ)
        → Plans (by_account (4 + condition_calls done.now.only_if + pages
        (named_by (present (W.history state.old.store.now)) done.now.bucket (id_digits opened.id))
        + sub_manifests (length done.now.list)))
        (W.history state.old.store.now) (W.history state.new.store.now) state.old.settings.now
        (GivenOf (IsOpenAs done.now.bucket done.now.key text opened))
        (ops.CompleteUpload done.now.bucket done.now.key text done.now.list done.now.only_if)
        label.now (known_in result)
        (end_in result) }
    ensures unsure { BreaksOff (W.history state.old.store.now) (W.history state.new.store.now) result }
    ensures stands { EnsuresIfDone (W.history state.new.store.now)
        (StandsCompleted (known_in result) done.now.bucket done.now.key done.now.list
        label.now.moment)
        (end_in result) }
    ensures stops { Stops in_upload 2 (W.history state.old.store.now)
        (W.history state.new.store.now) (end_in result) }
    ensures kind { AnswersUpload (end_in result) }
{
    done.bucket.fits();
    if !rises(done.list.get().as_slice()) {
        return Ok(end_complete_upload_refused(Code::InvalidPartOrder));
    }
    let (parts, _) = list_parts(state, &done.bucket, opened.id, 0, MOST_PARTS as u32)?;
    complete_by(state, done, opened, parts.as_slice(), label)
}

/// The rest of CompleteUpload, of an upload whose parts are these.
fn complete_by<W: Swift>(
    state: &mut Settled<'_, W>,
    done: &UploadCompletion,
    opened: Opened,
    parts: &[PartItem],
    label: &Label,
) -> Result<Completing, PlanFault>
    requires ascends { rises done.now.list ≡ true }
    ensures stays { Stays state.old state.new }
    ensures plans { (text : List ℕ)
        → Plans (always (4 + condition_calls done.now.only_if + sub_manifests
        (length done.now.list))) (W.history state.old.store.now)
        (W.history state.new.store.now)
        state.old.settings.now (GivenOf (HasParts done.now.bucket done.now.key text opened
        parts.now))
        (ops.CompleteUpload done.now.bucket done.now.key text done.now.list done.now.only_if)
        label.now (known_in result)
        (end_in result) }
    ensures unsure { BreaksOff (W.history state.old.store.now) (W.history state.new.store.now) result }
    ensures stands { EnsuresIfDone (W.history state.new.store.now)
        (StandsCompleted (known_in result) done.now.bucket done.now.key done.now.list
        label.now.moment)
        (end_in result) }
    ensures shown { ShownByParts (end_in result) }
    ensures kind { AnswersUpload (end_in result) }
{
    let alloc = state.alloc;
    done.bucket.fits();
    let Some(chosen) = chosen_parts(alloc, parts, done.list.get().as_slice())? else {
        return Ok(end_complete_upload_refused(Code::InvalidPart));
    };
    complete_chosen(state, done, opened, chosen, label)
}

/// The rest of CompleteUpload, of an upload that has the parts of the list.
fn complete_chosen<W: Swift>(
    state: &mut Settled<'_, W>,
    done: &UploadCompletion,
    opened: Opened,
    chosen: List<SealedPart>,
    label: &Label,
) -> Result<Completing, PlanFault>
    requires ascends { rises done.now.list ≡ true }
    requires many { length chosen ≡ length done.now.list }
    ensures stays { Stays state.old state.new }
    ensures plans { (text : List ℕ) (parts : List PartItem)
        → (Ascend parts → listed_parts (by_number parts) done.now.list ≡ Some chosen)
        → Plans (always (4 + condition_calls done.now.only_if + sub_manifests
        (length done.now.list))) (W.history state.old.store.now)
        (W.history state.new.store.now)
        state.old.settings.now (GivenOf (HasParts done.now.bucket done.now.key text opened parts))
        (ops.CompleteUpload done.now.bucket done.now.key text done.now.list done.now.only_if)
        label.now (known_in result)
        (end_in result) }
    ensures unsure { BreaksOff (W.history state.old.store.now) (W.history state.new.store.now) result }
    ensures stands { EnsuresIfDone (W.history state.new.store.now)
        (StandsCompleted (known_in result) done.now.bucket done.now.key done.now.list
        label.now.moment)
        (end_in result) }
    ensures shown { ShownByParts (end_in result) }
    ensures kind { AnswersUpload (end_in result) }
{
    done.bucket.fits();
    if has_small_chosen_part(state.settings().least_part, chosen.as_slice()) {
        return Ok(end_complete_upload_refused(Code::EntityTooSmall));
    }
    complete_if(state, done, opened, chosen, label)
}

/// The rest of CompleteUpload, of an upload whose parts are large enough: what its condition asks is the last that may refuse it.
fn complete_if<W: Swift>(
    state: &mut Settled<'_, W>,
    done: &UploadCompletion,
    opened: Opened,
    chosen: List<SealedPart>,
    label: &Label,
) -> Result<Completing, PlanFault>
    requires ascends { rises done.now.list ≡ true }
    requires many { length chosen ≡ length done.now.list }
    requires large { has_small_chosen_part state.old.settings.now.least_part chosen ≡ false }
    ensures stays { Stays state.old state.new }
    ensures plans { (text : List ℕ) (parts : List PartItem)
        → (Ascend parts → listed_parts (by_number parts) done.now.list ≡ Some chosen)
        → Plans (always (4 + condition_calls done.now.only_if + sub_manifests
        (length done.now.list)))
        (W.history state.old.store.now) (W.history state.new.store.now)
        state.old.settings.now (GivenOf (HasParts done.now.bucket done.now.key text opened parts))
        (ops.CompleteUpload done.now.bucket done.now.key text done.now.list done.now.only_if)
        label.now (known_in result)
        (end_in result) }
    ensures unsure { BreaksOff (W.history state.old.store.now) (W.history state.new.store.now) result }
    ensures stands { EnsuresIfDone (W.history state.new.store.now)
        (StandsCompleted (known_in result) done.now.bucket done.now.key done.now.list
        label.now.moment)
        (end_in result) }
    ensures shown { ShownByParts (end_in result) }
    ensures kind { AnswersUpload (end_in result) }
{
    done.bucket.fits();
    let refused = condition_refusal(state, &done.bucket, &done.key, &done.only_if)?;
    let Some(code) = refused else {
        return complete_met(state, done, opened, chosen, label);
    };
    Ok(end_complete_upload_refused(code))
}

/// The rest of CompleteUpload that nothing refuses any more: it is the completion without a condition.
fn complete_met<W: Swift>(
    state: &mut Settled<'_, W>,
    done: &UploadCompletion,
    opened: Opened,
    chosen: List<SealedPart>,
    label: &Label,
) -> Result<Completing, PlanFault>
    requires ascends { rises done.now.list ≡ true }
    requires many { length chosen ≡ length done.now.list }
    requires large { has_small_chosen_part state.old.settings.now.least_part chosen ≡ false }
    ensures stays { Stays state.old state.new }
    ensures plans { (text : List ℕ) (parts : List PartItem)
        → (Ascend parts → listed_parts (by_number parts) done.now.list ≡ Some chosen)
        → Plans (always (4 + sub_manifests (length done.now.list))) (W.history state.old.store.now)
        (W.history state.new.store.now)
        state.old.settings.now (GivenOf (HasParts done.now.bucket done.now.key text opened parts))
        (ops.CompleteUpload done.now.bucket done.now.key text done.now.list Always) label.now
        (known_in result)
        (end_in result) }
    ensures unsure { BreaksOff (W.history state.old.store.now) (W.history state.new.store.now) result }
    ensures stands { EnsuresIfDone (W.history state.new.store.now)
        (StandsCompleted (known_in result) done.now.bucket done.now.key done.now.list
        label.now.moment)
        (end_in result) }
    ensures shown { ShownByParts (end_in result) }
    ensures kind { AnswersUpload (end_in result) }
{
    let alloc = state.alloc;
    done.bucket.fits();
    done.key.fits();
    done.list.get();
    let sealed = completion_of_chosen_parts(alloc, done, opened, chosen, label)?;
    let completing = complete_sealed(state, &sealed);
    drop(sealed);
    completing
}

/// The completion of an upload by parts that are there.
fn completion_of_chosen_parts(
    alloc: Global,
    done: &UploadCompletion,
    opened: Opened,
    chosen: List<SealedPart>,
    label: &Label,
) -> Result<Sealed, Memory>
    ensures sealed { IfOk result
        (λ sealed. sealed ≡ completion_of done.now.bucket done.now.key opened chosen done.now.list
        label.now.moment) }
    ensures fits { IfOk result (λ sealed. sealed.id < 2 ^ 128) }
{
    let etag = upload_etag(alloc, done.list.get().as_slice())?;
    let bucket = done.bucket.copy_text()?;
    let key = done.key.copy_text()?;
    Ok(Sealed {
        bucket,
        key,
        id: opened.id,
        content_type: opened.content_type,
        meta: opened.meta,
        list: chosen,
        etag,
        started: opened.started,
        moment: label.moment,
    })
}

/// The rest of CompleteUpload, by a completion that may be sealed. One that has no text comes of no consistent account.
fn complete_sealed<W: Swift>(
    state: &mut Settled<'_, W>,
    sealed: &Sealed,
) -> Result<Completing, PlanFault>
    ensures stays { Stays state.old state.new }
    ensures plans { (text : List ℕ) (list : List Listed) (label : Label)
        → Plans (always (4 + sealed_sub_manifests sealed.now)) (W.history state.old.store.now)
        (W.history state.new.store.now)
        state.old.settings.now
        (GivenOf (MayComplete state.old.settings.now text list label sealed.now))
        (ops.CompleteUpload sealed.now.bucket sealed.now.key text list Always) label
        (known_in result)
        (end_in result) }
    ensures unsure { BreaksOff (W.history state.old.store.now) (W.history state.new.store.now) result }
    ensures stands { EnsuresIfDone (W.history state.new.store.now)
        (StandsAs (known_in result) sealed.now) (end_in result) }
    ensures unrefused { Unrefused (end_in result) }
    ensures kind { AnswersUpload (end_in result) }
{
    if !sealed.has_text() {
        return Err(PlanFault::Inconsistent);
    }
    let reply = completed_reply(sealed)?;
    Ok(seal_and_finish(state, sealed, reply))
}

fn completed_reply(sealed: &Sealed) -> Result<Reply, Memory>
    ensures { IfOk result
        (λ reply. reply ≡ replies.Completed sealed.now.bucket sealed.now.key sealed.now.etag) }
{
    let bucket = sealed.bucket.copy()?;
    let key = sealed.key.copy()?;
    let etag = sealed.etag.copy()?;
    Ok(completed_of(bucket, key, etag))
}

fn completed_of(bucket: Bytes, key: Bytes, etag: Bytes) -> Reply
    ensures { result ≡ replies.Completed bucket key etag }
{
    Reply::OfUploads(UploadsReply::Completed(CompletedObject { bucket, key, etag }))
}
