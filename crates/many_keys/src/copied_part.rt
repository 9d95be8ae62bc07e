//! The plan of CopyPart.
ghost use Rattle.std.specs.Prelude.{◌≡◌, ◌<◌, ◌≤◌, ℕ, true, List, length, Option, Some, IfSome};
ghost use Rattle.s3_machine.specs.Conditions.{no_conditions};
ghost use Rattle.s3_machine.specs.ETag.{body_etag};
ghost use Rattle.s3_machine.specs.Limits.{body_limit};
ghost use Rattle.s3_machine.specs.Proper.{IsProperCopyRange};
ghost use Rattle.s3_machine.specs.Ops as ops;
ghost use Rattle.s3_machine.specs.declared.operation.Op.TheVariants.{OnCopies};
ghost use Rattle.s3_machine.specs.declared.operation.CopiesOp.TheVariants.{CopyPart};
ghost use Rattle.s3_machine.specs.Replies.{Copied};
ghost use Rattle.account_calls.specs.Calls.{always, Any, Given, GivenOf};
ghost use Rattle.account_calls.specs.Interpret.{IsShownHead};
ghost use Rattle.account_calls.specs.Lent.{Stays};
ghost use Rattle.account_calls.specs.declared.state.Known.TheVariants as known;
ghost use Rattle.account_calls.specs.Plan.{ended, Plans};
ghost use Rattle.account_calls.specs.Refusals.{Stops, Unrefused};
ghost use Rattle.account_calls.specs.Shows.{in_upload_with_source};
ghost use Rattle.account_calls.specs.Puts.{EnsuresIfDone, StandsIn};
ghost use Rattle.many_keys.specs.CopiedPart.{IsOpenFor, IsWanted, MayCopyPart, MayCopyPartOf, MayPutPart, StandsCopiedPart, StandsPartCopy, part_copied, part_put};
ghost use Rattle.many_keys.specs.Replies.{AnswersCopy};
ghost use Rattle.many_keys.specs.Copies.{OfStored};

use account_calls::{PlanFault, Settled, get_object, head_bucket, head_object};
use gate_base::Bytes;
use s3_machine::{
    Body, Code, Conditions, CopiedBytes, CopyRange, Label, ObjectHead, PartCopy, Reply,
    copied_span, has_last, may_be_copied,
};
use s3_names::{BucketName, Key};
use swift_calls::Swift;
use upload_calls::{Found, PartPlace, find_upload, put_part};

/// A copy of an object into a part of an open upload: of all its bytes, or from the number of a first to that of a last.
#[derive(Drop)]
pub(crate) struct CopyIntoPart {
    pub(crate) into: PartPlace,
    pub(crate) from_bucket: BucketName,
    pub(crate) from_key: Key,
    pub(crate) range: Option<CopyRange>,
}

/// CopyPart (UploadPartCopy): HEAD of the bucket's container, GET of the upload's record, HEAD of the container of the source's
/// bucket, HEAD of the source's file, GET of its bytes unless no byte is wanted, and PUT of the part's file, which commits. At
/// most six calls. The text is that of the id, as it was given; a range has the number of its first byte and that of its last.
/// NoSuchBucket, NoSuchUpload, NoSuchBucket of the source, NoSuchKey, PreconditionFailed where a GET under the conditions wouldn't
/// give the source's bytes, InvalidRange where the source doesn't have the last byte of the range, and EntityTooLarge where more
/// bytes are wanted than a body may have in this run come in this order, and the state stays. The reply is made before the PUT, so
/// that no memory is needed after it. The faults are those of the calls; Inconsistent also where GET gives another number of bytes
/// than was asked for.
pub(crate) fn plan_upload_part_copy<W: Swift>(
    state: &mut Settled<'_, W>,
    copy: PartCopy,
    label: &Label,
) -> Result<Reply, PlanFault>
    ensures stays { Stays state.old state.new }
    ensures plans { Plans (always 6) (W.history state.old.store.now) (W.history state.new.store.now)
        state.old.settings.now (Given Any) (OnCopies (CopyPart copy)) label.now known.Settled
        result }
    ensures stands { EnsuresIfDone (W.history state.new.store.now)
        (StandsPartCopy copy.bucket copy.id copy.number label.now.moment) result }
    ensures stops { Stops in_upload_with_source 0 (W.history state.old.store.now)
        (W.history state.new.store.now) result }
    ensures kind { AnswersCopy result }
{
    copy.bucket.fits();
    match find_upload(state, &copy.bucket, &copy.key, &copy.id)? {
        Found::NoBucket => Ok(Reply::Refused(Code::NoSuchBucket)),
        Found::NoUpload => Ok(Reply::Refused(Code::NoSuchUpload)),
        Found::Open(id) => {
            let into = PartPlace {
                bucket: copy.bucket,
                id,
                number: copy.number,
                label: *label,
            };
            let within = CopyIntoPart {
                into,
                from_bucket: copy.from_bucket,
                from_key: copy.from_key,
                range: copy.range,
            };
            plan_part_copy_into_upload(state, within, &copy.conditions)
        }
    }
}

/// The rest of CopyPart, of an upload that is open.
fn plan_part_copy_into_upload<W: Swift>(
    state: &mut Settled<'_, W>,
    copy: CopyIntoPart,
    conditions: &Conditions,
) -> Result<Reply, PlanFault>
    ensures stays { Stays state.old state.new }
    ensures plans { (key text : List ℕ)
        → Plans (always 4) (W.history state.old.store.now) (W.history state.new.store.now)
        state.old.settings.now (GivenOf (IsOpenFor copy.into key text))
        (part_copied copy key text conditions.now) copy.into.label known.Settled result }
    ensures stands { EnsuresIfDone
        (W.history state.new.store.now) (StandsCopiedPart copy.into) result }
    ensures stops { Stops in_upload_with_source 2 (W.history state.old.store.now)
        (W.history state.new.store.now) result }
    ensures kind { AnswersCopy result }
{
    copy.into.bucket.fits();
    let Some(_) = head_bucket(state, &copy.from_bucket)? else {
        return Ok(Reply::Refused(Code::NoSuchBucket));
    };
    plan_part_copy_from_bucket(state, copy, conditions)
}

/// The rest of CopyPart, of a source whose bucket is there.
fn plan_part_copy_from_bucket<W: Swift>(
    state: &mut Settled<'_, W>,
    copy: CopyIntoPart,
    conditions: &Conditions,
) -> Result<Reply, PlanFault>
    ensures stays { Stays state.old state.new }
    ensures plans { (key text : List ℕ)
        → Plans (always 3) (W.history state.old.store.now) (W.history state.new.store.now)
        state.old.settings.now (GivenOf (MayCopyPart copy key text))
        (part_copied copy key text conditions.now) copy.into.label known.Settled result }
    ensures stands { EnsuresIfDone
        (W.history state.new.store.now) (StandsCopiedPart copy.into) result }
    ensures stops { Stops in_upload_with_source 3 (W.history state.old.store.now)
        (W.history state.new.store.now) result }
    ensures kind { AnswersCopy result }
{
    copy.into.bucket.fits();
    let Some(head) = head_object(state, &copy.from_bucket, &copy.from_key)? else {
        return Ok(Reply::Refused(Code::NoSuchKey));
    };
    plan_part_copy_under_conditions(state, copy, conditions, head)
}

/// The rest of CopyPart, of a source that is there with this head: PreconditionFailed, where a GET under the conditions wouldn't
/// give its bytes. The copy of any other is the copy without conditions.
fn plan_part_copy_under_conditions<W: Swift>(
    state: &mut Settled<'_, W>,
    copy: CopyIntoPart,
    conditions: &Conditions,
    head: ObjectHead,
) -> Result<Reply, PlanFault>
    requires shown { IsShownHead (Some head) }
    ensures stays { Stays state.old state.new }
    ensures plans { (key text : List ℕ)
        → Plans (always 2) (W.history state.old.store.now) (W.history state.new.store.now)
        state.old.settings.now (GivenOf (MayCopyPartOf copy key text head))
        (part_copied copy key text conditions.now) copy.into.label known.Settled result }
    ensures stands { EnsuresIfDone
        (W.history state.new.store.now) (StandsCopiedPart copy.into) result }
    ensures stops { Stops in_upload_with_source 4 (W.history state.old.store.now)
        (W.history state.new.store.now) result }
    ensures kind { AnswersCopy result }
{
    copy.into.bucket.fits();
    if !may_be_copied(conditions, &head) {
        return Ok(Reply::Refused(Code::PreconditionFailed));
    }
    plan_part_copy_of_source(state, copy, head)
}

/// The rest of CopyPart without conditions, of a source that is there with this head: whether its bytes may be copied.
fn plan_part_copy_of_source<W: Swift>(
    state: &mut Settled<'_, W>,
    copy: CopyIntoPart,
    head: ObjectHead,
) -> Result<Reply, PlanFault>
    requires shown { IsShownHead (Some head) }
    ensures stays { Stays state.old state.new }
    ensures plans { (key text : List ℕ)
        → Plans (always 2) (W.history state.old.store.now) (W.history state.new.store.now)
        state.old.settings.now (GivenOf (MayCopyPartOf copy key text head))
        (part_copied copy key text no_conditions) copy.into.label known.Settled result }
    ensures stands { EnsuresIfDone
        (W.history state.new.store.now) (StandsCopiedPart copy.into) result }
    ensures stops { Stops in_upload_with_source 4 (W.history state.old.store.now)
        (W.history state.new.store.now) result }
    ensures kind { AnswersCopy result }
{
    copy.into.bucket.fits();
    if !has_last(&copy.range, head.size) {
        return Ok(Reply::Refused(Code::InvalidRange(None)));
    }
    let wanted = copied_span(&copy.range, head.size).length;
    let limit = state.settings().body_limit();
    if wanted > limit {
        return Ok(Reply::Refused(Code::EntityTooLarge));
    }
    plan_part_copy_of_wanted(state, copy, head, wanted)
}

/// The rest of CopyPart, of as many bytes as are wanted of a source with this head. None are asked for where none is wanted.
fn plan_part_copy_of_wanted<W: Swift>(
    state: &mut Settled<'_, W>,
    copy: CopyIntoPart,
    head: ObjectHead,
    wanted: u64,
) -> Result<Reply, PlanFault>
    requires wanted { IsWanted (body_limit state.old.settings.now) copy head wanted }
    ensures stays { Stays state.old state.new }
    ensures plans { (key text : List ℕ)
        → Plans (always 2) (W.history state.old.store.now) (W.history state.new.store.now)
        state.old.settings.now (GivenOf (MayCopyPartOf copy key text head))
        (part_copied copy key text no_conditions) copy.into.label known.Settled result }
    ensures stands { EnsuresIfDone
        (W.history state.new.store.now) (StandsCopiedPart copy.into) result }
    ensures unrefused { Unrefused result }
    ensures kind { AnswersCopy result }
{
    numbers_of(&copy.range);
    let alloc = state.alloc;
    copy.into.bucket.fits();
    if wanted == 0 {
        return plan_put_part_copy(state, copy.into, Bytes::new(alloc));
    }
    plan_part_copy_of_bytes(state, copy, head, wanted)
}

/// The rest of CopyPart, of as many bytes as are wanted of a source with this head.
fn plan_part_copy_of_bytes<W: Swift>(
    state: &mut Settled<'_, W>,
    copy: CopyIntoPart,
    head: ObjectHead,
    wanted: u64,
) -> Result<Reply, PlanFault>
    requires wanted { IsWanted (body_limit state.old.settings.now) copy head wanted }
    ensures stays { Stays state.old state.new }
    ensures plans { (key text : List ℕ)
        → Plans (always 2) (W.history state.old.store.now) (W.history state.new.store.now)
        state.old.settings.now (GivenOf (MayCopyPartOf copy key text head))
        (part_copied copy key text no_conditions) copy.into.label known.Settled result }
    ensures stands { EnsuresIfDone
        (W.history state.new.store.now) (StandsCopiedPart copy.into) result }
    ensures unrefused { Unrefused result }
    ensures kind { AnswersCopy result }
    ensures unchanged { OfStored (W.history state.old.store.now) copy.from_bucket copy.from_key
        head.etag head.size
        result }
{
    copy.into.bucket.fits();
    let range = numbers_of(&copy.range);
    let etag = head.etag.as_slice();
    let told = get_object(
        state,
        copy.from_bucket,
        copy.from_key,
        etag,
        head.size,
        range,
    )?;
    let Some(body) = told else {
        return Err(PlanFault::Inconsistent);
    };
    if body.len() as u64 != wanted {
        return Err(PlanFault::Inconsistent);
    }
    plan_put_part_copy(state, copy.into, body)
}

/// The numbers of the first and of the last byte of a range, if there is one.
fn numbers_of(range: &Option<CopyRange>) -> Option<(u64, u64)>
    ensures numbers { result ≡ range.now }
    ensures ranges { IfSome result IsProperCopyRange }
{
    match range {
        Some(range) => Some(range.get()),
        None => None,
    }
}

/// The rest of CopyPart, of these bytes.
fn plan_put_part_copy<W: Swift>(
    state: &mut Settled<'_, W>,
    into: PartPlace,
    bytes: Bytes,
) -> Result<Reply, PlanFault>
    requires sized { length bytes ≤ body_limit state.old.settings.now }
    ensures stays { Stays state.old state.new }
    ensures plans { (key text from_bucket from_key : List ℕ) (range : Option (ℕ × ℕ))
        → Plans (always 1) (W.history state.old.store.now) (W.history state.new.store.now)
        state.old.settings.now
        (GivenOf (MayPutPart into key text from_bucket from_key range bytes))
        (ops.CopyPart into.bucket key text into.number from_bucket from_key range no_conditions)
        into.label
        known.Settled result }
    ensures stands { EnsuresIfDone (W.history state.new.store.now)
        (λ tree. StandsIn tree (part_put into bytes)) result }
    ensures unrefused { Unrefused result }
    ensures kind { AnswersCopy result }
{
    let body = Body::new(bytes);
    let etag = body.etag();
    plan_part_copy_with_etag(state, into, body.into_bytes(), &etag)
}

/// The PUT of CopyPart, of bytes that have this ETag.
fn plan_part_copy_with_etag<W: Swift>(
    state: &mut Settled<'_, W>,
    into: PartPlace,
    bytes: Bytes,
    etag: &[u8; 32],
) -> Result<Reply, PlanFault>
    requires sized { length bytes ≤ body_limit state.old.settings.now }
    requires etag { etag.now ≡ body_etag bytes }
    ensures stays { Stays state.old state.new }
    ensures plans { (key text from_bucket from_key : List ℕ) (range : Option (ℕ × ℕ))
        → Plans (always 1) (W.history state.old.store.now) (W.history state.new.store.now)
        state.old.settings.now
        (GivenOf (MayPutPart into key text from_bucket from_key range bytes))
        (ops.CopyPart into.bucket key text into.number from_bucket from_key range no_conditions)
        into.label
        known.Settled result }
    ensures stands { EnsuresIfDone (W.history state.new.store.now)
        (λ tree. StandsIn tree (part_put into bytes)) result }
    ensures unrefused { Unrefused result }
    ensures kind { AnswersCopy result }
{
    let alloc = state.alloc;
    into.bucket.fits();
    let text = Bytes::from_slice(alloc, etag)?;
    let moment = into.label.moment;
    end_upload_part_copy_plan(put_part(state, &into, bytes, etag), text, moment)
}

/// The end of CopyPart after its last call.
fn end_upload_part_copy_plan(
    end: Result<(), PlanFault>,
    etag: Bytes,
    modified: u64,
) -> Result<Reply, PlanFault>
    ensures { result ≡ ended end (λ done. Copied true etag modified) }
{
    match end {
        Ok(()) => Ok(Reply::Copied(CopiedBytes {
            part: true,
            etag,
            modified,
        })),
        Err(fault) => Err(fault),
    }
}
