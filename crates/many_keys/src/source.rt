//! The source of a copy, and what the copy is put with.
ghost use Rattle.std.specs.Prelude.{◌≡◌, ◌≤◌, true, length, None, Some, IfOk, IfSome};
ghost use Rattle.s3_machine.specs.Proper.{IsProperDescribed};
ghost use Rattle.upload_records.specs.Native.{IsSettled};
ghost use Rattle.account_calls.specs.Calls.{always, Asks, Given, Tells, TellsBytes, TellsObject};
ghost use Rattle.account_calls.specs.Interpret.{IsShownHead};
ghost use Rattle.account_calls.specs.Lent.{Stays};
ghost use Rattle.account_calls.specs.Told.{LeavesAccount};
ghost use Rattle.s3_machine.specs.Limits.{is_content_type, is_proper_meta};
ghost use Rattle.many_keys.specs.Copies.{IsProperHead, OfStored, body_due, content_of, is_head_to_copy, is_body_to_copy, proper_due};

use account_calls::{PlanFault, Settled, get_object, head_object};
use gate_base::Bytes;
use s3_machine::{
    Body, Described, MOST_BODY_BYTES, ObjectHead, Proper, is_content_type, is_proper_meta,
};
use s3_names::{BucketName, Key, Meta};
use swift_calls::Swift;
use swift_marks::is_etag;
use upload_records::law_object_proper;

/// The head of an object that is to be copied ([`account_calls::head_object`]), by one call. A head with which no object can be put is
/// Inconsistent; the other faults are those of the call.
pub(crate) fn head_source<W: Swift>(
    state: &mut Settled<'_, W>,
    bucket: &BucketName,
    key: &Key,
) -> Result<Option<ObjectHead>, PlanFault>
    ensures stays { Stays state.old state.new }
    ensures asks { Asks (always 1) (W.history state.old.store.now) (W.history state.new.store.now)
        IsSettled (Tells (TellsObject bucket.now key.now)) result }
    ensures proper { IfOk result (λ told. IfSome told IsProperHead) }
    ensures leaves { LeavesAccount (W.history state.old.store.now) (W.history state.new.store.now) }
{
    bucket.fits();
    law_object_proper();
    let told = head_object(state, bucket, key)?;
    proper_head_to_copy(told)
}

/// What HEAD of a source comes to, by what it told.
fn proper_head_to_copy(told: Option<ObjectHead>) -> Result<Option<ObjectHead>, PlanFault>
    requires shown { IsShownHead told }
    ensures due { result ≡ proper_due told }
    ensures proper { IfOk result (λ told. IfSome told IsProperHead) }
{
    match told {
        Some(head) => {
            if is_head_to_copy(&head) {
                Ok(Some(head))
            } else {
                Err(PlanFault::Inconsistent)
            }
        }
        None => Ok(None),
    }
}

fn is_head_to_copy(head: &ObjectHead) -> bool
    ensures { result ≡ is_head_to_copy head.now }
{
    is_content_type(head.content_type.as_slice())
        && is_proper_meta(&head.meta)
        && is_etag(head.etag.as_slice())
}

/// The bytes of an object with this head, which was put in one piece ([`account_calls::get_object`]), by one call. They are hashed:
/// bytes of another size or with another ETag than the head has are Inconsistent, and so is an object that is gone. The other
/// faults are those of the call.
pub(crate) fn get_source_to_copy<W: Swift>(
    state: &mut Settled<'_, W>,
    bucket: BucketName,
    key: Key,
    head: &ObjectHead,
) -> Result<Bytes, PlanFault>
    requires plain { length head.now.etag ≤ 32 }
    ensures stays { Stays state.old state.new }
    ensures asks { Asks (always 1) (W.history state.old.store.now) (W.history state.new.store.now)
        (Given (λ s. TellsObject bucket key s (Some head.now)))
        (Tells (λ s body. TellsBytes bucket key None s (Some body))) result }
    ensures body { IfOk result (λ body. is_body_to_copy head.now body ≡ true) }
    ensures unchanged { OfStored (W.history state.old.store.now) bucket key head.now.etag head.now.size
        result }
{
    bucket.fits();
    law_object_proper();
    let told = get_object(state, bucket, key, head.etag.as_slice(), head.size, None)?;
    body_to_copy(head, told)
}

/// What GET of a source with this head comes to, by what it told.
fn body_to_copy(head: &ObjectHead, told: Option<Bytes>) -> Result<Bytes, PlanFault>
    ensures due { result ≡ body_due head.now told }
    ensures body { IfOk result (λ body. is_body_to_copy head.now body ≡ true) }
{
    let Some(bytes) = told else {
        return Err(PlanFault::Inconsistent);
    };
    let body = Body::new(bytes);
    if !is_body_to_copy(head, &body) {
        return Err(PlanFault::Inconsistent);
    }
    Ok(body.into_bytes())
}

fn is_body_to_copy(head: &ObjectHead, body: &Body) -> bool
    ensures { result ≡ is_body_to_copy head.now body.now }
{
    let size = body.as_slice().len() as u64;
    size == head.size && size <= MOST_BODY_BYTES && head.etag.as_slice() == body.etag().as_slice()
}

/// What a copy is put with: what is given in place of the source's content type and metadata, or these. They are moved, and nothing
/// is copied.
pub(crate) fn content_of(
    replaced: Option<Proper<Described>>,
    content_type: Bytes,
    meta: Meta,
) -> Described
    requires typed { is_content_type content_type ≡ true }
    requires described { is_proper_meta meta ≡ true }
    ensures content { result ≡ content_of replaced content_type meta }
    ensures proper { IsProperDescribed result }
{
    match replaced {
        Some(replaced) => replaced.into_value(),
        None => Described { content_type, meta },
    }
}
