//! What an answer of the store comes to.
ghost use Rattle.std.specs.Prelude.{◌≡◌, ◌≢◌, Err, IfOk};
ghost use Rattle.account_calls.specs.Interpret.{Gives, object_head_agrees_with_tag, object_head_agrees_parts, object_head_agrees_whole, bucket_due, bytes_due, dropped_due, gone_due, head_due, head_from, known, IsShownHead, listed_due, made_due, set_due, stored_due};
ghost use Rattle.swift_calls.specs.declared.calls.SwiftReply.TheVariants as answer;
ghost use Rattle.account_calls.specs.declared.fault.PlanFault.TheVariants as fault;

use crate::{Dropped, PlanFault};
use gate_base::{Bytes, List};
use s3_machine::{MOST_BODY_BYTES, ObjectHead};
use s3_names::Acl;
use slo_manifest::Segment;
use std::alloc::Global;
use swift_calls::{StoredHead, SwiftReply};
use swift_marks::{Tag, unpack};
use upload_records::acl_of_container_readers;

/// Each object has fewer bytes.
const SIZE_LIMIT: u64 = 1 << 63;

/// The answer to HEAD of a bucket's container, which has the moment at which the bucket was made.
pub(crate) fn interpret_bucket_head(reply: &SwiftReply) -> Result<Option<Acl>, PlanFault>
    ensures due { result ≡ bucket_due reply.now }
    ensures own { result ≢ Err fault.Failed }
{
    match reply {
        SwiftReply::Readers {
            readers,
            created: Some(_),
        } => Ok(Some(acl_of_container_readers(*readers))),
        SwiftReply::NotFound => Ok(None),
        _ => Err(PlanFault::Inconsistent),
    }
}

/// The answer to HEAD of an object's file.
pub(crate) fn interpret_object_head(
    alloc: Global,
    reply: &SwiftReply,
) -> Result<Option<ObjectHead>, PlanFault>
    ensures due { Gives result (head_due reply.now) }
    ensures own { result ≢ Err fault.Failed }
    ensures shown { IfOk result IsShownHead }
{
    match reply {
        SwiftReply::Head(head) => interpret_stored_head(alloc, head),
        SwiftReply::NotFound => Ok(None),
        _ => Err(PlanFault::Inconsistent),
    }
}

/// What the head of a file says of the object: its type is the object's tag, with which the file agrees, and its
/// metadata the object's pack.
#[tactic(auto, using(crate::proofs::Dates::tag_is_dated))]
fn interpret_stored_head(alloc: Global, head: &StoredHead) -> Result<Option<ObjectHead>, PlanFault>
    ensures due { Gives result (known (head_from head.now)) }
    ensures own { result ≢ Err fault.Failed }
    ensures shown { IfOk result IsShownHead }
{
    let tag = Tag::read(alloc, head.content_type.as_slice())?;
    let meta = unpack(alloc, head.meta.as_slice())?;
    if !object_head_agrees_with_tag(head, &tag) {
        return Err(PlanFault::Inconsistent);
    }
    Ok(Some(ObjectHead {
        etag: tag.etag,
        modified: tag.moment,
        size: head.size,
        content_type: tag.content_type,
        meta,
    }))
}

/// The file is what its tag says: put in one piece, or of an upload.
fn object_head_agrees_with_tag(head: &StoredHead, tag: &Tag) -> bool
    ensures { result ≡ object_head_agrees_with_tag head.now tag.now }
{
    if tag.id.is_none() {
        object_head_agrees_whole(head, tag)
    } else {
        object_head_agrees_parts(head, tag)
    }
}

/// The file is what its tag says that was put in one piece: with bytes of its own, as many as a body may have, and with
/// their ETag.
fn object_head_agrees_whole(head: &StoredHead, tag: &Tag) -> bool
    ensures { result ≡ object_head_agrees_whole head.now tag.now }
{
    !head.manifest && head.etag.as_slice() == tag.etag.as_slice() && head.size <= MOST_BODY_BYTES
}

/// The file is what its tag says that was completed from parts: with an ETag of parts, and a list of segments where it has
/// a byte.
fn object_head_agrees_parts(head: &StoredHead, tag: &Tag) -> bool
    ensures { result ≡ object_head_agrees_parts head.now tag.now }
{
    tag.etag.len() > 32 && (head.manifest || head.size == 0) && head.size < SIZE_LIMIT
}

/// The answer to GET of an object's file, or of a range of it, of which it may have no byte. HEAD told this ETag and this
/// size of the object.
pub(crate) fn bytes_in(
    alloc: Global,
    reply: SwiftReply,
    etag: &[u8],
    size: u64,
) -> Result<Option<Bytes>, PlanFault>
    ensures due { Gives result (bytes_due etag.now size reply) }
    ensures own { result ≢ Err fault.Failed }
{
    match reply {
        SwiftReply::Bytes { head, body } => interpret_unchanged_bytes(
            alloc, &head, body, etag, size,
        ),
        SwiftReply::Unsatisfiable | SwiftReply::NotFound => Ok(None),
        _ => Err(PlanFault::Inconsistent),
    }
}

/// The bytes that a GET told with this head, where the file is what its tag says, with the ETag and the size that HEAD told.
fn interpret_unchanged_bytes(
    alloc: Global,
    head: &StoredHead,
    body: Bytes,
    etag: &[u8],
    size: u64,
) -> Result<Option<Bytes>, PlanFault>
    ensures due { Gives result (bytes_due etag.now size (answer.Bytes head.now body)) }
    ensures own { result ≢ Err fault.Failed }
{
    let tag = Tag::read(alloc, head.content_type.as_slice())?;
    if !object_head_agrees_with_tag(head, &tag)
        || tag.etag.as_slice() != etag
        || head.size != size
    {
        return Err(PlanFault::Inconsistent);
    }
    Ok(Some(body))
}

/// The answer to PUT of a file whose bytes have this ETag: the store has them with the same.
pub fn interpret_put_with_etag(reply: &SwiftReply, etag: &[u8]) -> Result<(), PlanFault>
    ensures due { result ≡ stored_due etag.now reply.now }
    ensures own { result ≢ Err fault.Failed }
{
    match reply {
        SwiftReply::Stored { etag: stored } if stored.as_slice() == etag => Ok(()),
        _ => Err(PlanFault::Inconsistent),
    }
}

/// The answer to DELETE of a file: also one that wasn't there is gone.
pub fn interpret_file_delete(reply: &SwiftReply) -> Result<(), PlanFault>
    ensures due { result ≡ gone_due reply.now }
    ensures own { result ≢ Err fault.Failed }
{
    match reply {
        SwiftReply::Gone => Ok(()),
        SwiftReply::NotFound => Ok(()),
        _ => Err(PlanFault::Inconsistent),
    }
}

/// The answer to PUT of a container that is missing.
pub(crate) fn interpret_bucket_put(reply: &SwiftReply) -> Result<(), PlanFault>
    ensures due { result ≡ made_due reply.now }
    ensures own { result ≢ Err fault.Failed }
{
    match reply {
        SwiftReply::Made => Ok(()),
        _ => Err(PlanFault::Inconsistent),
    }
}

/// The answer to DELETE of a bucket's container.
pub(crate) fn interpret_bucket_delete(reply: &SwiftReply) -> Result<Dropped, PlanFault>
    ensures due { result ≡ dropped_due reply.now }
    ensures own { result ≢ Err fault.Failed }
{
    match reply {
        SwiftReply::Gone => Ok(Dropped::Gone),
        SwiftReply::NotEmpty => Ok(Dropped::Full),
        SwiftReply::NotFound => Ok(Dropped::Missing),
        _ => Err(PlanFault::Inconsistent),
    }
}

/// The answer to POST of a bucket's container.
pub(crate) fn interpret_bucket_post(reply: &SwiftReply) -> Result<bool, PlanFault>
    ensures due { result ≡ set_due reply.now }
    ensures own { result ≢ Err fault.Failed }
{
    match reply {
        SwiftReply::Gone => Ok(true),
        SwiftReply::NotFound => Ok(false),
        _ => Err(PlanFault::Inconsistent),
    }
}

/// The answer to GET of the list of a file's segments (Object Storage API v1, "Static large objects"). Inconsistent where it is another
/// one; never Failed.
pub fn interpret_listed_segments(reply: SwiftReply) -> Result<List<Segment>, PlanFault>
    ensures due { result ≡ listed_due reply }
    ensures own { result ≢ Err fault.Failed }
{
    match reply {
        SwiftReply::Manifest(segments) => Ok(segments),
        _ => Err(PlanFault::Inconsistent),
    }
}
