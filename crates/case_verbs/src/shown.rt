//! Which replies have a page.
ghost use Rattle.std.specs.Prelude.{◌≢◌, ◌<◌, ◌≤◌, ◌+◌, ◌^◌, IsTrue};
ghost use Rattle.std.specs.List.{All};
ghost use Rattle.gate_base.specs.Told.{moment_limit};
ghost use Rattle.s3_machine.specs.declared.operation.Reply.TheVariants.{OfObjects, OfUploads};
ghost use Rattle.s3_machine.specs.Shown.{
  IsShowable,
  IsShown,
  IsShownBucket,
  IsShownItem,
  IsShownPart,
  IsShownUpload,
};

use case_text::{Fault, Told};
use gate_base::MOMENT_LIMIT;
use s3_machine::{
    BucketItem, Item, ObjectBytes, ObjectsReply, PartItem, Reply, UploadItem, UploadsReply,
};

/// A moment that has a date: one that has none is told as a fault, and the first of all comes in its place.
pub fn moment_with_date(moment: u64, told: &mut Told) -> u64
    ensures { result < moment_limit }
{
    if moment < MOMENT_LIMIT {
        return moment;
    }
    told.note_fault(Fault::Unread("a moment past the year 9999"));
    0
}

/// How many bytes an object may have at most, so that numbers hold the end of a range.
const MOST_BYTES: u64 = 1 << 63;

fn is_shown_range(from: u64, length: u64) -> bool
    ensures { IsTrue result → (from + length ≤ 2 ^ 63) }
{
    length <= MOST_BYTES && from <= MOST_BYTES - length
}

fn is_partial_range_filled(length: u64, partial: bool) -> bool
    ensures { IsTrue result → IsTrue partial → (0 < length) }
{
    !partial || 0 < length
}

fn is_shown_object(object: &ObjectBytes) -> bool
    ensures { IsTrue result
        → IsShown object.now.head object.now.from object.now.length object.now.partial }
{
    object.head.modified < MOMENT_LIMIT
        && is_shown_range(object.from, object.length)
        && is_partial_range_filled(object.length, object.partial)
}

/// Whether a reply has a page.
pub fn is_shown_reply(reply: &Reply) -> bool
    ensures reply { IsTrue result → reply.now ≢ Reply.Memory }
    ensures showable { IsTrue result → IsShowable reply.now }
{
    match reply {
        Reply::Memory => false,
        Reply::Refused(_) | Reply::Done | Reply::Gone | Reply::Stored(_) => true,
        Reply::NotModified(head) => head.modified < MOMENT_LIMIT,
        Reply::Object(object) => is_shown_object(object),
        Reply::OfObjects(reply) => is_shown_objects_reply(reply),
        Reply::OfUploads(reply) => is_shown_uploads_reply(reply),
        Reply::Copied(copied) => copied.modified < MOMENT_LIMIT,
    }
}

fn is_shown_objects_reply(reply: &ObjectsReply) -> bool
    ensures { IsTrue result → IsShowable (OfObjects reply.now) }
{
    match reply {
        ObjectsReply::Made(_) | ObjectsReply::Location(_) => true,
        ObjectsReply::AclOf(_) | ObjectsReply::Deleted(_) | ObjectsReply::Setting(_) => true,
        ObjectsReply::Buckets(page) => are_shown_buckets(page.items.as_slice()),
        ObjectsReply::Objects(page) => are_shown_items(page.items.as_slice()),
    }
}

fn is_shown_uploads_reply(reply: &UploadsReply) -> bool
    ensures { IsTrue result → IsShowable (OfUploads reply.now) }
{
    match reply {
        UploadsReply::Started(_) | UploadsReply::Completed(_) => true,
        UploadsReply::Uploads(page) => are_shown_uploads(page.items.as_slice()),
        UploadsReply::Parts(page) => are_shown_parts(page.items.as_slice()),
    }
}

fn are_shown_buckets(items: &[BucketItem]) -> bool
    ensures { IsTrue result → All IsShownBucket items.now }
{
    items.iter().all(|item| item.created < MOMENT_LIMIT)
}

fn is_shown_item(item: &Item) -> bool
    ensures { IsTrue result → IsShownItem item.now }
{
    match &item.object {
        Some(head) => head.modified < MOMENT_LIMIT,
        None => true,
    }
}

fn are_shown_items(items: &[Item]) -> bool
    ensures { IsTrue result → All IsShownItem items.now }
{
    items.iter().all(|item| is_shown_item(item))
}

fn are_shown_uploads(items: &[UploadItem]) -> bool
    ensures { IsTrue result → All IsShownUpload items.now }
{
    items.iter().all(|item| item.started < MOMENT_LIMIT)
}

fn are_shown_parts(items: &[PartItem]) -> bool
    ensures { IsTrue result → All IsShownPart items.now }
{
    items.iter().all(|item| item.modified < MOMENT_LIMIT)
}
