//! The reply to each call, found before anything is written.
ghost use Rattle.std.specs.Prelude.{◌≡◌, ℕ, true, false, List, Option, Some, IfOk};
ghost use Rattle.std.specs.FinMap.{get};
ghost use Rattle.std.specs.Option.{option_map};
ghost use Rattle.swift_calls.specs.Account.{find_object};
ghost use Rattle.swift_calls.specs.Bodies.{head_of, joined, outer_bytes, is_good_list};
ghost use Rattle.swift_calls.specs.Step.{is_taken, plain_file, put_object};
ghost use Rattle.swift_calls.specs.declared.calls.SwiftRequest.TheVariants as asked;
ghost use Rattle.swift_store.specs.Shelf.{ShelfReads, part_of};
ghost use Rattle.swift_store.specs.Listed.{segments_at};
ghost use Rattle.swift_store.specs.Serving.{IsReply, TagsBody, TagsList, TagsWith, served_bounds, listed_part, shelf_reply_to_manifest, parted};
ghost use Rattle.swift_calls.specs.declared.account.ReadList.{ReadList};

use crate::joined::read_joined_from_shelf;
use crate::kept::etag_of_shelved_bytes;
use crate::segments::{are_outer_segments_on_shelf, is_good_list_on_shelf};
use crate::{Shelf, StoreFault};
use gate_base::Bytes;
use slo_manifest::{Segment, joined_etag};
use std::alloc::Global;
use swift_calls::{FilePut, StoredHead, SwiftReply, SwiftRequest};

fn shelf_reply_to_list_containers<S: Shelf>(
    shelf: &mut S,
    marker: &[u8],
    limit: u32,
) -> Result<SwiftReply, StoreFault>
    ensures reads { ShelfReads (IsReply (asked.ListContainers marker.now limit)) (S.model shelf.old)
        result (S.model shelf.new) }
{
    Ok(SwiftReply::Containers(shelf.containers(marker, limit)?))
}

#[tactic(auto, using(crate::proofs::Replying::head_some, crate::proofs::Replying::head_none))]
fn shelf_reply_to_head_container<S: Shelf>(
    shelf: &mut S,
    name: &[u8],
) -> Result<SwiftReply, StoreFault>
    ensures reads { ShelfReads (IsReply (asked.HeadContainer name.now)) (S.model shelf.old) result
        (S.model shelf.new) }
{
    match shelf.container(name)? {
        Some((readers, created)) => Ok(SwiftReply::Readers { readers, created }),
        None => Ok(SwiftReply::NotFound),
    }
}

#[tactic(auto, using(crate::proofs::Replying::put_there, crate::proofs::Replying::put_made))]
fn shelf_reply_to_put_container<S: Shelf>(
    shelf: &mut S,
    name: &[u8],
) -> Result<SwiftReply, StoreFault>
    ensures reads { ShelfReads (λ account reply. (readers : ReadList) (created : Option ℕ)
        → IsReply (asked.PutContainer name.now readers created) account reply) (S.model shelf.old)
        result (S.model shelf.new) }
{
    if shelf.container(name)?.is_some() {
        Ok(SwiftReply::There)
    } else {
        Ok(SwiftReply::Made)
    }
}

#[tactic(auto, using(crate::proofs::Replying::post_there, crate::proofs::Replying::post_missing))]
fn shelf_reply_to_post_container<S: Shelf>(
    shelf: &mut S,
    name: &[u8],
) -> Result<SwiftReply, StoreFault>
    ensures reads { ShelfReads (λ account reply. (readers : ReadList)
        → IsReply (asked.PostContainer name.now readers) account reply) (S.model shelf.old) result
        (S.model shelf.new) }
{
    if shelf.container(name)?.is_some() {
        Ok(SwiftReply::Gone)
    } else {
        Ok(SwiftReply::NotFound)
    }
}

#[tactic(auto, using(crate::proofs::Replying::delete_gone, crate::proofs::Replying::delete_full, crate::proofs::Replying::delete_missing))]
fn shelf_reply_to_delete_container<S: Shelf>(
    shelf: &mut S,
    name: &[u8],
) -> Result<SwiftReply, StoreFault>
    ensures reads { ShelfReads (IsReply (asked.DeleteContainer name.now)) (S.model shelf.old) result
        (S.model shelf.new) }
{
    match shelf.is_bare(name)? {
        Some(true) => Ok(SwiftReply::Gone),
        Some(false) => Ok(SwiftReply::NotEmpty),
        None => Ok(SwiftReply::NotFound),
    }
}

#[tactic(auto, using(crate::proofs::Replying::names_there, crate::proofs::Replying::names_missing))]
fn shelf_reply_to_list_names<S: Shelf>(
    shelf: &mut S,
    container: &[u8],
    prefix: &[u8],
    marker: &[u8],
    limit: u32,
) -> Result<SwiftReply, StoreFault>
    ensures reads { ShelfReads (IsReply (asked.ListNames container.now prefix.now marker.now limit))
        (S.model shelf.old) result (S.model shelf.new) }
{
    if shelf.container(container)?.is_some() {
        Ok(SwiftReply::Names(shelf.names(container, prefix, marker, limit)?))
    } else {
        Ok(SwiftReply::NotFound)
    }
}

#[tactic(auto, using(crate::proofs::Replying::put_taken, crate::proofs::Replying::put_free))]
fn shelf_reply_to_put_object<S: Shelf>(
    shelf: &mut S,
    alloc: Global,
    put: &FilePut,
) -> Result<SwiftReply, StoreFault>
    ensures reads { ShelfReads (IsReply (asked.PutObject put.now)) (S.model shelf.old) result
        (S.model shelf.new) }
    ensures tags { IfOk result (TagsWith put.now.body) }
{
    if is_taken_on_shelf(shelf, put)? {
        return Ok(SwiftReply::Exists);
    }
    shelf_reply_to_free_put(shelf, alloc, put)
}

/// Whether a fresh object may not be put, since one is there under its name.
#[tactic(auto, using(crate::proofs::Replying::taken_fresh, crate::proofs::Replying::taken_other))]
fn is_taken_on_shelf<S: Shelf>(shelf: &mut S, put: &FilePut) -> Result<bool, StoreFault>
    ensures reads { ShelfReads (λ account taken. taken ≡ is_taken put.now.fresh
        (find_object account put.now.container put.now.name)) (S.model shelf.old) result
        (S.model shelf.new) }
{
    if put.fresh {
        let head = shelf.head(put.container.as_slice(), put.name.as_slice())?;
        Ok(head.is_some())
    } else {
        Ok(false)
    }
}

/// The reply where its name isn't taken for it. The body is hashed here, and only here.
#[tactic(auto, using(crate::proofs::Replying::stored_there, crate::proofs::Replying::stored_missing))]
fn shelf_reply_to_free_put<S: Shelf>(
    shelf: &mut S,
    alloc: Global,
    put: &FilePut,
) -> Result<SwiftReply, StoreFault>
    ensures reads { ShelfReads (λ account reply. reply ≡ (put_object
        (get account put.now.container) put.now.container put.now.name (plain_file put.now)
        account).reply) (S.model shelf.old) result (S.model shelf.new) }
    ensures tags { IfOk result (TagsWith put.now.body) }
{
    if shelf.container(put.container.as_slice())?.is_some() {
        let etag = etag_of_shelved_bytes(alloc, put.body.as_slice())?;
        Ok(SwiftReply::Stored { etag })
    } else {
        Ok(SwiftReply::NotFound)
    }
}

#[tactic(auto, using(crate::proofs::Replying::object_some, crate::proofs::Replying::object_none))]
fn shelf_reply_to_head_object<S: Shelf>(
    shelf: &mut S,
    container: &[u8],
    name: &[u8],
) -> Result<SwiftReply, StoreFault>
    ensures reads { ShelfReads (IsReply (asked.HeadObject container.now name.now))
        (S.model shelf.old) result (S.model shelf.new) }
{
    match shelf.head(container, name)? {
        Some(head) => Ok(SwiftReply::Head(head)),
        None => Ok(SwiftReply::NotFound),
    }
}

#[tactic(auto, using(crate::proofs::Replying::object_gone, crate::proofs::Replying::object_missing))]
fn shelf_reply_to_delete_object<S: Shelf>(
    shelf: &mut S,
    container: &[u8],
    name: &[u8],
) -> Result<SwiftReply, StoreFault>
    ensures reads { ShelfReads (IsReply (asked.DeleteObject container.now name.now))
        (S.model shelf.old) result (S.model shelf.new) }
{
    if shelf.head(container, name)?.is_some() {
        Ok(SwiftReply::Gone)
    } else {
        Ok(SwiftReply::NotFound)
    }
}

/// Reads an object, of which only the bytes that are asked for are read.
#[tactic(auto, using(crate::proofs::Replying::bytes_none))]
fn shelf_reply_to_get_object<S: Shelf>(
    shelf: &mut S,
    alloc: Global,
    container: &[u8],
    name: &[u8],
    range: Option<(u64, u64)>,
) -> Result<SwiftReply, StoreFault>
    ensures reads { ShelfReads (IsReply (asked.GetObject container.now name.now range))
        (S.model shelf.old) result (S.model shelf.new) }
{
    match shelf.head(container, name)? {
        Some(head) => {
            if head.manifest {
                get_listed_from_shelf(shelf, alloc, container, name, head, range)
            } else {
                get_plain_from_shelf(shelf, alloc, container, name, head, range)
            }
        }
        None => Ok(SwiftReply::NotFound),
    }
}

/// Reads an object with bytes of its own, by its head.
fn get_plain_from_shelf<S: Shelf>(
    shelf: &mut S,
    alloc: Global,
    container: &[u8],
    name: &[u8],
    head: StoredHead,
    range: Option<(u64, u64)>,
) -> Result<SwiftReply, StoreFault>
    ensures reads { ShelfReads (λ account reply. Some head ≡ option_map head_of
        (find_object account container.now name.now) → head.manifest ≡ false
        → IsReply (asked.GetObject container.now name.now range) account reply) (S.model shelf.old)
        result (S.model shelf.new) }
{
    match served_bounds(range, head.size) {
        Some((from, end)) => {
            let body = own_bytes_on_shelf(shelf, alloc, container, name, from, end)?;
            Ok(SwiftReply::Bytes { head, body })
        }
        None => Ok(SwiftReply::Unsatisfiable),
    }
}

/// The own bytes of an object from one place to another.
fn own_bytes_on_shelf<S: Shelf>(
    shelf: &mut S,
    alloc: Global,
    container: &[u8],
    name: &[u8],
    from: u64,
    end: u64,
) -> Result<Bytes, StoreFault>
    ensures reads { ShelfReads (λ account body. body ≡ part_of from end
        (find_object account container.now name.now)) (S.model shelf.old) result
        (S.model shelf.new) }
{
    let mut body = Bytes::new(alloc);
    shelf.read(container, name, from, end, &mut body)?;
    Ok(body)
}

/// Reads an object that lists segments, by its head. That they are there is tested before the range.
fn get_listed_from_shelf<S: Shelf>(
    shelf: &mut S,
    alloc: Global,
    container: &[u8],
    name: &[u8],
    head: StoredHead,
    range: Option<(u64, u64)>,
) -> Result<SwiftReply, StoreFault>
    ensures reads { ShelfReads (λ account reply. Some head ≡ option_map head_of
        (find_object account container.now name.now) → head.manifest ≡ true
        → IsReply (asked.GetObject container.now name.now range) account reply) (S.model shelf.old)
        result (S.model shelf.new) }
{
    match listing_object_bytes_on_shelf(shelf, alloc, container, name, head.size, range)? {
        Some(Some(body)) => Ok(SwiftReply::Bytes { head, body }),
        Some(None) => Ok(SwiftReply::Unsatisfiable),
        None => Ok(SwiftReply::NotFound),
    }
}

/// The bytes of a range of an object that lists segments of a size together; none where a segment isn't there, and none of
/// these where the range isn't.
fn listing_object_bytes_on_shelf<S: Shelf>(
    shelf: &mut S,
    alloc: Global,
    container: &[u8],
    name: &[u8],
    size: u64,
    range: Option<(u64, u64)>,
) -> Result<Option<Option<Bytes>>, StoreFault>
    ensures reads { ShelfReads (λ account bytes. bytes ≡ listed_part (find_object account) range
        size (segments_at (find_object account container.now name.now))) (S.model shelf.old) result
        (S.model shelf.new) }
{
    match shelf.segments(container, name)? {
        Some(segments) => segment_bytes_on_shelf(shelf, alloc, segments.as_slice(), size, range),
        None => Ok(None),
    }
}

/// The bytes of a range of segments of a size together.
fn segment_bytes_on_shelf<S: Shelf>(
    shelf: &mut S,
    alloc: Global,
    segments: &[Segment],
    size: u64,
    range: Option<(u64, u64)>,
) -> Result<Option<Option<Bytes>>, StoreFault>
    ensures reads { ShelfReads (λ account bytes. bytes ≡ option_map (parted range size)
        (joined (outer_bytes (find_object account)) segments.now)) (S.model shelf.old) result
        (S.model shelf.new) }
{
    if !are_outer_segments_on_shelf(shelf, segments)? {
        return Ok(None);
    }
    let part = present_segment_bytes_on_shelf(shelf, alloc, segments, size, range)?;
    Ok(Some(part))
}

/// The bytes of a range of segments that are there.
fn present_segment_bytes_on_shelf<S: Shelf>(
    shelf: &mut S,
    alloc: Global,
    segments: &[Segment],
    size: u64,
    range: Option<(u64, u64)>,
) -> Result<Option<Bytes>, StoreFault>
    ensures reads { ShelfReads (λ account part. (bytes : List ℕ)
        → joined (outer_bytes (find_object account)) segments.now ≡ Some bytes
        → part ≡ parted range size bytes) (S.model shelf.old) result (S.model shelf.new) }
{
    match served_bounds(range, size) {
        Some((from, end)) => {
            let count = end.saturating_sub(from);
            let body = read_joined_from_shelf(shelf, alloc, segments, from, count)?;
            Ok(Some(body))
        }
        None => Ok(None),
    }
}

/// The segments that an object lists.
#[tactic(auto, using(crate::proofs::Replying::manifest_some, crate::proofs::Replying::manifest_none))]
fn shelf_reply_to_get_manifest<S: Shelf>(
    shelf: &mut S,
    container: &[u8],
    name: &[u8],
) -> Result<SwiftReply, StoreFault>
    ensures reads { ShelfReads (IsReply (asked.GetManifest container.now name.now))
        (S.model shelf.old) result (S.model shelf.new) }
{
    match shelf.segments(container, name)? {
        Some(segments) => Ok(SwiftReply::Manifest(segments)),
        None => Ok(SwiftReply::NotFound),
    }
}

/// The container is looked for first, and then each segment.
#[tactic(auto, using(crate::proofs::Replying::listed_missing))]
fn shelf_reply_to_put_manifest<S: Shelf>(
    shelf: &mut S,
    alloc: Global,
    container: &[u8],
    segments: &[Segment],
) -> Result<SwiftReply, StoreFault>
    ensures reads { ShelfReads (λ account reply. (name content_type : List ℕ) (meta : List (List ℕ))
        → IsReply (asked.PutManifest container.now name content_type meta segments.now) account
        reply) (S.model shelf.old) result (S.model shelf.new) }
    ensures tags { IfOk result (TagsList segments.now) }
{
    if shelf.container(container)?.is_some() {
        shelf_reply_to_manifest(shelf, alloc, segments)
    } else {
        Ok(SwiftReply::NotFound)
    }
}

/// The reply where the container is there.
#[tactic(auto, using(crate::proofs::Replying::list_tag))]
fn shelf_reply_to_manifest<S: Shelf>(
    shelf: &mut S,
    alloc: Global,
    segments: &[Segment],
) -> Result<SwiftReply, StoreFault>
    ensures reads { ShelfReads (λ account reply. reply ≡ shelf_reply_to_manifest
        (is_good_list (find_object account) segments.now) segments.now) (S.model shelf.old) result
        (S.model shelf.new) }
    ensures tags { IfOk result (TagsList segments.now) }
{
    if is_good_list_on_shelf(shelf, segments)? {
        let etag = joined_etag(alloc, segments)?;
        Ok(SwiftReply::Stored { etag })
    } else {
        Ok(SwiftReply::BadManifest)
    }
}

/// From where to where an object of a size is read; nothing where the range begins past its end.
fn served_bounds(range: Option<(u64, u64)>, size: u64) -> Option<(u64, u64)>
    ensures { result ≡ served_bounds range size }
{
    match range {
        Some((from, to)) if from < size => Some((from, if to < size { to + 1 } else { size })),
        Some(_) => None,
        None => Some((0, size)),
    }
}

/// The reply to a call. Nothing is written.
pub(crate) fn shelf_reply_to_call<S: Shelf>(
    alloc: Global,
    shelf: &mut S,
    call: &SwiftRequest,
) -> Result<SwiftReply, StoreFault>
    ensures reads { ShelfReads (IsReply call.now) (S.model shelf.old) result (S.model shelf.new) }
    ensures tags { IfOk result (λ reply. TagsBody call.now reply) }
{
    match call {
        SwiftRequest::ListContainers { marker, limit } => {
            shelf_reply_to_list_containers(shelf, marker.as_slice(), *limit)
        }
        SwiftRequest::HeadContainer { container } => shelf_reply_to_head_container(
            shelf,
            container.as_slice(),
        ),
        SwiftRequest::PutContainer { container, .. } => shelf_reply_to_put_container(
            shelf,
            container.as_slice(),
        ),
        SwiftRequest::PostContainer { container, .. } => {
            shelf_reply_to_post_container(shelf, container.as_slice())
        }
        SwiftRequest::DeleteContainer { container } => {
            shelf_reply_to_delete_container(shelf, container.as_slice())
        }
        SwiftRequest::ListNames {
            container,
            prefix,
            marker,
            limit,
        } => shelf_reply_to_list_names(
            shelf,
            container.as_slice(),
            prefix.as_slice(),
            marker.as_slice(),
            *limit,
        ),
        _ => shelf_reply_to_object_call(alloc, shelf, call),
    }
}

/// The reply to a call of an object. A call of a container doesn't come here.
fn shelf_reply_to_object_call<S: Shelf>(
    alloc: Global,
    shelf: &mut S,
    call: &SwiftRequest,
) -> Result<SwiftReply, StoreFault>
    ensures reads { ShelfReads (IsReply call.now) (S.model shelf.old) result (S.model shelf.new) }
    ensures tags { IfOk result (λ reply. TagsBody call.now reply) }
{
    match call {
        SwiftRequest::PutObject(put) => shelf_reply_to_put_object(shelf, alloc, put),
        SwiftRequest::PutManifest {
            container,
            segments,
            ..
        } => shelf_reply_to_put_manifest(shelf, alloc, container.as_slice(), segments.as_slice()),
        SwiftRequest::HeadObject { container, name } => {
            shelf_reply_to_head_object(shelf, container.as_slice(), name.as_slice())
        }
        SwiftRequest::GetObject {
            container,
            name,
            range,
        } => shelf_reply_to_get_object(shelf, alloc, container.as_slice(), name.as_slice(), *range),
        SwiftRequest::GetManifest { container, name } => {
            shelf_reply_to_get_manifest(shelf, container.as_slice(), name.as_slice())
        }
        SwiftRequest::DeleteObject { container, name } => {
            shelf_reply_to_delete_object(shelf, container.as_slice(), name.as_slice())
        }
        _ => Err(StoreFault::Memory),
    }
}
