//! What each call writes, once its answer is there.
ghost use Rattle.std.specs.Prelude.{◌≡◌, IsTrue};
ghost use Rattle.swift_calls.specs.Step.{Fit, IsContainerName, plain_file, swift_step};
ghost use Rattle.swift_calls.specs.declared.account.Content.TheVariants.{Plain};
ghost use Rattle.swift_calls.specs.declared.calls.SwiftRequest.TheVariants as asked;
ghost use Rattle.swift_calls.specs.Account.{put_file};
ghost use Rattle.swift_calls.specs.Bodies.{etag_of};
ghost use Rattle.swift_store.specs.Made.{IsMadeObject};
ghost use Rattle.swift_store.specs.Shelf.{ShelfKeeps, ShelfWrites, Writes};
ghost use Rattle.swift_store.specs.Serving.{TagsBody, TagsList, TagsWith, etag_in, is_gone_reply};

use crate::{Shelf, StoreFault};
use gate_base::{Bytes, List};
use slo_manifest::Segment;
use swift_calls::{
    Content, FilePut, ReadList, Stored, SwiftReply, SwiftRequest, drop_reply, drop_request,
};

fn is_gone_reply(reply: &SwiftReply) -> bool
    ensures { result ≡ is_gone_reply reply.now }
{
    match reply {
        SwiftReply::Gone => true,
        _ => false,
    }
}

fn etag_in(reply: SwiftReply) -> Option<Bytes>
    ensures { result ≡ etag_in reply }
{
    match reply {
        SwiftReply::Stored { etag } => Some(etag),
        other => {
            drop_reply(other);
            None
        }
    }
}

#[tactic(auto, using(crate::proofs::Writing::posted_by, crate::proofs::Writing::not_posted, crate::proofs::Writing::moment_told, crate::proofs::Writing::unwritten))]
fn post_container_on_shelf<S: Shelf>(
    shelf: &mut S,
    name: &[u8],
    readers: ReadList,
) -> Result<(), StoreFault>
    requires name { IsContainerName name.now }
    ensures writes { ShelfWrites
        (λ account. (swift_step (asked.PostContainer name.now readers) account).tree)
        (S.model shelf.old) result (S.model shelf.new) }
{
    match shelf.container(name)? {
        Some((_, created)) => { shelf.put_container(name, readers, created) }
        None => Ok(()),
    }
}

#[tactic(auto, using(crate::proofs::Writing::dropped, crate::proofs::Writing::not_dropped))]
fn delete_container_on_shelf<S: Shelf>(
    shelf: &mut S,
    name: &[u8],
    reply: &SwiftReply,
) -> Result<(), StoreFault>
    ensures keeps { ShelfKeeps (S.model shelf.old) result (S.model shelf.new) }
    ensures effect { IsTrue (S.model shelf.old).observable
        → reply.now ≡ (swift_step (asked.DeleteContainer name.now)
        (S.model shelf.old).account).reply
        → Writes (S.model shelf.old).account
        (swift_step (asked.DeleteContainer name.now) (S.model shelf.old).account).tree
        (S.model shelf.new).account result }
{
    if is_gone_reply(reply) {
        shelf.drop_container(name)?;
    }
    Ok(())
}

/// What a file is put with beside its content.
#[derive(Drop)]
struct FileHead {
    name: Bytes,
    content_type: Bytes,
    meta: List<Bytes>,
}

fn put_object_on_shelf<S: Shelf>(
    shelf: &mut S,
    put: FilePut,
    reply: SwiftReply,
) -> Result<(), StoreFault>
    requires fit { Fit (asked.PutObject put) }
    requires tags { TagsWith put.body reply }
    ensures keeps { ShelfKeeps (S.model shelf.old) result (S.model shelf.new) }
    ensures effect { IsTrue (S.model shelf.old).observable
        → reply ≡ (swift_step (asked.PutObject put) (S.model shelf.old).account).reply
        → Writes (S.model shelf.old).account
        (swift_step (asked.PutObject put) (S.model shelf.old).account).tree
        (S.model shelf.new).account result }
{
    match etag_in(reply) {
        Some(etag) => put_plain_on_shelf(shelf, put, etag),
        None => Ok(()),
    }
}

/// Puts an object with its own bytes, which are moved.
fn put_plain_on_shelf<S: Shelf>(shelf: &mut S, put: FilePut, etag: Bytes) -> Result<(), StoreFault>
    requires etag { etag ≡ etag_of (Plain put.body) }
    requires made { IsMadeObject put.name (plain_file put) }
    ensures writes { ShelfWrites (put_file put.container put.name (plain_file put))
        (S.model shelf.old) result (S.model shelf.new) }
{
    let FilePut {
        container,
        name,
        content_type,
        meta,
        body,
        ..
    } = put;
    let head = FileHead {
        name,
        content_type,
        meta,
    };
    put_tagged_on_shelf(
        shelf,
        container.as_slice(),
        head,
        Content::Plain(body),
        etag,
    )
}

fn put_manifest_on_shelf<S: Shelf>(
    shelf: &mut S,
    container: &[u8],
    head: FileHead,
    segments: List<Segment>,
    reply: SwiftReply,
) -> Result<(), StoreFault>
    requires fit { Fit (asked.PutManifest container.now head.name head.content_type head.meta
        segments) }
    requires tags { TagsList segments reply }
    ensures keeps { ShelfKeeps (S.model shelf.old) result (S.model shelf.new) }
    ensures effect { IsTrue (S.model shelf.old).observable
        → reply ≡ (swift_step (asked.PutManifest container.now head.name head.content_type head.meta
        segments)
        (S.model shelf.old).account).reply
        → Writes (S.model shelf.old).account (swift_step
        (asked.PutManifest container.now head.name head.content_type head.meta segments)
        (S.model shelf.old).account).tree (S.model shelf.new).account result }
{
    match etag_in(reply) {
        Some(etag) => put_tagged_on_shelf(
            shelf,
            container,
            head,
            Content::Segments(segments),
            etag,
        ),
        None => Ok(()),
    }
}

/// Puts an object with this body.
fn put_tagged_on_shelf<S: Shelf>(
    shelf: &mut S,
    container: &[u8],
    head: FileHead,
    content: Content,
    etag: Bytes,
) -> Result<(), StoreFault>
    requires etag { etag ≡ etag_of content }
    requires made { IsMadeObject head.name
        (record { content_type = head.content_type; meta = head.meta; content = content }) }
    ensures writes { ShelfWrites (put_file container.now head.name
        (record { content_type = head.content_type; meta = head.meta; content = content }))
        (S.model shelf.old) result (S.model shelf.new) }
{
    let object = Stored {
        name: head.name,
        content_type: head.content_type,
        meta: head.meta,
        content,
    };
    shelf.put(container, object, etag)
}

#[tactic(auto, using(crate::proofs::Writing::removed, crate::proofs::Writing::not_removed, crate::proofs::Writing::unwritten))]
fn delete_object_on_shelf<S: Shelf>(
    shelf: &mut S,
    container: &[u8],
    name: &[u8],
    reply: &SwiftReply,
) -> Result<(), StoreFault>
    ensures keeps { ShelfKeeps (S.model shelf.old) result (S.model shelf.new) }
    ensures effect { IsTrue (S.model shelf.old).observable
        → reply.now ≡ (swift_step (asked.DeleteObject container.now name.now)
        (S.model shelf.old).account).reply
        → Writes (S.model shelf.old).account
        (swift_step (asked.DeleteObject container.now name.now) (S.model shelf.old).account).tree
        (S.model shelf.new).account result }
{
    if is_gone_reply(reply) {
        let _there = shelf.remove(container, name)?;
    }
    Ok(())
}

/// Writes what a call writes. Its body, or its segments, are moved.
pub(crate) fn apply_call_to_shelf<S: Shelf>(
    shelf: &mut S,
    call: SwiftRequest,
    reply: SwiftReply,
) -> Result<(), StoreFault>
    requires fit { Fit call }
    requires tags { TagsBody call reply }
    ensures keeps { ShelfKeeps (S.model shelf.old) result (S.model shelf.new) }
    ensures effect { IsTrue (S.model shelf.old).observable
        → reply ≡ (swift_step (call) (S.model shelf.old).account).reply
        → Writes (S.model shelf.old).account (swift_step (call) (S.model shelf.old).account).tree
        (S.model shelf.new).account result }
{
    match call {
        SwiftRequest::PutObject(put) => put_object_on_shelf(shelf, put, reply),
        other => apply_other_call_to_shelf(shelf, other, reply),
    }
}

/// Writes what a call other than a PUT of bytes writes. Its segments are moved.
fn apply_other_call_to_shelf<S: Shelf>(
    shelf: &mut S,
    call: SwiftRequest,
    reply: SwiftReply,
) -> Result<(), StoreFault>
    requires fit { Fit call }
    requires tags { TagsBody call reply }
    ensures keeps { ShelfKeeps (S.model shelf.old) result (S.model shelf.new) }
    ensures effect { IsTrue (S.model shelf.old).observable
        → reply ≡ (swift_step (call) (S.model shelf.old).account).reply
        → Writes (S.model shelf.old).account (swift_step (call) (S.model shelf.old).account).tree
        (S.model shelf.new).account result }
{
    match call {
        SwiftRequest::PutManifest {
            container,
            name,
            content_type,
            meta,
            segments,
        } => {
            let head = FileHead {
                name,
                content_type,
                meta,
            };
            put_manifest_on_shelf(shelf, container.as_slice(), head, segments, reply)
        }
        other => apply_owned_call_to_shelf(shelf, other, reply),
    }
}

/// Writes what any other call writes, and lets go of the call and its reply.
fn apply_owned_call_to_shelf<S: Shelf>(
    shelf: &mut S,
    call: SwiftRequest,
    reply: SwiftReply,
) -> Result<(), StoreFault>
    requires fit { Fit call }
    ensures keeps { ShelfKeeps (S.model shelf.old) result (S.model shelf.new) }
    ensures effect { IsTrue (S.model shelf.old).observable
        → reply ≡ (swift_step (call) (S.model shelf.old).account).reply
        → Writes (S.model shelf.old).account (swift_step (call) (S.model shelf.old).account).tree
        (S.model shelf.new).account result }
{
    let done = apply_lent_call_to_shelf(shelf, &call, &reply);
    drop_request(call);
    drop_reply(reply);
    done
}

/// The same, of a call that is lent. A PUT of an object doesn't come here, of bytes or of segments.
#[tactic(auto, using(crate::proofs::Writing::head_leaves))]
fn apply_lent_call_to_shelf<S: Shelf>(
    shelf: &mut S,
    call: &SwiftRequest,
    reply: &SwiftReply,
) -> Result<(), StoreFault>
    requires fit { Fit call.now }
    ensures keeps { ShelfKeeps (S.model shelf.old) result (S.model shelf.new) }
    ensures effect { IsTrue (S.model shelf.old).observable
        → reply.now ≡ (swift_step (call.now) (S.model shelf.old).account).reply
        → Writes (S.model shelf.old).account
        (swift_step (call.now) (S.model shelf.old).account).tree (S.model shelf.new).account
        result }
{
    match call {
        SwiftRequest::PutContainer {
            container,
            readers,
            created,
        } => shelf.put_container(container.as_slice(), *readers, *created),
        SwiftRequest::PostContainer { container, readers } => {
            post_container_on_shelf(shelf, container.as_slice(), *readers)
        }
        SwiftRequest::DeleteContainer { container } => {
            delete_container_on_shelf(shelf, container.as_slice(), reply)
        }
        SwiftRequest::PutObject(_) => Err(StoreFault::Memory),
        SwiftRequest::PutManifest { .. } => Err(StoreFault::Memory),
        SwiftRequest::DeleteObject { container, name } => {
            delete_object_on_shelf(shelf, container.as_slice(), name.as_slice(), reply)
        }
        SwiftRequest::ListContainers { .. } => Ok(()),
        SwiftRequest::HeadContainer { .. } => Ok(()),
        SwiftRequest::ListNames { .. } => Ok(()),
        SwiftRequest::HeadObject { .. } => Ok(()),
        SwiftRequest::GetObject { .. } => Ok(()),
        SwiftRequest::GetManifest { .. } => Ok(()),
    }
}
