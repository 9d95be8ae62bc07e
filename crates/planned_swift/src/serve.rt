//! The calls on an account that is kept in memory.
ghost use Rattle.std.specs.Prelude.{◌≡◌, not, is_some, IfOk, OnOk, OnErr};
ghost use Rattle.std.specs.FinMap.{get};
ghost use Rattle.std.specs.Option.{option_map};
ghost use Rattle.gate_base.specs.Named.{has_name, named, changed};
ghost use Rattle.swift_calls.specs.Account.{file_of};
ghost use Rattle.planned_swift.specs.Accounts.{tree_of, IsOrdered, IsSized};
ghost use Rattle.swift_calls.specs.Step.{swift_step, is_taken, plain_file, put_object, manifest_by};
ghost use Rattle.swift_calls.specs.Bodies.{etag_of, listed_in};
ghost use Rattle.planned_swift.specs.Lists.{served, stored, stored_of, name_of, object_name, is_nil, without, with_object, listed, AreOrdered, AreSized};

use crate::listable::is_good_list;
use crate::listing::{list_containers_in_account, list_objects_in_account};
use crate::objects::{etag_of, head_of, item_in_account, object_in_account};
use crate::segments::read_object_in_account;
use crate::{Account, Container};
use gate_base::{Bytes, Copying, List, Memory, Named, drop};
use slo_manifest::Segment;
use std::alloc::Global;
use std::mem;
use swift_calls::{Content, FilePut, ReadList, Stored, SwiftReply, SwiftRequest};

/// Names the containers after a marker.
#[tactic(auto, using(crate::proofs::Serving::names_listed))]
fn serve_list_containers(
    alloc: Global,
    containers: &List<Container>,
    marker: &[u8],
    limit: u32,
) -> Result<SwiftReply, Memory>
    requires { AreOrdered containers.now }
    ensures { IfOk result (λ reply. reply ≡ (swift_step
        (SwiftRequest.ListContainers marker.now limit) (tree_of (listed containers.now))).reply) }
{
    let names = list_containers_in_account(alloc, containers.as_slice(), marker, limit as usize)?;
    Ok(SwiftReply::Containers(names))
}

/// Asks for a container's read list and creation time.
#[tactic(auto, using(crate::proofs::Serving::head_some, crate::proofs::Serving::head_none))]
fn serve_head_container(containers: &List<Container>, name: &[u8]) -> SwiftReply
    ensures { result ≡ (swift_step (SwiftRequest.HeadContainer name.now)
        (tree_of (listed containers.now))).reply }
{
    match item_in_account(containers, name) {
        Some(container) => SwiftReply::Readers {
            readers: container.readers,
            created: container.created,
        },
        None => SwiftReply::NotFound,
    }
}

/// Makes a container, or writes the read list and the creation time of the one that is there over. For want of
/// memory nothing changes.
#[tactic(auto, using(crate::proofs::Serving::put_made, crate::proofs::Serving::put_there, crate::proofs::Serving::made, crate::proofs::Serving::written))]
fn serve_put_container(
    alloc: Global,
    containers: &mut List<Container>,
    name: &[u8],
    readers: ReadList,
    created: Option<u64>,
) -> Result<SwiftReply, Memory>
    ensures reply { IfOk result (λ reply. reply ≡ (swift_step
        (SwiftRequest.PutContainer name.now readers created)
        (tree_of (listed containers.old))).reply) }
    ensures effect { OnOk result (containers.new ≡ (served
        (SwiftRequest.PutContainer name.now readers created) (listed containers.old)).containers) }
    ensures err { OnErr result (containers.new ≡ containers.old) }
{
    match containers.find(name) {
        Some(index) => {
            let container = containers.at_mut(index);
            container.readers = readers;
            container.created = created;
            Ok(SwiftReply::There)
        }
        None => {
            containers.put(Container {
                name: Bytes::from_slice(alloc, name)?,
                readers,
                created,
                objects: List::new(alloc),
            })?;
            Ok(SwiftReply::Made)
        }
    }
}

/// Writes the read list of a container over.
#[tactic(auto, using(crate::proofs::Serving::post_missing, crate::proofs::Serving::post_there, crate::proofs::Serving::posted, crate::proofs::Serving::missed))]
fn serve_post_container(
    containers: &mut List<Container>,
    name: &[u8],
    readers: ReadList,
) -> SwiftReply
    ensures reply { result ≡ (swift_step (SwiftRequest.PostContainer name.now readers)
        (tree_of (listed containers.old))).reply }
    ensures effect { containers.new ≡ (served (SwiftRequest.PostContainer name.now readers)
        (listed containers.old)).containers }
{
    match containers.find(name) {
        Some(index) => {
            let there = containers.at_mut(index);
            there.readers = readers;
            SwiftReply::Gone
        }
        None => SwiftReply::NotFound,
    }
}

fn has_other_name_in_account<T: Named>(thing: &T, name: &[u8]) -> bool
    ensures { result ≡ not (has_name T.name_of name.now thing.now) }
{
    !name.cmp(thing.name()).is_eq()
}

/// Takes all things of a name away.
fn take_away_from_account<T: Named + Drop>(alloc: Global, things: &mut List<T>, name: &[u8])
    ensures { things.new ≡ without T.name_of name.now things.old }
{
    let mut items = mem::replace(things, List::new(alloc)).into_vec();
    items.retain(|thing| has_other_name_in_account(thing, name));
    *things = List::from_vec(items);
}

/// Takes a container without objects away.
#[tactic(auto, using(crate::proofs::Serving::delete_gone, crate::proofs::Serving::delete_full, crate::proofs::Serving::delete_missing, crate::proofs::Serving::deleted_gone, crate::proofs::Serving::deleted_full, crate::proofs::Serving::deleted_missing))]
fn serve_delete_container(
    alloc: Global,
    containers: &mut List<Container>,
    name: &[u8],
) -> SwiftReply
    ensures reply { result ≡ (swift_step (SwiftRequest.DeleteContainer name.now)
        (tree_of (listed containers.old))).reply }
    ensures effect { containers.new ≡ (served (SwiftRequest.DeleteContainer name.now)
        (listed containers.old)).containers }
{
    match is_bare(containers, name) {
        Some(true) => {
            take_away_from_account(alloc, containers, name);
            SwiftReply::Gone
        }
        Some(false) => SwiftReply::NotEmpty,
        None => SwiftReply::NotFound,
    }
}

/// Whether the container of a name has no object, where it is there.
fn is_bare(containers: &List<Container>, name: &[u8]) -> Option<bool>
    ensures { result ≡ option_map (λ c. is_nil c.objects) (named name_of name.now containers.now) }
{
    match item_in_account(containers, name) {
        Some(container) => Some(container.objects.is_empty()),
        None => None,
    }
}

/// Lists objects of a container.
#[tactic(auto, using(crate::proofs::Serving::items_listed, crate::proofs::Serving::items_missing, crate::proofs::Serving::sized_objects))]
fn serve_list_names(
    alloc: Global,
    containers: &List<Container>,
    container: &[u8],
    prefix: &[u8],
    marker: &[u8],
    limit: u32,
) -> Result<SwiftReply, Memory>
    requires ordered { AreOrdered containers.now }
    requires sized { AreSized containers.now }
    ensures { IfOk result (λ reply. reply ≡ (swift_step
        (SwiftRequest.ListNames container.now prefix.now marker.now limit)
        (tree_of (listed containers.now))).reply) }
{
    match item_in_account(containers, container) {
        Some(container) => {
            let objects = container.objects.as_slice();
            let items = list_objects_in_account(alloc, objects, prefix, marker, limit as usize)?;
            Ok(SwiftReply::Names(items))
        }
        None => Ok(SwiftReply::NotFound),
    }
}

/// Puts an object into a container that is there. Where memory runs out, nothing changes.
#[tactic(auto, using(crate::proofs::Serving::stored_missing, crate::proofs::Serving::stored_there, crate::proofs::Serving::stored_put, crate::proofs::Serving::missed, crate::proofs::ByName::set_same))]
fn serve_put_object(
    alloc: Global,
    containers: &mut List<Container>,
    container: &[u8],
    object: Stored,
) -> Result<SwiftReply, Memory>
    ensures reply { IfOk result (λ reply. reply ≡ (put_object
        (get (tree_of (listed containers.old)) container.now) container.now object.name
        (file_of object) (tree_of (listed containers.old))).reply) }
    ensures effect { OnOk result
        (containers.new ≡ changed name_of container.now (with_object object) containers.old) }
    ensures err { OnErr result (containers.new ≡ containers.old) }
{
    match containers.find(container) {
        Some(index) => {
            let reply = put_object_in_container(alloc, containers.at_mut(index), object)?;
            Ok(reply)
        }
        None => {
            drop(object);
            Ok(SwiftReply::NotFound)
        }
    }
}

fn put_object_in_container(
    alloc: Global,
    container: &mut Container,
    object: Stored,
) -> Result<SwiftReply, Memory>
    ensures reply { IfOk result (λ reply. reply ≡ SwiftReply.Stored (etag_of object.content)) }
    ensures effect { OnOk result (container.new ≡ with_object object container.old) }
    ensures err { OnErr result (container.new ≡ container.old) }
{
    let etag = etag_of(alloc, &object.content)?;
    container.objects.put(object)?;
    Ok(SwiftReply::Stored { etag })
}

/// What a file is put with beside its content.
#[derive(Drop)]
struct HeadGiven<'a> {
    name: &'a Bytes,
    content_type: &'a Bytes,
    meta: &'a List<Bytes>,
}

/// An object with this content, whose other texts are copied.
fn object_for_account(head: &HeadGiven<'_>, content: Content) -> Result<Stored, Memory>
    ensures { IfOk result (λ object. object ≡ record {
      name = head.now.name.now;
      content_type = head.now.content_type.now;
      meta = head.now.meta.now;
      content = content;
    }) }
{
    let (name, content_type) = copied_texts(head.name, head.content_type)?;
    Ok(Stored {
        name,
        content_type,
        meta: head.meta.copy()?,
        content,
    })
}

fn copied_texts(first: &Bytes, second: &Bytes) -> Result<(Bytes, Bytes), Memory>
    ensures { IfOk result (λ copies. copies ≡ record { 0 = first.now; 1 = second.now }) }
{
    let first = first.copy()?;
    Ok((first, second.copy()?))
}

/// Puts an object with its own bytes into a container that is there. Where memory runs out, nothing changes.
#[tactic(auto, using(crate::proofs::Serving::put_taken, crate::proofs::Serving::put_free, crate::proofs::Serving::taken_stays, crate::proofs::Serving::free_put))]
fn serve_put_plain_object(
    alloc: Global,
    containers: &mut List<Container>,
    put: &FilePut,
) -> Result<SwiftReply, Memory>
    ensures reply { IfOk result (λ reply. reply ≡ (swift_step (SwiftRequest.PutObject put.now)
        (tree_of (listed containers.old))).reply) }
    ensures effect { OnOk result (containers.new ≡ (served (SwiftRequest.PutObject put.now)
        (listed containers.old)).containers) }
    ensures err { OnErr result (containers.new ≡ containers.old) }
{
    if is_taken_in_account(containers, put) {
        return Ok(SwiftReply::Exists);
    }
    serve_free_put(alloc, containers, put)
}

/// Whether a fresh object may not be put, since one is there under its name.
fn is_taken_in_account(containers: &List<Container>, put: &FilePut) -> bool
    ensures { result ≡ is_taken put.now.fresh
        (stored put.now.container put.now.name containers.now) }
{
    put.fresh
        && object_in_account(containers, put.container.as_slice(), put.name.as_slice()).is_some()
}

/// The same where its name isn't taken for it.
fn serve_free_put(
    alloc: Global,
    containers: &mut List<Container>,
    put: &FilePut,
) -> Result<SwiftReply, Memory>
    ensures reply { IfOk result (λ reply. reply ≡ (put_object
        (get (tree_of (listed containers.old)) put.now.container) put.now.container put.now.name
        (plain_file put.now) (tree_of (listed containers.old))).reply) }
    ensures effect { OnOk result (containers.new ≡ changed name_of put.now.container
        (with_object (stored_of put.now)) containers.old) }
    ensures err { OnErr result (containers.new ≡ containers.old) }
{
    let head = HeadGiven {
        name: &put.name,
        content_type: &put.content_type,
        meta: &put.meta,
    };
    let content = Content::Plain(put.body.copy()?);
    let object = object_for_account(&head, content)?;
    serve_put_object(alloc, containers, put.container.as_slice(), object)
}

/// Puts an object that lists these segments into a container that is there. Where memory runs out, nothing changes.
#[tactic(auto, using(crate::proofs::Serving::manifest_nowhere, crate::proofs::Serving::manifest_refused, crate::proofs::Serving::manifest_missed))]
fn serve_put_manifest(
    alloc: Global,
    containers: &mut List<Container>,
    container: &[u8],
    head: &HeadGiven<'_>,
    segments: &List<Segment>,
) -> Result<SwiftReply, Memory>
    requires { AreSized containers.old }
    ensures reply { IfOk result (λ reply. reply ≡ (swift_step
        (SwiftRequest.PutManifest container.now head.now.name.now head.now.content_type.now
        head.now.meta.now segments.now)
        (tree_of (listed containers.old))).reply) }
    ensures effect { OnOk result (containers.new ≡ (served
        (SwiftRequest.PutManifest container.now head.now.name.now head.now.content_type.now
        head.now.meta.now segments.now)
        (listed containers.old)).containers) }
    ensures err { OnErr result (containers.new ≡ containers.old) }
{
    match item_in_account(containers, container) {
        Some(_) => {
            if !is_good_list(alloc, containers, segments.as_slice())? {
                return Ok(SwiftReply::BadManifest);
            }
            let content = Content::Segments(segments.copy()?);
            let object = object_for_account(head, content)?;
            serve_put_object(alloc, containers, container, object)
        }
        None => Ok(SwiftReply::NotFound),
    }
}

/// Asks for an object's head.
#[tactic(auto, using(crate::proofs::Serving::head_object_some, crate::proofs::Serving::head_object_none, crate::proofs::Serving::sized_stored))]
fn serve_head_object(
    alloc: Global,
    containers: &List<Container>,
    container: &[u8],
    name: &[u8],
) -> Result<SwiftReply, Memory>
    requires { AreSized containers.now }
    ensures { IfOk result (λ reply. reply ≡ (swift_step
        (SwiftRequest.HeadObject container.now name.now) (tree_of (listed containers.now))).reply) }
{
    match object_in_account(containers, container, name) {
        Some(object) => Ok(SwiftReply::Head(head_of(alloc, object)?)),
        None => Ok(SwiftReply::NotFound),
    }
}

/// Asks for an object's head and bytes.
#[tactic(auto, using(crate::proofs::Serving::get_object_some, crate::proofs::Serving::get_object_none, crate::proofs::Serving::sized_stored))]
fn serve_get_object(
    alloc: Global,
    containers: &List<Container>,
    container: &[u8],
    name: &[u8],
    range: Option<(u64, u64)>,
) -> Result<SwiftReply, Memory>
    requires { AreSized containers.now }
    ensures { IfOk result (λ reply. reply ≡ (swift_step
        (SwiftRequest.GetObject container.now name.now range)
        (tree_of (listed containers.now))).reply) }
{
    match object_in_account(containers, container, name) {
        Some(object) => read_object_in_account(alloc, containers, object, range),
        None => Ok(SwiftReply::NotFound),
    }
}

/// Asks for the segments that an object lists.
#[tactic(auto, using(crate::proofs::Serving::manifest_some, crate::proofs::Serving::manifest_none_there))]
fn serve_get_manifest(
    containers: &List<Container>,
    container: &[u8],
    name: &[u8],
) -> Result<SwiftReply, Memory>
    ensures { IfOk result (λ reply. reply ≡ (swift_step
        (SwiftRequest.GetManifest container.now name.now)
        (tree_of (listed containers.now))).reply) }
{
    match object_in_account(containers, container, name) {
        Some(object) => manifest_reply_from_account(&object.content),
        None => Ok(SwiftReply::NotFound),
    }
}

/// The segments that a body lists.
fn manifest_reply_from_account(content: &Content) -> Result<SwiftReply, Memory>
    ensures { IfOk result (λ reply. reply ≡ manifest_by (listed_in content.now)) }
{
    match content {
        Content::Plain(_) => Ok(SwiftReply::NotFound),
        Content::Segments(segments) => Ok(SwiftReply::Manifest(segments.copy()?)),
    }
}

/// Takes the object of a name away, and says whether it was there.
#[tactic(auto, using(crate::proofs::ByName::found_at, crate::proofs::ByName::found_none, crate::proofs::ByName::without_missing))]
fn take_object_from_account(alloc: Global, objects: &mut List<Stored>, name: &[u8]) -> bool
    ensures there { result ≡ is_some (named object_name name.now objects.old) }
    ensures effect { objects.new ≡ without object_name name.now objects.old }
{
    let there = item_in_account(objects, name).is_some();
    take_away_from_account(alloc, objects, name);
    there
}

/// Takes an object away.
#[tactic(auto, using(crate::proofs::Serving::object_gone, crate::proofs::Serving::object_missing, crate::proofs::Serving::object_nowhere, crate::proofs::Serving::object_deleted, crate::proofs::Serving::missed))]
fn serve_delete_object(
    alloc: Global,
    containers: &mut List<Container>,
    container: &[u8],
    name: &[u8],
) -> SwiftReply
    ensures reply { result ≡ (swift_step (SwiftRequest.DeleteObject container.now name.now)
        (tree_of (listed containers.old))).reply }
    ensures effect { containers.new ≡ (served (SwiftRequest.DeleteObject container.now name.now)
        (listed containers.old)).containers }
{
    match containers.find(container) {
        Some(index) => {
            if take_object_from_account(alloc, &mut containers.at_mut(index).objects, name) {
                SwiftReply::Gone
            } else {
                SwiftReply::NotFound
            }
        }
        None => SwiftReply::NotFound,
    }
}

/// Makes a call on an account. Where memory runs out, nothing changes.
pub(crate) fn serve(
    alloc: Global,
    account: &mut Account,
    request: &SwiftRequest,
) -> Result<SwiftReply, Memory>
    requires ordered { IsOrdered account.old }
    requires sized { IsSized account.old }
    ensures reply { IfOk result
        (λ reply. reply ≡ (swift_step request.now (tree_of account.old)).reply) }
    ensures effect { OnOk result (account.new ≡ served request.now account.old) }
    ensures err { OnErr result (account.new ≡ account.old) }
{
    let containers = &mut account.containers;
    match request {
        SwiftRequest::ListContainers { marker, limit } => {
            serve_list_containers(alloc, containers, marker.as_slice(), *limit)
        }
        SwiftRequest::HeadContainer { container } => {
            Ok(serve_head_container(containers, container.as_slice()))
        }
        SwiftRequest::PutContainer {
            container,
            readers,
            created,
        } => serve_put_container(alloc, containers, container.as_slice(), *readers, *created),
        SwiftRequest::PostContainer { container, readers } => Ok(serve_post_container(
            containers,
            container.as_slice(),
            *readers,
        )),
        SwiftRequest::DeleteContainer { container } => Ok(serve_delete_container(
            alloc,
            containers,
            container.as_slice(),
        )),
        SwiftRequest::ListNames {
            container,
            prefix,
            marker,
            limit,
        } => serve_list_names(
            alloc,
            containers,
            container.as_slice(),
            prefix.as_slice(),
            marker.as_slice(),
            *limit,
        ),
        SwiftRequest::PutObject(put) => serve_put_plain_object(alloc, containers, put),
        SwiftRequest::PutManifest {
            container,
            name,
            content_type,
            meta,
            segments,
        } => {
            let head = HeadGiven {
                name,
                content_type,
                meta,
            };
            serve_put_manifest(alloc, containers, container.as_slice(), &head, segments)
        }
        SwiftRequest::HeadObject { container, name } => {
            serve_head_object(alloc, containers, container.as_slice(), name.as_slice())
        }
        SwiftRequest::GetObject {
            container,
            name,
            range,
        } => serve_get_object(
            alloc,
            containers,
            container.as_slice(),
            name.as_slice(),
            *range,
        ),
        SwiftRequest::GetManifest { container, name } => {
            serve_get_manifest(containers, container.as_slice(), name.as_slice())
        }
        SwiftRequest::DeleteObject { container, name } => Ok(serve_delete_object(
            alloc,
            containers,
            container.as_slice(),
            name.as_slice(),
        )),
    }
}
