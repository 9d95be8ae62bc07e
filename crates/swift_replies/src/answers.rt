//! Answers as they are read.
ghost use Rattle.std.specs.Prelude.{◌≡◌, ◌≤◌, ◌-◌, ◌+◌, min, drop, length, option_map, IfOk, Some};
ghost use Rattle.http_answers.specs.Head.{Shows};
ghost use Rattle.http_answers.specs.declared.head.Front.TheVariants.{Whole};
ghost use Rattle.swift_statuses.specs.Statuses.{missing, gone, put_reply, delete_reply};
ghost use Rattle.swift_replies.specs.Answers.{ReadsAnswer, asks_head, reply_body_by_size, reply_of, containers_reply, names_reply, head_container_reply, readers_reply, exists_reply, put_object_reply, stored_reply, put_manifest_reply, head_object_reply, head_reply, is_part, sized_bytes_reply, part_reply, beyond, bytes_reply};

use crate::WireFault;
use crate::fields::container_created_in;
use crate::lists::items_in_listing;
use crate::manifests::get_manifest_reply;
use crate::objects::head_in;
use crate::values::{etag_in, reply_readers_in, whole_size_in};
use gate_base::{Bytes, List, Memory, Pair};
use http_answers::{Front, Head, answer_content_length, expected, find_head};
use std::alloc::Global;
use swift_calls::{StoredHead, SwiftReply, SwiftRequest};
use swift_statuses::{delete_reply, gone, missing, put_reply};

/// The reply that the bytes of one whole answer spell to a call (Object Storage API v1). Further headers, and further
/// fields of JSON, count for nothing. `NotAnAnswer` exactly where they spell none; a body is copied once.
#[tactic(auto, using(crate::proofs::AnswerLemmas::none_open, crate::proofs::AnswerLemmas::none_dead))]
pub fn read_answer(
    alloc: Global,
    call: &SwiftRequest,
    bytes: &[u8],
) -> Result<SwiftReply, WireFault>
    ensures { ReadsAnswer call.now bytes.now result }
{
    match find_head(alloc, bytes)? {
        Front::Whole(found) => read_answer_with_head(alloc, call, bytes, &found),
        Front::More => Err(WireFault::NotAnAnswer),
        Front::Dead => Err(WireFault::NotAnAnswer),
    }
}

/// The same where the head was found.
#[tactic(auto, using(crate::proofs::AnswerLemmas::reads_reply, crate::proofs::AnswerLemmas::reads_none, crate::proofs::AnswerLemmas::reads_no_body))]
fn read_answer_with_head(
    alloc: Global,
    call: &SwiftRequest,
    bytes: &[u8],
    found: &Head,
) -> Result<SwiftReply, WireFault>
    requires { Shows bytes.now (Whole found.now) }
    ensures { ReadsAnswer call.now bytes.now result }
{
    let headers = found.headers.as_slice();
    let size = expected(asks_head(call), found.status, headers);
    let Some(body) = reply_body_by_size(bytes, found.len, size) else {
        return Err(WireFault::NotAnAnswer);
    };
    match reply_of(alloc, call, found.status, headers, body)? {
        Some(reply) => Ok(reply),
        None => Err(WireFault::NotAnAnswer),
    }
}

/// The body, where the bytes are a head of this length and exactly the body that has to follow.
fn reply_body_by_size(bytes: &[u8], len: usize, size: Option<u64>) -> Option<&[u8]>
    requires { len ≤ length bytes.now }
    ensures { option_map (λ body. body.now) result ≡ reply_body_by_size bytes.now len size }
{
    let body = &bytes[len..];
    if body.len() as u64 == size? {
        Some(body)
    } else {
        None
    }
}

/// Whether the call is sent with HEAD.
pub(crate) fn asks_head(call: &SwiftRequest) -> bool
    ensures { result ≡ asks_head call.now }
{
    match call {
        SwiftRequest::HeadContainer { .. } | SwiftRequest::HeadObject { .. } => true,
        _ => false,
    }
}

/// The reply that an answer gives to a call, if it gives one. The body of an object is copied.
pub(crate) fn reply_of(
    alloc: Global,
    call: &SwiftRequest,
    status: u16,
    headers: &[Pair],
    body: &[u8],
) -> Result<Option<SwiftReply>, Memory>
    ensures { IfOk result (λ reply. reply ≡ reply_of call.now
        (record { status = status; headers = headers.now; body = body.now })) }
{
    match call {
        SwiftRequest::ListContainers { .. } => containers_reply(alloc, status, body),
        SwiftRequest::HeadContainer { .. } => Ok(head_container_reply(status, headers)),
        SwiftRequest::PutContainer { .. } => Ok(put_reply(status)),
        SwiftRequest::PostContainer { .. } => Ok(gone(status)),
        SwiftRequest::DeleteContainer { .. } => Ok(delete_reply(status)),
        SwiftRequest::ListNames { .. } => names_reply(alloc, status, body),
        SwiftRequest::PutObject(put) => put_object_reply(alloc, put.fresh, status, headers),
        SwiftRequest::PutManifest { .. } => put_manifest_reply(alloc, status, headers),
        SwiftRequest::HeadObject { .. } => head_object_reply(alloc, status, headers),
        SwiftRequest::GetObject { range, .. } => {
            let body = Bytes::from_slice(alloc, body)?;
            bytes_reply(alloc, *range, status, headers, body)
        }
        SwiftRequest::GetManifest { .. } => get_manifest_reply(alloc, status, headers, body),
        SwiftRequest::DeleteObject { .. } => Ok(gone(status)),
    }
}

fn containers_reply(alloc: Global, status: u16, body: &[u8]) -> Result<Option<SwiftReply>, Memory>
    ensures { IfOk result (λ reply. reply ≡ containers_reply status body.now) }
{
    if status == 200 {
        return match items_in_listing(alloc, body)? {
            Some(names) => Ok(Some(SwiftReply::Containers(names))),
            None => Ok(None),
        };
    }
    if status == 204 {
        Ok(Some(SwiftReply::Containers(List::new(alloc))))
    } else {
        Ok(None)
    }
}

fn names_reply(alloc: Global, status: u16, body: &[u8]) -> Result<Option<SwiftReply>, Memory>
    ensures { IfOk result (λ reply. reply ≡ names_reply status body.now) }
{
    if status == 200 {
        return match items_in_listing(alloc, body)? {
            Some(items) => Ok(Some(SwiftReply::Names(items))),
            None => Ok(None),
        };
    }
    if status == 204 {
        Ok(Some(SwiftReply::Names(List::new(alloc))))
    } else {
        Ok(missing(status))
    }
}

fn head_container_reply(status: u16, headers: &[Pair]) -> Option<SwiftReply>
    ensures { result ≡ head_container_reply status headers.now }
{
    if status == 204 {
        readers_reply(headers)
    } else {
        missing(status)
    }
}

fn readers_reply(headers: &[Pair]) -> Option<SwiftReply>
    ensures { result ≡ readers_reply headers.now }
{
    let readers = reply_readers_in(headers)?;
    let created = container_created_in(headers)?;
    Some(SwiftReply::Readers { readers, created })
}

fn put_object_reply(
    alloc: Global,
    fresh: bool,
    status: u16,
    headers: &[Pair],
) -> Result<Option<SwiftReply>, Memory>
    ensures { IfOk result (λ reply. reply ≡ put_object_reply fresh status headers.now) }
{
    if status == 201 {
        return stored_reply(alloc, headers);
    }
    if status == 412 {
        Ok(exists_reply(fresh))
    } else {
        Ok(missing(status))
    }
}

fn exists_reply(fresh: bool) -> Option<SwiftReply>
    ensures { result ≡ exists_reply fresh }
{
    if fresh {
        Some(SwiftReply::Exists)
    } else {
        None
    }
}

fn stored_reply(alloc: Global, headers: &[Pair]) -> Result<Option<SwiftReply>, Memory>
    ensures { IfOk result (λ reply. reply ≡ stored_reply headers.now) }
{
    match etag_in(headers) {
        Some(etag) => Ok(Some(SwiftReply::Stored {
            etag: Bytes::from_slice(alloc, etag)?,
        })),
        None => Ok(None),
    }
}

fn put_manifest_reply(
    alloc: Global,
    status: u16,
    headers: &[Pair],
) -> Result<Option<SwiftReply>, Memory>
    ensures { IfOk result (λ reply. reply ≡ put_manifest_reply status headers.now) }
{
    if status == 400 {
        Ok(Some(SwiftReply::BadManifest))
    } else {
        put_object_reply(alloc, false, status, headers)
    }
}

fn head_object_reply(
    alloc: Global,
    status: u16,
    headers: &[Pair],
) -> Result<Option<SwiftReply>, Memory>
    ensures { IfOk result (λ reply. reply ≡ head_object_reply status headers.now) }
{
    if status == 200 {
        head_reply(alloc, headers)
    } else {
        Ok(missing(status))
    }
}

fn head_reply(alloc: Global, headers: &[Pair]) -> Result<Option<SwiftReply>, Memory>
    ensures { IfOk result (λ reply. reply ≡ head_reply headers.now) }
{
    match head_in(alloc, answer_content_length(headers), headers)? {
        Some(head) => Ok(Some(SwiftReply::Head(head))),
        None => Ok(None),
    }
}

/// What a GET of an object is answered. The body is moved.
pub(crate) fn bytes_reply(
    alloc: Global,
    range: Option<(u64, u64)>,
    status: u16,
    headers: &[Pair],
    body: Bytes,
) -> Result<Option<SwiftReply>, Memory>
    ensures { IfOk result (λ reply. reply ≡ bytes_reply range status headers.now body) }
{
    if status == 200 {
        let head = head_in(alloc, answer_content_length(headers), headers)?;
        return Ok(sized_bytes_reply(range, head, body));
    }
    if status == 206 {
        return part_reply(alloc, range, headers, body);
    }
    if status == 416 {
        Ok(beyond(range))
    } else {
        Ok(missing(status))
    }
}

fn part_reply(
    alloc: Global,
    range: Option<(u64, u64)>,
    headers: &[Pair],
    body: Bytes,
) -> Result<Option<SwiftReply>, Memory>
    ensures { IfOk result (λ reply. reply ≡ part_reply range headers.now body) }
{
    match range {
        Some(range) => {
            let head = head_in(alloc, whole_size_in(headers), headers)?;
            Ok(sized_bytes_reply(Some(range), head, body))
        }
        None => Ok(None),
    }
}

fn beyond(range: Option<(u64, u64)>) -> Option<SwiftReply>
    ensures { result ≡ beyond range }
{
    match range {
        Some(_) => Some(SwiftReply::Unsatisfiable),
        None => None,
    }
}

/// The bytes of an object, where they are as many as its size and the range say.
fn sized_bytes_reply(
    range: Option<(u64, u64)>,
    head: Option<StoredHead>,
    body: Bytes,
) -> Option<SwiftReply>
    ensures { result ≡ sized_bytes_reply range head body }
{
    let head = head?;
    if is_part(range, head.size, body.len()) {
        Some(SwiftReply::Bytes { head, body })
    } else {
        None
    }
}

/// Whether so many bytes are those of the range of an object of this size.
pub(crate) fn is_part(range: Option<(u64, u64)>, size: u64, count: usize) -> bool
    ensures { result ≡ is_part range size count }
{
    match range {
        None => count as u64 == size,
        Some((first, last)) => {
            first < size && count as u64 == reply_range_end(last, size).saturating_sub(first)
        }
    }
}

/// The end of a range in an object of this size.
fn reply_range_end(last: u64, size: u64) -> u64
    ensures { result ≡ min (last + 1) size }
{
    if last < size { last + 1 } else { size }
}
