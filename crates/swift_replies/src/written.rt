//! Answers as they are written.
ghost use Rattle.std.specs.Prelude.{◌≡◌, ◌++◌, ◌&&◌, ◌∷◌, [], ◌+◌, ◌<◌, ◌^◌, length, nat_le, if◌then◌else◌, IfOk, OnOk, not, codes, Some, None};
ghost use Rattle.std.specs.List.{list_all};
ghost use Rattle.swift_replies.specs.Answers.{is_part};
ghost use Rattle.http1.specs.Head.{is_trimmed_value, print_header, print_headers};
ghost use Rattle.swift_replies.specs.AnswerText.{answer_text, text_by, refusal, status_line, length_field, put_sent, post_sent, delete_sent, list_containers_sent, head_container_sent, list_names_sent, exists_sent, put_object_sent, head_object_sent, get_sent, is_spelled_created, readers_fields, readers_sent, etag_field, stored_sent, manifest_fields, object_fields, is_spelled_size, is_meta, is_head, head_sent, range_text, within_limit, bytes_by, bytes_sent, containers_sent, names_sent, list_sent, sent_text, put_manifest_sent, get_manifest_sent, segments_by, segments_sent};

use crate::answers::is_part;
use crate::header_text::{
    append_answer_status, append_swift_created, append_swift_header, append_swift_meta,
    append_swift_number_header, readers_text,
};
use crate::list_text::listing_text;
use crate::values::is_tag;
use gate_base::{Bytes, MOMENT_LIMIT, Memory};
use http_answers::HEAD_LIMIT;
use httparse::{is_header_value, is_space_or_tab};
use slo_manifest::{Form, Segment, is_manifest, write};
use std::alloc::Global;
use swift_calls::{NameItem, ReadList, StoredHead, SwiftReply, SwiftRequest};
use text_forms::append_decimal;

/// Room for most heads, so that no body is moved as its text grows.
const HEAD_ROOM: usize = 1024;

/// The pieces of metadata that are read, at most.
const MOST_PIECES: usize = 11;

/// The sizes that are read are below this: 10^19.
const SIZE_LIMIT: u64 = 10_000_000_000_000_000_000;

/// The bytes of the answer to a call: Content-Length first, then the headers of the reply, no Date, and JSON without a
/// space (Object Storage API v1). A reply without a spelling to that call gives an answer of status 500 and length 0,
/// which spells nothing. It fails only where memory runs out; a body is copied once.
pub fn write_answer(alloc: Global, call: &SwiftRequest, reply: &SwiftReply) -> Result<Bytes, Memory>
    ensures { IfOk result (λ text. text ≡ answer_text call.now reply.now) }
{
    match call {
        SwiftRequest::ListContainers { .. } => list_containers_answer(alloc, reply),
        SwiftRequest::HeadContainer { .. } => head_container_answer(alloc, reply),
        SwiftRequest::PutContainer { .. } => put_container_answer(alloc, reply),
        SwiftRequest::PostContainer { .. } => post_answer(alloc, reply),
        SwiftRequest::DeleteContainer { .. } => delete_answer(alloc, reply),
        SwiftRequest::ListNames { .. } => list_names_answer(alloc, reply),
        SwiftRequest::PutObject(put) => put_object_answer(alloc, put.fresh, reply),
        SwiftRequest::PutManifest { .. } => put_manifest_answer(alloc, reply),
        SwiftRequest::HeadObject { .. } => head_object_answer(alloc, reply),
        SwiftRequest::GetObject { range, .. } => get_object_answer(alloc, *range, reply),
        SwiftRequest::GetManifest { .. } => get_manifest_answer(alloc, reply),
        SwiftRequest::DeleteObject { .. } => post_answer(alloc, reply),
    }
}

/// An answer that says its status alone, with a Content-Length of 0: what a store answers to a message that is no call
/// or that it can't serve.
#[tactic(auto, using(crate::proofs::SentLemmas::sent_parts))]
pub fn refusal(alloc: Global, status: u16) -> Result<Bytes, Memory>
    ensures { IfOk result (λ text. text ≡ refusal status) }
{
    let mut text = begin_answer(alloc, status, 0, 0)?;
    append_answer_body(&mut text, b"")?;
    Ok(text)
}

fn put_container_answer(alloc: Global, reply: &SwiftReply) -> Result<Bytes, Memory>
    ensures { IfOk result (λ text. text ≡ text_by (put_sent reply.now)) }
{
    match reply {
        SwiftReply::Made => refusal(alloc, 201),
        SwiftReply::There => refusal(alloc, 202),
        _ => refusal(alloc, 500),
    }
}

fn post_answer(alloc: Global, reply: &SwiftReply) -> Result<Bytes, Memory>
    ensures { IfOk result (λ text. text ≡ text_by (post_sent reply.now)) }
{
    match reply {
        SwiftReply::Gone => refusal(alloc, 204),
        SwiftReply::NotFound => refusal(alloc, 404),
        _ => refusal(alloc, 500),
    }
}

fn delete_answer(alloc: Global, reply: &SwiftReply) -> Result<Bytes, Memory>
    ensures { IfOk result (λ text. text ≡ text_by (delete_sent reply.now)) }
{
    match reply {
        SwiftReply::NotEmpty => refusal(alloc, 409),
        _ => post_answer(alloc, reply),
    }
}

fn list_containers_answer(alloc: Global, reply: &SwiftReply) -> Result<Bytes, Memory>
    ensures { IfOk result (λ text. text ≡ text_by (list_containers_sent reply.now)) }
{
    match reply {
        SwiftReply::Containers(names) => containers_answer(alloc, names.as_slice()),
        _ => refusal(alloc, 500),
    }
}

fn head_container_answer(alloc: Global, reply: &SwiftReply) -> Result<Bytes, Memory>
    ensures { IfOk result (λ text. text ≡ text_by (head_container_sent reply.now)) }
{
    match reply {
        SwiftReply::Readers { readers, created } => readers_answer(alloc, *readers, *created),
        SwiftReply::NotFound => refusal(alloc, 404),
        _ => refusal(alloc, 500),
    }
}

fn list_names_answer(alloc: Global, reply: &SwiftReply) -> Result<Bytes, Memory>
    ensures { IfOk result (λ text. text ≡ text_by (list_names_sent reply.now)) }
{
    match reply {
        SwiftReply::Names(items) => names_answer(alloc, items.as_slice()),
        SwiftReply::NotFound => refusal(alloc, 404),
        _ => refusal(alloc, 500),
    }
}

fn put_object_answer(alloc: Global, fresh: bool, reply: &SwiftReply) -> Result<Bytes, Memory>
    ensures { IfOk result (λ text. text ≡ text_by (put_object_sent fresh reply.now)) }
{
    match reply {
        SwiftReply::Stored { etag } => stored_answer(alloc, etag.as_slice()),
        SwiftReply::NotFound => refusal(alloc, 404),
        SwiftReply::Exists => exists_answer(alloc, fresh),
        _ => refusal(alloc, 500),
    }
}

fn exists_answer(alloc: Global, fresh: bool) -> Result<Bytes, Memory>
    ensures { IfOk result (λ text. text ≡ text_by (exists_sent fresh)) }
{
    if fresh {
        refusal(alloc, 412)
    } else {
        refusal(alloc, 500)
    }
}

fn put_manifest_answer(alloc: Global, reply: &SwiftReply) -> Result<Bytes, Memory>
    ensures { IfOk result (λ text. text ≡ text_by (put_manifest_sent reply.now)) }
{
    match reply {
        SwiftReply::BadManifest => refusal(alloc, 400),
        _ => put_object_answer(alloc, false, reply),
    }
}

fn head_object_answer(alloc: Global, reply: &SwiftReply) -> Result<Bytes, Memory>
    ensures { IfOk result (λ text. text ≡ text_by (head_object_sent reply.now)) }
{
    match reply {
        SwiftReply::Head(head) => head_answer(alloc, head),
        SwiftReply::NotFound => refusal(alloc, 404),
        _ => refusal(alloc, 500),
    }
}

fn get_object_answer(
    alloc: Global,
    range: Option<(u64, u64)>,
    reply: &SwiftReply,
) -> Result<Bytes, Memory>
    ensures { IfOk result (λ text. text ≡ text_by (get_sent range reply.now)) }
{
    match reply {
        SwiftReply::Bytes { head, body } => bytes_answer(alloc, range, head, body.as_slice()),
        SwiftReply::NotFound => refusal(alloc, 404),
        SwiftReply::Unsatisfiable => match range {
            Some(_) => refusal(alloc, 416),
            None => refusal(alloc, 500),
        },
        _ => refusal(alloc, 500),
    }
}

fn get_manifest_answer(alloc: Global, reply: &SwiftReply) -> Result<Bytes, Memory>
    ensures { IfOk result (λ text. text ≡ text_by (get_manifest_sent reply.now)) }
{
    match reply {
        SwiftReply::Manifest(segments) => segments_answer(alloc, segments.as_slice()),
        SwiftReply::NotFound => refusal(alloc, 404),
        _ => refusal(alloc, 500),
    }
}

/// The status line and Content-Length, with room for a body.
fn begin_answer(alloc: Global, status: u16, size: u64, room: usize) -> Result<Bytes, Memory>
    ensures { IfOk result
        (λ text. text ≡ status_line status ++ print_headers (length_field size ∷ [])) }
{
    let mut text = Bytes::with_room(alloc, room.saturating_add(HEAD_ROOM))?;
    append_answer_status(&mut text, status)?;
    append_answer_length(&mut text, size)?;
    Ok(text)
}

#[tactic(auto, using(crate::proofs::SentLemmas::one_header))]
fn append_answer_length(text: &mut Bytes, size: u64) -> Result<(), Memory>
    ensures { OnOk result (text.new ≡ text.old ++ print_headers (length_field size ∷ [])) }
{
    append_swift_number_header(text, b"Content-Length", size)?;
    Ok(())
}

/// Adds the empty line and the body.
fn append_answer_body(text: &mut Bytes, body: &[u8]) -> Result<(), Memory>
    ensures { OnOk result (text.new ≡ (text.old ++ 13 ∷ 10 ∷ []) ++ body.now) }
{
    text.append(b"\r\n")?;
    text.append(body)
}

/// The same for a head of at most 65,536 bytes, and else an answer of status 500.
fn head_limited_answer(alloc: Global, head: Bytes, body: &[u8]) -> Result<Bytes, Memory>
    ensures { IfOk result (λ text. text ≡ (if nat_le (length (head ++ 13 ∷ 10 ∷ [])) HEAD_LIMIT then
        (head ++ 13 ∷ 10 ∷ []) ++ body.now else refusal 500)) }
{
    let mut text = head;
    text.append(b"\r\n")?;
    if is_written_head_too_long(&text) {
        return refusal(alloc, 500);
    }
    text.append(body)?;
    Ok(text)
}

fn is_written_head_too_long(text: &Bytes) -> bool
    ensures { result ≡ not (nat_le (length text.now) HEAD_LIMIT) }
{
    text.len() > HEAD_LIMIT
}

fn is_spelled_created(created: Option<u64>) -> bool
    ensures { result ≡ is_spelled_created created }
{
    match created {
        Some(moment) => moment < MOMENT_LIMIT,
        None => true,
    }
}

fn readers_answer(alloc: Global, readers: ReadList, created: Option<u64>) -> Result<Bytes, Memory>
    ensures { IfOk result (λ text. text ≡ text_by (readers_sent readers created)) }
{
    if !is_spelled_created(created) {
        return refusal(alloc, 500);
    }
    let mut text = begin_answer(alloc, 204, 0, 0)?;
    append_swift_header(&mut text, b"X-Container-Read", readers_text(readers))?;
    append_swift_created(&mut text, created)?;
    append_answer_body(&mut text, b"")?;
    Ok(text)
}

#[tactic(auto, using(crate::proofs::SentLemmas::stored_is))]
fn stored_answer(alloc: Global, etag: &[u8]) -> Result<Bytes, Memory>
    ensures { IfOk result (λ text. text ≡ text_by (stored_sent etag.now)) }
{
    if !is_tag(etag) {
        return refusal(alloc, 500);
    }
    let mut text = begin_answer(alloc, 201, 0, 0)?;
    append_swift_header(&mut text, b"Etag", etag)?;
    let answer = head_limited_answer(alloc, text, b"")?;
    Ok(answer)
}

/// Whether the value of a header is read as it is written.
fn is_trimmed_header_value(value: &[u8]) -> bool
    ensures { result ≡ is_trimmed_value value.now }
{
    match value {
        [] => true,
        [first, ..] if is_space_or_tab(*first) => false,
        [.., last] if is_space_or_tab(*last) => false,
        _ => is_header_value(value),
    }
}

fn are_trimmed_header_values(values: &[Bytes]) -> bool
    ensures { result ≡ list_all is_trimmed_value values.now }
{
    values
        .iter()
        .all(|value| is_trimmed_header_value(value.as_slice()))
}

fn is_meta(pieces: &[Bytes]) -> bool
    ensures { result ≡ is_meta pieces.now }
{
    pieces.len() <= MOST_PIECES && are_trimmed_header_values(pieces)
}

fn is_spelled_size(size: u64) -> bool
    ensures { result ≡ is_spelled_size size }
{
    size < SIZE_LIMIT
}

fn is_head(head: &StoredHead) -> bool
    ensures { result ≡ is_head head.now }
{
    is_trimmed_header_value(head.content_type.as_slice())
        && (is_tag(head.etag.as_slice())
            && (is_spelled_size(head.size) && is_meta(head.meta.as_slice())))
}

fn append_answer_object_headers(text: &mut Bytes, head: &StoredHead) -> Result<(), Memory>
    ensures { OnOk result (text.new ≡ text.old ++ print_headers (object_fields head.now)) }
{
    append_swift_header(text, b"Content-Type", head.content_type.as_slice())?;
    append_swift_header(text, b"Etag", head.etag.as_slice())?;
    append_answer_manifest_flag(text, head.manifest)?;
    append_swift_meta(text, head.meta.as_slice())?;
    Ok(())
}

#[tactic(auto, using(crate::proofs::SentLemmas::one_header))]
fn append_answer_manifest_flag(text: &mut Bytes, manifest: bool) -> Result<(), Memory>
    ensures { OnOk result (text.new ≡ text.old ++ print_headers (manifest_fields manifest)) }
{
    if manifest {
        append_swift_header(text, b"X-Static-Large-Object", b"True")?;
    }
    Ok(())
}

#[tactic(auto, using(crate::proofs::SentLemmas::head_answer_is))]
fn head_answer(alloc: Global, head: &StoredHead) -> Result<Bytes, Memory>
    ensures { IfOk result (λ text. text ≡ text_by (head_sent head.now)) }
{
    if !is_head(head) {
        return refusal(alloc, 500);
    }
    let mut text = begin_answer(alloc, 200, head.size, 0)?;
    append_answer_object_headers(&mut text, head)?;
    let answer = head_limited_answer(alloc, text, b"")?;
    Ok(answer)
}

fn bytes_answer(
    alloc: Global,
    range: Option<(u64, u64)>,
    head: &StoredHead,
    body: &[u8],
) -> Result<Bytes, Memory>
    ensures { IfOk result (λ text. text ≡ text_by (bytes_sent range head.now body.now)) }
{
    if !is_spelled_content(range, head, body.len()) {
        return refusal(alloc, 500);
    }
    match range {
        Some((first, last)) => part_answer(alloc, first, last, head, body),
        None => whole_object_answer(alloc, head, body),
    }
}

fn is_spelled_content(range: Option<(u64, u64)>, head: &StoredHead, count: usize) -> bool
    ensures { result ≡ (is_part range head.now.size count && is_head head.now) }
{
    is_part(range, head.size, count) && is_head(head)
}

#[tactic(auto, using(crate::proofs::SentLemmas::whole_is))]
fn whole_object_answer(alloc: Global, head: &StoredHead, body: &[u8]) -> Result<Bytes, Memory>
    ensures { IfOk result
        (λ text. text ≡ text_by (within_limit (bytes_by None head.now body.now))) }
{
    let mut text = begin_answer(alloc, 200, body.len() as u64, body.len())?;
    append_answer_object_headers(&mut text, head)?;
    let answer = head_limited_answer(alloc, text, body)?;
    Ok(answer)
}

fn part_answer(
    alloc: Global,
    first: u64,
    last: u64,
    head: &StoredHead,
    body: &[u8],
) -> Result<Bytes, Memory>
    requires { first + length body.now < 2 ^ 64 }
    ensures { IfOk result
        (λ text. text ≡ text_by (within_limit (bytes_by (Some (first, last)) head.now body.now))) }
{
    let mut text = begin_answer(alloc, 206, body.len() as u64, body.len())?;
    append_answer_object_headers(&mut text, head)?;
    append_answer_content_range(&mut text, first, body.len() as u64, head.size)?;
    let answer = head_limited_answer(alloc, text, body)?;
    Ok(answer)
}

#[tactic(auto, using(crate::proofs::SentLemmas::header_is))]
fn append_answer_content_range(
    text: &mut Bytes,
    first: u64,
    count: u64,
    size: u64,
) -> Result<(), Memory>
    requires { first + count < 2 ^ 64 }
    ensures { OnOk result (text.new ≡ text.old
        ++ print_header (codes "Content-Range", range_text first count size)) }
{
    text.append(b"Content-Range")?;
    text.append(b": ")?;
    append_answer_range_value(text, first, count, size)?;
    text.append(b"\r\n")
}

#[tactic(auto, using(crate::proofs::SentLemmas::range_is))]
fn append_answer_range_value(
    text: &mut Bytes,
    first: u64,
    count: u64,
    size: u64,
) -> Result<(), Memory>
    requires { first + count < 2 ^ 64 }
    ensures { OnOk result (text.new ≡ text.old ++ range_text first count size) }
{
    text.append(b"bytes ")?;
    append_decimal(text, first)?;
    text.append(b"-")?;
    append_decimal(text, (first + count).saturating_sub(1))?;
    text.append(b"/")?;
    append_decimal(text, size)
}

fn containers_answer(alloc: Global, names: &[Bytes]) -> Result<Bytes, Memory>
    ensures { IfOk result (λ text. text ≡ text_by (containers_sent names.now)) }
{
    match listing_text(alloc, names)? {
        Some(text) => json_listing_answer(alloc, text.as_slice()),
        None => refusal(alloc, 500),
    }
}

fn names_answer(alloc: Global, items: &[NameItem]) -> Result<Bytes, Memory>
    ensures { IfOk result (λ text. text ≡ text_by (names_sent items.now)) }
{
    match listing_text(alloc, items)? {
        Some(text) => json_listing_answer(alloc, text.as_slice()),
        None => refusal(alloc, 500),
    }
}

#[tactic(auto, using(crate::proofs::SentLemmas::sent_parts))]
fn json_listing_answer(alloc: Global, body: &[u8]) -> Result<Bytes, Memory>
    ensures { IfOk result (λ text. text ≡ sent_text (list_sent body.now)) }
{
    let mut text = begin_answer(alloc, 200, body.len() as u64, body.len())?;
    append_answer_body(&mut text, body)?;
    Ok(text)
}

fn segments_answer(alloc: Global, segments: &[Segment]) -> Result<Bytes, Memory>
    ensures { IfOk result (λ text. text ≡ text_by (segments_sent segments.now)) }
{
    if !is_manifest(segments) {
        return refusal(alloc, 500);
    }
    let body = write(alloc, segments, Form::Got)?;
    json_segments_answer(alloc, body.as_slice())
}

#[tactic(auto, using(crate::proofs::SentLemmas::join_headers, crate::proofs::SentLemmas::sent_parts))]
fn json_segments_answer(alloc: Global, body: &[u8]) -> Result<Bytes, Memory>
    ensures { IfOk result (λ text. text ≡ sent_text (segments_by body.now)) }
{
    let mut text = begin_answer(alloc, 200, body.len() as u64, body.len())?;
    append_answer_manifest_flag(&mut text, true)?;
    append_answer_body(&mut text, body)?;
    Ok(text)
}
