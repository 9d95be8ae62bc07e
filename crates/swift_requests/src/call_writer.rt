//! Calls written.
ghost use Rattle.std.specs.Prelude.{◌≡◌, ◌++◌, IfOk, OnOk, length};
ghost use Rattle.http1.specs.Head.{print_header, print_headers};
ghost use Rattle.httparse.specs.Ascii.{crlf_bytes};
ghost use Rattle.swift_calls.specs.Step.{Fit};
ghost use Rattle.swift_requests.specs.Place.{IsPlace};
ghost use Rattle.swift_requests.specs.Calls.{SpellsRequest};
ghost use Rattle.swift_requests.specs.CallText.{method_text, body_of, body_with, line_text, call_fields, newest_fields, own_fields, content_fields, fresh_fields, readers_field, range_field, range_fields, call_text};
ghost use Rattle.swift_replies.specs.AnswerText.{readers_text};

use crate::Place;
use crate::call_target::append_target;
use crate::laws::law_call_reads_back;
use gate_base::{Bytes, List, Memory};
use slo_manifest::{Form, write};
use std::alloc::Global;
use swift_calls::{FilePut, ReadList, SwiftRequest};
use swift_replies::{
    append_swift_created, append_swift_header, append_swift_meta, append_swift_number_header,
    readers_text,
};
use text_forms::append_decimal;

/// Room for most heads, so that they are not moved as their text grows.
const HEAD_ROOM: usize = 1024;

/// The request of a call, in two pieces: its head, and what was made to stand behind it. The bytes of an object that is put aren't
/// made, they are the call's own.
#[derive(Drop)]
pub struct WrittenCall {
    pub head: Bytes,
    pub made: Bytes,
}

impl WrittenCall {
    /// What stands behind the head, where this was written for the call.
    pub fn body<'a>(&'a self, call: &'a SwiftRequest) -> &'a [u8]
        ensures { result.now ≡ body_with call.now self.now.made }
    {
        match call {
            SwiftRequest::PutObject(put) => put.body.as_slice(),
            _ => self.made.as_slice(),
        }
    }
}

/// The request of a call at the place: one whole message that spells the call, with the place's host and token and the
/// length of its body. Where it is `newest`, the answer shall be that of the newest of the replicas (`X-Newest: true`).
/// The bytes of an object aren't copied: [`WrittenCall::body`] lends them. The call is within the limits of a store, and
/// so the head has less than 16,384 bytes and fewer than 100 fields.
pub fn write_call(
    alloc: Global,
    place: &Place,
    call: &SwiftRequest,
    newest: bool,
) -> Result<WrittenCall, Memory>
    requires place { IsPlace place.now }
    requires fit { Fit call.now }
    ensures text { IfOk result
        (λ written. written.head ++ body_with call.now written.made
        ≡ call_text newest place.now call.now) }
    ensures spells { IfOk result (λ written. SpellsRequest place.now call.now
        (written.head ++ body_with call.now written.made)) }
{
    match call {
        SwiftRequest::PutObject(put) => {
            write_call_with_body(
                alloc,
                place,
                call,
                newest,
                put.body.len(),
                Bytes::new(alloc),
            )
        }
        SwiftRequest::PutManifest { segments, .. } => {
            let made = write(alloc, segments.as_slice(), Form::Put)?;
            let size = made.len();
            write_call_with_body(alloc, place, call, newest, size, made)
        }
        _ => write_call_with_body(alloc, place, call, newest, 0, Bytes::new(alloc)),
    }
}

/// The same with the body that was made for it, and the length of what is sent.
fn write_call_with_body(
    alloc: Global,
    place: &Place,
    call: &SwiftRequest,
    newest: bool,
    size: usize,
    made: Bytes,
) -> Result<WrittenCall, Memory>
    requires place { IsPlace place.now }
    requires fit { Fit call.now }
    requires body { body_with call.now made ≡ body_of call.now }
    requires size { size ≡ length (body_of call.now) }
    ensures text { IfOk result
        (λ written. written.head ++ body_with call.now written.made
        ≡ call_text newest place.now call.now) }
    ensures spells { IfOk result (λ written. SpellsRequest place.now call.now
        (written.head ++ body_with call.now written.made)) }
{
    law_call_reads_back();
    let head = written_call_head(alloc, place, call, newest, size)?;
    Ok(WrittenCall { head, made })
}

/// The request line, the header fields of a call whose body has so many bytes, and an empty line.
fn written_call_head(
    alloc: Global,
    place: &Place,
    call: &SwiftRequest,
    newest: bool,
    size: usize,
) -> Result<Bytes, Memory>
    requires { size ≡ length (body_of call.now) }
    ensures { IfOk result (λ head. head ≡ (line_text place.now call.now
        ++ print_headers (call_fields newest place.now call.now)) ++ crlf_bytes) }
{
    let mut head = Bytes::with_room(alloc, HEAD_ROOM)?;
    append_request_line(alloc, &mut head, place, call)?;
    append_call_fields(&mut head, place, call, newest, size)?;
    head.append(b"\r\n")?;
    Ok(head)
}

fn method_text(call: &SwiftRequest) -> &'static [u8]
    ensures { result.now ≡ method_text call.now }
{
    match call {
        SwiftRequest::ListContainers { .. } => b"GET",
        SwiftRequest::HeadContainer { .. } => b"HEAD",
        SwiftRequest::PutContainer { .. } => b"PUT",
        SwiftRequest::PostContainer { .. } => b"POST",
        SwiftRequest::DeleteContainer { .. } => b"DELETE",
        SwiftRequest::ListNames { .. } => b"GET",
        SwiftRequest::PutObject(_) => b"PUT",
        SwiftRequest::PutManifest { .. } => b"PUT",
        SwiftRequest::HeadObject { .. } => b"HEAD",
        SwiftRequest::GetObject { .. } => b"GET",
        SwiftRequest::GetManifest { .. } => b"GET",
        SwiftRequest::DeleteObject { .. } => b"DELETE",
    }
}

/// Adds the request line.
fn append_request_line(
    alloc: Global,
    text: &mut Bytes,
    place: &Place,
    call: &SwiftRequest,
) -> Result<(), Memory>
    ensures { OnOk result (text.new ≡ text.old ++ line_text place.now call.now) }
{
    text.append(method_text(call))?;
    text.append(b" ")?;
    append_target(alloc, text, place, call)?;
    text.append(b" HTTP/1.1\r\n")
}

/// Adds the header fields of a call whose body has so many bytes.
fn append_call_fields(
    text: &mut Bytes,
    place: &Place,
    call: &SwiftRequest,
    newest: bool,
    size: usize,
) -> Result<(), Memory>
    requires { size ≡ length (body_of call.now) }
    ensures { OnOk result (text.new ≡ text.old
        ++ print_headers (call_fields newest place.now call.now)) }
{
    append_swift_header(text, b"Host", place.host.as_slice())?;
    append_swift_header(text, b"X-Auth-Token", place.token.as_slice())?;
    append_asked_call_fields(text, call, newest)?;
    append_swift_number_header(text, b"Content-Length", size as u64)
}

/// Adds that all replicas are asked, where they are, and the fields of the call's own.
fn append_asked_call_fields(
    text: &mut Bytes,
    call: &SwiftRequest,
    newest: bool,
) -> Result<(), Memory>
    ensures { OnOk result (text.new ≡ text.old
        ++ print_headers (newest_fields newest ++ own_fields call.now)) }
{
    append_newest_field(text, newest)?;
    append_own_call_fields(text, call)
}

#[tactic(auto, using(crate::proofs::TextLemmas::one_field))]
fn append_newest_field(text: &mut Bytes, newest: bool) -> Result<(), Memory>
    ensures { OnOk result (text.new ≡ text.old ++ print_headers (newest_fields newest)) }
{
    if newest {
        append_swift_header(text, b"X-Newest", b"true")?;
    }
    Ok(())
}

/// Adds the fields of the call's own.
fn append_own_call_fields(text: &mut Bytes, call: &SwiftRequest) -> Result<(), Memory>
    ensures { OnOk result (text.new ≡ text.old ++ print_headers (own_fields call.now)) }
{
    match call {
        SwiftRequest::PutContainer {
            readers,
            created,
            ..
        } => {
            append_call_readers(text, *readers)?;
            append_swift_created(text, *created)
        }
        SwiftRequest::PostContainer { readers, .. } => append_call_readers(text, *readers),
        SwiftRequest::PutObject(put) => append_put_object_fields(text, put),
        SwiftRequest::PutManifest {
            content_type,
            meta,
            ..
        } => append_call_content(text, content_type, meta),
        SwiftRequest::GetObject { range, .. } => append_call_range_if_asked(text, *range),
        _ => Ok(()),
    }
}

/// Adds the fields of an object that is put with its own bytes.
fn append_put_object_fields(text: &mut Bytes, put: &FilePut) -> Result<(), Memory>
    ensures { OnOk result (text.new ≡ text.old ++ print_headers
        (content_fields put.now.content_type put.now.meta ++ fresh_fields put.now.fresh)) }
{
    append_call_content(text, &put.content_type, &put.meta)?;
    append_fresh_field(text, put.fresh)
}

#[tactic(auto, using(crate::proofs::TextLemmas::one_field))]
fn append_fresh_field(text: &mut Bytes, fresh: bool) -> Result<(), Memory>
    ensures { OnOk result (text.new ≡ text.old ++ print_headers (fresh_fields fresh)) }
{
    if fresh {
        append_swift_header(text, b"If-None-Match", b"*")?;
    }
    Ok(())
}

/// Adds the type and the metadata of an object that is put.
fn append_call_content(
    text: &mut Bytes,
    content_type: &Bytes,
    meta: &List<Bytes>,
) -> Result<(), Memory>
    ensures { OnOk result
        (text.new ≡ text.old ++ print_headers (content_fields content_type.now meta.now)) }
{
    append_swift_header(text, b"Content-Type", content_type.as_slice())?;
    append_swift_meta(text, meta.as_slice())
}

fn append_call_readers(text: &mut Bytes, readers: ReadList) -> Result<(), Memory>
    ensures { OnOk result (text.new ≡ text.old ++ print_header (readers_field readers)) }
{
    append_swift_header(text, b"X-Container-Read", readers_text(readers))
}

fn append_call_range_if_asked(text: &mut Bytes, range: Option<(u64, u64)>) -> Result<(), Memory>
    ensures { OnOk result (text.new ≡ text.old ++ print_headers (range_fields range)) }
{
    match range {
        Some((first, last)) => append_call_range(text, first, last),
        None => Ok(()),
    }
}

fn append_call_range(text: &mut Bytes, first: u64, last: u64) -> Result<(), Memory>
    ensures { OnOk result (text.new ≡ text.old ++ print_header (range_field first last)) }
{
    text.append(b"Range: bytes=")?;
    append_decimal(text, first)?;
    text.append(b"-")?;
    append_decimal(text, last)?;
    text.append(b"\r\n")
}
