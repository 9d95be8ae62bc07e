//! Calls and answers in HTTP.
ghost use Rattle.std.specs.Prelude.{IfSome};
ghost use Rattle.swift_calls.specs.Step.{Fit};
ghost use Rattle.swift_requests.specs.Place.{IsPlace};

use crate::talk::Talk;
use case_text::{
    Fault, Told, bytes_of_escaped_text, copy_of_bytes, tell_owned_value, tell_value, text_of_bytes,
};
use gate_base::{Bytes, List, Memory, drop};
use http_answers::answer_end;
use http_wire::{Got, Message};
use std::alloc::Global;
use swift_calls::{FilePut, SwiftRequest, drop_request, is_fit};
use swift_replies::{WireFault, read_answer};
use swift_requests::{Place, has_account_token, is_place, read_call, write_call};

/// A place of a store: its host, its account and its token.
pub fn place_of_store(
    alloc: Global,
    host: &[u8],
    account: &[u8],
    token: &[u8],
    told: &mut Told,
) -> Option<Place>
    ensures { IfSome result IsPlace }
{
    let place = Place {
        host: copy_of_bytes(alloc, host, told),
        account: copy_of_bytes(alloc, account, told),
        token: copy_of_bytes(alloc, token, told),
    };
    if is_place(&place) {
        return Some(place);
    }
    told.note_fault(Fault::Unread("no place of a store"));
    None
}

/// The place of all calls.
pub(crate) fn place_of_all_calls(alloc: Global, told: &mut Told) -> Option<Place>
    ensures { IfSome result IsPlace }
{
    place_of_store(alloc, b"h", b"a", b"t", told)
}

/// The next call, of a request that spells one.
pub(crate) fn read_next_call(
    alloc: Global,
    place: &Place,
    talk: &mut Talk,
    told: &mut Told,
) -> Option<SwiftRequest>
    requires { IsPlace place.now }
{
    match talk.next_message() {
        Some(message) => told.keep_made(read_call(alloc, place, message)),
        None => {
            told.note_fault(Fault::Unread("no call comes next"));
            None
        }
    }
}

/// Tells the call of the first request, and how it is written; by `newest`, how it is written so that all replicas are asked.
pub(crate) fn tell_read_call(alloc: Global, text: &str, given: &[u8], told: &mut Told) {
    if let Some(place) = place_of_all_calls(alloc, told) {
        tell_call_at_place(alloc, &place, text == "newest", given, told);
    }
}

fn tell_call_at_place(alloc: Global, place: &Place, newest: bool, given: &[u8], told: &mut Told)
    requires { IsPlace place.now }
{
    if let Some(mut talk) = Talk::open_over_bytes(alloc, given, told) {
        match talk.next_front() {
            Ok(Got::Request(message)) => tell_call_of_message(alloc, place, newest, message, told),
            other => tell_owned_value(other, told),
        }
    }
}

fn tell_call_of_message(
    alloc: Global,
    place: &Place,
    newest: bool,
    message: Message,
    told: &mut Told,
)
    requires { IsPlace place.now }
{
    let is_known = has_account_token(place, &message);
    tell_value(&is_known, told);
    if is_known {
        let read = read_call(alloc, place, message);
        tell_call_and_request(alloc, place, newest, &read, told);
        drop(read);
    }
}

fn tell_call_and_request(
    alloc: Global,
    place: &Place,
    newest: bool,
    read: &Result<SwiftRequest, WireFault>,
    told: &mut Told,
)
    requires { IsPlace place.now }
{
    tell_value(read, told);
    if let Ok(call) = read {
        if is_fit(call) {
            tell_owned_value(request_of_call(alloc, place, call, newest), told);
        } else {
            told.note_fault(Fault::Unread("a call isn't within the limits"));
        }
    }
}

/// The request that is written for a call, in one piece.
fn request_of_call(
    alloc: Global,
    place: &Place,
    call: &SwiftRequest,
    newest: bool,
) -> Result<Bytes, Memory>
    requires place { IsPlace place.now }
    requires fit { Fit call.now }
{
    let written = write_call(alloc, place, call, newest)?;
    let mut request = Bytes::from_slice(alloc, written.head.as_slice())?;
    request.append(written.body(call))?;
    Ok(request)
}

/// Tells the reply that the bytes behind the first empty line spell.
pub(crate) fn tell_read_answer(alloc: Global, given: &[u8], told: &mut Told) {
    if let Some(place) = place_of_all_calls(alloc, told) {
        tell_answer_at_place(alloc, &place, given, told);
    }
}

fn tell_answer_at_place(alloc: Global, place: &Place, given: &[u8], told: &mut Told)
    requires { IsPlace place.now }
{
    let Some((head, answer)) = text_of_bytes(given, told).split_once("\r\n\r\n") else {
        return told.note_fault(Fault::Unread("no request comes first"));
    };
    let mut request = copy_of_bytes(alloc, head.as_bytes(), told);
    told.append(&mut request, b"\r\n\r\n");
    let call = call_of_request_bytes(alloc, place, request.as_slice(), told);
    if let Some(call) = &call {
        tell_answer_to_call(alloc, call, answer.as_bytes(), told);
    }
    drop(call);
}

fn tell_answer_to_call(alloc: Global, call: &SwiftRequest, answer: &[u8], told: &mut Told) {
    let read = read_answer(alloc, call, answer);
    tell_value(&read, told);
    drop(read);
}

fn call_of_request_bytes(
    alloc: Global,
    place: &Place,
    given: &[u8],
    told: &mut Told,
) -> Option<SwiftRequest>
    requires { IsPlace place.now }
{
    let mut talk = Talk::open_over_bytes(alloc, given, told)?;
    read_next_call(alloc, place, &mut talk, told)
}

/// Tells where the first answer ends.
pub(crate) fn tell_answer_end(alloc: Global, text: &str, given: &[u8], told: &mut Told) {
    let end = answer_end(alloc, text == "head", given);
    tell_value(&end, told);
    drop(end);
}

/// Tells whether a PUT of an object with that content type and that metadata, both with escapes, is within the limits.
pub(crate) fn tell_fit_of_put(alloc: Global, text: &str, told: &mut Told) {
    let Some((content_type, piece)) = text.split_once(" | ") else {
        return told.note_fault(Fault::Unread("no type and piece"));
    };
    let put = put_call_with_piece(alloc, content_type, piece, told);
    tell_value(&is_fit(&put), told);
    drop_request(put);
}

fn put_call_with_piece(
    alloc: Global,
    content_type: &str,
    piece: &str,
    told: &mut Told,
) -> SwiftRequest {
    let mut meta = List::new(alloc);
    let piece = bytes_of_escaped_text(alloc, piece, told);
    told.push(&mut meta, piece);
    SwiftRequest::PutObject(FilePut {
        container: copy_of_bytes(alloc, b"photos", told),
        name: copy_of_bytes(alloc, b"k", told),
        content_type: bytes_of_escaped_text(alloc, content_type, told),
        meta,
        body: Bytes::new(alloc),
        fresh: false,
    })
}
