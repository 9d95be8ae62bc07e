//! Calls read from messages.
ghost use Rattle.std.specs.Prelude.{◌≡◌, [], not, IfOk, Some, bytes_eq};
ghost use Rattle.http_wire.specs.declared.message.Message.{Message};
ghost use Rattle.s3_names.specs.Target.{query_text};
ghost use Rattle.swift_requests.specs.Place.{IsPlace};
ghost use Rattle.swift_requests.specs.Calls.{ReadsCall, account_call, account_in, asks_manifest, asks_segments, bare_object_call, bodiless, call_at, call_of, container_call, container_call_by_method, fresh_from, fresh_in, has_call_method, is_word, manifest_content, object_call, path_at, plain_content, post_container, put_call, put_container, put_content, put_manifest, put_object, readers_given, small_object_call, unasked};

use crate::Place;
use crate::listings::{containers_listing_call, last_call_query_value, names_listing_call};
use crate::long_lists::is_long_list;
use crate::paths::{Path, account_in, read_call_path};
use crate::ranges::call_range_in;
use gate_base::{Bytes, List, Memory, Pair, cut};
use http_answers::{field, only};
use http_wire::Message;
use slo_manifest::{Form, Segment};
use std::alloc::Global;
use swift_calls::{FilePut, ReadList, SwiftRequest, drop_request, is_fit};
use swift_replies::{
    WireFault, container_created_in, container_readers_by_value, meta_in, spelled_segments_in,
};

/// The call that a message spells at the place. `NotACall` exactly where it spells none that is within the limits of a
/// store; whether it has the place's token is for `has_token` to say. The message is taken, so that the body of a
/// PUT becomes the call's without a copy.
pub fn read_call(alloc: Global, place: &Place, message: Message) -> Result<SwiftRequest, WireFault>
    requires { IsPlace place.now }
    ensures { ReadsCall place.now message result }
{
    let Some(call) = call_of(alloc, place, message)? else {
        return Err(WireFault::NotACall);
    };
    if is_fit(&call) {
        Ok(call)
    } else {
        drop_request(call);
        Err(WireFault::NotACall)
    }
}

/// The call that a message makes of the place's account, within its limits or not.
#[tactic(auto, using(crate::proofs::ReadingLemmas::none_at))]
fn call_of(alloc: Global, place: &Place, message: Message) -> Result<Option<SwiftRequest>, Memory>
    ensures { IfOk result (λ call. call ≡ call_of place.now message) }
{
    match path_at(alloc, place, message.target.as_slice())? {
        Some(path) => call_at(alloc, path, message),
        None => Ok(None),
    }
}

/// What the path of a target names, where that is of the place's account.
#[tactic(auto, unfolding(crate::specs::Calls::path_at))]
fn path_at(alloc: Global, place: &Place, target: &[u8]) -> Result<Option<Path>, Memory>
    ensures { IfOk result (λ path. path ≡ path_at place.now target.now) }
{
    let Some(path) = read_call_path(alloc, target)? else {
        return Ok(None);
    };
    if account_in(&path) == place.account.as_slice() {
        Ok(Some(path))
    } else {
        Ok(None)
    }
}

/// The call by the kind of its path.
fn call_at(alloc: Global, path: Path, message: Message) -> Result<Option<SwiftRequest>, Memory>
    ensures { IfOk result (λ call. call ≡ call_at path message) }
{
    match path {
        Path::Account(_) => account_call(alloc, &message),
        Path::Container(_, container) => container_call(alloc, container, &message),
        Path::Object(_, container, name) => object_call(alloc, container, name, message),
    }
}

/// GET of an account.
fn account_call(alloc: Global, message: &Message) -> Result<Option<SwiftRequest>, Memory>
    ensures { IfOk result (λ call. call ≡ bodiless message.now (account_call message.now)) }
{
    if has_call_body(message) || !has_call_method(message, b"GET") {
        return Ok(None);
    }
    containers_listing_call(alloc, call_query(message))
}

/// The calls of a container.
fn container_call(
    alloc: Global,
    container: Bytes,
    message: &Message,
) -> Result<Option<SwiftRequest>, Memory>
    ensures { IfOk result
        (λ call. call ≡ bodiless message.now (container_call container message.now)) }
{
    if has_call_body(message) {
        return Ok(None);
    }
    if has_call_method(message, b"GET") {
        return names_listing_call(alloc, container, call_query(message));
    }
    if has_call_query(message) {
        return Ok(None);
    }
    Ok(container_call_by_method(container, message))
}

/// HEAD, PUT, POST and DELETE of a container.
fn container_call_by_method(container: Bytes, message: &Message) -> Option<SwiftRequest>
    ensures { result ≡ container_call_by_method container message.now }
{
    if has_call_method(message, b"HEAD") {
        return Some(SwiftRequest::HeadContainer { container });
    }
    if has_call_method(message, b"PUT") {
        return put_container(container, message);
    }
    if has_call_method(message, b"POST") {
        return post_container(container, message);
    }
    if has_call_method(message, b"DELETE") {
        Some(SwiftRequest::DeleteContainer { container })
    } else {
        None
    }
}

fn put_container(container: Bytes, message: &Message) -> Option<SwiftRequest>
    ensures { result ≡ put_container container message.now }
{
    let readers = readers_given(message.headers.as_slice())?;
    let created = container_created_in(message.headers.as_slice())?;
    Some(SwiftRequest::PutContainer {
        container,
        readers,
        created,
    })
}

fn post_container(container: Bytes, message: &Message) -> Option<SwiftRequest>
    ensures { result ≡ post_container container message.now }
{
    let readers = readers_given(message.headers.as_slice())?;
    Some(SwiftRequest::PostContainer { container, readers })
}

/// The read list, which PUT and POST of a container have to give.
fn readers_given(headers: &[Pair]) -> Option<ReadList>
    ensures { result ≡ readers_given headers.now }
{
    match only(headers, b"x-container-read") {
        Some(value) => container_readers_by_value(value),
        None => None,
    }
}

/// The calls of an object. A PUT has a body, which is moved.
fn object_call(
    alloc: Global,
    container: Bytes,
    name: Bytes,
    message: Message,
) -> Result<Option<SwiftRequest>, Memory>
    ensures { IfOk result (λ call. call ≡ object_call container name message) }
{
    if has_call_method(&message, b"PUT") {
        return put_call(alloc, container, name, message);
    }
    if has_call_body(&message) {
        return Ok(None);
    }
    small_object_call(alloc, container, name, &message)
}

/// HEAD, GET and DELETE of an object, and GET of the segments that it lists.
fn small_object_call(
    alloc: Global,
    container: Bytes,
    name: Bytes,
    message: &Message,
) -> Result<Option<SwiftRequest>, Memory>
    ensures { IfOk result (λ call. call ≡ small_object_call container name message.now) }
{
    if asks_segments(alloc, message)? {
        return Ok(Some(SwiftRequest::GetManifest { container, name }));
    }
    if has_call_query(message) {
        return Ok(None);
    }
    Ok(bare_object_call(container, name, message))
}

fn asks_segments(alloc: Global, message: &Message) -> Result<bool, Memory>
    ensures { IfOk result (λ asks. asks ≡ asks_segments message.now) }
{
    if has_call_method(message, b"GET") {
        asks_manifest(alloc, message, b"get")
    } else {
        Ok(false)
    }
}

/// Whether the query is `multipart-manifest=WORD`.
fn asks_manifest(alloc: Global, message: &Message, word: &[u8]) -> Result<bool, Memory>
    ensures { IfOk result (λ asks. asks ≡ asks_manifest word.now message.now) }
{
    let value = last_call_query_value(alloc, call_query(message), b"multipart-manifest")?;
    Ok(is_word(&value, word))
}

fn is_word(value: &Option<Bytes>, word: &[u8]) -> bool
    ensures { result ≡ is_word word.now value.now }
{
    match value {
        Some(value) => value.as_slice() == word,
        None => false,
    }
}

/// HEAD, GET and DELETE of an object.
fn bare_object_call(container: Bytes, name: Bytes, message: &Message) -> Option<SwiftRequest>
    ensures { result ≡ bare_object_call container name message.now }
{
    if has_call_method(message, b"HEAD") {
        return Some(SwiftRequest::HeadObject { container, name });
    }
    if has_call_method(message, b"GET") {
        let range = call_range_in(message.headers.as_slice())?;
        return Some(SwiftRequest::GetObject {
            container,
            name,
            range,
        });
    }
    if has_call_method(message, b"DELETE") {
        Some(SwiftRequest::DeleteObject { container, name })
    } else {
        None
    }
}

/// PUT of an object, by its query.
fn put_call(
    alloc: Global,
    container: Bytes,
    name: Bytes,
    message: Message,
) -> Result<Option<SwiftRequest>, Memory>
    ensures { IfOk result (λ call. call ≡ put_call container name message) }
{
    if asks_manifest(alloc, &message, b"put")? {
        return put_manifest(alloc, container, name, &message);
    }
    put_plain_object(alloc, container, name, message)
}

/// PUT of an object that lists segments.
#[tactic(auto, using(crate::proofs::ReadingLemmas::manifest_given, crate::proofs::ReadingLemmas::manifest_none))]
fn put_manifest(
    alloc: Global,
    container: Bytes,
    name: Bytes,
    message: &Message,
) -> Result<Option<SwiftRequest>, Memory>
    ensures { IfOk result (λ call. call ≡ put_manifest container name message.now) }
{
    match manifest_content(alloc, message)? {
        Some(((content_type, meta), segments)) => Ok(Some(SwiftRequest::PutManifest {
            container,
            name,
            content_type,
            meta,
            segments,
        })),
        None => Ok(None),
    }
}

/// PUT of an object that lists none, which has no query. The body isn't copied.
#[tactic(auto, using(crate::proofs::ReadingLemmas::object_given, crate::proofs::ReadingLemmas::object_none, crate::proofs::ReadingLemmas::object_unread))]
fn put_plain_object(
    alloc: Global,
    container: Bytes,
    name: Bytes,
    message: Message,
) -> Result<Option<SwiftRequest>, Memory>
    ensures { IfOk result
        (λ call. call ≡ unasked message (put_object container name message)) }
{
    let Some(fresh) = fresh_in(message.headers.as_slice()) else {
        return Ok(None);
    };
    match plain_content(alloc, &message)? {
        Some((content_type, meta)) => Ok(Some(SwiftRequest::PutObject(FilePut {
            container,
            name,
            content_type,
            meta,
            body: message.body,
            fresh,
        }))),
        None => Ok(None),
    }
}

/// Whether an object is put only where none is there: `If-None-Match: *`, and no other value of that header.
fn fresh_in(headers: &[Pair]) -> Option<bool>
    ensures { result ≡ fresh_in headers.now }
{
    match field(headers, b"if-none-match") {
        Some(Some(value)) => fresh_by(value),
        Some(None) => Some(false),
        None => None,
    }
}

fn fresh_by(value: &[u8]) -> Option<bool>
    ensures { result ≡ fresh_from (Some (Some value.now)) }
{
    if value == b"*".as_slice() {
        Some(true)
    } else {
        None
    }
}

/// The type and the metadata of an object that is put, and the segments that it lists.
#[tactic(auto, using(crate::proofs::ReadingLemmas::manifest_long), unfolding(crate::specs::Calls::manifest_content))]
fn manifest_content(
    alloc: Global,
    message: &Message,
) -> Result<Option<((Bytes, List<Bytes>), List<Segment>)>, Memory>
    ensures { IfOk result (λ content. content ≡ manifest_content message.now) }
{
    let Some(content) = put_content(alloc, message.headers.as_slice())? else {
        return Ok(None);
    };
    if is_long_list(alloc, message.body.as_slice())? {
        return Ok(None);
    }
    match spelled_segments_in(alloc, message.body.as_slice(), Form::Put)? {
        Some(segments) => Ok(Some((content, segments))),
        None => Ok(None),
    }
}

/// The type and the metadata of an object that is put, where there is no query.
#[tactic(auto, unfolding(crate::specs::Calls::plain_content))]
fn plain_content(alloc: Global, message: &Message) -> Result<Option<(Bytes, List<Bytes>)>, Memory>
    ensures { IfOk result (λ content. content ≡ plain_content message.now) }
{
    if has_call_query(message) {
        Ok(None)
    } else {
        put_content(alloc, message.headers.as_slice())
    }
}

/// The type and the metadata that a PUT of an object gives.
#[tactic(auto, unfolding(crate::specs::Calls::put_content))]
fn put_content(alloc: Global, headers: &[Pair]) -> Result<Option<(Bytes, List<Bytes>)>, Memory>
    ensures { IfOk result (λ content. content ≡ put_content headers.now) }
{
    let Some(content_type) = only(headers, b"content-type") else {
        return Ok(None);
    };
    let content_type = Bytes::from_slice(alloc, content_type)?;
    match meta_in(alloc, headers)? {
        Some(meta) => Ok(Some((content_type, meta))),
        None => Ok(None),
    }
}

fn has_call_method(message: &Message, name: &[u8]) -> bool
    ensures { result ≡ has_call_method name.now message.now }
{
    message.method.as_slice() == name
}

fn has_call_body(message: &Message) -> bool
    ensures { result ≡ not (bytes_eq message.now.body []) }
{
    message.body.as_slice() != b"".as_slice()
}

/// The query of the target; empty where there is none.
fn call_query(message: &Message) -> &[u8]
    ensures { result.now ≡ query_text message.now.target }
{
    let (_, query) = cut(message.target.as_slice(), b'?');
    query
}

fn has_call_query(message: &Message) -> bool
    ensures { result ≡ not (bytes_eq (query_text message.now.target) []) }
{
    call_query(message) != b"".as_slice()
}
