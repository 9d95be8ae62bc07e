//! The values of an answer's headers, each as it is read.
ghost use Rattle.std.specs.Prelude.{◌≡◌, Some};
ghost use Rattle.std.specs.List.{list_all};
ghost use Rattle.std.specs.Option.{option_copied};
ghost use Rattle.swift_replies.specs.Fields.{reply_readers_in, is_reply_etag_byte, tag_in, etag_in, manifest_from, reply_manifest_flag_in, reply_segments_flag_in, size_behind, whole_size_in};

use crate::fields::container_readers_by_value;
use gate_base::{Pair, cut};
use http_answers::{field, only, plain_number};
use swift_calls::ReadList;
use text_forms::without_quotes;

/// The read list: nobody without the header.
pub(crate) fn reply_readers_in(headers: &[Pair]) -> Option<ReadList>
    ensures { result ≡ reply_readers_in headers.now }
{
    match field(headers, b"x-container-read") {
        Some(Some(value)) => container_readers_by_value(value),
        Some(None) => Some(ReadList::Nobody),
        None => None,
    }
}

/// The ETag, in quotes or without them.
pub(crate) fn etag_in(headers: &[Pair]) -> Option<&[u8]>
    ensures { option_copied result ≡ etag_in headers.now }
{
    tag_in(only(headers, b"etag")?)
}

fn tag_in(value: &[u8]) -> Option<&[u8]>
    ensures { option_copied result ≡ tag_in value.now }
{
    let text = without_quotes(value);
    if is_tag(text) { Some(text) } else { None }
}

/// Whether the bytes are those that an entity tag has between its quotes.
pub(crate) fn is_tag(text: &[u8]) -> bool
    ensures { result ≡ list_all is_reply_etag_byte text.now }
{
    text.iter().all(|byte| is_reply_etag_byte(*byte))
}

fn is_reply_etag_byte(byte: u8) -> bool
    ensures { result ≡ is_reply_etag_byte byte }
{
    32 < byte && (byte != b'"' && byte != 127)
}

/// Whether the object is a static large object.
pub(crate) fn reply_manifest_flag_in(headers: &[Pair]) -> Option<bool>
    ensures { result ≡ reply_manifest_flag_in headers.now }
{
    match field(headers, b"x-static-large-object") {
        Some(Some(value)) => reply_manifest_flag_of(value),
        Some(None) => Some(false),
        None => None,
    }
}

fn reply_manifest_flag_of(value: &[u8]) -> Option<bool>
    ensures { result ≡ manifest_from (Some (Some value.now)) }
{
    if value == b"True".as_slice() {
        Some(true)
    } else {
        None
    }
}

/// Whether an answer says that it lists segments.
pub(crate) fn reply_segments_flag_in(headers: &[Pair]) -> Option<bool>
    ensures { result ≡ reply_segments_flag_in headers.now }
{
    match field(headers, b"x-static-large-object") {
        Some(Some(value)) => Some(value == b"True".as_slice()),
        Some(None) => Some(false),
        None => None,
    }
}

/// The size of the whole object that an answer has a part of.
pub(crate) fn whole_size_in(headers: &[Pair]) -> Option<u64>
    ensures { result ≡ whole_size_in headers.now }
{
    size_behind(only(headers, b"content-range")?)
}

fn size_behind(value: &[u8]) -> Option<u64>
    ensures { result ≡ size_behind value.now }
{
    let (_, size) = cut(value, b'/');
    plain_number(size)
}
