//! What the headers say of the source of a copy.
ghost use Rattle.std.specs.Prelude.{◌≡◌, ◌&&◌, option_and_then, IfOk, IfSome};
ghost use Rattle.s3_machine.specs.Proper.{IsProperRange};
ghost use Rattle.std.specs.List.{list_any};
ghost use Rattle.s3_names.specs.Target.{is_question};
ghost use Rattle.request_fields.specs.Copies.{names_source, copy_source_text, is_source_condition, is_extended_condition, is_untaken_condition, asks_further, without_slash, place_in, place_named, directive, replaces, has_bad_directive, from_to, copied_range, source_at};

use crate::conditions::given_source_conditions;
use crate::ranges::range_of;
use gate_base::{Bytes, Memory, Pair, cut};
use http_wire::{has_header, text_of};
use s3_machine::{Conditions, CopyRange, Range};
use s3_names::{NameFault, decode, is_bucket, is_key};
use std::alloc::Global;

/// Where a copy takes its bytes from, and what it takes beside them.
#[derive(Debug, Drop)]
pub struct Source {
    pub bucket: Bytes,
    pub key: Bytes,
    /// The first byte and the last that a part is copied from, where it isn't copied from all.
    pub range: Option<CopyRange>,
    /// Whether a content type and metadata of its own replace those of the source.
    pub replaces: bool,
    /// What the source has to meet.
    pub conditions: Conditions,
}

/// Whether a header names a source.
pub fn names_source(headers: &[Pair]) -> bool
    ensures { result ≡ names_source headers.now }
{
    has_header(headers, b"x-amz-copy-source")
}

/// The text that names the source.
pub fn copy_source_text(alloc: Global, headers: &[Pair]) -> Result<Bytes, Memory>
    ensures { IfOk result (λ text. text ≡ copy_source_text headers.now) }
{
    text_of(alloc, headers, b"x-amz-copy-source")
}

fn is_source_condition(header: &Pair) -> bool
    ensures { result ≡ is_source_condition header.now }
{
    header.name.as_slice().starts_with(b"x-amz-copy-source-if-")
}

fn is_extended_condition(header: &Pair) -> bool
    ensures { result ≡ is_extended_condition header.now }
{
    let name = header.name.as_slice();
    name == b"x-amz-copy-source-if-match".as_slice()
        || name == b"x-amz-copy-source-if-none-match".as_slice()
        || name == b"x-amz-copy-source-if-modified-since".as_slice()
        || name == b"x-amz-copy-source-if-unmodified-since".as_slice()
}

fn is_untaken_condition(extended: bool, header: &Pair) -> bool
    ensures { result ≡ is_untaken_condition extended header.now }
{
    is_source_condition(header) && !(extended && is_extended_condition(header))
}

fn has_untaken_condition(extended: bool, headers: &[Pair]) -> bool
    ensures { result ≡ list_any (is_untaken_condition extended) headers.now }
{
    headers
        .iter()
        .any(|header| is_untaken_condition(extended, header))
}

fn has_copy_source_question(text: &[u8]) -> bool
    ensures { result ≡ list_any is_question text.now }
{
    text.iter().any(|byte| *byte == b'?')
}

/// Whether a version of the source is named, or a condition on it that isn't taken.
pub fn asks_further(alloc: Global, extended: bool, headers: &[Pair]) -> Result<bool, Memory>
    ensures { IfOk result (λ asks. asks ≡ asks_further extended headers.now) }
{
    let text = copy_source_text(alloc, headers)?;
    Ok(has_copy_source_question(text.as_slice()) || has_untaken_condition(extended, headers))
}

fn without_slash(text: &[u8]) -> &[u8]
    ensures { result.now ≡ without_slash text.now }
{
    match text {
        [b'/', behind @ ..] => behind,
        _ => text,
    }
}

/// The bucket up to the first `/` of a decoded text and the key behind it, where both are what they should be.
fn place_in(alloc: Global, text: &[u8]) -> Result<Option<(Bytes, Bytes)>, Memory>
    ensures { IfOk result (λ place. place ≡ place_in text.now) }
{
    let (bucket, key) = cut(text, b'/');
    if !(is_bucket(bucket) && is_key(key)) {
        return Ok(None);
    }
    let bucket = Bytes::from_slice(alloc, bucket)?;
    let key = Bytes::from_slice(alloc, key)?;
    Ok(Some((bucket, key)))
}

/// The bucket and the key that a text names, decoded first and split after.
#[tactic(auto, unfolding(crate::specs::Copies::place_named))]
pub fn copy_source_place_named(alloc: Global, text: &[u8]) -> Result<Option<(Bytes, Bytes)>, Memory>
    ensures { IfOk result (λ place. place ≡ place_named text.now) }
{
    match decode(alloc, without_slash(text)) {
        Ok(text) => place_in(alloc, text.as_slice()),
        Err(NameFault::Memory) => Err(Memory),
        Err(_) => Ok(None),
    }
}

fn directive(alloc: Global, headers: &[Pair]) -> Result<Bytes, Memory>
    ensures { IfOk result (λ word. word ≡ directive headers.now) }
{
    text_of(alloc, headers, b"x-amz-metadata-directive")
}

/// Whether a content type and metadata of its own replace those of the source.
pub fn replaces(alloc: Global, headers: &[Pair]) -> Result<bool, Memory>
    ensures { IfOk result (λ replaced. replaced ≡ replaces headers.now) }
{
    let word = directive(alloc, headers)?;
    Ok(word.as_slice() == b"REPLACE".as_slice())
}

/// Whether the word on metadata is another than `COPY` and `REPLACE`.
pub fn has_bad_directive(alloc: Global, headers: &[Pair]) -> Result<bool, Memory>
    ensures { IfOk result (λ bad. bad ≡ has_bad_directive headers.now) }
{
    if !has_header(headers, b"x-amz-metadata-directive") {
        return Ok(false);
    }
    let word = directive(alloc, headers)?;
    Ok(word.as_slice() != b"REPLACE".as_slice() && word.as_slice() != b"COPY".as_slice())
}

fn from_to(range: Option<Range>) -> Option<CopyRange>
    requires { IfSome range IsProperRange }
    ensures { result ≡ option_and_then from_to range }
{
    match range {
        Some(Range::FromTo(first, last)) => Some(CopyRange::of(first, last)),
        _ => None,
    }
}

/// The first byte and the last that a part is copied from.
pub fn copied_range(alloc: Global, headers: &[Pair]) -> Result<Option<CopyRange>, Memory>
    ensures { IfOk result (λ range. range ≡ copied_range headers.now) }
{
    let text = text_of(alloc, headers, b"x-amz-copy-source-range")?;
    Ok(from_to(range_of(text.as_slice())))
}

/// The source at a place, with what is copied of it.
pub fn source_at(
    alloc: Global,
    headers: &[Pair],
    bucket: Bytes,
    key: Bytes,
    range: Option<CopyRange>,
) -> Result<Source, Memory>
    requires { range ≡ copied_range headers.now }
    ensures { IfOk result (λ source. source ≡ source_at headers.now (bucket, key)) }
{
    let replaces = replaces(alloc, headers)?;
    let conditions = given_source_conditions(alloc, headers)?;
    Ok(Source {
        bucket,
        key,
        range,
        replaces,
        conditions,
    })
}
