//! The conditions of a GET or a HEAD, and those of a copy on its source.
ghost use Rattle.std.specs.Prelude.{◌≡◌, ◌-◌, ◌≤◌, ◌<◌, ◌++◌, [], ◌∷◌, map, drop, length, position, IfOk, IfSome, OnOk};
ghost use Rattle.std.specs.List.{prefix_len, suffix_len, slice_split};
ghost use Rattle.http_wire.specs.Closing.{is_comma};
ghost use Rattle.request_fields.specs.Conditions.{is_condition_space, behind_spaces, before_spaces, without_weak, etag_of, etags_of, given_etags, date_of, given_date, conditions_named, given_conditions, given_source_conditions};

use gate_base::{Bytes, List, Memory, Pair};
use http_wire::{has_header, text_of};
use httpdate::HttpDate;
use s3_machine::{Conditions, ETags};
use std::alloc::Global;
use text_forms::without_quotes;

fn is_condition_space(byte: u8) -> bool
    ensures { result ≡ is_condition_space byte }
{
    byte == b' '
}

fn first_condition_header_spaces(text: &[u8]) -> usize
    ensures is { result ≡ prefix_len is_condition_space text.now }
    ensures within { result ≤ length text.now }
{
    text.iter()
        .take_while(|byte| is_condition_space(**byte))
        .count()
}

fn last_condition_header_spaces(text: &[u8]) -> usize
    ensures is { result ≡ suffix_len is_condition_space text.now }
    ensures within { result ≤ length text.now }
{
    text.iter()
        .rev()
        .take_while(|byte| is_condition_space(**byte))
        .count()
}

fn behind_spaces(text: &[u8]) -> &[u8]
    ensures { result.now ≡ behind_spaces text.now }
{
    &text[first_condition_header_spaces(text)..]
}

fn before_spaces(text: &[u8]) -> &[u8]
    ensures { result.now ≡ before_spaces text.now }
{
    &text[..text.len() - last_condition_header_spaces(text)]
}

/// The text without the `W/` of a weak tag (RFC 9110, section 8.8.3).
fn without_weak(text: &[u8]) -> &[u8]
    ensures { result.now ≡ without_weak text.now }
{
    if text.starts_with(b"W/") {
        &text[2..]
    } else {
        text
    }
}

/// The tag that stands between two commas.
#[tactic(auto, unfolding(crate::specs::Conditions::etag_of))]
fn condition_header_etag(piece: &[u8]) -> &[u8]
    ensures { result.now ≡ etag_of piece.now }
{
    without_quotes(without_weak(before_spaces(behind_spaces(piece))))
}

fn push_condition_header_etag(
    alloc: Global,
    etags: &mut List<Bytes>,
    piece: &[u8],
) -> Result<(), Memory>
    ensures { OnOk result (etags.new ≡ etags.old ++ etag_of piece.now ∷ []) }
{
    etags.push(Bytes::from_slice(alloc, condition_header_etag(piece))?)
}

fn is_condition_header_comma(byte: u8) -> bool
    ensures { result ≡ is_comma byte }
{
    byte == b','
}

/// The place of the first comma.
fn first_condition_header_comma(text: &[u8]) -> Option<usize>
    ensures place { result ≡ position is_comma text.now }
    ensures within { IfSome result (λ at. at < length text.now) }
{
    text.iter()
        .position(|byte| is_condition_header_comma(*byte))
}

/// The text behind its first byte.
fn after_condition_header_comma(text: &[u8]) -> &[u8]
    requires { 0 < length text.now }
    ensures { result.now ≡ drop 1 text.now }
{
    &text[1..]
}

/// The tags between the commas, in order.
#[tactic(auto, using(crate::proofs::Tags::tags_go_on, crate::proofs::Tags::tags_end))]
fn etags_between_commas(alloc: Global, value: &[u8]) -> Result<List<Bytes>, Memory>
    ensures { IfOk result (λ etags. etags ≡ map etag_of (slice_split is_comma value.now)) }
{
    let mut etags = List::new(alloc);
    let mut rest = value;
    'pieces: while let Some(at) = first_condition_header_comma(rest) {
        let (piece, others) = rest.split_at(at);
        push_condition_header_etag(alloc, &mut etags, piece)?;
        rest = after_condition_header_comma(others);
    }
    push_condition_header_etag(alloc, &mut etags, rest)?;
    Ok(etags)
}

#[tactic(auto, unfolding(crate::specs::Conditions::etags_of))]
fn etags_of(alloc: Global, value: &[u8]) -> Result<ETags, Memory>
    ensures { IfOk result (λ etags. etags ≡ etags_of value.now) }
{
    if value == b"*".as_slice() {
        return Ok(ETags::Any);
    }
    let etags = etags_between_commas(alloc, value)?;
    Ok(ETags::Listed(etags))
}

fn given_etags(alloc: Global, headers: &[Pair], name: &[u8]) -> Result<ETags, Memory>
    ensures { IfOk result (λ etags. etags ≡ given_etags name.now headers.now) }
{
    if !has_header(headers, name) {
        return Ok(ETags::Absent);
    }
    let value = text_of(alloc, headers, name)?;
    etags_of(alloc, value.as_slice())
}

/// The moment of a date in one of the three forms of RFC 9110, section 5.6.7, in seconds since the beginning of 1970; none for
/// every other text, and for a date before 1970.
#[tactic(auto, unfolding(crate::specs::Conditions::date_of))]
fn condition_header_date(text: &[u8]) -> Option<u64>
    ensures { result ≡ date_of text.now }
{
    match HttpDate::parse_ascii(text) {
        Ok(date) => Some(date.unix_secs()),
        Err(_) => None,
    }
}

fn given_date(alloc: Global, headers: &[Pair], name: &[u8]) -> Result<Option<u64>, Memory>
    ensures { IfOk result (λ date. date ≡ given_date name.now headers.now) }
{
    let text = text_of(alloc, headers, name)?;
    Ok(condition_header_date(text.as_slice()))
}

/// The conditions that headers of these names make.
fn conditions_named(
    alloc: Global,
    headers: &[Pair],
    matched: &[u8],
    unmatched: &[u8],
    modified: &[u8],
    unmodified: &[u8],
) -> Result<Conditions, Memory>
    ensures { IfOk result (λ conditions. conditions
        ≡ conditions_named matched.now unmatched.now modified.now unmodified.now headers.now) }
{
    let modified = given_date(alloc, headers, modified)?;
    let unmodified = given_date(alloc, headers, unmodified)?;
    let matched = given_etags(alloc, headers, matched)?;
    let unmatched = given_etags(alloc, headers, unmatched)?;
    Ok(Conditions {
        matched,
        unmatched,
        modified,
        unmodified,
    })
}

/// The conditions that the headers of a GET or a HEAD make (RFC 9110, section 13.1).
pub fn given_conditions(alloc: Global, headers: &[Pair]) -> Result<Conditions, Memory>
    ensures { IfOk result (λ conditions. conditions ≡ given_conditions headers.now) }
{
    conditions_named(
        alloc,
        headers,
        b"if-match",
        b"if-none-match",
        b"if-modified-since",
        b"if-unmodified-since",
    )
}

/// The conditions that the headers of a copy make on its source (Amazon S3 API Reference, "CopyObject"). They are read as those
/// of a GET.
pub fn given_source_conditions(alloc: Global, headers: &[Pair]) -> Result<Conditions, Memory>
    ensures { IfOk result (λ conditions. conditions ≡ given_source_conditions headers.now) }
{
    conditions_named(
        alloc,
        headers,
        b"x-amz-copy-source-if-match",
        b"x-amz-copy-source-if-none-match",
        b"x-amz-copy-source-if-modified-since",
        b"x-amz-copy-source-if-unmodified-since",
    )
}
