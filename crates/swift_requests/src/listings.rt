//! The queries of listings.
ghost use Rattle.std.specs.Prelude.{◌≡◌, IfOk, codes, option_and_then, option_map};
ghost use Rattle.swift_requests.specs.Paths.{has_more_call_query, named_call_query_value, first_value, last_call_query_value, values_named};
ghost use Rattle.swift_calls.specs.declared.calls.SwiftRequest.TheVariants.{ListContainers, ListNames};
ghost use Rattle.swift_requests.specs.Calls.{account_names, behind_json, container_names, containers_listing_call, is_json, limit_of, listing_limit, marker_and_prefix, names_listing_call};

use crate::paths::unescaped;
use gate_base::{Bytes, Memory, cut};
use http_answers::plain_number;
use std::alloc::Global;
use swift_calls::SwiftRequest;

/// The most names that are asked for at once.
const MOST_NAMES: u64 = 1001;

/// The listing of containers that a query asks for: `format=json&limit=N&marker=M`.
#[tactic(auto, using(crate::proofs::ListingLemmas::containers_no_limit))]
pub(crate) fn containers_listing_call(
    alloc: Global,
    query: &[u8],
) -> Result<Option<SwiftRequest>, Memory>
    ensures { IfOk result (λ call. call ≡ option_and_then containers_listing_call
        (values_named account_names query.now)) }
{
    match listing_limit(alloc, query)? {
        Some((limit, rest)) => containers_call_behind_limit(alloc, limit, rest),
        None => Ok(None),
    }
}

/// The same where the limit was read, of what follows: `marker=M`.
fn containers_call_behind_limit(
    alloc: Global,
    limit: u32,
    text: &[u8],
) -> Result<Option<SwiftRequest>, Memory>
    ensures { IfOk result (λ call. call ≡ option_map (λ marker. ListContainers marker limit)
        (last_call_query_value (codes "marker") text.now)) }
{
    match last_call_query_value(alloc, text, b"marker")? {
        Some(marker) => Ok(Some(SwiftRequest::ListContainers { marker, limit })),
        None => Ok(None),
    }
}

/// The listing of a container's objects that a query asks for: `format=json&limit=N&marker=M&prefix=P`.
#[tactic(auto, using(crate::proofs::ListingLemmas::names_no_limit))]
pub(crate) fn names_listing_call(
    alloc: Global,
    container: Bytes,
    query: &[u8],
) -> Result<Option<SwiftRequest>, Memory>
    ensures { IfOk result (λ call. call ≡ option_and_then (names_listing_call container)
        (values_named container_names query.now)) }
{
    match listing_limit(alloc, query)? {
        Some((limit, rest)) => names_call_behind_limit(alloc, container, limit, rest),
        None => Ok(None),
    }
}

/// The same where the limit was read, of what follows: `marker=M&prefix=P`.
fn names_call_behind_limit(
    alloc: Global,
    container: Bytes,
    limit: u32,
    text: &[u8],
) -> Result<Option<SwiftRequest>, Memory>
    ensures { IfOk result (λ call. call ≡ option_map (λ v. ListNames container v.1 v.0 limit)
        (marker_and_prefix text.now)) }
{
    match marker_and_prefix(alloc, text)? {
        Some((marker, prefix)) => Ok(Some(SwiftRequest::ListNames {
            container,
            prefix,
            marker,
            limit,
        })),
        None => Ok(None),
    }
}

/// The values of `marker=M&prefix=P`.
fn marker_and_prefix(alloc: Global, text: &[u8]) -> Result<Option<(Bytes, Bytes)>, Memory>
    ensures { IfOk result (λ values. values ≡ marker_and_prefix text.now) }
{
    let Some((marker, rest)) = first_value(alloc, text, b"marker")? else {
        return Ok(None);
    };
    match last_call_query_value(alloc, rest, b"prefix")? {
        Some(prefix) => Ok(Some((marker, prefix))),
        None => Ok(None),
    }
}

/// How many names a query asks for that begins with `format=json&limit=N&`, and what follows.
#[tactic(auto, unfolding(crate::specs::Calls::listing_limit))]
fn listing_limit<'a>(alloc: Global, query: &'a [u8]) -> Result<Option<(u32, &'a [u8])>, Memory>
    ensures { IfOk result
        (λ found. option_map (λ f. (f.0, f.1.now)) found ≡ listing_limit query.now) }
{
    let Some(rest) = behind_json(alloc, query)? else {
        return Ok(None);
    };
    let Some((limit, rest)) = first_value(alloc, rest, b"limit")? else {
        return Ok(None);
    };
    match limit_of(limit.as_slice()) {
        Some(limit) => Ok(Some((limit, rest))),
        None => Ok(None),
    }
}

/// What follows `format=json&`.
fn behind_json<'a>(alloc: Global, query: &'a [u8]) -> Result<Option<&'a [u8]>, Memory>
    ensures { IfOk result
        (λ rest. option_map (λ text. text.now) rest ≡ behind_json query.now) }
{
    let Some((format, rest)) = first_value(alloc, query, b"format")? else {
        return Ok(None);
    };
    if is_json(format.as_slice()) {
        Ok(Some(rest))
    } else {
        Ok(None)
    }
}

/// The value of the first piece, which has the name, and what follows its `&`.
fn first_value<'a>(
    alloc: Global,
    text: &'a [u8],
    name: &[u8],
) -> Result<Option<(Bytes, &'a [u8])>, Memory>
    ensures { IfOk result (λ found. option_map (λ first. (first.0, first.1.now)) found ≡ first_value
        name.now text.now) }
{
    if !has_more_call_query(text) {
        return Ok(None);
    }
    let (piece, rest) = cut(text, b'&');
    match named_call_query_value(alloc, piece, name)? {
        Some(value) => Ok(Some((value, rest))),
        None => Ok(None),
    }
}

/// The value of the last piece, which has the name.
pub(crate) fn last_call_query_value(
    alloc: Global,
    text: &[u8],
    name: &[u8],
) -> Result<Option<Bytes>, Memory>
    ensures { IfOk result (λ value. value ≡ last_call_query_value name.now text.now) }
{
    if has_more_call_query(text) {
        return Ok(None);
    }
    named_call_query_value(alloc, text, name)
}

/// The value of a piece `name=value` that has the name.
fn named_call_query_value(alloc: Global, piece: &[u8], name: &[u8]) -> Result<Option<Bytes>, Memory>
    ensures { IfOk result (λ value. value ≡ named_call_query_value name.now piece.now) }
{
    let (found, value) = cut(piece, b'=');
    if found == name {
        unescaped(alloc, value)
    } else {
        Ok(None)
    }
}

fn has_more_call_query(text: &[u8]) -> bool
    ensures { result ≡ has_more_call_query text.now }
{
    text.iter().any(|byte| *byte == b'&')
}

fn is_json(text: &[u8]) -> bool
    ensures { result ≡ is_json text.now }
{
    text == b"json".as_slice()
}

/// How many names are asked for: 1001 at most.
fn limit_of(text: &[u8]) -> Option<u32>
    ensures { result ≡ limit_of text.now }
{
    match plain_number(text) {
        Some(limit) if limit <= MOST_NAMES => Some(limit as u32),
        _ => None,
    }
}
