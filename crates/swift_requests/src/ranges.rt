//! The range of a GET.
ghost use Rattle.std.specs.Prelude.{◌≡◌};
ghost use Rattle.swift_requests.specs.Calls.{call_range_bound, places_of, range_of, call_range_in};

use gate_base::{Pair, cut};
use http_answers::{field, plain_number};

/// The last place of a byte.
const LAST_PLACE: u64 = 9_223_372_036_854_775_807;

/// The range of a GET, where the header may be absent.
pub(crate) fn call_range_in(headers: &[Pair]) -> Option<Option<(u64, u64)>>
    ensures { result ≡ call_range_in headers.now }
{
    match field(headers, b"range") {
        Some(Some(value)) => match range_of(value) {
            Some(range) => Some(Some(range)),
            None => None,
        },
        Some(None) => Some(None),
        None => None,
    }
}

/// `bytes=FROM-TO`
fn range_of(text: &[u8]) -> Option<(u64, u64)>
    ensures { result ≡ range_of text.now }
{
    if text.starts_with(b"bytes=") {
        places_of(&text[6..])
    } else {
        None
    }
}

/// `FROM-TO`
fn places_of(text: &[u8]) -> Option<(u64, u64)>
    ensures { result ≡ places_of text.now }
{
    let (first, last) = cut(text, b'-');
    let first = call_range_bound(first)?;
    let last = call_range_bound(last)?;
    Some((first, last))
}

/// The place of a byte, below 2^63.
fn call_range_bound(text: &[u8]) -> Option<u64>
    ensures { result ≡ call_range_bound text.now }
{
    match plain_number(text) {
        Some(place) if place <= LAST_PLACE => Some(place),
        _ => None,
    }
}
