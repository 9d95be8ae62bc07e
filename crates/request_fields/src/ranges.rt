//! What a Range header asks for.
ghost use Rattle.s3_machine.specs.Limits.{range_limit};
ghost use Rattle.std.specs.Prelude.{◌≡◌, ◌<◌, IfOk, IfSome, option_map};
ghost use Rattle.s3_machine.specs.Proper.{IsProperRange};
ghost use Rattle.std.specs.List.{list_any};
ghost use Rattle.request_fields.specs.Ranges.{is_dash, place_of, between, range_by, range_behind, range_of, given_range};

use gate_base::{Memory, Pair, cut};
use http_wire::text_of;
use s3_machine::Range;
use std::alloc::Global;
use text_forms::number_of;

/// The most digits of a place or a length.
const DIGITS: usize = 18;

fn place_of(text: &[u8]) -> Option<u64>
    ensures value { result ≡ place_of text.now }
    ensures within { IfSome result (λ place. place < range_limit) }
{
    number_of(text, DIGITS)
}

fn between(first: Option<u64>, last: Option<u64>) -> Option<Range>
    requires { IfSome last (λ place. place < range_limit) }
    ensures value { result ≡ between first last }
    ensures proper { IfSome result IsProperRange }
{
    match (first, last) {
        (Some(first), Some(last)) if first <= last => Some(Range::FromTo(first, last)),
        _ => None,
    }
}

fn asked_range_from(first: Option<u64>) -> Option<Range>
    requires { IfSome first (λ place. place < range_limit) }
    ensures value { result ≡ option_map Range.From first }
    ensures proper { IfSome result IsProperRange }
{
    match first {
        Some(first) => Some(Range::From(first)),
        None => None,
    }
}

fn asked_range_of_last(length: Option<u64>) -> Option<Range>
    requires { IfSome length (λ count. count < range_limit) }
    ensures value { result ≡ option_map Range.Last length }
    ensures proper { IfSome result IsProperRange }
{
    match length {
        Some(length) => Some(Range::Last(length)),
        None => None,
    }
}

/// The range of the texts before and behind the dash.
fn range_by(first: &[u8], behind: &[u8]) -> Option<Range>
    ensures value { result ≡ range_by first.now behind.now }
    ensures proper { IfSome result IsProperRange }
{
    match (first, behind) {
        ([], _) => asked_range_of_last(place_of(behind)),
        (_, []) => asked_range_from(place_of(first)),
        _ => between(place_of(first), place_of(behind)),
    }
}

fn range_behind(text: &[u8]) -> Option<Range>
    ensures value { result ≡ range_behind text.now }
    ensures proper { IfSome result IsProperRange }
{
    if !has_dash(text) {
        return None;
    }
    let (first, last) = cut(text, b'-');
    range_by(first, last)
}

fn has_dash(text: &[u8]) -> bool
    ensures { result ≡ list_any is_dash text.now }
{
    text.iter().any(|byte| *byte == b'-')
}

/// The range that the value of a Range header asks for (RFC 9110, section 14.1.2); none where it is of another form.
#[tactic(auto, unfolding(crate::specs::Ranges::range_of))]
pub fn range_of(text: &[u8]) -> Option<Range>
    ensures value { result ≡ range_of text.now }
    ensures proper { IfSome result IsProperRange }
{
    if text.starts_with(b"bytes=") {
        range_behind(&text[6..])
    } else {
        None
    }
}

/// The range that the headers ask for.
pub fn given_range(alloc: Global, headers: &[Pair]) -> Result<Option<Range>, Memory>
    ensures { IfOk result (λ range. range ≡ given_range headers.now) }
{
    let text = text_of(alloc, headers, b"range")?;
    Ok(range_of(text.as_slice()))
}
