//! The head of an answer, found in bytes.
ghost use Rattle.std.specs.Prelude.{◌≡◌, ◌≤◌, map, length, All, IfOk};
ghost use Rattle.httparse.specs.Grammar.{ResponseHead};
ghost use Rattle.httparse.specs.Spans.{IsResponseOf, IsResponseWithin, IsHeaderWithin, IsWithin, span_bytes};
ghost use Rattle.http_wire.specs.Headers.{header_at};
ghost use Rattle.http_answers.specs.Head.{Sees, Shows, IsHeadAt};

use gate_base::{Bytes, List, Memory, Pair};
use httparse::spans::{EMPTY_HEADER_SPAN, HeaderSpan, ResponseSpans, Span, parse_response};
use httparse::{Error, Status};
use std::alloc::Global;

/// The bytes of an answer's head, at most.
pub const HEAD_LIMIT: usize = 65_536;

/// Room for the header lines of most heads.
const ROOM: usize = 64;

/// Room for the header lines of every head: each has three bytes at least.
const MOST_LINES: usize = 21_846;

/// What stands first in bytes, looked at with room for some header lines.
#[derive(Clone, Copy, Debug, PartialEq, Eq)]
pub(crate) enum Verdict {
    /// A whole head, by its spans.
    Whole(ResponseSpans),

    /// No head yet.
    More,

    /// No head can come of the bytes, or none within the limit.
    Dead,

    /// There are more header lines than there is room for.
    Crowded,
}

/// The head of an answer: its status, its headers by names in lower case, and its bytes.
#[derive(Debug, Drop)]
pub struct Head {
    pub status: u16,
    pub headers: List<Pair>,
    pub len: usize,
}

/// What stands first in bytes.
#[derive(Debug, Drop)]
pub enum Front {
    /// A whole head.
    Whole(Head),

    /// No head yet.
    More,

    /// No head can come of the bytes, or none within the limit.
    Dead,
}

/// What stands first in the bytes. It takes room for many header lines only where there are many.
#[tactic(auto, using(crate::proofs::lemmas::HeadLemmas::shows_whole))]
pub fn find_head(alloc: Global, bytes: &[u8]) -> Result<Front, Memory>
    ensures { IfOk result (λ front. Shows bytes.now front) }
{
    let mut room = [EMPTY_HEADER_SPAN; ROOM];
    match look_at_answer_head(bytes, &mut room) {
        Verdict::Whole(spans) => Ok(Front::Whole(head_at(alloc, bytes, &room, &spans)?)),
        Verdict::More => Ok(Front::More),
        Verdict::Dead => Ok(Front::Dead),
        Verdict::Crowded => find_crowded_answer_head(alloc, bytes),
    }
}

/// The same with room for every head.
fn find_crowded_answer_head(alloc: Global, bytes: &[u8]) -> Result<Front, Memory>
    ensures { IfOk result (λ front. Shows bytes.now front) }
{
    let mut room = vec![in alloc; EMPTY_HEADER_SPAN; MOST_LINES]?;
    find_answer_head_within(alloc, bytes, &mut room)
}

#[tactic(auto, using(crate::proofs::lemmas::HeadLemmas::dead_crowded, crate::proofs::lemmas::HeadLemmas::shows_whole))]
fn find_answer_head_within(
    alloc: Global,
    bytes: &[u8],
    room: &mut [HeaderSpan],
) -> Result<Front, Memory>
    requires { MOST_LINES ≤ length room.old }
    ensures { IfOk result (λ front. Shows bytes.now front) }
{
    match look_at_answer_head(bytes, room) {
        Verdict::Whole(spans) => Ok(Front::Whole(head_at(alloc, bytes, room, &spans)?)),
        Verdict::More => Ok(Front::More),
        Verdict::Dead => Ok(Front::Dead),
        Verdict::Crowded => Ok(Front::Dead),
    }
}

/// Looks at bytes once.
#[tactic(auto, using(crate::proofs::lemmas::HeadLemmas::dead_never, crate::proofs::lemmas::HeadLemmas::dead_none, crate::proofs::lemmas::HeadLemmas::dead_long, crate::proofs::lemmas::HeadLemmas::lives))]
fn look_at_answer_head(bytes: &[u8], room: &mut [HeaderSpan]) -> Verdict
    ensures { Sees (length room.old) bytes.now room.new result }
{
    match parse_response(bytes, room) {
        Ok(Status::Complete(spans)) => {
            if spans.len <= HEAD_LIMIT {
                Verdict::Whole(spans)
            } else {
                Verdict::Dead
            }
        }
        Ok(Status::Partial) => {
            if bytes.len() < HEAD_LIMIT {
                Verdict::More
            } else {
                Verdict::Dead
            }
        }
        Err(error) => {
            if error == Error::TooManyHeaders {
                Verdict::Crowded
            } else {
                Verdict::Dead
            }
        }
    }
}

/// The head that spans cover.
fn head_at(
    alloc: Global,
    bytes: &[u8],
    room: &[HeaderSpan],
    spans: &ResponseSpans,
) -> Result<Head, Memory>
    requires { IsResponseWithin bytes.now room.now spans.now }
    ensures { IfOk result (λ head. IsHeadAt bytes.now room.now spans.now head) }
{
    Ok(Head {
        status: spans.code,
        headers: headers_at(alloc, bytes, &room[..spans.headers])?,
        len: spans.len,
    })
}

/// The headers that spans cover.
fn headers_at(alloc: Global, bytes: &[u8], spans: &[HeaderSpan]) -> Result<List<Pair>, Memory>
    requires { All (IsHeaderWithin (length bytes.now)) spans.now }
    ensures { IfOk result (λ headers. headers ≡ map (header_at bytes.now) spans.now) }
{
    let mut headers = List::new(alloc);
    for span in spans {
        headers.push(answer_header_at(alloc, bytes, span)?)?;
    }
    Ok(headers)
}

/// The header that a span covers.
fn answer_header_at(alloc: Global, bytes: &[u8], span: &HeaderSpan) -> Result<Pair, Memory>
    requires { IsHeaderWithin (length bytes.now) span.now }
    ensures { IfOk result (λ header. header ≡ header_at bytes.now span.now) }
{
    let mut name = Vec::from_slice(alloc, span.name.of(bytes))?;
    name.make_ascii_lowercase();
    Ok(Pair {
        name: Bytes::from_vec(name),
        value: Bytes::from_slice(alloc, span.value.of(bytes))?,
    })
}
