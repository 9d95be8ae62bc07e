//! Where an answer ends.
ghost use Rattle.std.specs.Prelude.{◌≡◌, Some, IfOk};
ghost use Rattle.http_answers.specs.Framing.{Ends, expected, is_bodiless, answer_end_by};

use crate::fields::answer_content_length;
use crate::head::{Front, find_head};
use gate_base::{Copying, Memory, Pair};
use http_wire::has_header;
use std::alloc::Global;

/// Where the first answer in the bytes of a connection ends.
#[derive(Clone, Copy, Debug, PartialEq, Eq)]
pub enum End {
    /// It isn't there as a whole yet.
    More,

    /// It has so many bytes.
    At(usize),

    /// No answer can come of the bytes: they begin with no head of up to 65,536 bytes and none can come, or 65,536 bytes
    /// hold none, or the head has a Transfer-Encoding, or a body has to follow and the head hasn't exactly one
    /// Content-Length of 1 to 19 digits.
    Bad,
}

impl Copying for End {
    fn copy(&self) -> Result<End, Memory>
        ensures { result ≡ Ok self.now }
    {
        Ok(*self)
    }
}

/// Where the first answer ends (RFC 9112, sections 4 to 6). `head` says that the request was HEAD. No body follows such
/// an answer, nor one of 204 or 304; else the body has as many bytes as Content-Length says. It fails only where memory
/// runs out: it takes some for the headers alone.
#[tactic(auto, using(crate::proofs::lemmas::FramingLemmas::ends_open, crate::proofs::lemmas::FramingLemmas::ends_dead, crate::proofs::lemmas::FramingLemmas::ends_whole))]
pub fn answer_end(alloc: Global, head: bool, bytes: &[u8]) -> Result<End, Memory>
    ensures { IfOk result (λ end. Ends head bytes.now end) }
{
    match find_head(alloc, bytes)? {
        Front::Whole(found) => {
            let body = expected(head, found.status, found.headers.as_slice());
            Ok(answer_end_by(bytes.len(), found.len, body))
        }
        Front::More => Ok(End::More),
        Front::Dead => Ok(End::Bad),
    }
}

/// Where the answer ends of which so many bytes are there, with a head and a body of these lengths.
fn answer_end_by(have: usize, len: usize, body: Option<u64>) -> End
    ensures { result ≡ answer_end_by have len body }
{
    match body {
        Some(size) => answer_end_within(have, len, size),
        None => End::Bad,
    }
}

fn answer_end_within(have: usize, len: usize, size: u64) -> End
    ensures { result ≡ answer_end_by have len (Some size) }
{
    match (len as u64).checked_add(size) {
        Some(end) if end <= have as u64 => End::At(end as usize),
        _ => End::More,
    }
}

/// How many bytes of body follow a head; none where it is refused.
pub fn expected(head: bool, status: u16, headers: &[Pair]) -> Option<u64>
    ensures { result ≡ expected head status headers.now }
{
    if has_header(headers, b"transfer-encoding") {
        return None;
    }
    if is_bodiless(head, status) {
        return Some(0);
    }
    answer_content_length(headers)
}

fn is_bodiless(head: bool, status: u16) -> bool
    ensures { result ≡ is_bodiless head status }
{
    head || (status == 204 || status == 304)
}
