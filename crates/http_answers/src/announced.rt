//! What the head of an answer announces.
ghost use Rattle.std.specs.Prelude.{◌≡◌, IfOk};
ghost use Rattle.http_answers.specs.Announced.{Announces, answer_header_keeps_connection, stays_open};

use crate::framing::expected;
use crate::head::{Front, find_head};
use gate_base::{Memory, Pair};
use http_wire::has_name;
use std::alloc::Global;

/// What the bytes of an answer that came so far announce.
#[derive(Clone, Copy, Debug, PartialEq, Eq)]
pub enum Announced {
    /// The head isn't there as a whole yet.
    More,

    /// A head of `head` bytes, and behind it a body of `body` bytes. `stays` is false where the head has a Connection
    /// that isn't `keep-alive`, so that no other exchange may be made on the connection (RFC 9112, section 9.6).
    Answer { head: usize, body: u64, stays: bool },

    /// No answer can come of the bytes, as `End::Bad` says.
    Bad,
}

/// What the head of an answer announces: with it known, its bytes can be counted as they come. `head` says that the
/// request was HEAD. It fails only where memory runs out.
#[tactic(auto, using(crate::proofs::AnnouncedLemmas::announces_open, crate::proofs::AnnouncedLemmas::announces_dead, crate::proofs::AnnouncedLemmas::announces_whole, crate::proofs::AnnouncedLemmas::announces_refused))]
pub fn announced_by_answer_head(
    alloc: Global,
    head: bool,
    bytes: &[u8],
) -> Result<Announced, Memory>
    ensures { IfOk result (λ announced. Announces head bytes.now announced) }
{
    match find_head(alloc, bytes)? {
        Front::Whole(found) => {
            let headers = found.headers.as_slice();
            match expected(head, found.status, headers) {
                Some(body) => Ok(Announced::Answer {
                    head: found.len,
                    body,
                    stays: stays_open(headers),
                }),
                None => Ok(Announced::Bad),
            }
        }
        Front::More => Ok(Announced::More),
        Front::Dead => Ok(Announced::Bad),
    }
}

/// Whether the headers leave the connection open.
fn stays_open(headers: &[Pair]) -> bool
    ensures { result ≡ stays_open headers.now }
{
    headers
        .iter()
        .all(|header| answer_header_keeps_connection(header))
}

fn answer_header_keeps_connection(header: &Pair) -> bool
    ensures { result ≡ answer_header_keeps_connection header.now }
{
    !has_name(header, b"connection") || header.value.as_slice().eq_ignore_ascii_case(b"keep-alive")
}
