//! Answers whose bytes came in two pieces.
ghost use Rattle.std.specs.Prelude.{◌≡◌, ◌++◌, IfOk};
ghost use Rattle.http_answers.specs.Head.{Shows};
ghost use Rattle.http_answers.specs.declared.head.Front.TheVariants.{Whole};
ghost use Rattle.swift_replies.specs.Answers.{ReadsAnswer, reply_of};
ghost use Rattle.swift_replies.specs.Parted.{is_body_of_size};

use crate::WireFault;
use crate::answers::{asks_head, bytes_reply, read_answer, reply_of};
use gate_base::{Bytes, Memory, Pair};
use http_answers::{Front, Head, expected, find_head};
use std::alloc::Global;
use swift_calls::{SwiftReply, SwiftRequest};

/// The reply that an answer spells to a call, where its bytes came in two pieces, those of `head` and those of `body` behind them.
/// As [`read_answer`] says of both together. Where they are parted behind the head, the bytes of an object are moved and not
/// copied; where they are parted elsewhere, they are joined first.
#[tactic(auto, using(crate::proofs::PartedLemmas::nothing_behind))]
pub fn read_parted_answer(
    alloc: Global,
    call: &SwiftRequest,
    head: &[u8],
    body: Bytes,
) -> Result<SwiftReply, WireFault>
    ensures { ReadsAnswer call.now (head.now ++ body) result }
{
    if body.is_empty() {
        return read_answer(alloc, call, head);
    }
    match find_head(alloc, head)? {
        Front::Whole(found) => read_answer_behind_head(alloc, call, head, &found, body),
        Front::More | Front::Dead => read_joined_answer(alloc, call, head, &body),
    }
}

/// The same where the first piece begins with this head.
#[tactic(auto, using(crate::proofs::PartedLemmas::spells_reply))]
fn read_answer_behind_head(
    alloc: Global,
    call: &SwiftRequest,
    head: &[u8],
    found: &Head,
    body: Bytes,
) -> Result<SwiftReply, WireFault>
    requires { Shows head.now (Whole found.now) }
    ensures { ReadsAnswer call.now (head.now ++ body) result }
{
    if found.len != head.len() {
        return read_joined_answer(alloc, call, head, &body);
    }
    let headers = found.headers.as_slice();
    let size = expected(asks_head(call), found.status, headers);
    if !is_body_of_size(body.len(), size) {
        return Err(WireFault::NotAnAnswer);
    }
    match reply_with_body(alloc, call, found.status, headers, body)? {
        Some(reply) => Ok(reply),
        None => Err(WireFault::NotAnAnswer),
    }
}

/// The same of the two pieces joined.
fn read_joined_answer(
    alloc: Global,
    call: &SwiftRequest,
    head: &[u8],
    body: &Bytes,
) -> Result<SwiftReply, WireFault>
    ensures { ReadsAnswer call.now (head.now ++ body.now) result }
{
    let mut bytes = Bytes::from_slice(alloc, head)?;
    bytes.append(body.as_slice())?;
    read_answer(alloc, call, bytes.as_slice())
}

/// Whether a body of so many bytes is what is expected behind a head.
fn is_body_of_size(count: usize, size: Option<u64>) -> bool
    ensures { result ≡ is_body_of_size count size }
{
    match size {
        Some(size) => count as u64 == size,
        None => false,
    }
}

/// The reply that an answer gives to a call, if it gives one. The body of an object is moved.
fn reply_with_body(
    alloc: Global,
    call: &SwiftRequest,
    status: u16,
    headers: &[Pair],
    body: Bytes,
) -> Result<Option<SwiftReply>, Memory>
    ensures { IfOk result (λ reply. reply ≡ reply_of call.now
        (record { status = status; headers = headers.now; body = body })) }
{
    match call {
        SwiftRequest::GetObject { range, .. } => bytes_reply(alloc, *range, status, headers, body),
        _ => reply_of(alloc, call, status, headers, body.as_slice()),
    }
}
