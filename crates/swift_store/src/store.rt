//! Requests in, answers out.
ghost use Rattle.std.specs.Prelude.{◌≡◌, ◌++◌, IsTrue, IfOk, OnErr, OnOk};
ghost use Rattle.swift_calls.specs.Step.{Fit, swift_step};
ghost use Rattle.swift_calls.specs.declared.calls.SwiftRequest.{SwiftRequest};
ghost use Rattle.swift_replies.specs.AnswerText.{answer_text, refusal};
ghost use Rattle.swift_requests.specs.Place.{IsPlace};
ghost use Rattle.swift_store.specs.Shelf.{ShelfKeeps, Writes};
ghost use Rattle.swift_store.specs.Serving.{Answers, Served, TagsBody};

use crate::effects::apply_call_to_shelf;
use crate::replies::shelf_reply_to_call;
use crate::{Shelf, StoreFault};
use gate_base::{Bytes, Memory, drop};
use http_wire::Message;
use std::alloc::Global;
use swift_calls::{SwiftReply, SwiftRequest, drop_reply, drop_request};
use swift_replies::{WireFault, refusal, write_answer};
use swift_requests::{Place, has_account_token, read_call};

/// A text with another behind it. Where it is empty nothing is copied.
fn with_served_text(alloc: Global, before: &Bytes, text: Bytes) -> Result<Bytes, Memory>
    ensures { IfOk result (λ all. all ≡ before.now ++ text) }
{
    if before.is_empty() {
        return Ok(text);
    }
    joined_texts(alloc, before.as_slice(), text.as_slice())
}

/// A new text of two, one behind the other.
fn joined_texts(alloc: Global, front: &[u8], back: &[u8]) -> Result<Bytes, Memory>
    ensures { IfOk result (λ all. all ≡ front.now ++ back.now) }
{
    let mut all = Bytes::with_room(alloc, front.len().saturating_add(back.len()))?;
    all.append(front)?;
    all.append(back)?;
    Ok(all)
}

/// What is written so far with the answer of a call behind it.
fn with_served_answer(
    alloc: Global,
    before: &Bytes,
    call: &SwiftRequest,
    reply: &SwiftReply,
) -> Result<Bytes, Memory>
    ensures { IfOk result (λ all. all ≡ before.now ++ answer_text call.now reply.now) }
{
    let answer = write_answer(alloc, call, reply)?;
    with_served_text(alloc, before, answer)
}

/// Serves one call: its reply first, then its answer's bytes, for which memory is taken, and at last what it writes.
#[tactic(auto, using(crate::proofs::Served::answers_by, crate::proofs::Served::answers_unwritten))]
fn serve_call<S: Shelf>(
    alloc: Global,
    shelf: &mut S,
    call: SwiftRequest,
    out: &mut Bytes,
) -> Result<(), StoreFault>
    requires fit { Fit call }
    ensures keeps { ShelfKeeps (S.model shelf.old) result (S.model shelf.new) }
    ensures answers { Answers (S.model shelf.old).observable call (S.model shelf.old).account
        (S.model shelf.new).account out.old out.new result }
{
    match shelf_reply_to_call(alloc, shelf, &call) {
        Ok(reply) => serve_call_with_reply(alloc, shelf, call, reply, out),
        Err(fault) => {
            drop_request(call);
            Err(fault)
        }
    }
}

/// Serves a call whose reply is known. After an Err `out` is as before.
fn serve_call_with_reply<S: Shelf>(
    alloc: Global,
    shelf: &mut S,
    call: SwiftRequest,
    reply: SwiftReply,
    out: &mut Bytes,
) -> Result<(), StoreFault>
    requires fit { Fit call }
    requires tags { TagsBody call reply }
    ensures keeps { ShelfKeeps (S.model shelf.old) result (S.model shelf.new) }
    ensures effect { IsTrue (S.model shelf.old).observable
        → reply ≡ (swift_step call (S.model shelf.old).account).reply
        → Writes (S.model shelf.old).account (swift_step call (S.model shelf.old).account).tree
        (S.model shelf.new).account result }
    ensures text { IfOk result (λ done. out.new ≡ out.old ++ answer_text call reply) }
    ensures text_err { OnErr result (out.new ≡ out.old) }
{
    match with_served_answer(alloc, out, &call, &reply) {
        Ok(ready) => apply_ready_call_to_shelf(shelf, call, reply, ready, out),
        Err(Memory) => {
            drop_request(call);
            drop_reply(reply);
            Err(StoreFault::Memory)
        }
    }
}

/// Writes what a call writes whose reply is known, and then puts the answer that is ready in the place of what was written
/// so far. After an Err `out` is as before.
fn apply_ready_call_to_shelf<S: Shelf>(
    shelf: &mut S,
    call: SwiftRequest,
    reply: SwiftReply,
    ready: Bytes,
    out: &mut Bytes,
) -> Result<(), StoreFault>
    requires fit { Fit call }
    requires tags { TagsBody call reply }
    requires ready { ready ≡ out.old ++ answer_text call reply }
    ensures keeps { ShelfKeeps (S.model shelf.old) result (S.model shelf.new) }
    ensures effect { IsTrue (S.model shelf.old).observable
        → reply ≡ (swift_step call (S.model shelf.old).account).reply
        → Writes (S.model shelf.old).account (swift_step call (S.model shelf.old).account).tree
        (S.model shelf.new).account result }
    ensures text { IfOk result (λ done. out.new ≡ out.old ++ answer_text call reply) }
    ensures text_err { OnErr result (out.new ≡ out.old) }
{
    apply_call_to_shelf(shelf, call, reply)?;
    *out = ready;
    Ok(())
}

/// Appends an answer that says its status alone. After an Err `out` is as before.
fn append_refusal(alloc: Global, out: &mut Bytes, status: u16) -> Result<(), Memory>
    ensures ok { OnOk result (out.new ≡ out.old ++ refusal status) }
    ensures err { OnErr result (out.new ≡ out.old) }
{
    let text = refusal(alloc, status)?;
    *out = with_served_text(alloc, out, text)?;
    Ok(())
}

/// Appends the answer to one message: `401 Unauthorized` where it hasn't exactly one `X-Auth-Token` with the place's
/// token, `400 Bad Request` where it is no call, and else what Object Storage API v1 says. After an Err `out` is as
/// before. After Memory the shelf is as before too; after Failed it is as before, or the call had its whole effect.
#[tactic(auto, using(crate::proofs::Served::served_call))]
pub fn serve<S: Shelf>(
    alloc: Global,
    place: &Place,
    shelf: &mut S,
    message: Message,
    out: &mut Bytes,
) -> Result<(), StoreFault>
    requires { IsPlace place.now }
    ensures keeps { ShelfKeeps (S.model shelf.old) result (S.model shelf.new) }
    ensures served { Served (S.model shelf.old).observable place.now message
        (S.model shelf.old).account (S.model shelf.new).account out.old out.new result }
{
    if !has_account_token(place, &message) {
        drop(message);
        return Ok(append_refusal(alloc, out, 401)?);
    }
    match read_call(alloc, place, message) {
        Ok(call) => serve_call(alloc, shelf, call, out),
        Err(WireFault::NotACall) => Ok(append_refusal(alloc, out, 400)?),
        Err(WireFault::Memory) => Err(StoreFault::Memory),
        Err(WireFault::NotAnAnswer) => unreachable!(),
    }
}
