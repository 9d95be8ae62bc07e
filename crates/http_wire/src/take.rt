//! A whole head with its body.
ghost use Rattle.std.specs.Prelude.{true, false, ◌≡◌, ◌≤◌, ◌<◌, ◌+◌, ◌++◌, [], length, take, drop, IsTrue, IfOk, Ok, OnErr};
ghost use Rattle.gate_base.specs.Line.{LineServes, OnlyReads};
ghost use Rattle.httparse.specs.Grammar.{RequestHead};
ghost use Rattle.httparse.specs.Spans.{IsRequestAt, IsRequestWithin};
ghost use Rattle.http_wire.specs.FirstMessage.{is_head, message_of};
ghost use Rattle.http_wire.specs.Interim.{is_owed, owed_by, SendsOn};
ghost use Rattle.http_wire.specs.declared.take.Taken.TheVariants.{Not};
ghost use Rattle.http_wire.specs.Seen.{window};
ghost use Rattle.http_wire.specs.Taken.{BodyFrom, OnWhole, TakenFrom};
ghost use Rattle.http_wire.specs.Reading.{is_failed_read};

use crate::advance::window;
use crate::fill::read_room;
use crate::interim::offer;
use crate::judge::judge;
use crate::message::message_at_head_spans;
use crate::{Kind, Message, ReadFault};
use gate_base::{Bytes, Counted, Line, drop};
use httparse::spans::{HeaderSpan, RequestSpans};
use std::alloc::AllocError;
use std::mem::replace;

/// The bytes that one read asks for while a body is read, at most. Each byte of the room for them is made once.
const PIECE: usize = 65_536;

/// The bytes of a body that room is made for before they come, at most. Behind these the room grows with what comes, so that a
/// length alone takes no memory.
const AHEAD: usize = 16_777_216;

/// What a whole head gives.
#[derive(Drop)]
pub(crate) enum Taken {
    /// A request, and how many bytes it has.
    Whole { message: Message, size: usize },

    /// It is refused. `head` says that its method is HEAD.
    Not { kind: Kind, head: bool },
}

/// Takes the message of a whole head, with its body of at most `limit` bytes, and the bytes of both away. The interim line is
/// written before the body, where the head asks for it. Where the request is refused, and without an answer, no byte is lost: what came of
/// the body stays in `partial`, behind what stays in `pending`.
pub(crate) fn take_message<N: Line<C>, C: Counted>(
    limit: u64,
    pending: &mut Vec<u8>,
    partial: &mut Vec<u8>,
    lines: &[HeaderSpan],
    spans: &RequestSpans,
    line: &mut N,
    store: &C,
) -> Result<Taken, ReadFault>
    requires open { IsTrue (N.model line.old).is_open }
    requires within { IsRequestWithin (window pending.old.items) lines.now spans.now }
    requires none { partial.old.items ≡ [] }
    ensures line { LineServes (is_failed_read result) (N.model line.old) (N.model line.new) }
    ensures sent { IsTrue (N.model line.old).observable → (h : RequestHead)
        → IsRequestAt (window pending.old.items) lines.now spans.now h
        → SendsOn (is_owed limit (message_of h) ≡ true) (C.called store.now) (N.model line.old).transcript
        result (N.model line.new).transcript }
    ensures none { IfOk result (OnWhole (partial.new.items ≡ [])) }
    ensures fewer { IfOk result
        (OnWhole (length pending.new.items + spans.now.len ≤ length pending.old.items)) }
    ensures effect { IsTrue (N.model line.old).observable
        → IfOk result (λ taken. (h : RequestHead)
        → IsRequestAt (window pending.old.items) lines.now spans.now h
        → TakenFrom limit (pending.old.items ++ (N.model line.old).transcript.rest) h spans.now.len taken
        ((pending.new.items ++ partial.new.items) ++ (N.model line.new).transcript.rest)) }
    ensures effect_err { IsTrue (N.model line.old).observable
        → OnErr result ((pending.new.items ++ partial.new.items)
        ++ (N.model line.new).transcript.rest ≡ pending.old.items
        ++ (N.model line.old).transcript.rest) }
{
    let alloc = *pending.allocator();
    let mut message = message_at_head_spans(alloc, window(pending), lines, spans)?;
    let size = match judge(limit, &message) {
        Ok(size) => size,
        Err(kind) => return Ok(request_not_taken(kind, message)),
    };
    match take_offered(pending, partial, &message, spans.len, size, line, store) {
        Ok(true) => {}
        Ok(false) => return Ok(request_not_taken(Kind::ShortBody, message)),
        Err(fault) => {
            drop(message);
            return Err(fault);
        }
    }
    message.body = Bytes::from_vec(replace(partial, Vec::new(alloc)));
    Ok(Taken::Whole {
        message,
        size: spans.len + size,
    })
}

/// The request of this head is refused.
fn request_not_taken(kind: Kind, message: Message) -> Taken
    ensures { result ≡ Not kind (is_head message.method) }
{
    Taken::Not {
        kind,
        head: is_head(&message),
    }
}

/// Writes the interim line, where the head asks for it, and then moves the body into `body`, as [`take_request_body`] does.
fn take_offered<N: Line<C>, C: Counted>(
    pending: &mut Vec<u8>,
    body: &mut Vec<u8>,
    message: &Message,
    start: usize,
    size: usize,
    line: &mut N,
    store: &C,
) -> Result<bool, ReadFault>
    requires open { IsTrue (N.model line.old).is_open }
    requires within { start ≤ length pending.old.items }
    requires none { body.old.items ≡ [] }
    ensures line { LineServes (is_failed_read result) (N.model line.old) (N.model line.new) }
    ensures sent { IsTrue (N.model line.old).observable
        → SendsOn (owed_by message.now (Ok size) ≡ true) (C.called store.now) (N.model line.old).transcript
        result (N.model line.new).transcript }
    ensures fewer { IfOk result
        (λ whole. IsTrue whole → length pending.new.items + start ≤ length pending.old.items) }
    ensures effect { IsTrue (N.model line.old).observable
        → IfOk result (λ whole. BodyFrom (pending.old.items ++ (N.model line.old).transcript.rest)
        start size whole body.new.items pending.new.items (N.model line.new).transcript.rest) }
    ensures effect_err { IsTrue (N.model line.old).observable
        → OnErr result ((pending.new.items ++ body.new.items)
        ++ (N.model line.new).transcript.rest ≡ pending.old.items
        ++ (N.model line.old).transcript.rest) }
{
    offer(message, size, line, store)?;
    take_request_body(pending, body, start, size, line)
}

fn is_head(message: &Message) -> bool
    ensures { result ≡ is_head message.now.method }
{
    message.method.as_slice() == b"HEAD".as_slice()
}

/// Moves the `size` bytes behind the first `start` into `body`, and takes both away: of those that came already, and
/// else of the line. False where the connection ends before.
fn take_request_body<N: Line<C>, C: Counted>(
    pending: &mut Vec<u8>,
    body: &mut Vec<u8>,
    start: usize,
    size: usize,
    line: &mut N,
) -> Result<bool, ReadFault>
    requires open { IsTrue (N.model line.old).is_open }
    requires within { start ≤ length pending.old.items }
    requires none { body.old.items ≡ [] }
    ensures reads { OnlyReads (is_failed_read result) (N.model line.old) (N.model line.new) }
    ensures fewer { IfOk result
        (λ whole. IsTrue whole → length pending.new.items + start ≤ length pending.old.items) }
    ensures effect { IsTrue (N.model line.old).observable
        → IfOk result (λ whole. BodyFrom (pending.old.items ++ (N.model line.old).transcript.rest)
        start size whole body.new.items pending.new.items (N.model line.new).transcript.rest) }
    ensures effect_err { IsTrue (N.model line.old).observable
        → OnErr result ((pending.new.items ++ body.new.items)
        ++ (N.model line.new).transcript.rest ≡ pending.old.items
        ++ (N.model line.old).transcript.rest) }
{
    if size <= pending.len() - start {
        body.extend_from_slice(&pending[start..start + size])?;
        drop_request_bytes(pending, start + size);
        return Ok(true);
    }
    begin_request_body(pending, body, start, size)?;
    if !finish_request_body(body, size, line)? {
        return Ok(false);
    }
    pending.truncate(0);
    Ok(true)
}

/// Makes room for the beginning of a body of `size` bytes, and moves into it what came of it already, behind the first `start` bytes.
fn begin_request_body(
    pending: &mut Vec<u8>,
    body: &mut Vec<u8>,
    start: usize,
    size: usize,
) -> Result<(), AllocError>
    requires within { start ≤ length pending.old.items }
    requires none { body.old.items ≡ [] }
    ensures ok { IfOk result (λ _. (pending.new.items ≡ take start pending.old.items)
        × (body.new.items ≡ drop start pending.old.items)) }
    ensures err { OnErr result ((pending.new.items ≡ pending.old.items) × (body.new.items ≡ [])) }
{
    body.reserve(size.min(AHEAD))?;
    body.extend_from_slice(&pending[start..])?;
    pending.truncate(start);
    Ok(())
}

/// Reads until `body` has `size` bytes. False where the connection ends before.
fn finish_request_body<N: Line<C>, C: Counted>(
    body: &mut Vec<u8>,
    size: usize,
    line: &mut N,
) -> Result<bool, ReadFault>
    requires open { IsTrue (N.model line.old).is_open }
    requires short { length body.old.items ≤ size }
    ensures reads { OnlyReads (is_failed_read result) (N.model line.old) (N.model line.new) }
    ensures kept { IsTrue (N.model line.old).observable
        → body.new.items ++ (N.model line.new).transcript.rest ≡ body.old.items
        ++ (N.model line.old).transcript.rest }
    ensures whole { IfOk result (λ whole. IsTrue whole → length body.new.items ≡ size) }
    ensures short { IsTrue (N.model line.old).observable
        → IfOk result (λ whole. whole ≡ false → (length body.new.items < size)
        × ((N.model line.new).transcript.rest ≡ [])) }
{
    let mut came = body.len();
    'pieces: while came < size {
        if came == body.len() {
            body.resize(came + PIECE.min(size - came), 0)?;
        }
        match read_room(body, came, line) {
            Ok(0) => {
                body.truncate(came);
                return Ok(false);
            }
            Ok(count) => came += count,
            Err(fault) => {
                body.truncate(came);
                return Err(fault);
            }
        }
    }
    Ok(true)
}

/// Takes the first `count` bytes away.
fn drop_request_bytes(pending: &mut Vec<u8>, count: usize)
    requires { count ≤ length pending.old.items }
    ensures { pending.new.items ≡ drop count pending.old.items }
{
    let left = pending.len() - count;
    pending.copy_within(count.., 0);
    pending.truncate(left);
}
