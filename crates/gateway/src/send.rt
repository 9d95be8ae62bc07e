//! How an object is sent as its bytes come: the head of the reply, and then each piece as it was got.
ghost use Rattle.std.specs.Prelude.{◌≡◌, ◌<◌, ◌≤◌, ◌+◌, ◌-◌, min, false, is_some, IsTrue, IfOk, OnOk, Some, None};
ghost use Rattle.gate_base.specs.Line.{OnlyWrites};
ghost use Rattle.s3_machine.specs.Shown.{IsShowable};
ghost use Rattle.http_wire.specs.FirstMessage.{is_head};
ghost use Rattle.swift_calls.specs.History.{present};
ghost use Rattle.upload_records.specs.Native.{IsSettled};
ghost use Rattle.account_calls.specs.Lent.{Stays};
ghost use Rattle.planner.specs.Reading.{IsFound};
ghost use Rattle.gateway.specs.Handled.{EndsWith, NotFailedIfServed, is_failed_reply};
ghost use Rattle.gateway.specs.Reading.{IsReady, SendsBehind, SendsBody, SendsObject, SendsPiece, SendsReading, SendsReply, ended_by, head_text};
ghost use Rattle.gateway.specs.declared.write.Written.TheVariants as written;
ghost use Rattle.gateway.specs.Serving.{is_failed_step};
ghost use Rattle.gateway.specs.World.{SendsOver};
ghost use Rattle.gateway.specs.Write.{WritesHead, is_failed_stop, is_failed_write};

use crate::handle::Handled;
use crate::write::{ReplyContext, Written, print_reply, write_memory_reply, write_reply};
use crate::{Ended, World};
use account_calls::{PlanFault, Settled};
use gate_base::{Bytes, Clock, Copying, Draws, Line, Memory, drop};
use planner::{Found, Reading, read_piece};
use s3_machine::{ObjectBytes, Reply, Settings};
use std::alloc::Global;
use swift_calls::Swift;

/// The most bytes of a piece.
const MOST_PIECE: u64 = 1_048_576;

/// Why no more of an object is sent.
#[derive(Clone, Copy, Debug, PartialEq, Eq)]
pub enum Stop {
    /// The line failed.
    Line,
    /// The next piece wasn't got.
    Fault(PlanFault),
}

/// Sends what was answered: a whole reply as one piece, or an object as its bytes come.
pub fn send_reading<N: Line<W>, W: Swift, C: Clock, D: Draws>(
    alloc: Global,
    lent: &mut World<'_, N, W, C, D>,
    settings: &Settings,
    reading: Reading,
    context: &ReplyContext<'_>,
    end: Option<Ended>,
) -> Handled
    requires open { IsTrue (N.model lent.old.line.now).is_open }
    requires ready { IsReady (W.history lent.old.store.now) reading }
    requires served { is_failed_step end ≡ false }
    ensures stays { SendsOver lent.old lent.new }
    ensures endings { EndsWith end result }
    ensures served { NotFailedIfServed result }
    ensures writes { OnlyWrites (is_failed_reply result) (N.model lent.old.line.now)
        (N.model lent.new.line.now) }
    ensures sends { SendsReading reading context.now.label context.now.method.now
        context.now.resource.now end (N.model lent.old.line.now) (W.history lent.old.store.now)
        result (N.model lent.new.line.now) (W.history lent.new.store.now) }
{
    match reading {
        Reading::Whole(reply) => send_reply(alloc, lent.line, lent.store, reply, context, end),
        Reading::Pieces(found) => send_object(alloc, lent, settings, found, context, end),
    }
}

fn send_reply<N: Line<W>, W: Swift>(
    alloc: Global,
    line: &mut N,
    store: &W,
    reply: Reply,
    context: &ReplyContext<'_>,
    end: Option<Ended>,
) -> Handled
    requires open { IsTrue (N.model line.old).is_open }
    requires showable { IsShowable reply }
    requires served { is_failed_step end ≡ false }
    ensures endings { EndsWith end result }
    ensures served { NotFailedIfServed result }
    ensures writes { OnlyWrites (is_failed_reply result) (N.model line.old) (N.model line.new) }
    ensures sends { IsTrue (N.model line.old).observable
        → SendsReply reply context.now.label context.now.method.now context.now.resource.now end
        (N.model line.old).transcript (W.history store.now).called result
        (N.model line.new).transcript }
{
    match write_reply(alloc, line, store, reply, context, end.is_some()) {
        Written::Whole => Handled::Served(end),
        Written::Memory => {
            drop(end);
            Handled::Served(Some(Ended::Memory))
        }
        Written::Failed => {
            drop(end);
            Handled::Broken
        }
    }
}

/// Sends an object: the head of its reply as one piece, or the out-of-memory reply in its place, and then its bytes.
fn send_object<N: Line<W>, W: Swift, C: Clock, D: Draws>(
    alloc: Global,
    lent: &mut World<'_, N, W, C, D>,
    settings: &Settings,
    found: Found,
    context: &ReplyContext<'_>,
    end: Option<Ended>,
) -> Handled
    requires open { IsTrue (N.model lent.old.line.now).is_open }
    requires found { IsFound found }
    requires settled { IsTrue (W.history lent.old.store.now).observable
        → IsSettled (present (W.history lent.old.store.now)) }
    requires served { is_failed_step end ≡ false }
    ensures stays { SendsOver lent.old lent.new }
    ensures endings { EndsWith end result }
    ensures served { NotFailedIfServed result }
    ensures writes { OnlyWrites (is_failed_reply result) (N.model lent.old.line.now)
        (N.model lent.new.line.now) }
    ensures sends { SendsObject found context.now.label context.now.method.now
        context.now.resource.now end (N.model lent.old.line.now) (W.history lent.old.store.now)
        result (N.model lent.new.line.now) (W.history lent.new.store.now) }
{
    match write_head(alloc, lent.line, lent.store, &found, context, end.is_some()) {
        Written::Whole => send_behind_head(alloc, lent.line, lent.store, settings, found, end),
        Written::Memory => {
            drop(end);
            drop(found);
            Handled::Served(Some(Ended::Memory))
        }
        Written::Failed => {
            drop(end);
            drop(found);
            Handled::Broken
        }
    }
}

/// Writes the head of the reply, or the out-of-memory reply.
fn write_head<N: Line<W>, W: Swift>(
    alloc: Global,
    line: &mut N,
    store: &W,
    found: &Found,
    context: &ReplyContext<'_>,
    closing: bool,
) -> Written
    requires open { IsTrue (N.model line.old).is_open }
    requires found { IsFound found.now }
    ensures writes { OnlyWrites (is_failed_write result) (N.model line.old) (N.model line.new) }
    ensures effect { IsTrue (N.model line.old).observable
        → WritesHead (N.model line.old).transcript (W.history store.now).called
        (head_text found.now context.now.label context.now.method.now context.now.resource.now
        closing)
        context.now.method.now result (N.model line.new).transcript }
    ensures method { result ≡ written.Whole → is_head context.now.method.now ≡ false }
{
    match print_head(alloc, found, context, closing) {
        Ok(text) => match line.write(store, text.as_slice()) {
            Ok(()) => Written::Whole,
            Err(_) => Written::Failed,
        },
        Err(_) => write_memory_reply(line, store, context.method == b"HEAD".as_slice()),
    }
}

/// The head of the reply. A read has never the method HEAD; one that had would end here as where memory ran out.
fn print_head(
    alloc: Global,
    found: &Found,
    context: &ReplyContext<'_>,
    closing: bool,
) -> Result<Bytes, Memory>
    requires found { IsFound found.now }
    ensures text { IfOk result
        (λ text. text ≡ head_text found.now context.now.label context.now.method.now
        context.now.resource.now closing) }
    ensures method { OnOk result (is_head context.now.method.now ≡ false) }
{
    if context.method == b"HEAD".as_slice() {
        return Err(Memory);
    }
    let head = found.head.copy()?;
    let shown = found.shown.copy()?;
    let reply = Reply::Object(ObjectBytes {
        head,
        from: found.from,
        length: found.length,
        partial: found.partial,
        body: Bytes::new(alloc),
        shown,
        parts: found.parts,
    });
    print_reply(alloc, reply, context, closing)
}

/// Sends the bytes behind the head.
fn send_behind_head<N: Line<W>, W: Swift>(
    alloc: Global,
    line: &mut N,
    store: &mut W,
    settings: &Settings,
    found: Found,
    end: Option<Ended>,
) -> Handled
    requires open { IsTrue (N.model line.old).is_open }
    requires found { IsFound found }
    requires settled { IsTrue (W.history store.old).observable
        → IsSettled (present (W.history store.old)) }
    requires served { is_failed_step end ≡ false }
    ensures endings { EndsWith end result }
    ensures served { NotFailedIfServed result }
    ensures writes { OnlyWrites (is_failed_reply result) (N.model line.old) (N.model line.new) }
    ensures sends { SendsBehind found end (N.model line.old) (W.history store.old) result
        (N.model line.new) (W.history store.new) }
{
    match send_from(alloc, line, store, settings, &found) {
        None => {
            drop(found);
            Handled::Served(end)
        }
        Some(Stop::Line) => {
            drop(found);
            drop(end);
            Handled::Broken
        }
        Some(Stop::Fault(fault)) => {
            drop(end);
            Handled::Parted(ended_by(found, fault))
        }
    }
}

/// Sends the bytes of an object from a store that is settled.
fn send_from<N: Line<W>, W: Swift>(
    alloc: Global,
    line: &mut N,
    store: &mut W,
    settings: &Settings,
    found: &Found,
) -> Option<Stop>
    requires open { IsTrue (N.model line.old).is_open }
    requires found { IsFound found.now }
    requires settled { IsTrue (W.history store.old).observable
        → IsSettled (present (W.history store.old)) }
    ensures writes { OnlyWrites (is_failed_stop result) (N.model line.old) (N.model line.new) }
    ensures sends { SendsBody found.now (N.model line.old) (W.history store.old) result
        (N.model line.new) (W.history store.new) }
{
    let mut state = Settled::hold(alloc, store, settings);
    send_pieces(line, &mut state, found)
}

/// How a connection ends whose read broke off.
fn ended_by(found: Found, fault: PlanFault) -> Ended
    ensures { result ≡ ended_by found fault }
{
    match fault {
        PlanFault::Failed => Ended::StoreFailed,
        PlanFault::Memory => Ended::Memory,
        PlanFault::Inconsistent => Ended::Inconsistent {
            container: found.bucket.into_text(),
            name: found.key.into_text(),
        },
    }
}

/// Sends the bytes of an object, each piece as it was got. `None` says that all were sent.
fn send_pieces<N: Line<W>, W: Swift>(
    line: &mut N,
    state: &mut Settled<'_, W>,
    found: &Found,
) -> Option<Stop>
    requires open { IsTrue (N.model line.old).is_open }
    requires found { IsFound found.now }
    ensures stays { Stays state.old state.new }
    ensures writes { OnlyWrites (is_failed_stop result) (N.model line.old) (N.model line.new) }
    ensures sends { SendsBody found.now (N.model line.old) (W.history state.old.store.now) result
        (N.model line.new) (W.history state.new.store.now) }
{
    let mut at = 0;
    'pieces: while at < found.length {
        let size = piece_size(found.length - at);
        match send_piece(line, state, found, at, size) {
            Some(stop) => return Some(stop),
            None => at += size,
        }
    }
    None
}

fn piece_size(left: u64) -> u64
    ensures { result ≡ min 1048576 left }
{
    if left < MOST_PIECE { left } else { MOST_PIECE }
}

/// Gets a piece and sends it.
fn send_piece<N: Line<W>, W: Swift>(
    line: &mut N,
    state: &mut Settled<'_, W>,
    found: &Found,
    at: u64,
    size: u64,
) -> Option<Stop>
    requires open { IsTrue (N.model line.old).is_open }
    requires found { IsFound found.now }
    requires filled { 0 < size }
    requires within { at + size ≤ found.now.length }
    ensures stays { Stays state.old state.new }
    ensures writes { OnlyWrites (is_failed_stop result) (N.model line.old) (N.model line.new) }
    ensures sends { SendsPiece found.now at size (N.model line.old) (W.history state.old.store.now)
        result (N.model line.new) (W.history state.new.store.now) }
{
    match read_piece(state, found, at, size) {
        Ok(bytes) => match line.write(state.store(), bytes.as_slice()) {
            Ok(()) => None,
            Err(_) => Some(Stop::Line),
        },
        Err(fault) => Some(Stop::Fault(fault)),
    }
}
