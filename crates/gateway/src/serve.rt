ghost use Rattle.std.specs.Prelude.{◌≡◌, ◌<◌, false, List, IsTrue, None};
ghost use Rattle.gate_base.specs.Line.{LineServes, OnlyWrites};
ghost use Rattle.http_wire.specs.Reading.{weight};
ghost use Rattle.account_calls.specs.Known.{Knows};
ghost use Rattle.gateway.specs.Exchange.{Span};
ghost use Rattle.gateway.specs.Connection.{is_failed_end, ConnectionTrace};
ghost use Rattle.gateway.specs.Request.{asks_of, end_of};
ghost use Rattle.gateway.specs.Handled.{HandledEnds};
ghost use Rattle.gateway.specs.Serving.{is_failed_step, NextOne, EndsUnread};
ghost use Rattle.gateway.specs.World.{world_in, progress_of, start_of, cursor_of, ServesOver, StaysLent};

use crate::handle::{Handled, handle_request};
use crate::write::{Written, write_memory_reply};
use crate::{Ended, Service, World};
use gate_base::{Clock, Draws, Line};
use http_service::Received;
use http_wire::{Got, ReadFault, Reader};
use std::alloc::Global;
use swift_calls::Swift;

/// Serves one open connection to its end: its requests, with bodies of at most `largest_body` bytes by the settings, are
/// resolved and answered in order. After the first that ends the
/// connection, and where the line fails or memory runs out while a request is read, no more is read of it.
///
/// What is known of the store, whether a completion may be sealed on it, goes from one connection to the next. It is true of a store
/// that is observable; `Unsure` is of each.
pub fn serve_connection<N: Line<W>, W: Swift, C: Clock, D: Draws>(
    alloc: Global,
    service: &Service,
    lent: &mut World<'_, N, W, C, D>,
) -> Ended
    requires open { IsTrue (N.model lent.old.line.now).is_open }
    requires knows { Knows lent.old.known (W.history lent.old.store.now) }
    ensures stays { StaysLent lent.old lent.new }
    ensures line { LineServes (is_failed_end result) (N.model lent.old.line.now)
        (N.model lent.new.line.now) }

    // Where line, clock and draws are observable, it is one connection.
    ensures serves { ServesOver service.now.settings (λ R old new. (spans : List Span)
        × ConnectionTrace service.now R old.line.transcript.begun result (start_of old) spans
        (progress_of new)) (world_in N.model W.history C.model D.model lent.old)
        (world_in N.model W.history C.model D.model lent.new) }
{
    let mut reader = match Reader::new(alloc) {
        Ok(reader) => reader,
        Err(_) => return end_connection_unread(lent.line, lent.store),
    };
    'requests: loop {
        match serve_next(alloc, &mut reader, service, lent) {
            Some(ended) => return ended,
            None => {}
        }
    }
}

/// Hears the next request and answers it. `None` says that the connection goes on.
fn serve_next<N: Line<W>, W: Swift, C: Clock, D: Draws>(
    alloc: Global,
    reader: &mut Reader,
    service: &Service,
    lent: &mut World<'_, N, W, C, D>,
) -> Option<Ended>
    requires open { IsTrue (N.model lent.old.line.now).is_open }
    requires goes { reader.old.ended ≡ false }
    requires knows { Knows lent.old.known (W.history lent.old.store.now) }
    ensures stays { StaysLent lent.old lent.new }
    ensures goes { result ≡ None → reader.new.ended ≡ false }
    ensures falls { result ≡ None
        → weight (N.model lent.new.line.now).spent reader.new.bytes
        < weight (N.model lent.old.line.now).spent reader.old.bytes }
    ensures line { LineServes (is_failed_step result) (N.model lent.old.line.now)
        (N.model lent.new.line.now) }
    ensures serves { ServesOver service.now.settings (λ R old new. NextOne service.now R
        old.line.transcript.begun (cursor_of reader.old old) result (cursor_of reader.new new))
        (world_in N.model W.history C.model D.model lent.old)
        (world_in N.model W.history C.model D.model lent.new) }
{
    match reader.next_request(service.settings.largest_body, lent.line, lent.store) {
        Ok(Got::Request(message)) => answer(alloc, service, lent, Received::Message(message)),
        Ok(Got::Refused { kind, place, head }) => {
            answer(
                alloc,
                service,
                lent,
                Received::Refused { kind, place, head },
            )
        }
        Ok(Got::End) => Some(Ended::End),
        Ok(Got::CutShort(place)) => Some(Ended::CutShort(place)),
        Err(ReadFault::Failed) => Some(Ended::LineFailed),
        Err(ReadFault::Memory) => Some(end_connection_unread(lent.line, lent.store)),
    }
}

/// Answers what was received. `None` says that the connection goes on.
fn answer<N: Line<W>, W: Swift, C: Clock, D: Draws>(
    alloc: Global,
    service: &Service,
    lent: &mut World<'_, N, W, C, D>,
    received: Received,
) -> Option<Ended>
    requires open { IsTrue (N.model lent.old.line.now).is_open }
    requires knows { Knows lent.old.known (W.history lent.old.store.now) }
    ensures stays { StaysLent lent.old lent.new }
    ensures ends { result ≡ None → end_of received ≡ None }
    ensures writes { OnlyWrites (is_failed_step result) (N.model lent.old.line.now)
        (N.model lent.new.line.now) }
    ensures serves { ServesOver service.now.settings (λ R old new. HandledEnds R
        old.line.transcript.begun (progress_of old) (progress_of new) (asks_of service.now received)
        result) (world_in N.model W.history C.model D.model lent.old)
        (world_in N.model W.history C.model D.model lent.new) }
{
    match handle_request(alloc, service, lent, received) {
        Handled::Served(ended) => ended,
        Handled::Broken => Some(Ended::LineFailed),
        Handled::Parted(ended) => Some(ended),
    }
}

/// Ends a connection whose next request could not be read because memory ran out: the reply for that is written.
fn end_connection_unread<N: Line<W>, W: Swift>(line: &mut N, store: &W) -> Ended
    requires { IsTrue (N.model line.old).is_open }
    ensures writes { OnlyWrites (is_failed_end result) (N.model line.old) (N.model line.new) }
    ensures effect { IsTrue (N.model line.old).observable
        → EndsUnread (W.history store.now).called (N.model line.old).transcript result
        (N.model line.new).transcript }
{
    match write_memory_reply(line, store, false) {
        Written::Failed => Ended::LineFailed,
        Written::Whole | Written::Memory => Ended::Memory,
    }
}
