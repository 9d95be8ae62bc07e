//! One connection.
ghost use Rattle.std.specs.Prelude.{◌≡◌, ◌<◌, ◌++◌, false, List, IsTrue, None};
ghost use Rattle.gate_base.specs.Line.{LineServes, OnlyWrites};
ghost use Rattle.http_wire.specs.Reading.{weight};
ghost use Rattle.http_service.specs.Trace.{ConnectionTrace, is_failed_end, is_failed_step, progress};
ghost use Rattle.http_service.specs.Answering.{EndsUnread, NextOne, cursor_of, start_of};

use crate::{Ended, Received, Service};
use gate_base::{Counted, Line};
use http_wire::{Got, ReadFault, Reader};
use std::alloc::Global;

/// Serves one open connection to its end: its requests, with bodies within the service's limit, are answered in order (RFC 9112,
/// section 9.3). After the first that ends
/// the connection, and where the line fails or memory runs out while a request is read, no more is read of it. Before a body
/// whose head expects it, `HTTP/1.1 100 Continue` is sent (RFC 9110, section 10.1.1). `LineFailed` comes only where the line's
/// count of faults rose, and `Memory` only where memory ran out, which is then answered.
pub fn serve_connection<C: Counted, N: Line<C>, S: Service<C, N>>(
    alloc: Global,
    service: &mut S,
    line: &mut N,
) -> Ended
    requires { IsTrue (N.model line.old).is_open }
    ensures line { LineServes (is_failed_end result) (N.model line.old) (N.model line.new) }
    ensures goes { S.GoesOn service.old service.new }

    // Where the line is observable, it is one connection.
    ensures serves { (view : S.View) → S.Given view service.old
        → IsTrue (N.model line.old).observable → (notes : List S.Note)
        × ConnectionTrace S.number S.limit S.memory (S.Answers view service.new)
        (N.model line.old).transcript.begun result
        (start_of (N.model line.old).transcript (S.state service.old)) notes
        (progress (S.state service.new) (N.model line.new).transcript.sent) }
{
    let mut reader = match Reader::new(alloc) {
        Ok(reader) => reader,
        Err(_) => return end_unread(service, line),
    };
    'requests: loop {
        match serve_next(service, &mut reader, line) {
            Some(ended) => return ended,
            None => {}
        }
    }
}

/// Reads the next request, for whose body the reader sends the interim line where it is owed, and has it answered. `None`
/// says that the connection goes on.
fn serve_next<C: Counted, N: Line<C>, S: Service<C, N>>(
    service: &mut S,
    reader: &mut Reader,
    line: &mut N,
) -> Option<Ended>
    requires open { IsTrue (N.model line.old).is_open }
    requires goes { reader.old.ended ≡ false }
    ensures goes { result ≡ None → reader.new.ended ≡ false }
    ensures falls { result ≡ None
        → weight (N.model line.new).spent reader.new.bytes < weight (N.model line.old).spent
        reader.old.bytes }
    ensures line { LineServes (is_failed_step result) (N.model line.old) (N.model line.new) }
    ensures goes_on { S.GoesOn service.old service.new }
    ensures serves { (view : S.View) → S.Given view service.old → IsTrue (N.model line.old).observable
        → NextOne S.number S.limit S.memory (S.Answers view service.new) (N.model line.old).transcript.begun
        (cursor_of reader.old (N.model line.old).transcript (S.state service.old)) result
        (cursor_of reader.new (N.model line.new).transcript (S.state service.new)) }
{
    match reader.next_request(service.body_limit(), line, service.counter()) {
        Ok(Got::Request(message)) => service.answer(line, Received::Message(message)),
        Ok(Got::Refused { kind, place, head }) => {
            service.answer(line, Received::Refused { kind, place, head })
        }
        Ok(Got::End) => Some(Ended::End),
        Ok(Got::CutShort(place)) => Some(Ended::CutShort(place)),
        Err(ReadFault::Failed) => Some(Ended::LineFailed),
        Err(ReadFault::Memory) => Some(end_unread(service, line)),
    }
}

/// Ends a connection whose next request could not be read because memory ran out: the answer for that is written.
fn end_unread<C: Counted, N: Line<C>, S: Service<C, N>>(service: &S, line: &mut N) -> Ended
    requires { IsTrue (N.model line.old).is_open }
    ensures writes { OnlyWrites (is_failed_end result) (N.model line.old) (N.model line.new) }
    ensures effect { IsTrue (N.model line.old).observable
        → EndsUnread (S.number (S.state service.now)) S.memory (N.model line.old).transcript result
        (N.model line.new).transcript }
{
    match line.write(service.counter(), service.out_of_memory()) {
        Ok(()) => Ended::Memory,
        Err(_) => Ended::LineFailed,
    }
}
