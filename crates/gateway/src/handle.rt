ghost use Rattle.std.specs.Prelude.{IsTrue};
ghost use Rattle.gate_base.specs.Line.{OnlyWrites};
ghost use Rattle.account_calls.specs.Known.{Knows};
ghost use Rattle.gateway.specs.Request.{asks_of, end_of};
ghost use Rattle.gateway.specs.Handled.{HandledOnce, EndsWith, NotFailedIfServed, is_failed_reply};
ghost use Rattle.gateway.specs.World.{world_in, progress_of, ServesOver, StaysLent};

use crate::label::{next_label, sent_by};
use crate::reply::reply_to;
use crate::resolve::resolve;
use crate::send::send_reading;
use crate::write::ReplyContext;
use crate::{Ended, Service, World};
use gate_base::{Clock, Draws, Line, drop};
use http_service::Received;
use std::alloc::Global;
use swift_calls::Swift;

/// What became of one request.
#[derive(Debug, Drop)]
pub enum Handled {
    /// It was answered in whole. Then the connection ends so, if it does.
    Served(Option<Ended>),
    /// The line failed under the reply.
    Broken,
    /// A read broke off, and the connection ends so.
    Parted(Ended),
}

/// Answers what was received: the clock is read once and two words are drawn, the request is resolved and its reply
/// found, and that is sent.
pub fn handle_request<N: Line<W>, W: Swift, C: Clock, D: Draws>(
    alloc: Global,
    service: &Service,
    lent: &mut World<'_, N, W, C, D>,
    mut received: Received,
) -> Handled
    requires open { IsTrue (N.model lent.old.line.now).is_open }
    requires knows { Knows lent.old.known (W.history lent.old.store.now) }
    ensures stays { StaysLent lent.old lent.new }
    ensures endings { EndsWith (end_of received) result }
    ensures served { NotFailedIfServed result }
    ensures writes { OnlyWrites (is_failed_reply result) (N.model lent.old.line.now)
        (N.model lent.new.line.now) }
    ensures serves { ServesOver service.now.settings (λ R old new. HandledOnce R
        old.line.transcript.begun (progress_of old) (progress_of new) (asks_of service.now received)
        result) (world_in N.model W.history C.model D.model lent.old)
        (world_in N.model W.history C.model D.model lent.new) }
{
    let next = next_label(lent.clock, lent.draws);
    let resolved = resolve(alloc, service, &mut received, next.moment);
    let context = ReplyContext {
        label: sent_by(resolved.caller, next),
        method: resolved.method,
        resource: resolved.resource,
    };
    let end = resolved.end;
    let reading = reply_to(
        alloc,
        lent.store,
        &mut lent.known,
        &service.settings,
        resolved.means,
        &context.label,
    );
    let handled = send_reading(alloc, lent, &service.settings, reading, &context, end);
    drop(received);
    handled
}
