//! The commands `session` and `serve`: the connections of the line, in turn.
ghost use Rattle.std.specs.Prelude.{◌-◌, true, false, Some};
ghost use Rattle.account_calls.specs.Known.{Knows};
ghost use Rattle.gateway.specs.World.{world_in, ServesOver, StaysLent};
ghost use Rattle.http_service.specs.Running.{LineServesAll, LineServesNext};
ghost use Rattle.gateway_cmd.specs.Run.{RunTraces};
ghost use Rattle.gateway_cmd.specs.Session.{NextCursor};

use gate_base::{Clock, Draws, Line};
use gateway::{Service, World, serve_connection};
use http_service::{Stopped, is_connection_limit_reached, one_less};
use std::alloc::Global;
use swift_calls::Swift;

/// Serves the connections of the line until there is none, or as many as `most` says were served. `known` is true of the store,
/// where that is observable.
pub fn session<N: Line<W>, W: Swift, C: Clock, D: Draws>(
    alloc: Global,
    service: &Service,
    most: Option<u64>,
    lent: &mut World<'_, N, W, C, D>,
) -> Stopped
    requires { Knows lent.old.known (W.history lent.old.store.now) }
    ensures stays { StaysLent lent.old lent.new }
    ensures line { LineServesAll most result (N.model lent.old.line.now)
        (N.model lent.new.line.now) }
    ensures serves { ServesOver service.now.settings (RunTraces service.now)
        (world_in N.model W.history C.model D.model lent.old)
        (world_in N.model W.history C.model D.model lent.new) }
{
    let mut left = most;
    'connections: loop {
        if is_connection_limit_reached(left) {
            return Stopped::Done;
        }
        match serve_another(alloc, service, lent) {
            Some(stopped) => return stopped,
            None => left = one_less(left),
        }
    }
}

/// Serves the next connection, if there is one. `None` says that it was served.
fn serve_another<N: Line<W>, W: Swift, C: Clock, D: Draws>(
    alloc: Global,
    service: &Service,
    lent: &mut World<'_, N, W, C, D>,
) -> Option<Stopped>
    requires { Knows lent.old.known (W.history lent.old.store.now) }
    ensures stays { StaysLent lent.old lent.new }
    ensures line { LineServesNext result (N.model lent.old.line.now) (N.model lent.new.line.now) }
    ensures serves { ServesOver service.now.settings (λ R. NextCursor service.now R result)
        (world_in N.model W.history C.model D.model lent.old)
        (world_in N.model W.history C.model D.model lent.new) }
{
    match lent.line.next() {
        Ok(true) => {
            let _ended = serve_connection(alloc, service, lent);
            None
        }
        Ok(false) => Some(Stopped::Done),
        Err(_) => Some(Stopped::Line),
    }
}
