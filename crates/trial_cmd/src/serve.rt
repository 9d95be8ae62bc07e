//! A trial: its requests, answered over a store as one connection.
ghost use Rattle.std.specs.Prelude.{◌≡◌, ◌≤◌, IsTrue};
ghost use Rattle.gate_base.specs.ListTold.{draws_of, moments_of, source_of};
ghost use Rattle.gate_base.specs.MemLine.{model_of};
ghost use Rattle.gateway.specs.World.{StaysLent};
ghost use Rattle.trial_cmd.specs.Served.{TrialDoes, TrialTalks};

use crate::given::{trial_line, trial_moments, trial_service};
use crate::pieces::{hash_of_pieces, size_of_pieces};
use account_calls::Known;
use gate_base::{List, ListClock, ListDraws, MemLine, Memory};
use gateway::{
    Ended, Service, World, law_failed_store_rose, law_found_consistent, serve_connection,
};
use std::alloc::Global;
use swift_calls::Swift;

/// How a trial ended, and the size and the SHA-256 of what was written. A size past the greatest stays there.
#[derive(Debug, Drop)]
pub struct Trial {
    pub ended: Ended,
    pub size: u64,
    pub hash: [u8; 32],
}

/// Makes so many requests of a number, at most 100,000, and answers them over a store: as one connection, by a clock that gives
/// a moment for each, and draws that count up from 1. Where memory ran out before the first nothing is done.
pub fn serve_trial<W: Swift>(
    alloc: Global,
    number: u64,
    requests: u64,
    store: &mut W,
) -> Result<Trial, Memory>
    requires { requests ≤ 100000 }
    ensures { TrialDoes number requests (W.history store.old) result (W.history store.new) }
{
    let service = trial_service(alloc)?;
    let clock = ListClock::new(trial_moments(alloc, requests)?);
    let draws = ListDraws::new(List::new(alloc));
    let line = trial_line(alloc, number, requests)?;
    Ok(serve_trial_line(alloc, &service, line, clock, draws, store))
}

fn serve_trial_line<W: Swift>(
    alloc: Global,
    service: &Service,
    line: MemLine,
    clock: ListClock,
    draws: ListDraws,
    store: &mut W,
) -> Trial
    requires { IsTrue (model_of line).is_open }
    ensures { TrialTalks service.now (model_of line) (source_of (moments_of clock))
        (source_of (draws_of draws)) (W.history store.old) result (W.history store.new) }
{
    let mut line = line;
    let mut clock = clock;
    let mut draws = draws;
    let mut lent = World::over(&mut line, store, &mut clock, &mut draws);
    serve_trial_lent(alloc, service, &mut lent)
}

/// Answers the requests of the line over what is lent, as the first that is done over the store.
fn serve_trial_lent<W: Swift>(
    alloc: Global,
    service: &Service,
    lent: &mut World<'_, MemLine, W, ListClock, ListDraws>,
) -> Trial
    requires { IsTrue (model_of lent.old.line.now).is_open }
    ensures stays { StaysLent lent.old lent.new }
    ensures talks { TrialTalks service.now (model_of lent.old.line.now)
        (source_of (moments_of lent.old.clock.now)) (source_of (draws_of lent.old.draws.now))
        (W.history lent.old.store.now) result (W.history lent.new.store.now) }
{
    lent.known = Known::Unsure;
    let ended = serve_connection(alloc, service, lent);
    law_failed_store_rose();
    law_found_consistent();
    Trial {
        ended,
        size: size_of_pieces(lent.line.pieces()),
        hash: hash_of_pieces(lent.line.pieces()),
    }
}
