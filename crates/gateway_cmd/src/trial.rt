//! The command `trial`: requests that a number determines are answered over the store, as one connection.
ghost use Rattle.std.specs.Prelude.{◌≡◌, ◌≢◌, ◌≤◌, ℕ, List};
ghost use Rattle.account_calls.specs.Calls.{GoesOn};
ghost use Rattle.gateway_cmd.specs.Facts.{Fits};
ghost use Rattle.gateway_cmd.specs.Report.{tried};
ghost use Rattle.gateway_cmd.specs.Session.{RunTries};
ghost use Rattle.gateway_cmd.specs.Tasks.{to_try};
ghost use Rattle.gateway_cmd.specs.declared.status.RunOutcome.TheVariants as ends;
ghost use Rattle.gateway_cmd.specs.declared.status.Status.TheVariants as status;

use crate::status::{RunOutcome, Status, Told};
use gateway::Ended;
use std::alloc::Global;
use swift_calls::Swift;
use trial_cmd::serve_trial;

/// Tries the store by so many requests of a number.
pub fn try_store<W: Swift>(alloc: Global, number: u64, requests: u64, store: &mut W) -> RunOutcome
    requires { requests ≤ 100000 }
    ensures fits { Fits (to_try number requests) result }
    ensures taken { result ≢ ends.Plain status.Usage }
    ensures on { GoesOn (W.history store.old) (W.history store.new) }
    ensures tries { (keys : List ℕ)
        → RunTries number requests keys result (W.history store.old) (W.history store.new) }
{
    match serve_trial(alloc, number, requests, store) {
        Ok(trial) => tried(requests, trial.size, trial.hash, trial.ended),
        Err(_) => RunOutcome::Plain(Status::Memory),
    }
}

/// How a run ends that tried the store, by how its connection did: its own line fails by want of memory alone.
fn tried(requests: u64, size: u64, hash: [u8; 32], ended: Ended) -> RunOutcome
    ensures value { result ≡ tried requests size hash ended }
    ensures fits { (number : ℕ) → Fits (to_try number requests) result }
    ensures taken { result ≢ ends.Plain status.Usage }
{
    match ended {
        Ended::End | Ended::Closed | Ended::CutShort(_) | Ended::Refused { .. } => {
            RunOutcome::Told(Told::Trial {
                requests,
                size,
                hash,
            })
        }
        Ended::LineFailed | Ended::Memory => RunOutcome::Plain(Status::Memory),
        Ended::StoreFailed => RunOutcome::Plain(Status::Store),
        Ended::Inconsistent { container, name } => RunOutcome::Inconsistent { container, name },
    }
}
