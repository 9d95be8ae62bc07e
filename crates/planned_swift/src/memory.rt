//! A store in memory: what it keeps.
ghost use Rattle.std.specs.Prelude.{◌≡◌, IsTrue};
ghost use Rattle.planned_swift.specs.Accounts.{IsOrdered, IsSized};
ghost use Rattle.planned_swift.specs.Replay.{replayed, all_small};

use crate::Account;
use gate_base::List;
use std::alloc::Global;
use swift_calls::{Outcome, SwiftRequest};

/// A call that was made, and how it went.
#[derive(Drop)]
pub(crate) struct Entry {
    pub(crate) request: SwiftRequest,
    pub(crate) outcome: Outcome,
}

/// A store in memory. It keeps the account that it began with and the record of all calls. Calls are numbered
/// from 1.
#[derive(Drop)]
pub struct MemSwift {
    pub(crate) first: Account,
    pub(crate) present: Account,
    pub(crate) log: Vec<Entry>,
    pub(crate) before: List<u64>,
    pub(crate) after: List<u64>,
    pub(crate) stop: u64,
    pub(crate) alloc: Global,
    ghost replays: { present ≡ replayed first log.items },
    ghost ordered: { IsOrdered first },
    ghost sized: { IsSized first },
    ghost small: { IsTrue (all_small log.items) },
}
