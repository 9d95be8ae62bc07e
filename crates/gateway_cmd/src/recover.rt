//! The command `recover`: a completion that is sealed on the store is taken to its end.
ghost use Rattle.std.specs.Prelude.{◌≡◌, true, Result as result_of, Err};
ghost use Rattle.account_calls.specs.Calls.{GoesOn};
ghost use Rattle.recovery.specs.declared.state.SettleFault.{SettleFault as why};
ghost use Rattle.recovery.specs.Settling.{Settles};
ghost use Rattle.gateway_cmd.specs.Facts.{Fits, ends_by_store};
ghost use Rattle.gateway_cmd.specs.Report.{recovered};
ghost use Rattle.gateway_cmd.specs.Tasks.{Task, to_recover};

use crate::status::{RunOutcome, Status, Told};
use gate_base::Bytes;
use recovery::{SettleFault, Unsure};
use s3_machine::Settings;
use std::alloc::Global;
use swift_calls::Swift;

/// Settles the store.
pub fn recover<W: Swift>(alloc: Global, store: &mut W) -> RunOutcome
    ensures fits { Fits to_recover result }
    ensures on { GoesOn (W.history store.old) (W.history store.new) }
    ensures settles { (settled : result_of (Unit {0}) why)
        × Settles (W.history store.old) (W.history store.new) settled
        × (result ≡ recovered settled) }
{
    match settle_for_command(alloc, store) {
        Ok(()) => RunOutcome::Told(Told::Settled),
        Err(fault) => unsettled_outcome(fault),
    }
}

/// How a run ends whose store could not be settled.
pub fn unsettled_outcome(fault: SettleFault) -> RunOutcome
    ensures is { result ≡ recovered (Err fault) }
    ensures fits { (task : Task) → ends_by_store task ≡ true → Fits task result }
{
    match fault {
        SettleFault::Failed => RunOutcome::Plain(Status::Store),
        SettleFault::Memory => RunOutcome::Plain(Status::Memory),
        SettleFault::Inconsistent { container, name } => {
            RunOutcome::Inconsistent { container, name }
        }
    }
}

/// Settles the store, by settings of no region and no sizes: settling uses none of them.
pub fn settle_for_command<W: Swift>(alloc: Global, store: &mut W) -> Result<(), SettleFault>
    ensures { Settles (W.history store.old) (W.history store.new) result }
{
    let settings = Settings::strict(Bytes::new(alloc), 0, 0);
    Unsure::open(alloc, store, &settings).settle()
}
