//! The commands `sweep` and `check`: what is left over on the account is removed, and what stands on it is counted.
ghost use Rattle.std.specs.Prelude.{◌≡◌, true, Result as result_of};
ghost use Rattle.account_calls.specs.Calls.{GoesOn};
ghost use Rattle.sweep.specs.Swept.{SweepsBefore};
ghost use Rattle.leftovers.specs.declared.fault.SweepFault.{SweepFault as why};
ghost use Rattle.sweep.specs.declared.account.Swept.{Swept as counts};
ghost use Rattle.gateway_cmd.specs.Facts.{Fits, ends_by_store};
ghost use Rattle.gateway_cmd.specs.Report.{swept_outcome, unswept};
ghost use Rattle.gateway_cmd.specs.Sweeps.{Surveys, Sweeps};
ghost use Rattle.gateway_cmd.specs.Tasks.{Task, to_check, to_sweep};

use crate::recover::{settle_for_command, unsettled_outcome};
use crate::status::{RunOutcome, Status, Told};
use leftovers::SweepFault;
use std::alloc::Global;
use sweep::{survey, sweep_before};
use swift_calls::Swift;

/// Settles the store; then removes what is left over on its account, gives each kept completion its moment, and forgets those from
/// before `before`. A fault ends it: what was removed stays removed.
pub fn sweep_account<W: Swift>(alloc: Global, before: u64, store: &mut W) -> RunOutcome
    ensures fits { Fits (to_sweep before) result }
    ensures on { GoesOn (W.history store.old) (W.history store.new) }
    ensures sweeps { Sweeps before result (W.history store.old) (W.history store.new) }
{
    match settle_for_command(alloc, store) {
        Ok(()) => sweep_settled_account(alloc, before, store),
        Err(fault) => unsettled_outcome(fault),
    }
}

fn sweep_settled_account<W: Swift>(alloc: Global, before: u64, store: &mut W) -> RunOutcome
    ensures fits { Fits (to_sweep before) result }
    ensures sweeps { (swept : result_of counts why)
        × SweepsBefore before (W.history store.old) (W.history store.new) swept
        × (result ≡ swept_outcome swept) }
{
    match sweep_before(alloc, store, before) {
        Ok(swept) => RunOutcome::Told(Told::Sweep(swept)),
        Err(fault) => unswept_outcome(fault),
    }
}

/// Counts what stands on the account, a completion that is sealed not laid over, by calls that write nothing.
pub fn check_account<W: Swift>(alloc: Global, store: &mut W) -> RunOutcome
    ensures fits { Fits to_check result }
    ensures on { GoesOn (W.history store.old) (W.history store.new) }
    ensures surveys { Surveys result (W.history store.old) (W.history store.new) }
{
    match survey(alloc, store) {
        Ok(surveyed) => RunOutcome::Told(Told::Survey(surveyed)),
        Err(fault) => unswept_outcome(fault),
    }
}

/// How a run ends whose account could not be swept or surveyed.
fn unswept_outcome(fault: SweepFault) -> RunOutcome
    ensures is { result ≡ unswept fault }
    ensures fits { (task : Task) → ends_by_store task ≡ true → Fits task result }
{
    match fault {
        SweepFault::Failed => RunOutcome::Plain(Status::Store),
        SweepFault::Memory => RunOutcome::Plain(Status::Memory),
        SweepFault::Inconsistent { container, name } => {
            RunOutcome::Inconsistent { container, name }
        }
    }
}
