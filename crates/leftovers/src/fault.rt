//! Why what stands on an account could not be gone through, with the file at fault.
ghost use Rattle.std.specs.Prelude.{◌≡◌};
ghost use Rattle.leftovers.specs.Faults.{IsFaultAt};

use account_calls::PlanFault;
use gate_base::{Bytes, Memory};
use std::alloc::Global;

/// Why an account could not be swept or surveyed.
#[derive(Debug, Drop)]
pub enum SweepFault {
    /// The last call of the store failed: its count of faults rose.
    Failed,
    /// Memory ran out.
    Memory,
    /// The store answered what it doesn't answer over a consistent account, of this container and the object of this name in it. The
    /// name is empty where it is the container's own, and that of the container too where the listing of the account was at fault.
    Inconsistent { container: Bytes, name: Bytes },
}

impl From<Memory> for SweepFault {
    ghost use Rattle.leftovers.specs.declared.fault.SweepFault.{SweepFault};

    ghost from_gives = { λ _ fault. fault ≡ SweepFault.Memory };

    fn from(_: Memory) -> SweepFault {
        SweepFault::Memory
    }
}

/// A fault over a file of this container, which it names where the store was inconsistent; the name is empty where it is the
/// container's own. Where there is no memory to name it the fault is Memory.
pub fn file_fault(alloc: Global, fault: PlanFault, container: &[u8], name: &[u8]) -> SweepFault
    ensures { IsFaultAt container.now name.now fault result }
{
    match fault {
        PlanFault::Failed => SweepFault::Failed,
        PlanFault::Memory => SweepFault::Memory,
        PlanFault::Inconsistent => {
            match (
                Bytes::from_slice(alloc, container),
                Bytes::from_slice(alloc, name),
            ) {
                (Ok(container), Ok(name)) => SweepFault::Inconsistent { container, name },
                _ => SweepFault::Memory,
            }
        }
    }
}
