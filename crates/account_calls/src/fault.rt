ghost use Rattle.std.specs.Prelude.{◌≡◌};
ghost use Rattle.account_calls.specs.Fault.{mark_fault, of_page, of_roll, plan_fault};
ghost use Rattle.account_calls.specs.declared.fault.PlanFault.TheVariants as plan;

use gate_base::Memory;
use list_pages::{PageFault, RollFault};
use swift_calls::SwiftFault;
use swift_marks::MarkFault;

/// Why a plan ended before its reply was the machine's.
#[derive(Clone, Copy, Debug, PartialEq, Eq)]
pub enum PlanFault {
    /// The last call of the store failed: its count of faults rose.
    Failed,
    /// Memory ran out.
    Memory,
    /// The store answered what Object Storage API v1 doesn't let it answer over a consistent account.
    Inconsistent,
}

impl From<SwiftFault> for PlanFault {
    ghost from_gives = { λ fault e. e ≡ plan_fault fault };

    fn from(fault: SwiftFault) -> PlanFault {
        match fault {
            SwiftFault::Failed => PlanFault::Failed,
            SwiftFault::Memory => PlanFault::Memory,
        }
    }
}

impl From<Memory> for PlanFault {
    ghost from_gives = { λ _ e. e ≡ plan.Memory };

    fn from(_: Memory) -> PlanFault {
        PlanFault::Memory
    }
}

impl From<MarkFault> for PlanFault {
    ghost from_gives = { λ fault e. e ≡ mark_fault fault };

    fn from(fault: MarkFault) -> PlanFault {
        match fault {
            MarkFault::NoTag | MarkFault::BadPack => PlanFault::Inconsistent,
            MarkFault::Memory => PlanFault::Memory,
        }
    }
}

impl From<PageFault> for PlanFault {
    ghost from_gives = { λ fault e. e ≡ of_page fault };

    fn from(fault: PageFault) -> PlanFault {
        match fault {
            PageFault::Failed => PlanFault::Failed,
            PageFault::Memory => PlanFault::Memory,
            PageFault::Inconsistent { .. } => PlanFault::Inconsistent,
        }
    }
}

impl From<RollFault> for PlanFault {
    ghost from_gives = { λ fault e. e ≡ of_roll fault };

    fn from(fault: RollFault) -> PlanFault {
        match fault {
            RollFault::NoTag => PlanFault::Inconsistent,
            RollFault::Memory => PlanFault::Memory,
        }
    }
}
