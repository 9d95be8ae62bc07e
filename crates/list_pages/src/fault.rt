ghost use Rattle.std.specs.Prelude.{◌≡◌};
ghost use Rattle.list_pages.specs.Fault.{page_fault, roll_fault};
ghost use Rattle.list_pages.specs.declared.fault.PageFault.TheVariants as page;
ghost use Rattle.list_pages.specs.declared.fault.RollFault.TheVariants as roll;

use gate_base::{Bytes, Memory};
use swift_calls::SwiftFault;
use swift_marks::MarkFault;

/// Why a page of names wasn't had.
#[derive(Debug, Drop)]
pub enum PageFault {
    /// The call of the store failed: its count of faults rose.
    Failed,
    /// Memory ran out.
    Memory,
    /// The store answered what Object Storage API v1 doesn't let it answer: to a listing of this container, and in it the
    /// first name that shows it. The name is empty where the answer was no listing.
    Inconsistent { container: Bytes, name: Bytes },
}

impl From<SwiftFault> for PageFault {
    ghost from_gives = { λ fault e. e ≡ page_fault fault };

    fn from(fault: SwiftFault) -> PageFault {
        match fault {
            SwiftFault::Failed => PageFault::Failed,
            SwiftFault::Memory => PageFault::Memory,
        }
    }
}

impl From<Memory> for PageFault {
    ghost from_gives = { λ _ e. e ≡ page.Memory };

    fn from(_: Memory) -> PageFault {
        PageFault::Memory
    }
}

/// Why a name couldn't be rolled up.
#[derive(Clone, Copy, Debug, PartialEq, Eq)]
pub enum RollFault {
    /// Its object is to be shown, and has no tag.
    NoTag,
    /// Memory ran out.
    Memory,
}

impl From<Memory> for RollFault {
    ghost from_gives = { λ _ e. e ≡ roll.Memory };

    fn from(_: Memory) -> RollFault {
        RollFault::Memory
    }
}

impl From<MarkFault> for RollFault {
    ghost from_gives = { λ fault e. e ≡ roll_fault fault };

    fn from(fault: MarkFault) -> RollFault {
        match fault {
            MarkFault::NoTag | MarkFault::BadPack => RollFault::NoTag,
            MarkFault::Memory => RollFault::Memory,
        }
    }
}
