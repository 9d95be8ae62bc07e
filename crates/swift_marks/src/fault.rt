ghost use Rattle.std.specs.Prelude.{◌≡◌};

use gate_base::Memory;

/// Why a mark of the store can't be read.
#[derive(Clone, Copy, Debug, PartialEq, Eq)]
pub enum MarkFault {
    /// The text is no tag.
    NoTag,
    /// The pieces are no pack.
    BadPack,
    /// Memory ran out.
    Memory,
}

impl From<Memory> for MarkFault {
    ghost use Rattle.swift_marks.specs.declared.fault.MarkFault.{MarkFault};

    ghost from_gives = { λ _ fault. fault ≡ MarkFault.Memory };

    fn from(_: Memory) -> MarkFault {
        MarkFault::Memory
    }
}
