//! Why a request's body isn't read.
use gate_base::Memory;

/// Why a request's body isn't read.
#[derive(Clone, Copy, Debug, PartialEq, Eq, Drop)]
pub enum BodyFault {
    /// It isn't of the form. So many of its first bytes, and no more, are the beginning of a body that is.
    NotTheBody(u64),
    /// It is of the form and lists more than the limit.
    TooMany,
    /// Memory ran out.
    Memory,
}

impl From<Memory> for BodyFault {
    ghost use Rattle.std.specs.Prelude.{◌≡◌};
    ghost use Rattle.s3_bodies.specs.declared.fault.BodyFault.{BodyFault};

    ghost from_gives = { λ _ fault. fault ≡ BodyFault.Memory };

    fn from(_: Memory) -> BodyFault {
        BodyFault::Memory
    }
}
