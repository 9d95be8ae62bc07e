use gate_base::Memory;
use std::alloc::AllocError;

/// Why a message or an answer isn't read.
#[derive(Clone, Copy, Debug)]
pub enum WireFault {
    /// The message is no call of Object Storage API v1 at the place.
    NotACall,

    /// The bytes are no answer to the call.
    NotAnAnswer,

    /// Memory ran out.
    Memory,
}

impl From<Memory> for WireFault {
    ghost use Rattle.std.specs.Prelude.{◌≡◌};
    ghost use Rattle.swift_replies.specs.declared.fault.WireFault.TheVariants.{Memory as memory_ran_out};

    ghost from_gives = { λ _ fault. fault ≡ memory_ran_out };

    fn from(_: Memory) -> WireFault {
        WireFault::Memory
    }
}

impl From<AllocError> for WireFault {
    ghost use Rattle.std.specs.Prelude.{◌≡◌};
    ghost use Rattle.swift_replies.specs.declared.fault.WireFault.TheVariants.{Memory as memory_ran_out};

    ghost from_gives = { λ _ fault. fault ≡ memory_ran_out };

    fn from(_: AllocError) -> WireFault {
        WireFault::Memory
    }
}
