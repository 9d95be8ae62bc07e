//! Why a file isn't read or written.
ghost use Rattle.std.specs.Prelude.{◌≡◌};
ghost use Rattle.body_files.specs.declared.fault.BodyFault.TheVariants as fault;

use gate_base::Memory;
use std::alloc::AllocError;
use std::io;

/// Why a body, or what else stands beside the tables, isn't read or written.
#[derive(Clone, Copy, Debug, PartialEq, Eq)]
pub enum BodyFault {
    Memory,
    /// The system refused a call.
    Refused,
    /// A file has other bytes than were written into it.
    Damaged,
}

impl From<Memory> for BodyFault {
    ghost from_gives = { λ _ e. e ≡ fault.Memory };

    fn from(_: Memory) -> BodyFault {
        BodyFault::Memory
    }
}

impl From<AllocError> for BodyFault {
    ghost from_gives = { λ _ e. e ≡ fault.Memory };

    fn from(_: AllocError) -> BodyFault {
        BodyFault::Memory
    }
}

/// The fault of a call of the system.
pub(crate) fn fault_of_call(error: io::Error) -> BodyFault {
    match error.kind() {
        io::ErrorKind::OutOfMemory => BodyFault::Memory,
        io::ErrorKind::UnexpectedEof => BodyFault::Damaged,
        _ => BodyFault::Refused,
    }
}
