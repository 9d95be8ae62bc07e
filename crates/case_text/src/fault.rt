use gate_base::Memory;
use std::alloc::{AllocError, AllocFailed};

/// Why a case can't be tried.
#[derive(Clone, Copy, Debug, PartialEq, Eq)]
pub enum Fault {
    /// No memory was left.
    Memory,

    /// A line isn't of the notation, or doesn't make what it is to make, for this reason.
    Unread(&'static str),
}

impl From<Memory> for Fault {
    fn from(_: Memory) -> Fault {
        Fault::Memory
    }
}

impl From<AllocError> for Fault {
    fn from(_: AllocError) -> Fault {
        Fault::Memory
    }
}

impl<T: Drop> From<AllocFailed<T>> for Fault {
    fn from(_: AllocFailed<T>) -> Fault {
        Fault::Memory
    }
}
