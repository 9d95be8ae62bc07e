ghost use Rattle.std.specs.Prelude.{◌≡◌};
ghost use Rattle.swift_store.specs.declared.faults.StoreFault.TheVariants as fault;

use gate_base::{Failed, Memory};
use std::alloc::{AllocError, AllocFailed};

/// Why a shelf or a store did not answer.
#[derive(Clone, Copy, Debug, PartialEq, Eq)]
pub enum StoreFault {
    /// What keeps the account failed, and its count of faults rose.
    Failed,
    /// Memory ran out. Nothing changed.
    Memory,
}

impl From<Failed> for StoreFault {
    ghost from_gives = { λ _ e. e ≡ fault.Failed };

    fn from(_: Failed) -> StoreFault {
        StoreFault::Failed
    }
}

impl From<Memory> for StoreFault {
    ghost from_gives = { λ _ e. e ≡ fault.Memory };

    fn from(_: Memory) -> StoreFault {
        StoreFault::Memory
    }
}

impl From<AllocError> for StoreFault {
    ghost from_gives = { λ _ e. e ≡ fault.Memory };

    fn from(_: AllocError) -> StoreFault {
        StoreFault::Memory
    }
}

impl<T: Drop> From<AllocFailed<T>> for StoreFault {
    ghost from_gives = { λ _ e. e ≡ fault.Memory };

    fn from(_: AllocFailed<T>) -> StoreFault {
        StoreFault::Memory
    }
}
