//! `Unsure`, a store on which a completion may be sealed, and how it is settled.
ghost use Rattle.std.specs.Prelude.{◌≡◌};
ghost use Rattle.recovery.specs.Settling.{IsNamedFault, Settles};

use crate::settling::settle_unsure_store;
use account_calls::PlanFault;
use gate_base::Bytes;
use s3_machine::Settings;
use std::alloc::Global;
use swift_calls::Swift;
use upload_records::{gateway_container, sealed_name};

/// A store of which it isn't known whether a completion is sealed on it. It has no call that answers an operation.
#[derive(Drop)]
pub struct Unsure<'a, W: Swift> {
    alloc: Global,
    store: &'a mut W,
    settings: &'a Settings,
}

/// Why a store could not be settled.
#[derive(Debug, Drop)]
pub enum SettleFault {
    /// The last call of the store failed: its count of faults rose.
    Failed,
    /// Memory ran out.
    Memory,
    /// The store answered what it doesn't answer over a consistent account, of this container and the object of this name in
    /// it. The name is empty where it is the container's own. Where there is no memory to name them the fault is Memory.
    Inconsistent { container: Bytes, name: Bytes },
}

impl<'a, W: Swift> Unsure<'a, W> {
    /// A store as it is found when a run begins. It takes no memory; settling may take some, to name what can't be read.
    pub fn open(alloc: Global, store: &'a mut W, settings: &'a Settings) -> Unsure<'a, W>
        ensures same { result.store.ghost_name ≡ store.entry.ghost_name }
        ensures store { result.store.now ≡ store.old }
        ensures settings { result.settings.now ≡ settings.now }
    {
        Unsure {
            alloc,
            store,
            settings,
        }
    }

    /// Settles the store, so that it can be held as `Settled`: the gateway's own container is made, what is sealed there is
    /// looked for, and a completion that is found is finished. That is two calls, or five and one for each sub-manifest. The S3
    /// state stays. Failed comes only where the store's count of faults rose; Memory where memory ran out; Inconsistent, of the file of what is sealed,
    /// never over an observable consistent account. After Ok no completion is sealed and the container is there, over every
    /// observable store; after a fault a completion may be sealed. There too, consistent or not, the files of one that was sealed stand
    /// after Ok, and after a fault they do, or what was sealed is as it was.
    pub fn settle(&mut self) -> Result<(), SettleFault>
        ensures same { self.new.store.ghost_name ≡ self.old.store.ghost_name }
        ensures settings { self.new.settings.now ≡ self.old.settings.now }
        ensures settles { Settles (W.history self.old.store.now) (W.history self.new.store.now)
            result }
    {
        match settle_unsure_store(self.alloc, self.store) {
            Ok(()) => Ok(()),
            Err(fault) => Err(settle_fault(self.alloc, fault)),
        }
    }

    /// The store.
    pub fn store(&self) -> &W
        ensures { result.now ≡ self.now.store.now }
    {
        self.store
    }

    /// The settings of the run.
    pub fn settings(&self) -> &Settings
        ensures { result.now ≡ self.now.settings.now }
    {
        self.settings
    }
}

/// The fault of settling, which names what is sealed.
fn settle_fault(alloc: Global, fault: PlanFault) -> SettleFault
    ensures { IsNamedFault fault result }
{
    match fault {
        PlanFault::Failed => SettleFault::Failed,
        PlanFault::Memory => SettleFault::Memory,
        PlanFault::Inconsistent => match (gateway_container(alloc), sealed_name(alloc)) {
            (Ok(container), Ok(name)) => SettleFault::Inconsistent { container, name },
            _ => SettleFault::Memory,
        },
    }
}
