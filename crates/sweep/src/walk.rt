//! The sweep of the containers of an account, one after another.
ghost use Rattle.std.specs.Prelude.{◌≡◌, ◌<◌, ◌+◌, ◌^◌, IfOk};
ghost use Rattle.swift_calls.specs.History.{present};
ghost use Rattle.account_calls.specs.Calls.{by_account, Asks};
ghost use Rattle.account_calls.specs.Listing.{HasNames};
ghost use Rattle.sweep.specs.Containers.{SparesOthers};
ghost use Rattle.leftovers.specs.Faults.{as_plan};
ghost use Rattle.sweep.specs.Walk.{added, count_removed, names_calls, CountsNoRecords, IsTableOf, SweepsNames};

use crate::account::Swept;
use crate::containers::sweep_name;
use gate_base::{Bytes, Memory};
use leftovers::SweepFault;
use name_table::Table;
use std::alloc::Global;
use swift_calls::Swift;

/// What went from some containers and from one more.
fn add(swept: Swept, one: Swept) -> Swept
    requires { count_removed swept + count_removed one < 2 ^ 64 }
    ensures { result ≡ added swept one }
{
    Swept {
        segments: swept.segments + one.segments,
        records: swept.records + one.records,
        containers: swept.containers + one.containers,
        migrated: swept.migrated,
        forgotten: swept.forgotten,
    }
}

/// The names, to be looked up.
fn table_of(alloc: Global, names: &[Bytes]) -> Result<Table<bool>, Memory>
    ensures { IfOk result (λ table. IsTableOf table names.now) }
{
    let mut table = Table::new(alloc);
    for name in names {
        table.put(name.as_slice(), true)?;
    }
    Ok(table)
}

/// Sweeps the containers of these names, of which it has a table.
fn sweep_listed<W: Swift>(
    alloc: Global,
    store: &mut W,
    listed: &Table<bool>,
    names: &[Bytes],
) -> Result<Swept, SweepFault>
    requires { IsTableOf listed.now names.now }
    ensures leaves { IfOk result CountsNoRecords }
    ensures asks { Asks (by_account (names_calls (present (W.history store.old)) names.now))
        (W.history store.old) (W.history store.new) (HasNames names.now) SweepsNames (as_plan result) }
    ensures spares { SparesOthers (W.history store.old) (W.history store.new) }
{
    let mut swept = Swept {
        segments: 0,
        records: 0,
        containers: 0,
        migrated: 0,
        forgotten: 0,
    };
    for name in names {
        let one = sweep_name(alloc, store, listed, name)?;
        swept = add(swept, one);
    }
    Ok(swept)
}

/// Sweeps the containers of these names, which are all that the account has, in their order: what is left over is removed and
/// counted, and the S3 state stays. At most the calls that each of them takes, where the store is observable and its account
/// consistent and settled. Failed comes only where the store's count of faults rose; Memory where memory ran out; Inconsistent,
/// of the file at fault, never over an observable consistent account of which this is so. After a fault what was removed
/// stays removed.
pub(crate) fn sweep_names<W: Swift>(
    alloc: Global,
    store: &mut W,
    names: &[Bytes],
) -> Result<Swept, SweepFault>
    ensures leaves { IfOk result CountsNoRecords }
    ensures asks { Asks (by_account (names_calls (present (W.history store.old)) names.now))
        (W.history store.old) (W.history store.new) (HasNames names.now) SweepsNames (as_plan result) }
    ensures spares { SparesOthers (W.history store.old) (W.history store.new) }
{
    match table_of(alloc, names) {
        Ok(listed) => sweep_listed(alloc, store, &listed, names),
        Err(_) => Err(SweepFault::Memory),
    }
}
