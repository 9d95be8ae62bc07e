//! The sweep of a container beside a bucket that is missing.
ghost use Rattle.std.specs.Prelude.{◌≡◌, ◌≢◌, ◌≤◌, ◌<◌, ◌+◌, ◌^◌, ℕ, List, true, IfOk, Err};
ghost use Rattle.swift_calls.specs.History.{budget, present};
ghost use Rattle.swift_calls.specs.Step.{IsContainerName};
ghost use Rattle.upload_records.specs.Consistent.{IsBeside};
ghost use Rattle.account_calls.specs.Calls.{always, by_account, Any, Asks};
ghost use Rattle.account_calls.specs.Listing.{TellsOf};
ghost use Rattle.account_calls.specs.Told.{LeavesThroughout};
ghost use Rattle.account_calls.specs.declared.fault.PlanFault.TheVariants as fault;
ghost use Rattle.leftovers.specs.Faults.{as_plan};
ghost use Rattle.leftovers.specs.Sweeping.{SparesThen};
ghost use Rattle.leftovers.specs.Strays.{clear_calls, removed_due, there_due, ClearsSide, IsBareStray, IsStray, LeavesNone, Removes, SaysThere, TellsThere};

use crate::fault::{SweepFault, file_fault};
use crate::files::sweep_files;
use crate::kept::Kept;
use account_calls::{PlanFault, ask, ask_newest};
use gate_base::{Bytes, Copying};
use std::alloc::Global;
use swift_calls::{Swift, SwiftReply, SwiftRequest};

/// Whether a container is there.
fn head_side<W: Swift>(store: &mut W, name: &Bytes) -> Result<bool, PlanFault>
    requires { IsContainerName name.now }
    ensures asks { Asks (always 1) (W.history store.old) (W.history store.new) Any
        (TellsOf (TellsThere name.now)) result }
    ensures says { SaysThere name.now (W.history store.old) result }
    ensures leaves { LeavesThroughout (W.history store.old) (W.history store.new) }
{
    let container = name.copy()?;
    let reply = ask_newest(store, SwiftRequest::HeadContainer { container })?;
    there_in_reply(&reply)
}

/// Whether a container is there, by HEAD of it (Object Storage API v1, "Show container metadata"). At most one call, and the account
/// stays as it is. Failed comes only where the store's count of faults rose; Memory where memory ran out; Inconsistent, of the container, never
/// over an observable consistent account.
pub fn is_there<W: Swift>(alloc: Global, store: &mut W, name: &Bytes) -> Result<bool, SweepFault>
    requires { IsContainerName name.now }
    ensures asks { Asks (always 1) (W.history store.old) (W.history store.new) Any
        (TellsOf (TellsThere name.now)) (as_plan result) }
    ensures says { SaysThere name.now (W.history store.old) result }
    ensures leaves { LeavesThroughout (W.history store.old) (W.history store.new) }
{
    match head_side(store, name) {
        Ok(told) => Ok(told),
        Err(fault) => Err(file_fault(alloc, fault, name.as_slice(), b"")),
    }
}

fn there_in_reply(reply: &SwiftReply) -> Result<bool, PlanFault>
    ensures due { result ≡ there_due reply.now }
    ensures own { result ≢ Err fault.Failed }
{
    match reply {
        SwiftReply::Readers { .. } => Ok(true),
        SwiftReply::NotFound => Ok(false),
        _ => Err(PlanFault::Inconsistent),
    }
}

/// Deletes a container beside a bucket that is missing, which has no file, by DELETE of it (Object Storage API v1, "Delete
/// container"). At most one call.
fn delete_side<W: Swift>(store: &mut W, folder: &Bytes) -> Result<(), PlanFault>
    requires { IsContainerName folder.now }
    ensures counted { IfOk result (λ _. (W.history store.old).called < budget
        × ((W.history store.new).called ≡ (W.history store.old).called + 1)) }
    ensures asks { (bucket : List ℕ) → IsBeside folder.now bucket
        → Asks (always 1) (W.history store.old) (W.history store.new)
        (IsBareStray folder.now bucket) (Removes folder.now) result }
    ensures gone { LeavesNone folder.now (W.history store.new) result }
    ensures spares { SparesThen folder.now (λ n. true) (W.history store.old) (W.history store.new) }
{
    let container = folder.copy()?;
    let reply = ask(store, SwiftRequest::DeleteContainer { container })?;
    removed_in_reply(&reply)
}

fn removed_in_reply(reply: &SwiftReply) -> Result<(), PlanFault>
    ensures due { result ≡ removed_due reply.now }
    ensures own { result ≢ Err fault.Failed }
{
    match reply {
        SwiftReply::Gone => Ok(()),
        _ => Err(PlanFault::Inconsistent),
    }
}

/// The same, with a fault that names the container.
fn remove_side<W: Swift>(alloc: Global, store: &mut W, folder: &Bytes) -> Result<(), SweepFault>
    requires { IsContainerName folder.now }
    ensures counted { IfOk result (λ _. (W.history store.old).called < budget
        × ((W.history store.new).called ≡ (W.history store.old).called + 1)) }
    ensures asks { (bucket : List ℕ) → IsBeside folder.now bucket
        → Asks (always 1) (W.history store.old) (W.history store.new)
        (IsBareStray folder.now bucket) (Removes folder.now) (as_plan result) }
    ensures gone { LeavesNone folder.now (W.history store.new) (as_plan result) }
    ensures spares { SparesThen folder.now (λ n. true) (W.history store.old) (W.history store.new) }
{
    match delete_side(store, folder) {
        Ok(()) => Ok(()),
        Err(fault) => Err(file_fault(alloc, fault, folder.as_slice(), b"")),
    }
}

/// Deletes a container beside a bucket that is missing with all its files, and counts them. At most as many calls as there are pages
/// and files, and one, where the store is observable and its account consistent; and the S3 state stays. Failed comes only where the
/// store's count of faults rose; Memory where memory ran out; Inconsistent never over an observable consistent account that is settled and
/// has the container, but not the bucket. After a fault what was deleted stays deleted.
pub fn sweep_stray<W: Swift>(
    alloc: Global,
    store: &mut W,
    folder: &Bytes,
) -> Result<u64, SweepFault>
    requires folder { IsContainerName folder.now }
    ensures counted { IfOk result (λ count. (W.history store.old).called + (count + 1) ≤ (W.history store.new).called) }
    ensures fits { IfOk result (λ count. (W.history store.old).called + (count + 1) < 2 ^ 64) }
    ensures asks { (bucket : List ℕ) → IsBeside folder.now bucket
        → Asks (by_account (clear_calls (present (W.history store.old)) folder.now))
        (W.history store.old) (W.history store.new) (IsStray folder.now bucket)
        (ClearsSide folder.now) (as_plan result) }
    ensures gone { LeavesNone folder.now (W.history store.new) (as_plan result) }
    ensures spares { SparesThen folder.now (λ n. true) (W.history store.old) (W.history store.new) }
{
    let kept = Kept::nothing(alloc);
    let count = sweep_files(alloc, store, folder, &kept)?;
    remove_side(alloc, store, folder)?;
    Ok(count)
}
