//! The loop over the files of a container beside a bucket, of which those go that nothing keeps.
ghost use Rattle.std.specs.Prelude.{◌≡◌, ◌<◌, ◌≤◌, ◌+◌, ◌^◌, ℕ, List, Bool, [], ◌∷◌, length, map, true, IfErr, IfOk, IfSome};
ghost use Rattle.std.specs.List.{filter, list_all};
ghost use Rattle.s3_names.specs.Key.{is_key};
ghost use Rattle.list_pages.specs.Listing.{name_in, IsPageOf};
ghost use Rattle.swift_calls.specs.History.{budget, present};
ghost use Rattle.swift_calls.specs.Step.{IsContainerName};
ghost use Rattle.swift_calls.specs.Limits.{IsMarker};
ghost use Rattle.account_calls.specs.Calls.{always, by_account, Any, Asks};
ghost use Rattle.account_calls.specs.FilePages.{TellsFiles};
ghost use Rattle.account_calls.specs.Listing.{TellsOf};
ghost use Rattle.account_calls.specs.Told.{LeavesThroughout};
ghost use Rattle.leftovers.specs.Faults.{as_plan, NamesFile};
ghost use Rattle.leftovers.specs.Kept.{goes};
ghost use Rattle.leftovers.specs.Lists.{SaysFiles};
ghost use Rattle.leftovers.specs.Sweeping.{sweep_calls, MayDelete, MaySweep, PaysPage, SparesThen, TellsAll, TellsDeleted, TellsPage, TellsSwept};

use crate::fault::{SweepFault, file_fault};
use crate::kept::Kept;
use account_calls::{PlanFault, ask, interpret_file_delete, next_marker};
use gate_base::{Bytes, Copying, List};
use list_pages::names;
use std::alloc::Global;
use swift_calls::{NameItem, Swift, SwiftRequest};

/// A page of the files of a container after a marker.
#[tactic(auto, using(crate::proofs::Markers::empty_is_marker))]
fn listed_page<W: Swift>(
    alloc: Global,
    store: &mut W,
    folder: &[u8],
    marker: &[u8],
) -> Result<List<NameItem>, PlanFault>
    requires folder { IsContainerName folder.now }
    requires marker { IsMarker marker.now }
    ensures counted { IfOk result (λ _. (W.history store.old).called < budget
        × ((W.history store.new).called ≡ (W.history store.old).called + 1)) }
    ensures page { IfOk result (λ items. IsPageOf [] marker.now (map name_in items)) }
    ensures asks { Asks (always 1) (W.history store.old) (W.history store.new) Any
        (TellsOf (TellsFiles folder.now [] marker.now)) result }
    ensures says { SaysFiles folder.now marker.now (W.history store.old) result }
    ensures leaves { LeavesThroughout (W.history store.old) (W.history store.new) }
{
    Ok(names(alloc, store, folder, b"", marker)?)
}

/// A page of the files of a container after a marker, by GET of the container (Object Storage API v1, "Show container details and
/// list objects"): at most 1000 of them, in byte order of the names, and none of a container that is missing. At most one call, and the
/// account stays as it is. Failed comes only where the store's count of faults rose; Memory where memory ran out; Inconsistent, of
/// the container, never over an observable consistent account.
pub fn file_page<W: Swift>(
    alloc: Global,
    store: &mut W,
    folder: &[u8],
    marker: &[u8],
) -> Result<List<NameItem>, SweepFault>
    requires folder { IsContainerName folder.now }
    requires marker { IsMarker marker.now }
    ensures counted { IfOk result (λ _. (W.history store.old).called < budget
        × ((W.history store.new).called ≡ (W.history store.old).called + 1)) }
    ensures page { IfOk result (λ items. IsPageOf [] marker.now (map name_in items)) }
    ensures asks { Asks (always 1) (W.history store.old) (W.history store.new) Any
        (TellsOf (TellsFiles folder.now [] marker.now)) (as_plan result) }
    ensures says { SaysFiles folder.now marker.now (W.history store.old) result }
    ensures leaves { LeavesThroughout (W.history store.old) (W.history store.new) }
{
    match listed_page(alloc, store, folder, marker) {
        Ok(page) => Ok(page),
        Err(fault) => Err(file_fault(alloc, fault, folder, b"")),
    }
}

/// Deletes a file of a container beside a bucket, by DELETE of it (Object Storage API v1, "Delete object"). At most one call.
#[tactic(auto, using(account_calls::proofs::lemmas::Names::object_name))]
fn delete_leftover<W: Swift>(store: &mut W, folder: &Bytes, name: &Bytes) -> Result<(), PlanFault>
    requires folder { IsContainerName folder.now }
    requires name { is_key name.now ≡ true }
    ensures counted { IfOk result (λ _. (W.history store.old).called < budget
        × ((W.history store.new).called ≡ (W.history store.old).called + 1)) }
    ensures asks { (bucket : List ℕ) (test : List ℕ → Bool) → test name.now ≡ true
        → Asks (always 1) (W.history store.old) (W.history store.new)
        (MayDelete folder.now bucket test) (TellsDeleted folder.now bucket test (name.now ∷ [])) result }
    ensures spares { (test : List ℕ → Bool) → test name.now ≡ true
        → SparesThen folder.now test (W.history store.old) (W.history store.new) }
{
    let container = folder.copy()?;
    let name = name.copy()?;
    let reply = ask(store, SwiftRequest::DeleteObject { container, name })?;
    interpret_file_delete(&reply)
}

/// The same, with a fault that names the file.
fn sweep_item<W: Swift>(
    alloc: Global,
    store: &mut W,
    folder: &Bytes,
    name: &Bytes,
) -> Result<(), SweepFault>
    requires folder { IsContainerName folder.now }
    requires name { is_key name.now ≡ true }
    ensures counted { IfOk result (λ _. (W.history store.old).called < budget
        × ((W.history store.new).called ≡ (W.history store.old).called + 1)) }
    ensures names { IfErr result (NamesFile folder.now name.now) }
    ensures asks { (bucket : List ℕ) (test : List ℕ → Bool) → test name.now ≡ true
        → Asks (always 1) (W.history store.old) (W.history store.new)
        (MayDelete folder.now bucket test) (TellsDeleted folder.now bucket test (name.now ∷ []))
        (as_plan result) }
    ensures spares { (test : List ℕ → Bool) → test name.now ≡ true
        → SparesThen folder.now test (W.history store.old) (W.history store.new) }
{
    match delete_leftover(store, folder, name) {
        Ok(()) => Ok(()),
        Err(fault) => Err(file_fault(alloc, fault, folder.as_slice(), name.as_slice())),
    }
}

/// Deletes those files of a page that nothing keeps, one by one, and counts them. At most as many calls.
fn sweep_items<W: Swift>(
    alloc: Global,
    store: &mut W,
    folder: &Bytes,
    kept: &Kept,
    items: &[NameItem],
) -> Result<u64, SweepFault>
    requires folder { IsContainerName folder.now }
    requires names { list_all is_key (map name_in items.now) ≡ true }
    requires few { length items.now ≤ 1000 }
    ensures counted { IfOk result (λ count. (W.history store.old).called + count ≤ (W.history store.new).called) }
    ensures few { IfOk result (λ count. count ≤ 1000) }
    ensures tally { IfOk result
        (λ count. count ≡ length (filter (goes kept.now) (map name_in items.now))) }
    ensures asks { (bucket : List ℕ)
        → Asks (always (length (filter (goes kept.now) (map name_in items.now))))
        (W.history store.old) (W.history store.new) (MayDelete folder.now bucket (goes kept.now))
        (TellsSwept folder.now bucket (goes kept.now) (map name_in items.now)) (as_plan result) }
    ensures spares { SparesThen folder.now (goes kept.now) (W.history store.old) (W.history store.new) }
{
    let mut count = 0;
    for item in items {
        if kept.goes(item.name.as_slice()) {
            sweep_item(alloc, store, folder, &item.name)?;
            count += 1;
        }
    }
    Ok(count)
}

/// Sweeps a page of a container. What is told is how many files went, and the marker of the next page, and `None` after the last one.
fn sweep_page<W: Swift>(
    alloc: Global,
    store: &mut W,
    folder: &Bytes,
    kept: &Kept,
    marker: &Bytes,
) -> Result<(u64, Option<Bytes>), SweepFault>
    requires folder { IsContainerName folder.now }
    requires marker { IsMarker marker.now }
    ensures counted { IfOk result (λ told. (W.history store.old).called < budget
        × ((W.history store.old).called + told.0 < (W.history store.new).called)) }
    ensures few { IfOk result (λ told. told.0 ≤ 1000) }
    ensures is_marker { IfOk result (λ told. IfSome told.1 IsMarker) }
    ensures asks { (bucket : List ℕ) → Asks (always 1001) (W.history store.old)
        (W.history store.new)
        (MaySweep folder.now bucket (goes kept.now) marker.now)
        (TellsPage folder.now bucket (goes kept.now) marker.now) (as_plan result) }
    ensures pays { (bucket : List ℕ) → PaysPage folder.now bucket (goes kept.now) marker.now
        (W.history store.old) (W.history store.new) (as_plan result) }
    ensures spares { SparesThen folder.now (goes kept.now) (W.history store.old) (W.history store.new) }
{
    let page = file_page(alloc, store, folder.as_slice(), marker.as_slice())?;
    let next = next_marker(page.as_slice())?;
    let count = sweep_items(alloc, store, folder, kept, page.as_slice())?;
    Ok((count, next))
}

/// Deletes all files of a container beside a bucket that nothing keeps, page by page, each by DELETE of it (Object Storage API v1,
/// "Delete object"), and counts them. At most as many calls as there are pages of files, and files that go, where the store is
/// observable and its account consistent; and the S3 state stays. Failed comes only where the store's count of faults rose; Memory
/// where memory ran out; Inconsistent never over an observable consistent account of which this is so. One page is held at a time.
pub(crate) fn sweep_files<W: Swift>(
    alloc: Global,
    store: &mut W,
    folder: &Bytes,
    kept: &Kept,
) -> Result<u64, SweepFault>
    requires { IsContainerName folder.now }
    ensures counted { IfOk result (λ count. (W.history store.old).called + count ≤ (W.history store.new).called) }
    ensures fits { IfOk result (λ count. (W.history store.old).called + count < 2 ^ 64) }
    ensures asks { (bucket : List ℕ)
        → Asks (by_account (sweep_calls (present (W.history store.old)) folder.now (goes kept.now)
        []))
        (W.history store.old) (W.history store.new)
        (MaySweep folder.now bucket (goes kept.now) []) (TellsAll folder.now (goes kept.now))
        (as_plan result) }
    ensures spares { SparesThen folder.now (goes kept.now) (W.history store.old) (W.history store.new) }
{
    let mut count = 0;
    let mut marker = Bytes::new(alloc);
    'pages: loop {
        let (swept, next) = sweep_page(alloc, store, folder, kept, &marker)?;
        count += swept;
        match next {
            Some(next) => marker = next,
            None => return Ok(count),
        }
    }
}
