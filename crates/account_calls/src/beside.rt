//! The calls that make the containers beside a bucket, and empty them.
ghost use Rattle.std.specs.Prelude.{◌≡◌, ◌≢◌, ◌<◌, ℕ, List, [], ◌∷◌, length, map, true, IfOk, IfSome, Err};
ghost use Rattle.std.specs.List.{list_all};
ghost use Rattle.s3_names.specs.Key.{is_key};
ghost use Rattle.s3_machine.specs.Items.{begins};
ghost use Rattle.list_pages.specs.Listing.{name_in};
ghost use Rattle.swift_calls.specs.History.{budget, present};
ghost use Rattle.swift_calls.specs.Step.{IsContainerName};
ghost use Rattle.swift_calls.specs.Limits.{IsMarker};
ghost use Rattle.upload_records.specs.Consistent.{IsBeside};
ghost use Rattle.upload_records.specs.Native.{IsSettled};
ghost use Rattle.account_calls.specs.Calls.{always, by_account, Asks};
ghost use Rattle.account_calls.specs.Lent.{Stays};
ghost use Rattle.account_calls.specs.Purging.{MakesContainer, MayDelete, MayPurge, PaysPage, TellsAllGone, TellsDeleted, TellsPurged, placed_due, purge_calls};
ghost use Rattle.account_calls.specs.declared.fault.PlanFault.TheVariants as fault;

use crate::interpret::interpret_file_delete;
use crate::state::ask;
use crate::{PlanFault, Settled, next_marker, settled_file_page};
use gate_base::{Bytes, Copying};
use swift_calls::{NameItem, ReadList, Swift, SwiftReply, SwiftRequest};

/// Makes a container beside a bucket, which may be there, by PUT of it (Object Storage API v1, "Create container"). At most
/// one call, and the S3 state stays. Failed comes only where the store's count of faults rose; Memory where memory ran out;
/// Inconsistent never over an observable consistent account.
#[tactic(auto, using(crate::proofs::lemmas::Sides::side_name))]
pub fn put_container_beside<W: Swift>(
    state: &mut Settled<'_, W>,
    folder: &Bytes,
) -> Result<(), PlanFault>
    requires { (bucket : List ℕ) × IsBeside folder.now bucket }
    ensures stays { Stays state.old state.new }
    ensures asks { Asks (always 1) (W.history state.old.store.now) (W.history state.new.store.now)
        IsSettled (MakesContainer folder.now) result }
{
    let reply = ask(
        state.store,
        SwiftRequest::PutContainer {
            container: folder.copy()?,
            readers: ReadList::Nobody,
            created: None,
        },
    )?;
    interpret_container_put(&reply)
}

/// The answer to PUT of a container that may be there.
pub fn interpret_container_put(reply: &SwiftReply) -> Result<(), PlanFault>
    ensures due { result ≡ placed_due reply.now }
    ensures own { result ≢ Err fault.Failed }
{
    match reply {
        SwiftReply::Made => Ok(()),
        SwiftReply::There => Ok(()),
        _ => Err(PlanFault::Inconsistent),
    }
}

/// Deletes a file of a container beside a bucket, by DELETE of it (Object Storage API v1, "Delete object"); one that isn't there is
/// gone. At most one call.
#[tactic(auto, using(crate::proofs::lemmas::Names::object_name))]
fn delete_name<W: Swift>(
    state: &mut Settled<'_, W>,
    folder: &Bytes,
    name: &Bytes,
) -> Result<(), PlanFault>
    requires folder { IsContainerName folder.now }
    requires name { is_key name.now ≡ true }
    ensures stays { Stays state.old state.new }
    ensures asks { (bucket prefix : List ℕ) → begins prefix name.now ≡ true
        → Asks (always 1) (W.history state.old.store.now) (W.history state.new.store.now)
        (MayDelete folder.now bucket prefix) (TellsDeleted folder.now bucket prefix (name.now ∷ []))
        result }
{
    let container = folder.copy()?;
    let name = name.copy()?;
    let reply = ask(state.store, SwiftRequest::DeleteObject { container, name })?;
    interpret_file_delete(&reply)
}

/// Deletes the files of a page, one by one. At most as many calls.
fn delete_names<W: Swift>(
    state: &mut Settled<'_, W>,
    folder: &Bytes,
    items: &[NameItem],
) -> Result<(), PlanFault>
    requires folder { IsContainerName folder.now }
    requires names { list_all is_key (map name_in items.now) ≡ true }
    ensures stays { Stays state.old state.new }
    ensures asks { (bucket prefix : List ℕ) → list_all (begins prefix) (map name_in items.now) ≡ true
        → Asks (always (length items.now)) (W.history state.old.store.now) (W.history state.new.store.now)
        (MayDelete folder.now bucket prefix) (TellsDeleted folder.now bucket prefix (map name_in items.now)) result }
{
    for item in items {
        delete_name(state, folder, &item.name)?;
    }
    Ok(())
}

/// Deletes a page of the files under a prefix. What is told is the marker of the next page, and `None` after the last one. The
/// marker is copied before the first DELETE.
fn purge_page<W: Swift>(
    state: &mut Settled<'_, W>,
    folder: &Bytes,
    prefix: &Bytes,
    marker: &Bytes,
) -> Result<Option<Bytes>, PlanFault>
    requires folder { IsContainerName folder.now }
    requires prefix { IsMarker prefix.now }
    requires marker { IsMarker marker.now }
    ensures stays { Stays state.old state.new }
    ensures counted { IfOk result (λ _. (W.history state.old.store.now).called < budget
        × ((W.history state.old.store.now).called < (W.history state.new.store.now).called)) }
    ensures is_marker { IfOk result (λ next. IfSome next IsMarker) }
    ensures asks { (bucket : List ℕ)
        → Asks (always 1001) (W.history state.old.store.now) (W.history state.new.store.now)
        (MayPurge folder.now bucket prefix.now marker.now) (TellsPurged folder.now bucket
        prefix.now) result }
    ensures pays { (bucket : List ℕ) → PaysPage folder.now bucket prefix.now marker.now
        (W.history state.old.store.now) (W.history state.new.store.now) result }
{
    let page = settled_file_page(
        state,
        folder.as_slice(),
        prefix.as_slice(),
        marker.as_slice(),
    )?;
    let next = next_marker(page.as_slice())?;
    delete_names(state, folder, page.as_slice())?;
    Ok(next)
}

/// Deletes all files of a container beside a bucket whose names begin with a prefix, page by page, each by DELETE of it (Object
/// Storage API v1, "Delete object"). At most as many calls as there are pages and files, where the store is observable and its
/// account consistent; and the S3 state stays. The faults are those of [`put_container_beside`]; after one some files may be left.
pub fn purge<W: Swift>(
    state: &mut Settled<'_, W>,
    folder: &Bytes,
    prefix: &Bytes,
) -> Result<(), PlanFault>
    requires named { IsContainerName folder.now }
    requires prefix { IsMarker prefix.now }
    ensures stays { Stays state.old state.new }
    ensures asks { (bucket : List ℕ)
        → Asks (by_account (purge_calls (present (W.history state.old.store.now)) folder.now
        prefix.now))
        (W.history state.old.store.now) (W.history state.new.store.now)
        (MayPurge folder.now bucket prefix.now []) (TellsAllGone folder.now prefix.now) result }
{
    let alloc = state.alloc;
    let mut marker = Bytes::new(alloc);
    'pages: loop {
        match purge_page(state, folder, prefix, &marker)? {
            Some(next) => marker = next,
            None => return Ok(()),
        }
    }
}
