//! The records beside all buckets are gone through: old completions are forgotten, and the others get their moment.
ghost use Rattle.std.specs.Prelude.{◌≡◌, ◌⊎◌, ◌<◌, ◌≤◌, ◌+◌, ◌*◌, ℕ, List, [], ◌∷◌, length, map, true, IfOk, IfSome};
ghost use Rattle.std.specs.List.{list_all};
ghost use Rattle.s3_names.specs.Bucket.{is_bucket};
ghost use Rattle.s3_names.specs.Key.{is_key};
ghost use Rattle.list_pages.specs.Listing.{name_in, IsPageOf};
ghost use Rattle.swift_calls.specs.History.{budget, present};
ghost use Rattle.swift_calls.specs.Limits.{IsMarker};
ghost use Rattle.swift_calls.specs.Step.{IsContainerName};
ghost use Rattle.account_calls.specs.Calls.{always, Any, Asks, Met};
ghost use Rattle.account_calls.specs.FilePages.{TellsFiles};
ghost use Rattle.account_calls.specs.Listing.{HasNames, TellsOf};
ghost use Rattle.sweep.specs.Aging.{AreDistinct, before_calls, names_forget_calls, old_among, old_beside, old_of, page_of, Forgetting, HasFiles, IsRecordsOf, MakesForgetCalls, PaysForgetting, TellsAged, TellsAgedPage, TellsAllAged, TellsBeside, TellsSweptBefore};
ghost use Rattle.sweep.specs.Containers.{HasContainer};
ghost use Rattle.leftovers.specs.Segments.{HasSettled};
ghost use Rattle.leftovers.specs.Faults.{as_plan};

use crate::account::Swept;
use crate::forget::{Aged, forget_named_record};
use crate::walk::sweep_names;
use account_calls::next_marker;
use gate_base::{Bytes, List};
use leftovers::{SweepFault, file_page};
use s3_names::is_bucket;
use std::alloc::Global;
use swift_calls::{NameItem, Swift};
use upload_records::uploads_container;

/// Does with the records of a page what is to be done with them, one by one. At most two calls for each.
fn forget_items<W: Swift>(
    alloc: Global,
    store: &mut W,
    folder: &Bytes,
    items: &[NameItem],
    before: u64,
) -> Result<Aged, SweepFault>
    requires folder { (bucket : List ℕ) × IsRecordsOf folder.now bucket }
    requires names { list_all is_key (map name_in items.now) ≡ true }
    ensures counted { IfOk result (λ told. ((W.history store.old).called + (told.forgotten + told.migrated) ≤ (W.history store.new).called)
        × ((W.history store.old).called ≤ budget → (W.history store.new).called ≤ budget)) }
    ensures near { (W.history store.new).called ≤ (W.history store.old).called + 2 * length items.now }
    ensures forgets { (bucket : List ℕ) → IsRecordsOf folder.now bucket
        → AreDistinct (map name_in items.now)
        → Forgetting (W.history store.old) (W.history store.new) (HasFiles bucket (map name_in
        items.now))
        (old_among before bucket (map name_in items.now))
        (TellsAged before bucket (map name_in items.now)) (as_plan result) }
{
    let mut forgotten = 0;
    let mut migrated = 0;
    for item in items {
        let told = forget_named_record(alloc, store, folder, &item.name, before)?;
        forgotten += told.forgotten;
        migrated += told.migrated;
    }
    Ok(Aged {
        forgotten,
        migrated,
    })
}

/// A page of the records beside a bucket after a marker. A fault names their container.
fn aging_page<W: Swift>(
    alloc: Global,
    store: &mut W,
    folder: &Bytes,
    marker: &Bytes,
) -> Result<List<NameItem>, SweepFault>
    requires folder { IsContainerName folder.now }
    requires marker { IsMarker marker.now }
    ensures counted { IfOk result (λ _. (W.history store.old).called < budget
        × ((W.history store.new).called ≡ (W.history store.old).called + 1)) }
    ensures page { IfOk result (λ items. IsPageOf [] marker.now (map name_in items)) }
    ensures asks { Asks (always 1) (W.history store.old) (W.history store.new) Any
        (TellsOf (TellsFiles folder.now [] marker.now)) (as_plan result) }
{
    file_page(alloc, store, folder.as_slice(), marker.as_slice())
}

/// Does it with a page of records. What is told beside the numbers is the marker of the next page, and `None` after the last one.
fn forget_page<W: Swift>(
    alloc: Global,
    store: &mut W,
    folder: &Bytes,
    marker: &Bytes,
    before: u64,
) -> Result<(Aged, Option<Bytes>), SweepFault>
    requires folder { (bucket : List ℕ) × IsRecordsOf folder.now bucket }
    requires marker { IsMarker marker.now }
    ensures counted { IfOk result (λ told. ((W.history store.old).called + (told.0.forgotten + told.0.migrated) < (W.history store.new).called)
        × ((W.history store.new).called ≤ budget)) }
    ensures is_marker { IfOk result (λ told. IfSome told.1 IsMarker) }
    ensures forgets { (bucket : List ℕ) → IsRecordsOf folder.now bucket
        → Forgetting (W.history store.old) (W.history store.new) (HasSettled bucket)
        (λ tree. old_among before bucket (page_of bucket marker.now tree) tree)
        (TellsAgedPage before bucket marker.now) (as_plan result) }
    ensures pays { (bucket : List ℕ) → IsRecordsOf folder.now bucket
        → PaysForgetting bucket marker.now (W.history store.old) (W.history store.new)
        (as_plan result) }
{
    let page = aging_page(alloc, store, folder, marker)?;
    let next = next_marker(page.as_slice())?;
    let told = forget_items(alloc, store, folder, page.as_slice(), before)?;
    Ok((told, next))
}

/// Does it with all records beside a bucket, page by page in byte order of the ids. One page and one record are held at a time.
fn forget_records<W: Swift>(
    alloc: Global,
    store: &mut W,
    folder: &Bytes,
    before: u64,
) -> Result<Aged, SweepFault>
    requires folder { (bucket : List ℕ) × IsRecordsOf folder.now bucket }
    ensures counted { IfOk result (λ told. ((W.history store.old).called + (told.forgotten + told.migrated) ≤ (W.history store.new).called)
        × ((W.history store.new).called ≤ budget)) }
    ensures forgets { (bucket : List ℕ) → IsRecordsOf folder.now bucket
        → Forgetting (W.history store.old) (W.history store.new) (HasSettled bucket)
        (old_beside before bucket) (TellsBeside before bucket) (as_plan result) }
    ensures calls { (bucket : List ℕ) → IsRecordsOf folder.now bucket
        → MakesForgetCalls bucket (W.history store.old) (W.history store.new) }
{
    let mut forgotten = 0;
    let mut migrated = 0;
    let mut marker = Bytes::new(alloc);
    'pages: loop {
        let (told, next) = forget_page(alloc, store, folder, &marker, before)?;
        forgotten += told.forgotten;
        migrated += told.migrated;
        match next {
            Some(next) => marker = next,
            None => {
                return Ok(Aged {
                    forgotten,
                    migrated,
                });
            }
        }
    }
}

/// Forgets the old completions of a bucket, and gives the records of the others their moment. At most as many calls as there are pages of
/// records, and two for each, where the store is observable and its account consistent. At each of them the completions that are
/// forgotten are the first ones by id. Failed comes only where the store's count of faults rose; Memory where memory ran out;
/// Inconsistent, with the name of the container, never over an observable consistent account that is settled. After a fault what was
/// done stays done.
fn forget_bucket<W: Swift>(
    alloc: Global,
    store: &mut W,
    bucket: &Bytes,
    before: u64,
) -> Result<Aged, SweepFault>
    requires { is_bucket bucket.now ≡ true }
    ensures counted { IfOk result (λ told. ((W.history store.old).called + (told.forgotten + told.migrated) ≤ (W.history store.new).called)
        × ((W.history store.new).called ≤ budget)) }
    ensures forgets { Forgetting (W.history store.old) (W.history store.new) (HasSettled bucket.now)
        (old_beside before bucket.now) (TellsBeside before bucket.now) (as_plan result) }
    ensures calls { MakesForgetCalls bucket.now (W.history store.old) (W.history store.new) }
{
    let folder = uploads_container(alloc, bucket.as_slice())?;
    forget_records(alloc, store, &folder, before)
}

/// The same for a container by its name, which is left without a call where it isn't a bucket's.
fn forget_name<W: Swift>(
    alloc: Global,
    store: &mut W,
    name: &Bytes,
    before: u64,
) -> Result<Aged, SweepFault>
    ensures counted { IfOk result (λ told. ((W.history store.old).called + (told.forgotten + told.migrated) ≤ (W.history store.new).called)
        × ((told.forgotten + told.migrated ≡ 0) ⊎ ((W.history store.new).called ≤ budget))) }
    ensures forgets { Forgetting (W.history store.old) (W.history store.new) (HasContainer name.now)
        (old_of before (name.now ∷ [])) (TellsAllAged before (name.now ∷ [])) (as_plan result) }
    ensures calls { Met (HasContainer name.now) (W.history store.old)
        → (W.history store.new).called ≤ (W.history store.old).called + names_forget_calls (name.now ∷ []) (present (W.history store.old)) }
{
    if !is_bucket(name.as_slice()) {
        return Ok(Aged {
            forgotten: 0,
            migrated: 0,
        });
    }
    forget_bucket(alloc, store, name, before)
}

/// The same for all buckets among the containers of an account, in byte order of their names: at each call the completions that are
/// forgotten are the first ones by bucket and then by id.
pub(crate) fn forget_names<W: Swift>(
    alloc: Global,
    store: &mut W,
    names: &[Bytes],
    before: u64,
) -> Result<Aged, SweepFault>
    ensures forgets { Forgetting (W.history store.old) (W.history store.new) (HasNames names.now)
        (old_of before names.now) (TellsAllAged before names.now) (as_plan result) }
    ensures calls { Met (HasNames names.now) (W.history store.old)
        → (W.history store.new).called ≤ (W.history store.old).called + names_forget_calls names.now (present (W.history store.old)) }
{
    let mut forgotten = 0;
    let mut migrated = 0;
    for name in names {
        let told = forget_name(alloc, store, name, before)?;
        forgotten += told.forgotten;
        migrated += told.migrated;
    }
    Ok(Aged {
        forgotten,
        migrated,
    })
}

/// Does it with all buckets of an account, whose containers have these names, and then sweeps what is left over.
pub(crate) fn sweep_names_before<W: Swift>(
    alloc: Global,
    store: &mut W,
    names: &[Bytes],
    before: u64,
) -> Result<Swept, SweepFault>
    ensures forgets { Forgetting (W.history store.old) (W.history store.new) (HasNames names.now)
        (old_of before names.now) (TellsSweptBefore before names.now) (as_plan result) }
    ensures calls { Met (HasNames names.now) (W.history store.old)
        → (W.history store.new).called ≤ (W.history store.old).called + before_calls names.now (present (W.history store.old)) }
{
    let told = forget_names(alloc, store, names, before)?;
    let swept = sweep_names(alloc, store, names)?;
    Ok(Swept {
        segments: swept.segments,
        records: swept.records,
        containers: swept.containers,
        migrated: told.migrated,
        forgotten: told.forgotten,
    })
}
