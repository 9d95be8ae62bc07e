//! The sweep of one container beside a bucket, be the bucket there or missing.
ghost use Rattle.std.specs.Prelude.{◌≡◌, ℕ, List, true, is_some, IfOk, None};
ghost use Rattle.std.specs.FinMap.{get};
ghost use Rattle.s3_names.specs.Bucket.{is_bucket};
ghost use Rattle.swift_calls.specs.History.{present};
ghost use Rattle.upload_records.specs.Layout.{segments_name};
ghost use Rattle.account_calls.specs.Calls.{by_account, Asks};
ghost use Rattle.leftovers.specs.Faults.{as_plan};
ghost use Rattle.leftovers.specs.Sides.{bucket_beside, folder_beside};
ghost use Rattle.sweep.specs.Containers.{calls_there, name_calls, side_calls, HasListed, HasSide, HeedsListed, SparesOthers, SweepsName, SweepsSide};
ghost use Rattle.leftovers.specs.declared.sides.Kind.TheVariants.{Records, Segments};
ghost use Rattle.leftovers.specs.Segments.{HasSettled};
ghost use Rattle.leftovers.specs.Sweeping.{SparesThen};
ghost use Rattle.leftovers.specs.Strays.{clear_calls, IsStray};
ghost use Rattle.sweep.specs.Walk.{Tallies};

use crate::account::Swept;
use account_calls::PlanFault;
use gate_base::Bytes;
use leftovers::{
    Kind, SweepFault, bucket_beside, file_fault, is_there, sweep_segments, sweep_stray,
};
use name_table::Table;
use std::alloc::Global;
use swift_calls::Swift;

/// Sweeps the segments beside a bucket that is there: its orphans go.
fn sweep_orphans<W: Swift>(
    alloc: Global,
    store: &mut W,
    bucket: &Bytes,
) -> Result<Swept, SweepFault>
    requires { is_bucket bucket.now ≡ true }
    ensures tallies { IfOk result (Tallies (W.history store.old).called (W.history store.new).called) }
    ensures asks { Asks (by_account (calls_there (present (W.history store.old)) Segments bucket.now))
        (W.history store.old) (W.history store.new) (HasSettled bucket.now)
        (SweepsSide Segments bucket.now) (as_plan result) }
    ensures spares { SparesThen (segments_name bucket.now) (λ n. true) (W.history store.old) (W.history store.new) }
{
    let segments = sweep_segments(alloc, store, bucket)?;
    Ok(Swept {
        segments: segments,
        records: 0,
        containers: 0,
        migrated: 0,
        forgotten: 0,
    })
}

/// Sweeps a container beside a bucket that is there: its orphans go, where it is that of segments.
fn sweep_there<W: Swift>(
    alloc: Global,
    store: &mut W,
    bucket: &Bytes,
    kind: Kind,
) -> Result<Swept, SweepFault>
    requires { is_bucket bucket.now ≡ true }
    ensures tallies { IfOk result (Tallies (W.history store.old).called (W.history store.new).called) }
    ensures asks { Asks (by_account (calls_there (present (W.history store.old)) kind bucket.now))
        (W.history store.old) (W.history store.new) (HasSettled bucket.now)
        (SweepsSide kind bucket.now) (as_plan result) }
    ensures spares { SparesThen (folder_beside kind bucket.now) (λ n. true) (W.history store.old) (W.history store.new) }
{
    match kind {
        Kind::Records => Ok(Swept {
            segments: 0,
            records: 0,
            containers: 0,
            migrated: 0,
            forgotten: 0,
        }),
        Kind::Segments => sweep_orphans(alloc, store, bucket),
    }
}

/// Sweeps a container beside a bucket that is missing: it goes, with all its files.
fn sweep_missing<W: Swift>(
    alloc: Global,
    store: &mut W,
    folder: &Bytes,
    kind: Kind,
) -> Result<Swept, SweepFault>
    requires folder { (bucket : List ℕ) × (is_bucket bucket ≡ true)
        × (folder.now ≡ folder_beside kind bucket) }
    ensures tallies { IfOk result (Tallies (W.history store.old).called (W.history store.new).called) }
    ensures asks { (bucket : List ℕ) → is_bucket bucket ≡ true → folder.now ≡ folder_beside kind
        bucket
        → Asks (by_account (clear_calls (present (W.history store.old)) (folder_beside kind
        bucket)))
        (W.history store.old) (W.history store.new) (IsStray (folder_beside kind bucket) bucket)
        (SweepsSide kind bucket) (as_plan result) }
    ensures spares { SparesThen folder.now (λ n. true) (W.history store.old) (W.history store.new) }
{
    let files = sweep_stray(alloc, store, folder)?;
    match kind {
        Kind::Records => Ok(Swept {
            segments: 0,
            records: files,
            containers: 1,
            migrated: 0,
            forgotten: 0,
        }),
        Kind::Segments => Ok(Swept {
            segments: files,
            records: 0,
            containers: 1,
            migrated: 0,
            forgotten: 0,
        }),
    }
}

/// Whether a table has the bucket.
fn is_listed(listed: &Table<bool>, bucket: &Bytes) -> bool
    ensures { result ≡ is_some (get listed.now bucket.now) }
{
    listed.get(bucket.as_slice()).is_some()
}

/// Sweeps a container beside a bucket, of which HEAD tells whether it is there (Object Storage API v1, "Show container metadata"): what
/// is left over in it is removed and counted, and the S3 state stays.
pub(crate) fn sweep_beside<W: Swift>(
    alloc: Global,
    store: &mut W,
    listed: &Table<bool>,
    bucket: &Bytes,
    folder: &Bytes,
    kind: Kind,
) -> Result<Swept, SweepFault>
    requires bucket { is_bucket bucket.now ≡ true }
    requires folder { folder.now ≡ folder_beside kind bucket.now }
    ensures tallies { IfOk result (Tallies (W.history store.old).called (W.history store.new).called) }
    ensures asks { Asks (by_account (side_calls (present (W.history store.old)) kind bucket.now))
        (W.history store.old) (W.history store.new) (HasSide listed.now kind bucket.now)
        (SweepsSide kind bucket.now) (as_plan result) }
    ensures spares { SparesThen (folder_beside kind bucket.now) (λ n. true) (W.history store.old) (W.history store.new) }
    ensures heeds { HeedsListed listed.now bucket.now (W.history store.old) (W.history store.new) (as_plan result) }
{
    if is_there(alloc, store, bucket)? {
        return sweep_there(alloc, store, bucket, kind);
    }
    if is_listed(listed, bucket) {
        let fault = PlanFault::Inconsistent;
        return Err(file_fault(alloc, fault, bucket.as_slice(), b""));
    }
    sweep_missing(alloc, store, folder, kind)
}

/// Sweeps a container whose name is not that of records beside a bucket.
fn sweep_other<W: Swift>(
    alloc: Global,
    store: &mut W,
    listed: &Table<bool>,
    name: &Bytes,
) -> Result<Swept, SweepFault>
    requires { bucket_beside Records name.now ≡ None }
    ensures tallies { IfOk result (Tallies (W.history store.old).called (W.history store.new).called) }
    ensures asks { Asks (by_account (name_calls (present (W.history store.old)) name.now))
        (W.history store.old) (W.history store.new) (HasListed listed.now name.now) (SweepsName name.now) (as_plan result) }
    ensures spares { SparesOthers (W.history store.old) (W.history store.new) }
{
    match bucket_beside(alloc, name, Kind::Segments)? {
        Some(bucket) => sweep_beside(alloc, store, listed, &bucket, name, Kind::Segments),
        None => Ok(Swept {
            segments: 0,
            records: 0,
            containers: 0,
            migrated: 0,
            forgotten: 0,
        }),
    }
}

/// Sweeps a container by its name: what is left over in it is removed and counted, and the S3 state stays. One that doesn't stand
/// beside a bucket is left as it is, without a call.
pub(crate) fn sweep_name<W: Swift>(
    alloc: Global,
    store: &mut W,
    listed: &Table<bool>,
    name: &Bytes,
) -> Result<Swept, SweepFault>
    ensures tallies { IfOk result (Tallies (W.history store.old).called (W.history store.new).called) }
    ensures asks { Asks (by_account (name_calls (present (W.history store.old)) name.now))
        (W.history store.old) (W.history store.new) (HasListed listed.now name.now) (SweepsName name.now) (as_plan result) }
    ensures spares { SparesOthers (W.history store.old) (W.history store.new) }
{
    match bucket_beside(alloc, name, Kind::Records)? {
        Some(bucket) => sweep_beside(alloc, store, listed, &bucket, name, Kind::Records),
        None => sweep_other(alloc, store, listed, name),
    }
}
