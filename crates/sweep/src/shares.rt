//! What one container has of a survey, by its name.
ghost use Rattle.std.specs.Prelude.{◌≡◌, true, false, IfSome};
ghost use Rattle.s3_names.specs.Bucket.{is_bucket};
ghost use Rattle.swift_calls.specs.History.{present};
ghost use Rattle.upload_texts.specs.Sealed.{has_sealed_text};
ghost use Rattle.upload_records.specs.Layout.{segments_name};
ghost use Rattle.account_calls.specs.Calls.{by_account, Any, Asks};
ghost use Rattle.account_calls.specs.Listing.{TellsOf};
ghost use Rattle.account_calls.specs.Told.{LeavesThroughout};
ghost use Rattle.leftovers.specs.Faults.{as_plan};
ghost use Rattle.leftovers.specs.Gathering.{InBucket};
ghost use Rattle.sweep.specs.Surveying.{bucket_calls, orphans_calls, page_calls, records_calls, share_calls, stray_calls, HasName, HasOpened, TellsBucketShare, TellsObjects, TellsOrphans, TellsRecords, TellsShare, TellsStray, TellsStrayShare};

use crate::counting::Surveyed;
use crate::file_counts::{FileCount, tally_files};
use gate_base::Bytes;
use leftovers::{
    Kept, Kind, Source, SweepFault, Used, add_sealed, bucket_beside, gather, is_there,
};
use name_table::Table;
use s3_names::is_bucket;
use std::alloc::Global;
use swift_calls::Swift;
use upload_records::{segments_container, uploads_container};
use upload_texts::Sealed;

/// How many objects a bucket has. At most as many calls as there are pages of them.
fn count_objects<W: Swift>(alloc: Global, store: &mut W, bucket: &Bytes) -> Result<u64, SweepFault>
    requires { is_bucket bucket.now ≡ true }
    ensures asks { Asks (by_account (page_calls (present (W.history store.old)) bucket.now))
        (W.history store.old) (W.history store.new) Any (TellsOf (TellsObjects bucket.now)) (as_plan result) }
    ensures leaves { LeavesThroughout (W.history store.old) (W.history store.new) }
{
    let used = Used::nothing(alloc);
    let tally = tally_files(alloc, store, bucket, &used)?;
    Ok(tally.unused)
}

/// The ids of the open uploads of a bucket, and how many uploads are open and how many completions are kept. Each record is read once.
fn survey_records<W: Swift>(
    alloc: Global,
    store: &mut W,
    bucket: &Bytes,
) -> Result<(Table<bool>, FileCount), SweepFault>
    requires { is_bucket bucket.now ≡ true }
    ensures asks { Asks (by_account (records_calls (present (W.history store.old)) bucket.now))
        (W.history store.old) (W.history store.new) (InBucket bucket.now)
        (TellsOf (TellsRecords bucket.now)) (as_plan result) }
    ensures leaves { LeavesThroughout (W.history store.old) (W.history store.new) }
{
    let folder = uploads_container(alloc, bucket.as_slice())?;
    let opened = gather(alloc, store, bucket, &folder, Source::Records)?;
    let used = Used::named(alloc, opened);
    let tally = tally_files(alloc, store, &folder, &used)?;
    Ok((used.kept.listed, tally))
}

/// How many orphans stand beside a bucket that is there, by the ids of its open uploads. The list of each object is read once.
fn count_orphans<W: Swift>(
    alloc: Global,
    store: &mut W,
    sealed: &Option<Sealed>,
    bucket: &Bytes,
    opened: Table<bool>,
) -> Result<u64, SweepFault>
    requires bucket { is_bucket bucket.now ≡ true }
    requires sealed { IfSome sealed.now (λ s. has_sealed_text s ≡ true) }
    ensures asks { Asks (by_account (orphans_calls (present (W.history store.old)) bucket.now))
        (W.history store.old) (W.history store.new) (HasOpened sealed.now bucket.now opened)
        (TellsOf (TellsOrphans bucket.now)) (as_plan result) }
    ensures leaves { LeavesThroughout (W.history store.old) (W.history store.new) }
{
    let folder = segments_container(alloc, bucket.as_slice())?;
    let mut listed = gather(alloc, store, bucket, bucket, Source::Objects)?;
    let id = add_sealed(alloc, sealed, bucket, &mut listed)?;
    let used = Used {
        kept: Kept { listed, opened },
        sealed: id,
    };
    let tally = tally_files(alloc, store, &folder, &used)?;
    Ok(tally.unused)
}

/// What a bucket that is there has of a survey, with what stands beside it.
fn survey_bucket<W: Swift>(
    alloc: Global,
    store: &mut W,
    sealed: &Option<Sealed>,
    bucket: &Bytes,
) -> Result<Surveyed, SweepFault>
    requires bucket { is_bucket bucket.now ≡ true }
    requires sealed { IfSome sealed.now (λ s. has_sealed_text s ≡ true) }
    ensures asks { Asks (by_account (bucket_calls (present (W.history store.old)) bucket.now))
        (W.history store.old) (W.history store.new) (HasName sealed.now bucket.now)
        (TellsOf (TellsBucketShare bucket.now)) (as_plan result) }
    ensures leaves { LeavesThroughout (W.history store.old) (W.history store.new) }
{
    let objects = count_objects(alloc, store, bucket)?;
    let (opened, records) = survey_records(alloc, store, bucket)?;
    let orphans = count_orphans(alloc, store, sealed, bucket, opened)?;
    Ok(Surveyed {
        buckets: 1,
        objects,
        uploads: records.used,
        kept: records.unused,
        orphans,
        sealed: false,
    })
}

/// How many segments stand beside a bucket that is missing: all of them are orphans. None are counted where it is there, of which
/// HEAD tells (Object Storage API v1, "Show container metadata").
fn count_strays<W: Swift>(
    alloc: Global,
    store: &mut W,
    bucket: &Bytes,
    folder: &Bytes,
) -> Result<u64, SweepFault>
    requires bucket { is_bucket bucket.now ≡ true }
    requires folder { folder.now ≡ segments_name bucket.now }
    ensures asks { Asks (by_account (stray_calls (present (W.history store.old)) bucket.now))
        (W.history store.old) (W.history store.new) Any (TellsOf (TellsStray bucket.now)) (as_plan result) }
    ensures leaves { LeavesThroughout (W.history store.old) (W.history store.new) }
{
    if is_there(alloc, store, bucket)? {
        return Ok(0);
    }
    let used = Used::nothing(alloc);
    let tally = tally_files(alloc, store, folder, &used)?;
    Ok(tally.unused)
}

/// What segments have of a survey whose bucket may be missing.
fn survey_strays<W: Swift>(
    alloc: Global,
    store: &mut W,
    bucket: &Bytes,
    folder: &Bytes,
) -> Result<Surveyed, SweepFault>
    requires bucket { is_bucket bucket.now ≡ true }
    requires folder { folder.now ≡ segments_name bucket.now }
    ensures asks { Asks (by_account (stray_calls (present (W.history store.old)) bucket.now))
        (W.history store.old) (W.history store.new) Any (TellsOf (TellsStrayShare bucket.now)) (as_plan result) }
    ensures leaves { LeavesThroughout (W.history store.old) (W.history store.new) }
{
    let orphans = count_strays(alloc, store, bucket, folder)?;
    Ok(Surveyed {
        buckets: 0,
        objects: 0,
        uploads: 0,
        kept: 0,
        orphans,
        sealed: false,
    })
}

/// What a container has of a survey that stands under a name of no bucket.
fn survey_side<W: Swift>(alloc: Global, store: &mut W, name: &Bytes) -> Result<Surveyed, SweepFault>
    requires { is_bucket name.now ≡ false }
    ensures asks { Asks (by_account (share_calls (present (W.history store.old)) name.now))
        (W.history store.old) (W.history store.new) Any (TellsOf (TellsShare name.now)) (as_plan result) }
    ensures leaves { LeavesThroughout (W.history store.old) (W.history store.new) }
{
    match bucket_beside(alloc, name, Kind::Segments)? {
        Some(bucket) => survey_strays(alloc, store, &bucket, name),
        None => Ok(Surveyed {
            buckets: 0,
            objects: 0,
            uploads: 0,
            kept: 0,
            orphans: 0,
            sealed: false,
        }),
    }
}

/// What a container has of a survey, by its name.
pub(crate) fn survey_name<W: Swift>(
    alloc: Global,
    store: &mut W,
    sealed: &Option<Sealed>,
    name: &Bytes,
) -> Result<Surveyed, SweepFault>
    requires { IfSome sealed.now (λ s. has_sealed_text s ≡ true) }
    ensures asks { Asks (by_account (share_calls (present (W.history store.old)) name.now))
        (W.history store.old) (W.history store.new) (HasName sealed.now name.now)
        (TellsOf (TellsShare name.now)) (as_plan result) }
    ensures leaves { LeavesThroughout (W.history store.old) (W.history store.new) }
{
    if is_bucket(name.as_slice()) {
        return survey_bucket(alloc, store, sealed, name);
    }
    survey_side(alloc, store, name)
}
