//! The sweep of the segments of a bucket that is there.
ghost use Rattle.std.specs.Prelude.{◌≡◌, ◌≤◌, ◌<◌, ◌+◌, ◌^◌, true, IfOk};
ghost use Rattle.s3_names.specs.Bucket.{is_bucket};
ghost use Rattle.swift_calls.specs.History.{present};
ghost use Rattle.account_calls.specs.Calls.{by_account, Asks};
ghost use Rattle.account_calls.specs.Listing.{TellsOf};
ghost use Rattle.account_calls.specs.Told.{LeavesThroughout};
ghost use Rattle.leftovers.specs.Faults.{as_plan};
ghost use Rattle.leftovers.specs.Segments.{kept_calls, segments_calls, HasSettled, HeedsThen, HoldsKept, SweepsSegments, TellsKept};

use crate::asking::ask_segments;
use crate::fault::SweepFault;
use crate::files::sweep_files;
use crate::gathering::{Source, gather};
use crate::kept::Kept;
use gate_base::Bytes;
use std::alloc::Global;
use swift_calls::Swift;
use upload_records::{segments_container, uploads_container};

/// What is kept of the segments of a bucket: those that its objects list, and those of its open uploads. At most a call for each page
/// of both containers, and eleven for each file in them, where the store is observable and its account consistent.
pub(crate) fn kept_of<W: Swift>(
    alloc: Global,
    store: &mut W,
    bucket: &Bytes,
) -> Result<Kept, SweepFault>
    requires { is_bucket bucket.now ≡ true }
    ensures asks { Asks (by_account (kept_calls (present (W.history store.old)) bucket.now))
        (W.history store.old) (W.history store.new) (HasSettled bucket.now)
        (TellsOf (TellsKept bucket.now)) (as_plan result) }
    ensures holds { HoldsKept bucket.now (W.history store.old) result }
    ensures leaves { LeavesThroughout (W.history store.old) (W.history store.new) }
{
    let uploads = uploads_container(alloc, bucket.as_slice())?;
    let opened = gather(alloc, store, bucket, &uploads, Source::Records)?;
    let listed = gather(alloc, store, bucket, bucket, Source::Objects)?;
    Ok(Kept { listed, opened })
}

/// Deletes the orphans beside a bucket that is there, and counts them, once all that it asks says that they may go. At most a call for
/// each page of the three containers of the bucket, and one more for each page of its segments, eleven for each of its objects and
/// records, and three for each segment, where the store is observable and its account consistent; and
/// the S3 state stays. Failed comes only where the store's count of faults rose; Memory where memory ran out; Inconsistent never over an
/// observable consistent account that is settled and has the bucket. After a fault what was deleted stays deleted.
#[tactic(auto, using(account_calls::proofs::lemmas::SideNames::segments_fits))]
pub fn sweep_segments<W: Swift>(
    alloc: Global,
    store: &mut W,
    bucket: &Bytes,
) -> Result<u64, SweepFault>
    requires { is_bucket bucket.now ≡ true }
    ensures counted { IfOk result (λ count. (W.history store.old).called + count ≤ (W.history store.new).called) }
    ensures fits { IfOk result (λ count. (W.history store.old).called + count < 2 ^ 64) }
    ensures asks { Asks (by_account (segments_calls (present (W.history store.old)) bucket.now))
        (W.history store.old) (W.history store.new) (HasSettled bucket.now)
        (SweepsSegments bucket.now) (as_plan result) }
    ensures heeds { HeedsThen bucket.now (W.history store.old) (W.history store.new) }
{
    let folder = segments_container(alloc, bucket.as_slice())?;
    let kept = kept_of(alloc, store, bucket)?;
    ask_segments(alloc, store, bucket, &folder, &kept)?;
    sweep_files(alloc, store, &folder, &kept)
}
