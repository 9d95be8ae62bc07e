//! A sweep of an account: what is left over is removed, and counted.
ghost use Rattle.sweep.specs.Swept.{SweepsAccount, SweepsBefore};

use crate::forget_walk::sweep_names_before;
use account_calls::container_names;
use leftovers::{SweepFault, file_fault};
use std::alloc::Global;
use swift_calls::Swift;

/// What a sweep removed.
#[derive(Clone, Copy, Debug, PartialEq, Eq)]
pub struct Swept {
    /// Segments that nothing used.
    pub segments: u64,
    /// Records beside a bucket that is missing.
    pub records: u64,
    /// Containers beside a bucket that is missing.
    pub containers: u64,
    /// Records of completions that got their moment.
    pub migrated: u64,
    /// Completions that were forgotten.
    pub forgotten: u64,
}

/// Removes what is left over on a settled account, and counts it; it forgets nothing, and the S3 state stays. The record of each kept
/// completion that lacks its moment gets the start of its upload as it. Calls and faults as for [`sweep_before`], of which it is the case
/// that no moment is before.
pub fn sweep<W: Swift>(alloc: Global, store: &mut W) -> Result<Swept, SweepFault>
    ensures before { SweepsBefore 0 (W.history store.old) (W.history store.new) result }
    ensures asks { SweepsAccount (W.history store.old) (W.history store.new) result }
{
    sweep_before(alloc, store, 0)
}

/// Forgets the kept completions of a settled account from before a moment, in seconds since the beginning of 1970, by bucket and then by
/// id in byte order; the record of each other completion that lacks its moment gets the start of its upload as it. Then it removes what is
/// left over, container by container in the order of their names. All of these are counted. At most 4 calls, and 16 for each container and
/// each object in them, where the store is observable and its account consistent. Failed comes only where the store's count of faults
/// rose; Memory where memory ran out; Inconsistent, with the file that was asked for and its container, never over an
/// observable consistent account that is settled. After a fault what was done stays done. The names of all containers are held, and of one
/// bucket at a time a page of names, one record or one list of segments, the ids of its open uploads and the names that its objects list.
pub fn sweep_before<W: Swift>(
    alloc: Global,
    store: &mut W,
    before: u64,
) -> Result<Swept, SweepFault>
    ensures { SweepsBefore before (W.history store.old) (W.history store.new) result }
{
    match container_names(alloc, store) {
        Ok(names) => sweep_names_before(alloc, store, names.as_slice(), before),
        Err(fault) => Err(file_fault(alloc, fault, b"", b"")),
    }
}
