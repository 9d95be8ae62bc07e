//! A survey of an account: what stands on it is counted, and nothing changed.
ghost use Rattle.std.specs.Prelude.{◌≡◌, true, IfOk, IfSome};
ghost use Rattle.std.specs.FinMap.{len};
ghost use Rattle.swift_calls.specs.History.{present};
ghost use Rattle.upload_texts.specs.Sealed.{has_sealed_text};
ghost use Rattle.account_calls.specs.Answers.{pages};
ghost use Rattle.account_calls.specs.Calls.{always, by_account, Any, Asks};
ghost use Rattle.account_calls.specs.Listing.{TellsNames, TellsOf};
ghost use Rattle.account_calls.specs.Told.{LeavesThroughout};
ghost use Rattle.sweep.specs.Surveying.{plus, share_calls, shares_calls, HasName, HasAllNames, TellsSealed, TellsShares, TellsSum};
ghost use Rattle.sweep.specs.Swept.{SurveysAccount};
ghost use Rattle.leftovers.specs.Faults.{as_plan};

use crate::file_counts::add_counts;
use crate::sealed::get_sealed;
use crate::shares::survey_name;
use account_calls::container_names;
use gate_base::{Bytes, List, Memory};
use leftovers::{SweepFault, file_fault};
use std::alloc::Global;
use swift_calls::Swift;
use upload_texts::Sealed;

/// What stands on an account, a completion that is sealed not laid over.
#[derive(Clone, Copy, Debug, PartialEq, Eq)]
pub struct Surveyed {
    /// The containers of buckets.
    pub buckets: u64,
    /// The objects in them.
    pub objects: u64,
    /// The open uploads of buckets that are there.
    pub uploads: u64,
    /// The kept completions of buckets that are there.
    pub kept: u64,
    /// The segments that nothing uses.
    pub orphans: u64,
    /// Whether a completion is sealed.
    pub sealed: bool,
}

/// The counts of two surveys together.
fn plus(a: &Surveyed, b: &Surveyed) -> Result<Surveyed, Memory>
    ensures { IfOk result (λ sum. sum ≡ plus a.now b.now) }
{
    let buckets = add_counts(a.buckets, b.buckets)?;
    let objects = add_counts(a.objects, b.objects)?;
    let uploads = add_counts(a.uploads, b.uploads)?;
    let kept = add_counts(a.kept, b.kept)?;
    let orphans = add_counts(a.orphans, b.orphans)?;
    Ok(Surveyed {
        buckets,
        objects,
        uploads,
        kept,
        orphans,
        sealed: a.sealed,
    })
}

/// Adds what a container has.
fn add_share<W: Swift>(
    alloc: Global,
    store: &mut W,
    sealed: &Option<Sealed>,
    name: &Bytes,
    total: &Surveyed,
) -> Result<Surveyed, SweepFault>
    requires { IfSome sealed.now (λ s. has_sealed_text s ≡ true) }
    ensures asks { Asks (by_account (share_calls (present (W.history store.old)) name.now))
        (W.history store.old) (W.history store.new) (HasName sealed.now name.now)
        (TellsOf (TellsSum total.now name.now)) (as_plan result) }
    ensures leaves { LeavesThroughout (W.history store.old) (W.history store.new) }
{
    let share = survey_name(alloc, store, sealed, name)?;
    Ok(plus(total, &share)?)
}

/// What the containers of these names have together.
fn survey_names<W: Swift>(
    alloc: Global,
    store: &mut W,
    sealed: &Option<Sealed>,
    names: &[Bytes],
) -> Result<Surveyed, SweepFault>
    requires { IfSome sealed.now (λ s. has_sealed_text s ≡ true) }
    ensures asks { Asks (by_account (shares_calls (present (W.history store.old)) names.now))
        (W.history store.old) (W.history store.new) (HasAllNames sealed.now names.now)
        (TellsOf (TellsShares names.now)) (as_plan result) }
    ensures leaves { LeavesThroughout (W.history store.old) (W.history store.new) }
{
    let mut total = Surveyed {
        buckets: 0,
        objects: 0,
        uploads: 0,
        kept: 0,
        orphans: 0,
        sealed: false,
    };
    for name in names {
        total = add_share(alloc, store, sealed, name, &total)?;
    }
    Ok(total)
}

/// What is sealed, with a fault that names its file.
fn survey_sealed<W: Swift>(alloc: Global, store: &mut W) -> Result<Option<Sealed>, SweepFault>
    ensures asks { Asks (always 1) (W.history store.old) (W.history store.new) Any
        (TellsOf TellsSealed) (as_plan result) }
    ensures has { IfOk result (λ found. IfSome found (λ s. has_sealed_text s ≡ true)) }
    ensures leaves { LeavesThroughout (W.history store.old) (W.history store.new) }
{
    match get_sealed(alloc, store) {
        Ok(found) => Ok(found),
        Err(fault) => Err(file_fault(alloc, fault, b"+gateway", b"sealed")),
    }
}

/// The names of all containers, with a fault that names none.
fn survey_containers<W: Swift>(alloc: Global, store: &mut W) -> Result<List<Bytes>, SweepFault>
    ensures asks { Asks (by_account (pages (len (present (W.history store.old)))))
        (W.history store.old) (W.history store.new) Any (TellsOf TellsNames) (as_plan result) }
    ensures leaves { LeavesThroughout (W.history store.old) (W.history store.new) }
{
    match container_names(alloc, store) {
        Ok(names) => Ok(names),
        Err(fault) => Err(file_fault(alloc, fault, b"", b"")),
    }
}

/// Counts what stands on an account, by calls that write nothing: at each of them the account is as it was, consistent
/// or not. At most 4 calls, and 16 for each container and each object in them,
/// where the store is observable and its account consistent. Failed comes only where the store's count of faults rose; Memory where
/// memory ran out, or 64 bits don't hold a count; Inconsistent never over an observable consistent account. It names
/// the file that was asked for and its container; the container alone, where its listing or its HEAD was at fault; and nothing,
/// where the listing of the account was.
pub fn survey<W: Swift>(alloc: Global, store: &mut W) -> Result<Surveyed, SweepFault>
    ensures asks { SurveysAccount (W.history store.old) (W.history store.new) result }
    ensures leaves { LeavesThroughout (W.history store.old) (W.history store.new) }
{
    let sealed = survey_sealed(alloc, store)?;
    let names = survey_containers(alloc, store)?;
    let told = survey_names(alloc, store, &sealed, names.as_slice())?;
    Ok(Surveyed {
        buckets: told.buckets,
        objects: told.objects,
        uploads: told.uploads,
        kept: told.kept,
        orphans: told.orphans,
        sealed: sealed.is_some(),
    })
}
