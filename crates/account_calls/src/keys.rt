//! The listing of a bucket's objects: the names of its container page by page, rolled up as they come.
ghost use Rattle.std.specs.Prelude.{◌≡◌, ◌<◌, ◌+◌, true, false, map, IfOk, Ok};
ghost use Rattle.std.specs.List.{All};
ghost use Rattle.s3_machine.specs.Shown.{IsShownItem};
ghost use Rattle.s3_machine.specs.Limits.{is_listing_text};
ghost use Rattle.s3_machine.specs.Proper.{IsProperAsked};
ghost use Rattle.swift_calls.specs.History.{budget, present};
ghost use Rattle.swift_calls.specs.Limits.{IsMarker};
ghost use Rattle.upload_records.specs.Native.{IsSettled};
ghost use Rattle.list_pages.specs.Listing.{name_in, IsPageOf};
ghost use Rattle.account_calls.specs.Answers.{pages_listed};
ghost use Rattle.account_calls.specs.Calls.{always, by_account, Asks, Tells};
ghost use Rattle.account_calls.specs.Keys.{StandsBehind, TellsKeys, TellsListing, TellsTaken};
ghost use Rattle.account_calls.specs.Lent.{Stays};
ghost use Rattle.account_calls.specs.Listing.{TellsOf};

use crate::{PlanFault, Settled};
use gate_base::{Bytes, List};
use list_pages::{MOST_NAMES, Roll, names};
use s3_machine::{Asked, Item, ObjectListing};
use s3_names::BucketName;
use swift_calls::{NameItem, Swift};

/// A page of the keys of a bucket that begin with a prefix and come after a marker, by GET of its container (Object Storage
/// API v1, "Show container details and list objects").
#[tactic(auto, using(crate::proofs::KeyPages::page_fits))]
fn page<W: Swift>(
    state: &mut Settled<'_, W>,
    bucket: &BucketName,
    prefix: &Bytes,
    marker: &[u8],
) -> Result<List<NameItem>, PlanFault>
    requires prefix { IsMarker prefix.now }
    requires marker { IsMarker marker.now }
    ensures stays { Stays state.old state.new }
    ensures counted { IfOk result (λ _. (W.history state.old.store.now).called < budget
        × ((W.history state.new.store.now).called ≡ (W.history state.old.store.now).called + 1)) }
    ensures page { IfOk result (λ items. IsPageOf prefix.now marker.now (map name_in items)) }
    ensures asks { Asks (always 1) (W.history state.old.store.now) (W.history state.new.store.now)
        IsSettled (TellsOf (TellsKeys bucket.now prefix.now marker.now)) result }
{
    let alloc = state.alloc;
    Ok(names(
        alloc,
        state.store,
        bucket.bytes(),
        prefix.as_slice(),
        marker,
    )?)
}

/// Takes the next page of keys, of a listing that wants items and is not full yet. What is told is whether another is
/// wanted. It is asked for behind the last key, or behind all keys of the common prefix that this one rolls up into.
fn take_page<W: Swift>(
    state: &mut Settled<'_, W>,
    bucket: &BucketName,
    prefix: &Bytes,
    roll: &mut Roll,
) -> Result<bool, PlanFault>
    requires prefix { IsMarker prefix.now }
    requires same { roll.old.wanted.prefix ≡ prefix.now }
    requires delimiter { is_listing_text roll.old.wanted.delimiter ≡ true }
    requires stands { StandsBehind roll.old }
    requires wants { 0 < roll.old.wanted.max }
    requires room { roll.old.more ≡ false }
    ensures stays { Stays state.old state.new }
    ensures counted { IfOk result (λ _. (W.history state.old.store.now).called < budget
        × ((W.history state.new.store.now).called ≡ (W.history state.old.store.now).called + 1)) }
    ensures wanted { roll.new.wanted ≡ roll.old.wanted }
    ensures room { result ≡ Ok true → roll.new.more ≡ false }
    ensures stands { result ≡ Ok true → StandsBehind roll.new }
    ensures asks { Asks (always 1) (W.history state.old.store.now) (W.history state.new.store.now)
        IsSettled (TellsOf (TellsTaken bucket.now prefix.now roll.old roll.new)) result }
{
    let page = page(state, bucket, prefix, roll.next_marker())?;
    if !roll.push_page(page.as_slice())? {
        return Ok(false);
    }
    if page.len() < MOST_NAMES as usize {
        return Ok(false);
    }
    roll.jump()?;
    Ok(true)
}

/// The items of a listing of a bucket's objects, and whether it is truncated (Amazon S3 API Reference, "ListObjects"): the
/// keys of the bucket page by page, until the answer is full or a page is short; where no item is wanted, no page. Of the
/// keys of a common prefix only those on the page are read on which it is first met. At most as many calls as there are
/// pages of the bucket's objects, and at most one more than items are shown, where the store is observable and its account
/// consistent; and the S3 state stays. One page is held at a time. Failed comes only where the store's count of faults
/// rose; Memory where memory ran out; Inconsistent never over an observable consistent account.
pub fn list_objects<W: Swift>(
    state: &mut Settled<'_, W>,
    listing: &ObjectListing,
) -> Result<(List<Item>, bool), PlanFault>
    ensures stays { Stays state.old state.new }
    ensures dated { IfOk result (λ told. All IsShownItem told.0) }
    ensures asks { Asks
        (by_account (pages_listed listing.now.bucket listing.now.asked
        (present (W.history state.old.store.now))))
        (W.history state.old.store.now) (W.history state.new.store.now) IsSettled
        (Tells (TellsListing listing.now.bucket listing.now.asked)) result }
{
    listed_objects(state, &listing.bucket, listing.asked.get())
}

/// The same, of what is asked for within the limits.
#[tactic(auto, using(crate::proofs::AskedMarkers::prefix_is_marker))]
fn listed_objects<W: Swift>(
    state: &mut Settled<'_, W>,
    bucket: &BucketName,
    asked: &Asked,
) -> Result<(List<Item>, bool), PlanFault>
    requires asked { IsProperAsked asked.now }
    ensures stays { Stays state.old state.new }
    ensures dated { IfOk result (λ told. All IsShownItem told.0) }
    ensures asks { Asks
        (by_account (pages_listed bucket.now asked.now (present (W.history state.old.store.now))))
        (W.history state.old.store.now) (W.history state.new.store.now) IsSettled
        (Tells (TellsListing bucket.now asked.now)) result }
{
    let alloc = state.alloc;
    bucket.fits();
    let mut roll = Roll::new(alloc, asked)?;
    if asked.max == 0 {
        return Ok(roll.finish());
    }
    'pages: loop {
        if !take_page(state, bucket, &asked.prefix, &mut roll)? {
            return Ok(roll.finish());
        }
    }
}
