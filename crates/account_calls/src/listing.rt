//! The listing of the buckets: the names of the containers page by page, and HEAD of each that is a bucket's.
ghost use Rattle.std.specs.Prelude.{◌≡◌, ◌≢◌, ◌<◌, ◌++◌, ◌+◌, true, length, IfOk, OnOk, Err, Ok};
ghost use Rattle.std.specs.List.{All, filter};
ghost use Rattle.std.specs.FinMap.{len};
ghost use Rattle.gate_base.specs.Told.{moment_limit};
ghost use Rattle.s3_names.specs.Bucket.{is_bucket};
ghost use Rattle.s3_machine.specs.Shown.{IsShownBucket};
ghost use Rattle.swift_calls.specs.History.{budget, present};
ghost use Rattle.upload_records.specs.Native.{IsSettled, s3_state};
ghost use Rattle.account_calls.specs.Answers.{pages};
ghost use Rattle.account_calls.specs.Calls.{always, by_account, Any, Asks, Tells};
ghost use Rattle.account_calls.specs.Lent.{Stays};
ghost use Rattle.account_calls.specs.Told.{LeavesThroughout};
ghost use Rattle.account_calls.specs.Listing.{
  ascends,
  created_due,
  Has,
  HasNames,
  heads,
  MayListAfter,
  NamesContainers,
  names_due,
  next_marker,
  TellsAdded,
  TellsBuckets,
  TellsCreated,
  TellsItem,
  TellsItems,
  TellsNames,
  TellsNext,
  TellsOf,
  TellsPage,
};
ghost use Rattle.account_calls.specs.declared.fault.PlanFault.TheVariants as fault;

use crate::state::ask;
use crate::{PlanFault, Settled};
use gate_base::{Bytes, Copying, List, MOMENT_LIMIT, Memory, drop};
use s3_machine::BucketItem;
use s3_names::is_bucket;
use std::alloc::Global;
use swift_calls::{Swift, SwiftReply, SwiftRequest, is_fit};

/// How many names a page has at most.
const MOST_NAMES: u32 = 1000;

/// A page of the names of the containers after a marker, by GET of the account (Object Storage API v1, "Show account
/// details and list containers").
fn container_names_page<W: Swift>(store: &mut W, marker: &Bytes) -> Result<List<Bytes>, PlanFault>
    ensures counted { IfOk result (λ _. (W.history store.old).called < budget
        × ((W.history store.new).called ≡ (W.history store.old).called + 1)) }
    ensures asks { Asks (always 1) (W.history store.old) (W.history store.new)
        (MayListAfter marker.now) (TellsOf (TellsPage marker.now)) result }
    ensures leaves { LeavesThroughout (W.history store.old) (W.history store.new) }
    ensures there { NamesContainers (W.history store.old) result }
{
    let request = SwiftRequest::ListContainers {
        marker: marker.copy()?,
        limit: MOST_NAMES,
    };
    if !is_fit(&request) {
        drop(request);
        return Err(PlanFault::Inconsistent);
    }
    let reply = ask(store, request)?;
    interpret_container_names(marker.as_slice(), reply)
}

/// The answer to GET of the account: at most as many names as a page has, which ascend strictly in the order of their bytes
/// and come after the marker. Any other answer is inconsistent.
fn interpret_container_names(marker: &[u8], reply: SwiftReply) -> Result<List<Bytes>, PlanFault>
    ensures due { result ≡ names_due marker.now reply }
    ensures own { result ≢ Err fault.Failed }
{
    match reply {
        SwiftReply::Containers(names) => {
            if names.len() > MOST_NAMES as usize || !ascends(marker, names.as_slice()) {
                return Err(PlanFault::Inconsistent);
            }
            Ok(names)
        }
        _ => Err(PlanFault::Inconsistent),
    }
}

/// Whether each name comes after the one before it, and the first after the marker.
fn ascends(marker: &[u8], names: &[Bytes]) -> bool
    ensures { result ≡ ascends marker.now names.now }
{
    let mut last = marker;
    for name in names {
        if !last.cmp(name.as_slice()).is_lt() {
            return false;
        }
        last = name.as_slice();
    }
    true
}

/// Adds a page of names. What is told is the marker of the next page, and `None` after the last one.
fn add_container_names_page<W: Swift>(
    store: &mut W,
    names: &mut List<Bytes>,
    marker: &Bytes,
) -> Result<Option<Bytes>, PlanFault>
    ensures counted { IfOk result (λ _. (W.history store.old).called < budget
        × ((W.history store.new).called ≡ (W.history store.old).called + 1)) }
    ensures asks { Asks (always 1) (W.history store.old) (W.history store.new)
        (MayListAfter marker.now) (TellsOf (TellsNext marker.now names.old names.new)) result }
    ensures leaves { LeavesThroughout (W.history store.old) (W.history store.new) }
    ensures there { NamesContainers (W.history store.old) (Ok names.old)
        → IfOk result (λ _. NamesContainers (W.history store.old) (Ok names.new)) }
{
    let page = container_names_page(store, marker)?;
    add_container_names(names, page.as_slice())?;
    Ok(next_marker(page.as_slice())?)
}

fn add_container_names(names: &mut List<Bytes>, page: &[Bytes]) -> Result<(), Memory>
    ensures { OnOk result (names.new ≡ names.old ++ page.now) }
{
    for name in page {
        names.push(name.copy()?)?;
    }
    Ok(())
}

/// The last name of a whole page.
fn next_marker(page: &[Bytes]) -> Result<Option<Bytes>, Memory>
    ensures { IfOk result (λ marker. marker ≡ next_marker page.now) }
{
    if page.len() < MOST_NAMES as usize {
        return Ok(None);
    }
    match page.last() {
        Some(name) => Ok(Some(name.copy()?)),
        None => Ok(None),
    }
}

/// The bucket of a container that is there, by HEAD of it (Object Storage API v1, "Show container metadata").
fn head_bucket_item<W: Swift>(
    state: &mut Settled<'_, W>,
    bucket: &Bytes,
) -> Result<BucketItem, PlanFault>
    requires { is_bucket bucket.now ≡ true }
    ensures stays { Stays state.old state.new }
    ensures dated { IfOk result IsShownBucket }
    ensures asks { Asks (always 1) (W.history state.old.store.now) (W.history state.new.store.now)
        (Has bucket.now) (TellsOf (TellsItem bucket.now)) result }
{
    let name = bucket.copy()?;
    let created = head_bucket_moment(state, bucket)?;
    Ok(BucketItem { name, created })
}

#[tactic(auto, using(crate::proofs::lemmas::Names::container_name))]
fn head_bucket_moment<W: Swift>(
    state: &mut Settled<'_, W>,
    bucket: &Bytes,
) -> Result<u64, PlanFault>
    requires { is_bucket bucket.now ≡ true }
    ensures stays { Stays state.old state.new }
    ensures dated { IfOk result (λ moment. moment < moment_limit) }
    ensures asks { Asks (always 1) (W.history state.old.store.now) (W.history state.new.store.now)
        (Has bucket.now) (TellsOf (TellsCreated bucket.now)) result }
{
    let reply = ask(
        state.store,
        SwiftRequest::HeadContainer {
            container: bucket.copy()?,
        },
    )?;
    interpret_bucket_moment(&reply)
}

/// The answer to HEAD of a container that is there.
fn interpret_bucket_moment(reply: &SwiftReply) -> Result<u64, PlanFault>
    ensures due { result ≡ created_due reply.now }
    ensures own { result ≢ Err fault.Failed }
    ensures dated { IfOk result (λ moment. moment < moment_limit) }
{
    match reply {
        SwiftReply::Readers {
            created: Some(moment),
            ..
        } if *moment < MOMENT_LIMIT => Ok(*moment),
        _ => Err(PlanFault::Inconsistent),
    }
}

/// Adds the bucket of a container, where it is a bucket's.
fn add_bucket_of_container<W: Swift>(
    state: &mut Settled<'_, W>,
    items: &mut List<BucketItem>,
    name: &Bytes,
) -> Result<(), PlanFault>
    ensures stays { Stays state.old state.new }
    ensures dated { All IsShownBucket items.old → OnOk result (All IsShownBucket items.new) }
    ensures asks { Asks (always (heads name.now)) (W.history state.old.store.now) (W.history state.new.store.now)
        (Has name.now) (TellsOf (TellsAdded name.now items.old items.new)) result }
{
    if !is_bucket(name.as_slice()) {
        return Ok(());
    }
    let item = head_bucket_item(state, name)?;
    items.push(item)?;
    Ok(())
}

/// The buckets among the containers of these names.
fn buckets_of_containers<W: Swift>(
    state: &mut Settled<'_, W>,
    names: &[Bytes],
) -> Result<List<BucketItem>, PlanFault>
    ensures stays { Stays state.old state.new }
    ensures dated { IfOk result (All IsShownBucket) }
    ensures asks { Asks (always (length (filter is_bucket names.now)))
        (W.history state.old.store.now) (W.history state.new.store.now) (HasNames names.now)
        (TellsOf (TellsItems names.now)) result }
{
    let alloc = state.alloc;
    let mut items = List::new(alloc);
    for name in names {
        add_bucket_of_container(state, &mut items, name)?;
    }
    Ok(items)
}

/// The buckets by name in byte order, each with the moment at which it was made: the names of the containers page by page,
/// and then HEAD of each that is a bucket's. At most as many calls as there are pages and buckets, where the store is
/// observable and its account consistent; and the S3 state stays. Failed comes only where the store's count of faults
/// rose; Memory where memory ran out; Inconsistent never over an observable consistent account.
pub fn list_buckets<W: Swift>(state: &mut Settled<'_, W>) -> Result<List<BucketItem>, PlanFault>
    ensures stays { Stays state.old state.new }
    ensures dated { IfOk result (All IsShownBucket) }
    ensures asks { Asks (by_account (pages (len (present (W.history state.old.store.now))) + len
        (s3_state (present (W.history state.old.store.now))))) (W.history state.old.store.now)
        (W.history state.new.store.now) IsSettled (Tells TellsBuckets) result }
{
    let alloc = state.alloc;
    let names = container_names(alloc, state.store)?;
    buckets_of_containers(state, names.as_slice())
}

/// The names of all containers in byte order, page by page, be a completion sealed or not. At most as many calls as there are
/// pages of names, where the store is observable and its account consistent; and at each of them the account is as it was,
/// consistent or not, and has the containers of these names. Faults as
/// for [`list_buckets`].
pub fn container_names<W: Swift>(alloc: Global, store: &mut W) -> Result<List<Bytes>, PlanFault>
    ensures asks { Asks (by_account (pages (len (present (W.history store.old)))))
        (W.history store.old) (W.history store.new) Any
        (TellsOf TellsNames) result }
    ensures leaves { LeavesThroughout (W.history store.old) (W.history store.new) }
    ensures there { NamesContainers (W.history store.old) result }
{
    let mut names = List::new(alloc);
    let mut marker = Bytes::new(alloc);
    'pages: loop {
        match add_container_names_page(store, &mut names, &marker)? {
            Some(next) => marker = next,
            None => return Ok(names),
        }
    }
}
