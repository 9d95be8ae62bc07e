//! The ids of the records of a bucket, page by page.
ghost use Rattle.std.specs.Prelude.{[], ◌≡◌, ◌<◌, ◌+◌, IfOk, IfSome};
ghost use Rattle.swift_calls.specs.History.{budget, present};
ghost use Rattle.swift_calls.specs.Limits.{IsMarker};
ghost use Rattle.upload_records.specs.Layout.{uploads_name};
ghost use Rattle.account_calls.specs.Answers.{pages, records_of};
ghost use Rattle.account_calls.specs.Calls.{always, by_account, Asks, GivenOf};
ghost use Rattle.account_calls.specs.Lent.{Stays};
ghost use Rattle.account_calls.specs.Listing.{TellsOf};
ghost use Rattle.upload_calls.specs.Listing.{id_due, Adds, TellsIds, TellsNext};
ghost use Rattle.upload_calls.specs.Records.{InBucket};

use account_calls::{PlanFault, Settled, next_marker, settled_file_page};
use gate_base::{Bytes, List};
use s3_names::{BucketName, read_id_digits};
use swift_calls::{NameItem, Swift};
use upload_records::uploads_container;

/// Adds the ids that the names of a page write.
fn add_ids(ids: &mut List<u128>, page: &[NameItem]) -> Result<(), PlanFault>
    ensures { Adds id_due ids.old ids.new page.now result }
{
    for item in page {
        let Some(id) = read_id_digits(item.name.as_slice()) else {
            return Err(PlanFault::Inconsistent);
        };
        ids.push(id)?;
    }
    Ok(())
}

/// Adds a page of ids. What is told is the marker of the next page, and `None` after the last one.
fn next_record_ids<W: Swift>(
    state: &mut Settled<'_, W>,
    bucket: &BucketName,
    marker: &Bytes,
    ids: &mut List<u128>,
) -> Result<Option<Bytes>, PlanFault>
    requires marker { IsMarker marker.now }
    ensures stays { Stays state.old state.new }
    ensures counted { IfOk result (λ _. (W.history state.old.store.now).called < budget
        × ((W.history state.new.store.now).called ≡ (W.history state.old.store.now).called + 1)) }
    ensures is_marker { IfOk result (λ next. IfSome next IsMarker) }
    ensures asks { Asks (always 1) (W.history state.old.store.now) (W.history state.new.store.now)
        (GivenOf (InBucket bucket.now))
        (TellsOf (TellsNext id_due (uploads_name bucket.now) [] marker.now ids.old ids.new))
        result }
{
    let alloc = state.alloc;
    let folder = uploads_container(alloc, bucket.bytes())?;
    let page = settled_file_page(state, folder.as_slice(), b"", marker.as_slice())?;
    add_ids(ids, page.as_slice())?;
    Ok(next_marker(page.as_slice())?)
}

/// The ids of all records of a bucket, page by page.
pub fn record_ids<W: Swift>(
    state: &mut Settled<'_, W>,
    bucket: &BucketName,
) -> Result<List<u128>, PlanFault>
    ensures stays { Stays state.old state.new }
    ensures asks { Asks (by_account (pages (records_of (present (W.history state.old.store.now)) bucket.now)))
        (W.history state.old.store.now) (W.history state.new.store.now)
        (GivenOf (InBucket bucket.now)) (TellsOf (TellsIds bucket.now)) result }
{
    let alloc = state.alloc;
    let mut ids = List::new(alloc);
    let mut behind = Bytes::new(alloc);
    'pages: loop {
        match next_record_ids(state, bucket, &behind, &mut ids)? {
            Some(next) => behind = next,
            None => return Ok(ids),
        }
    }
}
