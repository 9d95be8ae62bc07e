//! The listing of the open uploads of a bucket.
ghost use Rattle.std.specs.Prelude.{◌≡◌, ◌<◌, ◌+◌, ◌&&◌, length, map, IfOk, OnOk};
ghost use Rattle.std.specs.List.{All};
ghost use Rattle.std.specs.FinMap.{entries};
ghost use Rattle.s3_names.specs.Id.{id_digits};
ghost use Rattle.s3_machine.specs.Items.{begins};
ghost use Rattle.s3_machine.specs.Shown.{IsShownUpload};
ghost use Rattle.s3_machine.specs.Uploads.{cut, is_upload_after, upload_place};
ghost use Rattle.swift_calls.specs.History.{present};
ghost use Rattle.account_calls.specs.Answers.{pages, records_of};
ghost use Rattle.account_calls.specs.Calls.{always, by_account, Asks, GivenOf, Tells};
ghost use Rattle.account_calls.specs.Lent.{Stays};
ghost use Rattle.account_calls.specs.Listing.{TellsOf};
ghost use Rattle.upload_calls.specs.Records.{InBucket, TellsUploads};
ghost use Rattle.plan_uploads.specs.Listing.{added, AddsRow, AllShown, HasRecord, HasRecords, TellsListed, TellsRow, TellsRows};

use account_calls::{PlanFault, Settled};
use gate_base::{Bytes, Copying, List, MOMENT_LIMIT, Memory};
use name_table::Table;
use s3_machine::{UploadItem, UploadsAsked, begins};
use s3_names::{BucketName, id_digits};
use std::alloc::Global;
use swift_calls::Swift;
use upload_calls::{get_record, record_ids};
use upload_texts::Record;

// ---- the uploads among them

/// Whether an upload of this key and id comes after the markers.
fn is_upload_after_markers(key_marker: &[u8], id_marker: &[u8], key: &[u8], id: &[u8]) -> bool
    ensures { result ≡ is_upload_after key_marker.now id_marker.now key.now id.now }
{
    key.cmp(key_marker).is_gt()
        || (key == key_marker && id_marker.len() > 0 && id.cmp(id_marker).is_gt())
}

/// Where an upload stands among others.
fn listed_upload_place(alloc: Global, key: &[u8], id: &[u8]) -> Result<Bytes, Memory>
    ensures { IfOk result (λ place. place ≡ upload_place key.now id.now) }
{
    let mut place = Bytes::from_slice(alloc, key)?;
    place.push(0)?;
    place.append(id)?;
    Ok(place)
}

/// Whether a listing that asks for this has an upload of this key and id.
fn is_listed(asked: &UploadsAsked, key: &[u8], id: &[u8]) -> bool
    ensures { result ≡ (begins asked.now.prefix key.now
        && is_upload_after asked.now.key_marker asked.now.id_marker key.now id.now) }
{
    begins(asked.prefix.as_slice(), key)
        && is_upload_after_markers(
            asked.key_marker.as_slice(),
            asked.id_marker.as_slice(),
            key,
            id,
        )
}

/// Adds a row at its place, unless one is there. Where memory runs out, the rows are as before.
fn add_open_upload_row(
    rows: &mut Table<UploadItem>,
    place: &[u8],
    item: UploadItem,
) -> Result<(), Memory>
    ensures { OnOk result (rows.new ≡ added (place.now, item) rows.old) }
{
    if rows.get(place).is_some() {
        return Ok(());
    }
    rows.put(place, item)
}

/// Adds an open upload, where it is listed.
fn add_open(
    alloc: Global,
    asked: &UploadsAsked,
    rows: &mut Table<UploadItem>,
    id: u128,
    key: Bytes,
    started: u64,
) -> Result<(), PlanFault>
    ensures due { AddsRow asked.now id key started rows.old rows.new result }
    ensures dated { AllShown rows.old → OnOk result (AllShown rows.new) }
{
    let digits = id_digits(id);
    if !is_listed(asked, key.as_slice(), &digits) {
        return Ok(());
    }
    if started >= MOMENT_LIMIT {
        return Err(PlanFault::Inconsistent);
    }
    let place = listed_upload_place(alloc, key.as_slice(), &digits)?;
    add_open_upload_row(rows, place.as_slice(), UploadItem { key, id, started })?;
    Ok(())
}

/// Adds the upload of an id, where it is open and listed. Inconsistent where the id was listed and has no record: no consistent
/// account gives both.
fn add_upload<W: Swift>(
    state: &mut Settled<'_, W>,
    bucket: &BucketName,
    asked: &UploadsAsked,
    rows: &mut Table<UploadItem>,
    id: u128,
) -> Result<(), PlanFault>
    ensures stays { Stays state.old state.new }
    ensures dated { AllShown rows.old → OnOk result (AllShown rows.new) }
    ensures asks { Asks (always 1) (W.history state.old.store.now) (W.history state.new.store.now)
        (GivenOf (HasRecord bucket.now id)) (TellsOf (TellsRow asked.now bucket.now id rows.old rows.new)) result }
{
    let alloc = state.alloc;
    match get_record(state, bucket, id)? {
        Some(Record::Open { key, started, .. }) => add_open(alloc, asked, rows, id, key, started),
        Some(Record::Done { .. }) => Ok(()),
        None => Err(PlanFault::Inconsistent),
    }
}

/// The uploads of these ids, where they are open and listed.
fn open_uploads_of_ids<W: Swift>(
    state: &mut Settled<'_, W>,
    bucket: &BucketName,
    asked: &UploadsAsked,
    ids: &[u128],
) -> Result<Table<UploadItem>, PlanFault>
    ensures stays { Stays state.old state.new }
    ensures dated { IfOk result AllShown }
    ensures asks { Asks (always (length ids.now)) (W.history state.old.store.now) (W.history state.new.store.now)
        (GivenOf (HasRecords bucket.now ids.now)) (TellsOf (TellsRows asked.now bucket.now ids.now)) result }
{
    let alloc = state.alloc;
    let mut rows = Table::new(alloc);
    for id in ids {
        add_upload(state, bucket, asked, &mut rows, *id)?;
    }
    Ok(rows)
}

// ---- the listing

/// The items in the order of their places.
fn open_uploads_in_order(
    alloc: Global,
    rows: &Table<UploadItem>,
) -> Result<List<UploadItem>, Memory>
    ensures { IfOk result (λ items. items ≡ map (λ row. row.1) (entries rows.now)) }
{
    let mut items = List::new(alloc);
    for (_place, item) in rows.as_map() {
        items.push(item.copy()?)?;
    }
    Ok(items)
}

/// The first items, and whether one is left over; where none is asked for, none is.
fn first_listed_uploads(items: List<UploadItem>, max: u32) -> (List<UploadItem>, bool)
    ensures cut { result ≡ cut max items }
    ensures dated { All IsShownUpload items → All IsShownUpload result.0 }
{
    let max = max as usize;
    let more = 0 < max && max < items.len();
    let mut items = items.into_vec();
    items.truncate(max);
    (List::from_vec(items), more)
}

/// All open uploads of a bucket that are listed, by their places.
fn open_uploads_of_bucket<W: Swift>(
    state: &mut Settled<'_, W>,
    bucket: &BucketName,
    asked: &UploadsAsked,
) -> Result<Table<UploadItem>, PlanFault>
    ensures stays { Stays state.old state.new }
    ensures dated { IfOk result AllShown }
    ensures asks { Asks (by_account (pages (records_of (present (W.history state.old.store.now)) bucket.now)
        + records_of (present (W.history state.old.store.now)) bucket.now))
        (W.history state.old.store.now) (W.history state.new.store.now)
        (GivenOf (InBucket bucket.now)) (TellsOf (TellsListed asked.now bucket.now)) result }
{
    bucket.fits();
    let ids = record_ids(state, bucket)?;
    open_uploads_of_ids(state, bucket, asked, ids.as_slice())
}

/// The first open uploads of a bucket after two markers, whose keys begin with a prefix, at most so many, by key and then by id,
/// and whether one is left over (Amazon S3 API Reference, "ListMultipartUploads"): the names of all records page by page, and
/// GET of each. At most as many calls as there are pages and records, where the store is observable and its account consistent;
/// and the S3 state stays. Failed comes only where the store's count of faults rose; Memory where memory ran out; Inconsistent
/// never over an observable consistent account on which the bucket is there.
pub(crate) fn list_uploads<W: Swift>(
    state: &mut Settled<'_, W>,
    bucket: &BucketName,
    asked: &UploadsAsked,
) -> Result<(List<UploadItem>, bool), PlanFault>
    ensures stays { Stays state.old state.new }
    ensures dated { IfOk result (λ told. All IsShownUpload told.0) }
    ensures asks { Asks (by_account (pages
        (records_of (present (W.history state.old.store.now)) bucket.now) + records_of
        (present (W.history state.old.store.now)) bucket.now)) (W.history state.old.store.now)
        (W.history state.new.store.now) (GivenOf (InBucket bucket.now))
        (Tells (TellsUploads bucket.now asked.now.prefix asked.now.key_marker
        asked.now.id_marker asked.now.max)) result }
{
    let alloc = state.alloc;
    if asked.max == 0 {
        return Ok((List::new(alloc), false));
    }
    list_asked_uploads(state, bucket, asked)
}

/// The same by what is asked, of more than none.
fn list_asked_uploads<W: Swift>(
    state: &mut Settled<'_, W>,
    bucket: &BucketName,
    asked: &UploadsAsked,
) -> Result<(List<UploadItem>, bool), PlanFault>
    ensures stays { Stays state.old state.new }
    ensures dated { IfOk result (λ told. All IsShownUpload told.0) }
    ensures asks { Asks (by_account (pages
        (records_of (present (W.history state.old.store.now)) bucket.now) + records_of
        (present (W.history state.old.store.now)) bucket.now)) (W.history state.old.store.now)
        (W.history state.new.store.now) (GivenOf (InBucket bucket.now))
        (Tells (TellsUploads bucket.now asked.now.prefix asked.now.key_marker
        asked.now.id_marker asked.now.max)) result }
{
    let alloc = state.alloc;
    bucket.fits();
    let rows = open_uploads_of_bucket(state, bucket, asked)?;
    let items = open_uploads_in_order(alloc, &rows)?;
    Ok(first_listed_uploads(items, asked.max))
}
