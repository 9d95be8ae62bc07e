//! What a sweep remembers of a bucket, gathered from the files of a container page by page.
ghost use Rattle.std.specs.Prelude.{◌≡◌, ◌<◌, ◌≤◌, ◌+◌, ◌*◌, ◌||◌, ℕ, List, [], ◌∷◌, length, map, true, is_some, IfErr, IfOk, IfSome, IsTrue, OnOk, Err, Some};
ghost use Rattle.std.specs.List.{list_all, AllByRecursion};
ghost use Rattle.std.specs.FinMap.{get};
ghost use Rattle.s3_names.specs.Bucket.{is_bucket};
ghost use Rattle.s3_names.specs.Key.{is_key};
ghost use Rattle.list_pages.specs.Listing.{name_in};
ghost use Rattle.swift_calls.specs.History.{budget, present};
ghost use Rattle.swift_calls.specs.Limits.{IsMarker};
ghost use Rattle.swift_calls.specs.Step.{IsContainerName};
ghost use Rattle.swift_marks.specs.Tag.{read_stamp};
ghost use Rattle.upload_records.specs.Layout.{segments_name};
ghost use Rattle.account_calls.specs.Calls.{always, by_account, Asks};
ghost use Rattle.account_calls.specs.Listing.{TellsOf};
ghost use Rattle.account_calls.specs.Told.{LeavesThroughout};
ghost use Rattle.account_calls.specs.declared.fault.PlanFault.TheVariants as fault;
ghost use Rattle.leftovers.specs.Faults.{as_plan, NamesFile};
ghost use Rattle.leftovers.specs.Gathering.{calls_a_file, folder_of, gather_calls, sub_manifests_in, AreKnown, HasInner, HasItem, HasItems, HasListing, HasRecord, InBucket, IsKnown, PaysGathering, TellsAdded, TellsAll, TellsGathered, TellsInner, TellsListing, TellsNamed, TellsOpen};
ghost use Rattle.leftovers.specs.Leftovers.{is_named_in, is_open, is_sub_manifest_name};
ghost use Rattle.leftovers.specs.Lists.{item_id, nothing_due, AreHeld, AreItemsHeld, HasName, HoldsAll, IsHeld, IsInnerHeld, IsItemHeld, IsObjectHeldByStamp, IsPageHeld, IsRecordHeld, SaysInner, SaysListing, SaysObject, SaysOfId, SaysOpen, Stays};
ghost use Rattle.leftovers.specs.declared.gathering.Source.TheVariants.{Objects, Records};

use crate::fault::{SweepFault, file_fault};
use crate::files::file_page;
use crate::kept::id_in;
use crate::lists::is_whole_list;
use crate::records::get_listed_record;
use account_calls::{PlanFault, ask_newest, interpret_listed_segments, next_marker};
use gate_base::{Bytes, Copying, List, Memory, drop};
use name_table::Table;
use s3_machine::body_etag;
use s3_names::{id_digits, is_key};
use slo_manifest::Segment;
use std::alloc::Global;
use swift_calls::{NameItem, Swift, SwiftRequest};
use swift_marks::Stamp;
use upload_records::segments_container;
use upload_texts::Record;

/// Of which files what they add is gathered.
#[derive(Clone, Copy, Debug, PartialEq, Eq)]
pub enum Source {
    /// The records beside a bucket: the names of those of open uploads.
    Records,
    /// The objects of a bucket: the names of the segments that they list.
    Objects,
}

/// The files of a container, of which what they add is gathered for a bucket.
#[derive(Drop)]
struct FilesOf<'a> {
    bucket: &'a Bytes,
    folder: &'a Bytes,
    source: Source,
}

/// Whether a record that was listed is that of an open upload, by GET of its file (Object Storage API v1, "Get object content and
/// metadata"). One that isn't there now is inconsistent. At most one call.
fn is_open_upload<W: Swift>(
    alloc: Global,
    store: &mut W,
    folder: &Bytes,
    name: &Bytes,
) -> Result<bool, PlanFault>
    requires folder { IsContainerName folder.now }
    requires name { is_key name.now ≡ true }
    ensures asks { (bucket : List ℕ) → is_bucket bucket ≡ true → folder.now ≡ folder_of Records bucket
        → Asks (always 1) (W.history store.old) (W.history store.new)
        (HasRecord bucket name.now) (TellsOf (TellsOpen bucket name.now)) result }
    ensures says { SaysOpen folder.now name.now (W.history store.old) result }
    ensures leaves { LeavesThroughout (W.history store.old) (W.history store.new) }
{
    let record = get_listed_record(alloc, store, folder, name)?;
    let opened = is_open_record(&record);
    drop(record);
    Ok(opened)
}

fn is_open_record(told: &Record) -> bool
    ensures { result ≡ is_open (Some told.now) }
{
    match told {
        Record::Open { .. } => true,
        Record::Done { .. } => false,
    }
}

/// Adds the name of a record, where it is that of an open upload.
fn add_record<W: Swift>(
    alloc: Global,
    store: &mut W,
    folder: &Bytes,
    name: &Bytes,
    table: &mut Table<bool>,
) -> Result<(), PlanFault>
    requires folder { IsContainerName folder.now }
    requires name { is_key name.now ≡ true }
    ensures asks { (bucket : List ℕ) → is_bucket bucket ≡ true → folder.now ≡ folder_of Records bucket
        → Asks (always 1) (W.history store.old) (W.history store.new)
        (HasRecord bucket name.now)
        (TellsOf (TellsAdded Records bucket (name.now ∷ []) table.old table.new)) result }
    ensures holds { IsTrue (W.history store.old).observable
        → OnOk result (IsRecordHeld folder.now name.now (present (W.history store.old)) table.new) }
    ensures stays { OnOk result (Stays table.old table.new) }
    ensures leaves { LeavesThroughout (W.history store.old) (W.history store.new) }
{
    if !is_open_upload(alloc, store, folder, name)? {
        return Ok(());
    }
    table.put(name.as_slice(), true)?;
    Ok(())
}

/// The segments that an object lists, by GET of their list (Object Storage API v1, "Static large objects"); none, without a call,
/// where its item in the listing says that it was put in one piece or is empty. A list that contradicts the item or itself is
/// inconsistent, and so is an item of size 0 whose hash isn't the MD5 of no byte. At most one call.
fn listing_of_object<W: Swift>(
    alloc: Global,
    store: &mut W,
    bucket: &Bytes,
    item: &NameItem,
) -> Result<List<Segment>, PlanFault>
    requires bucket { is_bucket bucket.now ≡ true }
    requires name { is_key item.now.name ≡ true }
    ensures asks { Asks (always 1) (W.history store.old) (W.history store.new)
        (HasItem bucket.now bucket.now item.now) (TellsOf (TellsListing bucket.now item.now.name)) result }
    ensures says { SaysObject bucket.now item.now (W.history store.old) result }
    ensures leaves { LeavesThroughout (W.history store.old) (W.history store.new) }
{
    let stamp = Stamp::read(alloc, item.content_type.as_slice())?;
    match stamp.id {
        None => Ok(List::new(alloc)),
        Some(id) => listing_under(alloc, store, bucket, item, id),
    }
}

/// The segments that an object lists which is of the upload of an id.
fn listing_under<W: Swift>(
    alloc: Global,
    store: &mut W,
    bucket: &Bytes,
    item: &NameItem,
    id: u128,
) -> Result<List<Segment>, PlanFault>
    requires bucket { is_bucket bucket.now ≡ true }
    requires name { is_key item.now.name ≡ true }
    requires id { item_id item.now ≡ Some id }
    ensures asks { Asks (always 1) (W.history store.old) (W.history store.new)
        (HasItem bucket.now bucket.now item.now) (TellsOf (TellsListing bucket.now item.now.name)) result }
    ensures says { SaysOfId bucket.now id item.now (W.history store.old) result }
    ensures leaves { LeavesThroughout (W.history store.old) (W.history store.new) }
{
    if item.size == 0 {
        return nothing_listed(alloc, item);
    }
    whole_listing(alloc, store, bucket, item, id)
}

/// What an item of size 0 lists: nothing, where its hash is the MD5 of no byte.
fn nothing_listed(alloc: Global, item: &NameItem) -> Result<List<Segment>, PlanFault>
    ensures { result ≡ nothing_due item.now }
{
    if item.hash.as_slice() == body_etag(b"").as_slice() {
        return Ok(List::new(alloc));
    }
    Err(PlanFault::Inconsistent)
}

/// The list of an object under an id, which has to be whole.
fn whole_listing<W: Swift>(
    alloc: Global,
    store: &mut W,
    bucket: &Bytes,
    item: &NameItem,
    id: u128,
) -> Result<List<Segment>, PlanFault>
    requires bucket { is_bucket bucket.now ≡ true }
    requires name { is_key item.now.name ≡ true }
    requires id { item_id item.now ≡ Some id }
    requires some { 0 < item.now.size }
    ensures asks { Asks (always 1) (W.history store.old) (W.history store.new)
        (HasItem bucket.now bucket.now item.now) (TellsOf (TellsListing bucket.now item.now.name)) result }
    ensures says { SaysOfId bucket.now id item.now (W.history store.old) result }
    ensures leaves { LeavesThroughout (W.history store.old) (W.history store.new) }
{
    let folder = segments_container(alloc, bucket.as_slice())?;
    let list = get_listing(store, bucket, &item.name)?;
    if !is_whole_list(
        true,
        folder.as_slice(),
        &id_digits(id),
        item.size,
        list.as_slice(),
    ) {
        return Err(PlanFault::Inconsistent);
    }
    Ok(list)
}

/// The segments that a file lists which is known to list some. At most one call.
#[tactic(auto, using(account_calls::proofs::lemmas::Names::object_name))]
fn get_listing<W: Swift>(
    store: &mut W,
    container: &Bytes,
    name: &Bytes,
) -> Result<List<Segment>, PlanFault>
    requires container { IsContainerName container.now }
    requires name { is_key name.now ≡ true }
    ensures asks { Asks (always 1) (W.history store.old) (W.history store.new)
        (HasListing container.now name.now) (TellsOf (TellsListing container.now name.now)) result }
    ensures says { SaysListing container.now name.now (W.history store.old) result }
    ensures leaves { LeavesThroughout (W.history store.old) (W.history store.new) }
{
    let container = container.copy()?;
    let name = name.copy()?;
    let reply = ask_newest(store, SwiftRequest::GetManifest { container, name })?;
    interpret_listed_segments(reply)
}

/// Adds the names of the segments of a list.
fn add_names(table: &mut Table<bool>, segments: &[Segment]) -> Result<(), Memory>
    ensures added { OnOk result ((text : List ℕ) → is_some (get table.new text)
        ≡ (is_some (get table.old text) || is_named_in text segments.now)) }
    ensures held { OnOk result (AllByRecursion (HasName table.new) segments.now) }
    ensures stays { OnOk result (Stays table.old table.new) }
{
    for segment in segments {
        table.put(segment.name.as_slice(), true)?;
    }
    Ok(())
}

/// Whether a name is that of a sub-manifest: `m` stands behind the id and the slash, where a part has a digit.
pub(crate) fn is_sub_manifest(name: &[u8]) -> bool
    ensures { result ≡ is_sub_manifest_name name.now }
{
    33 < name.len() && name[33] == b'm'
}

/// How many of these segments are sub-manifests.
fn sub_manifests_in(segments: &[Segment]) -> usize
    ensures { result ≡ sub_manifests_in segments.now }
{
    let mut count = 0;
    for segment in segments {
        if is_sub_manifest(segment.name.as_slice()) {
            count += 1;
        }
    }
    count
}

/// The segments that a sub-manifest beside a bucket lists, which an object lists: a whole list, under the id of its name. At most one
/// call.
fn listing_of_sub_manifest<W: Swift>(
    alloc: Global,
    store: &mut W,
    bucket: &Bytes,
    segment: &Segment,
) -> Result<List<Segment>, PlanFault>
    requires { is_bucket bucket.now ≡ true }
    ensures asks { Asks (always 1) (W.history store.old) (W.history store.new)
        (HasInner bucket.now segment.now)
        (TellsOf (TellsListing (segments_name bucket.now) segment.now.name)) result }
    ensures says { SaysInner bucket.now segment.now (W.history store.old) result }
    ensures leaves { LeavesThroughout (W.history store.old) (W.history store.new) }
{
    if !is_key(segment.name.as_slice()) {
        return Err(PlanFault::Inconsistent);
    }
    let folder = segments_container(alloc, bucket.as_slice())?;
    let list = get_listing(store, &folder, &segment.name)?;
    let id = id_in(segment.name.as_slice());
    if !is_whole_list(false, folder.as_slice(), id, segment.size, list.as_slice()) {
        return Err(PlanFault::Inconsistent);
    }
    Ok(list)
}

/// Adds the names of the segments that a sub-manifest beside a bucket lists. At most one call.
fn add_sub_manifest<W: Swift>(
    alloc: Global,
    store: &mut W,
    bucket: &Bytes,
    segment: &Segment,
    table: &mut Table<bool>,
) -> Result<(), PlanFault>
    requires { is_bucket bucket.now ≡ true }
    ensures asks { Asks (always 1) (W.history store.old) (W.history store.new)
        (HasInner bucket.now segment.now)
        (TellsOf (TellsInner bucket.now segment.now.name table.old table.new)) result }
    ensures holds { IsTrue (W.history store.old).observable
        → OnOk result (IsInnerHeld bucket.now segment.now (present (W.history store.old)) table.new) }
    ensures stays { OnOk result (Stays table.old table.new) }
    ensures leaves { LeavesThroughout (W.history store.old) (W.history store.new) }
{
    let segments = listing_of_sub_manifest(alloc, store, bucket, segment)?;
    add_names(table, segments.as_slice())?;
    Ok(())
}

/// Adds the name of a segment that an object lists and, where it is a sub-manifest, the names of those that it lists. At most one
/// call, and none for a part.
fn add_segment<W: Swift>(
    alloc: Global,
    store: &mut W,
    bucket: &Bytes,
    segment: &Segment,
    table: &mut Table<bool>,
) -> Result<(), PlanFault>
    requires { is_bucket bucket.now ≡ true }
    ensures asks { Asks (always (sub_manifests_in (segment.now ∷ []))) (W.history store.old)
        (W.history store.new) (IsKnown bucket.now segment.now)
        (TellsOf (TellsNamed bucket.now (segment.now ∷ []) table.old table.new)) result }
    ensures holds { IsTrue (W.history store.old).observable
        → OnOk result (IsHeld bucket.now (present (W.history store.old)) table.new segment.now) }
    ensures stays { OnOk result (Stays table.old table.new) }
    ensures leaves { LeavesThroughout (W.history store.old) (W.history store.new) }
{
    table.put(segment.name.as_slice(), true)?;
    if !is_sub_manifest(segment.name.as_slice()) {
        return Ok(());
    }
    add_sub_manifest(alloc, store, bucket, segment, table)
}

/// Adds the names of the segments that an object lists, by itself or through sub-manifests. A call for each sub-manifest.
fn add_listing<W: Swift>(
    alloc: Global,
    store: &mut W,
    bucket: &Bytes,
    segments: &[Segment],
    table: &mut Table<bool>,
) -> Result<(), PlanFault>
    requires { is_bucket bucket.now ≡ true }
    ensures asks { Asks (always (sub_manifests_in segments.now)) (W.history store.old)
        (W.history store.new) (AreKnown bucket.now segments.now)
        (TellsOf (TellsNamed bucket.now segments.now table.old table.new)) result }
    ensures holds { IsTrue (W.history store.old).observable
        → OnOk result (AreHeld bucket.now (present (W.history store.old)) table.new segments.now) }
    ensures stays { OnOk result (Stays table.old table.new) }
    ensures leaves { LeavesThroughout (W.history store.old) (W.history store.new) }
{
    for segment in segments {
        add_segment(alloc, store, bucket, segment, table)?;
    }
    Ok(())
}

/// Adds the names of the segments that an object lists. At most eleven calls: one for its list, and one for each sub-manifest, of
/// which an object has ten at most.
fn add_object<W: Swift>(
    alloc: Global,
    store: &mut W,
    bucket: &Bytes,
    item: &NameItem,
    table: &mut Table<bool>,
) -> Result<(), PlanFault>
    requires bucket { is_bucket bucket.now ≡ true }
    requires name { is_key item.now.name ≡ true }
    ensures asks { Asks (always calls_a_file) (W.history store.old) (W.history store.new)
        (HasItem bucket.now bucket.now item.now)
        (TellsOf (TellsAdded Objects bucket.now (item.now.name ∷ []) table.old table.new)) result }
    ensures holds { IsTrue (W.history store.old).observable
        → OnOk result (IsObjectHeldByStamp (read_stamp item.now.content_type) bucket.now item.now
        (present (W.history store.old)) table.new) }
    ensures stays { OnOk result (Stays table.old table.new) }
    ensures leaves { LeavesThroughout (W.history store.old) (W.history store.new) }
{
    let segments = listing_of_object(alloc, store, bucket, item)?;
    let many = sub_manifests_in(segments.as_slice());
    if many > 10 {
        return Err(PlanFault::Inconsistent);
    }
    add_listing(alloc, store, bucket, segments.as_slice(), table)
}

/// Adds what the file of an item adds.
fn add_file<W: Swift>(
    alloc: Global,
    store: &mut W,
    files: &FilesOf<'_>,
    item: &NameItem,
    table: &mut Table<bool>,
) -> Result<(), PlanFault>
    requires bucket { is_bucket files.now.bucket.now ≡ true }
    requires folder { files.now.folder.now ≡ folder_of files.now.source files.now.bucket.now }
    requires name { is_key item.now.name ≡ true }
    ensures asks { Asks (always calls_a_file) (W.history store.old) (W.history store.new)
        (HasItem files.now.folder.now files.now.bucket.now item.now)
        (TellsOf (TellsAdded files.now.source files.now.bucket.now (item.now.name ∷ []) table.old table.new)) result }
    ensures holds { IsTrue (W.history store.old).observable
        → OnOk result (IsItemHeld files.now.source files.now.folder.now files.now.bucket.now (present (W.history store.old)) table.new item.now) }
    ensures stays { OnOk result (Stays table.old table.new) }
    ensures leaves { LeavesThroughout (W.history store.old) (W.history store.new) }
{
    match files.source {
        Source::Records => add_record(alloc, store, files.folder, &item.name, table),
        Source::Objects => add_object(alloc, store, files.bucket, item, table),
    }
}

/// The same, with a fault that names the file; that of a sub-manifest is named by the object that lists it.
fn add_item<W: Swift>(
    alloc: Global,
    store: &mut W,
    files: &FilesOf<'_>,
    item: &NameItem,
    table: &mut Table<bool>,
) -> Result<(), SweepFault>
    requires bucket { is_bucket files.now.bucket.now ≡ true }
    requires folder { files.now.folder.now ≡ folder_of files.now.source files.now.bucket.now }
    requires name { is_key item.now.name ≡ true }
    ensures names { IfErr result (NamesFile files.now.folder.now item.now.name) }
    ensures asks { Asks (always calls_a_file) (W.history store.old) (W.history store.new)
        (HasItem files.now.folder.now files.now.bucket.now item.now)
        (TellsOf (TellsAdded files.now.source files.now.bucket.now (item.now.name ∷ []) table.old
        table.new)) (as_plan result) }
    ensures holds { IsTrue (W.history store.old).observable
        → OnOk result (IsItemHeld files.now.source files.now.folder.now files.now.bucket.now
        (present (W.history store.old)) table.new item.now) }
    ensures stays { OnOk result (Stays table.old table.new) }
    ensures leaves { LeavesThroughout (W.history store.old) (W.history store.new) }
{
    match add_file(alloc, store, files, item, table) {
        Ok(()) => Ok(()),
        Err(fault) => Err(file_fault(alloc, fault, files.folder.as_slice(), item.name.as_slice())),
    }
}

/// Adds what the files of a page add.
fn add_items<W: Swift>(
    alloc: Global,
    store: &mut W,
    files: &FilesOf<'_>,
    items: &[NameItem],
    table: &mut Table<bool>,
) -> Result<(), SweepFault>
    requires bucket { is_bucket files.now.bucket.now ≡ true }
    requires folder { files.now.folder.now ≡ folder_of files.now.source files.now.bucket.now }
    requires names { list_all is_key (map name_in items.now) ≡ true }
    ensures asks { Asks (always (calls_a_file * length items.now)) (W.history store.old) (W.history store.new)
        (HasItems files.now.folder.now files.now.bucket.now items.now)
        (TellsOf (TellsAdded files.now.source files.now.bucket.now (map name_in items.now) table.old table.new)) (as_plan result) }
    ensures holds { IsTrue (W.history store.old).observable
        → OnOk result (AreItemsHeld files.now.source files.now.folder.now files.now.bucket.now (present (W.history store.old)) table.new items.now) }
    ensures stays { OnOk result (Stays table.old table.new) }
    ensures leaves { LeavesThroughout (W.history store.old) (W.history store.new) }
{
    for item in items {
        add_item(alloc, store, files, item, table)?;
    }
    Ok(())
}

/// Adds what a page of files adds. What is told is the marker of the next page, and `None` after the last one.
fn gather_page<W: Swift>(
    alloc: Global,
    store: &mut W,
    files: &FilesOf<'_>,
    marker: &Bytes,
    table: &mut Table<bool>,
) -> Result<Option<Bytes>, SweepFault>
    requires bucket { is_bucket files.now.bucket.now ≡ true }
    requires folder { files.now.folder.now ≡ folder_of files.now.source files.now.bucket.now }
    requires marker { IsMarker marker.now }
    ensures counted { IfOk result (λ _. (W.history store.old).called < budget
        × ((W.history store.old).called < (W.history store.new).called)) }
    ensures is_marker { IfOk result (λ next. IfSome next IsMarker) }
    ensures asks { Asks (always 11001) (W.history store.old) (W.history store.new)
        (InBucket files.now.bucket.now)
        (TellsOf (TellsGathered files.now.source files.now.folder.now files.now.bucket.now
        marker.now table.old table.new)) (as_plan result) }
    ensures pays { PaysGathering files.now.folder.now files.now.bucket.now marker.now
        (W.history store.old)
        (W.history store.new) (as_plan result) }
    ensures holds { IsTrue (W.history store.old).observable
        → IfOk result (λ next. IsPageHeld files.now.source files.now.folder.now files.now.bucket.now marker.now
        (present (W.history store.old)) table.new next) }
    ensures stays { OnOk result (Stays table.old table.new) }
    ensures leaves { LeavesThroughout (W.history store.old) (W.history store.new) }
{
    let page = file_page(alloc, store, files.folder.as_slice(), marker.as_slice())?;
    let next = next_marker(page.as_slice())?;
    add_items(alloc, store, files, page.as_slice(), table)?;
    Ok(next)
}

/// What all files of a container add, page by page: the ids of the open uploads of a bucket, or the names of the segments that its
/// objects list. At most as many calls as there are pages, and eleven for each file, where the store is observable and its account
/// consistent; the account stays as it is. One page and one list of segments are held at a time, and what is gathered. Failed comes
/// only where the store's count of faults rose; Memory where memory ran out; Inconsistent never over an observable consistent account on
/// which the bucket is there.
pub fn gather<W: Swift>(
    alloc: Global,
    store: &mut W,
    bucket: &Bytes,
    folder: &Bytes,
    source: Source,
) -> Result<Table<bool>, SweepFault>
    requires bucket { is_bucket bucket.now ≡ true }
    requires folder { folder.now ≡ folder_of source bucket.now }
    ensures asks { Asks (by_account (gather_calls (present (W.history store.old)) folder.now))
        (W.history store.old) (W.history store.new) (InBucket bucket.now)
        (TellsOf (TellsAll source folder.now bucket.now)) (as_plan result) }
    ensures holds { HoldsAll source folder.now bucket.now (W.history store.old) result }
    ensures leaves { LeavesThroughout (W.history store.old) (W.history store.new) }
{
    let files = FilesOf {
        bucket,
        folder,
        source,
    };
    let mut table = Table::new(alloc);
    let mut marker = Bytes::new(alloc);
    'pages: loop {
        match gather_page(alloc, store, &files, &marker, &mut table)? {
            Some(next) => marker = next,
            None => return Ok(table),
        }
    }
}
