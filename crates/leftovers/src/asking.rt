//! What is asked again before the first file beside a bucket goes, of each id under which one does.
ghost use Rattle.std.specs.Prelude.{◌≡◌, ◌≢◌, ◌<◌, ◌≤◌, ◌+◌, ◌*◌, ℕ, Bool, List, [], length, true, is_some, IfErr, IfOk, IfSome, IsTrue, OnOk, Err, Ok, Some};
ghost use Rattle.std.specs.FinMap.{get};
ghost use Rattle.s3_names.specs.Bucket.{is_bucket};
ghost use Rattle.s3_names.specs.Key.{is_key};
ghost use Rattle.swift_calls.specs.History.{budget, present};
ghost use Rattle.swift_calls.specs.Limits.{IsMarker};
ghost use Rattle.upload_texts.specs.Records.{has_record_text, read_record};
ghost use Rattle.upload_records.specs.Layout.{segments_name, uploads_name};
ghost use Rattle.account_calls.specs.Calls.{always, by_account, Asks};
ghost use Rattle.account_calls.specs.Interpret.{Gives};
ghost use Rattle.account_calls.specs.Listing.{TellsOf};
ghost use Rattle.account_calls.specs.Told.{LeavesThroughout};
ghost use Rattle.account_calls.specs.declared.fault.PlanFault.TheVariants as fault;
ghost use Rattle.leftovers.specs.Asking.{any_goes, asking_calls, found_record_by, found_record_due, kept_list_due, list_due, record_found, AreAsked, ClearsAll, ClearsMore, HasOrphan, HasOrphanOf, HasSegment, HasSegments, HasUnused, IsAsked, IsClear, IsListClear, IsPageAsked, IsRecordClear, PaysAsking, TellsFound, TellsNextPage, TellsNothing};
ghost use Rattle.leftovers.specs.Faults.{as_plan, NamesFile};
ghost use Rattle.leftovers.specs.Kept.{goes};
ghost use Rattle.leftovers.specs.Leftovers.{id_in};
ghost use Rattle.leftovers.specs.Lists.{Stays};

use crate::fault::{SweepFault, file_fault};
use crate::files::file_page;
use crate::kept::{Kept, id_in};
use account_calls::{PlanFault, ask_newest, next_marker};
use gate_base::{Bytes, Copying, drop};
use name_table::Table;
use s3_names::is_key;
use slo_manifest::Segment;
use std::alloc::Global;
use swift_calls::{NameItem, Swift, SwiftReply, SwiftRequest};
use upload_records::{segments_container, uploads_container};
use upload_texts::{Record, RecordFault};

/// The record of an id, by GET of its file (Object Storage API v1, "Get object content and metadata"), if it is there. At most one
/// call.
#[tactic(auto, using(account_calls::proofs::lemmas::Names::object_name))]
fn find_record<W: Swift>(
    alloc: Global,
    store: &mut W,
    bucket: &Bytes,
    id: &[u8],
) -> Result<Option<Record>, PlanFault>
    requires bucket { is_bucket bucket.now ≡ true }
    requires id { is_key id.now ≡ true }
    ensures asks { (test : List ℕ → Bool) → Asks (always 1) (W.history store.old) (W.history store.new)
        (HasUnused bucket.now test) (TellsOf (TellsFound bucket.now id.now)) result }
    ensures says { IsTrue (W.history store.old).observable
        → IfOk result (λ told. record_found (uploads_name bucket.now) id.now (present (W.history store.old)) ≡ Ok told) }
    ensures has { IfOk result (λ told. IfSome told (λ r. has_record_text r ≡ true)) }
    ensures leaves { LeavesThroughout (W.history store.old) (W.history store.new) }
{
    let container = uploads_container(alloc, bucket.as_slice())?;
    let name = Bytes::from_slice(alloc, id)?;
    let request = SwiftRequest::GetObject {
        container,
        name,
        range: None,
    };
    let reply = ask_newest(store, request)?;
    found_record_in_reply(alloc, &reply)
}

fn found_record_in_reply(alloc: Global, reply: &SwiftReply) -> Result<Option<Record>, PlanFault>
    ensures due { Gives result (found_record_due reply.now) }
    ensures own { result ≢ Err fault.Failed }
    ensures has { IfOk result (λ told. IfSome told (λ r. has_record_text r ≡ true)) }
{
    match reply {
        SwiftReply::Bytes { body, .. } => found_record_in_text(alloc, body.as_slice()),
        SwiftReply::NotFound => Ok(None),
        _ => Err(PlanFault::Inconsistent),
    }
}

fn found_record_in_text(alloc: Global, text: &[u8]) -> Result<Option<Record>, PlanFault>
    ensures due { Gives result (found_record_by (read_record text.now)) }
    ensures own { result ≢ Err fault.Failed }
    ensures has { IfOk result (λ told. IfSome told (λ r. has_record_text r ≡ true)) }
{
    match Record::read(alloc, text) {
        Ok(record) => Ok(Some(record)),
        Err(RecordFault::Memory) => Err(PlanFault::Memory),
        Err(RecordFault::NotARecord) => Err(PlanFault::Inconsistent),
        Err(RecordFault::Version(_)) => Err(PlanFault::Inconsistent),
    }
}

/// Asks for the list of an object of a bucket (Object Storage API v1, "Static large objects"): where one of its segments goes, what was
/// gathered lacks it, and the store is inconsistent. At most one call.
#[tactic(auto, using(account_calls::proofs::lemmas::Names::object_name, account_calls::proofs::lemmas::Names::container_name))]
fn ask_list<W: Swift>(
    store: &mut W,
    bucket: &Bytes,
    kept: &Kept,
    key: &Bytes,
) -> Result<(), PlanFault>
    requires bucket { is_bucket bucket.now ≡ true }
    requires key { is_key key.now ≡ true }
    ensures asks { Asks (always 1) (W.history store.old) (W.history store.new)
        (HasUnused bucket.now (goes kept.now)) (TellsOf TellsNothing) result }
    ensures clear { IsTrue (W.history store.old).observable → OnOk result
        (IsListClear bucket.now (goes kept.now) (present (W.history store.old)) key.now) }
    ensures leaves { LeavesThroughout (W.history store.old) (W.history store.new) }
{
    let container = bucket.copy()?;
    let name = key.copy()?;
    let reply = ask_newest(store, SwiftRequest::GetManifest { container, name })?;
    kept_list_in_reply(kept, &reply)
}

fn kept_list_in_reply(kept: &Kept, reply: &SwiftReply) -> Result<(), PlanFault>
    ensures due { result ≡ list_due (goes kept.now) reply.now }
    ensures own { result ≢ Err fault.Failed }
{
    match reply {
        SwiftReply::Manifest(list) => kept_list(kept, list.as_slice()),
        SwiftReply::NotFound => Ok(()),
        _ => Err(PlanFault::Inconsistent),
    }
}

fn kept_list(kept: &Kept, list: &[Segment]) -> Result<(), PlanFault>
    ensures due { result ≡ kept_list_due (goes kept.now) list.now }
    ensures own { result ≢ Err fault.Failed }
{
    if any_goes(kept, list) {
        return Err(PlanFault::Inconsistent);
    }
    Ok(())
}

/// Whether one of these segments goes.
fn any_goes(kept: &Kept, list: &[Segment]) -> bool
    ensures { result ≡ any_goes (goes kept.now) list.now }
{
    for segment in list {
        if kept.goes(segment.name.as_slice()) {
            return true;
        }
    }
    false
}

/// What a record says: that of an open upload is inconsistent, since nothing that it has goes. At most one call.
fn ask_record<W: Swift>(
    store: &mut W,
    bucket: &Bytes,
    kept: &Kept,
    told: &Record,
) -> Result<(), PlanFault>
    requires bucket { is_bucket bucket.now ≡ true }
    requires has { has_record_text told.now ≡ true }
    ensures asks { (id : List ℕ) → Asks (always 1) (W.history store.old) (W.history store.new)
        (HasOrphanOf bucket.now id (goes kept.now) told.now) (TellsOf TellsNothing) result }
    ensures clear { IsTrue (W.history store.old).observable → OnOk result
        (IsRecordClear bucket.now (goes kept.now) (present (W.history store.old)) (Some told.now)) }
    ensures leaves { LeavesThroughout (W.history store.old) (W.history store.new) }
{
    match told {
        Record::Open { .. } => Err(PlanFault::Inconsistent),
        Record::Done { key, .. } => ask_list(store, bucket, kept, key),
    }
}

/// Asks for the record of an id under which a file goes, and for the list of the key that it names. At most two calls.
fn ask_id<W: Swift>(
    alloc: Global,
    store: &mut W,
    bucket: &Bytes,
    kept: &Kept,
    id: &[u8],
) -> Result<(), PlanFault>
    requires bucket { is_bucket bucket.now ≡ true }
    ensures asks { Asks (always 2) (W.history store.old) (W.history store.new)
        (HasOrphan bucket.now id.now (goes kept.now)) (TellsOf TellsNothing) result }
    ensures clear { IsTrue (W.history store.old).observable → OnOk result
        (IsClear (uploads_name bucket.now) bucket.now (goes kept.now) (present (W.history store.old)) id.now) }
    ensures leaves { LeavesThroughout (W.history store.old) (W.history store.new) }
{
    if !is_key(id) {
        return Err(PlanFault::Inconsistent);
    }
    let found = find_record(alloc, store, bucket, id)?;
    match &found {
        None => Ok(()),
        Some(record) => ask_record(store, bucket, kept, record),
    }
}

/// The same, with a fault that names the record of the id.
fn ask_named_id<W: Swift>(
    alloc: Global,
    store: &mut W,
    bucket: &Bytes,
    kept: &Kept,
    id: &[u8],
) -> Result<(), SweepFault>
    requires bucket { is_bucket bucket.now ≡ true }
    ensures names { IfErr result (NamesFile (uploads_name bucket.now) id.now) }
    ensures asks { Asks (always 2) (W.history store.old) (W.history store.new)
        (HasOrphan bucket.now id.now (goes kept.now)) (TellsOf TellsNothing) (as_plan result) }
    ensures clear { IsTrue (W.history store.old).observable → OnOk result
        (IsClear (uploads_name bucket.now) bucket.now (goes kept.now) (present (W.history store.old)) id.now) }
    ensures leaves { LeavesThroughout (W.history store.old) (W.history store.new) }
{
    let uploads = uploads_container(alloc, bucket.as_slice())?;
    match ask_id(alloc, store, bucket, kept, id) {
        Ok(()) => Ok(()),
        Err(fault) => Err(file_fault(alloc, fault, uploads.as_slice(), id)),
    }
}

/// Whether a table has a name.
fn has_name(table: &Table<bool>, name: &[u8]) -> bool
    ensures { result ≡ is_some (get table.now name.now) }
{
    table.get(name).is_some()
}

/// Asks for the id of a file, where it goes and its id wasn't asked for. At most two calls.
fn ask_item<W: Swift>(
    alloc: Global,
    store: &mut W,
    bucket: &Bytes,
    kept: &Kept,
    item: &NameItem,
    asked: &mut Table<bool>,
) -> Result<(), SweepFault>
    requires bucket { is_bucket bucket.now ≡ true }
    ensures asks { Asks (always 2) (W.history store.old) (W.history store.new)
        (HasSegment bucket.now (goes kept.now) item.now) (TellsOf TellsNothing) (as_plan result) }
    ensures clear { ClearsMore bucket.now (goes kept.now) asked.old asked.new (W.history store.old) result }
    ensures asked { OnOk result (IsAsked (goes kept.now) asked.new item.now) }
    ensures stays { OnOk result (Stays asked.old asked.new) }
    ensures leaves { LeavesThroughout (W.history store.old) (W.history store.new) }
{
    if !kept.goes(item.name.as_slice()) {
        return Ok(());
    }
    let id = id_in(item.name.as_slice());
    if has_name(asked, id) {
        return Ok(());
    }
    ask_named_id(alloc, store, bucket, kept, id)?;
    asked.put(id, true)?;
    Ok(())
}

/// Asks for the ids of the files of a page that go.
fn ask_items<W: Swift>(
    alloc: Global,
    store: &mut W,
    bucket: &Bytes,
    kept: &Kept,
    items: &[NameItem],
    asked: &mut Table<bool>,
) -> Result<(), SweepFault>
    requires bucket { is_bucket bucket.now ≡ true }
    ensures asks { Asks (always (2 * length items.now)) (W.history store.old) (W.history store.new)
        (HasSegments bucket.now (goes kept.now) items.now) (TellsOf TellsNothing) (as_plan result) }
    ensures clear { ClearsMore bucket.now (goes kept.now) asked.old asked.new (W.history store.old) result }
    ensures asked { OnOk result (AreAsked (goes kept.now) asked.new items.now) }
    ensures stays { OnOk result (Stays asked.old asked.new) }
    ensures leaves { LeavesThroughout (W.history store.old) (W.history store.new) }
{
    for item in items {
        ask_item(alloc, store, bucket, kept, item, asked)?;
    }
    Ok(())
}

/// Asks for the ids of a page of the files beside a bucket. What is told is the marker of the next page, and `None` after the last one.
fn ask_page<W: Swift>(
    alloc: Global,
    store: &mut W,
    bucket: &Bytes,
    folder: &Bytes,
    kept: &Kept,
    marker: &Bytes,
    asked: &mut Table<bool>,
) -> Result<Option<Bytes>, SweepFault>
    requires bucket { is_bucket bucket.now ≡ true }
    requires folder { folder.now ≡ segments_name bucket.now }
    requires marker { IsMarker marker.now }
    ensures counted { IfOk result (λ _. (W.history store.old).called < budget
        × ((W.history store.old).called < (W.history store.new).called)) }
    ensures is_marker { IfOk result (λ next. IfSome next IsMarker) }
    ensures asks { Asks (always 2001) (W.history store.old) (W.history store.new)
        (HasUnused bucket.now (goes kept.now)) (TellsOf (TellsNextPage folder.now marker.now)) (as_plan result) }
    ensures pays { PaysAsking folder.now bucket.now marker.now (goes kept.now) (W.history store.old)
        (W.history store.new) (as_plan result) }
    ensures clear { ClearsMore bucket.now (goes kept.now) asked.old asked.new (W.history store.old) result }
    ensures asked { IsTrue (W.history store.old).observable → IfOk result (λ next. IsPageAsked folder.now
        marker.now (goes kept.now) (present (W.history store.old)) asked.new next) }
    ensures stays { OnOk result (Stays asked.old asked.new) }
    ensures leaves { LeavesThroughout (W.history store.old) (W.history store.new) }
{
    let page = file_page(alloc, store, folder.as_slice(), marker.as_slice())?;
    let next = next_marker(page.as_slice())?;
    ask_items(alloc, store, bucket, kept, page.as_slice(), asked)?;
    Ok(next)
}

/// Asks again before the first file beside a bucket that is there goes: of each id under which one does, GET of its record (Object
/// Storage API v1, "Get object content and metadata"), and of the list of the object that a finished record names. That of an open
/// upload, or a list of which a segment goes, is inconsistent. At most a call for each page of the files beside the bucket, and two for
/// each id, where the store is observable and its account consistent; the account stays as it is.
pub(crate) fn ask_segments<W: Swift>(
    alloc: Global,
    store: &mut W,
    bucket: &Bytes,
    folder: &Bytes,
    kept: &Kept,
) -> Result<(), SweepFault>
    requires bucket { is_bucket bucket.now ≡ true }
    requires folder { folder.now ≡ segments_name bucket.now }
    ensures asks { Asks (by_account (asking_calls (present (W.history store.old)) folder.now))
        (W.history store.old) (W.history store.new) (HasUnused bucket.now (goes kept.now))
        (TellsOf TellsNothing) (as_plan result) }
    ensures clear { IsTrue (W.history store.old).observable → OnOk result
        (ClearsAll folder.now bucket.now (goes kept.now) (present (W.history store.old))) }
    ensures leaves { LeavesThroughout (W.history store.old) (W.history store.new) }
{
    let mut asked = Table::new(alloc);
    let mut marker = Bytes::new(alloc);
    'pages: loop {
        match ask_page(alloc, store, bucket, folder, kept, &marker, &mut asked)? {
            Some(next) => marker = next,
            None => return Ok(()),
        }
    }
}
