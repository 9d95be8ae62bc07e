//! One record beside a bucket: an old completion is forgotten, and any other gets its moment.
ghost use Rattle.std.specs.Prelude.{◌≡◌, ◌<◌, ◌≤◌, ◌+◌, ℕ, List, [], ◌∷◌, length, true, false, IfErr, IfOk, Err, Some};
ghost use Rattle.s3_names.specs.Bucket.{is_bucket};
ghost use Rattle.s3_names.specs.Key.{is_key};
ghost use Rattle.swift_calls.specs.History.{budget};
ghost use Rattle.swift_calls.specs.Step.{Fit, IsContainerName};
ghost use Rattle.swift_calls.specs.Files.{PutObject};
ghost use Rattle.upload_texts.specs.Records.{has_record_text, read_record};
ghost use Rattle.upload_records.specs.Layout.{uploads_name};
ghost use Rattle.account_calls.specs.Calls.{always, Asks};
ghost use Rattle.account_calls.specs.Puts.{Ensures};
ghost use Rattle.sweep.specs.Aging.{dated, done_fate, fate, is_old, most_record_text, old_among, record_type, Forgetting, HasFile, HasRecord, IsRecordsOf, StandsDated, TellsAged, TellsGone};
ghost use Rattle.sweep.specs.Forgetting.{is_undated};
ghost use Rattle.leftovers.specs.Faults.{as_plan, NamesFile};

use account_calls::{PlanFault, ask, interpret_file_delete, interpret_put_with_etag};
use gate_base::{Bytes, Copying, List, Memory, drop};
use leftovers::{SweepFault, file_fault, get_listed_record};
use s3_machine::body_etag;
use std::alloc::Global;
use swift_calls::{FilePut, Swift, SwiftRequest};
use upload_texts::Record;

/// What was done with the records of completions.
#[derive(Clone, Copy, Debug, PartialEq, Eq)]
pub(crate) struct Aged {
    /// Those that were forgotten.
    pub(crate) forgotten: u64,
    /// Those that got their moment.
    pub(crate) migrated: u64,
}

/// What is done with a record.
#[derive(Clone, Copy, Debug, PartialEq, Eq)]
pub(crate) enum Fate {
    /// It stays: it is that of an open upload, or has its moment and isn't old.
    Left,
    /// It goes: its completion is old.
    Forgotten,
    /// It is put anew with its moment.
    Migrated,
}

/// What is to be done with a record: a completion is old whose moment, or without one the start of its upload, is before this one.
fn fate_of(told: &Record, before: u64) -> Fate
    ensures { result ≡ fate before told.now }
{
    match told {
        Record::Open { .. } => Fate::Left,
        Record::Done {
            started,
            moment,
            ..
        } => fate_of_done(*started, *moment, before),
    }
}

fn fate_of_done(started: u64, moment: Option<u64>, before: u64) -> Fate
    ensures { result ≡ done_fate before started moment }
{
    match moment {
        Some(moment) => {
            if moment < before {
                Fate::Forgotten
            } else {
                Fate::Left
            }
        }
        None => {
            if started < before {
                Fate::Forgotten
            } else {
                Fate::Migrated
            }
        }
    }
}

/// Forgets a completion that is old, by DELETE of its record (Object Storage API v1, "Delete object"). At most one call.
#[tactic(auto, using(account_calls::proofs::lemmas::Names::object_name))]
fn delete_old_record<W: Swift>(store: &mut W, folder: &Bytes, name: &Bytes) -> Result<(), PlanFault>
    requires folder { IsContainerName folder.now }
    requires name { is_key name.now ≡ true }
    ensures counted { IfOk result (λ _. (W.history store.old).called < budget
        × ((W.history store.new).called ≡ (W.history store.old).called + 1)) }
    ensures near { (W.history store.new).called ≤ (W.history store.old).called + 1 }
    ensures forgets { (before : ℕ) (bucket : List ℕ) (told : Record) → is_bucket bucket ≡ true
        → folder.now ≡ uploads_name bucket → is_old before (Some told) ≡ true
        → Forgetting (W.history store.old) (W.history store.new) (HasRecord bucket name.now told)
        (old_among before bucket (name.now ∷ [])) (TellsGone before bucket name.now) result }
{
    let container = folder.copy()?;
    let name = name.copy()?;
    let reply = ask(store, SwiftRequest::DeleteObject { container, name })?;
    interpret_file_delete(&reply)
}

/// The record with the moment of its completion.
fn dated(told: Record) -> Record
    ensures { result ≡ dated told }
{
    match told {
        Record::Done {
            key,
            list,
            etag,
            started,
            moment,
        } => Record::Done {
            key,
            list,
            etag,
            started,
            moment: Some(moment.unwrap_or(started)),
        },
        other => other,
    }
}

/// The text of a record with the moment of its completion, of one that lacks it.
fn dated_record_text(alloc: Global, told: Record) -> Result<Bytes, Memory>
    requires has { has_record_text told ≡ true }
    requires undated { is_undated (Some told) ≡ true }
    ensures reads { IfOk result (λ text. read_record text ≡ Some (dated told)) }
    ensures short { IfOk result (λ text. length text ≤ most_record_text) }
{
    let told = dated(told);
    told.write(alloc)
}

/// The PUT of a record of this text.
#[tactic(auto, using(account_calls::proofs::lemmas::Names::object_name))]
fn dated_record_request(
    alloc: Global,
    folder: &Bytes,
    name: &Bytes,
    text: Bytes,
) -> Result<SwiftRequest, Memory>
    requires folder { IsContainerName folder.now }
    requires name { is_key name.now ≡ true }
    requires short { length text ≤ most_record_text }
    ensures request { IfOk result (λ request. request ≡ PutObject folder.now name.now record_type [] text) }
    ensures fits { IfOk result Fit }
{
    let container = folder.copy()?;
    let name = name.copy()?;
    let content_type = Bytes::from_slice(alloc, b"application/json")?;
    Ok(SwiftRequest::PutObject(FilePut {
        container,
        name,
        content_type,
        meta: List::new(alloc),
        body: text,
        fresh: false,
    }))
}

/// Puts the record of a completion anew, with the start of its upload as its moment (Object Storage API v1, "Create or replace
/// object"). At most one call.
fn put_dated_record<W: Swift>(
    alloc: Global,
    store: &mut W,
    folder: &Bytes,
    name: &Bytes,
    told: Record,
) -> Result<(), PlanFault>
    requires folder { IsContainerName folder.now }
    requires name { is_key name.now ≡ true }
    requires has { has_record_text told ≡ true }
    requires undated { is_undated (Some told) ≡ true }
    ensures counted { IfOk result (λ _. (W.history store.old).called < budget
        × ((W.history store.new).called ≡ (W.history store.old).called + 1)) }
    ensures near { (W.history store.new).called ≤ (W.history store.old).called + 1 }
    ensures asks { (before : ℕ) (bucket : List ℕ) → is_bucket bucket ≡ true
        → folder.now ≡ uploads_name bucket → is_old before (Some told) ≡ false
        → Asks (always 1) (W.history store.old) (W.history store.new)
        (HasRecord bucket name.now told) (TellsGone before bucket name.now) result }
    ensures stands { Ensures (W.history store.new) (StandsDated folder.now name.now told) result }
{
    let text = dated_record_text(alloc, told)?;
    let etag = body_etag(text.as_slice());
    let request = dated_record_request(alloc, folder, name, text)?;
    let reply = ask(store, request)?;
    interpret_put_with_etag(&reply, &etag)
}

/// Does with a record what is to be done with it. At most one call.
fn age_record<W: Swift>(
    alloc: Global,
    store: &mut W,
    folder: &Bytes,
    name: &Bytes,
    told: Record,
    before: u64,
) -> Result<Aged, PlanFault>
    requires folder { (bucket : List ℕ) × IsRecordsOf folder.now bucket }
    requires name { is_key name.now ≡ true }
    requires has { has_record_text told ≡ true }
    ensures counted { IfOk result (λ told. ((W.history store.new).called ≡ (W.history store.old).called + (told.forgotten + told.migrated))
        × ((W.history store.old).called ≤ budget → (W.history store.new).called ≤ budget)) }
    ensures near { (W.history store.new).called ≤ (W.history store.old).called + 1 }
    ensures forgets { (bucket : List ℕ) → IsRecordsOf folder.now bucket
        → Forgetting (W.history store.old) (W.history store.new)
        (HasRecord bucket name.now told) (old_among before bucket (name.now ∷ []))
        (TellsAged before bucket (name.now ∷ [])) result }
{
    match fate_of(&told, before) {
        Fate::Left => {
            drop(told);
            Ok(Aged {
                forgotten: 0,
                migrated: 0,
            })
        }
        Fate::Forgotten => {
            drop(told);
            delete_old_record(store, folder, name)?;
            Ok(Aged {
                forgotten: 1,
                migrated: 0,
            })
        }
        Fate::Migrated => {
            put_dated_record(alloc, store, folder, name, told)?;
            Ok(Aged {
                forgotten: 0,
                migrated: 1,
            })
        }
    }
}

/// Does with the record of a name that was listed what is to be done with it. It is read once. At most two calls.
fn forget_record<W: Swift>(
    alloc: Global,
    store: &mut W,
    folder: &Bytes,
    name: &Bytes,
    before: u64,
) -> Result<Aged, PlanFault>
    requires folder { (bucket : List ℕ) × IsRecordsOf folder.now bucket }
    requires name { is_key name.now ≡ true }
    ensures counted { IfOk result (λ told. ((W.history store.old).called + (told.forgotten + told.migrated) < (W.history store.new).called)
        × ((W.history store.new).called ≤ budget)) }
    ensures near { (W.history store.new).called ≤ (W.history store.old).called + 2 }
    ensures forgets { (bucket : List ℕ) → IsRecordsOf folder.now bucket
        → Forgetting (W.history store.old) (W.history store.new) (HasFile bucket name.now)
        (old_among before bucket (name.now ∷ [])) (TellsAged before bucket (name.now ∷ [])) result }
{
    let told = get_listed_record(alloc, store, folder, name)?;
    age_record(alloc, store, folder, name, told, before)
}

/// The same as [`forget_record`], with a fault that names the record.
pub(crate) fn forget_named_record<W: Swift>(
    alloc: Global,
    store: &mut W,
    folder: &Bytes,
    name: &Bytes,
    before: u64,
) -> Result<Aged, SweepFault>
    requires folder { (bucket : List ℕ) × IsRecordsOf folder.now bucket }
    requires name { is_key name.now ≡ true }
    ensures counted { IfOk result (λ told. ((W.history store.old).called + (told.forgotten + told.migrated) < (W.history store.new).called)
        × ((W.history store.new).called ≤ budget)) }
    ensures near { (W.history store.new).called ≤ (W.history store.old).called + 2 }
    ensures names { IfErr result (NamesFile folder.now name.now) }
    ensures forgets { (bucket : List ℕ) → IsRecordsOf folder.now bucket
        → Forgetting (W.history store.old) (W.history store.new) (HasFile bucket name.now)
        (old_among before bucket (name.now ∷ [])) (TellsAged before bucket (name.now ∷ []))
        (as_plan result) }
{
    match forget_record(alloc, store, folder, name, before) {
        Ok(told) => Ok(told),
        Err(fault) => Err(file_fault(alloc, fault, folder.as_slice(), name.as_slice())),
    }
}
