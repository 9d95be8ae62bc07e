//! Records of uploads.
ghost use Rattle.std.specs.Prelude.{◌≡◌, IfOk, None, Ok, Some, true};
ghost use Rattle.serde_json.specs.View.{view};
ghost use Rattle.slo_manifest.specs.Manifest.{json_of};
ghost use Rattle.upload_texts.specs.Places.{version_in};
ghost use Rattle.upload_texts.specs.declared.record.Record.TheVariants.{Done, Open};
ghost use Rattle.upload_texts.specs.Records.{done_record_in_json, done_record_json, has_record_text, moment_in, open_in, open_record_object, open_record_json, read_record, record_in, record_text, record_value, undated_record_json, dated_record_json, is_known_version, unless_known_record_version, MatchesRecord, ReadsRecord};

use crate::forms::{content_fits_record_text, is_dated, is_moment, list_fits_record_text};
use crate::places::{
    record_field_list, record_field_number, record_field_text, record_field_version,
};
use crate::reading::{
    is_same_record_text, listed_in, meta_in, parse_record_json, unless_known_record_version,
};
use crate::values::{metadata_pairs_json, record_parts_json};
use gate_base::{Bytes, Copying, List, Memory};
use s3_machine::Listed;
use s3_names::{Meta, is_key};
use serde_json::Value;
use slo_manifest::{Field, Member, json_object};
use std::alloc::Global;
use swift_marks::is_etag;
use text_forms::text_of;

/// What is kept of an upload beside its bucket, under its id. ETags stand without quotes; times are seconds since the
/// beginning of 1970.
#[derive(Debug, Drop)]
pub enum Record {
    /// It is open: the key, and what its object is to be put with.
    Open {
        key: Bytes,
        content_type: Bytes,
        meta: Meta,
        started: u64,
    },
    /// It was completed with this list, at this moment where that is known.
    Done {
        key: Bytes,
        list: List<Listed>,
        etag: Bytes,
        started: u64,
        moment: Option<u64>,
    },
}

/// Why a text is no record, or no sealed completion.
#[derive(Clone, Copy, Debug, PartialEq, Eq)]
pub enum RecordFault {
    /// It is the text of none.
    NotARecord,
    /// It is an object whose `v` is another whole number than the versions that are read.
    Version(u64),
    /// Memory ran out.
    Memory,
}

impl Copying for RecordFault {
    fn copy(&self) -> Result<RecordFault, Memory>
        ensures { result ≡ Ok self.now }
    {
        Ok(*self)
    }
}

impl From<Memory> for RecordFault {
    ghost use Rattle.upload_texts.specs.declared.record.RecordFault.{RecordFault};

    ghost from_gives = { λ _ fault. fault ≡ RecordFault.Memory };

    fn from(_: Memory) -> RecordFault {
        RecordFault::Memory
    }
}

impl Record {
    /// The record that a text is. `Version` exactly where the text is an object whose `v` is a whole number below 2^64 other
    /// than 1 and 2, and `NotARecord` for every other text that `write` doesn't give.
    pub fn read(alloc: Global, bytes: &[u8]) -> Result<Record, RecordFault>
        ensures { ReadsRecord bytes.now result }
    {
        match parse_record_json(alloc, bytes) {
            Ok(value) => Record::versioned(alloc, bytes, &value),
            Err(fault) => Err(fault),
        }
    }

    /// The same of bytes whose JSON is this value.
    fn versioned(alloc: Global, bytes: &[u8], value: &Value) -> Result<Record, RecordFault>
        requires { json_of bytes.now ≡ Some (view value.now) }
        ensures { ReadsRecord bytes.now result }
    {
        match unless_known_record_version(record_field_version(value)) {
            Some(version) => Err(RecordFault::Version(version)),
            None => Record::checked(alloc, bytes, value),
        }
    }

    /// The same where the version is known.
    #[tactic(auto, using(crate::proofs::Answering::record_unmatched))]
    fn checked(alloc: Global, bytes: &[u8], value: &Value) -> Result<Record, RecordFault>
        requires parsed { json_of bytes.now ≡ Some (view value.now) }
        requires known { unless_known_record_version is_known_version (version_in (view value.now)) ≡ None }
        ensures { ReadsRecord bytes.now result }
    {
        let found = record_in(alloc, value)?;
        found.check_text(alloc, bytes)?;
        Ok(found)
    }

    /// Whether these bytes are the text of the record: `NotARecord` where they aren't, or it has none.
    fn check_text(&self, alloc: Global, bytes: &[u8]) -> Result<(), RecordFault>
        ensures { MatchesRecord self.now bytes.now result }
    {
        if !self.has_text() {
            return Err(RecordFault::NotARecord);
        }
        let text = self.write(alloc)?;
        if !is_same_record_text(text.as_slice(), bytes) {
            return Err(RecordFault::NotARecord);
        }
        Ok(())
    }

    /// The one text of the record, which is read as it. It asks for a record that has one (`has_text`), and fails only where
    /// memory runs out.
    pub fn write(&self, alloc: Global) -> Result<Bytes, Memory>
        requires { has_record_text self.now ≡ true }
        ensures text { IfOk result (λ text. text ≡ record_text self.now) }
        ensures reads_back { IfOk result (λ text. read_record text ≡ Some self.now) }
    {
        let value = self.value(alloc)?;
        Ok(Bytes::from_vec(value.to_vec(alloc)?))
    }

    /// Whether the record has a text: its key, type, metadata, ETags, numbers and moments keep their limits, and a completion
    /// lists at least one part, and at most as many as it may. It takes no memory.
    #[tactic(auto, unfolding(crate::specs::Records::has_record_text))]
    pub fn has_text(&self) -> bool
        ensures { result ≡ has_record_text self.now }
    {
        match self {
            Record::Open {
                key,
                content_type,
                meta,
                started,
            } => {
                is_key(key.as_slice())
                    && content_fits_record_text(content_type.as_slice(), meta)
                    && is_moment(*started)
            }
            Record::Done {
                key,
                list,
                etag,
                started,
                moment,
            } => {
                is_key(key.as_slice())
                    && list_fits_record_text(list.as_slice())
                    && is_etag(etag.as_slice())
                    && is_moment(*started)
                    && is_dated(*moment)
            }
        }
    }

    fn value(&self, alloc: Global) -> Result<Value, Memory>
        requires { has_record_text self.now ≡ true }
        ensures { IfOk result (λ value. view value ≡ record_value self.now) }
    {
        match self {
            Record::Open {
                key,
                content_type,
                meta,
                started,
            } => open_record_json(alloc, key, content_type, meta, *started),
            Record::Done {
                key,
                list,
                etag,
                started,
                moment,
            } => done_record_json(alloc, key, list, etag, *started, *moment),
        }
    }
}

#[tactic(auto, using(crate::proofs::Limits::open_key, crate::proofs::Limits::open_type, crate::proofs::Limits::open_pairs))]
fn open_record_json(
    alloc: Global,
    key: &Bytes,
    content_type: &Bytes,
    meta: &Meta,
    started: u64,
) -> Result<Value, Memory>
    requires { has_record_text (Open key.now content_type.now meta.now started) ≡ true }
    ensures { IfOk result
        (λ value. view value ≡ open_record_json key.now content_type.now meta.now started) }
{
    let meta = Value::Array(metadata_pairs_json(alloc, meta.pairs())?);
    let key = text_of(key.as_slice());
    let content_type = text_of(content_type.as_slice());
    open_record_object(alloc, key, content_type, &meta, started)
}

fn open_record_object<'a>(
    alloc: Global,
    key: &'a str,
    content_type: &'a str,
    meta: &'a Value,
    started: u64,
) -> Result<Value, Memory>
    ensures { IfOk result
        (λ value. view value ≡ open_record_object started key.now (view meta.now) content_type.now) }
{
    json_object(
        alloc,
        &[
            Member {
                name: "at",
                field: Field::Number(started),
            },
            Member {
                name: "key",
                field: Field::Text(key),
            },
            Member {
                name: "meta",
                field: Field::Json(meta),
            },
            Member {
                name: "state",
                field: Field::Text("open"),
            },
            Member {
                name: "type",
                field: Field::Text(content_type),
            },
            Member {
                name: "v",
                field: Field::Number(1),
            },
        ],
    )
}

#[tactic(auto, using(crate::proofs::Limits::done_key, crate::proofs::Limits::done_list, crate::proofs::Limits::done_etag))]
fn done_record_json(
    alloc: Global,
    key: &Bytes,
    list: &List<Listed>,
    etag: &Bytes,
    started: u64,
    moment: Option<u64>,
) -> Result<Value, Memory>
    requires { has_record_text (Done key.now list.now etag.now started moment) ≡ true }
    ensures { IfOk result
        (λ value. view value ≡ done_record_json key.now list.now etag.now started moment) }
{
    let list = Value::Array(record_parts_json(alloc, list.as_slice())?);
    let key = text_of(key.as_slice());
    let etag = text_of(etag.as_slice());
    match moment {
        Some(moment) => dated_record_json(alloc, key, &list, etag, started, moment),
        None => undated_record_json(alloc, key, &list, etag, started),
    }
}

fn undated_record_json<'a>(
    alloc: Global,
    key: &'a str,
    list: &'a Value,
    etag: &'a str,
    started: u64,
) -> Result<Value, Memory>
    ensures { IfOk result
        (λ value. view value ≡ undated_record_json started etag.now key.now (view list.now)) }
{
    json_object(
        alloc,
        &[
            Member {
                name: "at",
                field: Field::Number(started),
            },
            Member {
                name: "etag",
                field: Field::Text(etag),
            },
            Member {
                name: "key",
                field: Field::Text(key),
            },
            Member {
                name: "list",
                field: Field::Json(list),
            },
            Member {
                name: "state",
                field: Field::Text("done"),
            },
            Member {
                name: "v",
                field: Field::Number(1),
            },
        ],
    )
}

fn dated_record_json<'a>(
    alloc: Global,
    key: &'a str,
    list: &'a Value,
    etag: &'a str,
    started: u64,
    moment: u64,
) -> Result<Value, Memory>
    ensures { IfOk result
        (λ value. view value ≡ dated_record_json started moment etag.now key.now (view list.now)) }
{
    json_object(
        alloc,
        &[
            Member {
                name: "at",
                field: Field::Number(started),
            },
            Member {
                name: "done",
                field: Field::Number(moment),
            },
            Member {
                name: "etag",
                field: Field::Text(etag),
            },
            Member {
                name: "key",
                field: Field::Text(key),
            },
            Member {
                name: "list",
                field: Field::Json(list),
            },
            Member {
                name: "state",
                field: Field::Text("done"),
            },
            Member {
                name: "v",
                field: Field::Number(2),
            },
        ],
    )
}

/// The record that stands in the places of a value, where that has a text.
fn record_in(alloc: Global, value: &Value) -> Result<Record, Memory>
    ensures { IfOk result (λ r. has_record_text (record_in (view value.now)) ≡ true
        → r ≡ record_in (view value.now)) }
{
    if record_field_text(value, "state").as_bytes() == b"open".as_slice() {
        open_in(alloc, value)
    } else {
        done_record_in_json(alloc, value)
    }
}

#[tactic(auto, using(crate::proofs::Limits::open_meta))]
fn open_in(alloc: Global, value: &Value) -> Result<Record, Memory>
    ensures { IfOk result
        (λ r. has_record_text (open_in (view value.now)) ≡ true → r ≡ open_in (view value.now)) }
{
    Ok(Record::Open {
        key: Bytes::from_slice(alloc, record_field_text(value, "key").as_bytes())?,
        content_type: Bytes::from_slice(alloc, record_field_text(value, "type").as_bytes())?,
        meta: meta_in(alloc, record_field_list(value, "meta"))?,
        started: record_field_number(value, "at"),
    })
}

#[tactic(auto, using(crate::proofs::Limits::done_list))]
fn done_record_in_json(alloc: Global, value: &Value) -> Result<Record, Memory>
    ensures { IfOk result
        (λ r. has_record_text (done_record_in_json (view value.now)) ≡ true → r ≡ done_record_in_json (view value.now)) }
{
    Ok(Record::Done {
        key: Bytes::from_slice(alloc, record_field_text(value, "key").as_bytes())?,
        list: listed_in(alloc, record_field_list(value, "list"))?,
        etag: Bytes::from_slice(alloc, record_field_text(value, "etag").as_bytes())?,
        started: record_field_number(value, "at"),
        moment: moment_in(value),
    })
}

/// The moment of a completion, which version 1 doesn't have.
fn moment_in(value: &Value) -> Option<u64>
    ensures { result ≡ moment_in (view value.now) }
{
    if record_field_number(value, "v") == 1 {
        None
    } else {
        Some(record_field_number(value, "done"))
    }
}
