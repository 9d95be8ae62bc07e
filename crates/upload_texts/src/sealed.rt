//! A completion that is sealed.
ghost use Rattle.std.specs.Prelude.{◌≡◌, ◌^◌, nat_lt, IfOk, None, Some, true};
ghost use Rattle.serde_json.specs.Find.{get};
ghost use Rattle.serde_json.specs.View.{view};
ghost use Rattle.slo_manifest.specs.Manifest.{json_of};
ghost use Rattle.upload_texts.specs.Places.{text_in, version_in};
ghost use Rattle.upload_texts.specs.Records.{unless_known_record_version};
ghost use Rattle.s3_machine.specs.Uploads.{id_value};
ghost use Rattle.upload_texts.specs.Sealed.{has_sealed_text, read_sealed, sealed_in, sealed_text, sealed_value, sealed_object, is_first_version, MatchesSealed, ReadsSealed};

use crate::forms::{content_fits_record_text, is_moment, is_sealed_list};
use crate::places::{
    record_field_list, record_field_number, record_field_text, record_field_version,
};
use crate::reading::{
    is_same_record_text, meta_in, parse_record_json, sealed_parts_in_json,
    unless_first_sealed_version,
};
use crate::record::RecordFault;
use crate::values::{metadata_pairs_json, sealed_parts_json};
use gate_base::{Bytes, Copying, List, Memory};
use s3_names::{Meta, id_digits, is_bucket, is_key, read_id_digits};
use serde_json::Value;
use slo_manifest::{Field, Member, json_object};
use std::alloc::Global;
use swift_marks::is_etag;
use text_forms::text_of;

/// A part as a completion lists it: its number, its ETag without quotes and its size in bytes.
#[derive(Debug, Drop)]
pub struct SealedPart {
    pub number: u32,
    pub etag: Bytes,
    pub size: u64,
}

impl Copying for SealedPart {
    fn copy(&self) -> Result<SealedPart, Memory> {
        Ok(SealedPart {
            number: self.number,
            etag: self.etag.copy()?,
            size: self.size,
        })
    }
}

/// A completion that is decided and not yet finished: the bucket and the key of its object, the id of its upload, what the object
/// is put with, its parts, and its ETag without quotes. Times are seconds since the beginning of 1970: `started` of the
/// upload, `moment` of the completion.
#[derive(Debug, Drop)]
pub struct Sealed {
    pub bucket: Bytes,
    pub key: Bytes,
    pub id: u128,
    pub content_type: Bytes,
    pub meta: Meta,
    pub list: List<SealedPart>,
    pub etag: Bytes,
    pub started: u64,
    pub moment: u64,
}

impl Sealed {
    /// The sealed completion that a text is. `Version` exactly where the text is an object whose `v` is a whole number below 2^64
    /// other than 1, and `NotARecord` for every other text that `write` doesn't give.
    pub fn read(alloc: Global, bytes: &[u8]) -> Result<Sealed, RecordFault>
        ensures { ReadsSealed bytes.now result }
    {
        match parse_record_json(alloc, bytes) {
            Ok(value) => Sealed::versioned(alloc, bytes, &value),
            Err(fault) => Err(fault),
        }
    }

    /// The same of bytes whose JSON is this value.
    fn versioned(alloc: Global, bytes: &[u8], value: &Value) -> Result<Sealed, RecordFault>
        requires { json_of bytes.now ≡ Some (view value.now) }
        ensures { ReadsSealed bytes.now result }
    {
        match unless_first_sealed_version(record_field_version(value)) {
            Some(version) => Err(RecordFault::Version(version)),
            None => Sealed::checked(alloc, bytes, value),
        }
    }

    /// The same where the version is the first.
    #[tactic(auto, using(crate::proofs::Answering::sealed_unmatched))]
    fn checked(alloc: Global, bytes: &[u8], value: &Value) -> Result<Sealed, RecordFault>
        requires parsed { json_of bytes.now ≡ Some (view value.now) }
        requires known { unless_known_record_version is_first_version (version_in (view value.now)) ≡ None }
        ensures { ReadsSealed bytes.now result }
    {
        let found = sealed_in(alloc, value)?;
        found.check_text(alloc, bytes)?;
        Ok(found)
    }

    /// Whether these bytes are the text of the sealed completion: `NotARecord` where they aren't, or it has none.
    fn check_text(&self, alloc: Global, bytes: &[u8]) -> Result<(), RecordFault>
        ensures { MatchesSealed self.now bytes.now result }
    {
        if !self.has_text() {
            return Err(RecordFault::NotARecord);
        }
        let text = self.write(alloc)?;
        if !is_same_record_text(text.as_slice(), bytes) {
            return Err(RecordFault::NotARecord);
        }
        Ok(())
    }

    /// The one text of the sealed completion, which is read as it. It asks for one that has a text (`has_text`), and fails only
    /// where memory runs out.
    pub fn write(&self, alloc: Global) -> Result<Bytes, Memory>
        requires { has_sealed_text self.now ≡ true }
        ensures text { IfOk result (λ text. text ≡ sealed_text self.now) }
        ensures reads_back { IfOk result (λ text. read_sealed text ≡ Some self.now) }
    {
        let value = self.value(alloc)?;
        Ok(Bytes::from_vec(value.to_vec(alloc)?))
    }

    /// Whether the sealed completion has a text: its bucket, key, type, metadata, ETags, numbers, sizes and moments keep their
    /// limits, and it lists at least one part, and at most as many as it may. It takes no memory.
    #[tactic(auto, unfolding(crate::specs::Sealed::has_sealed_text))]
    pub fn has_text(&self) -> bool
        ensures { result ≡ has_sealed_text self.now }
    {
        is_bucket(self.bucket.as_slice())
            && is_key(self.key.as_slice())
            && id_fits_sealed_text(self.id)
            && content_fits_record_text(self.content_type.as_slice(), &self.meta)
            && is_sealed_list(self.list.as_slice())
            && is_etag(self.etag.as_slice())
            && is_moment(self.started)
            && is_moment(self.moment)
    }

    #[tactic(auto, using(crate::proofs::Limits::sealed_bucket, crate::proofs::Limits::sealed_key, crate::proofs::Limits::sealed_type, crate::proofs::Limits::sealed_pairs, crate::proofs::Limits::sealed_parts, crate::proofs::Limits::sealed_etag, crate::proofs::Utf8::id_is_utf8))]
    fn value(&self, alloc: Global) -> Result<Value, Memory>
        requires { has_sealed_text self.now ≡ true }
        ensures { IfOk result (λ value. view value ≡ sealed_value self.now) }
    {
        let list = Value::Array(sealed_parts_json(alloc, self.list.as_slice())?);
        let meta = Value::Array(metadata_pairs_json(alloc, self.meta.pairs())?);
        let id = id_digits(self.id);
        let bucket = text_of(self.bucket.as_slice());
        let etag = text_of(self.etag.as_slice());
        let key = text_of(self.key.as_slice());
        let content_type = text_of(self.content_type.as_slice());
        let id = text_of(&id);
        let (started, moment) = (self.started, self.moment);
        sealed_json_object(
            alloc,
            moment,
            bucket,
            etag,
            id,
            key,
            &list,
            &meta,
            started,
            content_type,
        )
    }
}

fn sealed_json_object<'a>(
    alloc: Global,
    moment: u64,
    bucket: &'a str,
    etag: &'a str,
    id: &'a str,
    key: &'a str,
    list: &'a Value,
    meta: &'a Value,
    started: u64,
    content_type: &'a str,
) -> Result<Value, Memory>
    ensures { IfOk result (λ value. view value ≡ sealed_object moment bucket.now etag.now id.now
        key.now (view list.now) (view meta.now) started content_type.now) }
{
    json_object(
        alloc,
        &[
            Member {
                name: "at",
                field: Field::Number(moment),
            },
            Member {
                name: "bucket",
                field: Field::Text(bucket),
            },
            Member {
                name: "etag",
                field: Field::Text(etag),
            },
            Member {
                name: "id",
                field: Field::Text(id),
            },
            Member {
                name: "key",
                field: Field::Text(key),
            },
            Member {
                name: "list",
                field: Field::Json(list),
            },
            Member {
                name: "meta",
                field: Field::Json(meta),
            },
            Member {
                name: "started",
                field: Field::Number(started),
            },
            Member {
                name: "type",
                field: Field::Text(content_type),
            },
            Member {
                name: "v",
                field: Field::Number(1),
            },
        ],
    )
}

/// Every id has its digits: it has 128 bits.
fn id_fits_sealed_text(id: u128) -> bool
    ensures { result ≡ nat_lt id (2 ^ 128) }
{
    id <= u128::MAX
}

fn sealed_id_or_zero(text: &[u8]) -> u128
    ensures { result ≡ id_value text.now }
{
    match read_id_digits(text) {
        Some(id) => id,
        None => 0,
    }
}

fn sealed_field_bytes(alloc: Global, value: &Value, field: &str) -> Result<Bytes, Memory>
    ensures { IfOk result (λ bytes. bytes ≡ text_in (get field.now (view value.now))) }
{
    Bytes::from_slice(alloc, record_field_text(value, field).as_bytes())
}

/// The sealed completion that stands in the places of a value, where that has a text.
fn sealed_in(alloc: Global, value: &Value) -> Result<Sealed, Memory>
    ensures { IfOk result (λ sealed. has_sealed_text (sealed_in (view value.now)) ≡ true
        → sealed ≡ sealed_in (view value.now)) }
{
    let pairs = record_field_list(value, "meta");
    let parts = record_field_list(value, "list");
    let digits = record_field_text(value, "id");
    let id = sealed_id_or_zero(digits.as_bytes());
    let started = record_field_number(value, "started");
    let moment = record_field_number(value, "at");
    let bucket = sealed_field_bytes(alloc, value, "bucket")?;
    let key = sealed_field_bytes(alloc, value, "key")?;
    let content_type = sealed_field_bytes(alloc, value, "type")?;
    let etag = sealed_field_bytes(alloc, value, "etag")?;
    let meta = meta_in(alloc, pairs)?;
    let list = sealed_parts_in_json(alloc, parts)?;
    Ok(Sealed {
        bucket,
        key,
        id,
        content_type,
        meta,
        list,
        etag,
        started,
        moment,
    })
}
