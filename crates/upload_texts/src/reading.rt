//! The steps of reading.
ghost use Rattle.std.specs.Prelude.{◌≡◌, ◌<◌, ◌^◌, bytes_eq, map, true, IfOk};
ghost use Rattle.std.specs.List.{list_all};
ghost use Rattle.serde_json.specs.View.{view};
ghost use Rattle.s3_names.specs.Meta.{names_ascend};
ghost use Rattle.upload_texts.specs.Places.{listed_in, pair_in};
ghost use Rattle.upload_texts.specs.Records.{part_fits_record_text, is_known_version, unless_known_record_version, Parses};
ghost use Rattle.upload_texts.specs.Sealed.{is_first_version, part_fits_sealed_text, part_in};

use crate::places::{record_item_number, record_item_text};
use crate::record::RecordFault;
use crate::sealed::SealedPart;
use gate_base::{Bytes, List, Memory};
use s3_machine::Listed;
use s3_names::Meta;
use serde_json::{Category, Value};
use std::alloc::Global;

/// The JSON of a text.
#[tactic(auto, using(crate::proofs::Json::json_read, crate::proofs::Json::json_refused))]
pub(crate) fn parse_record_json(alloc: Global, bytes: &[u8]) -> Result<Value, RecordFault>
    ensures { Parses bytes.now result }
{
    match Value::from_slice(alloc, bytes) {
        Ok(value) => Ok(value),
        Err(fault) => match fault.classify() {
            Category::Memory => Err(RecordFault::Memory),
            _ => Err(RecordFault::NotARecord),
        },
    }
}

/// A version other than those of records.
pub(crate) fn unless_known_record_version(version: Option<u64>) -> Option<u64>
    ensures { result ≡ unless_known_record_version is_known_version version }
{
    match version {
        Some(version) if version != 1 && version != 2 => Some(version),
        _ => None,
    }
}

/// A version other than that of sealed completions.
pub(crate) fn unless_first_sealed_version(version: Option<u64>) -> Option<u64>
    ensures { result ≡ unless_known_record_version is_first_version version }
{
    match version {
        Some(version) if version != 1 => Some(version),
        _ => None,
    }
}

pub(crate) fn is_same_record_text(one: &[u8], other: &[u8]) -> bool
    ensures { result ≡ bytes_eq one.now other.now }
{
    one == other
}

/// The entries of metadata, where their names ascend.
#[tactic(auto, using(crate::proofs::Lists::meta_more))]
pub(crate) fn meta_in(alloc: Global, values: &[Value]) -> Result<Meta, Memory>
    ensures { IfOk result (λ meta. names_ascend (map pair_in (map view values.now)) ≡ true
        → meta ≡ map pair_in (map view values.now)) }
{
    let mut meta = Meta::new(alloc);
    for value in values {
        let name = record_item_text(value, 0);
        let text = record_item_text(value, 1);
        meta.add(name.as_bytes(), text.as_bytes())?;
    }
    Ok(meta)
}

/// A number that fits, and 0 for every other one.
fn record_number_or_zero(number: u64) -> u32
    ensures { number < 2 ^ 32 → result ≡ number }
{
    if number <= u64::from(u32::MAX) {
        number as u32
    } else {
        0
    }
}

/// The parts that a completion lists, where each keeps its limits.
pub(crate) fn listed_in(alloc: Global, values: &[Value]) -> Result<List<Listed>, Memory>
    ensures { IfOk result (λ list. list_all part_fits_record_text
        (map listed_in (map view values.now)) ≡ true → list ≡ map listed_in (map view values.now)) }
{
    let mut list = List::new(alloc);
    for value in values {
        list.push(record_part_in_json(alloc, value)?)?;
    }
    Ok(list)
}

#[tactic(auto, using(crate::proofs::Lists::kept_number))]
fn record_part_in_json(alloc: Global, value: &Value) -> Result<Listed, Memory>
    ensures { IfOk result (λ listed. part_fits_record_text (listed_in (view value.now)) ≡ true
        → listed ≡ listed_in (view value.now)) }
{
    Ok(Listed {
        number: record_number_or_zero(record_item_number(value, 0)),
        etag: Bytes::from_slice(alloc, record_item_text(value, 1).as_bytes())?,
    })
}

/// The parts of a sealed completion, where each keeps its limits.
pub(crate) fn sealed_parts_in_json(
    alloc: Global,
    values: &[Value],
) -> Result<List<SealedPart>, Memory>
    ensures { IfOk result (λ list. list_all part_fits_sealed_text
        (map part_in (map view values.now)) ≡ true → list ≡ map part_in (map view values.now)) }
{
    let mut list = List::new(alloc);
    for value in values {
        list.push(sealed_part_in_json(alloc, value)?)?;
    }
    Ok(list)
}

#[tactic(auto, using(crate::proofs::Lists::sealed_number))]
fn sealed_part_in_json(alloc: Global, value: &Value) -> Result<SealedPart, Memory>
    ensures { IfOk result (λ part. part_fits_sealed_text (part_in (view value.now)) ≡ true
        → part ≡ part_in (view value.now)) }
{
    Ok(SealedPart {
        number: record_number_or_zero(record_item_number(value, 0)),
        etag: Bytes::from_slice(alloc, record_item_text(value, 1).as_bytes())?,
        size: record_item_number(value, 2),
    })
}
