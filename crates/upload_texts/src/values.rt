//! Values of JSON for what is kept.
ghost use Rattle.std.specs.Prelude.{◌≡◌, map, true, IfOk};
ghost use Rattle.std.specs.List.{list_all};
ghost use Rattle.serde_json.specs.View.{view};
ghost use Rattle.s3_machine.specs.Limits.{is_proper_pair};
ghost use Rattle.upload_texts.specs.Places.{record_part_json, metadata_pair_json};
ghost use Rattle.upload_texts.specs.Records.{part_fits_record_text};
ghost use Rattle.upload_texts.specs.Sealed.{part_fits_sealed_text, sealed_part_json};

use crate::sealed::SealedPart;
use gate_base::{Memory, Pair};
use s3_machine::Listed;
use serde_json::Value;
use slo_manifest::{Field, json_array};
use std::alloc::Global;
use text_forms::text_of;

/// `[NAME,VALUE]` for each entry of metadata.
#[tactic(auto, using(crate::proofs::Lists::map_more, crate::proofs::Lists::pair_there))]
pub(crate) fn metadata_pairs_json(alloc: Global, pairs: &[Pair]) -> Result<Vec<Value>, Memory>
    requires { list_all is_proper_pair pairs.now ≡ true }
    ensures { IfOk result (λ values. map view values.items ≡ map metadata_pair_json pairs.now) }
{
    let mut values = Vec::new(alloc);
    for pair in pairs {
        values.push(metadata_pair_json(alloc, pair)?)?;
    }
    Ok(values)
}

#[tactic(auto, using(crate::proofs::Utf8::name_is_utf8, crate::proofs::Utf8::value_is_utf8))]
fn metadata_pair_json(alloc: Global, pair: &Pair) -> Result<Value, Memory>
    requires { is_proper_pair pair.now ≡ true }
    ensures { IfOk result (λ value. view value ≡ metadata_pair_json pair.now) }
{
    let name = text_of(pair.name.as_slice());
    let value = text_of(pair.value.as_slice());
    json_array(alloc, &[Field::Text(name), Field::Text(value)])
}

/// `[NUMBER,ETAG]` for each part that a completion lists.
#[tactic(auto, using(crate::proofs::Lists::map_more, crate::proofs::Lists::listed_there))]
pub(crate) fn record_parts_json(alloc: Global, list: &[Listed]) -> Result<Vec<Value>, Memory>
    requires { list_all part_fits_record_text list.now ≡ true }
    ensures { IfOk result (λ values. map view values.items ≡ map record_part_json list.now) }
{
    let mut values = Vec::new(alloc);
    for listed in list {
        values.push(record_part_json(alloc, listed)?)?;
    }
    Ok(values)
}

#[tactic(auto, using(crate::proofs::Utf8::kept_etag_is_utf8))]
fn record_part_json(alloc: Global, listed: &Listed) -> Result<Value, Memory>
    requires { part_fits_record_text listed.now ≡ true }
    ensures { IfOk result (λ value. view value ≡ record_part_json listed.now) }
{
    let number = u64::from(listed.number);
    let etag = text_of(listed.etag.as_slice());
    json_array(alloc, &[Field::Number(number), Field::Text(etag)])
}

/// `[NUMBER,ETAG,SIZE]` for each part of a sealed completion.
#[tactic(auto, using(crate::proofs::Lists::map_more, crate::proofs::Lists::part_there))]
pub(crate) fn sealed_parts_json(alloc: Global, parts: &[SealedPart]) -> Result<Vec<Value>, Memory>
    requires { list_all part_fits_sealed_text parts.now ≡ true }
    ensures { IfOk result (λ values. map view values.items ≡ map sealed_part_json parts.now) }
{
    let mut values = Vec::new(alloc);
    for part in parts {
        values.push(sealed_part_json(alloc, part)?)?;
    }
    Ok(values)
}

#[tactic(auto, using(crate::proofs::Utf8::sealed_etag_is_utf8))]
fn sealed_part_json(alloc: Global, part: &SealedPart) -> Result<Value, Memory>
    requires { part_fits_sealed_text part.now ≡ true }
    ensures { IfOk result (λ value. view value ≡ sealed_part_json part.now) }
{
    let number = u64::from(part.number);
    let etag = text_of(part.etag.as_slice());
    json_array(
        alloc,
        &[
            Field::Number(number),
            Field::Text(etag),
            Field::Number(part.size),
        ],
    )
}
