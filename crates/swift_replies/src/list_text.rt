//! Listings in JSON, as they are written.
ghost use Rattle.std.specs.Prelude.{◌≡◌, ◌^◌, [], nat_lt, map, IfOk, OnOk, true, false, Some, None, if◌then◌else◌};
ghost use Rattle.std.specs.List.{list_all};
ghost use Rattle.serde_json.specs.View.{view};
ghost use Rattle.serde_json.specs.Written.{compact_text, has_float};
ghost use Rattle.swift_replies.specs.AnswerText.{list_text, container_value, item_by, item_value, is_spelled_name_item};

use crate::listed::Listed;
use gate_base::{Bytes, Memory};
use serde_json::{Value, json};
use std::alloc::{AllocError, Global};
use swift_calls::NameItem;
use text_forms::{is_utf8, text_of};

/// Each number from this one on has 20 digits.
const SIZE_LIMIT: u64 = 10_000_000_000_000_000_000;

/// The text of a listing; none where a text of one of its items isn't UTF-8.
pub(crate) fn listing_text<T: Listed>(alloc: Global, items: &[T]) -> Result<Option<Bytes>, Memory>
    ensures { IfOk result (λ text. text ≡ (if list_all T.spelled items.now then Some
        (list_text (map T.written items.now)) else None)) }
{
    if are_spelled(items) {
        Ok(Some(json_of_items(alloc, items)?))
    } else {
        Ok(None)
    }
}

fn are_spelled<T: Listed>(items: &[T]) -> bool
    ensures { result ≡ list_all T.spelled items.now }
{
    items.iter().all(|item| item.is_spelled())
}

pub(crate) fn is_spelled_name_item(item: &NameItem) -> bool
    ensures { result ≡ is_spelled_name_item item.now }
{
    is_utf8(item.name.as_slice())
        && (is_utf8(item.hash.as_slice())
            && (is_utf8(item.content_type.as_slice()) && is_spelled_item_size(item.size)))
}

/// Whether a size is read as a whole number: one of at most 19 digits is.
fn is_spelled_item_size(size: u64) -> bool
    ensures { result ≡ nat_lt size (10 ^ 19) }
{
    size < SIZE_LIMIT
}

fn json_of_items<T: Listed>(alloc: Global, items: &[T]) -> Result<Bytes, Memory>
    requires { list_all T.spelled items.now ≡ true }
    ensures { IfOk result (λ text. text ≡ list_text (map T.written items.now)) }
{
    let mut entries = Vec::new(alloc);
    append_entries(alloc, items, &mut entries)?;
    json_text(alloc, &Value::Array(entries))
}

/// Appends the entry of each item.
#[tactic(auto, using(crate::proofs::ListTextLemmas::passes, crate::proofs::ListTextLemmas::map_more))]
fn append_entries<T: Listed>(
    alloc: Global,
    items: &[T],
    entries: &mut Vec<Value>,
) -> Result<(), Memory>
    requires spelled { list_all T.spelled items.now ≡ true }
    requires empty { entries.old.items ≡ [] }
    ensures { OnOk result (map view entries.new.items ≡ map T.written items.now) }
{
    for item in items {
        entries.push(item.to_entry(alloc)?)?;
    }
    Ok(())
}

fn json_text(alloc: Global, value: &Value) -> Result<Bytes, Memory>
    ensures { IfOk result (λ text. has_float (view value.now) ≡ false → text ≡ compact_text
        (view value.now)) }
{
    Ok(Bytes::from_vec(value.to_vec(alloc)?))
}

pub(crate) fn container_value(alloc: Global, name: &str) -> Result<Value, AllocError>
    ensures { IfOk result (λ value. view value ≡ container_value name.now) }
{
    json!(in alloc; {"bytes": 0u64, "count": 0u64, "name": name})
}

#[tactic(auto, using(crate::proofs::ListTextLemmas::name_is_utf8, crate::proofs::ListTextLemmas::hash_is_utf8, crate::proofs::ListTextLemmas::type_is_utf8))]
pub(crate) fn json_value_of_item(alloc: Global, item: &NameItem) -> Result<Value, AllocError>
    requires { is_spelled_name_item item.now ≡ true }
    ensures { IfOk result (λ value. view value ≡ item_value item.now) }
{
    let name = text_of(item.name.as_slice());
    let hash = text_of(item.hash.as_slice());
    let content_type = text_of(item.content_type.as_slice());
    item_value(alloc, name, hash, item.size, content_type)
}

fn item_value(
    alloc: Global,
    name: &str,
    hash: &str,
    size: u64,
    content_type: &str,
) -> Result<Value, AllocError>
    ensures { IfOk result (λ value. view value ≡ item_by name.now hash.now size content_type.now) }
{
    json!(in alloc; {
        "bytes": size,
        "content_type": content_type,
        "hash": hash,
        "last_modified": "1970-01-01T00:00:00.000000",
        "name": name
    })
}
