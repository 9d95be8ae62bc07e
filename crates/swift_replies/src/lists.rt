//! Listings in JSON, as they are read.
ghost use Rattle.std.specs.Prelude.{◌≡◌, [], Some, None, if◌then◌else◌, option_and_then, option_map, IfOk};
ghost use Rattle.json.specs.Find.{as_array};
ghost use Rattle.json.specs.Value.{value_view, items_view};
ghost use Rattle.swift_replies.specs.Answers.{each, item_from, items_in, listing_json, name_item, number_in, text_in};

use crate::listed::Listed;
use crate::objects::copied_texts;
use gate_base::{Bytes, List, Memory};
use json::{Error, Scratch, Value};
use std::alloc::Global;
use swift_calls::NameItem;
use text_forms::number_of;

/// The most digits of a size.
const MOST_DIGITS: usize = 19;

/// The items of a listing; none where the text is no such listing.
pub(crate) fn items_in_listing<T: Listed + Drop>(
    alloc: Global,
    body: &[u8],
) -> Result<Option<List<T>>, Memory>
    ensures { IfOk result
        (λ items. items ≡ option_and_then (each T.gives) (items_in body.now)) }
{
    let mut scratch = Scratch::new(alloc);
    items_in_listing_with(alloc, body, &mut scratch)
}

#[tactic(auto, using(crate::proofs::ListLemmas::listed_no_json, crate::proofs::ListLemmas::listed))]
fn items_in_listing_with<T: Listed + Drop>(
    alloc: Global,
    body: &[u8],
    scratch: &mut Scratch<Global>,
) -> Result<Option<List<T>>, Memory>
    ensures { IfOk result
        (λ items. items ≡ option_and_then (each T.gives) (items_in body.now)) }
{
    match listing_json_in(alloc, body, scratch)? {
        Some(value) => items_in_json(alloc, &value),
        None => Ok(None),
    }
}

/// The JSON of a text. Its texts are borrowed, so that no entry takes memory but for its members.
#[tactic(auto, using(crate::proofs::ListLemmas::json_read, crate::proofs::ListLemmas::json_refused))]
fn listing_json_in<'a>(
    alloc: Global,
    bytes: &'a [u8],
    scratch: &'a mut Scratch<Global>,
) -> Result<Option<Value<'a>>, Memory>
    ensures { IfOk result (λ value. option_map value_view value ≡ listing_json bytes.now) }
{
    match Value::from_slice(alloc, bytes, scratch) {
        Ok(value) => Ok(Some(value)),
        Err(Error::Invalid) => Ok(None),
        Err(_) => Err(Memory),
    }
}

/// The items of a list, one for each of its entries.
fn items_in_json<T: Listed + Drop>(
    alloc: Global,
    value: &Value<'_>,
) -> Result<Option<List<T>>, Memory>
    ensures { IfOk result
        (λ items. items ≡ option_and_then (each T.gives) (as_array (value_view value.now))) }
{
    let Value::Array(entries) = value else {
        return Ok(None);
    };
    let mut items = List::new(alloc);
    if append_items_in_json_entries(alloc, entries.as_slice(), &mut items)? {
        Ok(Some(items))
    } else {
        Ok(None)
    }
}

/// Appends what each entry gives. False where one gives nothing.
#[tactic(auto, using(crate::proofs::ListLemmas::each_more, crate::proofs::ListLemmas::each_none, crate::proofs::ListLemmas::each_all))]
fn append_items_in_json_entries<T: Listed + Drop>(
    alloc: Global,
    entries: &[Value<'_>],
    items: &mut List<T>,
) -> Result<bool, Memory>
    requires { items.old ≡ [] }
    ensures { IfOk result (λ all. (if all then Some items.new else None) ≡ each T.gives
        (items_view entries.now)) }
{
    for entry in entries {
        let Some(item) = T::from_entry(alloc, entry)? else {
            return Ok(false);
        };
        items.push(item)?;
    }
    Ok(true)
}

/// The object that an entry of a listing has.
pub(crate) fn name_item_in_json_entry(
    alloc: Global,
    entry: &Value<'_>,
) -> Result<Option<NameItem>, Memory>
    ensures { IfOk result (λ item. item ≡ name_item (value_view entry.now)) }
{
    let Some(name) = json_listing_entry_text(entry, "name") else {
        return Ok(None);
    };
    let Some(hash) = json_listing_entry_text(entry, "hash") else {
        return Ok(None);
    };
    let Some(size) = json_listing_entry_number(entry, "bytes") else {
        return Ok(None);
    };
    match json_listing_entry_text(entry, "content_type") {
        Some(content_type) => copied_name_item(alloc, name, hash, size, content_type),
        None => Ok(None),
    }
}

/// An object of these texts, which are copied.
fn copied_name_item(
    alloc: Global,
    name: &str,
    hash: &str,
    size: u64,
    content_type: &str,
) -> Result<Option<NameItem>, Memory>
    ensures { IfOk result (λ item. item ≡ item_from (Some name.now) (Some hash.now) (Some size)
        (Some content_type.now)) }
{
    let (name, hash) = copied_texts(alloc, name.as_bytes(), hash.as_bytes())?;
    let content_type = Bytes::from_slice(alloc, content_type.as_bytes())?;
    Ok(Some(NameItem {
        name,
        hash,
        size,
        content_type,
    }))
}

pub(crate) fn json_listing_entry_text<'v>(value: &'v Value<'_>, field: &str) -> Option<&'v str>
    ensures { option_map (λ text. text.now) result ≡ text_in field.now (value_view value.now) }
{
    value.get(field)?.as_str()
}

fn json_listing_entry_number(value: &Value<'_>, field: &str) -> Option<u64>
    ensures { result ≡ number_in field.now (value_view value.now) }
{
    number_of(value.get(field)?.as_number()?.as_bytes(), MOST_DIGITS)
}
