//! What stands in the places of a value of JSON: nothing, where a place is missing or has something of another kind.
ghost use Rattle.std.specs.Prelude.{◌≡◌, [], map, unwrap_or, option_and_then};
ghost use Rattle.serde_json.specs.Find.{as_number, as_str, as_u64, at, get};
ghost use Rattle.serde_json.specs.View.{view};
ghost use Rattle.upload_texts.specs.Places.{items_in, list_in, number_in, text_in, version_in};

use serde_json::Value;

/// The text under a name.
pub(crate) fn record_field_text<'v>(value: &'v Value, field: &str) -> &'v str
    ensures { result.now ≡ text_in (get field.now (view value.now)) }
{
    match value.get(field) {
        Some(found) => record_value_text(found),
        None => "",
    }
}

/// The text at an index.
pub(crate) fn record_item_text(value: &Value, index: usize) -> &str
    ensures { result.now ≡ text_in (at index (view value.now)) }
{
    match value.get(index) {
        Some(found) => record_value_text(found),
        None => "",
    }
}

fn record_value_text(value: &Value) -> &str
    ensures { result.now ≡ unwrap_or (as_str (view value.now)) [] }
{
    match value.as_str() {
        Some(text) => text,
        None => "",
    }
}

/// The whole number under a name.
pub(crate) fn record_field_number(value: &Value, field: &str) -> u64
    ensures { result ≡ number_in (get field.now (view value.now)) }
{
    match value.get(field) {
        Some(found) => record_value_number(found),
        None => 0,
    }
}

/// The whole number at an index.
pub(crate) fn record_item_number(value: &Value, index: usize) -> u64
    ensures { result ≡ number_in (at index (view value.now)) }
{
    match value.get(index) {
        Some(found) => record_value_number(found),
        None => 0,
    }
}

fn record_value_number(value: &Value) -> u64
    ensures { result ≡ unwrap_or (option_and_then as_u64 (as_number (view value.now))) 0 }
{
    match value.as_u64() {
        Some(number) => number,
        None => 0,
    }
}

/// What the list under a name has.
pub(crate) fn record_field_list<'v>(value: &'v Value, field: &str) -> &'v [Value]
    ensures { map view result.now ≡ list_in (get field.now (view value.now)) }
{
    match value.get(field) {
        Some(found) => list_of(found),
        None => &[],
    }
}

#[tactic(auto, using(crate::proofs::Lists::list_back))]
fn list_of(value: &Value) -> &[Value]
    ensures { map view result.now ≡ items_in (view value.now) }
{
    match value.as_array() {
        Some(items) => items,
        None => &[],
    }
}

/// The whole number under `v`, if there is one.
pub(crate) fn record_field_version(value: &Value) -> Option<u64>
    ensures { result ≡ version_in (view value.now) }
{
    value.get("v")?.as_u64()
}
