//! What a listing in JSON has an entry for: the name of a container, or an object.
ghost use Rattle.std.specs.Prelude.{◌≡◌, Bool, Option, true, false, refl, IfOk};
ghost use Rattle.std.specs.Str.{is_utf8};
ghost use Rattle.json.specs.Json.{Json};
ghost use Rattle.json.specs.Value.{value_view};
ghost use Rattle.serde_json.specs.Data.{Data};
ghost use Rattle.serde_json.specs.View.{view};
ghost use Rattle.serde_json.specs.Written.{has_float};
ghost use Rattle.swift_replies.specs.Answers.{container_name, name_item};
ghost use Rattle.swift_replies.specs.AnswerText.{container_value, item_value, is_spelled_name_item};

use crate::list_text::{container_value, is_spelled_name_item, json_value_of_item};
use crate::lists::{json_listing_entry_text, name_item_in_json_entry};
use gate_base::{Bytes, Memory};
use json::Value;
use std::alloc::{AllocError, Global};
use swift_calls::NameItem;
use text_forms::{is_utf8, text_of};

/// What has an entry in a listing.
pub(crate) trait Listed: Sized {
    /// What an entry gives, where it gives something.
    ghost gives: { Json → Option Self };

    /// Whether it has a spelling.
    ghost spelled: { Self → Bool };

    /// The entry that is written for it.
    ghost written: { Self → Data };

    /// What an entry gives; none where a field is missing or doesn't read.
    fn from_entry(alloc: Global, entry: &Value<'_>) -> Result<Option<Self>, Memory>
        ensures { IfOk result (λ item. item ≡ gives (value_view entry.now)) };

    /// Whether it has a spelling: its texts are UTF-8, and its size has at most 19 digits.
    fn is_spelled(&self) -> bool
        ensures { result ≡ spelled self.now };

    /// The entry that is written for it.
    fn to_entry(&self, alloc: Global) -> Result<serde_json::Value, AllocError>
        requires { spelled self.now ≡ true }
        ensures { IfOk result (λ value. view value ≡ written self.now) };

    /// No entry has a number with a fraction, so that its text is the one that is written.
    ghost no_float: { (item : Self) → has_float (written item) ≡ false };
}

impl Listed for Bytes {
    ghost gives = { container_name };

    ghost spelled = { is_utf8 };

    ghost written = { container_value };

    ghost no_float = { λ name. refl };

    fn from_entry(alloc: Global, entry: &Value<'_>) -> Result<Option<Bytes>, Memory> {
        match json_listing_entry_text(entry, "name") {
            Some(name) => Ok(Some(Bytes::from_slice(alloc, name.as_bytes())?)),
            None => Ok(None),
        }
    }

    fn is_spelled(&self) -> bool {
        is_utf8(self.as_slice())
    }

    fn to_entry(&self, alloc: Global) -> Result<serde_json::Value, AllocError> {
        container_value(alloc, text_of(self.as_slice()))
    }
}

impl Listed for NameItem {
    ghost gives = { name_item };

    ghost spelled = { is_spelled_name_item };

    ghost written = { item_value };

    ghost no_float = { λ item. refl };

    fn from_entry(alloc: Global, entry: &Value<'_>) -> Result<Option<NameItem>, Memory> {
        name_item_in_json_entry(alloc, entry)
    }

    fn is_spelled(&self) -> bool {
        is_spelled_name_item(self)
    }

    fn to_entry(&self, alloc: Global) -> Result<serde_json::Value, AllocError> {
        json_value_of_item(alloc, self)
    }
}
