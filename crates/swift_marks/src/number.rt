//! Numbers in decimal, and ids.
ghost use Rattle.std.specs.Prelude.{◌≡◌, ◌++◌, OnOk};
ghost use Rattle.swift_marks.specs.Number.{number_of, id_text, id_fits_tag};

use gate_base::{Bytes, Memory};
use s3_names::id_digits;
use text_forms::{all_digits, digits_value};

/// The most digits that are read: no number of so many is past a `u64`.
const DIGITS: usize = 19;

/// The number that at most 19 digits write; 0 for every other text.
#[tactic(auto, unfolding(crate::specs::Number::number_of))]
pub(crate) fn number_of(text: &[u8]) -> u64
    ensures { result ≡ number_of text.now }
{
    if text.len() <= DIGITS && all_digits(text) {
        digits_value(text)
    } else {
        0
    }
}

/// Adds the id of an upload, or `-` for none.
pub(crate) fn append_tag_id(text: &mut Bytes, id: Option<u128>) -> Result<(), Memory>
    ensures { OnOk result (text.new ≡ text.old ++ id_text id) }
{
    match id {
        Some(id) => text.append(&id_digits(id)),
        None => text.append(b"-"),
    }
}

/// Every id fits into its digits: it has 128 bits.
pub(crate) fn id_fits_tag(id: Option<u128>) -> bool
    ensures { result ≡ id_fits_tag id }
{
    match id {
        Some(id) => id <= u128::MAX,
        None => true,
    }
}
