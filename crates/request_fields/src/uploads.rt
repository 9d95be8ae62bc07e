//! What the query of a request for an upload in parts says: the upload, the number of a part, and the number behind which parts are
//! listed.
ghost use Rattle.std.specs.Prelude.{◌≡◌, ◌&&◌, ◌||◌, is_none, IfOk};
ghost use Rattle.request_fields.specs.Listings.{has_bad_count};
ghost use Rattle.request_fields.specs.Query.{text_at};
ghost use Rattle.request_fields.specs.Uploads.{given_upload, of_part, part_of, given_part_number, given_part_marker, has_bad_part, has_bad_number};

use crate::listings::{asked_count_of, copy_of_query_value, has_bad_count};
use crate::query::{is_asked, text_at};
use gate_base::{Bytes, Memory, Pair};
use s3_machine::{GREATEST_PART_NUMBER, PartNumber};
use std::alloc::Global;
use text_forms::number_of;

/// The most digits of the number of a part.
const DIGITS: usize = 9;

fn of_part(number: Option<u64>) -> Option<PartNumber>
    ensures { result ≡ of_part number }
{
    match number {
        Some(number) if 1 <= number && number <= u64::from(GREATEST_PART_NUMBER) => {
            Some(PartNumber::of(number as u32))
        }
        _ => None,
    }
}

/// The number of a part that the text writes in 1 to 9 digits.
#[tactic(auto, unfolding(crate::specs::Uploads::part_of))]
fn asked_part_number_of(text: &[u8]) -> Option<PartNumber>
    ensures { result ≡ part_of text.now }
{
    of_part(number_of(text, DIGITS))
}

/// The id of the upload, as it is given.
pub fn given_upload(alloc: Global, query: &[Pair]) -> Result<Bytes, Memory>
    ensures { IfOk result (λ id. id ≡ given_upload query.now) }
{
    copy_of_query_value(alloc, query, b"uploadId")
}

/// The number of the part.
pub fn given_part_number(query: &[Pair]) -> PartNumber
    ensures { result ≡ given_part_number query.now }
{
    match asked_part_number_of(text_at(query, b"partNumber")) {
        Some(number) => number,
        None => PartNumber::of(1),
    }
}

/// The number behind which the parts are listed.
pub fn given_part_marker(query: &[Pair]) -> u32
    ensures { result ≡ given_part_marker query.now }
{
    match asked_count_of(text_at(query, b"part-number-marker")) {
        Some(number) => number as u32,
        None => 0,
    }
}

fn has_bad_part(query: &[Pair]) -> bool
    ensures { result ≡ has_bad_part query.now }
{
    is_asked(query, b"partNumber") && asked_part_number_of(text_at(query, b"partNumber")).is_none()
}

/// Whether a number of the query is of another form.
pub fn has_bad_number(query: &[Pair]) -> bool
    ensures { result ≡ has_bad_number query.now }
{
    has_bad_part(query)
        || has_bad_count(query, b"max-uploads")
        || has_bad_count(query, b"max-parts")
        || has_bad_count(query, b"part-number-marker")
}
