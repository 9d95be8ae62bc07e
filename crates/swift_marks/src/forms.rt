//! The forms of content types and ETags.
ghost use Rattle.std.specs.Prelude.{◌≡◌};
ghost use Rattle.swift_marks.specs.Tag.{is_content_type, is_part_count, is_parts_suffix, is_etag};

use crate::number::number_of;
use gate_base::is_field;
use text_forms::{all_lower_hex, is_decimal_of};

/// The longest content type, in bytes.
pub(crate) const LONGEST_TYPE: usize = 256;

/// The most parts of an object.
pub(crate) const MOST_PARTS: u64 = 10_000;

/// 1 to 256 bytes of visible ASCII and spaces, no space at either end.
pub(crate) fn is_content_type(text: &[u8]) -> bool
    ensures { result ≡ is_content_type text.now }
{
    is_field(text, LONGEST_TYPE)
}

/// Whether these bytes may be an ETag: 32 hexadecimal digits in lower case, and for an object of parts `-` and their number, from 1
/// to 10,000 without leading zeros. It takes no memory.
pub fn is_etag(etag: &[u8]) -> bool
    ensures { result ≡ is_etag etag.now }
{
    if etag.len() < 32 {
        return false;
    }
    let (digits, suffix) = etag.split_at(32);
    all_lower_hex(digits) && is_parts_suffix(suffix)
}

fn is_parts_suffix(suffix: &[u8]) -> bool
    ensures { result ≡ is_parts_suffix suffix.now }
{
    match suffix {
        [] => true,
        [byte, count @ ..] => *byte == b'-' && is_part_count(count),
    }
}

fn is_part_count(text: &[u8]) -> bool
    ensures { result ≡ is_part_count text.now }
{
    let count = number_of(text);
    1 <= count && count <= MOST_PARTS && is_decimal_of(text, count)
}
