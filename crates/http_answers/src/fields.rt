//! The values of headers, each as it is read.
ghost use Rattle.std.specs.Prelude.{◌≡◌, option_map};
ghost use Rattle.std.specs.Option.{option_copied};
ghost use Rattle.http_answers.specs.Fields.{field, only, answer_content_length};

use crate::numbers::DIGITS;
use gate_base::Pair;
use http_wire::{first_value, has_header, has_single_header};
use text_forms::number_of;

/// The value of a header that may be absent: `None` where it is given more than once.
pub fn field<'a>(headers: &'a [Pair], name: &[u8]) -> Option<Option<&'a [u8]>>
    ensures { option_map option_copied result ≡ field name.now headers.now }
{
    if has_single_header(headers, name) {
        return Some(Some(first_value(headers, name)));
    }
    if has_header(headers, name) {
        None
    } else {
        Some(None)
    }
}

/// The value of a header that has to be there, exactly once.
pub fn only<'a>(headers: &'a [Pair], name: &[u8]) -> Option<&'a [u8]>
    ensures { option_copied result ≡ only name.now headers.now }
{
    match field(headers, name) {
        Some(value) => value,
        None => None,
    }
}

/// The one Content-Length, of 1 to 19 digits.
pub fn answer_content_length(headers: &[Pair]) -> Option<u64>
    ensures { result ≡ answer_content_length headers.now }
{
    number_of(only(headers, b"content-length")?, DIGITS)
}
