//! What the head of a message says of a body in chunks.
ghost use Rattle.std.specs.Prelude.{◌≡◌};
ghost use Rattle.text_forms.specs.Numbers.{number_of};
ghost use Rattle.extended.specs.Chunks.{announced_length, announced_value, chunked_form};

use chunked::{ChunkedForm, form_of};
use gate_base::Pair;
use http_wire::{first_value, has_header, has_single_header};
use s3_machine::{Code, Proper};
use text_forms::number_of;

const PAYLOAD: &[u8] = b"x-amz-content-sha256";

const LENGTH: &[u8] = b"x-amz-decoded-content-length";

/// The digits of a length, at most: a number of so many fits 64 bits.
const DIGITS: usize = 19;

/// The form in which the body of a message comes in chunks, by its one `x-amz-content-sha256`; none where that is absent, stands
/// more than once or names no form. It takes no memory.
pub fn chunked_form(headers: &[Pair]) -> Option<ChunkedForm>
    ensures { result ≡ chunked_form headers.now }
{
    if has_single_header(headers, PAYLOAD) {
        form_of(first_value(headers, PAYLOAD))
    } else {
        None
    }
}

/// How many bytes of data the one `x-amz-decoded-content-length` announces, or the code by which the request is refused.
pub(crate) fn announced_length(largest: u64, headers: &[Pair]) -> Result<u64, Proper<Code>>
    ensures { result ≡ announced_length largest headers.now }
{
    if !has_header(headers, LENGTH) {
        return Err(Proper::of(Code::MissingContentLength));
    }
    if !has_single_header(headers, LENGTH) {
        return Err(Proper::of(Code::InvalidRequest));
    }
    announced_value(largest, number_of(first_value(headers, LENGTH), DIGITS))
}

fn announced_value(largest: u64, count: Option<u64>) -> Result<u64, Proper<Code>>
    ensures { result ≡ announced_value largest count }
{
    match count {
        None => Err(Proper::of(Code::InvalidRequest)),
        Some(count) => {
            if largest < count {
                Err(Proper::of(Code::EntityTooLarge))
            } else {
                Ok(count)
            }
        }
    }
}
