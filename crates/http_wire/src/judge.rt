//! Whether a whole head is accepted, and how long its body is.
ghost use Rattle.std.specs.Prelude.{◌≡◌, ◌≤◌, length, IfOk, codes, nat_lt};
ghost use Rattle.http_wire.specs.Headers.{values_of};
ghost use Rattle.http_wire.specs.FirstMessage.{is_put, value_judged, length_judged, judge};

use crate::headers::{count_headers, first_value, has_header};
use crate::{Kind, Message};
use gate_base::Pair;
use text_forms::{digits_value, is_number};

const LENGTH: &[u8] = b"content-length";

/// The headers of a request, at most.
const HEADERS: usize = 100;

/// The digits of a length, at most: a number of so many fits 64 bits.
const DIGITS: usize = 19;

/// The limit of a body in bytes where no other is asked for: 16 MiB.
pub const BODY_LIMIT: u64 = 16_777_216;

/// The greatest limit of a body in bytes: 1 GiB. A greater one counts as this.
pub const MOST_BODY_LIMIT: u64 = 1_073_741_824;

/// How many bytes of body follow a head, at most `limit` and at most [`MOST_BODY_LIMIT`], or why it is refused.
pub(crate) fn judge(limit: u64, message: &Message) -> Result<usize, Kind>
    ensures value { result ≡ judge limit message.now }
    ensures within { IfOk result (λ size. size ≤ MOST_BODY_LIMIT) }
{
    let headers = message.headers.as_slice();
    if has_too_many_headers(headers) {
        return Err(Kind::ManyHeaders);
    }
    if has_header(headers, b"transfer-encoding") {
        return Err(Kind::Transfer);
    }
    judge_length(limit, is_put(message.method.as_slice()), headers)
}

fn has_too_many_headers(headers: &[Pair]) -> bool
    ensures { result ≡ nat_lt 100 (length headers.now) }
{
    headers.len() > HEADERS
}

fn is_put(method: &[u8]) -> bool
    ensures { result ≡ is_put method.now }
{
    method == b"PUT".as_slice()
}

/// The same by the lengths that are given.
fn judge_length(limit: u64, put: bool, headers: &[Pair]) -> Result<usize, Kind>
    ensures value { result
        ≡ length_judged limit put (values_of (codes "content-length") headers.now) }
    ensures within { IfOk result (λ size. size ≤ MOST_BODY_LIMIT) }
{
    let given = count_headers(headers, LENGTH);
    if given > 1 {
        return Err(Kind::BadLength);
    }
    if given == 1 {
        return judge_value(limit, first_value(headers, LENGTH));
    }
    if put { Err(Kind::NoLength) } else { Ok(0) }
}

/// The same by the one length.
fn judge_value(limit: u64, value: &[u8]) -> Result<usize, Kind>
    ensures value { result ≡ value_judged limit value.now }
    ensures within { IfOk result (λ size. size ≤ MOST_BODY_LIMIT) }
{
    if !is_number(value, DIGITS) {
        return Err(Kind::BadLength);
    }
    let size = digits_value(value);
    if size > limit.min(MOST_BODY_LIMIT) {
        Err(Kind::LongBody)
    } else {
        Ok(size as usize)
    }
}
