//! A read of one part of an object. An object has no parts but what its ETag tells: their number.
ghost use Rattle.std.specs.Prelude.{◌≡◌, ◌<◌, ◌+◌, ◌^◌, IfSome};
ghost use Rattle.text_forms.specs.Numbers.{number_of};
ghost use Rattle.s3_machine.specs.Parts.{is_of_parts, judged_by, parts_in, range_code};

use crate::reading::judge;
use crate::{Code, Conditions, Judged, ObjectHead, PartNumber, Range, Span};
use text_forms::number_of;

/// Whether an object with this ETag, which has no quotes, was put together of parts: its ETag has more than the 32 digits of a digest
/// (Amazon S3 API Reference, "CompleteMultipartUpload"). It takes no memory.
pub fn is_of_parts(etag: &[u8]) -> bool
    ensures { result ≡ is_of_parts etag.now }
{
    32 < etag.len()
}

/// How many parts the object has, where its ETag tells: behind the 32 digits and the `-`. It takes no memory.
pub fn parts_in(etag: &[u8]) -> Option<u32>
    ensures { result ≡ parts_in etag.now }
{
    if etag.len() <= 33 {
        return None;
    }
    match count_of_parts(&etag[33..]) {
        Some(count) => Some(count as u32),
        None => None,
    }
}

/// The number that at most five digits write.
fn count_of_parts(text: &[u8]) -> Option<u64>
    ensures value { result ≡ number_of 5 text.now }
    ensures within { IfSome result (λ count. count < 2 ^ 32) }
{
    number_of(text, 5)
}

/// What a GET or a HEAD of an object with this head comes to: of a part, where one is asked for, by the bytes that it has in the
/// object. `InvalidRange` is then for a part that the object doesn't have. The range counts only where no part is asked for. It takes
/// no memory.
pub fn judge_part(
    part: Option<PartNumber>,
    span: Option<Span>,
    range: Option<Range>,
    conditions: &Conditions,
    head: &ObjectHead,
) -> Judged
    requires { IfSome span (λ span. span.from + span.length < 2 ^ 64) }
    ensures { result ≡ judged_by part span range conditions.now head.now }
{
    let Some(_) = part else {
        return judge(range, conditions, head);
    };
    match span {
        None => judge(Some(Range::From(head.size)), conditions, head),
        Some(span) if span.length == 0 => judge(None, conditions, head),
        Some(span) => {
            let end = span.from + span.length;
            judge(Some(Range::FromTo(span.from, end - 1)), conditions, head)
        }
    }
}

/// The code of a read that finds none of the bytes that it asks for, in an object of this size: InvalidPartNumber where a part is
/// asked for, and else InvalidRange with the size. It takes no memory.
pub fn range_code(part: Option<PartNumber>, size: u64) -> Code
    ensures { result ≡ range_code part size }
{
    match part {
        Some(_) => Code::InvalidPartNumber,
        None => Code::InvalidRange(Some(size)),
    }
}
