//! What is asked of a copy: whether its source meets the conditions, whether an object would be copied onto itself, and which
//! bytes of a source are copied.
ghost use Rattle.std.specs.Prelude.{◌≡◌, true};
ghost use Rattle.s3_machine.specs.Copies.{copied_span, gives_bytes, has_last, is_onto_itself, may_be_copied};

use crate::reading::judge;
use crate::{Conditions, CopyRange, Described, Judged, ObjectHead, Proper, Span};
use s3_names::{BucketName, Key};

fn gives_bytes(judged: Judged) -> bool
    ensures { result ≡ gives_bytes judged }
{
    match judged {
        Judged::Bytes { .. } => true,
        Judged::PreconditionFailed | Judged::NotModified | Judged::InvalidRange => false,
    }
}

/// Whether an object with this head may be copied under these conditions: where a GET under them gives its bytes. Where it
/// mayn't, a copy is PreconditionFailed, also where the GET is NotModified. It takes no memory.
pub fn may_be_copied(conditions: &Conditions, head: &ObjectHead) -> bool
    ensures { result ≡ may_be_copied conditions.now head.now }
{
    gives_bytes(judge(None, conditions, head))
}

/// Whether an object would be copied onto itself, and nothing of it replaced.
pub fn is_onto_itself(
    bucket: &BucketName,
    key: &Key,
    from_bucket: &BucketName,
    from_key: &Key,
    replaced: &Option<Proper<Described>>,
) -> bool
    ensures { result ≡ is_onto_itself bucket.now key.now from_bucket.now from_key.now replaced.now }
{
    match replaced {
        Some(_) => false,
        None => { bucket.bytes() == from_bucket.bytes() && key.bytes() == from_key.bytes() }
    }
}

/// Whether an object of this size has the last byte of the range; where none is given, all is meant.
pub fn has_last(range: &Option<CopyRange>, size: u64) -> bool
    ensures { result ≡ has_last range.now size }
{
    match range {
        None => true,
        Some(range) => {
            let (_, last) = range.get();
            last < size
        }
    }
}

/// The bytes of a range that an object of this size has; without one all of them.
pub fn copied_span(range: &Option<CopyRange>, size: u64) -> Span
    requires { has_last range.now size ≡ true }
    ensures { result ≡ copied_span range.now size }
{
    match range {
        None => Span {
            from: 0,
            length: size,
        },
        Some(range) => {
            let (first, last) = range.get();
            Span {
                from: first,
                length: last + 1 - first,
            }
        }
    }
}
