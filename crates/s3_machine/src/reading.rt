//! What a GET or a HEAD of an object may ask for: which of its bytes, and under which conditions.
ghost use Rattle.std.specs.Prelude.{◌≡◌, ◌+◌, min};
ghost use Rattle.s3_machine.specs.Conditions.{fails, is_after, is_among, is_known, is_not_after, no_conditions};
ghost use Rattle.s3_machine.specs.Ranges.{between, span_of};
ghost use Rattle.s3_machine.specs.Reading.{judged, ranged};

use crate::ObjectHead;
use gate_base::{Bytes, Copying, List, Memory};

/// The bytes that are asked for (RFC 9110, section 14.1.2), numbered from 0: from one to another, both with it; from one
/// on; or so many at the end.
#[derive(Clone, Copy, Debug, PartialEq, Eq)]
pub enum Range {
    FromTo(u64, u64),
    From(u64),
    Last(u64),
}

impl Copying for Range {
    fn copy(&self) -> Result<Range, Memory> {
        Ok(*self)
    }
}

/// What a condition asks of an object's ETag (RFC 9110, sections 13.1.1 and 13.1.2): nothing, where the header isn't
/// there; that there is one; or that it is one of these, which stand without quotes and without the `W/` of a weak one.
#[derive(Debug, Drop)]
pub enum ETags {
    Absent,
    Any,
    Listed(List<Bytes>),
}

impl Copying for ETags {
    fn copy(&self) -> Result<ETags, Memory> {
        match self {
            ETags::Absent => Ok(ETags::Absent),
            ETags::Any => Ok(ETags::Any),
            ETags::Listed(etags) => Ok(ETags::Listed(etags.copy()?)),
        }
    }
}

/// The conditions of a GET or a HEAD (RFC 9110, section 13.1): `matched` is If-Match, `unmatched` If-None-Match,
/// `modified` If-Modified-Since and `unmodified` If-Unmodified-Since, these two in seconds since the beginning of 1970.
#[derive(Debug, Drop)]
pub struct Conditions {
    pub matched: ETags,
    pub unmatched: ETags,
    pub modified: Option<u64>,
    pub unmodified: Option<u64>,
}

impl Copying for Conditions {
    fn copy(&self) -> Result<Conditions, Memory> {
        Ok(Conditions {
            matched: self.matched.copy()?,
            unmatched: self.unmatched.copy()?,
            modified: self.modified,
            unmodified: self.unmodified,
        })
    }
}

impl Conditions {
    /// No condition. It takes no memory.
    pub fn none() -> Conditions
        ensures { result ≡ no_conditions }
    {
        Conditions {
            matched: ETags::Absent,
            unmatched: ETags::Absent,
            modified: None,
            unmodified: None,
        }
    }
}

/// Some of the bytes of an object: `length` of them from the byte `from` on, numbered from 0.
#[derive(Clone, Copy, Debug, PartialEq, Eq)]
pub struct Span {
    pub from: u64,
    pub length: u64,
}

/// What a GET or a HEAD of an object comes to. `partial` is whether a range was asked for; the span is the whole object
/// else.
#[derive(Clone, Copy, Debug, PartialEq, Eq)]
pub enum Judged {
    PreconditionFailed,
    NotModified,
    InvalidRange,
    Bytes { span: Span, partial: bool },
}

/// What a GET or a HEAD of an object with this head comes to: first the conditions (RFC 9110, section 13.2.2), then the
/// range. `InvalidRange` is for a range of which the object has no byte. It takes no memory.
pub fn judge(range: Option<Range>, conditions: &Conditions, head: &ObjectHead) -> Judged
    ensures { result ≡ judged range conditions.now head.now }
{
    let etag = head.etag.as_slice();
    if fails(conditions, etag, head.modified) {
        return Judged::PreconditionFailed;
    }
    if is_known(conditions, etag, head.modified) {
        return Judged::NotModified;
    }
    ranged(range, head.size)
}

/// The bytes of an object of this size, by the range that is asked for.
fn ranged(range: Option<Range>, size: u64) -> Judged
    ensures { result ≡ ranged range size }
{
    let Some(range) = range else {
        return Judged::Bytes {
            span: Span {
                from: 0,
                length: size,
            },
            partial: false,
        };
    };
    match span_of(range, size) {
        Some(span) => Judged::Bytes {
            span,
            partial: true,
        },
        None => Judged::InvalidRange,
    }
}

/// The bytes of an object of this size that a range asks for, if there is one of them.
fn span_of(range: Range, size: u64) -> Option<Span>
    ensures { result ≡ span_of range size }
{
    match range {
        Range::FromTo(first, last) => between(first, end_after(last, size)),
        Range::From(first) => between(first, size),
        Range::Last(count) => between(size.saturating_sub(count), size),
    }
}

/// The number behind the last byte, or the size where that is less.
fn end_after(last: u64, size: u64) -> u64
    ensures { result ≡ min (last + 1) size }
{
    if last < size { last + 1 } else { size }
}

/// The bytes from one on and before another, if there is one of them.
fn between(from: u64, end: u64) -> Option<Span>
    ensures { result ≡ between from end }
{
    if from >= end {
        return None;
    }
    Some(Span {
        from,
        length: end - from,
    })
}

/// Whether If-Match fails, or without it If-Unmodified-Since.
fn fails(conditions: &Conditions, etag: &[u8], modified: u64) -> bool
    ensures { result ≡ fails conditions.now etag.now modified }
{
    match &conditions.matched {
        ETags::Absent => is_after(modified, conditions.unmodified),
        ETags::Any => false,
        ETags::Listed(etags) => !is_among(etags.as_slice(), etag),
    }
}

/// Whether the client has the object by If-None-Match, or without it by If-Modified-Since.
fn is_known(conditions: &Conditions, etag: &[u8], modified: u64) -> bool
    ensures { result ≡ is_known conditions.now etag.now modified }
{
    match &conditions.unmatched {
        ETags::Absent => is_not_after(modified, conditions.modified),
        ETags::Any => true,
        ETags::Listed(etags) => is_among(etags.as_slice(), etag),
    }
}

fn is_after(moment: u64, since: Option<u64>) -> bool
    ensures { result ≡ is_after moment since }
{
    match since {
        Some(since) => since < moment,
        None => false,
    }
}

fn is_not_after(moment: u64, since: Option<u64>) -> bool
    ensures { result ≡ is_not_after moment since }
{
    match since {
        Some(since) => moment <= since,
        None => false,
    }
}

fn is_among(etags: &[Bytes], etag: &[u8]) -> bool
    ensures { result ≡ is_among etags.now etag.now }
{
    etags.iter().any(|listed| listed.as_slice() == etag)
}
