ghost use Rattle.std.specs.Prelude.{◌≡◌, map, length, All, IfOk};
ghost use Rattle.httparse.specs.Grammar.{RequestHead};
ghost use Rattle.httparse.specs.Spans.{IsRequestAt, IsRequestWithin, IsHeaderWithin, IsWithin, span_bytes};
ghost use Rattle.http_wire.specs.FirstMessage.{message_of};
ghost use Rattle.http_wire.specs.Headers.{header_at};

use gate_base::{Bytes, Copying, Failed, List, Memory, Pair};
use httparse::spans::{HeaderSpan, RequestSpans, Span};
use std::alloc::{AllocError, Global};

/// A request: its method and target as they were sent, whether its version is HTTP/1.0, its headers in their order,
/// with names in lower case and values without the white space around them, and its body (RFC 9112, sections 3 and 5).
#[derive(Debug, Drop)]
pub struct Message {
    pub method: Bytes,
    pub target: Bytes,
    pub old: bool,
    pub headers: List<Pair>,
    pub body: Bytes,
}

impl Copying for Message {
    fn copy(&self) -> Result<Message, Memory> {
        Ok(Message {
            method: self.method.copy()?,
            target: self.target.copy()?,
            old: self.old,
            headers: self.headers.copy()?,
            body: self.body.copy()?,
        })
    }
}

/// Why a request is refused. For a whole head the first reason counts, in the order `ManyHeaders`, `Transfer`,
/// `BadLength`, `NoLength`, `LongBody`, `ShortBody` (RFC 9112, section 6, and this profile).
#[derive(Clone, Copy, Debug, PartialEq, Eq)]
pub enum Kind {
    /// There is no whole head of up to 16,384 bytes: no head can come of them, and they don't end inside a target.
    BadHead,

    /// 16,384 bytes hold no head, and one could still come or they end inside a target.
    LongHead,

    /// More than 100 headers.
    ManyHeaders,

    /// PUT without Content-Length. Any other method without one has an empty body.
    NoLength,

    /// More than one Content-Length, or one that isn't 1 to 19 digits.
    BadLength,

    /// A body of more bytes than the limit.
    LongBody,

    /// A Transfer-Encoding.
    Transfer,

    /// The connection ends inside the body.
    ShortBody,
}

impl Copying for Kind {
    fn copy(&self) -> Result<Kind, Memory>
        ensures { result ≡ Ok self.now }
    {
        Ok(*self)
    }
}

/// What stands first in the rest of a connection.
#[derive(Debug, Drop)]
pub enum Got {
    Request(Message),

    /// No byte is left.
    End,

    /// The bytes end inside a head that could still go on, or inside its target, after so many bytes of requests.
    CutShort(u64),

    /// A request that isn't read, after so many bytes of requests. `head` says that its head is whole and that its
    /// method is HEAD, so that a reply to it has no body (RFC 9110, section 9.3.2).
    Refused { kind: Kind, place: u64, head: bool },
}

impl Copying for Got {
    fn copy(&self) -> Result<Got, Memory> {
        match self {
            Got::Request(message) => Ok(Got::Request(message.copy()?)),
            Got::End => Ok(Got::End),
            Got::CutShort(place) => Ok(Got::CutShort(*place)),
            Got::Refused { kind, place, head } => Ok(Got::Refused {
                kind: *kind,
                place: *place,
                head: *head,
            }),
        }
    }
}

/// Why no answer came: the line failed, or memory ran out.
#[derive(Clone, Copy, Debug, PartialEq, Eq)]
pub enum ReadFault {
    Failed,
    Memory,
}

impl From<Failed> for ReadFault {
    ghost use Rattle.std.specs.Prelude.{◌≡◌};
    ghost use Rattle.http_wire.specs.declared.message.ReadFault.TheVariants.{Failed as line_failed};

    ghost from_gives = { λ _ fault. fault ≡ line_failed };

    fn from(_: Failed) -> ReadFault {
        ReadFault::Failed
    }
}

impl From<Memory> for ReadFault {
    ghost use Rattle.std.specs.Prelude.{◌≡◌};
    ghost use Rattle.http_wire.specs.declared.message.ReadFault.TheVariants.{Memory as out_of_memory};

    ghost from_gives = { λ _ fault. fault ≡ out_of_memory };

    fn from(_: Memory) -> ReadFault {
        ReadFault::Memory
    }
}

impl From<AllocError> for ReadFault {
    ghost use Rattle.std.specs.Prelude.{◌≡◌};
    ghost use Rattle.http_wire.specs.declared.message.ReadFault.TheVariants.{Memory as out_of_memory};

    ghost from_gives = { λ _ fault. fault ≡ out_of_memory };

    fn from(_: AllocError) -> ReadFault {
        ReadFault::Memory
    }
}

/// The message that the spans of a head give, with no body.
pub(crate) fn message_at_head_spans(
    alloc: Global,
    bytes: &[u8],
    headers: &[HeaderSpan],
    spans: &RequestSpans,
) -> Result<Message, Memory>
    requires { IsRequestWithin bytes.now headers.now spans.now }
    ensures { IfOk result (λ message. (h : RequestHead)
        → IsRequestAt bytes.now headers.now spans.now h → message ≡ message_of h) }
{
    Ok(Message {
        method: text_at_head_span(alloc, bytes, spans.method)?,
        target: text_at_head_span(alloc, bytes, spans.path)?,
        old: spans.version == 0,
        headers: headers_at_head_spans(alloc, bytes, &headers[..spans.headers])?,
        body: Bytes::new(alloc),
    })
}

/// The bytes that a span covers.
fn text_at_head_span(alloc: Global, bytes: &[u8], span: Span) -> Result<Bytes, Memory>
    requires { IsWithin (length bytes.now) span }
    ensures { IfOk result (λ text. text ≡ span_bytes bytes.now span) }
{
    Bytes::from_slice(alloc, span.of(bytes))
}

/// The headers that the spans cover.
fn headers_at_head_spans(
    alloc: Global,
    bytes: &[u8],
    spans: &[HeaderSpan],
) -> Result<List<Pair>, Memory>
    requires { All (IsHeaderWithin (length bytes.now)) spans.now }
    ensures { IfOk result (λ headers. headers ≡ map (header_at bytes.now) spans.now) }
{
    let mut headers = List::new(alloc);
    for span in spans {
        headers.push(header_at_head_span(alloc, bytes, span)?)?;
    }
    Ok(headers)
}

/// The header that a span covers.
fn header_at_head_span(alloc: Global, bytes: &[u8], span: &HeaderSpan) -> Result<Pair, Memory>
    requires { IsHeaderWithin (length bytes.now) span.now }
    ensures { IfOk result (λ header. header ≡ header_at bytes.now span.now) }
{
    let mut name = Vec::from_slice(alloc, span.name.of(bytes))?;
    name.make_ascii_lowercase();
    Ok(Pair {
        name: Bytes::from_vec(name),
        value: text_at_head_span(alloc, bytes, span.value)?,
    })
}
