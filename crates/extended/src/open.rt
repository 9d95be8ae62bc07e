//! A message whose body comes in chunks, opened in its place.
ghost use Rattle.std.specs.Prelude.{◌≡◌, Ok, Err};
ghost use Rattle.chunked.specs.Forms.{is_signed};
ghost use Rattle.chunked.specs.Reading.{decoded_of};
ghost use Rattle.s3_requests.specs.Meaning.{KeepsFront};
ghost use Rattle.extended.specs.Chunks.{announced_length};
ghost use Rattle.extended.specs.Opened.{Opens, opened, opened_by, opened_for, opened_with, unused_seal};

use crate::Sender;
use crate::announced::announced_length;
use crate::headers::decoded_headers;
use crate::refused::{refused_by, refused_by_chunks};
use chunked::{ChunkedForm, Decoded, decode, is_signed};
use gate_base::{Bytes, Caller};
use http_wire::Message;
use s3_machine::Code;
use s3_names::Target;
use s3_requests::Meant;
use sigv4::{Keys, Seal, SignedRequest, verify_head};
use std::alloc::Global;
use std::mem;

/// What a message is opened by: the keys that may have signed it, the region, and the most bytes of its data.
#[derive(Drop)]
pub struct ChunkRules<'a> {
    pub keys: &'a Keys,
    pub region: &'a [u8],
    pub largest: u64,
}

/// Opens a message whose body comes in chunks of this form: it is left with its data, of `by.largest` bytes at most, in place of its
/// body, and without `aws-chunked` in its Content-Encoding. Gives who sent it, or what it is answered: what refuses the signature of
/// its head; InvalidRequest where nobody signed the head and the chunks should be signed; MissingContentLength, InvalidRequest or
/// EntityTooLarge by its `x-amz-decoded-content-length`, which has to stand once, with 1 to 19 digits; and IncompleteBody,
/// InvalidRequest or SignatureDoesNotMatch by its body. Method and target stay. A message that is refused may have lost its body.
#[tactic(auto, unfolding(crate::specs::Opened::opened), using(crate::proofs::Opening::head_refused))]
pub fn open_chunked(
    alloc: Global,
    by: &ChunkRules<'_>,
    form: ChunkedForm,
    message: &mut Message,
    target: &Target,
    moment: u64,
) -> Result<Sender, Meant>
    ensures opens { Opens (opened by.now.keys.now by.now.region.now by.now.largest form
        message.entry.now target.now moment) result message.exit.now }
    ensures keeps { KeepsFront message.entry.now message.exit.now }
{
    let request = SignedRequest {
        message,
        target,
        region: by.region,
        moment,
    };
    match verify_head(alloc, by.keys, &request) {
        Ok(Some(seal)) => open_chunked_from(alloc, Caller::Owner, by.largest, form, &seal, message),
        Ok(None) => open_chunked_unsigned(alloc, by.largest, form, message),
        Err(refusal) => Err(refused_by(refusal)),
    }
}

/// The same of a message whose head nobody signed.
fn open_chunked_unsigned(
    alloc: Global,
    largest: u64,
    form: ChunkedForm,
    message: &mut Message,
) -> Result<Sender, Meant>
    ensures opens { Opens (opened_for largest form message.entry.now (Ok None)) result message.exit.now }
    ensures keeps { KeepsFront message.entry.now message.exit.now }
{
    if is_signed(form) {
        return Err(Meant::refused(Code::InvalidRequest));
    }
    open_chunked_from(
        alloc,
        Caller::Anonymous,
        largest,
        form,
        &unused_seal(alloc),
        message,
    )
}

/// A seal for chunks without signatures, which isn't looked at. It takes no memory.
fn unused_seal(alloc: Global) -> Seal
    ensures { result ≡ unused_seal }
{
    Seal {
        key: [0; 32],
        date_time: Bytes::new(alloc),
        scope: Bytes::new(alloc),
        signature: Bytes::new(alloc),
    }
}

/// The same of one that this caller sent.
fn open_chunked_from(
    alloc: Global,
    caller: Caller,
    largest: u64,
    form: ChunkedForm,
    seal: &Seal,
    message: &mut Message,
) -> Result<Sender, Meant>
    ensures opens { Opens (opened_with caller form seal.now message.entry.now
        (announced_length largest message.entry.now.headers)) result message.exit.now }
    ensures keeps { KeepsFront message.entry.now message.exit.now }
{
    match announced_length(largest, message.headers.as_slice()) {
        Ok(count) => open_chunked_body(alloc, caller, form, seal, count, message),
        Err(code) => Err(Meant::Refused(code)),
    }
}

/// The same of one that announces so many bytes of data.
#[tactic(auto, using(crate::proofs::Opening::body_refused))]
fn open_chunked_body(
    alloc: Global,
    caller: Caller,
    form: ChunkedForm,
    seal: &Seal,
    count: u64,
    message: &mut Message,
) -> Result<Sender, Meant>
    ensures opens { Opens (opened_by caller message.entry.now
        (decoded_of form seal.now count message.entry.now.body)) result message.exit.now }
    ensures keeps { KeepsFront message.entry.now message.exit.now }
{
    let body = mem::replace(&mut message.body, Bytes::new(alloc));
    match decode(alloc, form, seal, count, body.into_vec()) {
        Ok(decoded) => put_decoded_data(alloc, caller, decoded, message),
        Err(fault) => Err(refused_by_chunks(fault)),
    }
}

/// Puts into the message what its body says.
fn put_decoded_data(
    alloc: Global,
    caller: Caller,
    decoded: Decoded,
    message: &mut Message,
) -> Result<Sender, Meant>
    ensures opens { Opens (opened_by caller message.entry.now (Ok decoded)) result message.exit.now }
    ensures keeps { KeepsFront message.entry.now message.exit.now }
{
    match decoded_headers(alloc, message.headers.as_slice()) {
        Ok(headers) => {
            message.headers = headers;
            message.body = decoded.data;
            Ok(Sender {
                caller,
                chunked: true,
                trailers: decoded.trailers,
            })
        }
        Err(_) => Err(Meant::Memory),
    }
}
