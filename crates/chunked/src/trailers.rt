//! The trailers of a body, where it is of the form and its signatures are due.
ghost use Rattle.std.specs.Prelude.{◌≡◌, ◌-◌, IfOk, length, take};
ghost use Rattle.chunked.specs.Reading.{Gives, end_of, sealed_by, trailers_of};
ghost use Rattle.chunked.specs.Signatures.{is_signature_line, has_signature_line, has_trailer_signature_due, trailers_in};

use crate::chunk::read_chunk;
use crate::form::{is_signed, most_chunked_lines};
use crate::line::read_chunked_lines;
use crate::sign::{has_chunk_signature, trailer_signature};
use crate::{ChunkedFault, ChunkedForm, Seal};
use gate_base::{List, Memory, Pair};
use sigv4::are_same_signatures;
use std::alloc::Global;

/// The trailers of a body in chunks. Each byte of data is hashed once, where the form is signed; nothing is moved.
#[tactic(auto, unfolding(crate::specs::Reading::trailers_of, crate::specs::Reading::tail_at))]
pub(crate) fn chunked_trailers(
    alloc: Global,
    form: ChunkedForm,
    seal: &Seal,
    bytes: &[u8],
) -> Result<List<Pair>, ChunkedFault>
    ensures { Gives (λ trailers. trailers) result (trailers_of form seal.now bytes.now) }
{
    let mut previous = seal.signature.as_slice();
    let mut rest = bytes;
    'chunks: loop {
        let (chunk, behind) = read_chunk(is_signed(form), rest)?;
        if !has_chunk_signature(alloc, is_signed(form), seal, previous, &chunk)? {
            return Err(ChunkedFault::SignatureDiffers);
        }
        if chunk.bytes.len() == 0 {
            return chunked_tail(alloc, form, seal, chunk.signature, behind);
        }
        previous = chunk.signature;
        rest = behind;
    }
}

/// The trailers in the lines behind the last chunk, which are the rest of the body.
#[tactic(auto, unfolding(crate::specs::Reading::end_of))]
fn chunked_tail(
    alloc: Global,
    form: ChunkedForm,
    seal: &Seal,
    previous: &[u8],
    bytes: &[u8],
) -> Result<List<Pair>, ChunkedFault>
    ensures { Gives (λ trailers. trailers) result (end_of form seal.now previous.now bytes.now) }
{
    let (lines, rest) = read_chunked_lines(alloc, most_chunked_lines(form), bytes)?;
    let trailers = sealed_trailers(alloc, form, seal, previous, lines)?;
    if rest.is_empty() {
        Ok(trailers)
    } else {
        Err(ChunkedFault::InvalidRequest)
    }
}

/// The trailers among the lines, where their signature is due.
#[tactic(auto, unfolding(crate::specs::Reading::sealed_by))]
fn sealed_trailers(
    alloc: Global,
    form: ChunkedForm,
    seal: &Seal,
    previous: &[u8],
    lines: List<Pair>,
) -> Result<List<Pair>, ChunkedFault>
    ensures { Gives (λ trailers. trailers) result (sealed_by form seal.now previous.now lines) }
{
    if !has_signature_line(form, lines.as_slice()) {
        return Err(ChunkedFault::InvalidRequest);
    }
    if !has_trailer_signature(alloc, form, seal, previous, lines.as_slice())? {
        return Err(ChunkedFault::SignatureDiffers);
    }
    Ok(trailers_in(form, lines))
}

/// Whether the last line has the name of the trailers' signature, where the form has one.
fn has_signature_line(form: ChunkedForm, lines: &[Pair]) -> bool
    ensures { result ≡ has_signature_line form lines.now }
{
    match form {
        ChunkedForm::UnsignedTrailer => true,
        ChunkedForm::Signed => true,
        ChunkedForm::SignedTrailer => ends_with_signature_line(lines),
    }
}

fn ends_with_signature_line(lines: &[Pair]) -> bool
    ensures { result ≡ has_signature_line ChunkedForm.SignedTrailer lines.now }
{
    match lines {
        [.., last] => is_signature_line(last),
        [] => false,
    }
}

fn is_signature_line(line: &Pair) -> bool
    ensures { result ≡ is_signature_line line.now }
{
    line.name.as_slice() == b"x-amz-trailer-signature".as_slice()
}

fn has_trailer_signature(
    alloc: Global,
    form: ChunkedForm,
    seal: &Seal,
    previous: &[u8],
    lines: &[Pair],
) -> Result<bool, Memory>
    ensures { IfOk result (λ same.
        same ≡ has_trailer_signature_due form seal.now previous.now lines.now) }
{
    match form {
        ChunkedForm::UnsignedTrailer => Ok(true),
        ChunkedForm::Signed => Ok(true),
        ChunkedForm::SignedTrailer => ends_with_signature(alloc, seal, previous, lines),
    }
}

fn ends_with_signature(
    alloc: Global,
    seal: &Seal,
    previous: &[u8],
    lines: &[Pair],
) -> Result<bool, Memory>
    ensures { IfOk result (λ same. same ≡ has_trailer_signature_due ChunkedForm.SignedTrailer
        seal.now previous.now lines.now) }
{
    match lines {
        [trailers @ .., last] => {
            let due = trailer_signature(alloc, seal, previous, trailers)?;
            Ok(are_same_signatures(last.value.as_slice(), &due))
        }
        [] => Ok(false),
    }
}

/// The trailers among the lines.
fn trailers_in(form: ChunkedForm, lines: List<Pair>) -> List<Pair>
    ensures { result ≡ trailers_in form lines }
{
    match form {
        ChunkedForm::UnsignedTrailer => lines,
        ChunkedForm::Signed => lines,
        ChunkedForm::SignedTrailer => without_last_line(lines),
    }
}

fn without_last_line(lines: List<Pair>) -> List<Pair>
    ensures { result ≡ take (length lines - 1) lines }
{
    let mut items = lines.into_vec();
    items.pop();
    List::from_vec(items)
}
