//! The signatures of chunks and of a trailer.
ghost use Rattle.std.specs.Prelude.{◌≡◌, IfOk, flat_map};
ghost use Rattle.hex.specs.Hex.{encode_lower};
ghost use Rattle.chunked.specs.Signatures.{hash_text, chunk_to_sign, chunk_signature, trailer_line, trailer_to_sign, trailer_signature, has_signature_due};
ghost use Rattle.chunked.specs.Views.{chunk_of};

use crate::Seal;
use crate::chunk::ChunkParts;
use gate_base::{Bytes, Memory, Pair};
use sha2::{Digest, Sha256};
use sigv4::{are_same_signatures, concatenated, hmac};
use std::alloc::Global;

/// Whether a chunk has the signature that is due behind the one before it.
pub(crate) fn has_chunk_signature(
    alloc: Global,
    signed: bool,
    seal: &Seal,
    previous: &[u8],
    chunk: &ChunkParts<'_>,
) -> Result<bool, Memory>
    ensures { IfOk result (λ same.
        same ≡ has_signature_due signed seal.now previous.now (chunk_of chunk.now)) }
{
    if !signed {
        return Ok(true);
    }
    let due = chunk_signature(alloc, seal, previous, chunk.bytes)?;
    Ok(are_same_signatures(chunk.signature, &due))
}

#[tactic(auto, unfolding(crate::specs::Signatures::chunk_signature))]
fn chunk_signature(
    alloc: Global,
    seal: &Seal,
    previous: &[u8],
    bytes: &[u8],
) -> Result<[u8; 64], Memory>
    ensures { IfOk result (λ text. text ≡ chunk_signature seal.now previous.now bytes.now) }
{
    let text = chunk_to_sign(alloc, seal, previous, bytes)?;
    Ok(hex_of_digest(&hmac(&seal.key, text.as_slice())))
}

fn chunk_to_sign(alloc: Global, seal: &Seal, previous: &[u8], bytes: &[u8]) -> Result<Bytes, Memory>
    ensures { IfOk result (λ text. text ≡ chunk_to_sign seal.now previous.now bytes.now) }
{
    let (time, scope) = (seal.date_time.as_slice(), seal.scope.as_slice());
    let none = hash_text(b"");
    let hash = hash_text(bytes);
    concatenated(
        alloc,
        &[
            b"AWS4-HMAC-SHA256-PAYLOAD\n",
            time,
            b"\n",
            scope,
            b"\n",
            previous,
            b"\n",
            &none,
            b"\n",
            &hash,
        ],
    )
}

fn hash_text(bytes: &[u8]) -> [u8; 64]
    ensures { result ≡ hash_text bytes.now }
{
    hex_of_digest(&Sha256::digest(bytes))
}

fn hex_of_digest(digest: &[u8; 32]) -> [u8; 64]
    ensures { result ≡ encode_lower digest.now }
{
    let mut text = [0; 64];
    match hex::encode_to_slice(*digest, &mut text) {
        Ok(()) => text,
        Err(_) => unreachable!(),
    }
}

/// The signature of trailers behind the last chunk's.
#[tactic(auto, unfolding(crate::specs::Signatures::trailer_signature))]
pub(crate) fn trailer_signature(
    alloc: Global,
    seal: &Seal,
    previous: &[u8],
    trailers: &[Pair],
) -> Result<[u8; 64], Memory>
    ensures { IfOk result (λ text. text ≡ trailer_signature seal.now previous.now trailers.now) }
{
    let text = trailer_to_sign(alloc, seal, previous, trailers)?;
    Ok(hex_of_digest(&hmac(&seal.key, text.as_slice())))
}

fn trailer_to_sign(
    alloc: Global,
    seal: &Seal,
    previous: &[u8],
    trailers: &[Pair],
) -> Result<Bytes, Memory>
    ensures { IfOk result (λ text. text ≡ trailer_to_sign seal.now previous.now trailers.now) }
{
    let lines = trailer_lines(alloc, trailers)?;
    let (time, scope) = (seal.date_time.as_slice(), seal.scope.as_slice());
    let hash = hash_text(lines.as_slice());
    concatenated(
        alloc,
        &[
            b"AWS4-HMAC-SHA256-TRAILER\n",
            time,
            b"\n",
            scope,
            b"\n",
            previous,
            b"\n",
            &hash,
        ],
    )
}

fn trailer_lines(alloc: Global, trailers: &[Pair]) -> Result<Bytes, Memory>
    ensures { IfOk result (λ text. text ≡ flat_map trailer_line trailers.now) }
{
    let mut text = Bytes::new(alloc);
    for trailer in trailers {
        text.append(trailer_line(alloc, trailer)?.as_slice())?;
    }
    Ok(text)
}

fn trailer_line(alloc: Global, trailer: &Pair) -> Result<Bytes, Memory>
    ensures { IfOk result (λ line. line ≡ trailer_line trailer.now) }
{
    let (name, value) = (trailer.name.as_slice(), trailer.value.as_slice());
    concatenated(alloc, &[name, b":", value, b"\n"])
}
