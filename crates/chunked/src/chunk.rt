//! A chunk at the front of bytes.
ghost use Rattle.std.specs.Prelude.{◌≡◌, ◌≤◌, IfOk, length, true};
ghost use Rattle.std.specs.List.{list_all};
ghost use Rattle.chunked.specs.Reading.{Reads, signature_at, payload_at, chunk_at, run_at};
ghost use Rattle.chunked.specs.Sent.{is_hex_digit};
ghost use Rattle.chunked.specs.Views.{texts, chunks};

use crate::ChunkedFault;
use crate::scan::{ChunkClass, chunk_length, read_chunk_block, read_chunk_run, read_chunk_word};

/// A chunk: the digits that write its length, its signature, and its bytes.
#[derive(Clone, Copy)]
pub(crate) struct ChunkParts<'a> {
    pub digits: &'a [u8],
    pub signature: &'a [u8],
    pub bytes: &'a [u8],
}

/// The chunk at the front, and the bytes behind it.
#[tactic(auto, unfolding(crate::specs::Reading::chunk_at))]
pub(crate) fn read_chunk(
    signed: bool,
    bytes: &[u8],
) -> Result<(ChunkParts<'_>, &[u8]), ChunkedFault>
    ensures { Reads chunks result (chunk_at signed bytes.now) }
{
    let (digits, rest) = read_chunk_digits(bytes)?;
    let (signature, rest) = read_chunk_signature(signed, rest)?;
    let (bytes, rest) = read_chunk_payload(chunk_length(digits), rest)?;
    Ok((
        ChunkParts {
            digits,
            signature,
            bytes,
        },
        rest,
    ))
}

fn read_chunk_digits(bytes: &[u8]) -> Result<(&[u8], &[u8]), ChunkedFault>
    ensures gives { Reads texts result (run_at is_hex_digit 1 16 bytes.now) }
    ensures short { IfOk result (λ found. length found.0.now ≤ 16) }
    ensures hex { IfOk result (λ found. list_all is_hex_digit found.0.now ≡ true) }
{
    read_chunk_run(bytes, ChunkClass::Hex, 1, 16)
}

#[tactic(auto, unfolding(crate::specs::Reading::signature_at))]
fn read_chunk_signature(signed: bool, bytes: &[u8]) -> Result<(&[u8], &[u8]), ChunkedFault>
    ensures { Reads texts result (signature_at signed bytes.now) }
{
    if !signed {
        let rest = read_chunk_word(bytes, b"\r\n")?;
        return Ok((b"", rest));
    }
    let behind = read_chunk_word(bytes, b";chunk-signature=")?;
    let (signature, rest) = read_chunk_run(behind, ChunkClass::LowerHex, 64, 64)?;
    let rest = read_chunk_word(rest, b"\r\n")?;
    Ok((signature, rest))
}

#[tactic(auto, unfolding(crate::specs::Reading::payload_at))]
fn read_chunk_payload(count: u64, bytes: &[u8]) -> Result<(&[u8], &[u8]), ChunkedFault>
    ensures { Reads texts result (payload_at count bytes.now) }
{
    if count == 0 {
        return Ok((b"", bytes));
    }
    let (block, rest) = read_chunk_block(bytes, count)?;
    let rest = read_chunk_word(rest, b"\r\n")?;
    Ok((block, rest))
}
