//! The header Content-Encoding of a body that came in chunks.
ghost use Rattle.std.specs.Prelude.{◌≡◌, ◌++◌, IfOk, OnOk, drop, flat_map, length, nat_lt};
ghost use Rattle.std.specs.List.{position_or_len, slice_split};
ghost use Rattle.chunked.specs.Encoding.{is_comma, is_chunked_token, kept_piece, without_chunked};

use gate_base::{Bytes, Memory, cut, first_place};
use std::alloc::Global;
use text_forms::without_blanks;

/// The text of a Content-Encoding without the token `aws-chunked`, in any case and as often as it stands there: the other tokens as
/// they were, with `,` between each two. The empty text is no encoding.
#[tactic(auto, unfolding(crate::specs::Encoding::without_chunked))]
pub fn without_chunked(alloc: Global, text: &[u8]) -> Result<Bytes, Memory>
    ensures { IfOk result (λ rest. rest ≡ without_chunked text.now) }
{
    let kept = kept_encodings(alloc, text)?;
    Bytes::from_slice(
        alloc,
        without_blanks(behind_encoding_comma(kept.as_slice())),
    )
}

fn behind_encoding_comma(text: &[u8]) -> &[u8]
    ensures { result.now ≡ drop 1 text.now }
{
    match text {
        [_, behind @ ..] => behind,
        [] => text,
    }
}

fn kept_encodings(alloc: Global, text: &[u8]) -> Result<Bytes, Memory>
    ensures { IfOk result (λ kept. kept ≡ flat_map kept_piece (slice_split is_comma text.now)) }
{
    let mut kept = Bytes::new(alloc);
    let mut rest = text;
    'pieces: while has_encoding_comma(rest) {
        let (piece, behind) = cut(rest, b',');
        keep_encoding(&mut kept, piece)?;
        rest = behind;
    }
    keep_encoding(&mut kept, rest)?;
    Ok(kept)
}

fn has_encoding_comma(text: &[u8]) -> bool
    ensures { result ≡ nat_lt (position_or_len is_comma text.now) (length text.now) }
{
    first_place(text, b',').is_some()
}

fn keep_encoding(kept: &mut Bytes, piece: &[u8]) -> Result<(), Memory>
    ensures { OnOk result (kept.new ≡ kept.old ++ kept_piece piece.now) }
{
    if is_chunked_token(piece) {
        return Ok(());
    }
    kept.push(b',')?;
    kept.append(piece)
}

fn is_chunked_token(piece: &[u8]) -> bool
    ensures { result ≡ is_chunked_token piece.now }
{
    without_blanks(piece).eq_ignore_ascii_case(b"aws-chunked")
}
