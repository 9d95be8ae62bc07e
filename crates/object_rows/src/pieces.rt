//! A list of texts as one text: each as its length in decimal, `.` and its bytes.
ghost use Rattle.std.specs.Prelude.{◌≡◌, ◌++◌, flat_map, take, drop, IfOk, OnOk};
ghost use Rattle.object_rows.specs.Pieces.{piece_text, pieces_of, first_piece, other_pieces};

use gate_base::{Bytes, List, Memory, cut};
use std::alloc::Global;
use text_forms::{append_decimal, number_of};

/// The most digits of a size that are read: no number of so many is past a `u64`.
const DIGITS: usize = 19;

/// The text of a list of texts.
pub(crate) fn joined(alloc: Global, pieces: &[Bytes]) -> Result<Bytes, Memory>
    ensures { IfOk result (λ text. text ≡ flat_map piece_text pieces.now) }
{
    let mut text = Bytes::new(alloc);
    for piece in pieces {
        append_piece(&mut text, piece.as_slice())?;
    }
    Ok(text)
}

fn append_piece(text: &mut Bytes, piece: &[u8]) -> Result<(), Memory>
    ensures { OnOk result (text.new ≡ text.old ++ piece_text piece.now) }
{
    append_decimal(text, piece.len() as u64)?;
    text.append(b".")?;
    text.append(piece)
}

/// The texts that stand in the places of a text. Where it is not the text of a list, they are some list.
pub fn pieces_of(alloc: Global, text: &[u8]) -> Result<List<Bytes>, Memory>
    ensures { IfOk result (λ pieces. pieces ≡ pieces_of text.now) }
{
    let mut pieces = List::new(alloc);
    let mut rest = text;
    'pieces: while rest.len() != 0 {
        let (piece, behind) = first_piece(rest);
        pieces.push(Bytes::from_slice(alloc, piece)?)?;
        rest = behind;
    }
    Ok(pieces)
}

/// The piece at the front, and what stands behind it.
#[tactic(auto, unfolding(crate::specs::Pieces::first_piece, crate::specs::Pieces::other_pieces))]
fn first_piece(text: &[u8]) -> (&[u8], &[u8])
    ensures piece { result.0.now ≡ first_piece text.now }
    ensures behind { result.1.now ≡ other_pieces text.now }
{
    let (size, body) = cut(text, b'.');
    cut_at(body, number_of(size, DIGITS).unwrap_or(0))
}

/// The first bytes, as many or all, and those behind them.
fn cut_at(text: &[u8], size: u64) -> (&[u8], &[u8])
    ensures front { result.0.now ≡ take size text.now }
    ensures behind { result.1.now ≡ drop size text.now }
{
    if size < text.len() as u64 {
        text.split_at(size as usize)
    } else {
        (text, &text[text.len()..])
    }
}
