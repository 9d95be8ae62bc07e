//! The sums of the pieces of a body.
ghost use Rattle.std.specs.Prelude.{◌≡◌};
ghost use Rattle.body_files.specs.Sums.{piece_sum};

use gate_base::{Bytes, Memory};
use md5::{Digest, Md5};
use std::alloc::Global;

/// The bytes of a piece, but for the last.
pub(crate) const PIECE: u64 = 65_536;

/// The bytes of a sum.
pub(crate) const SUM: u64 = 16;

/// The sum of the piece of a body at a place: so that neither another body's piece has it nor one of another place.
#[tactic(auto, unfolding(crate::specs::Sums::piece_sum))]
pub(crate) fn piece_sum(number: u64, index: u64, piece: &[u8]) -> [u8; 16]
    ensures { result ≡ piece_sum number index piece.now }
{
    let mut hasher = Md5::new();
    hasher.update(number.to_be_bytes());
    hasher.update(index.to_be_bytes());
    hasher.update(piece);
    hasher.finalize()
}

/// The sums of all pieces of a body, one behind the other.
pub(crate) fn sums_of(alloc: Global, number: u64, body: &[u8]) -> Result<Bytes, Memory> {
    let mut sums = Bytes::new(alloc);
    let mut index = 0u64;
    for piece in body.chunks(PIECE as usize) {
        sums.append(&piece_sum(number, index, piece))?;
        index = index.saturating_add(1);
    }
    Ok(sums)
}
