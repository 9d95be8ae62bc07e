//! The size and the hash of what was written, piece by piece.
ghost use Rattle.std.specs.Prelude.{◌≡◌, ◌-◌, ◌^◌, length, min};
ghost use Rattle.sha2.specs.Sha256.{sha256};
ghost use Rattle.trial_cmd.specs.Replied.{output_of};

use gate_base::Piece;
use sha2::{Digest, Sha256};

/// How many bytes the pieces have. A count past the greatest stays there.
#[tactic(auto, using(crate::proofs::Outputs::output_more, crate::proofs::Outputs::size_more))]
pub(crate) fn size_of_pieces(pieces: &[Piece]) -> u64
    ensures { result ≡ min (length (output_of pieces.now)) (2 ^ 64 - 1) }
{
    let mut size = 0u64;
    for piece in pieces {
        size = size.saturating_add(piece.bytes.as_slice().len() as u64);
    }
    size
}

/// The SHA-256 of their bytes.
#[tactic(auto, using(crate::proofs::Outputs::output_more))]
pub(crate) fn hash_of_pieces(pieces: &[Piece]) -> [u8; 32]
    ensures { result ≡ sha256 (output_of pieces.now) }
{
    let mut hasher = Sha256::new();
    for piece in pieces {
        hasher.update(piece.bytes.as_slice());
    }
    hasher.finalize()
}
