//! Texts of several pieces.

use gate_base::{Bytes, Memory};

/// Appends the pieces one behind another. Where memory runs out the first ones may have been.
pub(crate) fn append_log_pieces(text: &mut Bytes, pieces: &[&[u8]]) -> Result<(), Memory> {
    for piece in pieces {
        text.append(piece)?;
    }
    Ok(())
}
