ghost use Rattle.std.specs.Prelude.{◌≡◌, ◌++◌, ◌∷◌, flat_map, IfOk, OnOk};
ghost use Rattle.std.specs.List.{join_with_byte};

use gate_base::{Bytes, Memory};
use std::alloc::Global;

/// The pieces in a row, with the separator between each two.
pub fn joined(alloc: Global, separator: u8, pieces: &[Bytes]) -> Result<Bytes, Memory>
    ensures { IfOk result (λ text. text ≡ join_with_byte separator pieces.now) }
{
    let mut text = Bytes::new(alloc);
    match pieces {
        [first, others @ ..] => {
            text.append(first.as_slice())?;
            append_others(&mut text, separator, others)?;
            Ok(text)
        }
        [] => Ok(text),
    }
}

/// Adds the pieces, each with the separator before it.
fn append_others(text: &mut Bytes, separator: u8, others: &[Bytes]) -> Result<(), Memory>
    ensures { OnOk result
        (text.new ≡ text.old ++ flat_map (λ piece. separator ∷ piece) others.now) }
{
    for piece in others {
        text.push(separator)?;
        text.append(piece.as_slice())?;
    }
    Ok(())
}
