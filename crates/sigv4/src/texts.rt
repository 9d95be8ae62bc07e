//! Texts made of others.
ghost use Rattle.std.specs.Prelude.{◌≡◌, flat_map, IfOk};

use gate_base::{Bytes, Memory};
use std::alloc::Global;

/// The texts, one behind the other.
pub fn concatenated(alloc: Global, texts: &[&[u8]]) -> Result<Bytes, Memory>
    ensures { IfOk result (λ whole. whole ≡ flat_map (λ text. text.now) texts.now) }
{
    Ok(Bytes::from_vec(texts.concat(alloc)?))
}
