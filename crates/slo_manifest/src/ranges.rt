ghost use Rattle.std.specs.Prelude.{◌≡◌};

use gate_base::{Copying, Memory};

/// Where the bytes of a range lie in the segments of an object: the first byte is byte `skip` of the segment `first`,
/// and the last one byte `end` of the segment `last`. Segments and bytes are counted from 0.
#[derive(Clone, Copy, Debug, PartialEq, Eq)]
pub struct Cover {
    pub first: usize,
    pub skip: u64,
    pub last: usize,
    pub end: u64,
}

impl Copying for Cover {
    fn copy(&self) -> Result<Cover, Memory>
        ensures { result ≡ Ok self.now }
    {
        Ok(*self)
    }
}
