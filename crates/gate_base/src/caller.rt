ghost use Rattle.std.specs.Prelude.{◌≡◌};

use crate::{Copying, Memory};

/// Who sent a request: the holder of a key that signed it, the holder of one that may only read, or an anonymous caller.
#[derive(Clone, Copy, Debug, PartialEq, Eq)]
pub enum Caller {
    Owner,
    Reader,
    Anonymous,
}

impl Copying for Caller {
    fn copy(&self) -> Result<Caller, Memory>
        ensures { result ≡ Ok self.now }
    {
        Ok(*self)
    }
}
