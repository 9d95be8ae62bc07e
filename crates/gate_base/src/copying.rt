ghost use Rattle.std.specs.Prelude.{◌≡◌, IfOk};

use crate::Memory;

/// A copy that contracts see as equal. It fails only where memory runs out.
pub trait Copying: Sized {
    fn copy(&self) -> Result<Self, Memory>
        ensures { IfOk result (λ copied. copied ≡ self.now) };
}

impl Copying for u8 {
    fn copy(&self) -> Result<u8, Memory>
        ensures { result ≡ Ok self.now }
    {
        Ok(*self)
    }
}

impl Copying for u16 {
    fn copy(&self) -> Result<u16, Memory>
        ensures { result ≡ Ok self.now }
    {
        Ok(*self)
    }
}

impl Copying for u32 {
    fn copy(&self) -> Result<u32, Memory>
        ensures { result ≡ Ok self.now }
    {
        Ok(*self)
    }
}

impl Copying for u64 {
    fn copy(&self) -> Result<u64, Memory>
        ensures { result ≡ Ok self.now }
    {
        Ok(*self)
    }
}

impl Copying for u128 {
    fn copy(&self) -> Result<u128, Memory>
        ensures { result ≡ Ok self.now }
    {
        Ok(*self)
    }
}

impl Copying for usize {
    fn copy(&self) -> Result<usize, Memory>
        ensures { result ≡ Ok self.now }
    {
        Ok(*self)
    }
}
