//! Numbers that keep the limits of this profile: of a part, and of the bytes that a part is copied from.
ghost use Rattle.std.specs.Prelude.{◌≡◌};
ghost use Rattle.s3_machine.specs.Proper.{IsProperCopyRange};
ghost use Rattle.s3_machine.specs.Uploads.{IsPartNumber};

use std::marker::Model;

/// The number of a part. Contracts see it as the number.
#[derive(Clone, Copy, Debug, PartialEq, Eq)]
pub struct PartNumber {
    number: u32,
}

impl Model for PartNumber {
    ghost use Rattle.std.specs.Prelude.{ℕ};
    ghost use Rattle.s3_machine.specs.Uploads.{IsPartNumber};

    ghost Value = { ℕ };

    ghost view = { λ part. part.number };

    ghost invariant = { λ part. IsPartNumber part.number };

    ghost inverse = { λ number. record { number = number } };
}

impl PartNumber {
    /// The number of a part that this is.
    pub fn of(number: u32) -> PartNumber
        requires { IsPartNumber number }
        ensures { result ≡ number }
    {
        PartNumber { number }
    }

    /// The number.
    pub fn get(&self) -> u32
        ensures value { result ≡ self.now }
        ensures fit { IsPartNumber self.now }
    {
        self.number
    }
}

/// The bytes that a part is copied from, by the number of the first and that of the last. Contracts see it as the pair of both.
#[derive(Clone, Copy, Debug, PartialEq, Eq)]
pub struct CopyRange {
    first: u64,
    last: u64,
}

impl Model for CopyRange {
    ghost use Rattle.std.specs.Prelude.{ℕ};
    ghost use Rattle.s3_machine.specs.Proper.{IsProperCopyRange};

    ghost Value = { ℕ × ℕ };

    ghost view = { λ range. (range.first, range.last) };

    ghost invariant = { λ range. IsProperCopyRange (range.first, range.last) };

    ghost inverse = { λ pair. record { first = pair.0; last = pair.1 } };
}

impl CopyRange {
    /// The bytes from the first to the last.
    pub fn of(first: u64, last: u64) -> CopyRange
        requires { IsProperCopyRange (first, last) }
        ensures { result ≡ (first, last) }
    {
        CopyRange { first, last }
    }

    /// The numbers of the first and of the last byte.
    pub fn get(&self) -> (u64, u64)
        ensures value { result ≡ self.now }
        ensures fit { IsProperCopyRange self.now }
    {
        (self.first, self.last)
    }
}
