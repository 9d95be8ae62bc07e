//! Values that are known to keep the limits of this profile.
ghost use Rattle.std.specs.Prelude.{◌≡◌};

use std::fmt::{self, Debug, Formatter, Write};
use std::marker::Model;

/// A type whose values have limits.
pub trait Limits {
    ghost Fits: { Self → Type 0 };
}

/// A value within the limits of its type. Contracts see it as the value.
#[derive(Drop)]
pub struct Proper<T: Limits> {
    value: T,
}

impl<T: Limits> Model for Proper<T> {
    ghost Value = { T };

    ghost view = { λ proper. proper.value };

    ghost invariant = { λ proper. T.Fits proper.value };
}

impl<T: Limits> Proper<T> {
    /// A value that keeps the limits.
    pub fn of(value: T) -> Proper<T>
        requires { T.Fits value }
        ensures { result ≡ value }
    {
        Proper { value }
    }

    /// The value, which keeps them.
    pub fn get(&self) -> &T
        ensures value { result.now ≡ self.now }
        ensures fit { T.Fits self.now }
    {
        &self.value
    }

    /// The value, given away.
    pub fn into_value(self) -> T
        ensures value { result ≡ self }
        ensures fit { T.Fits self }
    {
        self.value
    }
}

impl<T: Limits + Debug> Debug for Proper<T> {
    fn fmt<W: Write>(&self, f: &mut Formatter<W>) -> fmt::Result {
        self.value.fmt(f)
    }
}
