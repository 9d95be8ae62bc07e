ghost use Rattle.std.specs.Prelude.{◌≡◌};

use gate_base::Memory;

/// Why bytes can't be read as a name, an escape, a query or a target.
#[derive(Clone, Copy, Debug, PartialEq, Eq)]
pub enum NameFault {
    /// The bytes are no bucket name.
    BadBucket,
    /// A key of no byte.
    EmptyKey,
    /// A key of more than 1024 bytes.
    LongKey,
    /// The bytes aren't UTF-8, or have a byte 0.
    NotUtf8,
    /// A `%` without two hexadecimal digits behind it, or a path that doesn't begin with `/`.
    BadEscape,
    /// Memory ran out.
    Memory,
}

impl From<Memory> for NameFault {
    ghost use Rattle.s3_names.specs.declared.fault.NameFault.{NameFault};

    ghost from_gives = { λ _ fault. fault ≡ NameFault.Memory };

    fn from(_: Memory) -> NameFault {
        NameFault::Memory
    }
}
