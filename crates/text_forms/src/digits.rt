//! The numbers that digits write.
ghost use Rattle.std.specs.Prelude.{◌≡◌, ◌≤◌, true, length};
ghost use Rattle.std.specs.List.{list_all};
ghost use Rattle.std.specs.Str.Parse.{digits_value};
ghost use Rattle.gate_base.specs.Ascii.{is_digit};

/// The number that at most 19 digits write: none of so many is past a `u64`.
pub fn digits_value(text: &[u8]) -> u64
    requires short { length text.now ≤ 19 }
    requires digits { list_all is_digit text.now ≡ true }
    ensures { result ≡ digits_value 10 text.now }
{
    let mut number = 0u64;
    for digit in text {
        number = number * 10 + u64::from(*digit - b'0');
    }
    number
}

/// The number that at most 9 digits write: none of so many is past a `u32`.
pub fn short_value(text: &[u8]) -> u32
    requires short { length text.now ≤ 9 }
    requires digits { list_all is_digit text.now ≡ true }
    ensures { result ≡ digits_value 10 text.now }
{
    let mut number = 0u32;
    for digit in text {
        number = number * 10 + u32::from(*digit - b'0');
    }
    number
}
