//! Numbers in decimal, without leading zeros.
ghost use Rattle.std.specs.Prelude.{◌≡◌};
ghost use Rattle.http_answers.specs.Fields.{plain_number};

use text_forms::{digits_value, is_decimal_of, is_number};

/// The most digits that are read: no number of so many is past a `u64`.
pub(crate) const DIGITS: usize = 19;

/// The number that 1 to 19 digits without leading zeros write.
pub fn plain_number(text: &[u8]) -> Option<u64>
    ensures { result ≡ plain_number text.now }
{
    if !is_number(text, DIGITS) {
        return None;
    }
    let number = digits_value(text);
    if is_decimal_of(text, number) {
        Some(number)
    } else {
        None
    }
}
