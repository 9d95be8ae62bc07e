//! Numbers in decimal.
ghost use Rattle.std.specs.Prelude.{◌≡◌, ◌≤◌, ◌++◌, IfOk, OnOk, bytes_eq, decimal};
ghost use Rattle.text_forms.specs.Numbers.{is_number, number_of};

use crate::classes::all_digits;
use crate::digits::digits_value;
use gate_base::{Bytes, Memory};
use itoa::Buffer;
use std::alloc::Global;

/// Whether the text is 1 to `most` digits.
pub fn is_number(text: &[u8], most: usize) -> bool
    ensures { result ≡ is_number most text.now }
{
    1 <= text.len() && text.len() <= most && all_digits(text)
}

/// The number that the text writes in 1 to `most` digits; leading zeros may be among them. None for every other text.
#[tactic(auto, unfolding(crate::specs::Numbers::number_of))]
pub fn number_of(text: &[u8], most: usize) -> Option<u64>
    requires { most ≤ 19 }
    ensures { result ≡ number_of most text.now }
{
    if is_number(text, most) {
        Some(digits_value(text))
    } else {
        None
    }
}

/// Whether the text is the number in decimal, without leading zeros.
pub fn is_decimal_of(text: &[u8], number: u64) -> bool
    ensures { result ≡ bytes_eq text.now (decimal number) }
{
    let mut buffer = Buffer::new();
    text == buffer.format(number).as_bytes()
}

/// Adds a number in decimal. Where memory runs out, the text is as before.
pub fn append_decimal(text: &mut Bytes, number: u64) -> Result<(), Memory>
    ensures { OnOk result (text.new ≡ text.old ++ decimal number) }
{
    let mut buffer = Buffer::new();
    text.append(buffer.format(number).as_bytes())
}

/// A number in decimal.
pub fn decimal_text(alloc: Global, number: u64) -> Result<Bytes, Memory>
    ensures { IfOk result (λ text. text ≡ decimal number) }
{
    let mut buffer = Buffer::new();
    Bytes::from_slice(alloc, buffer.format(number).as_bytes())
}
