ghost use Rattle.std.specs.Prelude.{◌≡◌};
ghost use Rattle.std.specs.List.{list_all};
ghost use Rattle.gate_base.specs.Ascii.{is_letter_or_digit};
ghost use Rattle.gateway_cli.specs.Words.{is_key_option, is_region, is_region_byte, is_within, number_in};

use text_forms::is_number;

/// The longest name of a region, in bytes.
const LONGEST_REGION: usize = 32;

/// The longest id of a key, in bytes.
const LONGEST_KEY_ID: usize = 128;

/// The longest number, in digits.
const LONGEST_NUMBER: usize = 20;

pub(crate) fn is_region(text: &[u8]) -> bool
    ensures { result ≡ is_region text.now }
{
    1 <= text.len() && text.len() <= LONGEST_REGION && are_region_option_bytes(text)
}

fn are_region_option_bytes(text: &[u8]) -> bool
    ensures { result ≡ list_all is_region_byte text.now }
{
    text.iter().all(|byte| is_region_byte(*byte))
}

fn is_region_byte(byte: u8) -> bool
    ensures { result ≡ is_region_byte byte }
{
    byte.is_ascii_lowercase() || byte.is_ascii_digit() || byte == b'-'
}

pub(crate) fn is_key_option(text: &[u8]) -> bool
    ensures { result ≡ is_key_option text.now }
{
    1 <= text.len() && text.len() <= LONGEST_KEY_ID && are_key_option_bytes(text)
}

fn are_key_option_bytes(text: &[u8]) -> bool
    ensures { result ≡ list_all is_letter_or_digit text.now }
{
    text.iter().all(|byte| is_key_option_byte(*byte))
}

fn is_key_option_byte(byte: u8) -> bool
    ensures { result ≡ is_letter_or_digit byte }
{
    byte.is_ascii_digit() || byte.is_ascii_uppercase() || byte.is_ascii_lowercase()
}

/// The number that the text writes, where it is `least` to `most`.
pub(crate) fn number_in(text: &str, least: u64, most: u64) -> Option<u64>
    ensures { result ≡ number_in least most text.now }
{
    if !is_number(text.as_bytes(), LONGEST_NUMBER) {
        return None;
    }
    match text.parse::<u64>() {
        Ok(number) if is_within(number, least, most) => Some(number),
        _ => None,
    }
}

fn is_within(number: u64, least: u64, most: u64) -> bool
    ensures { result ≡ is_within least most number }
{
    least <= number && number <= most
}
