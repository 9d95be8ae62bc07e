//! What stands at the front of bytes: a word, a run of bytes of a class, so many bytes.
ghost use Rattle.std.specs.Prelude.{◌≡◌, ◌≤◌, length, true};
ghost use Rattle.std.specs.List.{list_all, prefix_len};
ghost use Rattle.std.specs.Char.{digit_value};
ghost use Rattle.std.specs.Str.Parse.{digits_value};
ghost use Rattle.chunked.specs.Classes.{has};
ghost use Rattle.chunked.specs.Reading.{Reads, word_at, run_at, block_at};
ghost use Rattle.chunked.specs.Sent.{is_hex_digit, is_name_byte, is_text_byte};
ghost use Rattle.chunked.specs.Views.{behind, texts};

use crate::ChunkedFault;
use text_forms::is_lower_hex;

/// A class of bytes.
#[derive(Clone, Copy)]
pub(crate) enum ChunkClass {
    /// A hexadecimal digit in either case.
    Hex,
    /// A hexadecimal digit in lower case.
    LowerHex,
    /// A letter, a digit or `-`.
    Name,
    /// Visible ASCII, a space or a tab.
    Text,
    /// LF.
    Feed,
}

fn chunk_class_has(class: ChunkClass, byte: u8) -> bool
    ensures { result ≡ has class byte }
{
    match class {
        ChunkClass::Hex => is_chunk_hex_digit(byte),
        ChunkClass::LowerHex => is_lower_hex(byte),
        ChunkClass::Name => is_chunk_name_byte(byte),
        ChunkClass::Text => is_chunk_text_byte(byte),
        ChunkClass::Feed => byte == b'\n',
    }
}

fn is_chunk_hex_digit(byte: u8) -> bool
    ensures { result ≡ is_hex_digit byte }
{
    char::from(byte).is_digit(16)
}

fn is_chunk_name_byte(byte: u8) -> bool
    ensures { result ≡ is_name_byte byte }
{
    byte.is_ascii_digit() || byte.is_ascii_uppercase() || byte.is_ascii_lowercase() || byte == b'-'
}

fn is_chunk_text_byte(byte: u8) -> bool
    ensures { result ≡ is_text_byte byte }
{
    (b' ' <= byte && byte <= b'~') || byte == b'\t'
}

/// The bytes behind a word.
#[tactic(auto, unfolding(crate::specs::Reading::word_at))]
pub(crate) fn read_chunk_word<'a>(bytes: &'a [u8], word: &[u8]) -> Result<&'a [u8], ChunkedFault>
    ensures { Reads behind result (word_at word.now bytes.now) }
{
    let mut rest = bytes;
    'bytes: for expected in word {
        let [first, behind @ ..] = rest else {
            return Err(ChunkedFault::IncompleteBody);
        };
        if *first != *expected {
            return Err(ChunkedFault::InvalidRequest);
        }
        rest = behind;
    }
    Ok(rest)
}

/// The run of all bytes of a class at the front, of `least` to `most`, where a byte of another class follows; and the bytes behind it.
#[tactic(auto, unfolding(crate::specs::Reading::run_at))]
pub(crate) fn read_chunk_run(
    bytes: &[u8],
    class: ChunkClass,
    least: usize,
    most: usize,
) -> Result<(&[u8], &[u8]), ChunkedFault>
    ensures { Reads texts result (run_at (has class) least most bytes.now) }
{
    let end = chunk_run_end(bytes, class);
    if end > most {
        return Err(ChunkedFault::InvalidRequest);
    }
    if end == bytes.len() {
        return Err(ChunkedFault::IncompleteBody);
    }
    if end < least {
        return Err(ChunkedFault::InvalidRequest);
    }
    Ok(bytes.split_at(end))
}

fn chunk_run_end(bytes: &[u8], class: ChunkClass) -> usize
    ensures is { result ≡ prefix_len (has class) bytes.now }
    ensures within { result ≤ length bytes.now }
{
    bytes
        .iter()
        .take_while(|byte| chunk_class_has(class, **byte))
        .count()
}

/// So many bytes, and those behind them.
#[tactic(auto, unfolding(crate::specs::Reading::block_at))]
pub(crate) fn read_chunk_block(bytes: &[u8], count: u64) -> Result<(&[u8], &[u8]), ChunkedFault>
    ensures { Reads texts result (block_at count bytes.now) }
{
    if (bytes.len() as u64) < count {
        return Err(ChunkedFault::IncompleteBody);
    }
    Ok(bytes.split_at(count as usize))
}

/// The number that at most 16 hexadecimal digits write, in either case.
pub(crate) fn chunk_length(digits: &[u8]) -> u64
    requires short { length digits.now ≤ 16 }
    requires hex { list_all is_hex_digit digits.now ≡ true }
    ensures { result ≡ digits_value 16 digits.now }
{
    let mut number = 0u64;
    for digit in digits {
        number = number * 16 + chunk_digit_value(*digit);
    }
    number
}

fn chunk_digit_value(digit: u8) -> u64
    requires { is_hex_digit digit ≡ true }
    ensures { result ≡ digit_value digit }
{
    match char::from(digit).to_digit(16) {
        Some(value) => u64::from(value),
        None => 0,
    }
}
