ghost use Rattle.std.specs.Prelude.{◌≡◌, ◌↔◌, ℕ, List, true, Ok, IfOk, IsErrOf};
ghost use Rattle.std.specs.List.{list_all};
ghost use Rattle.percent_encoding.specs.Percent.{percent_encode as kit_encode, percent_decode as kit_decode};
ghost use Rattle.s3_names.specs.Answer.{Gives};
ghost use Rattle.s3_names.specs.Escapes.{is_unreserved, stays_in_path, is_escaped_byte, is_hex_digit, begins_with_two_digits, has_bad_escape, escaped_all, escaped_path, decoded, StandsFor};

use crate::NameFault;
use gate_base::{Bytes, Memory};
use percent_encoding::{AsciiSet, NON_ALPHANUMERIC, ascii_set, percent_decode, percent_encode};
use std::alloc::Global;

/// The ASCII bytes that `encode_all` escapes: all but the unreserved ones (RFC 3986, section 2.3).
const ESCAPED_IN_ALL: AsciiSet = ascii_set!(
    NON_ALPHANUMERIC
        .remove(b'-')
        .remove(b'.')
        .remove(b'_')
        .remove(b'~')
);

/// The ASCII bytes that `encode_path` escapes: the same without `/`.
const ESCAPED_IN_PATH: AsciiSet = ascii_set!(ESCAPED_IN_ALL.remove(b'/'));

/// The bytes with each but `A`-`Z`, `a`-`z`, `0`-`9`, `-`, `.`, `_`, `~` and `/` escaped as `%` and two upper-case
/// hexadecimal digits (RFC 3986, section 2.1).
pub fn encode_path(alloc: Global, bytes: &[u8]) -> Result<Bytes, Memory>
    ensures escaped { IfOk result (λ text. text ≡ escaped_path bytes.now) }
    ensures visible { list_all (is_escaped_byte stays_in_path) (escaped_path bytes.now) ≡ true }
    ensures reads_back { decoded (escaped_path bytes.now) ≡ Ok bytes.now }
{
    encode(alloc, bytes, ESCAPED_IN_PATH)
}

/// The bytes escaped as by `encode_path`, and `/` too.
pub fn encode_all(alloc: Global, bytes: &[u8]) -> Result<Bytes, Memory>
    ensures escaped { IfOk result (λ text. text ≡ escaped_all bytes.now) }
    ensures visible { list_all (is_escaped_byte is_unreserved) (escaped_all bytes.now) ≡ true }
    ensures reads_back { decoded (escaped_all bytes.now) ≡ Ok bytes.now }
{
    encode(alloc, bytes, ESCAPED_IN_ALL)
}

fn encode(alloc: Global, bytes: &[u8], set: AsciiSet) -> Result<Bytes, Memory>
    ensures { IfOk result (λ text. text ≡ kit_encode set bytes.now) }
{
    let mut text = String::new(alloc);
    percent_encode(bytes, set).append_to(&mut text)?;
    Ok(Bytes::from_vec(text.into_bytes()))
}

/// The bytes that a text stands for: `%` and two hexadecimal digits of either case stand for a byte, each other byte
/// for itself, `+` too. `BadEscape` exactly where a `%` isn't followed by two hexadecimal digits; memory runs out
/// only where there is none.
#[tactic(auto, using(crate::proofs::lemmas::EscapeLemmas::decoded_reads))]
pub fn decode(alloc: Global, bytes: &[u8]) -> Result<Bytes, NameFault>
    ensures answer { Gives result (decoded bytes.now) }
    ensures bad_escape { IsErrOf result NameFault.BadEscape ↔ (has_bad_escape bytes.now ≡ true) }
    ensures stands_for { (value : List ℕ)
        → (decoded bytes.now ≡ Ok value) ↔ StandsFor bytes.now value }
{
    if has_bad_escape(bytes) {
        return Err(NameFault::BadEscape);
    }
    Ok(unescape(alloc, bytes)?)
}

/// The bytes that a text stands for, where it has no bad escape.
pub fn unescape(alloc: Global, text: &[u8]) -> Result<Bytes, Memory>
    ensures { IfOk result (λ bytes. bytes ≡ kit_decode text.now) }
{
    let mut bytes = Vec::new(alloc);
    percent_decode(text).append_to(&mut bytes)?;
    Ok(Bytes::from_vec(bytes))
}

fn is_escape_digit(byte: u8) -> bool
    ensures { result ≡ is_hex_digit byte }
{
    byte.is_ascii_hexdigit()
}

fn begins_with_escape_digits(text: &[u8]) -> bool
    ensures { result ≡ begins_with_two_digits text.now }
{
    match text {
        [high, low, ..] => is_escape_digit(*high) && is_escape_digit(*low),
        _ => false,
    }
}

/// Whether a `%` stands somewhere without two hexadecimal digits behind it.
#[tactic(auto, unfolding(crate::specs::Escapes::has_bad_escape))]
pub fn has_bad_escape(text: &[u8]) -> bool
    ensures { result ≡ has_bad_escape text.now }
{
    let mut rest = text;
    'bytes: while let [first, behind @ ..] = rest {
        if *first == b'%' && !begins_with_escape_digits(behind) {
            return true;
        }
        rest = behind;
    }
    false
}
