//! The first line of a request as a log shows it.
ghost use Rattle.std.specs.Prelude.{◌≡◌, ◌<◌, ◌≤◌, true, IfSome, OnOk};
ghost use Rattle.std.specs.List.{list_all};
ghost use Rattle.gate_base.specs.Fields.{is_printable};
ghost use Rattle.wire_log.specs.Plain.{is_letter, IsPlain, StaysPlain};

use gate_base::{Bytes, Memory};

/// The most bytes of a target that are shown.
const MOST: usize = 1024;

/// The most letters of a method.
const LONGEST_METHOD: usize = 32;

/// The parameters of a presigned address whose values aren't shown: who has them may make the request, or a longer-lived one. The last
/// is of Signature Version 2, which is refused here; another server may still take it.
const HIDDEN: [&[u8]; 4] = [
    b"x-amz-signature",
    b"x-amz-credential",
    b"x-amz-security-token",
    b"signature",
];

/// Appends the method and the target of a request's first line, with a space between them; `-` for a method that isn't 1 to 32
/// letters, and for a target that doesn't begin with a slash.
///
/// Of a target the first 1,024 bytes are shown, as they are escaped: a backslash, and a byte that is no visible ASCII, is `\xHH`
/// with two lower-case hexadecimal digits. `...` stands for the values of the parameters `X-Amz-Signature`, `X-Amz-Credential`,
/// `X-Amz-Security-Token` and `Signature`, however their names are written. So whatever the request's bytes are, a text that was
/// visible ASCII and spaces is so still, and no line is ended by them.
pub fn append_request_for_log(text: &mut Bytes, line: &[u8]) -> Result<(), Memory>
    ensures plain { OnOk result (StaysPlain text.old text.new) }
{
    let (method, rest) = split_logged_text(line, b' ');
    if !is_loggable_method(method) {
        return text.append(b"- -");
    }
    text.append(method)?;
    text.append(b" ")?;
    let (target, _version) = split_logged_text(rest, b' ');
    append_target_for_log(text, target)
}

/// The query of a request's first line; nothing where there is none.
pub(crate) fn logged_query(line: &[u8]) -> &[u8] {
    let (_method, rest) = split_logged_text(line, b' ');
    let (target, _version) = split_logged_text(rest, b' ');
    let (_path, query) = split_logged_text(target, b'?');
    query
}

/// Appends the names of the parameters of a request's first line, each behind a space and a question mark; in 1,024 bytes at most.
pub(crate) fn append_query_names_for_log(text: &mut Bytes, line: &[u8]) -> Result<(), Memory>
    ensures plain { OnOk result (StaysPlain text.old text.new) }
{
    let mut left = MOST;
    let mut rest = logged_query(line);
    for _parameter in 0..MOST {
        if rest.is_empty() || left == 0 {
            break;
        }
        let (parameter, behind) = split_logged_text(rest, b'&');
        let (name, _value) = split_logged_text(parameter, b'=');
        left = append_piece_for_log(text, b" ?", left)?;
        left = append_escaped_for_log(text, name, left)?;
        rest = behind;
    }
    Ok(())
}

/// Appends a text as it stands in a target, behind a space; `-` where it has no byte.
pub(crate) fn append_name_for_log(text: &mut Bytes, name: &[u8]) -> Result<(), Memory>
    ensures plain { OnOk result (StaysPlain text.old text.new) }
{
    text.append(b" ")?;
    if name.is_empty() {
        return text.append(b"-");
    }
    let _left = append_escaped_for_log(text, name, MOST)?;
    Ok(())
}

/// What stands before the first such byte, and behind it; all and nothing where there is none.
pub(crate) fn split_logged_text(bytes: &[u8], byte: u8) -> (&[u8], &[u8]) {
    match bytes.iter().position(|other| *other == byte) {
        Some(at) => (&bytes[..at], &bytes[at + 1..]),
        None => (bytes, b""),
    }
}

#[tactic(auto, using(crate::proofs::PlainLemmas::letters_are_plain))]
fn is_loggable_method(method: &[u8]) -> bool
    ensures { result ≡ true → IsPlain method.now }
{
    0 < method.len() && method.len() <= LONGEST_METHOD && are_logged_letters(method)
}

fn are_logged_letters(text: &[u8]) -> bool
    ensures { result ≡ list_all is_letter text.now }
{
    text.iter().all(|byte| is_logged_letter(*byte))
}

fn is_logged_letter(byte: u8) -> bool
    ensures { result ≡ is_letter byte }
{
    byte.is_ascii_alphabetic()
}

fn append_target_for_log(text: &mut Bytes, target: &[u8]) -> Result<(), Memory>
    ensures plain { OnOk result (StaysPlain text.old text.new) }
{
    if !target.starts_with(b"/") {
        return text.append(b"-");
    }
    let (path, query) = split_logged_text(target, b'?');
    let mut left = append_escaped_for_log(text, path, MOST)?;
    if path.len() < target.len() {
        left = append_piece_for_log(text, b"?", left)?;
    }
    append_query_for_log(text, query, left)
}

/// Appends the parameters, in so many bytes at most.
fn append_query_for_log(text: &mut Bytes, query: &[u8], room: usize) -> Result<(), Memory>
    ensures plain { OnOk result (StaysPlain text.old text.new) }
{
    let mut left = room;
    let mut rest = query;
    for _parameter in 0..MOST {
        if rest.is_empty() || left == 0 {
            break;
        }
        let (parameter, behind) = split_logged_text(rest, b'&');
        left = append_parameter_for_log(text, parameter, left)?;
        if parameter.len() < rest.len() {
            left = append_piece_for_log(text, b"&", left)?;
        }
        rest = behind;
    }
    Ok(())
}

/// Appends one parameter. How much room is left.
fn append_parameter_for_log(
    text: &mut Bytes,
    parameter: &[u8],
    room: usize,
) -> Result<usize, Memory>
    ensures plain { OnOk result (StaysPlain text.old text.new) }
{
    let (name, _value) = split_logged_text(parameter, b'=');
    if name.len() == parameter.len() || !is_hidden_in_log(name) {
        return append_escaped_for_log(text, parameter, room);
    }
    let left = append_escaped_for_log(text, name, room)?;
    append_piece_for_log(text, b"=...", left)
}

/// Appends the bytes escaped, as many as there is room for. How much room is left: none where one had to be left out.
fn append_escaped_for_log(text: &mut Bytes, bytes: &[u8], room: usize) -> Result<usize, Memory>
    ensures plain { OnOk result (StaysPlain text.old text.new) }
{
    let mut left = room;
    for byte in bytes {
        if left == 0 {
            break;
        }
        left = append_byte_for_log(text, *byte, left)?;
    }
    Ok(left)
}

fn append_byte_for_log(text: &mut Bytes, byte: u8, room: usize) -> Result<usize, Memory>
    ensures plain { OnOk result (StaysPlain text.old text.new) }
{
    if byte.is_ascii_graphic() && byte != b'\\' {
        append_piece_for_log(text, &[byte], room)
    } else {
        let high = hex_digit_for_log(byte / 16);
        let low = hex_digit_for_log(byte % 16);
        append_piece_for_log(text, &[b'\\', b'x', high, low], room)
    }
}

/// The lower-case hexadecimal digit of a value below 16.
fn hex_digit_for_log(value: u8) -> u8
    requires { value < 16 }
    ensures { is_printable result ≡ true }
{
    if value < 10 {
        b'0' + value
    } else {
        b'a' + (value - 10)
    }
}

/// Appends a piece where there is room for all of it.
fn append_piece_for_log(text: &mut Bytes, piece: &[u8], room: usize) -> Result<usize, Memory>
    requires { IsPlain piece.now }
    ensures plain { OnOk result (StaysPlain text.old text.new) }
{
    if room < piece.len() {
        return Ok(0);
    }
    text.append(piece)?;
    Ok(room - piece.len())
}

/// Whether the value of a parameter with that name isn't shown.
fn is_hidden_in_log(name: &[u8]) -> bool {
    HIDDEN
        .iter()
        .any(|hidden| spells_word_hidden_in_log(name, hidden))
}

/// Whether a name is that word, in any case, once its escapes `%HH` are read.
pub(crate) fn spells_word_hidden_in_log(name: &[u8], word: &[u8]) -> bool {
    let mut rest = name;
    for letter in word {
        let Some((byte, behind)) = first_byte_of_logged_name(rest) else {
            return false;
        };
        if !byte.eq_ignore_ascii_case(letter) {
            return false;
        }
        rest = behind;
    }
    rest.is_empty()
}

/// The first byte that a text writes, and the text behind it.
fn first_byte_of_logged_name(text: &[u8]) -> Option<(u8, &[u8])> {
    if let [b'%', high, low, rest @ ..] = text {
        if let (Some(high), Some(low)) = (
            hex_digit_of_logged_name(*high),
            hex_digit_of_logged_name(*low),
        ) {
            return Some((high * 16 + low, rest));
        }
    }
    match text {
        [byte, rest @ ..] => Some((*byte, rest)),
        [] => None,
    }
}

/// The value of a hexadecimal digit.
fn hex_digit_of_logged_name(byte: u8) -> Option<u8>
    ensures { IfSome result (λ value. value < 16) }
{
    match byte {
        b'0'..=b'9' => Some(byte - b'0'),
        b'a'..=b'f' => Some(byte - b'a' + 10),
        b'A'..=b'F' => Some(byte - b'A' + 10),
        _ => None,
    }
}
