//! The text of a key, in which references stand for characters.
ghost use Rattle.std.specs.Prelude.{◌≡◌, ◌<◌, ◌≤◌, length, true};
ghost use Rattle.std.specs.Char.{digit_value};
ghost use Rattle.std.specs.List.{list_all};
ghost use Rattle.std.specs.Str.Parse.{digits_value};
ghost use Rattle.xml_forms.specs.Forms.{Exactly};
ghost use Rattle.xml_forms.specs.Readers.{ReadsText};
ghost use Rattle.xml_forms.specs.Runs.{has};
ghost use Rattle.xml_forms.specs.declared.class.Class.TheVariants.{HexDigit};
ghost use Rattle.s3_bodies.specs.DeleteReaders.{ReadsPiece, SkipsPieces};
ghost use Rattle.s3_bodies.specs.KeyText.{Angle, Decimal, Entity, Hexadecimal, InKey, KeyText, Number, Plain, QuoteMark, Reference};
ghost use Rattle.s3_bodies.specs.declared.key_text.Piece.{Piece};

use text_forms::short_value;
use xml_forms::{Class, nearer, read_short_element_form, read_word_form};

/// A piece of a text.
#[derive(Clone, Copy, Debug, Drop)]
pub(crate) enum Piece {
    /// A byte.
    Byte(u8),
    /// The character that has this number, if one has it.
    Numbered(u32),
}

/// The text of a key up to the end of its element, as it stands there.
pub(crate) fn delete_xml_key_text(bytes: &[u8]) -> Result<(&[u8], &[u8]), usize>
    ensures { ReadsText KeyText bytes.now result }
{
    let (end, left) = pieces(bytes);
    match read_word_form(end, b"</Key>") {
        Ok(rest) => Ok((&bytes[..bytes.len() - end.len()], rest)),
        Err(other) => Err(left.min(other)),
    }
}

// The bytes behind all pieces, and how many were left where no further one could be read.
fn pieces(bytes: &[u8]) -> (&[u8], usize)
    ensures { SkipsPieces bytes.now result.0.now result.1 }
{
    let mut rest = bytes;
    'pieces: loop {
        match next_delete_xml_piece(rest) {
            Ok((_, after)) => rest = after,
            Err(left) => return (rest, left),
        }
    }
}

/// The piece at the front of bytes.
pub(crate) fn next_delete_xml_piece(bytes: &[u8]) -> Result<(Piece, &[u8]), usize>
    ensures { ReadsPiece InKey bytes.now result }
{
    nearer(delete_xml_plain_byte(bytes), delete_xml_reference(bytes))
}

fn delete_xml_plain_byte(bytes: &[u8]) -> Result<(Piece, &[u8]), usize>
    ensures { ReadsPiece Plain bytes.now result }
{
    if bytes.is_empty() {
        return Err(0);
    }
    if !Class::InText.has(bytes[0]) {
        return Err(bytes.len());
    }
    Ok((Piece::Byte(bytes[0]), &bytes[1..]))
}

fn delete_xml_reference(bytes: &[u8]) -> Result<(Piece, &[u8]), usize>
    ensures { ReadsPiece Reference bytes.now result }
{
    let rest = read_word_form(bytes, b"&")?;
    nearer(delete_xml_entity(rest), delete_xml_numbered_reference(rest))
}

fn delete_xml_entity(bytes: &[u8]) -> Result<(Piece, &[u8]), usize>
    ensures { ReadsPiece Entity bytes.now result }
{
    let other = nearer(
        delete_xml_angle_bracket(bytes),
        delete_xml_quote_mark(bytes),
    );
    nearer(delete_xml_named_entity(bytes, b"amp;", b'&'), other)
}

fn delete_xml_angle_bracket(bytes: &[u8]) -> Result<(Piece, &[u8]), usize>
    ensures { ReadsPiece Angle bytes.now result }
{
    nearer(
        delete_xml_named_entity(bytes, b"lt;", b'<'),
        delete_xml_named_entity(bytes, b"gt;", b'>'),
    )
}

fn delete_xml_quote_mark(bytes: &[u8]) -> Result<(Piece, &[u8]), usize>
    ensures { ReadsPiece QuoteMark bytes.now result }
{
    nearer(
        delete_xml_named_entity(bytes, b"quot;", b'"'),
        delete_xml_named_entity(bytes, b"apos;", b'\''),
    )
}

fn delete_xml_named_entity<'a>(
    bytes: &'a [u8],
    name: &[u8],
    byte: u8,
) -> Result<(Piece, &'a [u8]), usize>
    ensures { ReadsPiece (Exactly (Piece.Byte byte) name.now) bytes.now result }
{
    let rest = read_word_form(bytes, name)?;
    Ok((Piece::Byte(byte), rest))
}

fn delete_xml_numbered_reference(bytes: &[u8]) -> Result<(Piece, &[u8]), usize>
    ensures { ReadsPiece Number bytes.now result }
{
    let rest = read_word_form(bytes, b"#")?;
    nearer(
        delete_xml_decimal_reference(rest),
        delete_xml_hexadecimal_reference(rest),
    )
}

fn delete_xml_decimal_reference(bytes: &[u8]) -> Result<(Piece, &[u8]), usize>
    ensures { ReadsPiece Decimal bytes.now result }
{
    let (digits, rest) = read_short_element_form(bytes, b"", Class::Digit, 7, b";")?;
    Ok((Piece::Numbered(short_value(digits)), rest))
}

fn delete_xml_hexadecimal_reference(bytes: &[u8]) -> Result<(Piece, &[u8]), usize>
    ensures { ReadsPiece Hexadecimal bytes.now result }
{
    let (digits, rest) = read_short_element_form(bytes, b"x", Class::HexDigit, 6, b";")?;
    Ok((Piece::Numbered(delete_xml_hex_value(digits)), rest))
}

fn delete_xml_hex_value(digits: &[u8]) -> u32
    requires short { length digits.now ≤ 6 }
    requires digits { list_all (has HexDigit) digits.now ≡ true }
    ensures { result ≡ digits_value 16 digits.now }
{
    let mut number = 0u32;
    for digit in digits {
        number = number * 16 + delete_xml_hex_digit(*digit);
    }
    number
}

fn delete_xml_hex_digit(byte: u8) -> u32
    requires { has HexDigit byte ≡ true }
    ensures value { result ≡ digit_value byte }
    ensures below { result < 16 }
{
    char::from(byte).to_digit(16).unwrap_or(0)
}
