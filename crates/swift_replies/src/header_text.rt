//! Status lines and headers, as they are written.
ghost use Rattle.std.specs.Prelude.{◌≡◌, ◌++◌, ◌∷◌, [], codes, decimal, OnOk, ◌+◌, ◌%◌};
ghost use Rattle.http1.specs.Head.{print_header, print_headers, status_digits};
ghost use Rattle.swift_replies.specs.AnswerText.{error_phrase, phrase_of, status_line, created_fields, meta_fields, readers_text};

use gate_base::{Bytes, Memory};
use swift_calls::ReadList;
use text_forms::append_decimal;

/// Adds a status line.
pub(crate) fn append_answer_status(text: &mut Bytes, status: u16) -> Result<(), Memory>
    ensures { OnOk result (text.new ≡ text.old ++ status_line status) }
{
    text.append(b"HTTP/1.1 ")?;
    append_answer_status_digits(text, status)?;
    text.append(phrase_of(status))?;
    text.append(b"\r\n")?;
    Ok(())
}

/// Adds the three digits of a status, and a space.
fn append_answer_status_digits(text: &mut Bytes, status: u16) -> Result<(), Memory>
    ensures { OnOk result (text.new ≡ text.old ++ status_digits status ++ 32 ∷ []) }
{
    text.append(&[
        swift_status_digit(status / 100),
        swift_status_digit(status / 10),
        swift_status_digit(status),
        b' ',
    ])
}

fn swift_status_digit(number: u16) -> u8
    ensures { result ≡ 48 + number % 10 }
{
    b'0' + (number % 10) as u8
}

/// The phrase of a status.
fn phrase_of(status: u16) -> &'static [u8]
    ensures { result.now ≡ phrase_of status }
{
    if status == 200 {
        return b"OK";
    }
    if status == 201 {
        return b"Created";
    }
    if status == 202 {
        return b"Accepted";
    }
    if status == 204 {
        return b"No Content";
    }
    if status == 206 {
        return b"Partial Content";
    }
    swift_error_phrase(status)
}

fn swift_error_phrase(status: u16) -> &'static [u8]
    ensures { result.now ≡ error_phrase status }
{
    if status == 400 {
        return b"Bad Request";
    }
    if status == 401 {
        return b"Unauthorized";
    }
    if status == 404 {
        return b"Not Found";
    }
    if status == 409 {
        return b"Conflict";
    }
    if status == 412 {
        return b"Precondition Failed";
    }
    if status == 416 {
        return b"Range Not Satisfiable";
    }
    if status == 503 {
        b"Service Unavailable"
    } else {
        b"Internal Server Error"
    }
}

/// Adds a header (RFC 9112, section 5). Where memory runs out, the text may have a part of it; so with each of these.
#[tactic(auto, using(crate::proofs::SentLemmas::header_is))]
pub fn append_swift_header(text: &mut Bytes, name: &[u8], value: &[u8]) -> Result<(), Memory>
    ensures { OnOk result (text.new ≡ text.old ++ print_header (name.now, value.now)) }
{
    text.append(name)?;
    text.append(b": ")?;
    text.append(value)?;
    text.append(b"\r\n")
}

/// Adds a header whose value is a number.
#[tactic(auto, using(crate::proofs::SentLemmas::header_is))]
pub fn append_swift_number_header(text: &mut Bytes, name: &[u8], number: u64) -> Result<(), Memory>
    ensures { OnOk result (text.new ≡ text.old ++ print_header (name.now, decimal number)) }
{
    text.append(name)?;
    text.append(b": ")?;
    append_decimal(text, number)?;
    text.append(b"\r\n")
}

/// Adds the creation time, where there is one.
pub fn append_swift_created(text: &mut Bytes, created: Option<u64>) -> Result<(), Memory>
    ensures { OnOk result (text.new ≡ text.old ++ print_headers (created_fields created)) }
{
    match created {
        Some(moment) => {
            append_swift_number_header(text, b"X-Container-Meta-S3-Created", moment)?;
            Ok(())
        }
        None => Ok(()),
    }
}

/// Adds the pieces of metadata, each under its number.
pub fn append_swift_meta(text: &mut Bytes, pieces: &[Bytes]) -> Result<(), Memory>
    ensures { OnOk result (text.new ≡ text.old ++ print_headers (meta_fields 0 pieces.now)) }
{
    for (index, piece) in pieces.iter().enumerate() {
        append_swift_meta_header(text, index as u64, piece.as_slice())?;
    }
    Ok(())
}

/// Adds the piece of metadata of a number.
#[tactic(auto, using(crate::proofs::SentLemmas::piece_is))]
fn append_swift_meta_header(text: &mut Bytes, index: u64, piece: &[u8]) -> Result<(), Memory>
    ensures { OnOk result (text.new ≡ text.old
        ++ print_header (codes "X-Object-Meta-S3-" ++ decimal index, piece.now)) }
{
    text.append(b"X-Object-Meta-S3-")?;
    append_decimal(text, index)?;
    text.append(b": ")?;
    text.append(piece)?;
    text.append(b"\r\n")
}

/// The value that writes a read list.
pub fn readers_text(readers: ReadList) -> &'static [u8]
    ensures { result.now ≡ readers_text readers }
{
    match readers {
        ReadList::Nobody => b"",
        ReadList::Everybody => b".r:*,.rlistings",
    }
}
