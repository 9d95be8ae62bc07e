//! The key that a text names.
ghost use Rattle.std.specs.Prelude.{IfOk};
ghost use Rattle.s3_bodies.specs.DeleteReaders.{Appends, AreNamed, IsMeaning, IsNamed, texts_of};
ghost use Rattle.s3_bodies.specs.declared.key_text.Piece.{Piece};

use crate::key_text::{Piece, next_delete_xml_piece};
use gate_base::{Bytes, List, Memory};
use s3_names::{Key, is_key};
use std::alloc::Global;

/// The keys that texts name, if each of them names one.
pub(crate) fn keys(alloc: Global, texts: &[&[u8]]) -> Result<Option<List<Key>>, Memory>
    ensures { IfOk result (λ keys. AreNamed (texts_of texts.now) keys) }
{
    let mut keys = List::new(alloc);
    'texts: for text in texts {
        match key_of_delete_xml_text(alloc, text)? {
            Some(key) => keys.push(key)?,
            None => return Ok(None),
        }
    }
    Ok(Some(keys))
}

fn key_of_delete_xml_text(alloc: Global, text: &[u8]) -> Result<Option<Key>, Memory>
    ensures { IfOk result (λ key. IsNamed text.now key) }
{
    match meaning_of_delete_xml_text(alloc, text)? {
        Some(bytes) => {
            if is_key(bytes.as_slice()) {
                Ok(Some(Key::of(bytes)))
            } else {
                Ok(None)
            }
        }
        None => Ok(None),
    }
}

// The bytes that a text stands for, if it stands for any.
fn meaning_of_delete_xml_text(alloc: Global, text: &[u8]) -> Result<Option<Bytes>, Memory>
    ensures { IfOk result (λ bytes. IsMeaning text.now bytes) }
{
    let mut bytes = Bytes::new(alloc);
    let mut rest = text;
    'pieces: while !rest.is_empty() {
        let Ok((piece, after)) = next_delete_xml_piece(rest) else {
            return Ok(None);
        };
        if !append_delete_xml_piece(&mut bytes, piece)? {
            return Ok(None);
        }
        rest = after;
    }
    Ok(Some(bytes))
}

// Adds what a piece stands for; whether it stands for anything.
fn append_delete_xml_piece(bytes: &mut Bytes, piece: Piece) -> Result<bool, Memory>
    ensures { IfOk result (λ stands. Appends piece bytes.old bytes.new stands) }
{
    match piece {
        Piece::Byte(byte) => {
            bytes.push(byte)?;
            Ok(true)
        }
        Piece::Numbered(number) => append_delete_xml_character(bytes, number),
    }
}

fn append_delete_xml_character(bytes: &mut Bytes, number: u32) -> Result<bool, Memory>
    ensures { IfOk result (λ stands. Appends (Piece.Numbered number) bytes.old bytes.new stands) }
{
    match char::from_u32(number) {
        Some(character) if number > 0 => {
            bytes.append(character.encode_utf8(&mut [0; 4]).as_bytes())?;
            Ok(true)
        }
        _ => Ok(false),
    }
}
