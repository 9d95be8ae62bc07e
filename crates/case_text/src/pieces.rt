//! What was written to the connections, as text.
use crate::given::{Given, given_text_behind, has_given_line};
use crate::texts::{cut_text, text_of_bytes};
use crate::{Told, tell_bytes_by_lines};
use gate_base::{Bytes, Piece};
use std::alloc::Global;

/// Tells each piece by its connection, by how many calls the store had counted, and by its bytes, whole or in brief.
pub fn tell_pieces(alloc: Global, given: Given<'_>, pieces: &[Piece], told: &mut Told) {
    let is_brief = given.word == "setup" || has_given_line(given, "brief");
    let mut turn = 0u64;
    for piece in pieces {
        if begins_reply(piece) {
            turn = turn.saturating_add(1);
        }
        told.say_number("piece ", piece.connection);
        told.say_number(" ", piece.at);
        if is_brief && !is_piece_number_given(turn, given, "whole") {
            tell_piece_in_brief(given, turn, piece, told);
        } else {
            told.say("\n");
            tell_bytes_by_lines(alloc, piece.bytes.as_slice(), told);
        }
    }
}

/// Whether a piece begins a reply. One that doesn't goes on with the bytes of an object, whose head is a piece before it.
pub fn begins_reply(piece: &Piece) -> bool {
    piece.bytes.as_slice().starts_with(b"HTTP/1.1 ")
}

/// The bytes of the reply that the first of these pieces begins: its own, and those of each behind it up to the next reply.
pub fn reply_of_pieces(alloc: Global, pieces: &[Piece], told: &mut Told) -> Bytes {
    let mut reply = Bytes::new(alloc);
    for piece in pieces {
        if !reply.is_empty() && begins_reply(piece) {
            return reply;
        }
        told.append(&mut reply, piece.bytes.as_slice());
    }
    reply
}

/// Whether a number stands behind a word.
fn is_piece_number_given(number: u64, given: Given<'_>, word: &str) -> bool {
    if let Some(text) = given_text_behind(given, word) {
        for word in text.split(' ') {
            match word.parse::<u64>() {
                Ok(given) if given == number => return true,
                _ => {}
            }
        }
    }
    false
}

/// Tells the status, the code of an error in the body, and the ETag where that is asked for; of a piece that begins no reply how
/// many bytes it has.
fn tell_piece_in_brief(given: Given<'_>, turn: u64, piece: &Piece, told: &mut Told) {
    if begins_reply(piece) {
        tell_reply_in_brief(given, turn, piece.bytes.as_slice(), told);
    } else {
        told.say(" bytes ");
        told.say_value(&piece.bytes.len());
    }
    told.say("\n");
}

fn tell_reply_in_brief(given: Given<'_>, turn: u64, bytes: &[u8], told: &mut Told) {
    let text = text_of_bytes(bytes, told);
    tell_status_of_piece(text, told);
    tell_text_within_piece(text, "<Code>", "</Code>", told);
    if is_piece_number_given(turn, given, "etags") {
        tell_text_within_piece(text, "\r\nETag: ", "\r\n", told);
    }
}

fn tell_status_of_piece(text: &str, told: &mut Told) {
    told.say(" ");
    told.say(cut_text(cut_text(text, ' ').1, ' ').0);
}

/// Tells what stands between the first places of two texts, if they are there.
fn tell_text_within_piece(text: &str, from: &str, to: &str, told: &mut Told) {
    if let Some((_, behind)) = text.split_once(from) {
        if let Some((between, _)) = behind.split_once(to) {
            told.say(" ");
            told.say(between);
        }
    }
}

/// Tells the statuses of replies behind a word.
pub fn tell_statuses_of_pieces(word: &str, pieces: &[Piece], told: &mut Told) {
    told.say(word);
    for piece in pieces {
        if begins_reply(piece) {
            let text = text_of_bytes(piece.bytes.as_slice(), told);
            tell_status_of_piece(text, told);
        }
    }
    told.say("\n");
}

/// Tells the bytes of each piece behind its connection, and nothing of calls.
pub fn tell_pieces_without_calls(alloc: Global, pieces: &[Piece], told: &mut Told) {
    for piece in pieces {
        told.say_number("piece ", piece.connection);
        told.say("\n");
        tell_bytes_by_lines(alloc, piece.bytes.as_slice(), told);
    }
}

/// Whether each reply has a status 2xx.
pub fn are_pieces_successful(pieces: &[Piece]) -> bool {
    for piece in pieces {
        if begins_reply(piece) && !piece.bytes.as_slice().starts_with(b"HTTP/1.1 2") {
            return false;
        }
    }
    true
}

/// Whether the one piece is ServiceUnavailable; a reply to HEAD has no body that would say so.
pub fn is_piece_service_unavailable(pieces: &[Piece]) -> bool {
    let [piece] = pieces else {
        return false;
    };
    match str::from_utf8(piece.bytes.as_slice()) {
        Ok(text) => {
            text.starts_with("HTTP/1.1 503 ")
                && (text.ends_with("\r\n\r\n") || text.contains("<Code>ServiceUnavailable</Code>"))
        }
        Err(_) => false,
    }
}
