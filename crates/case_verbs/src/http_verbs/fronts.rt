//! What comes first on a connection, again and again.
use crate::talk::Talk;
use case_text::{
    Fault, LARGE, Told, copy_of_bytes, cut_text, line_of_one_connection, number_of_text,
    numbers_of_text, tell_value,
};
use gate_base::{List, MemLine, drop};
use http_wire::{Got, ReadFault};
use std::alloc::Global;

/// The sizes of the pieces where a case gives none.
const USUAL_SIZES: &str = "1 2 3 7";

/// The most messages that are told.
const MOST: u64 = 3;

/// The request that stands before the bytes of a case where they are read behind another request.
const BEFORE: &[u8] = b"PUT /photos HTTP/1.1\r\nContent-Length: 0\r\n\r\n";

/// How the messages of a connection are told.
#[derive(Clone, Copy)]
struct Way {
    /// How many of the bytes are a request that stands before those of the case.
    before: u64,

    /// The most messages that are told.
    most: u64,

    /// Whether a request is told by its lengths alone.
    brief: bool,
}

/// Tells the first message while a call of the line fails.
pub(crate) fn tell_first_front(alloc: Global, text: &str, given: &[u8], told: &mut Told) {
    let (piece, call) = cut_text(text, ' ');
    let way = Way {
        before: 0,
        most: 1,
        brief: false,
    };
    let piece = number_of_text(piece, told);
    let fails = numbers_of_text(alloc, call, ' ', told);
    if let Some(line) = line_of_one_connection(alloc, given, piece, fails, told) {
        tell_fronts_on_line(alloc, way, line, told);
    }
}

/// Tells the messages of a connection in pieces of the usual size, and where another size tells others, alone or behind another
/// request.
pub(crate) fn tell_messages(alloc: Global, text: &str, given: &[u8], brief: bool, told: &mut Told) {
    let way = Way {
        before: 0,
        most: MOST,
        brief,
    };
    let mut usual = Told::new(alloc);
    tell_fronts_by_size(alloc, way, given, LARGE, &mut usual);
    told.note_fault_of(&usual);
    told.say(usual.text());
    let sizes = if text.is_empty() { USUAL_SIZES } else { text };
    tell_fronts_by_sizes(alloc, way, given, sizes, usual.text(), told);
}

fn tell_fronts_by_sizes(
    alloc: Global,
    way: Way,
    given: &[u8],
    sizes: &str,
    usual: &str,
    told: &mut Told,
) {
    let mut behind = copy_of_bytes(alloc, BEFORE, told);
    told.append(&mut behind, given);
    let later = Way {
        before: BEFORE.len() as u64,
        ..way
    };
    for word in sizes.split(' ') {
        let piece = number_of_text(word, told);
        tell_fronts_if_other(alloc, way, given, piece, usual, told);
        tell_fronts_if_other(alloc, later, behind.as_slice(), piece, usual, told);
    }
}

/// Tells the messages in pieces of a size where they aren't the usual ones.
fn tell_fronts_if_other(
    alloc: Global,
    way: Way,
    given: &[u8],
    piece: u64,
    usual: &str,
    told: &mut Told,
) {
    let mut other = Told::new(alloc);
    tell_fronts_by_size(alloc, way, given, piece, &mut other);
    let how = if way.before == 0 {
        "by "
    } else {
        "behind a request, by "
    };
    told.say_if_other(how, piece, &other, usual);
}

fn tell_fronts_by_size(alloc: Global, way: Way, given: &[u8], piece: u64, told: &mut Told) {
    if let Some(line) = line_of_one_connection(alloc, given, piece, List::new(alloc), told) {
        tell_fronts_on_line(alloc, way, line, told);
    }
}

fn tell_fronts_on_line(alloc: Global, way: Way, line: MemLine, told: &mut Told) {
    if let Some(mut talk) = Talk::new(alloc, line, told) {
        if way.before != 0 && !talk.passes_request() {
            told.note_fault(Fault::Unread("the first request isn't read"));
        }
        tell_fronts(&mut talk, way, told);
    }
}

/// Tells the messages up to the first that is no request, and whether the reader has ended then.
fn tell_fronts(talk: &mut Talk, way: Way, told: &mut Told) {
    for _ in 0..way.most {
        if !tell_next_front(talk, way, told) {
            return tell_reader_not_ended(talk, told);
        }
    }
}

/// Tells the next answer of the reader. Whether it is a request.
fn tell_next_front(talk: &mut Talk, way: Way, told: &mut Told) -> bool {
    let mut got = talk.next_front();
    talk.tell_written(told);
    count_place_behind(&mut got, way.before);
    tell_front_by_way(&got, way, told);
    let is_request = matches!(got, Ok(Got::Request(_)));
    drop(got);
    is_request
}

/// Tells the answer of the reader.
fn tell_front_by_way(got: &Result<Got, ReadFault>, way: Way, told: &mut Told) {
    match got {
        Ok(Got::Request(message)) if way.brief => {
            tell_value(&(message.headers.len(), message.body.len()), told);
        }
        _ => tell_value(got, told),
    }
}

/// Counts the place that an answer names behind the bytes that stand before those of the case.
fn count_place_behind(got: &mut Result<Got, ReadFault>, before: u64) {
    match got {
        Ok(Got::CutShort(place)) => *place = place.saturating_sub(before),
        Ok(Got::Refused { place, .. }) => *place = place.saturating_sub(before),
        _ => {}
    }
}

/// Tells it where the reader hasn't ended.
fn tell_reader_not_ended(talk: &mut Talk, told: &mut Told) {
    for _ in 0..2 {
        let got = talk.next_front();
        if !matches!(got, Ok(Got::End)) {
            told.say("the reader has not ended\n");
        }
        drop(got);
    }
}
