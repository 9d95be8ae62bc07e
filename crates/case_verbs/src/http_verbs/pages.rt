//! Replies as they are printed.
ghost use Rattle.http_wire.specs.Print.{IsReplyStatus};

use case_text::{Fault, Told, copy_of_bytes, tell_owned_value};
use gate_base::{Bytes, List, Page, Pair};
use http_wire::{print_memory, print_page, print_slow};
use std::alloc::Global;

/// Tells the reply where memory runs out.
pub(crate) fn tell_memory_reply(alloc: Global, method: &str, told: &mut Told) {
    let reply = print_memory(method == "HEAD");
    tell_owned_value(Bytes::from_slice(alloc, reply), told);
}

/// Tells the reply where a body comes too slowly.
pub(crate) fn tell_slow_reply(alloc: Global, told: &mut Told) {
    tell_owned_value(Bytes::from_slice(alloc, print_slow()), told);
}

/// Tells a page of one header.
pub(crate) fn tell_printed_page(alloc: Global, text: &str, given: &[u8], told: &mut Told) {
    let words: Result<Vec<&str>, _> = text.split(' ').collect(alloc);
    match words {
        Ok(words) => tell_page_of_words(alloc, words.as_slice(), given, told),
        Err(_) => told.note_fault(Fault::Memory),
    }
}

fn tell_page_of_words(alloc: Global, words: &[&str], given: &[u8], told: &mut Told) {
    let [status, method, end, name, value] = words else {
        return told.note_fault(Fault::Unread("no status, method, end, name and value"));
    };
    let page = Page {
        status: reply_status_of_word(status, told),
        headers: list_of_one_header(alloc, name.as_bytes(), value.as_bytes(), told),
        body: copy_of_bytes(alloc, given, told),
    };
    let printed = print_page(alloc, &page, method.as_bytes(), *end == "close");
    tell_owned_value(printed, told);
}

fn list_of_one_header(alloc: Global, name: &[u8], value: &[u8], told: &mut Told) -> List<Pair> {
    let mut headers = List::new(alloc);
    let header = Pair {
        name: copy_of_bytes(alloc, name, told),
        value: copy_of_bytes(alloc, value, told),
    };
    told.push(&mut headers, header);
    headers
}

/// A status that replies have.
fn reply_status_of_word(text: &str, told: &mut Told) -> u16
    ensures { IsReplyStatus result }
{
    match text {
        "200" => 200,
        "204" => 204,
        "206" => 206,
        "304" => 304,
        "409" => 409,
        "416" => 416,
        "501" => 501,
        _ => {
            told.note_fault(Fault::Unread("no status of a reply"));
            200
        }
    }
}
