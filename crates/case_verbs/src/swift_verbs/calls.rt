//! Calls on a store in memory.
ghost use Rattle.swift_calls.specs.Step.{Fit};
ghost use Rattle.swift_requests.specs.Place.{IsPlace};

use crate::swift_verbs::start::start_with_large_objects;
use crate::swift_verbs::wire::{place_of_all_calls, read_next_call};
use crate::talk::Talk;
use case_text::{
    Fault, Told, cut_text, number_of_text, numbers_of_text, tell_owned_value, tell_value,
};
use gate_base::{Counted, List, drop};
use http_wire::Message;
use planned_swift::MemSwift;
use std::alloc::Global;
use swift_calls::{Swift, SwiftFault, SwiftReply, SwiftRequest, is_fit};
use swift_replies::{WireFault, write_answer};
use swift_requests::{Place, read_call};

/// The most calls of a case.
const MOST_CALLS: u64 = 1000;

const UNFIT: Fault = Fault::Unread("a request isn't a call within the limits");

/// The numbers behind a name, with commas between them; none where the name isn't there.
fn call_numbers_behind_name(alloc: Global, text: &str, name: &str, told: &mut Told) -> List<u64> {
    match text.split_once(name) {
        Some((_, rest)) => numbers_of_text(alloc, cut_text(rest, ' ').0, ',', told),
        None => List::new(alloc),
    }
}

/// The number behind a name, 0 where the name isn't there.
fn call_number_behind_name(text: &str, name: &str, told: &mut Told) -> u64 {
    match text.split_once(name) {
        Some((_, rest)) => number_of_text(cut_text(rest, ' ').0, told),
        None => 0,
    }
}

/// Makes the calls of the requests, and tells what comes of them; or, by `write-answer`, only the answer that is written to the last
/// call for the reply to the one before it.
pub(crate) fn tell_calls_or_answer(
    alloc: Global,
    verb: &str,
    text: &str,
    given: &[u8],
    told: &mut Told,
) {
    if let Some(place) = place_of_all_calls(alloc, told) {
        tell_calls_at_place(alloc, &place, verb, text, given, told);
    }
}

fn tell_calls_at_place(
    alloc: Global,
    place: &Place,
    verb: &str,
    text: &str,
    given: &[u8],
    told: &mut Told,
)
    requires { IsPlace place.now }
{
    if let Some(mut talk) = Talk::open_over_bytes(alloc, given, told) {
        tell_calls_over_talk(alloc, place, verb, text, &mut talk, told);
    }
}

fn tell_calls_over_talk(
    alloc: Global,
    place: &Place,
    verb: &str,
    text: &str,
    talk: &mut Talk,
    told: &mut Told,
)
    requires { IsPlace place.now }
{
    if let Some(store) = store_before_calls(alloc, place, text, talk, told) {
        if verb == "calls" {
            tell_calls(alloc, place, text, talk, store, told);
        } else {
            tell_last_answer(alloc, place, text, talk, store, told);
        }
    }
}

fn tell_calls(
    alloc: Global,
    place: &Place,
    text: &str,
    talk: &mut Talk,
    mut store: MemSwift,
    told: &mut Told,
)
    requires { IsPlace place.now }
{
    make_calls(alloc, place, MOST_CALLS, talk, &mut store, told);
    tell_calls_and_accounts(alloc, text, &store, told);
    tell_owned_value(store.into_account(), told);
}

/// The store on which a case begins.
fn store_before_calls(
    alloc: Global,
    place: &Place,
    text: &str,
    talk: &mut Talk,
    told: &mut Told,
) -> Option<MemSwift>
    requires { IsPlace place.now }
{
    let large = call_number_behind_name(text, "large ", told);
    let stop = call_number_behind_name(text, "stop ", told);
    let before = call_numbers_behind_name(alloc, text, "before ", told);
    let after = call_numbers_behind_name(alloc, text, "after ", told);
    let start = start_with_large_objects(alloc, place, large, talk, told);
    told.keep_made(start.into_store(alloc, before, after, stop))
}

fn tell_last_answer(
    alloc: Global,
    place: &Place,
    text: &str,
    talk: &mut Talk,
    mut store: MemSwift,
    told: &mut Told,
)
    requires { IsPlace place.now }
{
    let count = call_number_behind_name(text, "made ", told);
    let mut unseen = Told::new(alloc);
    make_calls(alloc, place, count, talk, &mut store, &mut unseen);
    told.note_fault_of(&unseen);
    tell_answer_to_last(alloc, place, talk, &mut store, told);
}

fn tell_answer_to_last(
    alloc: Global,
    place: &Place,
    talk: &mut Talk,
    store: &mut MemSwift,
    told: &mut Told,
)
    requires { IsPlace place.now }
{
    let call = read_next_call(alloc, place, talk, told);
    if let Some(made) = &call {
        tell_answer_for_made(alloc, place, made, talk, store, told);
    }
    drop(call);
}

/// Makes so many calls at most, and tells of each its reply, and the account that it changes.
fn make_calls(
    alloc: Global,
    place: &Place,
    count: u64,
    talk: &mut Talk,
    store: &mut MemSwift,
    told: &mut Told,
)
    requires { IsPlace place.now }
{
    let mut last = Told::new(alloc);
    tell_value(store.account(), &mut last);
    for _ in 0..count {
        match talk.next_message() {
            Some(message) => make_call(alloc, place, message, store, told),
            None => return,
        }
        last = tell_changed_account(alloc, store, last, told);
    }
}

fn make_call(alloc: Global, place: &Place, message: Message, store: &mut MemSwift, told: &mut Told)
    requires { IsPlace place.now }
{
    let read = read_call(alloc, place, message);
    make_call_as_read(&read, store, told);
    drop(read);
}

fn make_call_as_read(
    read: &Result<SwiftRequest, WireFault>,
    store: &mut MemSwift,
    told: &mut Told,
) {
    match read {
        Ok(call) if is_fit(call) => tell_reply_to_call(&mut &mut *store, call, told),
        _ => told.note_fault(UNFIT),
    }
}

/// Tells the reply to a call, which is made as the layers above make it of any store.
fn tell_reply_to_call<W: Swift>(store: &mut W, request: &SwiftRequest, told: &mut Told)
    requires { Fit request.now }
{
    let reply = store.call(request);
    tell_value(&reply, told);
    drop(reply);
}

/// Tells the account where it isn't the last that was told. The account's text.
fn tell_changed_account(alloc: Global, store: &MemSwift, last: Told, told: &mut Told) -> Told {
    let mut account = Told::new(alloc);
    tell_value(store.account(), &mut account);
    if account.text() != last.text() {
        told.say(account.text());
    }
    account
}

/// Tells how many calls were made, and the accounts after the numbers of calls that are asked for.
fn tell_calls_and_accounts(alloc: Global, text: &str, store: &MemSwift, told: &mut Told) {
    tell_value(&store.calls(), told);
    let counts = call_numbers_behind_name(alloc, text, "at ", told);
    for count in counts.as_slice() {
        tell_account_at(*count, store, told);
    }
}

fn tell_account_at(count: u64, store: &MemSwift, told: &mut Told) {
    if store.calls() < count {
        return told.note_fault(Fault::Unread("so many calls weren't made"));
    }
    tell_owned_value(store.account_at(count), told);
}

fn tell_answer_for_made(
    alloc: Global,
    place: &Place,
    made: &SwiftRequest,
    talk: &mut Talk,
    store: &mut MemSwift,
    told: &mut Told,
)
    requires { IsPlace place.now }
{
    let call = read_next_call(alloc, place, talk, told);
    if let Some(asked) = &call {
        tell_answer_for_asked(alloc, made, asked, store, told);
    }
    drop(call);
}

fn tell_answer_for_asked(
    alloc: Global,
    made: &SwiftRequest,
    asked: &SwiftRequest,
    store: &mut MemSwift,
    told: &mut Told,
) {
    if is_fit(made) {
        let reply = store.call(made);
        tell_answer_as_written(alloc, asked, &reply, told);
        drop(reply);
    } else {
        told.note_fault(UNFIT);
    }
}

fn tell_answer_as_written(
    alloc: Global,
    asked: &SwiftRequest,
    made: &Result<SwiftReply, SwiftFault>,
    told: &mut Told,
) {
    match made {
        Ok(reply) => tell_owned_value(write_answer(alloc, asked, reply), told),
        Err(_) => told.note_fault(Fault::Unread("a call failed")),
    }
}
