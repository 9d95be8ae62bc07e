//! Signatures of requests.
use crate::http_verbs::presigned::{tell_presigned_url, tell_query_verdict};
use crate::settings::USUAL_REGION;
use crate::talk::Talk;
use case_text::{
    Fault, KEY_TEXT, Told, copy_of_bytes, cut_text, hex_bytes, line_of_one_connection,
    number_of_text, numbers_of_text, tell_bytes_by_lines, tell_owned_value, tell_value,
};
use gate_base::{Bytes, List, MemLine, NoCount, drop};
use http_wire::{Got, Message, ReadFault};
use s3_names::Target;
use sign_cmd::sign_first;
use sigv4::{Keys, SignedRequest, canonical, hmac, is_date_time, verify};
use std::alloc::Global;
use trial_requests::{MOST_TRIAL_REQUESTS, trial_input};

pub(crate) const SECRET: &[u8] = b"wJalrXUtnFEMI/K7MDENG/bPxRfiCYEXAMPLEKEY";

/// The most bytes that a read gives where the first request of a line is signed.
const PIECE: u64 = 64;

/// Tells what a verb gives that isn't of a request which is read.
pub(crate) fn tell_signing(alloc: Global, verb: &str, text: &str, given: &[u8], told: &mut Told) {
    match verb {
        "is-date-time" => tell_value(&is_date_time(text.as_bytes()), told),
        "hmac" => tell_hmac(alloc, text, given, told),
        "secret" => tell_secret(alloc, text, given, told),
        "first" => tell_first_request_signed(alloc, text, given, told),
        _ => {
            let line = MemLine::new(alloc, List::new(alloc), 1, List::new(alloc));
            sign_first_on_line(alloc, told.keep_made(line), told);
        }
    }
}

/// Tells the bytes of so many requests of a trial.
pub(crate) fn tell_trial_input(alloc: Global, text: &str, told: &mut Told) {
    let (number, requests) = cut_text(text, ' ');
    let number = number_of_text(number, told);
    let requests = number_of_text(requests, told);
    if requests > MOST_TRIAL_REQUESTS {
        return told.note_fault(Fault::Unread("too many requests"));
    }
    if let Some(input) = told.keep_made(trial_input(alloc, number, requests)) {
        tell_bytes_by_lines(alloc, input.as_slice(), told);
    }
}

fn tell_hmac(alloc: Global, text: &str, given: &[u8], told: &mut Told) {
    let key = hex_bytes(alloc, text, told);
    tell_value(&hmac(key.as_slice(), given), told);
}

/// Tells what a verb gives of the first request.
pub(crate) fn tell_signing_of_request(
    alloc: Global,
    verb: &str,
    text: &str,
    given: &[u8],
    told: &mut Told,
) {
    if let Some(mut talk) = Talk::open_over_bytes(alloc, given, told) {
        let got = talk.next_front();
        tell_signing_of_front(alloc, verb, text, &got, told);
        drop(got);
    }
}

fn tell_signing_of_front(
    alloc: Global,
    verb: &str,
    text: &str,
    got: &Result<Got, ReadFault>,
    told: &mut Told,
) {
    match got {
        Ok(Got::Request(message)) => tell_signing_of_message(alloc, verb, text, message, told),
        _ => tell_value(got, told),
    }
}

fn tell_signing_of_message(
    alloc: Global,
    verb: &str,
    text: &str,
    message: &Message,
    told: &mut Told,
) {
    let read = Target::read(alloc, message.target.as_slice());
    match &read {
        Ok(target) => tell_signing_of_target(alloc, verb, text, message, target, told),
        Err(_) => tell_value(&read, told),
    }
    drop(read);
}

fn tell_signing_of_target(
    alloc: Global,
    verb: &str,
    text: &str,
    message: &Message,
    target: &Target,
    told: &mut Told,
) {
    match verb {
        "presign" => tell_presigned_url(alloc, text, message, target, told),
        "verify-query" => tell_query_verdict(alloc, text, message, target, told),
        "verify" => tell_signature_verdict(alloc, text, message, target, told),
        _ => tell_canonical(alloc, text, message, target, told),
    }
}

fn tell_signature_verdict(
    alloc: Global,
    text: &str,
    message: &Message,
    target: &Target,
    told: &mut Told,
) {
    let moment = number_of_text(text, told);
    if let Some(keys) = told.keep_made(Keys::read(alloc, KEY_TEXT.as_bytes())) {
        let request = SignedRequest {
            message,
            target,
            region: USUAL_REGION,
            moment,
        };
        tell_value(&verify(alloc, &keys, &request), told);
    }
}

fn tell_canonical(alloc: Global, text: &str, message: &Message, target: &Target, told: &mut Told) {
    let (names, payload) = cut_text(text, ' ');
    let mut signed = List::new(alloc);
    for name in names.split(';') {
        let name = copy_of_bytes(alloc, name.as_bytes(), told);
        told.push(&mut signed, name);
    }
    let payload = payload.as_bytes();
    tell_owned_value(
        canonical(alloc, message, target, signed.as_slice(), payload),
        told,
    );
}

fn tell_secret(alloc: Global, id: &str, given: &[u8], told: &mut Told) {
    let read = Keys::read(alloc, given);
    match &read {
        Ok(keys) => tell_secret_of_keys(alloc, keys, id, told),
        Err(_) => tell_value(&read, told),
    }
}

fn tell_secret_of_keys(alloc: Global, keys: &Keys, id: &str, told: &mut Told) {
    match keys.secret(id.as_bytes()) {
        Some(secret) => tell_owned_value(Bytes::from_slice(alloc, secret), told),
        None => told.say("no such id\n"),
    }
}

fn tell_first_request_signed(alloc: Global, text: &str, given: &[u8], told: &mut Told) {
    let fails = numbers_of_text(alloc, text, ' ', told);
    sign_first_on_line(
        alloc,
        line_of_one_connection(alloc, given, PIECE, fails, told),
        told,
    );
}

fn sign_first_on_line(alloc: Global, line: Option<MemLine>, told: &mut Told) {
    if let Some(mut line) = line {
        tell_owned_value(
            sign_first(alloc, SECRET, USUAL_REGION, &mut line, &NoCount),
            told,
        );
    }
}
