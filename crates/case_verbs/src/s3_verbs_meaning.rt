//! What requests mean.
use crate::s3_verbs::caller_of_word;
use crate::s3_verbs_message::message_of_case;
use crate::settings::{USUAL_LARGEST_BODY, USUAL_LEAST_PART, USUAL_REGION, settings_of_region};
use case_text::{Told, cut_text, tell_owned_value, tell_value};
use gate_base::{Caller, drop};
use http_wire::Message;
use s3_machine::{Code, Settings};
use s3_names::Target;
use s3_requests::{Meant, meaning};
use std::alloc::Global;

/// `CALLER METHOD TARGET` tells what a request means. The lines `>` are its headers, and behind an empty one its body; where
/// nothing stands behind CALLER, they are the whole request. By `code` an operation is told by that word alone. By
/// `extended-meaning` and `extended-code` it is what the extended profile says.
pub(crate) fn tell_meaning(alloc: Global, verb: &str, text: &str, given: &[u8], told: &mut Told) {
    let (word, line) = cut_text(text, ' ');
    let caller = caller_of_word(word, told);
    if let Some(mut message) = message_of_case(alloc, line, given, told) {
        tell_meaning_of_message(alloc, verb, caller, &mut message, told);
    }
}

/// A target that can't be read has the code InvalidURI before anything else is looked at.
fn tell_meaning_of_message(
    alloc: Global,
    verb: &str,
    caller: Caller,
    message: &mut Message,
    told: &mut Told,
) {
    match Target::read(alloc, message.target.as_slice()) {
        Ok(target) => tell_meaning_with_target(alloc, verb, caller, message, &target, told),
        Err(_) => tell_owned_value(Meant::refused(Code::InvalidURI), told),
    }
}

fn tell_meaning_with_target(
    alloc: Global,
    verb: &str,
    caller: Caller,
    message: &mut Message,
    target: &Target,
    told: &mut Told,
) {
    if let Some(settings) = settings_of_verb(alloc, verb, told) {
        let meant = meaning(alloc, message, target, &caller, &settings);
        tell_meant(verb, &meant, told);
        drop(meant);
    }
}

fn settings_of_verb(alloc: Global, verb: &str, told: &mut Told) -> Option<Settings> {
    settings_of_region(
        alloc,
        USUAL_REGION,
        USUAL_LEAST_PART,
        USUAL_LARGEST_BODY,
        verb.starts_with("extended-"),
        told,
    )
}

fn tell_meant(verb: &str, meant: &Meant, told: &mut Told) {
    match meant {
        Meant::Op(_) if verb.ends_with("code") => told.say("operation\n"),
        _ => tell_value(meant, told),
    }
}
