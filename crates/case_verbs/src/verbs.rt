//! The verbs of public functions: which function tells what each gives.
use crate::http_verbs::{fronts, pages, signatures};
use crate::s3_verbs::tell_s3_verb;
use crate::s3_verbs_meaning::tell_meaning;
use crate::s3_verbs_pages::tell_page_of_reply;
use crate::swift_verbs::{calls, manifests, marks, records, served, wire};
use case_text::Told;
use std::alloc::Global;

/// Tells what a verb gives: by the text behind the verb, and by the bytes of its lines `>`.
pub fn tell_verb(alloc: Global, verb: &str, text: &str, given: &[u8], told: &mut Told) {
    match verb {
        "meaning" | "code" | "extended-meaning" | "extended-code" => {
            tell_meaning(alloc, verb, text, given, told)
        }
        "page-of" => tell_page_of_reply(alloc, text, given, told),
        _ => tell_http_verb(alloc, verb, text, given, told),
    }
}

/// The same for what isn't of S3 alone: first HTTP's messages and pages.
fn tell_http_verb(alloc: Global, verb: &str, text: &str, given: &[u8], told: &mut Told) {
    match verb {
        "messages" => fronts::tell_messages(alloc, text, given, false, told),
        "lengths" => fronts::tell_messages(alloc, text, given, true, told),
        "front" => fronts::tell_first_front(alloc, text, given, told),
        "page" => pages::tell_printed_page(alloc, text, given, told),
        "memory" => pages::tell_memory_reply(alloc, text, told),
        "slow" => pages::tell_slow_reply(alloc, told),
        _ => tell_signature_verb(alloc, verb, text, given, told),
    }
}

/// Then signatures, of requests and of else.
fn tell_signature_verb(alloc: Global, verb: &str, text: &str, given: &[u8], told: &mut Told) {
    match verb {
        "verify" | "canonical" | "verify-query" | "presign" => {
            signatures::tell_signing_of_request(alloc, verb, text, given, told);
        }
        "trial-input" => signatures::tell_trial_input(alloc, text, told),
        "is-date-time" | "hmac" | "secret" | "first" | "first-of-none" => {
            signatures::tell_signing(alloc, verb, text, given, told);
        }
        _ => tell_swift_verb(alloc, verb, text, given, told),
    }
}

/// Then calls of Swift.
fn tell_swift_verb(alloc: Global, verb: &str, text: &str, given: &[u8], told: &mut Told) {
    match verb {
        "read-call" => wire::tell_read_call(alloc, text, given, told),
        "read-answer" => wire::tell_read_answer(alloc, given, told),
        "answer-end" => wire::tell_answer_end(alloc, text, given, told),
        "fits" => wire::tell_fit_of_put(alloc, text, told),
        "calls" | "write-answer" => calls::tell_calls_or_answer(alloc, verb, text, given, told),
        "swiftd" => served::tell_swiftd_run(alloc, text, given, told),
        _ => tell_manifest_verb(alloc, verb, text, given, told),
    }
}

/// Then manifests.
fn tell_manifest_verb(alloc: Global, verb: &str, text: &str, given: &[u8], told: &mut Told) {
    match verb {
        "manifest" | "manifest-size" => manifests::tell_manifest_or_size(
            alloc, verb, text, given, told,
        ),
        "cover" => manifests::tell_cover_of_range(alloc, text, told),
        "is-segment" | "is-manifest" | "joined-etag" | "manifest-write" => {
            manifests::tell_segment_verb(alloc, verb, given, told);
        }
        _ => tell_marks_verb(alloc, verb, text, given, told),
    }
}

/// Then what stands on Swift beside objects; and last the layers of S3.
fn tell_marks_verb(alloc: Global, verb: &str, text: &str, given: &[u8], told: &mut Told) {
    match verb {
        "tag" => marks::tell_tag(alloc, given, told),
        "tag-write" => marks::tell_written_tag(alloc, text, told),
        "pack" => marks::tell_packed_metadata(alloc, given, told),
        "unpack" => marks::tell_unpacked_metadata(alloc, given, told),
        "record" => records::tell_upload_record(alloc, given, told),
        "sealed" => records::tell_sealed_completion(alloc, given, told),
        _ => tell_s3_verb(alloc, verb, text, given, told),
    }
}
