//! The verbs of the S3 layers: names, the limits of the machine, bodies, the words of the command line and the lists of
//! buckets. What requests mean is in `s3_verbs_meaning`, and pages are in `s3_verbs_pages`.
use case_text::{
    Fault, Told, bytes_of_escaped_text, copy_of_bytes, cut_text, tell_owned_value, tell_value,
    words_of_text,
};
use gate_base::{Caller, cut};
use gateway_cli::read_words;
use s3_bodies::{read_completion, read_delete, read_location};
use s3_machine::{
    body_etag, is_content_type, is_meta_name, is_meta_value, is_other_acl, is_proper_meta, may_read,
};
use s3_names::{
    Acl, BucketName, Key, Meta, Query, Target, decode, encode_all, encode_path, is_bucket, is_key,
};
use std::alloc::Global;
use std::fmt::Debug;
use swift_calls::ReadList;
use upload_records::{acl_of_container_readers, container_readers_of_acl};

/// Tells what a verb gives, by the text behind the verb and by the bytes of its lines `>`.
pub(crate) fn tell_s3_verb(alloc: Global, verb: &str, text: &str, given: &[u8], told: &mut Told) {
    match verb {
        "command" => tell_command(alloc, text, told),
        "may-read" => tell_may_read(text, told),
        "other-acl" => tell_other_acl(text, told),
        "readers-of" => tell_value(&container_readers_of_acl(acl_of_word(text, told)), told),
        "acl-of" => tell_value(
            &acl_of_container_readers(read_list_of_word(text, told)),
            told,
        ),
        _ => {
            let mut bytes = bytes_of_escaped_text(alloc, text, told);
            told.append(&mut bytes, given);
            tell_s3_bytes_verb(alloc, verb, bytes.as_slice(), told);
        }
    }
}

fn tell_command(alloc: Global, text: &str, told: &mut Told) {
    let words = words_of_text(alloc, text, told);
    tell_s3_reading(&read_words(alloc, words.as_slice()), told);
}

/// The verbs that take bytes: those of the text, with its escapes read, and behind them those of the lines `>`.
fn tell_s3_bytes_verb(alloc: Global, verb: &str, bytes: &[u8], told: &mut Told) {
    match verb {
        "is-bucket" => tell_value(&is_bucket(bytes), told),
        "is-key" => tell_value(&is_key(bytes), told),
        "content-type" => tell_value(&is_content_type(bytes), told),
        "meta-name" => tell_value(&is_meta_name(bytes), told),
        "meta-value" => tell_value(&is_meta_value(bytes), told),
        "etag" => tell_owned_value(copy_of_bytes(alloc, &body_etag(bytes), told), told),
        "meta" | "proper-meta" => tell_metadata_of_pairs(alloc, verb, bytes, told),
        _ => tell_s3_name_verb(alloc, verb, bytes, told),
    }
}

fn tell_s3_name_verb(alloc: Global, verb: &str, bytes: &[u8], told: &mut Told) {
    match verb {
        "bucket" => tell_s3_reading(&BucketName::read(alloc, bytes), told),
        "key" => tell_s3_reading(&Key::read(alloc, bytes), told),
        "query" => tell_s3_reading(&Query::read(alloc, bytes), told),
        "target" => tell_s3_reading(&Target::read(alloc, bytes), told),
        _ => tell_s3_escapes_verb(alloc, verb, bytes, told),
    }
}

fn tell_s3_escapes_verb(alloc: Global, verb: &str, bytes: &[u8], told: &mut Told) {
    match verb {
        "encode-path" => tell_s3_reading(&encode_path(alloc, bytes), told),
        "encode-all" => tell_s3_reading(&encode_all(alloc, bytes), told),
        "decode" => tell_s3_reading(&decode(alloc, bytes), told),
        _ => tell_s3_body_verb(alloc, verb, bytes, told),
    }
}

fn tell_s3_body_verb(alloc: Global, verb: &str, bytes: &[u8], told: &mut Told) {
    match verb {
        "location" => tell_s3_reading(&read_location(alloc, bytes), told),
        "completion" => tell_s3_reading(&read_completion(alloc, bytes), told),
        "delete" => tell_s3_reading(&read_delete(alloc, bytes), told),
        _ => told.note_fault(Fault::Unread("no such verb")),
    }
}

/// Tells what was read, or why nothing was.
fn tell_s3_reading<T: Debug, F: Debug>(read: &Result<T, F>, told: &mut Told) {
    match read {
        Ok(value) => tell_value(value, told),
        Err(fault) => tell_value(fault, told),
    }
}

/// Tells for each pair `NAME:VALUE;` whether it was added to metadata, and then that metadata; or only whether it is proper.
fn tell_metadata_of_pairs(alloc: Global, verb: &str, bytes: &[u8], told: &mut Told) {
    let mut meta = Meta::new(alloc);
    let mut added = Told::new(alloc);
    add_pairs_to_metadata(bytes, &mut meta, &mut added);
    told.note_fault_of(&added);
    if verb == "proper-meta" {
        tell_value(&is_proper_meta(&meta), told);
    } else {
        told.say(added.text());
        tell_value(&meta, told);
    }
}

fn add_pairs_to_metadata(bytes: &[u8], meta: &mut Meta, told: &mut Told) {
    let mut rest = bytes;
    for _ in 0..bytes.len() {
        let (pair, next) = cut(rest, b';');
        if !pair.is_empty() {
            let (name, value) = cut(pair, b':');
            if let Some(added) = told.keep_made(meta.add(name, value)) {
                tell_value(&added, told);
            }
        }
        rest = next;
    }
}

/// `CALLER ACL`.
fn tell_may_read(text: &str, told: &mut Told) {
    let (caller, list) = cut_text(text, ' ');
    let caller = caller_of_word(caller, told);
    let list = acl_of_word(list, told);
    tell_value(&may_read(caller, list), told);
}

/// `GIVEN ACL`, the bucket's list last. `-` is none.
fn tell_other_acl(text: &str, told: &mut Told) {
    let (given, list) = cut_text(text, ' ');
    let list = acl_of_word(list, told);
    let given = match given {
        "-" => None,
        given => Some(acl_of_word(given, told)),
    };
    tell_value(&is_other_acl(given, list), told);
}

pub(crate) fn caller_of_word(word: &str, told: &mut Told) -> Caller {
    match word {
        "owner" => Caller::Owner,
        "reader" => Caller::Reader,
        "anonymous" => Caller::Anonymous,
        _ => {
            told.note_fault(Fault::Unread("no caller"));
            Caller::Anonymous
        }
    }
}

/// The access control list of that name.
pub(crate) fn acl_of_word(word: &str, told: &mut Told) -> Acl {
    match word {
        "private" => Acl::Private,
        "public-read" => Acl::PublicRead,
        _ => {
            told.note_fault(Fault::Unread("no access control list"));
            Acl::Private
        }
    }
}

fn read_list_of_word(word: &str, told: &mut Told) -> ReadList {
    match word {
        "nobody" => ReadList::Nobody,
        "everybody" => ReadList::Everybody,
        _ => {
            told.note_fault(Fault::Unread("no read list"));
            ReadList::Nobody
        }
    }
}
