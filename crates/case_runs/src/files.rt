//! Files that stand on the account before a case, beside what the requests of its setup made.
use crate::left::{OTHER, ask_store};
use case_text::{
    Fault, Given, Told, bytes_of_escaped_text, copy_of_bytes, cut_text, number_of_text,
};
use gate_base::{Bytes, List, drop};
use slo_manifest::{Form, read};
use std::alloc::Global;
use swift_calls::{FilePut, ReadList, Swift, SwiftReply, SwiftRequest};

/// Puts the files that a setup names by its lines `file CONTAINER NAME TEXT`, each into a container that is made for it; those of
/// a type, by its lines `typed CONTAINER NAME TYPE TEXT`, and those that list segments, by its lines
/// `manifest CONTAINER NAME TYPE TEXT`, each into a container that is there; and by its lines
/// `files CONTAINER COUNT TYPE FRONT` so many without a byte, into a container that is there, whose names are the front and the
/// numbers from 0 on, of four digits.
pub(crate) fn put_files_of_setup<W: Swift>(
    alloc: Global,
    setup: Given<'_>,
    store: &mut W,
    told: &mut Told,
) {
    for line in setup.lines.split('\n') {
        match cut_text(line, ' ') {
            ("file", text) => put_file_of_setup(alloc, text, store, told),
            ("typed", text) => put_typed_file_of_setup(alloc, text, store, told),
            ("manifest", text) => put_manifest_of_setup(alloc, text, store, told),
            ("files", text) => put_numbered_files_of_setup(alloc, text, store, told),
            _ => {}
        }
    }
}

fn put_file_of_setup<W: Swift>(alloc: Global, text: &str, store: &mut W, told: &mut Told) {
    let (container, text) = cut_text(text, ' ');
    let (name, text) = cut_text(text, ' ');
    let request = SwiftRequest::PutContainer {
        container: copy_of_bytes(alloc, container.as_bytes(), told),
        readers: ReadList::Nobody,
        created: None,
    };
    put_for_setup(store, request, told);
    let request = SwiftRequest::PutObject(FilePut {
        container: copy_of_bytes(alloc, container.as_bytes(), told),
        name: copy_of_bytes(alloc, name.as_bytes(), told),
        content_type: copy_of_bytes(alloc, b"application/json", told),
        meta: List::new(alloc),
        body: bytes_of_escaped_text(alloc, text, told),
        fresh: false,
    });
    put_for_setup(store, request, told);
}

fn put_typed_file_of_setup<W: Swift>(alloc: Global, text: &str, store: &mut W, told: &mut Told) {
    let (container, text) = cut_text(text, ' ');
    let (name, text) = cut_text(text, ' ');
    let (content_type, text) = cut_text(text, ' ');
    let request = SwiftRequest::PutObject(FilePut {
        container: copy_of_bytes(alloc, container.as_bytes(), told),
        name: copy_of_bytes(alloc, name.as_bytes(), told),
        content_type: copy_of_bytes(alloc, content_type.as_bytes(), told),
        meta: List::new(alloc),
        body: bytes_of_escaped_text(alloc, text, told),
        fresh: false,
    });
    put_for_setup(store, request, told);
}

/// The text behind the type is the list of segments as a PUT of it has it.
fn put_manifest_of_setup<W: Swift>(alloc: Global, text: &str, store: &mut W, told: &mut Told) {
    let (container, text) = cut_text(text, ' ');
    let (name, text) = cut_text(text, ' ');
    let (content_type, text) = cut_text(text, ' ');
    let list = bytes_of_escaped_text(alloc, text, told);
    let Ok(segments) = read(alloc, list.as_slice(), Form::Put) else {
        return told.note_fault(Fault::Unread("no list of segments"));
    };
    let request = SwiftRequest::PutManifest {
        container: copy_of_bytes(alloc, container.as_bytes(), told),
        name: copy_of_bytes(alloc, name.as_bytes(), told),
        content_type: copy_of_bytes(alloc, content_type.as_bytes(), told),
        meta: List::new(alloc),
        segments,
    };
    put_for_setup(store, request, told);
}

fn put_numbered_files_of_setup<W: Swift>(
    alloc: Global,
    text: &str,
    store: &mut W,
    told: &mut Told,
) {
    let (container, text) = cut_text(text, ' ');
    let (count, text) = cut_text(text, ' ');
    let (content_type, front) = cut_text(text, ' ');
    for number in 0..number_of_text(count, told) {
        let request = SwiftRequest::PutObject(FilePut {
            container: copy_of_bytes(alloc, container.as_bytes(), told),
            name: numbered_name(alloc, front, number, told),
            content_type: copy_of_bytes(alloc, content_type.as_bytes(), told),
            meta: List::new(alloc),
            body: Bytes::new(alloc),
            fresh: false,
        });
        put_for_setup(store, request, told);
    }
}

/// The front, and the last four digits of the number.
fn numbered_name(alloc: Global, front: &str, number: u64, told: &mut Told) -> Bytes {
    let digits = [
        last_digit(number / 1000),
        last_digit(number / 100),
        last_digit(number / 10),
        last_digit(number),
    ];
    let mut name = copy_of_bytes(alloc, front.as_bytes(), told);
    told.append(&mut name, &digits);
    name
}

fn last_digit(number: u64) -> u8 {
    b'0' + (number % 10) as u8
}

fn put_for_setup<W: Swift>(store: &mut W, request: SwiftRequest, told: &mut Told) {
    let answer = ask_store(store, request);
    match &answer {
        Ok(SwiftReply::Made | SwiftReply::There | SwiftReply::Stored { .. }) => {}
        _ => told.note_fault(OTHER),
    }
    drop(answer);
}
