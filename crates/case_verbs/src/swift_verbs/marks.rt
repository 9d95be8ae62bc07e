//! Tags, and packs of metadata.
use case_text::{
    Fault, Told, copy_of_bytes, number_of_text, tell_owned_value, tell_value, text_of_bytes,
};
use gate_base::{List, drop};
use s3_names::Meta;
use std::alloc::Global;
use swift_marks::{Tag, pack, unpack};

/// Tells a tag, and its text.
pub(crate) fn tell_tag(alloc: Global, given: &[u8], told: &mut Told) {
    let read = Tag::read(alloc, given);
    tell_value(&read, told);
    if let Ok(tag) = &read {
        tell_text_of_tag(alloc, tag, told);
    }
    drop(read);
}

fn tell_text_of_tag(alloc: Global, tag: &Tag, told: &mut Told) {
    if tag.has_text() {
        tell_owned_value(tag.write(alloc), told);
    } else {
        told.say("no text\n");
    }
}

/// Tells the text of the tag that a text gives field by field.
pub(crate) fn tell_written_tag(alloc: Global, text: &str, told: &mut Told) {
    let parts: Result<Vec<&str>, _> = text.split(" | ").collect(alloc);
    match parts {
        Ok(parts) => tell_tag_of_parts(alloc, parts.as_slice(), told),
        Err(_) => told.note_fault(Fault::Memory),
    }
}

fn tell_tag_of_parts(alloc: Global, parts: &[&str], told: &mut Told) {
    let [content_type, etag, moment, id] = parts else {
        return told.note_fault(Fault::Unread("no four fields of a tag"));
    };
    let tag = Tag {
        content_type: copy_of_bytes(alloc, content_type.as_bytes(), told),
        etag: copy_of_bytes(alloc, etag.as_bytes(), told),
        moment: number_of_text(moment, told),
        id: tag_id_of_text(id, told),
    };
    tell_text_of_tag(alloc, &tag, told);
}

fn tag_id_of_text(text: &str, told: &mut Told) -> Option<u128> {
    match text.parse::<u128>() {
        Ok(id) => Some(id),
        Err(_) => {
            if text != "-" {
                told.note_fault(Fault::Unread("no id"));
            }
            None
        }
    }
}

/// Tells the pieces of metadata.
pub(crate) fn tell_packed_metadata(alloc: Global, given: &[u8], told: &mut Told) {
    let mut meta = Meta::new(alloc);
    for pair in text_of_bytes(given, told).split(';') {
        if let Some((name, value)) = pair.split_once(':') {
            if !matches!(meta.add(name.as_bytes(), value.as_bytes()), Ok(true)) {
                told.note_fault(Fault::Unread("a name that stands twice"));
            }
        }
    }
    tell_owned_value(pack(alloc, &meta), told);
}

/// Tells the metadata of pieces, and their pieces.
pub(crate) fn tell_unpacked_metadata(alloc: Global, given: &[u8], told: &mut Told) {
    let mut pieces = List::new(alloc);
    for line in text_of_bytes(given, told).lines() {
        let piece = copy_of_bytes(alloc, line.as_bytes(), told);
        told.push(&mut pieces, piece);
    }
    let read = unpack(alloc, pieces.as_slice());
    match &read {
        Ok(meta) => tell_metadata_and_pieces(alloc, meta, told),
        Err(_) => tell_value(&read, told),
    }
    drop(read);
}

fn tell_metadata_and_pieces(alloc: Global, meta: &Meta, told: &mut Told) {
    tell_value(&meta.pairs(), told);
    tell_owned_value(pack(alloc, meta), told);
}
