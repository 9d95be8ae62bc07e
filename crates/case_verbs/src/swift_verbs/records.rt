//! Records of uploads, and completions that are sealed.
use case_text::{Told, tell_value};
use gate_base::{Bytes, Memory, drop};
use std::alloc::Global;
use upload_texts::{Record, Sealed};

/// Tells the record that a text is, and whether the text that is written of it is the same.
pub(crate) fn tell_upload_record(alloc: Global, given: &[u8], told: &mut Told) {
    let read = Record::read(alloc, given);
    tell_value(&read, told);
    if let Ok(record) = &read {
        tell_text_of_record(alloc, record, given, told);
    }
    drop(read);
}

fn tell_text_of_record(alloc: Global, record: &Record, given: &[u8], told: &mut Told) {
    if record.has_text() {
        tell_text_or_same(&record.write(alloc), given, told);
    } else {
        told.say("no text\n");
    }
}

/// Tells the completion that a text is, and whether the text that is written of it is the same.
pub(crate) fn tell_sealed_completion(alloc: Global, given: &[u8], told: &mut Told) {
    let read = Sealed::read(alloc, given);
    tell_value(&read, told);
    if let Ok(sealed) = &read {
        tell_text_of_completion(alloc, sealed, given, told);
    }
    drop(read);
}

fn tell_text_of_completion(alloc: Global, sealed: &Sealed, given: &[u8], told: &mut Told) {
    if sealed.has_text() {
        tell_text_or_same(&sealed.write(alloc), given, told);
    } else {
        told.say("no text\n");
    }
}

/// Tells a text that was written, or only that it is the one that was given.
fn tell_text_or_same(written: &Result<Bytes, Memory>, given: &[u8], told: &mut Told) {
    match written {
        Ok(text) if text.as_slice() == given => told.say("the same text\n"),
        _ => tell_value(written, told),
    }
}
