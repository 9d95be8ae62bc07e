//! Manifests of large objects.
ghost use Rattle.std.specs.Prelude.{◌≤◌, sum};

use case_text::{
    Fault, Told, bytes_of_escaped_text, copy_of_bytes, cut_text, number_of_text, numbers_of_text,
    tell_owned_value, tell_value, text_of_bytes,
};
use gate_base::{List, Memory, drop};
use slo_manifest::{
    Cover, Form, ManifestFault, Segment, cover, is_manifest, is_segment, joined_etag, read, write,
};
use std::alloc::Global;

/// Tells of the segments that are given by their fields.
pub(crate) fn tell_segment_verb(alloc: Global, verb: &str, given: &[u8], told: &mut Told) {
    let mut segments = List::new(alloc);
    for segment in text_of_bytes(given, told).split(';') {
        if !segment.is_empty() {
            let segment = segment_of_fields(alloc, segment, told);
            told.push(&mut segments, segment);
        }
    }
    tell_verb_on_segments(alloc, verb, segments.as_slice(), told);
}

/// The segment of the fields `CONTAINER | NAME | ETAG | SIZE`.
fn segment_of_fields(alloc: Global, text: &str, told: &mut Told) -> Segment {
    let (container, rest) = cut_field_at_bar(text, told);
    let (name, rest) = cut_field_at_bar(rest, told);
    let (etag, size) = cut_field_at_bar(rest, told);
    Segment {
        container: bytes_of_escaped_text(alloc, container, told),
        name: bytes_of_escaped_text(alloc, name, told),
        etag: copy_of_bytes(alloc, etag.as_bytes(), told),
        size: number_of_text(size, told),
    }
}

fn cut_field_at_bar<'a>(text: &'a str, told: &mut Told) -> (&'a str, &'a str) {
    match text.split_once(" | ") {
        Some(parts) => parts,
        None => {
            told.note_fault(Fault::Unread("a field without a bar behind it"));
            (text, "")
        }
    }
}

fn tell_verb_on_segments(alloc: Global, verb: &str, segments: &[Segment], told: &mut Told) {
    match verb {
        "is-segment" => {
            for segment in segments {
                tell_value(&is_segment(segment), told);
            }
        }
        "is-manifest" => tell_value(&is_manifest(segments), told),
        "joined-etag" => tell_owned_value(joined_etag(alloc, segments), told),
        _ => tell_both_manifests(alloc, segments, told),
    }
}

/// Tells both manifests that are written of segments.
fn tell_both_manifests(alloc: Global, segments: &[Segment], told: &mut Told) {
    if !is_manifest(segments) {
        return told.say("no text\n");
    }
    tell_owned_value(write(alloc, segments, Form::Put), told);
    tell_owned_value(write(alloc, segments, Form::Got), told);
}

/// Tells the segments of a manifest, or by `manifest-size` their number alone, and more of them.
pub(crate) fn tell_manifest_or_size(
    alloc: Global,
    verb: &str,
    text: &str,
    given: &[u8],
    told: &mut Told,
) {
    let form = if text == "put" { Form::Put } else { Form::Got };
    let read = read(alloc, given, form);
    tell_manifest_as_read(alloc, verb, &read, told);
    drop(read);
}

fn tell_manifest_as_read(
    alloc: Global,
    verb: &str,
    read: &Result<List<Segment>, ManifestFault>,
    told: &mut Told,
) {
    match read {
        Ok(segments) => {
            if verb == "manifest" {
                tell_value(read, told);
            } else {
                tell_value(&segments.len(), told);
            }
            tell_owned_value(joined_etag(alloc, segments.as_slice()), told);
            if verb == "manifest" {
                tell_both_manifests(alloc, segments.as_slice(), told);
            }
        }
        Err(_) => tell_value(read, told),
    }
}

/// Tells where the bytes of a range lie.
pub(crate) fn tell_cover_of_range(alloc: Global, text: &str, told: &mut Told) {
    let (sizes, range) = cut_field_at_bar(text, told);
    let (from, to) = cut_text(range, ' ');
    let (from, to) = (number_of_text(from, told), number_of_text(to, told));
    let sizes = numbers_of_text(alloc, sizes, ' ', told);
    tell_cover(sizes.as_slice(), from, to, told);
}

fn tell_cover(sizes: &[u64], from: u64, to: u64, told: &mut Told) {
    if to < from || total_segment_bytes(sizes) <= to {
        return told.note_fault(Fault::Unread("a range that isn't in the segments"));
    }
    let found: Result<Cover, Memory> = Ok(cover(sizes, from, to));
    tell_value(&found, told);
}

/// The bytes of segments of these sizes; where they are more than a `u64` tells, its greatest value.
fn total_segment_bytes(sizes: &[u64]) -> u64
    ensures { result ≤ sum sizes.now }
{
    let mut bytes = 0u64;
    for size in sizes {
        bytes = bytes.saturating_add(*size);
    }
    bytes
}
