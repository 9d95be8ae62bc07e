//! Whether a call is within the limits of a store.
ghost use Rattle.std.specs.Prelude.{◌≡◌, ◌≤◌, ◌↔◌, length, IsTrue, IfSome, Contains};
ghost use Rattle.std.specs.List.{All, list_all};
ghost use Rattle.gate_base.specs.Fields.{is_field};
ghost use Rattle.swift_calls.specs.Limits.{IsText, IsObjectName, IsMarker, IsLimit, IsRange, is_content_type, is_meta, most_body, most_segments};
ghost use Rattle.swift_calls.specs.Step.{IsContainerName, IsMoment, IsSegmentPlace, Fit};
ghost use Rattle.swift_calls.specs.declared.calls.SwiftRequest.TheVariants as asked;

use crate::{FilePut, SwiftRequest};
use gate_base::{Bytes, List, is_field};
use slo_manifest::{MOST_SEGMENTS, Segment, is_segment};
use text_forms::is_utf8;

/// The greatest body that a call puts, in bytes: 1 GiB.
pub const MOST_BODY: usize = 1_073_741_824;

fn has_no_unfit_zero_byte(text: &[u8]) -> bool
    ensures { IsTrue result ↔ ¬ (Contains text.now 0) }
{
    !text.contains(&0)
}

#[tactic(auto, using(crate::proofs::Fitting::text_is))]
fn is_fit_text(most: usize, text: &[u8]) -> bool
    ensures { IsTrue result ↔ IsText most text.now }
{
    text.len() <= most && is_utf8(text) && has_no_unfit_zero_byte(text)
}

#[tactic(auto, using(crate::proofs::Fitting::container_name_is))]
fn is_fit_container_name(name: &[u8]) -> bool
    ensures { IsTrue result ↔ IsContainerName name.now }
{
    !name.is_empty() && is_fit_text(256, name)
}

fn is_fit_object_name(name: &[u8]) -> bool
    ensures { IsTrue result ↔ IsObjectName name.now }
{
    !name.is_empty() && is_fit_text(1024, name)
}

fn is_fit_marker(text: &[u8]) -> bool
    ensures { IsTrue result ↔ IsMarker text.now }
{
    is_fit_text(1028, text)
}

fn is_fit_limit(limit: u32) -> bool
    ensures { IsTrue result ↔ IsLimit limit }
{
    1 <= limit && limit <= 1001
}

fn is_fit_range(range: Option<(u64, u64)>) -> bool
    ensures { IsTrue result ↔ IfSome range IsRange }
{
    match range {
        Some((from, to)) => from <= to && to < 9_223_372_036_854_775_808,
        None => true,
    }
}

fn is_fit_moment(moment: Option<u64>) -> bool
    ensures { IsTrue result ↔ IfSome moment IsMoment }
{
    match moment {
        Some(moment) => moment < 253_402_300_800,
        None => true,
    }
}

fn are_fit_meta_pieces(pieces: &[Bytes]) -> bool
    ensures { result ≡ list_all (is_field 256) pieces.now }
{
    pieces.iter().all(|piece| is_field(piece.as_slice(), 256))
}

fn is_meta(pieces: &[Bytes]) -> bool
    ensures { result ≡ is_meta pieces.now }
{
    pieces.len() <= 11 && are_fit_meta_pieces(pieces)
}

fn is_fit_page(marker: &Bytes, limit: u32) -> bool
    ensures { IsTrue result ↔ (IsMarker marker.now × IsLimit limit) }
{
    is_fit_marker(marker.as_slice()) && is_fit_limit(limit)
}

fn is_fit_object_place(container: &Bytes, name: &Bytes) -> bool
    ensures { IsTrue result ↔ (IsContainerName container.now × IsObjectName name.now) }
{
    is_fit_container_name(container.as_slice()) && is_fit_object_name(name.as_slice())
}

fn is_fit_content(content_type: &Bytes, meta: &List<Bytes>, body: &Bytes) -> bool
    ensures { IsTrue result ↔ (IsTrue (is_content_type content_type.now) × IsTrue (is_meta meta.now)
        × (length body.now ≤ most_body)) }
{
    is_field(content_type.as_slice(), 512) && is_meta(meta.as_slice()) && body.len() <= MOST_BODY
}

fn makes_fit(container: &Bytes, created: Option<u64>) -> bool
    ensures { IsTrue result ↔ (IsContainerName container.now × IfSome created IsMoment) }
{
    is_fit_container_name(container.as_slice()) && is_fit_moment(created)
}

fn lists_fit(container: &Bytes, prefix: &Bytes, marker: &Bytes, limit: u32) -> bool
    ensures { IsTrue result ↔ Fit (asked.ListNames container.now prefix.now marker.now limit) }
{
    is_fit_container_name(container.as_slice())
        && is_fit_marker(prefix.as_slice())
        && is_fit_page(marker, limit)
}

fn puts_fit(put: &FilePut) -> bool
    ensures { IsTrue result ↔ Fit (asked.PutObject put.now) }
{
    is_fit_object_place(&put.container, &put.name)
        && is_fit_content(&put.content_type, &put.meta, &put.body)
}

/// Whether a call may list a segment.
#[tactic(auto, using(crate::proofs::Fitting::segment_place_is))]
fn is_fit_segment(segment: &Segment) -> bool
    ensures { IsTrue result ↔ IsSegmentPlace segment.now }
{
    is_fit_object_place(&segment.container, &segment.name) && is_segment(segment)
}

fn are_fit_segments(segments: &[Segment]) -> bool
    ensures { IsTrue result ↔ All IsSegmentPlace segments.now }
{
    segments.iter().all(|segment| is_fit_segment(segment))
}

fn is_fit_manifest(content_type: &Bytes, meta: &List<Bytes>, segments: &List<Segment>) -> bool
    ensures { IsTrue result ↔ (IsTrue (is_content_type content_type.now) × IsTrue (is_meta meta.now)
        × (length segments.now ≤ most_segments) × All IsSegmentPlace segments.now) }
{
    is_field(content_type.as_slice(), 512)
        && is_meta(meta.as_slice())
        && segments.len() <= MOST_SEGMENTS
        && are_fit_segments(segments.as_slice())
}

fn puts_manifest_fit(
    container: &Bytes,
    name: &Bytes,
    content_type: &Bytes,
    meta: &List<Bytes>,
    segments: &List<Segment>,
) -> bool
    ensures { IsTrue result ↔ Fit
        (asked.PutManifest container.now name.now content_type.now meta.now segments.now) }
{
    is_fit_object_place(container, name) && is_fit_manifest(content_type, meta, segments)
}

fn gets_fit(container: &Bytes, name: &Bytes, range: Option<(u64, u64)>) -> bool
    ensures { IsTrue result ↔ Fit (asked.GetObject container.now name.now range) }
{
    is_fit_object_place(container, name) && is_fit_range(range)
}

/// Whether a call is within the limits: names of containers have 1 to 256 bytes, of objects 1 to 1024, prefixes and
/// markers at most 1028, all of UTF-8 without byte 0; a content type has 1 to 512 bytes, and each of at most 11
/// pieces of metadata 1 to 256, of visible ASCII and spaces without a space at either end; a body has at most
/// 1,073,741,824 bytes; a limit is 1 to 1001; a range ends at or after its first byte, below 2^63; a creation time is
/// before the year 10000; and each of at most 1000 segments has names of these lengths, an ETag of 32 lower-case
/// hexadecimal digits and a size from 1 to below 2^63, and no `/` in its container.
pub fn is_fit(request: &SwiftRequest) -> bool
    ensures { IsTrue result ↔ Fit request.now }
{
    match request {
        SwiftRequest::ListContainers { marker, limit } => is_fit_page(marker, *limit),
        SwiftRequest::HeadContainer { container } => is_fit_container_name(container.as_slice()),
        SwiftRequest::PutContainer {
            container,
            created,
            ..
        } => makes_fit(container, *created),
        SwiftRequest::PostContainer { container, .. } => is_fit_container_name(
            container.as_slice(),
        ),
        SwiftRequest::DeleteContainer { container } => is_fit_container_name(container.as_slice()),
        SwiftRequest::ListNames {
            container,
            prefix,
            marker,
            limit,
        } => lists_fit(container, prefix, marker, *limit),
        SwiftRequest::PutObject(put) => puts_fit(put),
        SwiftRequest::PutManifest {
            container,
            name,
            content_type,
            meta,
            segments,
        } => puts_manifest_fit(container, name, content_type, meta, segments),
        SwiftRequest::HeadObject { container, name } => is_fit_object_place(container, name),
        SwiftRequest::GetObject {
            container,
            name,
            range,
        } => gets_fit(container, name, *range),
        SwiftRequest::GetManifest { container, name } => is_fit_object_place(container, name),
        SwiftRequest::DeleteObject { container, name } => is_fit_object_place(container, name),
    }
}
