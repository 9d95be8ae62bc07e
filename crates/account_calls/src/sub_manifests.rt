//! The sub-manifests of an object of many parts: what its file lists, and their PUT (Object Storage API v1, "Static large
//! objects": a manifest may list others).
ghost use Rattle.std.specs.Prelude.{◌≡◌, ◌≤◌, ◌<◌, ◌+◌, ◌*◌, ◌^◌, length, true, IfOk};
ghost use Rattle.s3_names.specs.Id.{id_digits};
ghost use Rattle.s3_machine.specs.Uploads.{most_parts};
ghost use Rattle.swift_calls.specs.Bodies.{etag_of};
ghost use Rattle.swift_calls.specs.Step.{Fit};
ghost use Rattle.swift_calls.specs.declared.account.Content.TheVariants.{Segments};
ghost use Rattle.swift_marks.specs.Tag.{tag_text};
ghost use Rattle.upload_texts.specs.Sealed.{has_sealed_text};
ghost use Rattle.upload_records.specs.Native.{listing_by, run, sealed_segments, sealed_sub_manifests, sub_manifests, sub_segment, sub_segments, sub_tag};
ghost use Rattle.account_calls.specs.Sealed.{put_sub_of};
ghost use Rattle.account_calls.specs.SubManifests.{sum_of};

use gate_base::{Bytes, Copying, List, Memory};
use slo_manifest::{MOST_SEGMENTS, Segment, joined_etag};
use std::alloc::Global;
use swift_calls::SwiftRequest;
use swift_marks::Tag;
use upload_records::{segments_container, sub_manifest_name};
use upload_texts::Sealed;

/// How many sub-manifests the object of so many segments lists: none, where its own manifest may list them, and else one for each
/// thousand.
pub fn sub_manifest_count(segments: usize) -> usize
    requires { segments ≤ most_parts }
    ensures { result ≡ sub_manifests segments }
{
    if segments <= MOST_SEGMENTS {
        return 0;
    }
    (segments + 999) / MOST_SEGMENTS
}

/// The segments of the run of a number, counted from 0.
fn run_of(segments: &[Segment], n: usize) -> &[Segment]
    requires few { length segments.now ≤ most_parts }
    requires within { n < sub_manifests (length segments.now) }
    ensures { result.now ≡ run n segments.now }
{
    let from = n * MOST_SEGMENTS;
    let to = segments.len().min(from + MOST_SEGMENTS);
    &segments[from..to]
}

/// What an object of these segments lists: the segments themselves, where its manifest may list so many, and else their
/// sub-manifests.
pub(crate) fn listing_of_segments(
    alloc: Global,
    folder: &Bytes,
    id: u128,
    segments: List<Segment>,
) -> Result<List<Segment>, Memory>
    requires few { length segments ≤ most_parts }
    requires small { sum_of segments < 2 ^ 63 }
    ensures { IfOk result (λ listed. listed ≡ listing_by folder.now (id_digits id) segments) }
{
    if segments.len() <= MOST_SEGMENTS {
        return Ok(segments);
    }
    sub_manifest_segments(alloc, folder, id, segments.as_slice())
}

/// The sub-manifests of segments, as the segments of the object that lists them.
fn sub_manifest_segments(
    alloc: Global,
    folder: &Bytes,
    id: u128,
    segments: &[Segment],
) -> Result<List<Segment>, Memory>
    requires few { length segments.now ≤ most_parts }
    requires small { sum_of segments.now < 2 ^ 63 }
    ensures { IfOk result (λ listed. listed
        ≡ sub_segments folder.now (id_digits id) segments.now (sub_manifests (length segments.now))) }
{
    let mut listed = List::new(alloc);
    let count = sub_manifest_count(segments.len());
    for n in 0..count {
        listed.push(sub_manifest_segment(alloc, folder, id, n, run_of(segments, n))?)?;
    }
    Ok(listed)
}

/// The sub-manifest of that number, counted from 0, which lists these, as a segment.
fn sub_manifest_segment(
    alloc: Global,
    folder: &Bytes,
    id: u128,
    n: usize,
    listed: &[Segment],
) -> Result<Segment, Memory>
    requires few { n < 10 }
    requires small { sum_of listed.now < 2 ^ 63 }
    ensures { IfOk result
        (λ segment. segment ≡ sub_segment folder.now (id_digits id) n listed.now) }
{
    Ok(Segment {
        container: folder.copy()?,
        name: sub_manifest_name(alloc, id, n as u32 + 1)?,
        etag: list_etag(alloc, listed)?,
        size: size_of_list(listed),
    })
}

/// The ETag of an object that lists these segments, as a store gives it.
fn list_etag(alloc: Global, listed: &[Segment]) -> Result<Bytes, Memory>
    ensures { IfOk result (λ etag. etag ≡ etag_of (Segments listed.now)) }
{
    joined_etag(alloc, listed)
}

fn size_of_list(listed: &[Segment]) -> u64
    requires { sum_of listed.now < 2 ^ 63 }
    ensures { result ≡ sum_of listed.now }
{
    listed.iter().map(|segment| segment.size).sum()
}

fn copied_list(alloc: Global, segments: &[Segment]) -> Result<List<Segment>, Memory>
    ensures { IfOk result (λ copy. copy ≡ segments.now) }
{
    let mut copy = List::new(alloc);
    for segment in segments {
        copy.push(segment.copy()?)?;
    }
    Ok(copy)
}

/// The tag of a sub-manifest of a sealed completion that lists these.
fn sub_manifest_tag(alloc: Global, sealed: &Sealed, listed: &[Segment]) -> Result<Bytes, Memory>
    requires { has_sealed_text sealed.now ≡ true }
    ensures { IfOk result (λ text. text ≡ tag_text (sub_tag sealed.now listed.now)) }
{
    let content_type = Bytes::from_slice(alloc, b"application/octet-stream")?;
    let etag = list_etag(alloc, listed)?;
    let tag = Tag {
        content_type,
        etag,
        moment: sealed.moment,
        id: Some(sealed.id),
    };
    tag.write(alloc)
}

/// The PUT of the sub-manifest of that number, counted from 0, of a sealed completion whose segments are these.
pub fn sub_manifest_request(
    alloc: Global,
    sealed: &Sealed,
    segments: &[Segment],
    n: usize,
) -> Result<SwiftRequest, Memory>
    requires has { has_sealed_text sealed.now ≡ true }
    requires are { segments.now ≡ sealed_segments sealed.now }
    requires below { n < sealed_sub_manifests sealed.now }
    ensures request { IfOk result (λ request. request ≡ put_sub_of sealed.now n) }
    ensures fits { IfOk result Fit }
{
    let listed = run_of(segments, n);
    let container = segments_container(alloc, sealed.bucket.as_slice())?;
    let name = sub_manifest_name(alloc, sealed.id, n as u32 + 1)?;
    let content_type = sub_manifest_tag(alloc, sealed, listed)?;
    let segments = copied_list(alloc, listed)?;
    Ok(SwiftRequest::PutManifest {
        container,
        name,
        content_type,
        meta: List::new(alloc),
        segments,
    })
}
