//! What is read of a completion that is sealed; and what is put of it, or of a copy that is laid out like one: its object.
ghost use Rattle.std.specs.Prelude.{◌≡◌, ◌≢◌, ◌∷◌, ◌++◌, [], map, Some, true, Err, IfOk, IfSome, OnOk};
ghost use Rattle.std.specs.List.{list_all};
ghost use Rattle.s3_names.specs.Id.{id_digits};
ghost use Rattle.swift_calls.specs.Step.{Fit};
ghost use Rattle.swift_marks.specs.Tag.{has_text, tag_text};
ghost use Rattle.upload_texts.specs.Sealed.{has_sealed_text, part_fits_sealed_text, read_sealed};
ghost use Rattle.upload_records.specs.Native.{filled_parts, part_segment, part_segments, sealed_segments, sealed_tag};
ghost use Rattle.account_calls.specs.Interpret.{Gives, known};
ghost use Rattle.account_calls.specs.Sealed.{put_by, put_object_of, sealed_due, sealed_listing};
ghost use Rattle.account_calls.specs.declared.fault.PlanFault.TheVariants as fault;

use crate::fault::PlanFault;
use crate::sub_manifests::listing_of_segments;
use gate_base::{Bytes, Copying, List, Memory};
use s3_names::id_digits;
use slo_manifest::Segment;
use std::alloc::Global;
use swift_calls::{FilePut, SwiftReply, SwiftRequest};
use swift_marks::{Tag, pack};
use upload_records::{segment_name, segments_container};
use upload_texts::{RecordFault, Sealed, SealedPart};

/// The completion that the answer to GET of the file of what is sealed tells of, and `None` where that isn't there. Memory where memory
/// ran out; Inconsistent where the file lists segments, its bytes are no such text, or the answer is another one; never Failed.
pub fn interpret_sealed_get(alloc: Global, reply: &SwiftReply) -> Result<Option<Sealed>, PlanFault>
    ensures due { Gives result (sealed_due reply.now) }
    ensures own { result ≢ Err fault.Failed }
    ensures has { IfOk result (λ found. IfSome found (λ s. has_sealed_text s ≡ true)) }
{
    match reply {
        SwiftReply::Bytes { head, body } if !head.manifest => sealed_in_text(
            alloc,
            body.as_slice(),
        ),
        SwiftReply::NotFound => Ok(None),
        _ => Err(PlanFault::Inconsistent),
    }
}

/// The sealed completion that the bytes of a file are.
fn sealed_in_text(alloc: Global, text: &[u8]) -> Result<Option<Sealed>, PlanFault>
    ensures due { Gives result (known (read_sealed text.now)) }
    ensures own { result ≢ Err fault.Failed }
    ensures has { IfOk result (λ found. IfSome found (λ s. has_sealed_text s ≡ true)) }
{
    match Sealed::read(alloc, text) {
        Ok(sealed) => Ok(Some(sealed)),
        Err(RecordFault::Memory) => Err(PlanFault::Memory),
        Err(RecordFault::NotARecord) => Err(PlanFault::Inconsistent),
        Err(RecordFault::Version(_)) => Err(PlanFault::Inconsistent),
    }
}

/// The PUT of the object of a sealed completion: a static large object of its parts that aren't empty, or an object without a
/// byte where all are.
pub fn object_request(alloc: Global, sealed: &Sealed) -> Result<SwiftRequest, Memory>
    requires { has_sealed_text sealed.now ≡ true }
    ensures request { IfOk result (λ request. request ≡ put_object_of sealed.now) }
    ensures fits { IfOk result Fit }
{
    let content_type = sealed_object_tag(alloc, sealed)?;
    let meta = pack(alloc, &sealed.meta)?;
    let container = sealed.bucket.copy()?;
    let name = sealed.key.copy()?;
    let segments = sealed_listing(alloc, sealed)?;
    Ok(put_by_segments(alloc, container, name, content_type, meta, segments))
}

fn put_by_segments(
    alloc: Global,
    container: Bytes,
    name: Bytes,
    content_type: Bytes,
    meta: List<Bytes>,
    segments: List<Segment>,
) -> SwiftRequest
    ensures { result ≡ put_by container name content_type meta segments }
{
    if segments.is_empty() {
        return SwiftRequest::PutObject(FilePut {
            container,
            name,
            content_type,
            meta,
            body: Bytes::new(alloc),
            fresh: false,
        });
    }
    SwiftRequest::PutManifest {
        container,
        name,
        content_type,
        meta,
        segments,
    }
}

/// The tag of a completed object, or of a copy that is laid out like one, as its file has it. It asks for one that has a text.
pub fn sealed_object_tag(alloc: Global, sealed: &Sealed) -> Result<Bytes, Memory>
    requires { has_text (sealed_tag sealed.now) ≡ true }
    ensures { IfOk result (λ text. text ≡ tag_text (sealed_tag sealed.now)) }
{
    let content_type = sealed.content_type.copy()?;
    let etag = sealed.etag.copy()?;
    let tag = Tag {
        content_type,
        etag,
        moment: sealed.moment,
        id: Some(sealed.id),
    };
    tag.write(alloc)
}

/// The segments that the object of a sealed completion lists.
fn sealed_listing(alloc: Global, sealed: &Sealed) -> Result<List<Segment>, Memory>
    requires { has_sealed_text sealed.now ≡ true }
    ensures { IfOk result (λ listed. listed ≡ sealed_listing sealed.now) }
{
    let segments = sealed_segments(alloc, sealed)?;
    let folder = segments_container(alloc, sealed.bucket.as_slice())?;
    listing_of_segments(alloc, &folder, sealed.id, segments)
}

/// The segments that are the parts of a sealed completion, but for the empty ones.
pub fn sealed_segments(alloc: Global, sealed: &Sealed) -> Result<List<Segment>, Memory>
    requires { has_sealed_text sealed.now ≡ true }
    ensures { IfOk result (λ segments. segments ≡ sealed_segments sealed.now) }
{
    let folder = segments_container(alloc, sealed.bucket.as_slice())?;
    sealed_listing_segments(alloc, &folder, sealed.id, sealed.list.as_slice())
}

#[tactic(auto, using(crate::proofs::lemmas::Segments::part_there, crate::proofs::lemmas::Segments::segments_more, crate::proofs::lemmas::Segments::segments_all))]
fn sealed_listing_segments(
    alloc: Global,
    folder: &Bytes,
    id: u128,
    parts: &[SealedPart],
) -> Result<List<Segment>, Memory>
    requires { list_all part_fits_sealed_text parts.now ≡ true }
    ensures { IfOk result
        (λ segments. segments ≡ part_segments folder.now (id_digits id) (filled_parts parts.now)) }
{
    let mut segments = List::new(alloc);
    for part in parts {
        add_sealed_listing_segment(alloc, &mut segments, folder, id, part)?;
    }
    Ok(segments)
}

/// Adds the segment of a part that isn't empty.
fn add_sealed_listing_segment(
    alloc: Global,
    segments: &mut List<Segment>,
    folder: &Bytes,
    id: u128,
    part: &SealedPart,
) -> Result<(), Memory>
    requires { part_fits_sealed_text part.now ≡ true }
    ensures { OnOk result (segments.new ≡ segments.old
        ++ map (part_segment folder.now (id_digits id)) (filled_parts (part.now ∷ []))) }
{
    if part.size == 0 {
        return Ok(());
    }
    let segment = sealed_listing_segment(alloc, folder, id, part)?;
    segments.push(segment)?;
    Ok(())
}

fn sealed_listing_segment(
    alloc: Global,
    folder: &Bytes,
    id: u128,
    part: &SealedPart,
) -> Result<Segment, Memory>
    requires { part_fits_sealed_text part.now ≡ true }
    ensures { IfOk result (λ segment. segment ≡ part_segment folder.now (id_digits id) part.now) }
{
    Ok(Segment {
        container: folder.copy()?,
        name: segment_name(alloc, id, part.number)?,
        etag: part.etag.copy()?,
        size: part.size,
    })
}
