//! The bytes of an object that is kept in memory, those of its segments in a row among them.
ghost use Rattle.std.specs.Prelude.{◌≡◌, ◌<◌, ◌^◌, IfOk};
ghost use Rattle.swift_calls.specs.Account.{file_of, size_of};
ghost use Rattle.swift_calls.specs.Bodies.{is_segment, plain_bytes, inner_bytes, segment_bytes_of, outer_bytes, joined, ranged};
ghost use Rattle.swift_calls.specs.Step.{part_reply, get_reply};
ghost use Rattle.planned_swift.specs.Lists.{look_in, AreSized};

use crate::Container;
use crate::objects::{etag_of, head_of, object_in_account, size_of};
use gate_base::{Bytes, Copying, List, Memory};
use slo_manifest::Segment;
use std::alloc::Global;
use swift_calls::{Content, Stored, StoredHead, SwiftReply};

/// Whether an object is as a segment says: with its ETag and its size.
pub(crate) fn is_segment(alloc: Global, object: &Stored, segment: &Segment) -> Result<bool, Memory>
    requires { size_of object.now.content < 2 ^ 63 }
    ensures { IfOk result (λ is. is ≡ is_segment segment.now (file_of object.now)) }
{
    let etag = etag_of(alloc, &object.content)?;
    let size = size_of(&object.content);
    Ok(etag.as_slice() == segment.etag.as_slice() && size == segment.size)
}

fn plain_bytes(content: &Content) -> Result<Option<Bytes>, Memory>
    ensures { IfOk result (λ bytes. bytes ≡ plain_bytes content.now) }
{
    match content {
        Content::Plain(bytes) => Ok(Some(bytes.copy()?)),
        Content::Segments(_) => Ok(None),
    }
}

/// The bytes of a segment that may list no segments.
#[tactic(auto, using(crate::proofs::Serving::look_named, crate::proofs::Serving::sized_stored))]
fn inner_bytes(
    alloc: Global,
    containers: &List<Container>,
    segment: &Segment,
) -> Result<Option<Bytes>, Memory>
    requires { AreSized containers.now }
    ensures { IfOk result (λ bytes. bytes ≡ inner_bytes (look_in containers.now) segment.now) }
{
    match object_in_account(
        containers,
        segment.container.as_slice(),
        segment.name.as_slice(),
    ) {
        Some(object) => {
            if is_segment(alloc, object, segment)? {
                plain_bytes(&object.content)
            } else {
                Ok(None)
            }
        }
        None => Ok(None),
    }
}

/// The bytes of segments in a row, of which none may list segments.
#[tactic(auto, using(crate::proofs::Joining::joins_start, crate::proofs::Joining::joins_next, crate::proofs::Joining::joins_lost, crate::proofs::Joining::joins_end))]
fn joined_inner_bytes_in_account(
    alloc: Global,
    containers: &List<Container>,
    segments: &[Segment],
) -> Result<Option<Bytes>, Memory>
    requires { AreSized containers.now }
    ensures { IfOk result
        (λ bytes. bytes ≡ joined (inner_bytes (look_in containers.now)) segments.now) }
{
    let mut body = Bytes::new(alloc);
    for segment in segments {
        match inner_bytes(alloc, containers, segment)? {
            Some(bytes) => body.append(bytes.as_slice())?,
            None => return Ok(None),
        }
    }
    Ok(Some(body))
}

fn segment_bytes_of(
    alloc: Global,
    containers: &List<Container>,
    content: &Content,
) -> Result<Option<Bytes>, Memory>
    requires { AreSized containers.now }
    ensures { IfOk result (λ bytes. bytes ≡ segment_bytes_of (look_in containers.now) content.now) }
{
    match content {
        Content::Plain(bytes) => Ok(Some(bytes.copy()?)),
        Content::Segments(segments) => joined_inner_bytes_in_account(
            alloc,
            containers,
            segments.as_slice(),
        ),
    }
}

/// The bytes of a segment that may list plain segments.
#[tactic(auto, using(crate::proofs::Serving::look_named, crate::proofs::Serving::sized_stored))]
fn outer_bytes(
    alloc: Global,
    containers: &List<Container>,
    segment: &Segment,
) -> Result<Option<Bytes>, Memory>
    requires { AreSized containers.now }
    ensures { IfOk result (λ bytes. bytes ≡ outer_bytes (look_in containers.now) segment.now) }
{
    match object_in_account(
        containers,
        segment.container.as_slice(),
        segment.name.as_slice(),
    ) {
        Some(object) => {
            if is_segment(alloc, object, segment)? {
                segment_bytes_of(alloc, containers, &object.content)
            } else {
                Ok(None)
            }
        }
        None => Ok(None),
    }
}

/// The bytes of an object's segments in a row.
#[tactic(auto, using(crate::proofs::Joining::joins_start, crate::proofs::Joining::joins_next, crate::proofs::Joining::joins_lost, crate::proofs::Joining::joins_end))]
fn joined_outer_bytes_in_account(
    alloc: Global,
    containers: &List<Container>,
    segments: &[Segment],
) -> Result<Option<Bytes>, Memory>
    requires { AreSized containers.now }
    ensures { IfOk result
        (λ bytes. bytes ≡ joined (outer_bytes (look_in containers.now)) segments.now) }
{
    let mut body = Bytes::new(alloc);
    for segment in segments {
        match outer_bytes(alloc, containers, segment)? {
            Some(bytes) => body.append(bytes.as_slice())?,
            None => return Ok(None),
        }
    }
    Ok(Some(body))
}

/// The bytes of a range: from its first to its last, or to the last that is there.
#[tactic(auto, using(crate::proofs::Joining::range_within))]
fn ranged(alloc: Global, range: Option<(u64, u64)>, bytes: &[u8]) -> Result<Option<Bytes>, Memory>
    ensures { IfOk result (λ part. part ≡ ranged range bytes.now) }
{
    match range {
        Some((from, to)) => {
            let size = bytes.len() as u64;
            if from < size {
                let end = if to < size { to + 1 } else { size };
                let begin = from.min(end);
                Ok(Some(Bytes::from_slice(alloc, &bytes[begin as usize..end as usize])?))
            } else {
                Ok(None)
            }
        }
        None => Ok(Some(Bytes::from_slice(alloc, bytes)?)),
    }
}

fn part_reply(
    alloc: Global,
    head: StoredHead,
    range: Option<(u64, u64)>,
    bytes: &[u8],
) -> Result<SwiftReply, Memory>
    ensures { IfOk result (λ reply. reply ≡ part_reply head (ranged range bytes.now)) }
{
    match ranged(alloc, range, bytes)? {
        Some(body) => Ok(SwiftReply::Bytes { head, body }),
        None => Ok(SwiftReply::Unsatisfiable),
    }
}

/// Reads an object, whose segments are looked for in the containers.
pub(crate) fn read_object_in_account(
    alloc: Global,
    containers: &List<Container>,
    object: &Stored,
    range: Option<(u64, u64)>,
) -> Result<SwiftReply, Memory>
    requires sized { AreSized containers.now }
    requires size { size_of object.now.content < 2 ^ 63 }
    ensures { IfOk result
        (λ reply. reply ≡ get_reply (look_in containers.now) range (Some (file_of object.now))) }
{
    let head = head_of(alloc, object)?;
    match &object.content {
        Content::Plain(bytes) => part_reply(alloc, head, range, bytes.as_slice()),
        Content::Segments(segments) => {
            match joined_outer_bytes_in_account(alloc, containers, segments.as_slice())? {
                Some(bytes) => part_reply(alloc, head, range, bytes.as_slice()),
                None => Ok(SwiftReply::NotFound),
            }
        }
    }
}
