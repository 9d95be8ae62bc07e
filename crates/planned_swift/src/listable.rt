//! Which segments an object that is kept in memory may list.
ghost use Rattle.std.specs.Prelude.{◌≡◌, ◌^◌, nat_lt, sum_by, IfOk};
ghost use Rattle.std.specs.List.{list_all, list_any};
ghost use Rattle.swift_calls.specs.Bodies.{lists_at, is_shallow, may_be_listed, is_good_list};
ghost use Rattle.planned_swift.specs.Lists.{look_in, AreSized};

use crate::Container;
use crate::objects::{is_list, object_in_account};
use crate::segments::is_segment;
use gate_base::{List, Memory};
use slo_manifest::{MOST_SEGMENTS, Segment};
use std::alloc::Global;
use swift_calls::Content;

/// The limit of sizes, and of the sum of the sizes of one object.
const SIZE_LIMIT: u64 = 1 << 63;

/// Whether what stands at a segment's place lists segments.
#[tactic(auto, using(crate::proofs::Serving::look_named))]
fn lists_at(containers: &List<Container>, segment: &Segment) -> bool
    ensures { result ≡ lists_at (look_in containers.now segment.now.container segment.now.name) }
{
    match object_in_account(
        containers,
        segment.container.as_slice(),
        segment.name.as_slice(),
    ) {
        Some(object) => is_list(&object.content),
        None => false,
    }
}

fn any_lists(containers: &List<Container>, segments: &[Segment]) -> bool
    ensures { result ≡ list_any (λ s. lists_at (look_in containers.now s.container s.name))
        segments.now }
{
    segments.iter().any(|segment| lists_at(containers, segment))
}

/// Whether a body lists no segment that lists segments.
fn is_shallow(containers: &List<Container>, content: &Content) -> bool
    ensures { result ≡ is_shallow (look_in containers.now) content.now }
{
    match content {
        Content::Plain(_) => true,
        Content::Segments(segments) => !any_lists(containers, segments.as_slice()),
    }
}

/// Whether a segment may be listed: it isn't empty, and it is there as it says, and lists no list.
#[tactic(auto, using(crate::proofs::Serving::look_named, crate::proofs::Serving::sized_stored))]
fn may_be_listed(
    alloc: Global,
    containers: &List<Container>,
    segment: &Segment,
) -> Result<bool, Memory>
    requires { AreSized containers.now }
    ensures { IfOk result (λ may. may ≡ may_be_listed (look_in containers.now) segment.now) }
{
    match object_in_account(
        containers,
        segment.container.as_slice(),
        segment.name.as_slice(),
    ) {
        Some(object) => {
            let is_there = is_segment(alloc, object, segment)?;
            Ok(0 < segment.size && is_there && is_shallow(containers, &object.content))
        }
        None => Ok(false),
    }
}

/// Whether each of these may be listed.
#[tactic(auto, using(crate::proofs::Manifests::passes_start, crate::proofs::Manifests::passes_next, crate::proofs::Manifests::passes_lost, crate::proofs::Manifests::passes_end))]
fn are_listable_in_account(
    alloc: Global,
    containers: &List<Container>,
    segments: &[Segment],
) -> Result<bool, Memory>
    requires { AreSized containers.now }
    ensures { IfOk result
        (λ may. may ≡ list_all (may_be_listed (look_in containers.now)) segments.now) }
{
    for segment in segments {
        if !may_be_listed(alloc, containers, segment)? {
            return Ok(false);
        }
    }
    Ok(true)
}

/// Whether segments have less than 2^63 bytes together.
#[tactic(auto, using(crate::proofs::Manifests::leaves_next, crate::proofs::Manifests::leaves_lost, crate::proofs::Manifests::leaves_end))]
fn are_small(segments: &[Segment]) -> bool
    ensures { result ≡ nat_lt (sum_by (λ s. s.size) segments.now) (2 ^ 63) }
{
    let mut left = SIZE_LIMIT;
    for segment in segments {
        if left <= segment.size {
            return false;
        }
        left -= segment.size;
    }
    true
}

/// Whether an object may list these segments.
#[tactic(auto, unfolding(swift_calls::specs::Bodies::is_good_list))]
pub(crate) fn is_good_list(
    alloc: Global,
    containers: &List<Container>,
    segments: &[Segment],
) -> Result<bool, Memory>
    requires { AreSized containers.now }
    ensures { IfOk result (λ is. is ≡ is_good_list (look_in containers.now) segments.now) }
{
    let are_there = are_listable_in_account(alloc, containers, segments)?;
    let is_counted = 0 < segments.len() && segments.len() <= MOST_SEGMENTS;
    Ok(is_counted && are_there && are_small(segments))
}
