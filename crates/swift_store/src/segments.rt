//! Which segments an object may list, and whether those that it lists are there.
ghost use Rattle.std.specs.Prelude.{◌≡◌, ◌^◌, true, false, None, Some, IfOk, IsTrue, nat_lt, sum_by};
ghost use Rattle.std.specs.List.{list_all};
ghost use Rattle.swift_calls.specs.Account.{find_object};
ghost use Rattle.swift_calls.specs.Bodies.{found, is_good_list, is_shallow_there, may_be_listed};
ghost use Rattle.swift_store.specs.Listed.{found_lists, is_shelved_as_listed, is_counted, is_inner, is_no_list_on_shelf, is_outer, passes_in, segments_at};
ghost use Rattle.swift_store.specs.Made.{IsSized};
ghost use Rattle.swift_store.specs.Shelf.{ShelfReads};

use crate::{Shelf, StoreFault};
use slo_manifest::{MOST_SEGMENTS, Segment};
use swift_calls::StoredHead;

/// The limit of sizes, and of the sum of the sizes of one object.
const SIZE_LIMIT: u64 = 1 << 63;

/// Whether an object is as a segment says: with its ETag and its size.
fn is_shelved_as_listed(segment: &Segment, head: &StoredHead) -> bool
    ensures { result ≡ is_shelved_as_listed segment.now head.now }
{
    head.etag.as_slice() == segment.etag.as_slice() && head.size == segment.size
}

/// Whether the object of a segment lists segments, where it is there as the segment says.
#[tactic(auto, using(crate::proofs::Listed::found_as, crate::proofs::Listed::found_none))]
fn is_segment_list_on_shelf<S: Shelf>(
    shelf: &mut S,
    segment: &Segment,
) -> Result<Option<bool>, StoreFault>
    ensures reads { ShelfReads
        (λ account found. found ≡ found_lists (find_object account) segment.now) (S.model shelf.old)
        result (S.model shelf.new) }
{
    match shelf.head(segment.container.as_slice(), segment.name.as_slice())? {
        Some(head) => Ok(lists_by_head(segment, &head)),
        None => Ok(None),
    }
}

/// Whether an object of this head lists segments, where it is as a segment says.
fn lists_by_head(segment: &Segment, head: &StoredHead) -> Option<bool>
    ensures so { is_shelved_as_listed segment.now head.now ≡ true → result ≡ Some head.now.manifest }
    ensures other { is_shelved_as_listed segment.now head.now ≡ false → result ≡ None }
{
    if is_shelved_as_listed(segment, head) {
        Some(head.manifest)
    } else {
        None
    }
}

/// Whether a segment is there as it says, with bytes of its own.
#[tactic(auto, using(crate::proofs::Listed::inner_by))]
fn is_inner<S: Shelf>(shelf: &mut S, segment: &Segment) -> Result<bool, StoreFault>
    ensures reads { ShelfReads (λ account is. is ≡ is_inner (find_object account) segment.now)
        (S.model shelf.old) result (S.model shelf.new) }
{
    match is_segment_list_on_shelf(shelf, segment)? {
        Some(lists) => Ok(!lists),
        None => Ok(false),
    }
}

/// Whether each segment is there as it says, with bytes of its own.
fn are_inner_segments_on_shelf<S: Shelf>(
    shelf: &mut S,
    segments: &[Segment],
) -> Result<bool, StoreFault>
    ensures reads { ShelfReads
        (λ account are. are ≡ list_all (is_inner (find_object account)) segments.now)
        (S.model shelf.old) result (S.model shelf.new) }
{
    for segment in segments {
        if !is_inner(shelf, segment)? {
            return Ok(false);
        }
    }
    Ok(true)
}

/// Whether what stands at a segment's place lists segments that are there, each with bytes of its own.
fn lists_inner_segments_on_shelf<S: Shelf>(
    shelf: &mut S,
    segment: &Segment,
) -> Result<bool, StoreFault>
    ensures reads { ShelfReads (λ account are. are ≡ passes_in (is_inner (find_object account))
        (segments_at (find_object account segment.now.container segment.now.name)))
        (S.model shelf.old) result (S.model shelf.new) }
{
    match shelf.segments(segment.container.as_slice(), segment.name.as_slice())? {
        Some(segments) => are_inner_segments_on_shelf(shelf, segments.as_slice()),
        None => Ok(false),
    }
}

/// Whether a segment is there as it says, and each segment that it may list.
fn is_outer<S: Shelf>(shelf: &mut S, segment: &Segment) -> Result<bool, StoreFault>
    ensures reads { ShelfReads (λ account is. is ≡ is_outer (find_object account) segment.now)
        (S.model shelf.old) result (S.model shelf.new) }
{
    match is_segment_list_on_shelf(shelf, segment)? {
        Some(true) => lists_inner_segments_on_shelf(shelf, segment),
        Some(false) => Ok(true),
        None => Ok(false),
    }
}

/// Whether each segment is there as it says, and each segment that one of them lists.
pub(crate) fn are_outer_segments_on_shelf<S: Shelf>(
    shelf: &mut S,
    segments: &[Segment],
) -> Result<bool, StoreFault>
    ensures reads { ShelfReads
        (λ account are. are ≡ list_all (is_outer (find_object account)) segments.now)
        (S.model shelf.old) result (S.model shelf.new) }
{
    for segment in segments {
        if !is_outer(shelf, segment)? {
            return Ok(false);
        }
    }
    Ok(true)
}

/// Whether nothing at a segment's place lists segments.
#[tactic(auto, using(crate::proofs::Listed::no_list_some, crate::proofs::Listed::no_list_none))]
fn is_no_list_on_shelf<S: Shelf>(shelf: &mut S, segment: &Segment) -> Result<bool, StoreFault>
    ensures reads { ShelfReads (λ account is. is ≡ is_no_list_on_shelf (find_object account) segment.now)
        (S.model shelf.old) result (S.model shelf.new) }
{
    match shelf.head(segment.container.as_slice(), segment.name.as_slice())? {
        Some(head) => Ok(!head.manifest),
        None => Ok(true),
    }
}

/// Whether none of these is a list.
fn are_no_lists_on_shelf<S: Shelf>(shelf: &mut S, segments: &[Segment]) -> Result<bool, StoreFault>
    ensures reads { ShelfReads
        (λ account are. are ≡ list_all (is_no_list_on_shelf (find_object account)) segments.now)
        (S.model shelf.old) result (S.model shelf.new) }
{
    for segment in segments {
        if !is_no_list_on_shelf(shelf, segment)? {
            return Ok(false);
        }
    }
    Ok(true)
}

/// Whether what stands at a segment's place lists segments, none of which is a list.
fn lists_no_list_on_shelf<S: Shelf>(shelf: &mut S, segment: &Segment) -> Result<bool, StoreFault>
    ensures reads { ShelfReads (λ account are. are ≡ passes_in (is_no_list_on_shelf (find_object account))
        (segments_at (find_object account segment.now.container segment.now.name)))
        (S.model shelf.old) result (S.model shelf.new) }
{
    match shelf.segments(segment.container.as_slice(), segment.name.as_slice())? {
        Some(segments) => are_no_lists_on_shelf(shelf, segments.as_slice()),
        None => Ok(false),
    }
}

/// Whether a segment may be listed by its place: it is there as it says, and lists no list.
fn is_shallow_on_shelf<S: Shelf>(shelf: &mut S, segment: &Segment) -> Result<bool, StoreFault>
    ensures reads { ShelfReads (λ account is. is ≡ is_shallow_there (find_object account)
        (found (find_object account) segment.now)) (S.model shelf.old) result (S.model shelf.new) }
{
    match is_segment_list_on_shelf(shelf, segment)? {
        Some(true) => lists_no_list_on_shelf(shelf, segment),
        Some(false) => Ok(true),
        None => Ok(false),
    }
}

/// Whether a segment may be listed: it isn't empty, and it is there as it says, and lists no list.
fn is_listable_on_shelf<S: Shelf>(shelf: &mut S, segment: &Segment) -> Result<bool, StoreFault>
    ensures reads { ShelfReads
        (λ account may. may ≡ may_be_listed (find_object account) segment.now) (S.model shelf.old)
        result (S.model shelf.new) }
{
    let is_there = is_shallow_on_shelf(shelf, segment)?;
    Ok(0 < segment.size && is_there)
}

/// Whether each of these may be listed.
fn are_listable_on_shelf<S: Shelf>(shelf: &mut S, segments: &[Segment]) -> Result<bool, StoreFault>
    ensures reads { ShelfReads
        (λ account may. may ≡ list_all (may_be_listed (find_object account)) segments.now)
        (S.model shelf.old) result (S.model shelf.new) }
{
    for segment in segments {
        if !is_listable_on_shelf(shelf, segment)? {
            return Ok(false);
        }
    }
    Ok(true)
}

/// Whether segments have less than 2^63 bytes together.
#[tactic(auto, using(crate::proofs::Listed::leaves_next, crate::proofs::Listed::leaves_lost, crate::proofs::Listed::leaves_end))]
fn are_small_enough_to_shelve(segments: &[Segment]) -> bool
    ensures { result ≡ nat_lt (sum_by (λ s. s.size) segments.now) (2 ^ 63) }
{
    let mut left = SIZE_LIMIT;
    for segment in segments {
        if left <= segment.size {
            return false;
        }
        left -= segment.size;
    }
    true
}

fn is_counted(segments: &[Segment]) -> bool
    ensures { result ≡ is_counted segments.now }
{
    0 < segments.len() && segments.len() <= MOST_SEGMENTS && are_small_enough_to_shelve(segments)
}

/// Whether an object may list these segments. The shelf is asked only where their number and their sizes are right.
#[tactic(auto, using(crate::proofs::Listed::good_counted, crate::proofs::Listed::not_counted, crate::proofs::Listed::sized_counted))]
pub(crate) fn is_good_list_on_shelf<S: Shelf>(
    shelf: &mut S,
    segments: &[Segment],
) -> Result<bool, StoreFault>
    ensures reads { ShelfReads (λ account is. is ≡ is_good_list (find_object account) segments.now)
        (S.model shelf.old) result (S.model shelf.new) }
    ensures sized { IfOk result (λ is. IsTrue is → IsSized segments.now) }
{
    if is_counted(segments) {
        are_listable_on_shelf(shelf, segments)
    } else {
        Ok(false)
    }
}
