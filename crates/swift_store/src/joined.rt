//! The bytes of segments, one behind the other.
ghost use Rattle.std.specs.Prelude.{◌≡◌, ◌++◌, ℕ, List, Some, IfOk};
ghost use Rattle.swift_calls.specs.Account.{find_object};
ghost use Rattle.swift_calls.specs.Bodies.{inner_bytes, joined, outer_bytes};
ghost use Rattle.swift_store.specs.Listed.{window};
ghost use Rattle.swift_store.specs.Shelf.{ShelfReads};

use crate::{Shelf, StoreFault};
use gate_base::{Bytes, List};
use slo_manifest::Segment;
use std::alloc::Global;

/// Appends so many bytes of a segment with bytes of its own behind the first ones, and no more than it has.
fn read_own_bytes_from_shelf<S: Shelf>(
    shelf: &mut S,
    segment: &Segment,
    skip: u64,
    count: u64,
    out: &mut Bytes,
) -> Result<(), StoreFault>
    ensures reads { ShelfReads (λ account done. (bytes : List ℕ)
        → inner_bytes (find_object account) segment.now ≡ Some bytes
        → out.new ≡ out.old ++ window skip count bytes) (S.model shelf.old) result
        (S.model shelf.new) }
{
    let room = segment.size.saturating_sub(skip);
    let end = skip + count.min(room);
    shelf.read(
        segment.container.as_slice(),
        segment.name.as_slice(),
        skip,
        end,
        out,
    )
}

/// The same. A segment of which nothing is asked isn't touched.
fn read_inner_segment_from_shelf<S: Shelf>(
    shelf: &mut S,
    segment: &Segment,
    skip: u64,
    count: u64,
    out: &mut Bytes,
) -> Result<(), StoreFault>
    ensures reads { ShelfReads (λ account done. (bytes : List ℕ)
        → inner_bytes (find_object account) segment.now ≡ Some bytes
        → out.new ≡ out.old ++ window skip count bytes) (S.model shelf.old) result
        (S.model shelf.new) }
{
    if skip < segment.size && 0 < count {
        read_own_bytes_from_shelf(shelf, segment, skip, count, out)
    } else {
        Ok(())
    }
}

/// Appends so many bytes of segments in a row behind the first ones. None of these lists segments.
fn read_inner_segments_from_shelf<S: Shelf>(
    shelf: &mut S,
    segments: &[Segment],
    skip: u64,
    count: u64,
    out: &mut Bytes,
) -> Result<(), StoreFault>
    ensures reads { ShelfReads (λ account done. (bytes : List ℕ)
        → joined (inner_bytes (find_object account)) segments.now ≡ Some bytes
        → out.new ≡ out.old ++ window skip count bytes) (S.model shelf.old) result
        (S.model shelf.new) }
{
    let mut skip = skip;
    let mut count = count;
    for segment in segments {
        read_inner_segment_from_shelf(shelf, segment, skip, count, out)?;
        count = count.saturating_sub(segment.size.saturating_sub(skip));
        skip = skip.saturating_sub(segment.size);
    }
    Ok(())
}

/// Appends so many bytes of a segment that may list segments behind the first ones, and no more than it has.
fn read_listed_bytes_from_shelf<S: Shelf>(
    shelf: &mut S,
    segment: &Segment,
    skip: u64,
    count: u64,
    out: &mut Bytes,
) -> Result<(), StoreFault>
    ensures reads { ShelfReads (λ account done. (bytes : List ℕ)
        → outer_bytes (find_object account) segment.now ≡ Some bytes
        → out.new ≡ out.old ++ window skip count bytes) (S.model shelf.old) result
        (S.model shelf.new) }
{
    match shelf.segments(segment.container.as_slice(), segment.name.as_slice())? {
        Some(segments) => read_inner_segments_from_shelf(
            shelf,
            segments.as_slice(),
            skip,
            count,
            out,
        ),
        None => read_own_bytes_from_shelf(shelf, segment, skip, count, out),
    }
}

/// The same. A segment of which nothing is asked isn't touched.
fn read_outer_segment_from_shelf<S: Shelf>(
    shelf: &mut S,
    segment: &Segment,
    skip: u64,
    count: u64,
    out: &mut Bytes,
) -> Result<(), StoreFault>
    ensures reads { ShelfReads (λ account done. (bytes : List ℕ)
        → outer_bytes (find_object account) segment.now ≡ Some bytes
        → out.new ≡ out.old ++ window skip count bytes) (S.model shelf.old) result
        (S.model shelf.new) }
{
    if skip < segment.size && 0 < count {
        read_listed_bytes_from_shelf(shelf, segment, skip, count, out)
    } else {
        Ok(())
    }
}

/// Appends so many bytes of segments in a row behind the first ones.
fn read_outer_segments_from_shelf<S: Shelf>(
    shelf: &mut S,
    segments: &[Segment],
    skip: u64,
    count: u64,
    out: &mut Bytes,
) -> Result<(), StoreFault>
    ensures reads { ShelfReads (λ account done. (bytes : List ℕ)
        → joined (outer_bytes (find_object account)) segments.now ≡ Some bytes
        → out.new ≡ out.old ++ window skip count bytes) (S.model shelf.old) result
        (S.model shelf.new) }
{
    let mut skip = skip;
    let mut count = count;
    for segment in segments {
        read_outer_segment_from_shelf(shelf, segment, skip, count, out)?;
        count = count.saturating_sub(segment.size.saturating_sub(skip));
        skip = skip.saturating_sub(segment.size);
    }
    Ok(())
}

/// So many bytes of segments in a row behind the first ones. Room is taken once, so that no byte is moved again.
pub(crate) fn read_joined_from_shelf<S: Shelf>(
    shelf: &mut S,
    alloc: Global,
    segments: &[Segment],
    skip: u64,
    count: u64,
) -> Result<Bytes, StoreFault>
    ensures reads { ShelfReads (λ account body. (bytes : List ℕ)
        → joined (outer_bytes (find_object account)) segments.now ≡ Some bytes
        → body ≡ window skip count bytes) (S.model shelf.old) result (S.model shelf.new) }
{
    let mut body = Bytes::with_room(alloc, count as usize)?;
    read_outer_segments_from_shelf(shelf, segments, skip, count, &mut body)?;
    Ok(body)
}
