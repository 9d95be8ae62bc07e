//! What a run has of the outside, in memory: its line and its clock.
ghost use Rattle.std.specs.Prelude.{◌≡◌, nat_lt};
ghost use Rattle.std.specs.List.{list_all};
ghost use Rattle.gate_base.specs.declared.outside.TheConstants.{MOMENT_LIMIT};

use crate::given::{Given, given_connections, given_moments, given_numbers};
use crate::{Fault, Told, copy_of_bytes};
use gate_base::{Bytes, List, ListClock, MOMENT_LIMIT, MemLine};
use std::alloc::Global;

/// The most bytes that a read gives, where no case looks at that.
pub const LARGE: u64 = 65_536;

/// A line whose reads give so many bytes at most.
pub fn line_of_run(alloc: Global, given: Given<'_>, size: u64, told: &mut Told) -> Option<MemLine> {
    let fails = given_numbers(alloc, given, "fails", "", told);
    let connections = given_connections(alloc, given, told);
    line_of_connections(alloc, connections, size, fails, told)
}

/// A line of one connection of these bytes, whose reads give at most `piece` bytes. The calls of these numbers fail.
pub fn line_of_one_connection(
    alloc: Global,
    given: &[u8],
    piece: u64,
    fails: List<u64>,
    told: &mut Told,
) -> Option<MemLine> {
    let mut connections = List::new(alloc);
    let connection = copy_of_bytes(alloc, given, told);
    told.push(&mut connections, connection);
    line_of_connections(alloc, connections, piece, fails, told)
}

fn line_of_connections(
    alloc: Global,
    connections: List<Bytes>,
    size: u64,
    fails: List<u64>,
    told: &mut Told,
) -> Option<MemLine> {
    let piece = size as usize;
    if piece == 0 {
        told.note_fault(Fault::Unread("a read of at most 0 bytes"));
        return None;
    }
    told.keep_made(MemLine::new(alloc, connections, piece, fails))
}

/// A clock that gives the moments of a run.
pub fn clock_of_run(alloc: Global, given: Given<'_>, told: &mut Told) -> Option<ListClock> {
    let moments = given_moments(alloc, given, told);
    if moments.is_empty() || !are_clock_moments(moments.as_slice()) {
        told.note_fault(Fault::Unread("no moments of a clock"));
        return None;
    }
    Some(ListClock::new(moments))
}

fn are_clock_moments(moments: &[u64]) -> bool
    ensures { result ≡ list_all (λ m. nat_lt m MOMENT_LIMIT) moments.now }
{
    moments.iter().all(|moment| is_clock_moment(*moment))
}

fn is_clock_moment(moment: u64) -> bool
    ensures { result ≡ nat_lt moment MOMENT_LIMIT }
{
    moment < MOMENT_LIMIT
}
