//! How the bytes of an object that lists segments are cut.
ghost use Rattle.std.specs.Prelude.{◌≡◌, ◌≢◌, ◌++◌, ◌==◌, true, IfOk, OnOk, Err};
ghost use Rattle.std.specs.List.{list_all};
ghost use Rattle.account_calls.specs.Interpret.{Gives};
ghost use Rattle.account_calls.specs.declared.fault.PlanFault.TheVariants as fault;
ghost use Rattle.many_keys.specs.CopiedLists.{pieces_ascend_from, cut_by, cut_of, id_in, is_cut, is_piece_to_copy, is_sub_name, list_id, lists_subs, number_at, piece_of, size_of_cut};

use account_calls::PlanFault;
use gate_base::{List, Memory};
use s3_machine::{GREATEST_PART_NUMBER, MOST_BODY_BYTES, MOST_PARTS};
use s3_names::read_id_digits;
use slo_manifest::Segment;
use std::alloc::Global;
use upload_calls::digits_in;

/// A segment of an object: the number at the end of its name, and its size in bytes.
#[derive(Clone, Copy, Debug)]
pub(crate) struct Piece {
    pub(crate) number: u32,
    pub(crate) size: u64,
}

/// How the bytes of an object are cut: into the parts of these numbers and sizes, which are segments of one id.
#[derive(Drop)]
pub(crate) struct Cut {
    pub(crate) id: u128,
    pub(crate) pieces: List<Piece>,
}

/// The pieces of an object of so many bytes whose file lists these parts.
pub(crate) fn cut_of_list(alloc: Global, listed: &[Segment], size: u64) -> Result<Cut, PlanFault>
    ensures due { Gives result (cut_by (is_cut size (cut_of listed.now)) (list_id listed.now) (cut_of listed.now)) }
    ensures own { result ≢ Err fault.Failed }
    ensures proper { IfOk result (λ cut. is_cut size cut.pieces ≡ true) }
{
    let pieces = cut_of(alloc, listed)?;
    proper_cut(id_of_list(listed), pieces, size)
}

/// The pieces of an object of so many bytes, if they are such.
pub(crate) fn proper_cut(id: u128, pieces: List<Piece>, size: u64) -> Result<Cut, PlanFault>
    ensures due { result ≡ cut_by (is_cut size pieces) id pieces }
    ensures own { result ≢ Err fault.Failed }
    ensures proper { IfOk result (λ cut. is_cut size cut.pieces ≡ true) }
{
    if are_whole_pieces_to_copy(size, pieces.as_slice()) {
        Ok(Cut { id, pieces })
    } else {
        Err(PlanFault::Inconsistent)
    }
}

/// Adds the pieces that segments are.
#[tactic(auto, using(crate::proofs::Cuts::cut_more, crate::proofs::Cuts::cut_all))]
pub(crate) fn add_pieces(pieces: &mut List<Piece>, segments: &[Segment]) -> Result<(), Memory>
    ensures { OnOk result (pieces.new ≡ pieces.old ++ cut_of segments.now) }
{
    for segment in segments {
        pieces.push(piece_of(segment))?;
    }
    Ok(())
}

/// The pieces that segments are.
fn cut_of(alloc: Global, segments: &[Segment]) -> Result<List<Piece>, Memory>
    ensures { IfOk result (λ cut. cut ≡ cut_of segments.now) }
{
    let mut pieces = List::new(alloc);
    add_pieces(&mut pieces, segments)?;
    Ok(pieces)
}

fn piece_of(segment: &Segment) -> Piece
    ensures { result ≡ piece_of segment.now }
{
    Piece {
        number: number_at(segment.name.as_slice()),
        size: segment.size,
    }
}

/// The number at the end of a segment's name, and 0 where no five digits stand there.
fn number_at(name: &[u8]) -> u32
    ensures { result ≡ number_at name.now }
{
    let at = name.len().saturating_sub(5);
    digits_in(&name[at..]).unwrap_or(0)
}

/// The id of the first of the segments, and 0 where there is none.
pub(crate) fn id_of_list(listed: &[Segment]) -> u128
    ensures { result ≡ list_id listed.now }
{
    match listed.first() {
        Some(segment) => id_in(segment.name.as_slice()),
        None => 0,
    }
}

/// The id at the beginning of a segment's name, and 0 where no 32 digits stand there.
fn id_in(name: &[u8]) -> u128
    ensures { result ≡ id_in name.now }
{
    let end = name.len().min(32);
    read_id_digits(&name[..end]).unwrap_or(0)
}

/// Whether the first of the segments is a sub-manifest. All are then, for an object lists its parts or its sub-manifests.
pub(crate) fn lists_sub_manifests(listed: &[Segment]) -> bool
    ensures { result ≡ lists_subs listed.now }
{
    match listed.first() {
        Some(segment) => is_sub_manifest_name(segment.name.as_slice()),
        None => false,
    }
}

/// Whether a name is that of a sub-manifest: the sixth byte from its end is `m`.
#[tactic(auto, unfolding(crate::specs::CopiedLists::is_sub_name))]
fn is_sub_manifest_name(name: &[u8]) -> bool
    ensures { result ≡ is_sub_name name.now }
{
    let at = name.len().saturating_sub(6);
    match name[at..].first() {
        Some(byte) => *byte == b'm',
        None => false,
    }
}

/// Whether pieces make so many bytes, as the parts of an object.
#[tactic(auto, unfolding(crate::specs::CopiedLists::is_cut, s3_machine::specs::Uploads::most_parts))]
fn are_whole_pieces_to_copy(size: u64, cut: &[Piece]) -> bool
    ensures { result ≡ is_cut size cut.now }
{
    1 <= cut.len()
        && cut.len() <= MOST_PARTS
        && are_pieces_to_copy(cut)
        && pieces_ascend_from(0, cut)
        && is_size_of_copied_pieces(size, cut)
}

fn are_pieces_to_copy(cut: &[Piece]) -> bool
    ensures { result ≡ list_all is_piece_to_copy cut.now }
{
    cut.iter().all(|piece| is_piece_to_copy(*piece))
}

#[tactic(auto, unfolding(s3_machine::specs::Uploads::greatest_part))]
fn is_piece_to_copy(piece: Piece) -> bool
    ensures { result ≡ is_piece_to_copy piece }
{
    piece.number <= GREATEST_PART_NUMBER && 1 <= piece.size && piece.size <= MOST_BODY_BYTES
}

/// Whether the numbers ascend strictly, above this one.
fn pieces_ascend_from(above: u32, cut: &[Piece]) -> bool
    ensures { result ≡ pieces_ascend_from above cut.now }
{
    let mut last = above;
    for piece in cut {
        if piece.number <= last {
            return false;
        }
        last = piece.number;
    }
    true
}

/// Whether the pieces make so many bytes.
fn is_size_of_copied_pieces(size: u64, cut: &[Piece]) -> bool
    ensures { result ≡ (size_of_cut cut.now == size) }
{
    let mut left = size;
    for piece in cut {
        if piece.size > left {
            return false;
        }
        left = left - piece.size;
    }
    left == 0
}
