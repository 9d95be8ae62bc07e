//! The copy of the segments of an object, one after another.
ghost use Rattle.std.specs.Prelude.{◌≡◌, ◌≢◌, ◌≤◌, ◌<◌, ◌*◌, true, IsTrue, length, IfOk, Err};
ghost use Rattle.s3_machine.specs.ETag.{body_etag};
ghost use Rattle.s3_machine.specs.Limits.{most_body_bytes};
ghost use Rattle.s3_machine.specs.Uploads.{IsPartNumber};
ghost use Rattle.upload_texts.specs.Sealed.{part_fits_sealed_text};
ghost use Rattle.account_calls.specs.Calls.{always, Asks, GivenOf};
ghost use Rattle.account_calls.specs.Interpret.{stored_due};
ghost use Rattle.account_calls.specs.Lent.{Stays};
ghost use Rattle.account_calls.specs.Listing.{TellsOf};
ghost use Rattle.account_calls.specs.Puts.{Stands};
ghost use Rattle.upload_calls.specs.Interpret.{put_part_of};
ghost use Rattle.account_calls.specs.declared.fault.PlanFault.TheVariants as fault;
ghost use Rattle.many_keys.specs.CopiedLists.{AreOfCut, CopiesFirst, CopiesPiece, HasPiece, IsUnnamed, MayCopy, MayCopyPiece, PutsSegment, TellsPiece, is_cut, piece_due, piece_in, size_of_cut, told_due};
ghost use Rattle.many_keys.specs.OwnSegments.{PutsOwn, StandSegments};
ghost use Rattle.account_calls.specs.Told.{LeavesAccount};
ghost use Rattle.swift_calls.specs.History.{present};

use crate::cut::{Cut, Piece};
use crate::object_copy::CopyTo;
use account_calls::{PlanFault, Settled, interpret_put_with_etag};
use gate_base::{Bytes, Copying, List, drop};
use s3_machine::{PartNumber, body_etag};
use s3_names::BucketName;
use swift_calls::{Swift, SwiftReply, SwiftRequest};
use upload_calls::{PartPlace, part_request};
use upload_records::{law_orphan_put, segment_name, segments_container};
use upload_texts::SealedPart;

/// Copies the segments of a source, which are the pieces of this cut, under an id that nothing names, each by GET of its file and PUT of
/// it as the part of the same number (Object Storage API v1, "Get object content and metadata" and "Create or replace object"). At
/// most two calls for each, and the S3 state stays. What is told are the parts that were put. The faults are those of the calls;
/// Inconsistent also where a file has another size, and never over an observable consistent account on which the files are there. After Ok
/// the file of each of these parts stands as it was put, over every observable store, consistent or not.
pub(crate) fn copy_source_segments<W: Swift>(
    state: &mut Settled<'_, W>,
    to: &CopyTo,
    id: u128,
    from_bucket: &BucketName,
    cut: &Cut,
) -> Result<List<SealedPart>, PlanFault>
    requires cut { is_cut (size_of_cut cut.now.pieces) cut.now.pieces ≡ true }
    ensures stays { Stays state.old state.new }
    ensures listed { IfOk result (AreOfCut cut.now.pieces) }
    ensures asks { Asks (always (2 * length cut.now.pieces)) (W.history state.old.store.now)
        (W.history state.new.store.now)
        (GivenOf (MayCopy to.now.bucket id from_bucket.now cut.now.id cut.now.pieces))
        (CopiesFirst to.now.bucket id from_bucket.now cut.now.id cut.now.pieces to.now.label.moment)
        result }
    ensures own { IsTrue (W.history state.new.store.now).observable
        → IfOk result (λ list. StandSegments to.now.bucket id to.now.label.moment list
        (present (W.history state.new.store.now))) }
{
    copy_pieces(state, to, id, from_bucket, cut.id, cut.pieces.as_slice())
}

/// The same of these pieces, which stand under an id.
fn copy_pieces<W: Swift>(
    state: &mut Settled<'_, W>,
    to: &CopyTo,
    id: u128,
    from_bucket: &BucketName,
    from_id: u128,
    pieces: &[Piece],
) -> Result<List<SealedPart>, PlanFault>
    requires cut { is_cut (size_of_cut pieces.now) pieces.now ≡ true }
    ensures stays { Stays state.old state.new }
    ensures listed { IfOk result (AreOfCut pieces.now) }
    ensures asks { Asks (always (2 * length pieces.now)) (W.history state.old.store.now)
        (W.history state.new.store.now)
        (GivenOf (MayCopy to.now.bucket id from_bucket.now from_id pieces.now))
        (CopiesFirst to.now.bucket id from_bucket.now from_id pieces.now to.now.label.moment)
        result }
    ensures own { IsTrue (W.history state.new.store.now).observable
        → IfOk result (λ list. StandSegments to.now.bucket id to.now.label.moment list
        (present (W.history state.new.store.now))) }
{
    let alloc = state.alloc;
    let mut list = List::new(alloc);
    for piece in pieces {
        let part = copy_piece(state, to, id, from_bucket, from_id, *piece)?;
        list.push(part)?;
    }
    Ok(list)
}

/// Copies one segment of a source.
fn copy_piece<W: Swift>(
    state: &mut Settled<'_, W>,
    to: &CopyTo,
    id: u128,
    from_bucket: &BucketName,
    from_id: u128,
    piece: Piece,
) -> Result<SealedPart, PlanFault>
    requires number { IsPartNumber piece.number }
    requires small { piece.size ≤ most_body_bytes }
    ensures stays { Stays state.old state.new }
    ensures part { IfOk result (λ part. piece_in part ≡ piece) }
    ensures proper { IfOk result (λ part. part_fits_sealed_text part ≡ true) }
    ensures asks { Asks (always 2) (W.history state.old.store.now) (W.history state.new.store.now)
        (GivenOf (MayCopyPiece to.now.bucket id from_bucket.now from_id piece))
        (CopiesPiece to.now.bucket id from_bucket.now from_id piece to.now.label.moment) result }
    ensures own { PutsOwn to.now.bucket id piece.number to.now.label.moment
        (W.history state.old.store.now)
        (W.history state.new.store.now) result }
{
    let place = PartPlace {
        bucket: to.bucket.copy()?,
        id,
        number: PartNumber::of(piece.number),
        label: to.label,
    };
    let bytes = get_piece_to_copy(state, from_bucket, from_id, piece)?;
    put_copied_segment(state, &place, bytes)
}

/// The bytes of a segment, by GET of its file.
fn get_piece_to_copy<W: Swift>(
    state: &mut Settled<'_, W>,
    bucket: &BucketName,
    id: u128,
    piece: Piece,
) -> Result<Bytes, PlanFault>
    requires number { IsPartNumber piece.number }
    ensures stays { Stays state.old state.new }
    ensures sized { IfOk result (λ bytes. length bytes ≡ piece.size) }
    ensures asks { Asks (always 1) (W.history state.old.store.now) (W.history state.new.store.now)
        (GivenOf (HasPiece bucket.now id piece)) (TellsOf (TellsPiece bucket.now id piece)) result }
    ensures leaves { LeavesAccount (W.history state.old.store.now) (W.history state.new.store.now) }
{
    let alloc = state.alloc;
    let container = segments_container(alloc, bucket.bytes())?;
    let name = segment_name(alloc, id, piece.number)?;
    let reply = state.call(SwiftRequest::GetObject {
        container,
        name,
        range: None,
    })?;
    piece_in_reply(reply, piece.size)
}

/// The answer to GET of a file of so many bytes.
fn piece_in_reply(reply: SwiftReply, size: u64) -> Result<Bytes, PlanFault>
    ensures due { result ≡ piece_due size reply }
    ensures own { result ≢ Err fault.Failed }
    ensures sized { IfOk result (λ bytes. length bytes ≡ size) }
{
    match reply {
        SwiftReply::Bytes { head: _, body } => {
            if body.len() as u64 == size {
                Ok(body)
            } else {
                Err(PlanFault::Inconsistent)
            }
        }
        _ => Err(PlanFault::Inconsistent),
    }
}

/// Puts a segment under an id that nothing names, by PUT of the file of the part of this number (Object Storage API v1, "Create or
/// replace object"). At most one call, and the S3 state stays. It is put at the moment of the label. Inconsistent never comes over an observable consistent account on which the bucket is there and nothing names the
/// id.
fn put_copied_segment<W: Swift>(
    state: &mut Settled<'_, W>,
    place: &PartPlace,
    body: Bytes,
) -> Result<SealedPart, PlanFault>
    requires { length body ≤ most_body_bytes }
    ensures stays { Stays state.old state.new }
    ensures number { IfOk result (λ part. part.number ≡ place.now.number) }
    ensures size { IfOk result (λ part. part.size ≡ length body) }
    ensures proper { IfOk result (λ part. part_fits_sealed_text part ≡ true) }
    ensures asks { Asks (always 1) (W.history state.old.store.now) (W.history state.new.store.now)
        (GivenOf (IsUnnamed place.now.bucket place.now.id))
        (PutsSegment place.now.bucket place.now.id place.now.number body place.now.label.moment)
        result }
    ensures stands { Stands (W.history state.new.store.now)
        (put_part_of place.now.bucket place.now.id place.now.number body place.now.label.moment)
        result }
    ensures own { PutsOwn place.now.bucket place.now.id place.now.number place.now.label.moment
        (W.history state.old.store.now) (W.history state.new.store.now)
        result }
{
    let alloc = state.alloc;
    let etag = body_etag(body.as_slice());
    let part = SealedPart {
        number: place.number.get(),
        etag: Bytes::from_slice(alloc, &etag)?,
        size: body.len() as u64,
    };
    put_copied_segment_file(state, place, part, body, &etag)
}

/// Puts the segment that is this part, of bytes with this ETag.
fn put_copied_segment_file<W: Swift>(
    state: &mut Settled<'_, W>,
    place: &PartPlace,
    part: SealedPart,
    body: Bytes,
    etag: &[u8],
) -> Result<SealedPart, PlanFault>
    requires number { part.number ≡ place.now.number }
    requires size { part.size ≡ length body }
    requires same { part.etag ≡ body_etag body }
    requires etag { etag.now ≡ body_etag body }
    requires sized { length body ≤ most_body_bytes }
    ensures stays { Stays state.old state.new }
    ensures told { IfOk result (λ told. told ≡ part) }
    ensures asks { Asks (always 1) (W.history state.old.store.now) (W.history state.new.store.now)
        (GivenOf (IsUnnamed place.now.bucket place.now.id))
        (PutsSegment place.now.bucket place.now.id place.now.number body place.now.label.moment)
        result }
    ensures stands { Stands (W.history state.new.store.now)
        (put_part_of place.now.bucket place.now.id place.now.number body place.now.label.moment)
        result }
    ensures own { PutsOwn place.now.bucket place.now.id place.now.number place.now.label.moment
        (W.history state.old.store.now)
        (W.history state.new.store.now) result }
{
    let alloc = state.alloc;
    place.bucket.fits();
    place.number.get();
    place.upload_id();
    law_orphan_put();
    let request = part_request(alloc, place, body, etag)?;
    let reply = state.call(request)?;
    copied_segment_in_reply(reply, etag, part)
}

/// The answer to PUT of the segment that is this part, whose bytes have this ETag.
fn copied_segment_in_reply(
    reply: SwiftReply,
    etag: &[u8],
    part: SealedPart,
) -> Result<SealedPart, PlanFault>
    ensures due { result ≡ told_due part (stored_due etag.now reply) }
    ensures own { result ≢ Err fault.Failed }
    ensures told { IfOk result (λ told. told ≡ part) }
{
    let stored = interpret_put_with_etag(&reply, etag);
    drop(reply);
    match stored {
        Ok(()) => Ok(part),
        Err(fault) => Err(fault),
    }
}
