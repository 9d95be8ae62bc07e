//! The ids of uploads: their texts, and the search of one that is free, under which there is no record and no segment.
ghost use Rattle.std.specs.Prelude.{◌≡◌, ◌≢◌, ◌+◌, ◌*◌, true, Err};
ghost use Rattle.swift_calls.specs.History.{present};
ghost use Rattle.account_calls.specs.Answers.{records_of, segments_of};
ghost use Rattle.account_calls.specs.Calls.{always, by_account, Asks, GivenOf};
ghost use Rattle.account_calls.specs.Lent.{Stays};
ghost use Rattle.account_calls.specs.Listing.{TellsOf};
ghost use Rattle.account_calls.specs.declared.fault.PlanFault.TheVariants as fault;
ghost use Rattle.upload_calls.specs.Interpret.{any_due, there_due};
ghost use Rattle.upload_calls.specs.Records.{InBucket, ReadsId, TellsFree, TellsTaken};
ghost use Rattle.upload_calls.specs.Taken.{TellsRecorded, TellsSegmented};

use account_calls::{PlanFault, Settled};
use gate_base::Bytes;
use s3_names::{BucketName, id_digits, read_id_digits};
use swift_calls::{Swift, SwiftReply, SwiftRequest};
use upload_records::{segments_container, segments_prefix, uploads_container};

/// How many ids are tried for a new upload. All of them are taken only where there are as many uploads, or as many that left
/// segments.
const MOST_TRIES: u32 = 1_000_000;

/// The id of which a text is the 32 lower-case hexadecimal digits; `None` for every other text.
pub fn read_upload_id_to_find(text: &[u8]) -> Option<u128>
    ensures { ReadsId text.now result }
{
    let id = read_id_digits(text)?;
    if id_digits(id).as_slice() != text {
        return None;
    }
    Some(id)
}

/// Whether an id is taken, by HEAD of its record, and where it has none by a listing of one segment (Object Storage API v1,
/// "Show object metadata" and "Show container details and list objects"). At most two calls, and the S3 state stays. Failed comes
/// only where the store's count of faults rose; Memory where memory ran out; Inconsistent never over an observable consistent
/// account on which the bucket is there.
fn is_taken<W: Swift>(
    state: &mut Settled<'_, W>,
    bucket: &BucketName,
    id: u128,
) -> Result<bool, PlanFault>
    ensures stays { Stays state.old state.new }
    ensures asks { Asks (always 2) (W.history state.old.store.now) (W.history state.new.store.now)
        (GivenOf (InBucket bucket.now)) (TellsOf (TellsTaken bucket.now id)) result }
{
    if is_taken_by_record(state, bucket, id)? {
        return Ok(true);
    }
    is_taken_by_segment(state, bucket, id)
}

/// Whether the record of an id is there, by HEAD of its file.
fn is_taken_by_record<W: Swift>(
    state: &mut Settled<'_, W>,
    bucket: &BucketName,
    id: u128,
) -> Result<bool, PlanFault>
    ensures stays { Stays state.old state.new }
    ensures asks { Asks (always 1) (W.history state.old.store.now) (W.history state.new.store.now)
        (GivenOf (InBucket bucket.now)) (TellsOf (TellsRecorded bucket.now id)) result }
{
    let alloc = state.alloc;
    let container = uploads_container(alloc, bucket.bytes())?;
    let name = Bytes::from_slice(alloc, &id_digits(id))?;
    let reply = state.call(SwiftRequest::HeadObject { container, name })?;
    is_taken_by_record_reply(&reply)
}

/// The answer to HEAD of a record's file.
fn is_taken_by_record_reply(reply: &SwiftReply) -> Result<bool, PlanFault>
    ensures due { result ≡ there_due reply.now }
    ensures own { result ≢ Err fault.Failed }
{
    match reply {
        SwiftReply::Head(_) => Ok(true),
        SwiftReply::NotFound => Ok(false),
        _ => Err(PlanFault::Inconsistent),
    }
}

/// Whether a segment stands under an id, by a listing of one.
fn is_taken_by_segment<W: Swift>(
    state: &mut Settled<'_, W>,
    bucket: &BucketName,
    id: u128,
) -> Result<bool, PlanFault>
    ensures stays { Stays state.old state.new }
    ensures asks { Asks (always 1) (W.history state.old.store.now) (W.history state.new.store.now)
        (GivenOf (InBucket bucket.now)) (TellsOf (TellsSegmented bucket.now id)) result }
{
    let alloc = state.alloc;
    let container = segments_container(alloc, bucket.bytes())?;
    let prefix = segments_prefix(alloc, id)?;
    let reply = state.call(SwiftRequest::ListNames {
        container,
        prefix,
        marker: Bytes::new(alloc),
        limit: 1,
    })?;
    is_taken_by_segment_reply(&reply)
}

/// The answer to a listing of one segment.
fn is_taken_by_segment_reply(reply: &SwiftReply) -> Result<bool, PlanFault>
    ensures due { result ≡ any_due reply.now }
    ensures own { result ≢ Err fault.Failed }
{
    match reply {
        SwiftReply::Names(items) => Ok(!items.is_empty()),
        _ => Err(PlanFault::Inconsistent),
    }
}

/// The first id that isn't taken, from a word of chance on, by a try for each. At most two calls for each record and each segment
/// of the bucket, and two more, where the store is observable and its account consistent; and the S3 state stays. The faults are
/// those of [`is_taken`]; Memory also where all ids that are tried are taken.
pub fn free_id<W: Swift>(
    state: &mut Settled<'_, W>,
    bucket: &BucketName,
    draw: u128,
) -> Result<u128, PlanFault>
    ensures stays { Stays state.old state.new }
    ensures asks { Asks (by_account (2 * (records_of (present (W.history state.old.store.now)) bucket.now
        + segments_of (present (W.history state.old.store.now)) bucket.now + 1)))
        (W.history state.old.store.now) (W.history state.new.store.now)
        (GivenOf (InBucket bucket.now)) (TellsOf (TellsFree bucket.now draw)) result }
{
    'tries: for tries in 0..MOST_TRIES {
        let id = draw.wrapping_add(u128::from(tries));
        if !is_taken(state, bucket, id)? {
            return Ok(id);
        }
    }
    Err(PlanFault::Memory)
}
