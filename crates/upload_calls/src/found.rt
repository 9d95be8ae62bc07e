//! The upload that an operation is on.
ghost use Rattle.std.specs.Prelude.{◌≡◌, false, IfOk};
ghost use Rattle.s3_names.specs.Id.{id_digits};
ghost use Rattle.upload_records.specs.Native.{IsSettled};
ghost use Rattle.account_calls.specs.Calls.{always, Asks, GivenOf};
ghost use Rattle.account_calls.specs.Lent.{Stays};
ghost use Rattle.account_calls.specs.Listing.{TellsOf};
ghost use Rattle.upload_calls.specs.Found.{IsFoundBy, TellsUpload, found_by, StopsAtBucket, is_bucket_missing};
ghost use Rattle.upload_calls.specs.Records.{InBucket};

use crate::ids::read_upload_id_to_find;
use crate::records::get_record;
use account_calls::{PlanFault, Settled, head_bucket};
use gate_base::Bytes;
use s3_names::{BucketName, Key};
use swift_calls::Swift;
use upload_texts::Record;

/// What is found of the upload that an operation is on.
#[derive(Clone, Copy, Debug, PartialEq, Eq)]
pub enum Found {
    /// The bucket is missing.
    NoBucket,
    /// No upload of the key is open under the id.
    NoUpload,
    /// One is, whose id is this.
    Open(u128),
}

/// Looks for an open upload of a key by the text of its id: HEAD of the bucket's container, then GET of the upload's record,
/// where the text is that of an id. At most two calls, and the S3 state stays. The faults are those of the calls.
pub fn find_upload<W: Swift>(
    state: &mut Settled<'_, W>,
    bucket: &BucketName,
    key: &Key,
    text: &Bytes,
) -> Result<Found, PlanFault>
    ensures stays { Stays state.old state.new }
    ensures asks { Asks (always 2) (W.history state.old.store.now) (W.history state.new.store.now)
        IsSettled (TellsOf (TellsUpload bucket.now key.now text.now)) result }
    ensures by_text { IfOk result (IsFoundBy text.now) }
    ensures missing { StopsAtBucket (W.history state.old.store.now) (W.history state.new.store.now) result }
{
    bucket.fits();
    let Some(_) = head_bucket(state, bucket)? else {
        return Ok(Found::NoBucket);
    };
    let Some(id) = read_upload_id_to_find(text.as_slice()) else {
        return Ok(Found::NoUpload);
    };
    find_upload_by_id(state, bucket, key, id)
}

/// The same by an id, in a bucket that is there.
fn find_upload_by_id<W: Swift>(
    state: &mut Settled<'_, W>,
    bucket: &BucketName,
    key: &Key,
    id: u128,
) -> Result<Found, PlanFault>
    ensures stays { Stays state.old state.new }
    ensures asks { Asks (always 1) (W.history state.old.store.now) (W.history state.new.store.now)
        (GivenOf (InBucket bucket.now)) (TellsOf (TellsUpload bucket.now key.now (id_digits id))) result }
    ensures by_text { IfOk result (IsFoundBy (id_digits id)) }
    ensures there { IfOk result (λ found. is_bucket_missing found ≡ false) }
{
    let record = get_record(state, bucket, id)?;
    Ok(found_in(&record, key, id))
}

/// What a record says of an upload of this key.
fn found_in(kept: &Option<Record>, key: &Key, id: u128) -> Found
    ensures { result ≡ found_by kept.now key.now id }
{
    let Some(Record::Open { key: under, .. }) = kept else {
        return Found::NoUpload;
    };
    if under.as_slice() == key.bytes() {
        Found::Open(id)
    } else {
        Found::NoUpload
    }
}
