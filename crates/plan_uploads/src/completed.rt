//! The upload that a completion is of.
ghost use Rattle.std.specs.Prelude.{◌≡◌, false, IfOk};
ghost use Rattle.s3_names.specs.Id.{id_digits};
ghost use Rattle.upload_records.specs.Native.{IsSettled};
ghost use Rattle.account_calls.specs.Calls.{always, Asks, GivenOf};
ghost use Rattle.account_calls.specs.Lent.{Stays};
ghost use Rattle.account_calls.specs.Listing.{TellsOf};
ghost use Rattle.upload_calls.specs.Records.{InBucket};
ghost use Rattle.plan_uploads.specs.Completing.{StopsAtBucket, TellsToComplete, lacks_bucket, done_by, opened_by, to_complete_by};

use account_calls::{PlanFault, Settled, head_bucket};
use gate_base::Bytes;
use s3_machine::{Listed, UploadCompletion, same_list};
use s3_names::{Key, Meta};
use swift_calls::Swift;
use upload_calls::{get_record, read_upload_id_to_find};
use upload_texts::Record;

/// An upload that is open, as it was created: its id, what its object is to be put with, and when it was started, in seconds
/// since the beginning of 1970.
#[derive(Debug, Drop)]
pub(crate) struct Opened {
    pub(crate) id: u128,
    pub(crate) content_type: Bytes,
    pub(crate) meta: Meta,
    pub(crate) started: u64,
}

/// What is found of the upload that a completion is of.
#[derive(Debug, Drop)]
pub(crate) enum ToComplete {
    /// The bucket is missing.
    NoBucket,
    /// No upload of the key is open under the id, and the same completion isn't kept.
    NoUpload,
    /// The same completion was done before, with this ETag.
    Again(Bytes),
    /// One is open.
    Open(Opened),
}

/// Looks for the upload that a completion by a list of parts is of, by the text of its id: HEAD of the bucket's container, then
/// GET of the upload's record, where the text is that of an id. At most two calls, and the S3 state stays. The faults are those
/// of the calls.
pub(crate) fn find_upload_to_complete<W: Swift>(
    state: &mut Settled<'_, W>,
    done: &UploadCompletion,
) -> Result<ToComplete, PlanFault>
    ensures stays { Stays state.old state.new }
    ensures asks { Asks (always 2) (W.history state.old.store.now) (W.history state.new.store.now)
        IsSettled (TellsOf (TellsToComplete done.now.bucket done.now.key done.now.id done.now.list))
        result }
    ensures missing { StopsAtBucket (W.history state.old.store.now) (W.history state.new.store.now) result }
{
    done.bucket.fits();
    let Some(_) = head_bucket(state, &done.bucket)? else {
        return Ok(ToComplete::NoBucket);
    };
    let Some(id) = read_upload_id_to_find(done.id.as_slice()) else {
        return Ok(ToComplete::NoUpload);
    };
    find_recorded(state, done, id)
}

/// The same by an id, in a bucket that is there.
fn find_recorded<W: Swift>(
    state: &mut Settled<'_, W>,
    done: &UploadCompletion,
    id: u128,
) -> Result<ToComplete, PlanFault>
    ensures stays { Stays state.old state.new }
    ensures asks { Asks (always 1) (W.history state.old.store.now) (W.history state.new.store.now)
        (GivenOf (InBucket done.now.bucket))
        (TellsOf (TellsToComplete done.now.bucket done.now.key (id_digits id) done.now.list))
        result }
    ensures there { IfOk result (λ found. lacks_bucket found ≡ false) }
{
    let record = get_record(state, &done.bucket, id)?;
    Ok(to_complete(record, &done.key, id, done.list.get().as_slice()))
}

/// What a record says of a completion of this key by this list.
fn to_complete(found: Option<Record>, key: &Key, id: u128, list: &[Listed]) -> ToComplete
    ensures { result ≡ to_complete_by found key.now id list.now }
{
    match found {
        Some(
            Record::Open {
                key: under,
                content_type,
                meta,
                started,
            },
        ) => open_upload_to_complete(under, key, id, content_type, meta, started),
        Some(
            Record::Done {
                key: under,
                list: kept,
                etag,
                ..
            },
        ) => done_upload_to_complete(under, key, kept.as_slice(), list, etag),
        None => ToComplete::NoUpload,
    }
}

fn open_upload_to_complete(
    under: Bytes,
    key: &Key,
    id: u128,
    content_type: Bytes,
    meta: Meta,
    started: u64,
) -> ToComplete
    ensures { result ≡ opened_by under key.now id content_type meta started }
{
    if under.as_slice() != key.bytes() {
        return ToComplete::NoUpload;
    }
    ToComplete::Open(Opened {
        id,
        content_type,
        meta,
        started,
    })
}

fn done_upload_to_complete(
    under: Bytes,
    key: &Key,
    kept: &[Listed],
    list: &[Listed],
    etag: Bytes,
) -> ToComplete
    ensures { result ≡ done_by under key.now kept.now list.now etag }
{
    if under.as_slice() != key.bytes() || !same_list(kept, list) {
        return ToComplete::NoUpload;
    }
    ToComplete::Again(etag)
}
