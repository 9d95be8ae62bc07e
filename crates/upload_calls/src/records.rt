//! The calls on the record of an upload, one function a call.
ghost use Rattle.std.specs.Prelude.{◌≡◌, ◌≢◌, ◌≤◌, length, Err, IfOk, Some};
ghost use Rattle.s3_names.specs.Id.{id_digits};
ghost use Rattle.swift_calls.specs.History.{present};
ghost use Rattle.swift_calls.specs.Step.{Fit};
ghost use Rattle.upload_texts.specs.Records.{read_record};
ghost use Rattle.upload_texts.specs.declared.record.Record.TheVariants.{Open};
ghost use Rattle.account_calls.specs.Calls.{always, Asks, Becomes, Changes, ChangesTo, GivenOf};
ghost use Rattle.account_calls.specs.Interpret.{Gives, known};
ghost use Rattle.account_calls.specs.Lent.{Stays};
ghost use Rattle.account_calls.specs.Puts.{Ensures};
ghost use Rattle.account_calls.specs.Listing.{TellsOf};
ghost use Rattle.account_calls.specs.declared.fault.PlanFault.TheVariants as fault;
ghost use Rattle.upload_calls.specs.Interpret.{most_open_text, put_record_of, record_due};
ghost use Rattle.upload_calls.specs.Records.{HasOpen, InBucket, MayClear, MayOpen, StandsOpen, TellsRecord, drops_upload, opens_upload};

use account_calls::{PlanFault, Settled, interpret_file_delete, interpret_put_with_etag};
use gate_base::{Bytes, List, Memory};
use s3_machine::{Described, Label, Proper, UploadStart, body_etag};
use s3_names::{BucketName, Key, id_digits};
use std::alloc::Global;
use swift_calls::{FilePut, Swift, SwiftReply, SwiftRequest, drop_reply};
use upload_records::{
    law_upload_abandoned, law_upload_dropped, law_upload_opened, uploads_container,
};
use upload_texts::{Record, RecordFault};

/// The record of an upload, and `None` where it has none, by GET of its file (Object Storage API v1, "Get object content and
/// metadata"). At most one call, and the S3 state stays. Failed comes only where the store's count of faults rose; Memory where
/// memory ran out; Inconsistent never over an observable consistent account on which the bucket is there.
pub fn get_record<W: Swift>(
    state: &mut Settled<'_, W>,
    bucket: &BucketName,
    id: u128,
) -> Result<Option<Record>, PlanFault>
    ensures stays { Stays state.old state.new }
    ensures asks { Asks (always 1) (W.history state.old.store.now) (W.history state.new.store.now)
        (GivenOf (InBucket bucket.now)) (TellsOf (TellsRecord bucket.now id)) result }
{
    let alloc = state.alloc;
    let container = uploads_container(alloc, bucket.bytes())?;
    let name = Bytes::from_slice(alloc, &id_digits(id))?;
    let reply = state.call(SwiftRequest::GetObject {
        container,
        name,
        range: None,
    })?;
    record_in(alloc, &reply)
}

/// The answer to GET of a record's file.
fn record_in(alloc: Global, reply: &SwiftReply) -> Result<Option<Record>, PlanFault>
    ensures due { Gives result (record_due reply.now) }
    ensures own { result ≢ Err fault.Failed }
{
    match reply {
        SwiftReply::Bytes { body, .. } => record_in_fetched_file(alloc, body.as_slice()),
        SwiftReply::NotFound => Ok(None),
        _ => Err(PlanFault::Inconsistent),
    }
}

/// The record that the bytes of a file are.
fn record_in_fetched_file(alloc: Global, text: &[u8]) -> Result<Option<Record>, PlanFault>
    ensures due { Gives result (known (read_record text.now)) }
    ensures own { result ≢ Err fault.Failed }
{
    match Record::read(alloc, text) {
        Ok(record) => Ok(Some(record)),
        Err(RecordFault::Memory) => Err(PlanFault::Memory),
        Err(RecordFault::NotARecord) => Err(PlanFault::Inconsistent),
        Err(RecordFault::Version(_)) => Err(PlanFault::Inconsistent),
    }
}

/// Opens an upload under an id under which nothing stands, by PUT of its record (Object Storage API v1, "Create or replace
/// object"): the one call that commits. At most one call. It is started at the moment of the label. After Ok the S3 state has the
/// upload, without parts, and over every observable store, consistent or not, its record's file stands. After Failed, which comes
/// only where the store's count of faults rose, and after Memory the state is the old one or that. Inconsistent never comes over an
/// observable consistent account of which this is so.
pub fn put_record<W: Swift>(
    state: &mut Settled<'_, W>,
    start: UploadStart,
    id: u128,
    label: &Label,
) -> Result<(), PlanFault>
    ensures stays { Stays state.old state.new }
    ensures changes { Changes (always 1) (W.history state.old.store.now) (W.history state.new.store.now)
        (GivenOf (MayOpen start.bucket id))
        (Becomes (opens_upload start.bucket id start.key start.described.content_type
        start.described.meta label.now.moment)) result }
    ensures stands { Ensures (W.history state.new.store.now)
        (StandsOpen start.bucket id start.key start.described.content_type start.described.meta
        label.now.moment) result }
{
    let alloc = state.alloc;
    start.bucket.fits();
    law_upload_opened();
    let text = text_for_put_record(alloc, start.key, start.described, label)?;
    let etag = body_etag(text.as_slice());
    let request = request_for_put_record(alloc, &start.bucket, id, text)?;
    let reply = state.call(request)?;
    let end = interpret_put_with_etag(&reply, &etag);
    drop_reply(reply);
    end
}

/// The text of the record of an upload that is open.
fn text_for_put_record(
    alloc: Global,
    key: Key,
    described: Proper<Described>,
    label: &Label,
) -> Result<Bytes, Memory>
    ensures reads { IfOk result
        (λ text. read_record text ≡ Some (Open key described.content_type described.meta
        label.now.moment)) }
    ensures short { IfOk result (λ text. length text ≤ most_open_text) }
{
    let described = described.into_value();
    let _ordered = described.meta.pairs();
    let record = Record::Open {
        key: key.into_text(),
        content_type: described.content_type,
        meta: described.meta,
        started: label.moment,
    };
    record.write(alloc)
}

/// The PUT of a record of this text.
fn request_for_put_record(
    alloc: Global,
    bucket: &BucketName,
    id: u128,
    text: Bytes,
) -> Result<SwiftRequest, Memory>
    requires short { length text ≤ most_open_text }
    ensures request { IfOk result (λ request. request ≡ put_record_of bucket.now id text) }
    ensures fits { IfOk result Fit }
{
    let container = uploads_container(alloc, bucket.bytes())?;
    let name = Bytes::from_slice(alloc, &id_digits(id))?;
    let content_type = Bytes::from_slice(alloc, b"application/json")?;
    Ok(SwiftRequest::PutObject(FilePut {
        container,
        name,
        content_type,
        meta: List::new(alloc),
        body: text,
        fresh: false,
    }))
}

/// Drops an open upload, by DELETE of its record (Object Storage API v1, "Delete object"): the call that commits. At most one
/// call. After Ok the S3 state lacks the upload, and its segments may be deleted. The faults are those of [`put_record`].
pub fn drop_record<W: Swift>(
    state: &mut Settled<'_, W>,
    bucket: &BucketName,
    id: u128,
) -> Result<(), PlanFault>
    ensures stays { Stays state.old state.new }
    ensures drops { ChangesTo (always 1) (W.history state.old.store.now) (W.history state.new.store.now)
        (GivenOf (HasOpen bucket.now id)) (Becomes (drops_upload bucket.now id))
        (MayClear bucket.now id (present (W.history state.old.store.now))) result }
{
    let alloc = state.alloc;
    law_upload_dropped();
    law_upload_abandoned();
    let container = uploads_container(alloc, bucket.bytes())?;
    let name = Bytes::from_slice(alloc, &id_digits(id))?;
    let reply = state.call(SwiftRequest::DeleteObject { container, name })?;
    interpret_file_delete(&reply)
}
