//! The operation that a row asks for.
ghost use Rattle.std.specs.Prelude.{◌≡◌, ◌≤◌, [], false, true, length, None, IfOk};
ghost use Rattle.s3_machine.specs.Buckets.{all_buckets};
ghost use Rattle.s3_machine.specs.Body.{IsDigestOf};
ghost use Rattle.s3_names.specs.declared.target.Target.{Target};
ghost use Rattle.http_wire.specs.declared.message.Message.{Message};
ghost use Rattle.s3_requests.specs.Rows.{is_listing_of_bucket, is_plain_of_bucket, is_plain_of_key};
ghost use Rattle.s3_requests.specs.Meaning.{op_of, or_private, put_acl, IsLeft, KeepsFront};
ghost use Rattle.s3_requests.specs.declared.rows.Level.TheVariants as level;
ghost use Rattle.s3_machine.specs.Limits.{most_body_bytes};
ghost use Rattle.s3_machine.specs.Ops as ops;
ghost use Rattle.s3_machine.specs.Proper.{IsPlace, IsProperAsked, IsProperKeys, IsProperList};
ghost use Rattle.s3_machine.specs.declared.only_if.OnlyIf.TheVariants.{Always};
ghost use Rattle.request_fields.specs.Listings.{has_long_text};
ghost use Rattle.s3_requests.specs.Rows.{shape_of, takes_body, takes_given};
ghost use Rattle.request_fields.specs.Headers.{given_acl};
ghost use Rattle.request_fields.specs.Conditions.{given_conditions};
ghost use Rattle.request_fields.specs.Ranges.{given_range};
ghost use Rattle.request_fields.specs.Listings.{first_asked, second_asked};
ghost use Rattle.request_fields.specs.Uploads.{given_upload, given_part_number};
ghost use Rattle.s3_requests.specs.Copies.{is_copy, part_copy_asked};
ghost use Rattle.s3_requests.specs.Taken.{given, copy_asked};
ghost use Rattle.s3_requests.specs.Deletes.{deletes_asked, given_deletes};
ghost use Rattle.s3_requests.specs.Uploads.{given_list, uploads_asked, parts_asked};

use crate::copies::part_copy_asked;
use crate::deletes::deletes_asked;
use crate::meant::{Asking, Meant};
use crate::named::Named;
use crate::rows::Row;
use crate::taken::{Taken, copy_asked};
use crate::uploads::{parts_asked, uploads_asked};
use gate_base::{Bytes, Copying, List, Memory, Pair, drop};
use http_wire::Message;
use request_fields::{
    Source, first_asked, given_conditions, given_part_number, given_range, given_upload,
    second_asked,
};
use s3_bodies::Deletes;
use s3_machine::{
    Asked, Body, BucketAcl, BucketListing, Code, Content, Listed, ObjectDeletion, ObjectListing,
    ObjectName, ObjectPut, ObjectRead, ObjectsOp, OnlyIf, Op, PartPut, Proper, UploadCompletion,
    UploadName, UploadStart, UploadsOp,
};
use s3_names::{Acl, BucketName};
use std::alloc::Global;
use std::mem;

/// What the body of a request gives: the parts and the keys that it lists, and its MD5 where that is known.
#[derive(Drop)]
pub(crate) struct BodyGiven {
    pub(crate) list: List<Listed>,
    pub(crate) deletes: Deletes,
    pub(crate) digest: Option<[u8; 16]>,
}

/// The operation of a row, with what the headers give it, and the parts and the keys that the body lists.
pub(crate) fn op_of(
    alloc: Global,
    asking: &Asking<'_>,
    message: &mut Message,
    taken: Taken,
    body: BodyGiven,
) -> Result<Meant, Memory>
    requires left { IsLeft asking.now message.now [] }
    requires taken { taken ≡ given asking.now.row message.now.headers }
    requires list { body.list ≡ given_list asking.now.row message.now.body }
    requires deletes { body.deletes ≡ given_deletes asking.now.row message.now.body }
    requires digest { IsDigestOf body.digest message.now.body }
    ensures value { IfOk result (λ meant. meant ≡ op_of asking.now.row message.entry.now
        asking.now.target.now) }
    ensures keeps { KeepsFront message.entry.now message.exit.now }
{
    match asking.named {
        Named::Service => {
            drop(taken);
            drop(body);
            Ok(objects_op(ObjectsOp::ListBuckets(every_bucket(alloc))))
        }
        Named::Bucket(bucket) => op_of_named_bucket(alloc, asking, bucket, taken, body),
        Named::Object(name) => op_of_named_key(alloc, asking, message, name, taken, body),
    }
}

/// All buckets in one page.
#[tactic(auto, unfolding(s3_machine::specs::Limits::is_listing_text))]
fn every_bucket(alloc: Global) -> Proper<BucketListing>
    ensures { result ≡ all_buckets }
{
    Proper::of(BucketListing::all(alloc))
}

/// One on buckets and objects.
fn objects_op(op: ObjectsOp) -> Meant
    ensures { result ≡ Meant.Op (Op.OnObjects op) }
{
    Meant::Op(Op::OnObjects(op))
}

/// One on uploads in parts.
fn uploads_op(op: UploadsOp) -> Meant
    ensures { result ≡ Meant.Op (Op.OnUploads op) }
{
    Meant::Op(Op::OnUploads(op))
}

fn copy_of_name(name: &ObjectName) -> Result<ObjectName, Memory>
    ensures { IfOk result (λ copied. copied ≡ name.now) }
{
    let bucket = name.bucket.copy()?;
    let key = name.key.copy()?;
    Ok(ObjectName { bucket, key })
}

/// The operation of a row on the bucket of this name.
fn op_of_named_bucket(
    alloc: Global,
    asking: &Asking<'_>,
    bucket: &BucketName,
    taken: Taken,
    body: BodyGiven,
) -> Result<Meant, Memory>
    requires level { (shape_of asking.now.row).level ≡ level.Bucket }
    requires texts { is_listing_of_bucket asking.now.row ≡ true
        → has_long_text asking.now.target.now.query ≡ false }
    requires keys { asking.now.row ≡ Row.DeleteObjects → IsProperKeys body.deletes.keys }
    ensures { (message : Message) (target : Target) → target.bucket ≡ bucket.now
        → target.query ≡ asking.now.target.now.query
        → taken ≡ given asking.now.row message.headers → body.deletes ≡ given_deletes asking.now.row
        message.body
        → IfOk result (λ meant. meant ≡ op_of asking.now.row message target) }
{
    let bucket = bucket.copy()?;
    op_of_bucket(alloc, asking, bucket, taken, body)
}

/// The operation of a row on the object of this name.
fn op_of_named_key(
    alloc: Global,
    asking: &Asking<'_>,
    message: &mut Message,
    name: &ObjectName,
    taken: Taken,
    body: BodyGiven,
) -> Result<Meant, Memory>
    requires level { (shape_of asking.now.row).level ≡ level.Key }
    requires left { IsLeft asking.now message.now [] }
    requires bucket { name.now.bucket ≡ asking.now.target.now.bucket }
    requires key { name.now.key ≡ asking.now.target.now.key }
    requires taken { taken ≡ given asking.now.row message.now.headers }
    requires list { body.list ≡ given_list asking.now.row message.now.body }
    requires digest { IsDigestOf body.digest message.now.body }
    ensures value { IfOk result (λ meant. meant ≡ op_of asking.now.row message.entry.now
        asking.now.target.now) }
    ensures keeps { KeepsFront message.entry.now message.exit.now }
{
    let name = copy_of_name(name)?;
    op_of_key(alloc, asking, message, name, taken, body)
}

/// The operation of a row on a bucket.
fn op_of_bucket(
    alloc: Global,
    asking: &Asking<'_>,
    bucket: BucketName,
    taken: Taken,
    body: BodyGiven,
) -> Result<Meant, Memory>
    requires level { (shape_of asking.now.row).level ≡ level.Bucket }
    requires texts { is_listing_of_bucket asking.now.row ≡ true
        → has_long_text asking.now.target.now.query ≡ false }
    requires keys { asking.now.row ≡ Row.DeleteObjects → IsProperKeys body.deletes.keys }
    ensures { (message : Message) (target : Target) → target.bucket ≡ bucket
        → target.query ≡ asking.now.target.now.query
        → taken ≡ given asking.now.row message.headers → body.deletes ≡ given_deletes asking.now.row
        message.body
        → IfOk result (λ meant. meant ≡ op_of asking.now.row message target) }
{
    match asking.row {
        Row::ListObjects | Row::ListObjectsV2 | Row::ListMultipartUploads => {
            op_of_listing(alloc, asking.row, asking.target.query.pairs(), bucket)
        }
        Row::DeleteObjects => Ok(Meant::Op(deletes_asked(bucket, body.deletes))),
        _ => Ok(plain_op_of_bucket(asking.row, bucket, taken.acl)),
    }
}

/// The same of a row that takes nothing of a query or a body.
fn plain_op_of_bucket(row: Row, bucket: BucketName, acl: Option<Acl>) -> Meant
    requires level { (shape_of row).level ≡ level.Bucket }
    requires plain { is_plain_of_bucket row ≡ true }
    ensures { (message : Message) (target : Target) → target.bucket ≡ bucket
        → acl ≡ given_acl message.headers
        → result ≡ op_of row message target }
{
    match row {
        Row::CreateBucket => objects_op(ObjectsOp::CreateBucket(BucketAcl {
            bucket,
            acl: or_private(acl),
        })),
        Row::PutBucketAcl => put_bucket_acl(bucket, acl),
        Row::DeleteBucket => objects_op(ObjectsOp::DeleteBucket(bucket)),
        Row::HeadBucket => objects_op(ObjectsOp::HeadBucket(bucket)),
        Row::GetBucketLocation => objects_op(ObjectsOp::GetLocation(bucket)),
        Row::GetBucketAcl => objects_op(ObjectsOp::GetBucketAcl(bucket)),
        _ => unreachable!(),
    }
}

fn or_private(acl: Option<Acl>) -> Acl
    ensures { result ≡ or_private acl }
{
    match acl {
        Some(acl) => acl,
        None => Acl::Private,
    }
}

fn put_bucket_acl(bucket: BucketName, acl: Option<Acl>) -> Meant
    ensures { result ≡ put_acl bucket acl }
{
    match acl {
        Some(acl) => objects_op(ObjectsOp::PutBucketAcl(BucketAcl { bucket, acl })),
        None => Meant::refused(Code::NotImplemented),
    }
}

/// The same of a row that lists what a bucket has.
fn op_of_listing(
    alloc: Global,
    row: Row,
    query: &[Pair],
    bucket: BucketName,
) -> Result<Meant, Memory>
    requires lists { is_listing_of_bucket row ≡ true }
    requires texts { has_long_text query.now ≡ false }
    ensures { (message : Message) (target : Target) → target.bucket ≡ bucket
        → target.query ≡ query.now
        → IfOk result (λ meant. meant ≡ op_of row message target) }
{
    match row {
        Row::ListObjects => Ok(list_objects(bucket, first_asked(alloc, query)?)),
        Row::ListObjectsV2 => Ok(list_objects(bucket, second_asked(alloc, query)?)),
        Row::ListMultipartUploads => Ok(Meant::Op(uploads_asked(alloc, bucket, query)?)),
        _ => unreachable!(),
    }
}

fn list_objects(bucket: BucketName, asked: Asked) -> Meant
    requires { IsProperAsked asked }
    ensures { result ≡ Meant.Op (ops.ListObjects bucket asked) }
{
    objects_op(ObjectsOp::ListObjects(ObjectListing {
        bucket,
        asked: Proper::of(asked),
    }))
}

/// The operation of a row on an object.
fn op_of_key(
    alloc: Global,
    asking: &Asking<'_>,
    message: &mut Message,
    name: ObjectName,
    taken: Taken,
    body: BodyGiven,
) -> Result<Meant, Memory>
    requires level { (shape_of asking.now.row).level ≡ level.Key }
    requires left { IsLeft asking.now message.now [] }
    requires bucket { name.bucket ≡ asking.now.target.now.bucket }
    requires key { name.key ≡ asking.now.target.now.key }
    requires taken { taken ≡ given asking.now.row message.now.headers }
    requires list { body.list ≡ given_list asking.now.row message.now.body }
    requires digest { IsDigestOf body.digest message.now.body }
    ensures value { IfOk result (λ meant. meant ≡ op_of asking.now.row message.entry.now
        asking.now.target.now) }
    ensures keeps { KeepsFront message.entry.now message.exit.now }
{
    match asking.row {
        Row::PutObject => Ok(put_object(alloc, message, name, taken, body.digest)),
        Row::UploadPart => upload_part(
            alloc,
            asking.target.query.pairs(),
            message,
            name,
            body.digest,
        ),
        _ => op_of_key_alone(alloc, asking, message, name, taken, body.list),
    }
}

fn put_object(
    alloc: Global,
    message: &mut Message,
    name: ObjectName,
    taken: Taken,
    digest: Option<[u8; 16]>,
) -> Meant
    requires digest { IsDigestOf digest message.now.body }
    requires sized { length message.now.body ≤ most_body_bytes }
    ensures value { result ≡ Meant.Op (ops.PutObject name.bucket name.key taken.acl
        taken.described.content_type taken.described.meta message.entry.now.body Always None) }
    ensures keeps { KeepsFront message.entry.now message.exit.now }
{
    let described = taken.described.into_value();
    let body = Body::with(mem::replace(&mut message.body, Bytes::new(alloc)), digest);
    objects_op(ObjectsOp::PutObject(ObjectPut {
        bucket: name.bucket,
        key: name.key,
        acl: taken.acl,
        content: Proper::of(Content {
            content_type: described.content_type,
            meta: described.meta,
            body,
        }),
        only_if: OnlyIf::Always,
        checksum: None,
    }))
}

fn upload_part(
    alloc: Global,
    query: &[Pair],
    message: &mut Message,
    name: ObjectName,
    digest: Option<[u8; 16]>,
) -> Result<Meant, Memory>
    requires digest { IsDigestOf digest message.now.body }
    requires sized { length message.now.body ≤ most_body_bytes }
    ensures value { IfOk result (λ meant. meant ≡ Meant.Op (ops.UploadPart name.bucket
        name.key (given_upload query.now) (given_part_number query.now) message.entry.now.body
        None)) }
    ensures keeps { KeepsFront message.entry.now message.exit.now }
{
    let id = given_upload(alloc, query)?;
    let body = Body::with(mem::replace(&mut message.body, Bytes::new(alloc)), digest);
    Ok(uploads_op(UploadsOp::UploadPart(PartPut {
        bucket: name.bucket,
        key: name.key,
        id,
        number: given_part_number(query),
        body: Proper::of(body),
        checksum: None,
    })))
}

/// The same of a row that leaves the bytes of the body in the message.
fn op_of_key_alone(
    alloc: Global,
    asking: &Asking<'_>,
    message: &Message,
    name: ObjectName,
    taken: Taken,
    list: List<Listed>,
) -> Result<Meant, Memory>
    requires level { (shape_of asking.now.row).level ≡ level.Key }
    requires row { takes_body asking.now.row ≡ false }
    requires left { IsLeft asking.now message.now [] }
    requires bucket { name.bucket ≡ asking.now.target.now.bucket }
    requires key { name.key ≡ asking.now.target.now.key }
    requires taken { taken ≡ given asking.now.row message.now.headers }
    requires list { list ≡ given_list asking.now.row message.now.body }
    ensures { IfOk result (λ meant. meant ≡ op_of asking.now.row message.now
        asking.now.target.now) }
{
    if takes_given(asking.row) {
        drop(list);
        let query = asking.target.query.pairs();
        op_of_key_given(alloc, asking.row, query, name, taken)
    } else {
        drop(taken);
        op_of_key_asked(alloc, asking, message, name, list)
    }
}

/// Whether the operation of a row takes what the headers give as one value.
fn takes_given(row: Row) -> bool
    ensures { result ≡ takes_given row }
{
    match row {
        Row::PutObject | Row::CreateMultipartUpload | Row::CopyObject | Row::UploadPartCopy => true,
        _ => false,
    }
}

/// The same of a row that takes what the headers give.
fn op_of_key_given(
    alloc: Global,
    row: Row,
    query: &[Pair],
    name: ObjectName,
    taken: Taken,
) -> Result<Meant, Memory>
    requires row { takes_body row ≡ false }
    requires given { takes_given row ≡ true }
    requires place { is_copy row ≡ true → IsPlace taken.source.bucket taken.source.key }
    ensures { (message : Message) (target : Target) → target.bucket ≡ name.bucket
        → target.key ≡ name.key → target.query ≡ query.now
        → taken ≡ given row message.headers
        → IfOk result (λ meant. meant ≡ op_of row message target) }
{
    match row {
        Row::CreateMultipartUpload => Ok(create_upload(name, taken)),
        Row::CopyObject => Ok(Meant::Op(copy_asked(name, taken))),
        Row::UploadPartCopy => copy_part(alloc, query, name, taken.source),
        _ => unreachable!(),
    }
}

fn copy_part(
    alloc: Global,
    query: &[Pair],
    name: ObjectName,
    source: Source,
) -> Result<Meant, Memory>
    requires { IsPlace source.bucket source.key }
    ensures { IfOk result
        (λ meant. meant ≡ Meant.Op (part_copy_asked name.bucket name.key query.now source)) }
{
    Ok(Meant::Op(part_copy_asked(alloc, name, query, source)?))
}

/// The same of a row that takes nothing of what the headers give but a range and conditions.
fn op_of_key_asked(
    alloc: Global,
    asking: &Asking<'_>,
    message: &Message,
    name: ObjectName,
    list: List<Listed>,
) -> Result<Meant, Memory>
    requires level { (shape_of asking.now.row).level ≡ level.Key }
    requires row { takes_body asking.now.row ≡ false }
    requires given { takes_given asking.now.row ≡ false }
    requires left { IsLeft asking.now message.now [] }
    requires bucket { name.bucket ≡ asking.now.target.now.bucket }
    requires key { name.key ≡ asking.now.target.now.key }
    requires list { list ≡ given_list asking.now.row message.now.body }
    ensures { IfOk result (λ meant. meant ≡ op_of asking.now.row message.now
        asking.now.target.now) }
{
    let query = asking.target.query.pairs();
    match asking.row {
        Row::CompleteMultipartUpload => complete_upload(alloc, query, name, list),
        Row::ListParts => list_parts(alloc, query, name),
        Row::AbortMultipartUpload => abort_upload(alloc, query, name),
        _ => plain_op_of_key(alloc, asking.row, message.headers.as_slice(), name),
    }
}

fn list_parts(alloc: Global, query: &[Pair], name: ObjectName) -> Result<Meant, Memory>
    ensures { IfOk result
        (λ meant. meant ≡ Meant.Op (parts_asked name.bucket name.key query.now)) }
{
    Ok(Meant::Op(parts_asked(alloc, name, query)?))
}

fn create_upload(name: ObjectName, taken: Taken) -> Meant
    ensures { result ≡ Meant.Op (ops.CreateUpload name.bucket name.key taken.acl
        taken.described.content_type taken.described.meta) }
{
    uploads_op(UploadsOp::CreateUpload(UploadStart {
        bucket: name.bucket,
        key: name.key,
        acl: taken.acl,
        described: taken.described,
    }))
}

fn complete_upload(
    alloc: Global,
    query: &[Pair],
    name: ObjectName,
    list: List<Listed>,
) -> Result<Meant, Memory>
    requires { IsProperList list }
    ensures { IfOk result (λ meant. meant ≡ Meant.Op
        (ops.CompleteUpload name.bucket name.key (given_upload query.now) list Always)) }
{
    let id = given_upload(alloc, query)?;
    Ok(uploads_op(UploadsOp::CompleteUpload(UploadCompletion {
        bucket: name.bucket,
        key: name.key,
        id,
        list: Proper::of(list),
        only_if: OnlyIf::Always,
    })))
}

fn abort_upload(alloc: Global, query: &[Pair], name: ObjectName) -> Result<Meant, Memory>
    ensures { IfOk result (λ meant. meant ≡ Meant.Op
        (ops.AbortUpload name.bucket name.key (given_upload query.now))) }
{
    let id = given_upload(alloc, query)?;
    Ok(uploads_op(UploadsOp::AbortUpload(UploadName {
        bucket: name.bucket,
        key: name.key,
        id,
    })))
}

/// The same of a row that takes nothing of the query or the body.
fn plain_op_of_key(
    alloc: Global,
    row: Row,
    headers: &[Pair],
    name: ObjectName,
) -> Result<Meant, Memory>
    requires { is_plain_of_key row ≡ true }
    ensures { (message : Message) (target : Target) → target.bucket ≡ name.bucket
        → target.key ≡ name.key
        → message.headers ≡ headers.now → IfOk result (λ meant. meant ≡ op_of row message target) }
{
    match row {
        Row::GetObject => Ok(Meant::Op(Op::GetObject(read_of(alloc, headers, name)?))),
        Row::HeadObject => Ok(objects_op(ObjectsOp::HeadObject(read_of(alloc, headers, name)?))),
        Row::DeleteObject => Ok(objects_op(ObjectsOp::DeleteObject(ObjectDeletion {
            bucket: name.bucket,
            key: name.key,
            only_if: OnlyIf::Always,
        }))),
        Row::GetObjectAcl => Ok(objects_op(ObjectsOp::GetObjectAcl(name))),
        _ => unreachable!(),
    }
}

/// What the headers ask of an object that is read.
fn read_of(alloc: Global, headers: &[Pair], name: ObjectName) -> Result<ObjectRead, Memory>
    ensures { IfOk result (λ read. read ≡ record {
      bucket = name.bucket;
      key = name.key;
      range = given_range headers.now;
      conditions = given_conditions headers.now;
      part = None;
      shown = [];
    }) }
{
    let range = given_range(alloc, headers)?;
    let conditions = given_conditions(alloc, headers)?;
    Ok(ObjectRead {
        bucket: name.bucket,
        key: name.key,
        range,
        conditions,
        part: None,
        shown: List::new(alloc),
    })
}
