//! What the operations on uploads in parts ask for beside a bucket and a key, and the parts that a completion lists.
ghost use Rattle.request_fields.specs.Listings.{has_long_text};
ghost use Rattle.std.specs.Prelude.{◌≡◌, false, IfOk};
ghost use Rattle.s3_bodies.specs.Listed.{listed_in};
ghost use Rattle.s3_requests.specs.Uploads.{uploads_asked, parts_asked, taken_listed_parts};

use crate::rows::Row;
use gate_base::{List, Memory, Pair};
use request_fields::{copy_of_query_value, given_part_marker, given_upload, is_asked, most_by};
use s3_bodies::{BodyFault, read_completion};
use s3_machine::{
    Listed, ObjectName, Op, PartListing, PartsAsked, Proper, UploadListing, UploadsAsked, UploadsOp,
};
use s3_names::BucketName;
use std::alloc::Global;

/// What the body lists of a row that completes an upload, and no part for any other row. `None` where it is no
/// completion, or lists too many parts. The body is read once.
pub fn taken_listed_parts(
    alloc: Global,
    row: Row,
    body: &[u8],
) -> Result<Option<List<Listed>>, Memory>
    ensures { IfOk result (λ list. list ≡ taken_listed_parts row body.now) }
{
    match row {
        Row::CompleteMultipartUpload => taken_listed_parts_in(alloc, body),
        _ => Ok(Some(List::new(alloc))),
    }
}

fn taken_listed_parts_in(alloc: Global, body: &[u8]) -> Result<Option<List<Listed>>, Memory>
    ensures { IfOk result (λ list. list ≡ listed_in body.now) }
{
    match read_completion(alloc, body) {
        Ok(list) => Ok(Some(list)),
        Err(BodyFault::NotTheBody(_) | BodyFault::TooMany) => Ok(None),
        Err(BodyFault::Memory) => Err(Memory),
    }
}

/// What ListMultipartUploads asks for, of a bucket.
pub fn uploads_asked(alloc: Global, bucket: BucketName, query: &[Pair]) -> Result<Op, Memory>
    requires { has_long_text query.now ≡ false }
    ensures { IfOk result (λ op. op ≡ uploads_asked bucket query.now) }
{
    let prefix = copy_of_query_value(alloc, query, b"prefix")?;
    let key_marker = copy_of_query_value(alloc, query, b"key-marker")?;
    let id_marker = copy_of_query_value(alloc, query, b"upload-id-marker")?;
    let asked = Proper::of(UploadsAsked {
        prefix,
        key_marker,
        id_marker,
        max: most_by(query, b"max-uploads"),
        url: is_asked(query, b"encoding-type"),
    });
    Ok(Op::OnUploads(UploadsOp::ListUploads(UploadListing { bucket, asked })))
}

/// What ListParts asks for, of a bucket and a key.
pub fn parts_asked(alloc: Global, name: ObjectName, query: &[Pair]) -> Result<Op, Memory>
    ensures { IfOk result (λ op. op ≡ parts_asked name.bucket name.key query.now) }
{
    let id = given_upload(alloc, query)?;
    let asked = Proper::of(PartsAsked {
        marker: given_part_marker(query),
        max: most_by(query, b"max-parts"),
    });
    Ok(Op::OnUploads(UploadsOp::ListParts(PartListing {
        bucket: name.bucket,
        key: name.key,
        id,
        asked,
    })))
}
