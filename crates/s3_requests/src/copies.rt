//! Which rows copy, and what a request to copy asks for beside its bucket and its key.
ghost use Rattle.s3_machine.specs.Proper.{IsPlace};
ghost use Rattle.std.specs.Prelude.{◌≡◌, ◌&&◌, IfOk};
ghost use Rattle.request_fields.specs.Copies.{names_source, copy_source_text, asks_further, has_bad_directive, copied_range, source_at};
ghost use Rattle.s3_requests.specs.Copies.{copying, is_copy, has_unsupported_source, takes_range, has_bad_range, source_of, taken_source, has_body_of_copy, part_copy_asked};

use crate::rows::Row;
use gate_base::{Bytes, Memory, Pair};
use http_wire::has_header;
use request_fields::{
    Source, asks_further, copied_range, copy_source_place_named, copy_source_text,
    given_part_number, given_upload, has_bad_directive, names_source, source_at,
};
use s3_machine::{Conditions, CopiesOp, CopyRange, ObjectName, Op, PartCopy};
use s3_names::{BucketName, Key};
use std::alloc::Global;

/// The row of a request that would be of this one if it named no source.
pub fn copying(headers: &[Pair], row: Row) -> Row
    ensures { result ≡ copying (names_source headers.now) row }
{
    match (names_source(headers), row) {
        (true, Row::PutObject) => Row::CopyObject,
        (true, Row::UploadPart) => Row::UploadPartCopy,
        _ => row,
    }
}

fn is_copy(row: Row) -> bool
    ensures { result ≡ is_copy row }
{
    match row {
        Row::CopyObject | Row::UploadPartCopy => true,
        _ => false,
    }
}

/// Whether a source is named where nothing is copied, or more of a copy's source than is taken: a version of it, or a condition
/// on it that the profile doesn't have. The extended profile has four.
pub fn has_unsupported_source(
    alloc: Global,
    extended: bool,
    row: Row,
    headers: &[Pair],
) -> Result<bool, Memory>
    ensures { IfOk result
        (λ unsupported. unsupported ≡ has_unsupported_source extended row headers.now) }
{
    if is_copy(row) {
        asks_further(alloc, extended, headers)
    } else {
        Ok(names_source(headers))
    }
}

fn takes_range(row: Row) -> bool
    ensures { result ≡ takes_range row }
{
    match row {
        Row::UploadPartCopy => true,
        _ => false,
    }
}

fn has_bad_range(row: Row, headers: &[Pair], range: &Option<CopyRange>) -> bool
    requires { range.now ≡ copied_range headers.now }
    ensures { result ≡ has_bad_range row headers.now }
{
    has_header(headers, b"x-amz-copy-source-range") && (!takes_range(row) || range.is_none())
}

/// The source of a copy, where it can be read.
fn source_of(alloc: Global, row: Row, headers: &[Pair]) -> Result<Option<Source>, Memory>
    ensures { IfOk result (λ source. source ≡ source_of row headers.now) }
{
    if has_bad_directive(alloc, headers)? {
        return Ok(None);
    }
    let range = copied_range(alloc, headers)?;
    if has_bad_range(row, headers, &range) {
        return Ok(None);
    }
    let text = copy_source_text(alloc, headers)?;
    match copy_source_place_named(alloc, text.as_slice())? {
        None => Ok(None),
        Some((bucket, key)) => Ok(Some(source_at(alloc, headers, bucket, key, range)?)),
    }
}

/// The source of a row that copies, and none of any other row. `None` where the source or what is said of it can't be
/// read. It is read once.
pub fn taken_source(alloc: Global, row: Row, headers: &[Pair]) -> Result<Option<Source>, Memory>
    ensures { IfOk result (λ source. source ≡ taken_source row headers.now) }
{
    if is_copy(row) {
        return source_of(alloc, row, headers);
    }
    Ok(Some(Source {
        bucket: Bytes::new(alloc),
        key: Bytes::new(alloc),
        range: None,
        replaces: false,
        conditions: Conditions::none(),
    }))
}

/// Whether a copy has bytes of its own.
pub fn has_body_of_copy(row: Row, body: &[u8]) -> bool
    ensures { result ≡ has_body_of_copy row body.now }
{
    is_copy(row) && body.len() != 0
}

/// What UploadPartCopy asks for, of a bucket, a key and a query.
pub fn part_copy_asked(
    alloc: Global,
    name: ObjectName,
    query: &[Pair],
    source: Source,
) -> Result<Op, Memory>
    requires { IsPlace source.bucket source.key }
    ensures { IfOk result (λ op. op ≡ part_copy_asked name.bucket name.key query.now source) }
{
    let id = given_upload(alloc, query)?;
    Ok(Op::OnCopies(CopiesOp::CopyPart(PartCopy {
        bucket: name.bucket,
        key: name.key,
        id,
        number: given_part_number(query),
        from_bucket: BucketName::of(source.bucket),
        from_key: Key::of(source.key),
        range: source.range,
        conditions: source.conditions,
    })))
}
