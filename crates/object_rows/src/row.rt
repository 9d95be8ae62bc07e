//! An object as the columns of a row.
ghost use Rattle.std.specs.Prelude.{◌≡◌, ◌<◌, ◌&&◌, ℕ, List, [], Ok, IfOk, bytes_eq, nat_eq, nat_lt, sum_by};
ghost use Rattle.object_rows.specs.Pieces.{pieces_of};
ghost use Rattle.swift_calls.specs.Bodies.{etag_of, etag_text};
ghost use Rattle.object_rows.specs.Rows.{kind_of, body_of, has_columns, HasRow, IsRowContent, ReadsColumns, ReadsContent, ReadsList, ReadsRow, placed_row, row_of};
ghost use Rattle.object_rows.specs.declared.row.RowFault.TheVariants as faults;

use crate::pieces::{joined, pieces_of};
use gate_base::{Bytes, Copying, List, Memory};
use md5::{Digest, Md5};
use slo_manifest::{
    Form, ManifestFault, Segment, joined_etag, law_one_answer, law_text_reads_back, read, write,
};
use std::alloc::{AllocError, Global};
use swift_calls::{Content, Stored};

/// The kind of an object that has its own bytes.
const PLAIN: u64 = 0;

/// The kind of an object that lists segments.
const LIST: u64 = 1;

/// The kind of an object whose own bytes stand elsewhere: its row has their place for a body.
pub const PLACED: u64 = 2;

/// The sizes of segments have a sum below this.
const SIZE_LIMIT: u64 = 1 << 63;

/// Why a row is no object. `Unread`: it is none that `to_row` gives. `Memory`: memory ran out.
#[derive(Clone, Copy, Debug, PartialEq, Eq)]
pub enum RowFault {
    Unread,
    Memory,
}

impl From<Memory> for RowFault {
    ghost from_gives = { λ _ fault. fault ≡ faults.Memory };

    fn from(_: Memory) -> RowFault {
        RowFault::Memory
    }
}

impl From<AllocError> for RowFault {
    ghost from_gives = { λ _ fault. fault ≡ faults.Memory };

    fn from(_: AllocError) -> RowFault {
        RowFault::Memory
    }
}

/// What a row of the table of objects has beside its key.
#[derive(Drop)]
pub struct Row {
    pub kind: u64,
    pub content_type: Bytes,
    pub meta: Bytes,
    pub size: u64,
    pub hash: Bytes,
    pub body: Bytes,
}

/// The row of an object.
pub fn to_row(alloc: Global, object: &Stored) -> Result<Row, Memory>
    requires { HasRow object.now }
    ensures { IfOk result (λ row. row ≡ row_of object.now) }
{
    let etag = etag_of(alloc, &object.content)?;
    row_with_etag(alloc, object, etag)
}

/// The same where its ETag is known.
pub fn row_with_etag(alloc: Global, object: &Stored, etag: Bytes) -> Result<Row, Memory>
    requires row { HasRow object.now }
    requires etag { etag ≡ etag_of object.now.content }
    ensures { IfOk result (λ row. row ≡ row_of object.now) }
{
    Ok(Row {
        kind: kind_of(&object.content),
        content_type: object.content_type.copy()?,
        meta: joined(alloc, object.meta.as_slice())?,
        size: object.content.size(),
        hash: etag,
        body: body_of(alloc, &object.content)?,
    })
}

/// The row of an object whose ETag is known and whose own bytes stand at a place. No byte of the body is copied.
pub fn row_with_place(
    alloc: Global,
    object: &Stored,
    etag: Bytes,
    place: Bytes,
) -> Result<Row, Memory>
    requires row { HasRow object.now }
    requires etag { etag ≡ etag_of object.now.content }
    ensures { IfOk result (λ row. row ≡ placed_row place object.now) }
{
    Ok(Row {
        kind: PLACED,
        content_type: object.content_type.copy()?,
        meta: joined(alloc, object.meta.as_slice())?,
        size: object.content.size(),
        hash: etag,
        body: place,
    })
}

fn kind_of(content: &Content) -> u64
    ensures { result ≡ kind_of content.now }
{
    match content {
        Content::Plain(_) => PLAIN,
        Content::Segments(_) => LIST,
    }
}

#[tactic(auto, unfolding(swift_calls::specs::Bodies::etag_text))]
fn etag_of(alloc: Global, content: &Content) -> Result<Bytes, Memory>
    ensures { IfOk result (λ etag. etag ≡ etag_of content.now) }
{
    match content {
        Content::Plain(bytes) => etag_of_bytes(alloc, bytes.as_slice()),
        Content::Segments(segments) => joined_etag(alloc, segments.as_slice()),
    }
}

/// The MD5 (RFC 1321) of bytes in lower-case hexadecimal digits.
#[tactic(auto, unfolding(swift_calls::specs::Bodies::etag_text))]
fn etag_of_bytes(alloc: Global, bytes: &[u8]) -> Result<Bytes, Memory>
    ensures { IfOk result (λ etag. etag ≡ etag_text bytes.now) }
{
    let text = hex::encode(alloc, Md5::digest(bytes))?;
    Bytes::from_slice(alloc, text.as_bytes())
}

fn body_of(alloc: Global, content: &Content) -> Result<Bytes, Memory>
    requires { IsRowContent content.now }
    ensures { IfOk result (λ body. body ≡ body_of content.now) }
{
    match content {
        Content::Plain(bytes) => bytes.copy(),
        Content::Segments(segments) => write(alloc, segments.as_slice(), Form::Put),
    }
}

/// The object of a row. Unread exactly where the row is none that `to_row` gives for an object of that name.
pub fn from_row(alloc: Global, name: &[u8], row: &Row) -> Result<Stored, RowFault>
    ensures { ReadsRow name.now row.now result }
{
    let object = object_of_row(alloc, name, row)?;
    if has_hash(alloc, &object.content, row.hash.as_slice())? {
        Ok(object)
    } else {
        Err(RowFault::Unread)
    }
}

/// Whether this is the hash of the row.
fn has_hash(alloc: Global, content: &Content, hash: &[u8]) -> Result<bool, Memory>
    ensures { IfOk result (λ has. has ≡ bytes_eq (etag_of content.now) hash.now) }
{
    let etag = etag_of(alloc, content)?;
    Ok(etag.as_slice() == hash)
}

/// The same where the hash isn't looked at.
fn object_of_row(alloc: Global, name: &[u8], row: &Row) -> Result<Stored, RowFault>
    ensures { ReadsColumns name.now row.now result }
{
    let body = row.body.copy()?;
    let columns = Columns {
        kind: row.kind,
        content_type: row.content_type.as_slice(),
        meta: row.meta.as_slice(),
        size: row.size,
    };
    object_of_columns(alloc, name, &columns, body)
}

/// The columns of a row, but for the hash and the bytes of the content.
#[derive(Drop)]
pub struct Columns<'a> {
    pub kind: u64,
    pub content_type: &'a [u8],
    pub meta: &'a [u8],
    pub size: u64,
}

/// The same by the other columns. The body is taken: the bytes of a plain object are not copied.
pub fn object_of_columns(
    alloc: Global,
    name: &[u8],
    columns: &Columns<'_>,
    body: Bytes,
) -> Result<Stored, RowFault>
    ensures { ReadsColumns name.now (record {
      kind = columns.now.kind;
      content_type = columns.now.content_type.now;
      meta = columns.now.meta.now;
      size = columns.now.size;
      hash = [];
      body = body;
    }) result }
{
    let content = content_of(alloc, columns.kind, body)?;
    object_with_content(alloc, name, columns, content)
}

/// The same by what the body stands for.
fn object_with_content(
    alloc: Global,
    name: &[u8],
    columns: &Columns<'_>,
    content: Content,
) -> Result<Stored, RowFault>
    requires { IsRowContent content }
    ensures { (kind : ℕ) (body : List ℕ) → ReadsContent kind body (Ok content)
        → ReadsColumns name.now (record {
          kind = kind;
          content_type = columns.now.content_type.now;
          meta = columns.now.meta.now;
          size = columns.now.size;
          hash = [];
          body = body;
        }) result }
{
    let object = named_object(alloc, name, columns, content)?;
    if has_columns(alloc, &object, columns.meta, columns.size)? {
        Ok(object)
    } else {
        Err(RowFault::Unread)
    }
}

/// An object of this name, type and content, whose metadata has the pieces of a text.
fn named_object(
    alloc: Global,
    name: &[u8],
    columns: &Columns<'_>,
    content: Content,
) -> Result<Stored, Memory>
    ensures named { IfOk result (λ s. s.name ≡ name.now) }
    ensures typed { IfOk result (λ s. s.content_type ≡ columns.now.content_type.now) }
    ensures pieces { IfOk result (λ s. s.meta ≡ pieces_of columns.now.meta.now) }
    ensures content { IfOk result (λ s. s.content ≡ content) }
{
    Ok(Stored {
        name: Bytes::from_slice(alloc, name)?,
        content_type: Bytes::from_slice(alloc, columns.content_type)?,
        meta: pieces_of(alloc, columns.meta)?,
        content,
    })
}

/// Whether these are the metadata and the size of the object's row.
fn has_columns(alloc: Global, object: &Stored, meta: &[u8], size: u64) -> Result<bool, Memory>
    requires { HasRow object.now }
    ensures { IfOk result (λ has. has ≡ has_columns object.now meta.now size) }
{
    let text = joined(alloc, object.meta.as_slice())?;
    Ok(text.as_slice() == meta && object.content.size() == size)
}

/// What the body of a row stands for, if the row is one of an object.
#[tactic(auto, using(crate::proofs::RowLemmas::other_kind))]
fn content_of(alloc: Global, kind: u64, body: Bytes) -> Result<Content, RowFault>
    ensures { ReadsContent kind body result }
{
    if kind == PLAIN {
        plain(body)
    } else if kind == LIST {
        list(alloc, body.as_slice())
    } else {
        Err(RowFault::Unread)
    }
}

#[tactic(auto, using(crate::proofs::RowLemmas::plain_read, crate::proofs::RowLemmas::plain_unread))]
fn plain(body: Bytes) -> Result<Content, RowFault>
    ensures { ReadsContent PLAIN body result }
{
    if body.len() as u64 >= SIZE_LIMIT {
        return Err(RowFault::Unread);
    }
    Ok(Content::Plain(body))
}

#[tactic(auto, using(crate::proofs::RowLemmas::list_read, crate::proofs::RowLemmas::list_unread, crate::proofs::RowLemmas::no_list, crate::proofs::RowLemmas::too_large, crate::proofs::RowLemmas::other_text))]
fn list(alloc: Global, body: &[u8]) -> Result<Content, RowFault>
    ensures { ReadsContent LIST body.now result }
{
    let segments = listed(alloc, body)?;
    if segments.is_empty() {
        return Err(RowFault::Unread);
    }
    if !is_small(segments.as_slice()) {
        return Err(RowFault::Unread);
    }
    let text = write(alloc, segments.as_slice(), Form::Put)?;
    if text.as_slice() != body {
        return Err(RowFault::Unread);
    }
    Ok(Content::Segments(segments))
}

/// The segments that the body lists.
#[tactic(auto, using(crate::proofs::RowLemmas::segments_read, crate::proofs::RowLemmas::segments_unread))]
fn listed(alloc: Global, body: &[u8]) -> Result<List<Segment>, RowFault>
    ensures { ReadsList body.now result }
{
    law_one_answer();
    law_text_reads_back();
    match read(alloc, body, Form::Put) {
        Ok(segments) => Ok(segments),
        Err(ManifestFault::Memory) => Err(RowFault::Memory),
        Err(ManifestFault::NotAList) => Err(RowFault::Unread),
        Err(ManifestFault::TooManySegments) => Err(RowFault::Unread),
        Err(ManifestFault::BadEntry(_)) => Err(RowFault::Unread),
        Err(ManifestFault::EmptySegment(_)) => Err(RowFault::Unread),
    }
}

/// Whether the sizes have a sum below the limit.
fn is_small(segments: &[Segment]) -> bool
    ensures { result ≡ nat_lt (sum_by (λ s. s.size) segments.now) SIZE_LIMIT }
{
    let mut sum = 0u64;
    for segment in segments {
        sum = sum.saturating_add(segment.size);
    }
    sum < SIZE_LIMIT
}
