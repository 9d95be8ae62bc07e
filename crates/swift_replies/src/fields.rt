//! The values of header fields, each as it is read.
ghost use Rattle.std.specs.Prelude.{◌≡◌, ◌++◌, ◌∷◌, [], not, Some, None, if◌then◌else◌, option_map, IfOk, OnOk};
ghost use Rattle.std.specs.Option.{option_copied};
ghost use Rattle.http_answers.specs.Fields.{field};
ghost use Rattle.http_wire.specs.Headers.{has_header};
ghost use Rattle.swift_replies.specs.Fields.{container_readers_by_value, moment_in, container_created_in, meta_name, meta_in};

use gate_base::{Bytes, List, MOMENT_LIMIT, Memory, Pair};
use http_answers::{field, plain_number};
use http_wire::has_header;
use std::alloc::Global;
use swift_calls::ReadList;
use text_forms::append_decimal;

/// The most pieces of metadata.
const MOST_PIECES: u64 = 11;

/// The read list that a value of `X-Container-Read` writes.
pub fn container_readers_by_value(value: &[u8]) -> Option<ReadList>
    ensures { result ≡ container_readers_by_value value.now }
{
    if value == b"".as_slice() {
        return Some(ReadList::Nobody);
    }
    if value == b".r:*,.rlistings".as_slice() {
        Some(ReadList::Everybody)
    } else {
        None
    }
}

/// A moment up to the end of the year 9999, in seconds.
pub(crate) fn moment_in(value: &[u8]) -> Option<u64>
    ensures { result ≡ moment_in value.now }
{
    match plain_number(value) {
        Some(moment) if moment < MOMENT_LIMIT => Some(moment),
        _ => None,
    }
}

/// The creation time of a container, where the header may be absent.
pub fn container_created_in(headers: &[Pair]) -> Option<Option<u64>>
    ensures { result ≡ container_created_in headers.now }
{
    match field(headers, b"x-container-meta-s3-created") {
        Some(Some(value)) => match moment_in(value) {
            Some(moment) => Some(Some(moment)),
            None => None,
        },
        Some(None) => Some(None),
        None => None,
    }
}

/// The name of a piece of metadata, in lower case.
fn meta_name(alloc: Global, index: u64) -> Result<Bytes, Memory>
    ensures { IfOk result (λ name. name ≡ meta_name index) }
{
    let mut name = Bytes::from_slice(alloc, b"x-object-meta-s3-")?;
    append_decimal(&mut name, index)?;
    Ok(name)
}

/// The piece of metadata of an index.
fn object_meta_piece_in<'a>(
    alloc: Global,
    headers: &'a [Pair],
    index: u64,
) -> Result<Option<Option<&'a [u8]>>, Memory>
    ensures { IfOk result
        (λ piece. option_map option_copied piece ≡ field (meta_name index) headers.now) }
{
    let name = meta_name(alloc, index)?;
    Ok(field(headers, name.as_slice()))
}

/// The pieces of metadata up to the first that is missing, at most 11.
pub fn meta_in(alloc: Global, headers: &[Pair]) -> Result<Option<List<Bytes>>, Memory>
    ensures { IfOk result (λ pieces. pieces ≡ meta_in headers.now) }
{
    let mut pieces = List::new(alloc);
    if append_meta_pieces(alloc, headers, &mut pieces)? {
        Ok(Some(pieces))
    } else {
        Ok(None)
    }
}

/// Appends these. False where one of them is there twice, or there are more.
fn append_meta_pieces(
    alloc: Global,
    headers: &[Pair],
    pieces: &mut List<Bytes>,
) -> Result<bool, Memory>
    requires { pieces.old ≡ [] }
    ensures { IfOk result
        (λ read. (if read then Some pieces.new else None) ≡ meta_in headers.now) }
{
    'pieces: for index in 0..MOST_PIECES {
        match object_meta_piece_in(alloc, headers, index)? {
            Some(Some(piece)) => push_meta_piece(alloc, pieces, piece)?,
            Some(None) => return Ok(true),
            None => return Ok(false),
        }
    }
    lacks_meta_piece(alloc, headers, MOST_PIECES)
}

fn push_meta_piece(alloc: Global, pieces: &mut List<Bytes>, piece: &[u8]) -> Result<(), Memory>
    ensures { OnOk result (pieces.new ≡ pieces.old ++ piece.now ∷ []) }
{
    pieces.push(Bytes::from_slice(alloc, piece)?)
}

/// Whether no header is the piece of metadata of an index.
fn lacks_meta_piece(alloc: Global, headers: &[Pair], index: u64) -> Result<bool, Memory>
    ensures { IfOk result (λ lacks. lacks ≡ not (has_header (meta_name index) headers.now)) }
{
    let name = meta_name(alloc, index)?;
    Ok(!has_header(headers, name.as_slice()))
}
