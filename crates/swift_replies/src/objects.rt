//! The heads of objects, as they are read.
ghost use Rattle.std.specs.Prelude.{◌≡◌, Some, IfOk};
ghost use Rattle.swift_replies.specs.Fields.{head_from, head_in, meta_in};

use crate::fields::meta_in;
use crate::values::{etag_in, reply_manifest_flag_in};
use gate_base::{Bytes, Memory, Pair};
use http_answers::only;
use std::alloc::Global;
use swift_calls::StoredHead;

/// The head of an object of a size; none where a header is wanting, or says what none of these says.
pub(crate) fn head_in(
    alloc: Global,
    size: Option<u64>,
    headers: &[Pair],
) -> Result<Option<StoredHead>, Memory>
    ensures { IfOk result (λ head. head ≡ head_in size headers.now) }
{
    let Some(content_type) = only(headers, b"content-type") else {
        return Ok(None);
    };
    let Some(size) = size else {
        return Ok(None);
    };
    let Some(etag) = etag_in(headers) else {
        return Ok(None);
    };
    match reply_manifest_flag_in(headers) {
        Some(manifest) => head_with_meta(alloc, content_type, size, etag, manifest, headers),
        None => Ok(None),
    }
}

/// The head with these values, which are copied, and the metadata of the headers; none where that doesn't read.
fn head_with_meta(
    alloc: Global,
    content_type: &[u8],
    size: u64,
    etag: &[u8],
    manifest: bool,
    headers: &[Pair],
) -> Result<Option<StoredHead>, Memory>
    ensures { IfOk result (λ head. head ≡ head_from (Some content_type.now) (Some size)
        (Some etag.now) (Some manifest) (meta_in headers.now)) }
{
    let (content_type, etag) = copied_texts(alloc, content_type, etag)?;
    match meta_in(alloc, headers)? {
        Some(meta) => Ok(Some(StoredHead {
            content_type,
            size,
            etag,
            manifest,
            meta,
        })),
        None => Ok(None),
    }
}

/// Copies two texts.
pub(crate) fn copied_texts(
    alloc: Global,
    first: &[u8],
    second: &[u8],
) -> Result<(Bytes, Bytes), Memory>
    ensures { IfOk result (λ copies. copies ≡ record { 0 = first.now; 1 = second.now }) }
{
    let first = Bytes::from_slice(alloc, first)?;
    let second = Bytes::from_slice(alloc, second)?;
    Ok((first, second))
}
