//! What is read of an account that is kept in memory: containers and objects by their names, and an object's bytes,
//! size and ETag.
ghost use Rattle.std.specs.Prelude.{◌≡◌, ◌<◌, ◌^◌, IfOk};
ghost use Rattle.std.specs.Option.{option_copied};
ghost use Rattle.gate_base.specs.Named.{named};
ghost use Rattle.swift_calls.specs.Account.{file_of, size_of};
ghost use Rattle.swift_calls.specs.Bodies.{etag_text, etag_of, joined_etags, is_list, head_of, item_of};
ghost use Rattle.planned_swift.specs.Lists.{stored};

use crate::Container;
use gate_base::{Bytes, Copying, List, Memory, Named};
use md5::{Digest, Md5};
use slo_manifest::Segment;
use std::alloc::Global;
use swift_calls::{Content, NameItem, Stored, StoredHead};

/// The first item of a name.
#[tactic(auto, using(crate::proofs::ByName::found_at, crate::proofs::ByName::found_none, std::proofs::lemmas::Option::slice_get_read))]
pub(crate) fn item_in_account<'a, T: Named>(items: &'a List<T>, name: &[u8]) -> Option<&'a T>
    ensures { option_copied result ≡ named T.name_of name.now items.now }
{
    match items.find(name) {
        Some(index) => Some(&items.as_slice()[index]),
        None => None,
    }
}

/// The object of a name in the container of a name.
pub(crate) fn object_in_account<'a>(
    containers: &'a List<Container>,
    container: &[u8],
    name: &[u8],
) -> Option<&'a Stored>
    ensures { option_copied result ≡ stored container.now name.now containers.now }
{
    match item_in_account(containers, container) {
        Some(container) => item_in_account(&container.objects, name),
        None => None,
    }
}

/// The size of an object in bytes.
pub(crate) fn size_of(content: &Content) -> u64
    requires { size_of content.now < 2 ^ 63 }
    ensures { result ≡ size_of content.now }
{
    match content {
        Content::Plain(bytes) => bytes.len() as u64,
        Content::Segments(segments) => segments.as_slice().iter().map(|s| s.size).sum(),
    }
}

/// The MD5 (RFC 1321) of bytes in lower-case hexadecimal digits.
#[tactic(auto, unfolding(swift_calls::specs::Bodies::etag_text))]
fn etag_text_in_account(alloc: Global, bytes: &[u8]) -> Result<Bytes, Memory>
    ensures { IfOk result (λ etag. etag ≡ etag_text bytes.now) }
{
    let text = hex::encode(alloc, Md5::digest(bytes))?;
    Bytes::from_slice(alloc, text.as_bytes())
}

#[tactic(auto, using(crate::proofs::Joining::etags_next, crate::proofs::Joining::etags_end))]
fn joined_etags(alloc: Global, segments: &[Segment]) -> Result<Bytes, Memory>
    ensures { IfOk result (λ text. text ≡ joined_etags segments.now) }
{
    let mut text = Bytes::new(alloc);
    for segment in segments {
        text.append(segment.etag.as_slice())?;
    }
    Ok(text)
}

/// The ETag of an object: of its bytes, or of its segments' ETags in a row.
pub(crate) fn etag_of(alloc: Global, content: &Content) -> Result<Bytes, Memory>
    ensures { IfOk result (λ etag. etag ≡ etag_of content.now) }
{
    match content {
        Content::Plain(bytes) => etag_text_in_account(alloc, bytes.as_slice()),
        Content::Segments(segments) => {
            let text = joined_etags(alloc, segments.as_slice())?;
            etag_text_in_account(alloc, text.as_slice())
        }
    }
}

pub(crate) fn head_of(alloc: Global, object: &Stored) -> Result<StoredHead, Memory>
    requires { size_of object.now.content < 2 ^ 63 }
    ensures { IfOk result (λ head. head ≡ head_of (file_of object.now)) }
{
    Ok(StoredHead {
        content_type: object.content_type.copy()?,
        size: size_of(&object.content),
        etag: etag_of(alloc, &object.content)?,
        manifest: is_list(&object.content),
        meta: object.meta.copy()?,
    })
}

pub(crate) fn is_list(content: &Content) -> bool
    ensures { result ≡ is_list content.now }
{
    match content {
        Content::Plain(_) => false,
        Content::Segments(_) => true,
    }
}

pub(crate) fn item_of(alloc: Global, object: &Stored) -> Result<NameItem, Memory>
    requires { size_of object.now.content < 2 ^ 63 }
    ensures { IfOk result (λ item. item ≡ item_of object.now.name (file_of object.now)) }
{
    Ok(NameItem {
        name: object.name.copy()?,
        hash: etag_of(alloc, &object.content)?,
        size: size_of(&object.content),
        content_type: object.content_type.copy()?,
    })
}
