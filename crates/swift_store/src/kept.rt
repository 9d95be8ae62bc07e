//! An object as it is kept in memory.
ghost use Rattle.std.specs.Prelude.{◌≡◌, ◌<◌, ◌^◌, ◌++◌, IfOk, OnOk, OnErr};
ghost use Rattle.swift_calls.specs.Account.{size_of};
ghost use Rattle.swift_calls.specs.Bodies.{etag_of, etag_text, head_of, is_list, item_of, joined_etags, listed_in};
ghost use Rattle.swift_store.specs.Shelf.{part, part_of_content};

use gate_base::{Bytes, Copying, List, Memory};
use md5::{Digest, Md5};
use slo_manifest::Segment;
use std::alloc::Global;
use std::marker::Model;
use swift_calls::{Content, NameItem, StoredHead};

/// An object without its name. Its ETag and its size are kept beside it, so that they are found once. Contracts see the
/// object alone.
#[derive(Drop)]
pub(crate) struct Kept {
    content_type: Bytes,
    meta: List<Bytes>,
    content: Content,
    etag: Bytes,
    size: u64,
}

impl Model for Kept {
    ghost use Rattle.swift_calls.specs.Account.{SwiftObject};
    ghost use Rattle.swift_store.specs.Coded.{object_code};

    ghost Value = { SwiftObject };

    ghost coded = { object_code };

    ghost use Rattle.swift_store.specs.Kept.{object_in, IsKept};

    ghost view = { object_in };

    ghost invariant = { IsKept };
}

impl Kept {
    /// An object whose ETag is known.
    pub(crate) fn new(content_type: Bytes, meta: List<Bytes>, content: Content, etag: Bytes) -> Kept
        requires etag { etag ≡ etag_of content }
        requires size { size_of content < 2 ^ 63 }
        ensures { result ≡ record { content_type = content_type; meta = meta; content = content } }
    {
        let size = content.size();
        Kept {
            content_type,
            meta,
            content,
            etag,
            size,
        }
    }

    pub(crate) fn head(&self) -> Result<StoredHead, Memory>
        ensures { IfOk result (λ head. head ≡ head_of self.now) }
    {
        Ok(StoredHead {
            content_type: self.content_type.copy()?,
            size: self.size,
            etag: self.etag.copy()?,
            manifest: is_list_content(&self.content),
            meta: self.meta.copy()?,
        })
    }

    pub(crate) fn item(&self, alloc: Global, name: &[u8]) -> Result<NameItem, Memory>
        ensures { IfOk result (λ item. item ≡ item_of name.now self.now) }
    {
        Ok(NameItem {
            name: Bytes::from_slice(alloc, name)?,
            hash: self.etag.copy()?,
            size: self.size,
            content_type: self.content_type.copy()?,
        })
    }

    /// The segments that the object lists, if it lists any.
    pub(crate) fn segments(&self) -> Result<Option<List<Segment>>, Memory>
        ensures { IfOk result (λ segments. segments ≡ listed_in self.now.content) }
    {
        match &self.content {
            Content::Plain(_) => Ok(None),
            Content::Segments(segments) => Ok(Some(segments.copy()?)),
        }
    }

    /// Appends bytes of the object. Where memory runs out, the text is as before.
    pub(crate) fn read(&self, from: u64, end: u64, out: &mut Bytes) -> Result<(), Memory>
        ensures ok { OnOk result (out.new ≡ out.old ++ part_of_content from end self.now.content) }
        ensures err { OnErr result (out.new ≡ out.old) }
    {
        match &self.content {
            Content::Plain(bytes) => out.append(part(bytes.as_slice(), from, end)),
            Content::Segments(_) => Ok(()),
        }
    }
}

/// The bytes from one place to another, none where these aren't within.
fn part(bytes: &[u8], from: u64, end: u64) -> &[u8]
    ensures { result.now ≡ part from end bytes.now }
{
    if from <= end && end <= bytes.len() as u64 {
        &bytes[from as usize..end as usize]
    } else {
        &[]
    }
}

fn is_list_content(content: &Content) -> bool
    ensures { result ≡ is_list content.now }
{
    match content {
        Content::Plain(_) => false,
        Content::Segments(_) => true,
    }
}

/// The MD5 (RFC 1321) of bytes in lower-case hexadecimal digits.
#[tactic(auto, unfolding(swift_calls::specs::Bodies::etag_text))]
pub(crate) fn etag_of_shelved_bytes(alloc: Global, bytes: &[u8]) -> Result<Bytes, Memory>
    ensures { IfOk result (λ etag. etag ≡ etag_text bytes.now) }
{
    let text = hex::encode(alloc, Md5::digest(bytes))?;
    Bytes::from_slice(alloc, text.as_bytes())
}
