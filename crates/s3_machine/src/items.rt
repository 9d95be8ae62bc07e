//! What the replies that list are made of, and what a listing is asked for.
ghost use Rattle.std.specs.Prelude.{◌≡◌, IfOk};
ghost use Rattle.s3_machine.specs.Items.{begins};

use crate::Limits;
use gate_base::{Bytes, Copying, Memory};

/// A bucket as ListBuckets lists it, with the moment at which it was made in seconds since the beginning of 1970.
#[derive(Debug, Drop)]
pub struct BucketItem {
    pub name: Bytes,
    pub created: u64,
}

impl Copying for BucketItem {
    fn copy(&self) -> Result<BucketItem, Memory> {
        Ok(BucketItem {
            name: self.name.copy()?,
            created: self.created,
        })
    }
}

/// What ListObjects asks for, in version 1 or 2 of it. The marker is version 1's. The token, as the text that it stands
/// for, and what is to start after are version 2's. `url` asks for escaped texts, and `owner` for the owner of each
/// object. `versions` asks for the page of the versions, by version 1, whose marker is then the key-marker.
#[derive(Debug, Drop)]
pub struct Asked {
    pub version: u8,
    pub prefix: Bytes,
    pub delimiter: Bytes,
    pub marker: Bytes,
    pub start_after: Bytes,
    pub token: Option<Bytes>,
    pub max: u32,
    pub url: bool,
    pub owner: bool,
    pub versions: bool,
}

impl Limits for Asked {
    ghost use Rattle.s3_machine.specs.Proper.{IsProperAsked};

    ghost Fits = { λ asked. IsProperAsked asked };
}

impl Copying for Asked {
    fn copy(&self) -> Result<Asked, Memory> {
        Ok(Asked {
            version: self.version,
            prefix: self.prefix.copy()?,
            delimiter: self.delimiter.copy()?,
            marker: self.marker.copy()?,
            start_after: self.start_after.copy()?,
            token: copy_option(&self.token)?,
            max: self.max,
            url: self.url,
            owner: self.owner,
            versions: self.versions,
        })
    }
}

/// What a listing says of an object: its ETag without quotes, the moment of its last change, and its size in bytes.
#[derive(Debug, Drop)]
pub struct ItemHead {
    pub etag: Bytes,
    pub modified: u64,
    pub size: u64,
}

impl Copying for ItemHead {
    fn copy(&self) -> Result<ItemHead, Memory> {
        Ok(ItemHead {
            etag: self.etag.copy()?,
            modified: self.modified,
            size: self.size,
        })
    }
}

/// What ListUploads asks for. `url` asks for escaped texts.
#[derive(Debug, Drop)]
pub struct UploadsAsked {
    pub prefix: Bytes,
    pub key_marker: Bytes,
    pub id_marker: Bytes,
    pub max: u32,
    pub url: bool,
}

impl Limits for UploadsAsked {
    ghost use Rattle.s3_machine.specs.Proper.{IsProperUploads};

    ghost Fits = { λ asked. IsProperUploads asked.prefix asked.key_marker asked.id_marker asked.max };
}

impl Copying for UploadsAsked {
    fn copy(&self) -> Result<UploadsAsked, Memory> {
        Ok(UploadsAsked {
            prefix: self.prefix.copy()?,
            key_marker: self.key_marker.copy()?,
            id_marker: self.id_marker.copy()?,
            max: self.max,
            url: self.url,
        })
    }
}

/// What ListParts asks for: at most so many parts, of those above a number.
#[derive(Debug, Drop)]
pub struct PartsAsked {
    pub marker: u32,
    pub max: u32,
}

impl Limits for PartsAsked {
    ghost use Rattle.std.specs.Prelude.{◌≤◌};
    ghost use Rattle.s3_machine.specs.Limits.{most_items};

    ghost Fits = { λ asked. asked.max ≤ most_items };
}

/// An item of a listing: a key with its object, or the common prefix that keys were rolled up into.
#[derive(Debug, Drop)]
pub struct Item {
    pub text: Bytes,
    pub object: Option<ItemHead>,
}

impl Copying for Item {
    fn copy(&self) -> Result<Item, Memory> {
        Ok(Item {
            text: self.text.copy()?,
            object: copy_option(&self.object)?,
        })
    }
}

/// A part of an open upload: its number, its ETag without quotes, the moment at which it was put, and its size in bytes.
#[derive(Debug, Drop)]
pub struct PartItem {
    pub number: u32,
    pub etag: Bytes,
    pub modified: u64,
    pub size: u64,
}

impl Copying for PartItem {
    fn copy(&self) -> Result<PartItem, Memory> {
        Ok(PartItem {
            number: self.number,
            etag: self.etag.copy()?,
            modified: self.modified,
            size: self.size,
        })
    }
}

/// An open upload: its key, its id, and the moment at which it was started.
#[derive(Debug, Drop)]
pub struct UploadItem {
    pub key: Bytes,
    pub id: u128,
    pub started: u64,
}

impl Copying for UploadItem {
    fn copy(&self) -> Result<UploadItem, Memory> {
        Ok(UploadItem {
            key: self.key.copy()?,
            id: self.id,
            started: self.started,
        })
    }
}

/// A copy of what is there, if anything is. It fails only where memory runs out.
pub fn copy_option<T: Copying>(value: &Option<T>) -> Result<Option<T>, Memory>
    ensures { IfOk result (λ copied. copied ≡ value.now) }
{
    match value {
        Some(inner) => Ok(Some(inner.copy()?)),
        None => Ok(None),
    }
}

/// Whether a text begins with these bytes.
pub fn begins(front: &[u8], text: &[u8]) -> bool
    ensures { result ≡ begins front.now text.now }
{
    text.starts_with(front)
}
