//! What a store tells of an object.
use gate_base::{Bytes, Copying, List, Memory};

/// The head of an object: its type, its size in bytes, its ETag in hexadecimal digits, whether it lists segments, and
/// the pieces of its metadata in their order.
#[derive(Debug, Drop)]
pub struct StoredHead {
    pub content_type: Bytes,
    pub size: u64,
    pub etag: Bytes,
    pub manifest: bool,
    pub meta: List<Bytes>,
}

impl Copying for StoredHead {
    fn copy(&self) -> Result<StoredHead, Memory> {
        Ok(StoredHead {
            content_type: self.content_type.copy()?,
            size: self.size,
            etag: self.etag.copy()?,
            manifest: self.manifest,
            meta: self.meta.copy()?,
        })
    }
}

/// An object in a listing: its name, its ETag in hexadecimal digits, its size in bytes and its type.
#[derive(Debug, Drop)]
pub struct NameItem {
    pub name: Bytes,
    pub hash: Bytes,
    pub size: u64,
    pub content_type: Bytes,
}

impl Copying for NameItem {
    fn copy(&self) -> Result<NameItem, Memory> {
        Ok(NameItem {
            name: self.name.copy()?,
            hash: self.hash.copy()?,
            size: self.size,
            content_type: self.content_type.copy()?,
        })
    }
}
