//! Which containers stand beside a bucket, by their names.
ghost use Rattle.std.specs.Prelude.{◌≡◌, true, IfOk};
ghost use Rattle.s3_names.specs.Bucket.{is_bucket};
ghost use Rattle.leftovers.specs.Sides.{bucket_beside, folder_beside, suffix_length, without_last};

use gate_base::{Bytes, Memory};
use s3_names::is_bucket;
use std::alloc::Global;
use upload_records::{segments_container, uploads_container};

/// Which of the two containers beside a bucket one is.
#[derive(Clone, Copy, Debug, PartialEq, Eq)]
pub enum Kind {
    /// That of the records of its uploads.
    Records,
    /// That of their segments.
    Segments,
}

/// A name without its last bytes.
fn without_last(name: &[u8], n: usize) -> &[u8]
    ensures { result.now ≡ without_last n name.now }
{
    if name.len() < n {
        return &name[..0];
    }
    &name[..name.len() - n]
}

fn suffix_length(kind: Kind) -> usize
    ensures { result ≡ suffix_length kind }
{
    match kind {
        Kind::Records => 8,
        Kind::Segments => 9,
    }
}

/// The name of a container beside a bucket.
fn folder_beside(alloc: Global, bucket: &[u8], kind: Kind) -> Result<Bytes, Memory>
    requires { is_bucket bucket.now ≡ true }
    ensures { IfOk result (λ folder. folder ≡ folder_beside kind bucket.now) }
{
    match kind {
        Kind::Records => uploads_container(alloc, bucket),
        Kind::Segments => segments_container(alloc, bucket),
    }
}

/// The bucket beside which a container of this name stands, if it is of this kind.
pub fn bucket_beside(alloc: Global, name: &Bytes, kind: Kind) -> Result<Option<Bytes>, Memory>
    ensures { IfOk result (λ told. told ≡ bucket_beside kind name.now) }
{
    let bucket = without_last(name.as_slice(), suffix_length(kind));
    if !is_bucket(bucket) {
        return Ok(None);
    }
    let folder = folder_beside(alloc, bucket, kind)?;
    if name.as_slice() != folder.as_slice() {
        return Ok(None);
    }
    let told = Bytes::from_slice(alloc, bucket)?;
    Ok(Some(told))
}
