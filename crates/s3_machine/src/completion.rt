//! What a completion of an upload lists.
ghost use Rattle.std.specs.Prelude.{◌≡◌, [], map, IfOk};
ghost use Rattle.std.specs.Option.{option_map_or};
ghost use Rattle.std.specs.Cmp.Lexicographic.{pointwise};
ghost use Rattle.md5.specs.Md5.{md5};
ghost use Rattle.s3_machine.specs.Uploads.{digest_in, digests_of, etag_listed, rises, rises_from, same_listed, upload_etag};

use crate::Listed;
use gate_base::{Bytes, Memory};
use md5::{Digest, Md5};
use std::alloc::Global;
use text_forms::append_decimal;

/// Whether the numbers of a list ascend strictly (Amazon S3 API Reference, "CompleteMultipartUpload"). It takes no memory.
pub fn rises(list: &[Listed]) -> bool
    ensures { result ≡ rises list.now }
{
    match list {
        [first, rest @ ..] => rises_from(first.number, rest),
        [] => true,
    }
}

fn rises_from(above: u32, list: &[Listed]) -> bool
    ensures { result ≡ rises_from above list.now }
{
    let mut last = above;
    for listed in list {
        if listed.number <= last {
            return false;
        }
        last = listed.number;
    }
    true
}

/// Whether two lists have the same parts: the same numbers with the same ETags, in the same order. It takes no memory.
pub fn same_list(one: &[Listed], other: &[Listed]) -> bool
    ensures { result ≡ pointwise same_listed one.now other.now }
{
    if one.len() != other.len() {
        return false;
    }
    for i in 0..one.len() {
        if !same_listed(&one[i], &other[i]) {
            return false;
        }
    }
    true
}

fn same_listed(one: &Listed, other: &Listed) -> bool
    ensures { result ≡ same_listed one.now other.now }
{
    one.number == other.number && one.etag.as_slice() == other.etag.as_slice()
}

/// The ETag of an object of the parts that are listed (Amazon S3 API Reference, "CompleteMultipartUpload"): the MD5 of the
/// parts' own digests in a row in 32 lower-case hexadecimal digits, `-` and their number. It fails only where memory runs out.
#[tactic(auto, unfolding(crate::specs::Uploads::upload_etag))]
pub fn upload_etag(alloc: Global, list: &[Listed]) -> Result<Bytes, Memory>
    ensures { IfOk result (λ etag. etag ≡ upload_etag (map etag_listed list.now)) }
{
    let text = hex::encode(alloc, digest_of(list).as_slice())?;
    let mut etag = Bytes::from_vec(text.into_bytes());
    etag.append(b"-")?;
    append_decimal(&mut etag, list.len() as u64)?;
    Ok(etag)
}

/// The MD5 of the digests that the ETags of a list write, in a row.
#[tactic(auto, using(crate::proofs::Digests::digests_more))]
fn digest_of(list: &[Listed]) -> [u8; 16]
    ensures { result ≡ md5 (digests_of list.now) }
{
    let mut hasher = Md5::new();
    for listed in list {
        let digest = digest_in(listed.etag.as_slice());
        if let Some(bytes) = digest {
            hasher.update(&bytes);
        }
    }
    hasher.finalize()
}

/// The 16 bytes that 32 hexadecimal digits write; none for every other text.
fn digest_in(etag: &[u8]) -> Option<[u8; 16]>
    ensures { option_map_or (λ bytes. bytes) result [] ≡ digest_in etag.now }
{
    let mut digest = [0; 16];
    match hex::decode_to_slice(etag, &mut digest) {
        Ok(()) => Some(digest),
        Err(_) => None,
    }
}
