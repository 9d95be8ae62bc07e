ghost use Rattle.std.specs.Prelude.{◌≡◌, IfOk};
ghost use Rattle.slo_manifest.specs.Etag.{joined_etag, joined_etags};
ghost use Rattle.md5.specs.Md5.{md5};

use crate::Segment;
use gate_base::{Bytes, Memory};
use md5::{Digest, Md5};
use std::alloc::Global;

/// The ETag of a static large object over these segments: the hexadecimal MD5 of their ETags, joined (Object Storage
/// API v1, "Static large objects"). It fails only where memory runs out.
pub fn joined_etag(alloc: Global, segments: &[Segment]) -> Result<Bytes, Memory>
    ensures { IfOk result (λ text. text ≡ joined_etag segments.now) }
{
    let digest = digest_of_segment_etags(segments);
    let text = hex::encode(alloc, digest.as_slice())?;
    Ok(Bytes::from_vec(text.into_bytes()))
}

/// The MD5 of the joined ETags.
#[tactic(auto, using(crate::proofs::ListLemmas::joined_etags_more))]
fn digest_of_segment_etags(segments: &[Segment]) -> [u8; 16]
    ensures { result ≡ md5 (joined_etags segments.now) }
{
    let mut hasher = Md5::new();
    for segment in segments {
        hasher.update(segment.etag.as_slice());
    }
    hasher.finalize()
}
