//! The ETag that a store has of a file that is put.
ghost use Rattle.std.specs.Prelude.{◌≡◌};
ghost use Rattle.md5.specs.Md5.{md5};
ghost use Rattle.slo_manifest.specs.Etag.{joined_etags};
ghost use Rattle.swift_calls.specs.Bodies.{etag_of};
ghost use Rattle.swift_calls.specs.declared.account.Content.TheVariants.{Segments};
ghost use Rattle.account_calls.specs.Puts.{etag_put};

use md5::{Digest, Md5};
use s3_machine::body_etag;
use slo_manifest::Segment;
use swift_calls::SwiftRequest;

/// The ETag that a store has of the file that a request puts (Object Storage API v1, "Create or replace object" and "Static large
/// objects"); of a request that puts none that of no byte. It takes no memory.
pub fn etag_of_put(request: &SwiftRequest) -> [u8; 32]
    ensures { result ≡ etag_put request.now }
{
    match request {
        SwiftRequest::PutObject(put) => body_etag(put.body.as_slice()),
        SwiftRequest::PutManifest { segments, .. } => etag_of_segments(segments.as_slice()),
        _ => body_etag(&[]),
    }
}

/// The ETag of an object that lists these segments: the MD5 of their ETags, joined.
#[tactic(auto, using(crate::proofs::lemmas::Puts::digits_of_list))]
fn etag_of_segments(segments: &[Segment]) -> [u8; 32]
    ensures { result ≡ etag_of (Segments segments.now) }
{
    let mut digits = [0; 32];
    if hex::encode_to_slice(digest_of_joined_etags(segments), &mut digits).is_err() {
        unreachable!();
    }
    digits
}

#[tactic(auto, using(slo_manifest::proofs::ListLemmas::joined_etags_more))]
fn digest_of_joined_etags(segments: &[Segment]) -> [u8; 16]
    ensures { result ≡ md5 (joined_etags segments.now) }
{
    let mut hasher = Md5::new();
    for segment in segments {
        hasher.update(segment.etag.as_slice());
    }
    hasher.finalize()
}
