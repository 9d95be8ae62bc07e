//! The ETag of a body.
ghost use Rattle.std.specs.Prelude.{◌≡◌};
ghost use Rattle.s3_machine.specs.ETag.{body_etag};

use md5::{Digest, Md5};

/// The ETag of an object or a part that is put in one piece: the MD5 of its bytes (RFC 1321) in 32 lower-case
/// hexadecimal digits (Amazon S3 API Reference, "Object"). It takes no memory.
#[tactic(auto, unfolding(crate::specs::ETag::body_etag))]
pub fn body_etag(body: &[u8]) -> [u8; 32]
    ensures { result ≡ body_etag body.now }
{
    let mut digits = [0; 32];
    if hex::encode_to_slice(Md5::digest(body), &mut digits).is_err() {
        unreachable!();
    }
    digits
}
