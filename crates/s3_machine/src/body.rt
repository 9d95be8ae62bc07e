//! `Body`: the bytes of an object, with their MD5 digest where that is known.
ghost use Rattle.std.specs.Prelude.{◌≡◌};
ghost use Rattle.md5.specs.Md5.{md5};
ghost use Rattle.s3_machine.specs.Body.{IsDigestOf};
ghost use Rattle.s3_machine.specs.ETag.{body_etag};

use crate::Limits;
use gate_base::{Bytes, Copying, Memory};
use md5::{Digest, Md5};
use std::fmt::{self, Debug, Formatter, Write};
use std::marker::Model;

/// The bytes of a body, with their MD5 (RFC 1321) where they were hashed already. Contracts see it as the list of the bytes.
#[derive(Drop)]
pub struct Body {
    bytes: Bytes,
    digest: Option<[u8; 16]>,
}

impl Model for Body {
    ghost use Rattle.std.specs.Prelude.{List, ℕ};
    ghost use Rattle.s3_machine.specs.Body.{IsDigestOf};

    ghost Value = { List ℕ };

    ghost view = { λ b. b.bytes };

    ghost invariant = { λ b. IsDigestOf b.digest b.bytes };
}

impl Limits for Body {
    ghost use Rattle.std.specs.Prelude.{◌≤◌, length};
    ghost use Rattle.s3_machine.specs.Limits.{most_body_bytes};

    ghost Fits = { λ body. length body ≤ most_body_bytes };
}

impl Body {
    /// A body that nobody hashed yet.
    pub fn new(bytes: Bytes) -> Body
        ensures { result ≡ bytes }
    {
        Body {
            bytes,
            digest: None,
        }
    }

    /// A body, and its digest if there is one.
    pub fn with(bytes: Bytes, digest: Option<[u8; 16]>) -> Body
        requires { IsDigestOf digest bytes }
        ensures { result ≡ bytes }
    {
        Body { bytes, digest }
    }

    pub fn as_slice(&self) -> &[u8]
        ensures { result.now ≡ self.now }
    {
        self.bytes.as_slice()
    }

    /// Its MD5. It is made where it isn't known.
    pub fn digest(&self) -> [u8; 16]
        ensures { result ≡ md5 self.now }
    {
        match self.digest {
            Some(digest) => digest,
            None => Md5::digest(self.bytes.as_slice()),
        }
    }

    /// The ETag of an object or a part that is put in one piece: its MD5 in 32 lower-case hexadecimal digits (Amazon S3 API
    /// Reference, "Object"). It takes no memory.
    #[tactic(auto, unfolding(crate::specs::ETag::body_etag))]
    pub fn etag(&self) -> [u8; 32]
        ensures { result ≡ body_etag self.now }
    {
        let mut digits = [0; 32];
        if hex::encode_to_slice(self.digest(), &mut digits).is_err() {
            unreachable!();
        }
        digits
    }

    pub fn into_bytes(self) -> Bytes
        ensures { result ≡ self }
    {
        self.bytes
    }
}

impl Copying for Body {
    fn copy(&self) -> Result<Body, Memory> {
        Ok(Body {
            bytes: self.bytes.copy()?,
            digest: self.digest,
        })
    }
}

impl Debug for Body {
    fn fmt<W: Write>(&self, f: &mut Formatter<W>) -> fmt::Result {
        self.bytes.fmt(f)
    }
}
