ghost use Rattle.std.specs.Prelude.{◌≡◌, ◌<◌, length, drop, true, false, Err, IfOk};
ghost use Rattle.std.specs.Bool.{OnTrue};
ghost use Rattle.s3_names.specs.Answer.{Gives};
ghost use Rattle.s3_names.specs.Text.{is_text};
ghost use Rattle.s3_names.specs.Target.{path_text, is_path, target_of};

use crate::escapes::{has_bad_escape, unescape};
use crate::text::is_text;
use crate::{NameFault, Query};
use gate_base::{Bytes, Copying, Memory, cut};
use std::alloc::Global;

/// The target of a request in path style (RFC 9112, section 3.2.1; Amazon S3 User Guide, "Virtual hosting of buckets").
#[derive(Debug, Drop)]
pub struct Target {
    /// The path as it was sent: the text before the first `?`.
    pub raw_path: Bytes,
    /// The path decoded.
    pub path: Bytes,
    /// The bucket decoded; it may be any bytes.
    pub bucket: Bytes,
    /// The key decoded: UTF-8 without byte 0, of any length.
    pub key: Bytes,
    /// The text behind the first `?`, read as a query.
    pub query: Query,
}

impl Target {
    /// Reads a target. The path must begin with `/` and have no bad escape, else `BadEscape`; else `NotUtf8` where the
    /// key isn't UTF-8 or has a byte 0; else the refusal of `Query::read` on the text behind the first `?`. The bucket
    /// stands between the first `/` and the next, the key behind that.
    #[tactic(auto, using(crate::proofs::TargetLemmas::target_is), unfolding(crate::specs::Target::target_of))]
    pub fn read(alloc: Global, text: &[u8]) -> Result<Target, NameFault>
        ensures answer { Gives result (target_of text.now) }
        ensures key { IfOk result (λ target. is_text target.key ≡ true) }
        ensures bad_path { is_path (path_text text.now) ≡ false → result ≡ Err NameFault.BadEscape }
    {
        let (path, query) = cut(text, b'?');
        if !is_path(path) {
            return Err(NameFault::BadEscape);
        }
        let (bucket, key) = cut(target_path_behind_slash(path), b'/');
        let key = unescape(alloc, key)?;
        if !is_text(key.as_slice()) {
            return Err(NameFault::NotUtf8);
        }
        let query = Query::read(alloc, query)?;
        Ok(Target {
            raw_path: Bytes::from_slice(alloc, path)?,
            path: unescape(alloc, path)?,
            bucket: unescape(alloc, bucket)?,
            key,
            query,
        })
    }
}

impl Copying for Target {
    fn copy(&self) -> Result<Target, Memory> {
        Ok(Target {
            raw_path: self.raw_path.copy()?,
            path: self.path.copy()?,
            bucket: self.bucket.copy()?,
            key: self.key.copy()?,
            query: self.query.copy()?,
        })
    }
}

fn is_path(path: &[u8]) -> bool
    ensures value { result ≡ is_path path.now }
    ensures filled { OnTrue result (0 < length path.now) }
{
    match path {
        [b'/', ..] => !has_bad_escape(path),
        _ => false,
    }
}

fn target_path_behind_slash(path: &[u8]) -> &[u8]
    requires { 0 < length path.now }
    ensures { result.now ≡ drop 1 path.now }
{
    &path[1..]
}
