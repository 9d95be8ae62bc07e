//! What a target names, once its names were found to be those of a bucket and a key.
ghost use Rattle.std.specs.Prelude.{◌≡◌, false, IfOk};
ghost use Rattle.s3_requests.specs.Meaning.{has_bad_bucket, has_bad_key, has_long_key};
ghost use Rattle.s3_requests.specs.Named.{named_by};

use crate::rows::{Level, level_of};
use gate_base::{Copying, Memory};
use s3_machine::ObjectName;
use s3_names::{BucketName, Key, Target};

/// What a target names.
#[derive(Debug, Drop)]
pub(crate) enum Named {
    /// The service itself.
    Service,
    /// A bucket.
    Bucket(BucketName),
    /// An object of a bucket.
    Object(ObjectName),
}

/// What a target names, whose names are such.
pub(crate) fn named_by(target: &Target) -> Result<Named, Memory>
    requires bucket { has_bad_bucket target.now ≡ false }
    requires short { has_long_key target.now ≡ false }
    requires key { has_bad_key target.now ≡ false }
    ensures { IfOk result (λ named. named ≡ named_by target.now) }
{
    match level_of(target.bucket.as_slice(), target.key.as_slice()) {
        Level::Service => Ok(Named::Service),
        Level::Bucket => Ok(Named::Bucket(BucketName::of(target.bucket.copy()?))),
        Level::Key => {
            let bucket = BucketName::of(target.bucket.copy()?);
            let key = Key::of(target.key.copy()?);
            Ok(Named::Object(ObjectName { bucket, key }))
        }
    }
}
