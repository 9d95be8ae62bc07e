//! What the headers of a request give its operation, as one value.
ghost use Rattle.s3_machine.specs.Proper.{IsPlace};
ghost use Rattle.std.specs.Prelude.{◌≡◌, if◌then◌else◌, None, Some};
ghost use Rattle.s3_requests.specs.Taken.{replaced_by, copy_asked};

use gate_base::Bytes;
use request_fields::Source;
use s3_machine::{CopiesOp, Described, ObjectCopy, ObjectName, OnlyIf, Op, Proper};
use s3_names::{Acl, BucketName, Key};

/// What the headers give. An operation that has no use for a thing passes over it.
#[derive(Debug, Drop)]
pub struct Taken {
    /// The access control list that they name.
    pub acl: Option<Acl>,
    /// The content type and the metadata.
    pub described: Proper<Described>,
    /// The source of a copy.
    pub source: Source,
}

/// What a copy is put with in place of what its source has, where it replaces that.
fn replaced_by(replaces: bool, described: Proper<Described>) -> Option<Proper<Described>>
    ensures { result ≡ (if replaces then Some described else None) }
{
    if replaces { Some(described) } else { None }
}

/// What CopyObject asks for, of a bucket and a key. No condition on what stands under the key is read yet.
pub fn copy_asked(name: ObjectName, taken: Taken) -> Op
    requires { IsPlace taken.source.bucket taken.source.key }
    ensures { result ≡ copy_asked name.bucket name.key taken }
{
    let source = taken.source;
    Op::OnCopies(CopiesOp::CopyObject(ObjectCopy {
        bucket: name.bucket,
        key: name.key,
        acl: taken.acl,
        from_bucket: BucketName::of(source.bucket),
        from_key: Key::of(source.key),
        replaced: replaced_by(source.replaces, taken.described),
        conditions: source.conditions,
        only_if: OnlyIf::Always,
    }))
}
