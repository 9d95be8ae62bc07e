//! A copy of an object, as the functions of its plan hand it on.
use s3_machine::{Described, Label, Proper};
use s3_names::{Acl, BucketName, Key};

/// What a copy is put as: where, with what in place of the content type and the metadata of its source, and by which request.
#[derive(Drop)]
pub(crate) struct CopyTo {
    pub(crate) bucket: BucketName,
    pub(crate) key: Key,
    pub(crate) replaced: Option<Proper<Described>>,
    pub(crate) label: Label,
}

/// A copy into a bucket that has the access control list `list`, where `acl` is asked for; and of which object it is.
#[derive(Drop)]
pub(crate) struct CopyIntoBucket {
    pub(crate) to: CopyTo,
    pub(crate) acl: Option<Acl>,
    pub(crate) list: Acl,
    pub(crate) from_bucket: BucketName,
    pub(crate) from_key: Key,
}
