use gate_base::{Copying, Memory};

/// The canned access control list of a bucket, which governs its objects too (this profile).
#[derive(Clone, Copy, Debug, PartialEq, Eq)]
pub enum Acl {
    Private,
    PublicRead,
}

impl Copying for Acl {
    fn copy(&self) -> Result<Acl, Memory> {
        Ok(*self)
    }
}
