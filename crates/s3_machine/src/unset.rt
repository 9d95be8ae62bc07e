//! What a setting of a bucket or of an object is that nothing sets.
use crate::UnsetCode;
use gate_base::{Bytes, Copying, Memory};

/// A document of nothing but a root, and what stands inside it.
#[derive(Debug, Drop)]
pub struct UnsetPage {
    pub root: Bytes,
    pub inside: Bytes,
}

impl Copying for UnsetPage {
    fn copy(&self) -> Result<UnsetPage, Memory> {
        Ok(UnsetPage {
            root: self.root.copy()?,
            inside: self.inside.copy()?,
        })
    }
}

/// How a setting is answered that nothing sets here (Amazon S3 API Reference, "GetBucketPolicy", "GetBucketVersioning" and their
/// like): a refusal by a code that says so, or a document that has nothing in it.
#[derive(Debug, Drop)]
pub enum Unset {
    Named(UnsetCode),
    Empty(UnsetPage),
}

impl Copying for Unset {
    fn copy(&self) -> Result<Unset, Memory> {
        match self {
            Unset::Named(code) => Ok(Unset::Named(*code)),
            Unset::Empty(page) => Ok(Unset::Empty(page.copy()?)),
        }
    }
}
