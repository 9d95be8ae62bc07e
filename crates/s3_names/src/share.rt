//! Whose the buckets of an account are, where several writers share it.
ghost use Rattle.std.specs.Prelude.{◌≡◌, option_copied};
ghost use Rattle.s3_names.specs.Share.{fits, has_bucket, owner_of};

use gate_base::{Bytes, Copying, List, Memory};

/// Whose the buckets are that a pattern fits: the bucket of that name, or those whose names begin with it.
#[derive(Debug, Drop)]
pub struct ShareRow {
    pub pattern: Bytes,
    pub is_prefix: bool,
    pub owner: Bytes,
}

impl Copying for ShareRow {
    fn copy(&self) -> Result<ShareRow, Memory> {
        Ok(ShareRow {
            pattern: self.pattern.copy()?,
            is_prefix: self.is_prefix,
            owner: self.owner.copy()?,
        })
    }
}

/// The rows of all writers of an account, of which the first that fits a bucket counts, and which writer this is.
#[derive(Debug, Drop)]
pub struct ShareTable {
    pub rows: List<ShareRow>,
    pub owner: Bytes,
}

impl Copying for ShareTable {
    fn copy(&self) -> Result<ShareTable, Memory> {
        Ok(ShareTable {
            rows: self.rows.copy()?,
            owner: self.owner.copy()?,
        })
    }
}

fn fits(row: &ShareRow, bucket: &[u8]) -> bool
    ensures { result ≡ fits row.now bucket.now }
{
    if row.is_prefix {
        bucket.starts_with(row.pattern.as_slice())
    } else {
        bucket == row.pattern.as_slice()
    }
}

/// The owner of the bucket of that name, by the first row that fits it; none where none fits. It takes no memory.
#[tactic(auto, unfolding(crate::specs::Share::owner_of))]
pub fn owner_of<'a>(rows: &'a [ShareRow], bucket: &[u8]) -> Option<&'a [u8]>
    ensures { option_copied result ≡ owner_of bucket.now rows.now }
{
    for row in rows {
        if fits(row, bucket) {
            return Some(row.owner.as_slice());
        }
    }
    None
}

/// Whether a writer has the bucket of that name: each, where no table is given. It takes no memory.
pub fn has_bucket(share: &Option<ShareTable>, bucket: &[u8]) -> bool
    ensures { result ≡ has_bucket share.now bucket.now }
{
    match share {
        None => true,
        Some(share) => match owner_of(share.rows.as_slice(), bucket) {
            Some(owner) => share.owner.as_slice() == owner,
            None => false,
        },
    }
}
