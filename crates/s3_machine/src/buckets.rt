//! Which buckets ListBuckets lists.
ghost use Rattle.std.specs.Prelude.{◌≡◌};
ghost use Rattle.std.specs.List.{filter};
ghost use Rattle.s3_machine.specs.Buckets.{all_buckets, bucket_page, cut_by, is_behind_token, is_of_page};

use crate::{BucketItem, Limits, begins, copy_option};
use gate_base::{Bytes, Copying, List, Memory};
use std::alloc::Global;

/// Which buckets ListBuckets lists (Amazon S3 API Reference, "ListBuckets"): those whose names begin with a prefix and come behind
/// the name for which a token stands, and of them the first `max`, from 1 to `MOST_BUCKETS`; without a token from the first name
/// on, and without `max` all.
#[derive(Debug, Drop)]
pub struct BucketListing {
    pub prefix: Bytes,
    pub token: Option<Bytes>,
    pub max: Option<u32>,
}

impl Limits for BucketListing {
    ghost use Rattle.s3_machine.specs.Proper.{IsProperBuckets};

    ghost Fits = { λ asked. IsProperBuckets asked };
}

impl Copying for BucketListing {
    fn copy(&self) -> Result<BucketListing, Memory> {
        Ok(BucketListing {
            prefix: self.prefix.copy()?,
            token: copy_option(&self.token)?,
            max: self.max,
        })
    }
}

impl BucketListing {
    /// All buckets in one page. It takes no memory.
    pub fn all(alloc: Global) -> BucketListing
        ensures { result ≡ all_buckets }
    {
        BucketListing {
            prefix: Bytes::new(alloc),
            token: None,
            max: None,
        }
    }
}

fn is_behind_token(token: &Option<Bytes>, name: &[u8]) -> bool
    ensures { result ≡ is_behind_token token.now name.now }
{
    match token {
        Some(token) => token.as_slice().cmp(name).is_lt(),
        None => true,
    }
}

fn is_of_page(asked: &BucketListing, item: &BucketItem) -> bool
    ensures { result ≡ is_of_page asked.now item.now }
{
    let name = item.name.as_slice();
    begins(asked.prefix.as_slice(), name) && is_behind_token(&asked.token, name)
}

/// The buckets that are asked for, however many.
fn buckets_of_page(asked: &BucketListing, items: List<BucketItem>) -> List<BucketItem>
    ensures { result ≡ filter (is_of_page asked.now) items }
{
    let mut items = items.into_vec();
    items.retain(|item| is_of_page(asked, item));
    List::from_vec(items)
}

/// The first of these buckets, and whether one is left over.
fn first_buckets(max: Option<u32>, items: List<BucketItem>) -> (List<BucketItem>, bool)
    ensures { result ≡ cut_by max items }
{
    let Some(max) = max else {
        return (items, false);
    };
    let max = max as usize;
    let truncated = 0 < max && max < items.len();
    let mut items = items.into_vec();
    items.truncate(max);
    (List::from_vec(items), truncated)
}

/// Of these buckets, which are all that there are by name in the order of the bytes, those of the page that is asked for, and whether
/// one is left over. It takes no memory.
pub fn bucket_page(asked: &BucketListing, items: List<BucketItem>) -> (List<BucketItem>, bool)
    ensures { result ≡ bucket_page asked.now items }
{
    first_buckets(asked.max, buckets_of_page(asked, items))
}
