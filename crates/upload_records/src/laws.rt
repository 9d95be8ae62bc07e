//! Laws of the definitions, each the contract of a function that does nothing.
ghost use Rattle.upload_records.specs.Bounded.{WrittenByLess, WrittenByMost};
ghost use Rattle.upload_records.specs.Laws.{AclReplaced, BucketBare, BucketGone, BucketMade, BucketThere, EmptyConsistent, ObjectFound, ObjectGone, ObjectPut, ReadsStutter};

use swift_calls::law_reads_leave;

/// Where no completion is sealed, the PUT of the container of a bucket that isn't there makes the bucket; it leaves the
/// account consistent, and the gateway's own container as it was.
pub fn law_bucket_made()
    ensures { BucketMade }
{}

/// A bucket is there exactly where its container is.
pub fn law_bucket_there()
    ensures { BucketThere }
{}

/// A bucket has no object exactly where its container has none.
pub fn law_bucket_bare()
    ensures { BucketBare }
{}

/// Where no completion is sealed, the DELETE of a bucket's container that has no object takes the bucket away; it leaves the
/// account consistent, and the gateway's own container as it was.
pub fn law_bucket_gone()
    ensures { BucketGone }
{}

/// Where no completion is sealed, the POST of a bucket's container replaces who may read it; it leaves the account
/// consistent, and the gateway's own container as it was.
pub fn law_acl_replaced()
    ensures { AclReplaced }
{}

/// The empty account is consistent, no completion is sealed on it, and it represents the state without a bucket.
pub fn law_empty_consistent()
    ensures { EmptyConsistent }
{}

/// Where no completion is sealed, the PUT of an object's file into a bucket puts the object; it leaves the account
/// consistent, and the gateway's own container as it was.
pub fn law_object_put()
    ensures { ObjectPut }
{}

/// Where no completion is sealed, the DELETE of an object's file takes the object away; it leaves the account consistent,
/// and the gateway's own container as it was.
pub fn law_object_gone()
    ensures { ObjectGone }
{}

/// Over a consistent account an object of a bucket is what the file of its key represents.
pub fn law_object_found()
    ensures { ObjectFound }
{}

/// A call that only reads is quiet: it leaves the account consistent, and representing the same state.
pub fn law_reads_stutter()
    ensures { ReadsStutter }
{
    law_reads_leave();
}

/// An account that was written where bodies have fewer bytes at most is consistent, and the same completion is sealed on it. By the
/// greatest bound it is just what is consistent.
pub fn law_smaller_bodies()
    ensures less { WrittenByLess }
    ensures most { WrittenByMost }
{}
