//! The calls on a bucket's own container, one function a call.
ghost use Rattle.upload_records.specs.Native.{IsSettled};
ghost use Rattle.account_calls.specs.Calls.{always, Any, Asks, Becomes, Changes, DropsBucket, Given, GivenOf, SetsAcl, Tells, TellsBucket, makes_bucket};
ghost use Rattle.account_calls.specs.Lent.{Stays};
ghost use Rattle.account_calls.specs.Purging.{MayMake};
ghost use Rattle.account_calls.specs.Told.{LeavesAccount};

use crate::interpret::{
    interpret_bucket_delete, interpret_bucket_head, interpret_bucket_post, interpret_bucket_put,
};
use crate::state::ask;
use crate::{PlanFault, Settled};
use s3_machine::Label;
use s3_names::{Acl, BucketName};
use swift_calls::{Swift, SwiftRequest};
use upload_records::container_readers_of_acl;

/// The access control list of a bucket, and `None` where the bucket is missing, by HEAD of its container (Object
/// Storage API v1, "Show container metadata"). At most one call, which leaves the account, consistent or not. Failed comes only where the
/// store's count of faults rose; Memory where memory ran out, before the call or to read its answer; Inconsistent
/// never over an observable consistent account.
#[tactic(auto, using(crate::proofs::lemmas::Names::container_name))]
pub fn head_bucket<W: Swift>(
    state: &mut Settled<'_, W>,
    bucket: &BucketName,
) -> Result<Option<Acl>, PlanFault>
    ensures stays { Stays state.old state.new }
    ensures asks { Asks (always 1) (W.history state.old.store.now) (W.history state.new.store.now)
        IsSettled (Tells (TellsBucket bucket.now)) result }
    ensures leaves { LeavesAccount (W.history state.old.store.now) (W.history state.new.store.now) }
{
    let reply = ask(
        state.store,
        SwiftRequest::HeadContainer {
            container: bucket.copy_text()?,
        },
    )?;
    interpret_bucket_head(&reply)
}

/// Makes a bucket that isn't there, and beside which both containers are there without a file, by PUT of its container
/// (Object Storage API v1, "Create container"): the one call that commits. At most one call. It is made at the moment of the label. After Ok
/// the S3 state has the new bucket. After Failed, which comes only where the store's count of faults rose, and after
/// Memory the state is the old one or the new one. Inconsistent never comes over an observable consistent account of
/// which this is so.
#[tactic(auto, using(crate::proofs::lemmas::Names::container_name))]
pub fn put_bucket_container<W: Swift>(
    state: &mut Settled<'_, W>,
    bucket: BucketName,
    acl: Acl,
    label: &Label,
) -> Result<(), PlanFault>
    ensures stays { Stays state.old state.new }
    ensures changes { Changes (always 1) (W.history state.old.store.now)
        (W.history state.new.store.now) (GivenOf (MayMake bucket))
        (Becomes (makes_bucket bucket acl label.now.moment)) result }
{
    let reply = ask(
        state.store,
        SwiftRequest::PutContainer {
            container: bucket.into_text(),
            readers: container_readers_of_acl(acl),
            created: Some(label.moment),
        },
    )?;
    interpret_bucket_put(&reply)
}

/// What became of a bucket that was to be deleted.
#[derive(Clone, Copy, Debug, PartialEq, Eq)]
pub enum Dropped {
    /// It is gone, with its uploads and completions.
    Gone,
    /// It has an object, and stays.
    Full,
    /// It wasn't there.
    Missing,
}

/// Deletes a bucket that has no object, by DELETE of its container (Object Storage API v1, "Delete container"): the one
/// call that commits. At most one call. After Ok the S3 state is as the answer says. After Failed, which comes only where
/// the store's count of faults rose, and after Memory the state is the old one or one of those that an answer tells.
/// Inconsistent never comes over an observable consistent account.
#[tactic(auto, using(crate::proofs::lemmas::Names::container_name))]
pub fn delete_bucket_container<W: Swift>(
    state: &mut Settled<'_, W>,
    bucket: BucketName,
) -> Result<Dropped, PlanFault>
    ensures stays { Stays state.old state.new }
    ensures changes { Changes (always 1) (W.history state.old.store.now)
        (W.history state.new.store.now) (Given Any) (DropsBucket bucket) result }
{
    let reply = ask(
        state.store,
        SwiftRequest::DeleteContainer {
            container: bucket.into_text(),
        },
    )?;
    interpret_bucket_delete(&reply)
}

/// Replaces the access control list of a bucket, by POST of its container (Object Storage API v1, "Create, update, or
/// delete container metadata"): the one call that commits. At most one call. After Ok the answer says whether the bucket
/// is there, and if so the S3 state has its new list. The faults are those of [`delete_bucket_container`].
#[tactic(auto, using(crate::proofs::lemmas::Names::container_name))]
pub fn post_bucket_container<W: Swift>(
    state: &mut Settled<'_, W>,
    bucket: BucketName,
    acl: Acl,
) -> Result<bool, PlanFault>
    ensures stays { Stays state.old state.new }
    ensures changes { Changes (always 1) (W.history state.old.store.now)
        (W.history state.new.store.now) (Given Any) (SetsAcl bucket acl) result }
{
    let reply = ask(
        state.store,
        SwiftRequest::PostContainer {
            container: bucket.into_text(),
            readers: container_readers_of_acl(acl),
        },
    )?;
    interpret_bucket_post(&reply)
}
