//! The plans of the operations on access control lists.
ghost use Rattle.std.specs.Prelude.{◌≡◌, Some, IfOk};
ghost use Rattle.s3_machine.specs.declared.operation.Label.{Label};
ghost use Rattle.s3_machine.specs.declared.operation.Op.TheVariants.{OnObjects};
ghost use Rattle.s3_machine.specs.declared.operation.ObjectsOp.TheVariants.{GetBucketAcl, GetObjectAcl, PutBucketAcl, PutObjectAcl};
ghost use Rattle.account_calls.specs.Calls.{always, Any, Given, TellsBucket};
ghost use Rattle.account_calls.specs.Lent.{Stays};
ghost use Rattle.account_calls.specs.declared.state.Known.TheVariants as known;
ghost use Rattle.account_calls.specs.Refusals.{Stops};
ghost use Rattle.account_calls.specs.Shows.{alone};
ghost use Rattle.account_calls.specs.Plan.{Plans, ended};
ghost use Rattle.planner.specs.Buckets.{set_reply};
ghost use Rattle.planner.specs.Reading.{GivesNoByte};

use account_calls::{PlanFault, Settled, head_bucket, post_bucket_container};
use s3_machine::{BucketAcl, Code, ObjectAcl, ObjectName, ObjectsReply, Reply, is_other_acl};
use s3_names::{Acl, BucketName};
use swift_calls::Swift;

/// GetBucketAcl: HEAD of the container. At most one call, which doesn't commit. The faults are those of the call.
pub(crate) fn get_bucket_acl<W: Swift>(
    state: &mut Settled<'_, W>,
    bucket: &BucketName,
) -> Result<Reply, PlanFault>
    ensures stays { Stays state.old state.new }
    ensures plans { (label : Label)
        → Plans (always 1) (W.history state.old.store.now) (W.history state.new.store.now)
        state.old.settings.now (Given Any) (OnObjects (GetBucketAcl bucket.now)) label known.Settled
        result }
    ensures bodiless { IfOk result GivesNoByte }
{
    match head_bucket(state, bucket)? {
        Some(list) => Ok(Reply::OfObjects(ObjectsReply::AclOf(list))),
        None => Ok(Reply::Refused(Code::NoSuchBucket)),
    }
}

/// PutBucketAcl: POST of the container, which commits. At most one call. The faults are those of the call.
pub(crate) fn put_bucket_acl<W: Swift>(
    state: &mut Settled<'_, W>,
    set: BucketAcl,
) -> Result<Reply, PlanFault>
    ensures stays { Stays state.old state.new }
    ensures plans { (label : Label)
        → Plans (always 1) (W.history state.old.store.now) (W.history state.new.store.now)
        state.old.settings.now (Given Any) (OnObjects (PutBucketAcl set)) label known.Settled
        result }
    ensures bodiless { IfOk result GivesNoByte }
{
    end_put_bucket_acl_plan(post_bucket_container(state, set.bucket, set.acl))
}

/// The end of PutBucketAcl after its call.
fn end_put_bucket_acl_plan(end: Result<bool, PlanFault>) -> Result<Reply, PlanFault>
    ensures { result ≡ ended end set_reply }
{
    match end {
        Ok(true) => Ok(Reply::Done),
        Ok(false) => Ok(Reply::Refused(Code::NoSuchBucket)),
        Err(fault) => Err(fault),
    }
}

/// GetObjectAcl: HEAD of the bucket's container, then HEAD of the object's file. At most two calls, none of which commits.
/// The list is the bucket's. The faults are those of the calls.
pub(crate) fn get_object_acl<W: Swift>(
    state: &mut Settled<'_, W>,
    name: &ObjectName,
) -> Result<Reply, PlanFault>
    ensures stays { Stays state.old state.new }
    ensures plans { (label : Label)
        → Plans (always 2) (W.history state.old.store.now) (W.history state.new.store.now)
        state.old.settings.now (Given Any) (OnObjects (GetObjectAcl name.now)) label known.Settled
        result }
    ensures stops { Stops alone 0 (W.history state.old.store.now) (W.history state.new.store.now) result }
    ensures bodiless { IfOk result GivesNoByte }
{
    let Some(list) = head_bucket(state, &name.bucket)? else {
        return Ok(Reply::Refused(Code::NoSuchBucket));
    };
    plan_object_acl_within(state, name, list)
}

/// The rest of GetObjectAcl, in a bucket that has this access control list.
fn plan_object_acl_within<W: Swift>(
    state: &mut Settled<'_, W>,
    name: &ObjectName,
    list: Acl,
) -> Result<Reply, PlanFault>
    ensures stays { Stays state.old state.new }
    ensures plans { (label : Label)
        → Plans (always 1) (W.history state.old.store.now) (W.history state.new.store.now)
        state.old.settings.now (Given (λ s. TellsBucket name.now.bucket s (Some list)))
        (OnObjects (GetObjectAcl name.now)) label known.Settled result }
    ensures stops { Stops alone 1 (W.history state.old.store.now) (W.history state.new.store.now) result }
    ensures bodiless { IfOk result GivesNoByte }
{
    let Some(_) = account_calls::head_object(state, &name.bucket, &name.key)? else {
        return Ok(Reply::Refused(Code::NoSuchKey));
    };
    Ok(Reply::OfObjects(ObjectsReply::AclOf(list)))
}

/// PutObjectAcl: HEAD of the bucket's container, then HEAD of the object's file. At most two calls, none of which commits: an object
/// has the list of its bucket, and another can't be set. The faults are those of the calls.
pub(crate) fn put_object_acl<W: Swift>(
    state: &mut Settled<'_, W>,
    set: &ObjectAcl,
) -> Result<Reply, PlanFault>
    ensures stays { Stays state.old state.new }
    ensures plans { (label : Label)
        → Plans (always 2) (W.history state.old.store.now) (W.history state.new.store.now)
        state.old.settings.now (Given Any) (OnObjects (PutObjectAcl set.now)) label known.Settled
        result }
    ensures stops { Stops alone 0 (W.history state.old.store.now) (W.history state.new.store.now)
        result }
    ensures bodiless { IfOk result GivesNoByte }
{
    let Some(list) = head_bucket(state, &set.bucket)? else {
        return Ok(Reply::Refused(Code::NoSuchBucket));
    };
    plan_put_object_acl_within(state, set, list)
}

/// The rest of PutObjectAcl, in a bucket that has this access control list.
fn plan_put_object_acl_within<W: Swift>(
    state: &mut Settled<'_, W>,
    set: &ObjectAcl,
    list: Acl,
) -> Result<Reply, PlanFault>
    ensures stays { Stays state.old state.new }
    ensures plans { (label : Label)
        → Plans (always 1) (W.history state.old.store.now) (W.history state.new.store.now)
        state.old.settings.now (Given (λ s. TellsBucket set.now.bucket s (Some list)))
        (OnObjects (PutObjectAcl set.now)) label known.Settled result }
    ensures stops { Stops alone 1 (W.history state.old.store.now) (W.history state.new.store.now)
        result }
    ensures bodiless { IfOk result GivesNoByte }
{
    let Some(_) = account_calls::head_object(state, &set.bucket, &set.key)? else {
        return Ok(Reply::Refused(Code::NoSuchKey));
    };
    if is_other_acl(Some(set.acl), list) {
        return Ok(Reply::Refused(Code::AccessControlListNotSupported));
    }
    Ok(Reply::Done)
}
