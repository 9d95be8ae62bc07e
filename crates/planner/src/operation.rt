//! The answer to each operation on buckets and objects, but for GetObject.
ghost use Rattle.std.specs.Prelude.{IfOk, IsTrue};
ghost use Rattle.s3_machine.specs.declared.operation.Op.TheVariants.{OnObjects};
ghost use Rattle.s3_machine.specs.Parts.{AsksNoPart};
ghost use Rattle.swift_calls.specs.History.{present};
ghost use Rattle.account_calls.specs.Answers.{most_calls};
ghost use Rattle.account_calls.specs.declared.state.Known.TheVariants as known;
ghost use Rattle.account_calls.specs.Calls.{Any, Given};
ghost use Rattle.account_calls.specs.Lent.{Stays};
ghost use Rattle.account_calls.specs.Plan.{Answered, Plans};
ghost use Rattle.account_calls.specs.Refusals.{shows, Stops};
ghost use Rattle.account_calls.specs.Puts.{EnsuresIfDone, IfDone};
ghost use Rattle.planner.specs.Objects.{ObjectStands};
ghost use Rattle.planner.specs.Reading.{GivesNoByte};

use crate::acls::{get_bucket_acl, get_object_acl, put_bucket_acl, put_object_acl};
use crate::buckets::{create_bucket, delete_bucket, get_location, list_buckets, plan_head_bucket};
use crate::deletions::delete_objects;
use crate::listing::list_objects;
use crate::objects::{delete_object, head_object, put_object};
use crate::settings::get_setting;
use account_calls::{PlanFault, Settled, reply_of};
use s3_machine::{Label, ObjectsOp, Reply};
use swift_calls::Swift;

/// Answers one operation of Amazon S3 on buckets and objects, of any but GetObject ([`crate::find_object`]). The reply is the
/// service's own, and then the state is as its step leaves it. Or it is ServiceUnavailable, only where the store's count of faults
/// rose in this call: the last call failed, no earlier one did, and the state is the old one or the step's; of a deletion of many
/// keys the first of them are gone, or none. Or it is `Memory`, where memory ran out, with the same states. Or it is
/// InconsistentStore, never over an observable consistent account. A call that failed is the last one. How many there are is
/// bounded by the operation, and where the reply is a refusal by the call that shows it. No part of an object is asked for.
pub fn answer<W: Swift>(state: &mut Settled<'_, W>, op: ObjectsOp, label: &Label) -> Reply
    requires planned { AsksNoPart (OnObjects op) }
    ensures stays { Stays state.old state.new }

    // The calls amount to the operation, with at most one commit, but for a deletion of many keys, step by step of its keys.
    ensures answered { Answered (most_calls (OnObjects op)
        (present (W.history state.old.store.now)))
        (W.history state.old.store.now) (W.history state.new.store.now) state.old.settings.now
        (OnObjects op)
        label.now known.Settled result }

    // Over every store the reply gives no byte of an object: what HeadObject is answered is its head alone.
    ensures bodiless { GivesNoByte result }

    // What was put stands, over every observable store, consistent or not.
    ensures stands { IsTrue (W.history state.new.store.now).observable
        → IfDone result (ObjectStands (OnObjects op) label.now
        (present (W.history state.new.store.now))) }
{
    reply_of(plan(state, op, label))
}

/// Makes the calls of an operation's plan.
fn plan<W: Swift>(
    state: &mut Settled<'_, W>,
    op: ObjectsOp,
    label: &Label,
) -> Result<Reply, PlanFault>
    requires planned { AsksNoPart (OnObjects op) }
    ensures stays { Stays state.old state.new }
    ensures plans { Plans (most_calls (OnObjects op) (present (W.history state.old.store.now)))
        (W.history state.old.store.now) (W.history state.new.store.now) state.old.settings.now
        (Given Any) (OnObjects op) label.now known.Settled result }
    ensures stands { EnsuresIfDone (W.history state.new.store.now) (ObjectStands (OnObjects op)
        label.now) result }
    ensures stops { Stops (shows (OnObjects op)) 0 (W.history state.old.store.now)
        (W.history state.new.store.now) result }
    ensures bodiless { IfOk result GivesNoByte }
{
    match op {
        ObjectsOp::ListBuckets(asked) => list_buckets(state, asked),
        ObjectsOp::CreateBucket(made) => create_bucket(state, made, label),
        ObjectsOp::DeleteBucket(bucket) => delete_bucket(state, bucket),
        ObjectsOp::HeadBucket(bucket) => plan_head_bucket(state, &bucket, label),
        ObjectsOp::GetLocation(bucket) => get_location(state, &bucket),
        ObjectsOp::GetBucketAcl(bucket) => get_bucket_acl(state, &bucket),
        ObjectsOp::PutBucketAcl(set) => put_bucket_acl(state, set),
        ObjectsOp::ListObjects(wanted) => list_objects(state, wanted, label),
        ObjectsOp::PutObject(put) => put_object(state, put, label),
        ObjectsOp::HeadObject(read) => head_object(state, read, label),
        ObjectsOp::DeleteObject(deletion) => delete_object(state, deletion),
        ObjectsOp::DeleteObjects(many) => delete_objects(state, many),
        ObjectsOp::GetObjectAcl(name) => get_object_acl(state, &name),
        ObjectsOp::PutObjectAcl(set) => put_object_acl(state, &set),
        ObjectsOp::GetSetting(read) => get_setting(state, read),
    }
}
