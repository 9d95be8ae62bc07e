//! The plan of DeleteObjects.
ghost use Rattle.std.specs.Prelude.{◌+◌, length, IfOk};
ghost use Rattle.s3_machine.specs.declared.operation.Label.{Label};
ghost use Rattle.s3_machine.specs.declared.operation.Op.TheVariants.{OnObjects};
ghost use Rattle.s3_machine.specs.declared.operation.ObjectsOp.TheVariants.{DeleteObjects};
ghost use Rattle.account_calls.specs.Calls.{always, Any, Becomes, Changes, Given, drops_object};
ghost use Rattle.account_calls.specs.declared.state.Known.TheVariants as known;
ghost use Rattle.account_calls.specs.Lent.{Stays};
ghost use Rattle.account_calls.specs.Refusals.{Stops};
ghost use Rattle.account_calls.specs.Shows.{alone};
ghost use Rattle.account_calls.specs.Plan.{Plans};
ghost use Rattle.planner.specs.Deletions.{Deletes};
ghost use Rattle.planner.specs.Reading.{GivesNoByte};

use account_calls::{PlanFault, Settled, delete_object, head_bucket};
use gate_base::Copying;
use s3_machine::{Code, DeletedKeys, ObjectName, ObjectsDeletion, ObjectsReply, Reply};
use s3_names::{BucketName, Key};
use swift_calls::Swift;

/// DeleteObjects: HEAD of the bucket's container, and then DELETE of the file of each key, in the order of the list. At most one
/// call more than there are keys. The reply takes no memory. The faults are those of the calls; after one the first of the keys
/// may be gone.
pub(crate) fn delete_objects<W: Swift>(
    state: &mut Settled<'_, W>,
    many: ObjectsDeletion,
) -> Result<Reply, PlanFault>
    ensures stays { Stays state.old state.new }
    ensures plans { (label : Label)
        → Plans (always (1 + length many.keys)) (W.history state.old.store.now)
        (W.history state.new.store.now) state.old.settings.now (Given Any)
        (OnObjects (DeleteObjects many)) label known.Settled result }
    ensures stops { Stops alone 0 (W.history state.old.store.now) (W.history state.new.store.now)
        result }
    ensures bodiless { IfOk result GivesNoByte }
{
    let Some(list) = head_bucket(state, &many.bucket)? else {
        return Ok(Reply::Refused(Code::NoSuchBucket));
    };
    delete_keys(state, &many.bucket, many.keys.get().as_slice())?;
    Ok(Reply::OfObjects(ObjectsReply::Deleted(DeletedKeys {
        keys: many.keys.into_value(),
        quiet: many.quiet,
    })))
}

/// Deletes the objects of these keys, one after another, from a bucket that is there. At most one call for each. A key under
/// which nothing stands, or that was deleted before, is done as any other. After a fault the first of the keys may be gone, and
/// no later one is.
fn delete_keys<W: Swift>(
    state: &mut Settled<'_, W>,
    bucket: &BucketName,
    keys: &[Key],
) -> Result<(), PlanFault>
    ensures stays { Stays state.old state.new }
    ensures deletes { Deletes bucket.now keys.now (W.history state.old.store.now)
        (W.history state.new.store.now) state.old.settings.now result }
{
    for key in keys {
        delete_key(state, bucket, key)?;
    }
    Ok(())
}

/// Deletes the object of a key ([`account_calls::delete_object`]). Bucket and key are copied for the call.
fn delete_key<W: Swift>(
    state: &mut Settled<'_, W>,
    bucket: &BucketName,
    key: &Key,
) -> Result<(), PlanFault>
    ensures stays { Stays state.old state.new }
    ensures changes { Changes (always 1) (W.history state.old.store.now)
        (W.history state.new.store.now) (Given Any) (Becomes (drops_object bucket.now key.now))
        result }
{
    let bucket = bucket.copy()?;
    let key = key.copy()?;
    delete_object(state, ObjectName { bucket, key })
}
