//! The plan of a setting that nothing sets.
ghost use Rattle.std.specs.Prelude.{◌≡◌, ◌+◌, None, Some, cond, is_some, IfOk};
ghost use Rattle.s3_names.specs.declared.acl.Acl.{Acl};
ghost use Rattle.s3_machine.specs.Ops as ops;
ghost use Rattle.s3_machine.specs.Step.{unset_reply};
ghost use Rattle.s3_machine.specs.declared.operation.Label.{Label};
ghost use Rattle.s3_machine.specs.declared.operation.Op.TheVariants.{OnObjects};
ghost use Rattle.s3_machine.specs.declared.operation.ObjectsOp.TheVariants.{GetSetting};
ghost use Rattle.account_calls.specs.Calls.{always, Any, Given, TellsBucket};
ghost use Rattle.account_calls.specs.Lent.{Stays};
ghost use Rattle.account_calls.specs.declared.state.Known.TheVariants as known;
ghost use Rattle.account_calls.specs.Plan.{IsOwnReply, Plans};
ghost use Rattle.account_calls.specs.Refusals.{Stops};
ghost use Rattle.account_calls.specs.Shows.{alone};
ghost use Rattle.planner.specs.Reading.{GivesNoByte};

use account_calls::{PlanFault, Settled, head_bucket};
use s3_machine::{Code, ObjectsReply, Reply, SettingRead, Unset};
use s3_names::{BucketName, Key};
use swift_calls::Swift;

/// GetSetting: HEAD of the bucket's container, and of an object's setting then HEAD of its file. One call, or at most two, none of
/// which commits. The faults are those of the calls.
pub(crate) fn get_setting<W: Swift>(
    state: &mut Settled<'_, W>,
    read: SettingRead,
) -> Result<Reply, PlanFault>
    ensures stays { Stays state.old state.new }
    ensures plans { (label : Label)
        → Plans (always (1 + cond (is_some read.key) 1 0)) (W.history state.old.store.now)
        (W.history state.new.store.now) state.old.settings.now (Given Any)
        (OnObjects (GetSetting read)) label known.Settled result }
    ensures stops { Stops alone 0 (W.history state.old.store.now) (W.history state.new.store.now)
        result }
    ensures bodiless { IfOk result GivesNoByte }
{
    let key = read.key;
    let unset = read.unset;
    plan_setting(state, &read.bucket, key, unset)
}

/// The same, by the parts of what is asked for.
fn plan_setting<W: Swift>(
    state: &mut Settled<'_, W>,
    bucket: &BucketName,
    key: Option<Key>,
    unset: Unset,
) -> Result<Reply, PlanFault>
    ensures stays { Stays state.old state.new }
    ensures plans { (label : Label)
        → Plans (always (1 + cond (is_some key) 1 0)) (W.history state.old.store.now)
        (W.history state.new.store.now) state.old.settings.now (Given Any)
        (ops.GetSetting bucket.now key unset) label known.Settled result }
    ensures stops { Stops alone 0 (W.history state.old.store.now) (W.history state.new.store.now)
        result }
    ensures bodiless { IfOk result GivesNoByte }
{
    match key {
        None => plan_bucket_setting(state, bucket, unset),
        Some(key) => plan_object_setting(state, bucket, &key, unset),
    }
}

/// GetSetting of a bucket.
fn plan_bucket_setting<W: Swift>(
    state: &mut Settled<'_, W>,
    bucket: &BucketName,
    unset: Unset,
) -> Result<Reply, PlanFault>
    ensures stays { Stays state.old state.new }
    ensures plans { (label : Label)
        → Plans (always 1) (W.history state.old.store.now) (W.history state.new.store.now)
        state.old.settings.now (Given Any) (ops.GetSetting bucket.now None unset) label
        known.Settled result }
    ensures stops { Stops alone 0 (W.history state.old.store.now) (W.history state.new.store.now)
        result }
    ensures bodiless { IfOk result GivesNoByte }
{
    let Some(list) = head_bucket(state, bucket)? else {
        return Ok(Reply::Refused(Code::NoSuchBucket));
    };
    Ok(plan_unset_reply(unset))
}

/// GetSetting of an object.
fn plan_object_setting<W: Swift>(
    state: &mut Settled<'_, W>,
    bucket: &BucketName,
    key: &Key,
    unset: Unset,
) -> Result<Reply, PlanFault>
    ensures stays { Stays state.old state.new }
    ensures plans { (label : Label)
        → Plans (always 2) (W.history state.old.store.now) (W.history state.new.store.now)
        state.old.settings.now (Given Any) (ops.GetSetting bucket.now (Some key.now) unset) label
        known.Settled result }
    ensures stops { Stops alone 0 (W.history state.old.store.now) (W.history state.new.store.now)
        result }
    ensures bodiless { IfOk result GivesNoByte }
{
    let Some(list) = head_bucket(state, bucket)? else {
        return Ok(Reply::Refused(Code::NoSuchBucket));
    };
    plan_object_setting_within(state, bucket, key, unset)
}

/// The rest of it, in a bucket that is there, whatever list it has.
fn plan_object_setting_within<W: Swift>(
    state: &mut Settled<'_, W>,
    bucket: &BucketName,
    key: &Key,
    unset: Unset,
) -> Result<Reply, PlanFault>
    ensures stays { Stays state.old state.new }
    ensures plans { (list : Acl) (label : Label)
        → Plans (always 1) (W.history state.old.store.now) (W.history state.new.store.now)
        state.old.settings.now (Given (λ s. TellsBucket bucket.now s (Some list)))
        (ops.GetSetting bucket.now (Some key.now) unset) label known.Settled result }
    ensures stops { Stops alone 1 (W.history state.old.store.now) (W.history state.new.store.now)
        result }
    ensures bodiless { IfOk result GivesNoByte }
{
    let Some(_) = account_calls::head_object(state, bucket, key)? else {
        return Ok(Reply::Refused(Code::NoSuchKey));
    };
    Ok(plan_unset_reply(unset))
}

/// What is answered of a setting that nothing sets.
fn plan_unset_reply(unset: Unset) -> Reply
    ensures reply { result ≡ unset_reply unset }
    ensures own { IsOwnReply result }
    ensures bodiless { GivesNoByte result }
{
    match unset {
        Unset::Named(code) => Reply::Refused(Code::NotSet(code)),
        Unset::Empty(page) => Reply::OfObjects(ObjectsReply::Setting(page)),
    }
}
