//! The plans of the operations on objects.
ghost use Rattle.std.specs.Prelude.{◌≡◌, ◌+◌, false, None, Some, IfOk};
ghost use Rattle.s3_names.specs.declared.acl.Acl.{Acl};
ghost use Rattle.s3_machine.specs.ETag.{body_etag};
ghost use Rattle.s3_machine.specs.Step.{is_other_acl};
ghost use Rattle.s3_machine.specs.Ops as ops;
ghost use Rattle.s3_machine.specs.declared.only_if.OnlyIf.{OnlyIf};
ghost use Rattle.s3_machine.specs.declared.operation.Label.{Label};
ghost use Rattle.s3_machine.specs.declared.operation.Op.TheVariants.{OnObjects};
ghost use Rattle.s3_machine.specs.declared.operation.ObjectsOp.TheVariants.{PutObject, HeadObject, DeleteObject};
ghost use Rattle.s3_machine.specs.declared.operation.Reply.TheVariants.{Gone};
ghost use Rattle.account_calls.specs.Answers.{condition_calls};
ghost use Rattle.account_calls.specs.Calls.{always, Any, Given, TellsBucket};
ghost use Rattle.account_calls.specs.Interpret.{IsShownHead, put_of};
ghost use Rattle.account_calls.specs.Lent.{Stays};
ghost use Rattle.account_calls.specs.declared.state.Known.TheVariants as known;
ghost use Rattle.account_calls.specs.Plan.{ended, Plans, IsOwnReply};
ghost use Rattle.account_calls.specs.Refusals.{Stops, Unrefused};
ghost use Rattle.account_calls.specs.Shows.{alone};
ghost use Rattle.account_calls.specs.Puts.{EnsuresIfDone, StandsIn};
ghost use Rattle.planner.specs.Objects.{MayWrite, headed_reply};
ghost use Rattle.planner.specs.Reading.{GivesNoByte};

use account_calls::{PlanFault, Settled, condition_refusal, head_bucket, stored_end};
use gate_base::{Bytes, Copying};
use s3_machine::{
    Code, Judged, Label, ObjectBytes, ObjectDeletion, ObjectHead, ObjectName, ObjectPut,
    ObjectRead, Reply, StoredBytes, copy_option, is_other_acl, judge, may_read,
};
use s3_names::Acl;
use std::alloc::Global;
use swift_calls::Swift;

/// PutObject: HEAD of the bucket's container, HEAD of the object's file where there is a condition, then PUT of the file, which
/// commits. At most two calls, and one more with a condition. The reply is made before the PUT, so that no memory is needed after it.
/// The faults are those of the calls. Where the reply is no refusal the object's file stands, over every observable store, consistent
/// or not.
pub(crate) fn put_object<W: Swift>(
    state: &mut Settled<'_, W>,
    put: ObjectPut,
    label: &Label,
) -> Result<Reply, PlanFault>
    ensures stays { Stays state.old state.new }
    ensures plans { Plans (always (2 + condition_calls put.only_if))
        (W.history state.old.store.now) (W.history state.new.store.now)
        state.old.settings.now (Given Any) (OnObjects (PutObject put))
        label.now known.Settled result }
    ensures stands { EnsuresIfDone (W.history state.new.store.now)
        (λ tree. StandsIn tree (put_of put.bucket put.key put.content.content_type put.content.meta
        put.content.body label.now.moment))
        result }
    ensures stops { Stops alone 0 (W.history state.old.store.now) (W.history state.new.store.now) result }
    ensures bodiless { IfOk result GivesNoByte }
{
    let Some(list) = head_bucket(state, &put.bucket)? else {
        return Ok(Reply::Refused(Code::NoSuchBucket));
    };
    plan_put_object_within(state, put, list, label)
}

/// The rest of PutObject, in a bucket that has this access control list.
fn plan_put_object_within<W: Swift>(
    state: &mut Settled<'_, W>,
    put: ObjectPut,
    list: Acl,
    label: &Label,
) -> Result<Reply, PlanFault>
    ensures stays { Stays state.old state.new }
    ensures plans { Plans (always (1 + condition_calls put.only_if))
        (W.history state.old.store.now) (W.history state.new.store.now)
        state.old.settings.now (Given (λ s. TellsBucket put.bucket s (Some list)))
        (OnObjects (PutObject put)) label.now known.Settled result }
    ensures stands { EnsuresIfDone (W.history state.new.store.now)
        (λ tree. StandsIn tree (put_of put.bucket put.key put.content.content_type put.content.meta
        put.content.body label.now.moment))
        result }
    ensures stops { Stops alone 1 (W.history state.old.store.now) (W.history state.new.store.now) result }
    ensures bodiless { IfOk result GivesNoByte }
{
    if is_other_acl(put.acl, list) {
        return Ok(Reply::Refused(Code::NotImplemented));
    }
    plan_put_object_if(state, put, label)
}

/// The rest of PutObject, with the access control list of its bucket: what its condition asks is the last that may refuse it.
fn plan_put_object_if<W: Swift>(
    state: &mut Settled<'_, W>,
    put: ObjectPut,
    label: &Label,
) -> Result<Reply, PlanFault>
    ensures stays { Stays state.old state.new }
    ensures plans { (list : Acl) → is_other_acl put.acl list ≡ false
        → Plans (always (1 + condition_calls put.only_if))
        (W.history state.old.store.now) (W.history state.new.store.now)
        state.old.settings.now (Given (λ s. TellsBucket put.bucket s (Some list)))
        (OnObjects (PutObject put)) label.now known.Settled result }
    ensures stands { EnsuresIfDone (W.history state.new.store.now)
        (λ tree. StandsIn tree (put_of put.bucket put.key put.content.content_type put.content.meta
        put.content.body label.now.moment))
        result }
    ensures stops { Stops alone 1 (W.history state.old.store.now) (W.history state.new.store.now) result }
    ensures bodiless { IfOk result GivesNoByte }
{
    let refused = condition_refusal(state, &put.bucket, &put.key, &put.only_if)?;
    let Some(code) = refused else {
        return plan_put_object_met(state, put, label);
    };
    Ok(Reply::Refused(code))
}

/// The rest of PutObject that nothing refuses any more.
fn plan_put_object_met<W: Swift>(
    state: &mut Settled<'_, W>,
    put: ObjectPut,
    label: &Label,
) -> Result<Reply, PlanFault>
    ensures stays { Stays state.old state.new }
    ensures plans { (list : Acl) → is_other_acl put.acl list ≡ false
        → Plans (always 1) (W.history state.old.store.now) (W.history state.new.store.now)
        state.old.settings.now (Given (MayWrite put.bucket put.key list put.only_if None))
        (OnObjects (PutObject put)) label.now known.Settled result }
    ensures stands { EnsuresIfDone (W.history state.new.store.now)
        (λ tree. StandsIn tree (put_of put.bucket put.key put.content.content_type put.content.meta
        put.content.body label.now.moment))
        result }
    ensures unrefused { Unrefused result }
    ensures bodiless { IfOk result GivesNoByte }
{
    let etag = put.content.get().body.etag();
    plan_put_object_bytes(state, put, &etag, label)
}

/// The PUT of PutObject, of a body that has this ETag.
fn plan_put_object_bytes<W: Swift>(
    state: &mut Settled<'_, W>,
    put: ObjectPut,
    etag: &[u8; 32],
    label: &Label,
) -> Result<Reply, PlanFault>
    requires etag { etag.now ≡ body_etag put.content.body }
    ensures stays { Stays state.old state.new }
    ensures plans { (list : Acl) → is_other_acl put.acl list ≡ false
        → Plans (always 1) (W.history state.old.store.now) (W.history state.new.store.now)
        state.old.settings.now (Given (MayWrite put.bucket put.key list put.only_if None))
        (OnObjects (PutObject put)) label.now known.Settled result }
    ensures stands { EnsuresIfDone (W.history state.new.store.now)
        (λ tree. StandsIn tree (put_of put.bucket put.key put.content.content_type put.content.meta
        put.content.body label.now.moment))
        result }
    ensures unrefused { Unrefused result }
    ensures bodiless { IfOk result GivesNoByte }
{
    let alloc = state.alloc;
    let text = Bytes::from_slice(alloc, etag)?;
    let checksum = copy_option(&put.checksum)?;
    let stored = StoredBytes {
        etag: text,
        checksum,
    };
    stored_end(account_calls::put_object(state, put, etag, label), stored)
}

/// HeadObject: HEAD of the bucket's container, then HEAD of the object's file. At most two calls, none of which commits.
/// The faults are those of the calls.
pub(crate) fn head_object<W: Swift>(
    state: &mut Settled<'_, W>,
    read: ObjectRead,
    label: &Label,
) -> Result<Reply, PlanFault>
    requires planned { read.part ≡ None }
    ensures stays { Stays state.old state.new }
    ensures plans { Plans (always 2) (W.history state.old.store.now) (W.history state.new.store.now)
        state.old.settings.now (Given Any) (OnObjects (HeadObject read))
        label.now known.Settled result }
    ensures stops { Stops alone 0 (W.history state.old.store.now) (W.history state.new.store.now) result }
    ensures bodiless { IfOk result GivesNoByte }
{
    let Some(list) = head_bucket(state, &read.bucket)? else {
        return Ok(Reply::Refused(Code::NoSuchBucket));
    };
    plan_head_object_within(state, read, list, label)
}

/// The rest of HeadObject, in a bucket that has this access control list.
fn plan_head_object_within<W: Swift>(
    state: &mut Settled<'_, W>,
    read: ObjectRead,
    list: Acl,
    label: &Label,
) -> Result<Reply, PlanFault>
    requires planned { read.part ≡ None }
    ensures stays { Stays state.old state.new }
    ensures plans { Plans (always 1) (W.history state.old.store.now) (W.history state.new.store.now)
        state.old.settings.now (Given (λ s. TellsBucket read.bucket s (Some list)))
        (OnObjects (HeadObject read)) label.now known.Settled result }
    ensures stops { Stops alone 1 (W.history state.old.store.now) (W.history state.new.store.now) result }
    ensures bodiless { IfOk result GivesNoByte }
{
    let alloc = state.alloc;
    if !may_read(label.caller, list) {
        return Ok(Reply::Refused(Code::AccessDenied));
    }
    let Some(head) = account_calls::head_object(state, &read.bucket, &read.key)? else {
        return Ok(Reply::Refused(Code::NoSuchKey));
    };
    Ok(end_head_object_plan(alloc, read, head))
}

/// The reply to HeadObject for an object with this head, where no part is asked for: what GetObject is answered, without the bytes.
fn end_head_object_plan(alloc: Global, read: ObjectRead, head: ObjectHead) -> Reply
    requires shown { IsShownHead (Some head) }
    ensures own { IsOwnReply result }
    ensures reply { result ≡ headed_reply read.range read.conditions read.shown head }
    ensures bodiless { GivesNoByte result }
{
    match judge(read.range, &read.conditions, &head) {
        Judged::PreconditionFailed => Reply::Refused(Code::PreconditionFailed),
        Judged::NotModified => Reply::NotModified(head),
        Judged::InvalidRange => Reply::Refused(Code::InvalidRange(Some(head.size))),
        Judged::Bytes { span, partial } => Reply::Object(ObjectBytes {
            head,
            from: span.from,
            length: span.length,
            partial,
            body: Bytes::new(alloc),
            shown: read.shown,
            parts: None,
        }),
    }
}

/// DeleteObject: HEAD of the bucket's container, HEAD of the object's file where there is a condition, then DELETE of the file, which
/// commits. At most two calls, and one more with a condition. The faults are those of the calls.
pub(crate) fn delete_object<W: Swift>(
    state: &mut Settled<'_, W>,
    deletion: ObjectDeletion,
) -> Result<Reply, PlanFault>
    ensures stays { Stays state.old state.new }
    ensures plans { (label : Label)
        → Plans (always (2 + condition_calls deletion.only_if)) (W.history state.old.store.now)
        (W.history state.new.store.now) state.old.settings.now (Given Any)
        (OnObjects (DeleteObject deletion)) label known.Settled result }
    ensures stops { Stops alone 0 (W.history state.old.store.now) (W.history state.new.store.now) result }
    ensures bodiless { IfOk result GivesNoByte }
{
    let Some(list) = head_bucket(state, &deletion.bucket)? else {
        return Ok(Reply::Refused(Code::NoSuchBucket));
    };
    plan_delete_object_within(state, deletion)
}

/// The rest of DeleteObject, in a bucket that is there, whatever list it has: what its condition asks is the last that may refuse it.
fn plan_delete_object_within<W: Swift>(
    state: &mut Settled<'_, W>,
    deletion: ObjectDeletion,
) -> Result<Reply, PlanFault>
    ensures stays { Stays state.old state.new }
    ensures plans { (list : Acl) (label : Label)
        → Plans (always (1 + condition_calls deletion.only_if)) (W.history state.old.store.now)
        (W.history state.new.store.now) state.old.settings.now
        (Given (λ s. TellsBucket deletion.bucket s (Some list))) (OnObjects (DeleteObject deletion))
        label known.Settled result }
    ensures stops { Stops alone 1 (W.history state.old.store.now) (W.history state.new.store.now) result }
    ensures bodiless { IfOk result GivesNoByte }
{
    let refused = condition_refusal(state, &deletion.bucket, &deletion.key, &deletion.only_if)?;
    let Some(code) = refused else {
        let name = ObjectName {
            bucket: deletion.bucket,
            key: deletion.key,
        };
        return plan_delete_object_met(state, name);
    };
    Ok(Reply::Refused(code))
}

/// The rest of DeleteObject that nothing refuses any more.
fn plan_delete_object_met<W: Swift>(
    state: &mut Settled<'_, W>,
    name: ObjectName,
) -> Result<Reply, PlanFault>
    ensures stays { Stays state.old state.new }
    ensures plans { (list : Acl) (only_if : OnlyIf) (label : Label)
        → Plans (always 1) (W.history state.old.store.now) (W.history state.new.store.now)
        state.old.settings.now (Given (MayWrite name.bucket name.key list only_if None))
        (ops.DeleteObject name.bucket name.key only_if) label known.Settled result }
    ensures unrefused { Unrefused result }
    ensures bodiless { IfOk result GivesNoByte }
{
    end_delete_object_plan(account_calls::delete_object(state, name))
}

/// The end of DeleteObject after its last call.
fn end_delete_object_plan(end: Result<(), PlanFault>) -> Result<Reply, PlanFault>
    ensures { result ≡ ended end (λ done. Gone) }
{
    match end {
        Ok(()) => Ok(Reply::Gone),
        Err(fault) => Err(fault),
    }
}
