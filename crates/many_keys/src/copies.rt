//! The plan of CopyObject.
ghost use Rattle.std.specs.Prelude.{◌≡◌, ◌≤◌, ◌<◌, ◌+◌, ◌*◌, ℕ, false, true, length, List, Option};
ghost use Rattle.s3_names.specs.declared.acl.Acl.{Acl};
ghost use Rattle.s3_machine.specs.Conditions.{no_conditions};
ghost use Rattle.s3_machine.specs.Copies.{is_onto_itself};
ghost use Rattle.s3_machine.specs.Step.{is_other_acl};
ghost use Rattle.s3_machine.specs.Ops as ops;
ghost use Rattle.s3_machine.specs.declared.only_if.OnlyIf.TheVariants.{Always};
ghost use Rattle.s3_machine.specs.declared.operation.Op.TheVariants.{OnCopies};
ghost use Rattle.s3_machine.specs.declared.operation.CopiesOp.TheVariants.{CopyObject};
ghost use Rattle.s3_machine.specs.Replies.{Copied};
ghost use Rattle.swift_calls.specs.History.{present};
ghost use Rattle.account_calls.specs.Answers.{condition_calls, copy_calls};
ghost use Rattle.account_calls.specs.Calls.{always, by_account, Any, Given, TellsBucket};
ghost use Rattle.account_calls.specs.Lent.{Stays};
ghost use Rattle.account_calls.specs.Plan.{ended, Plans};
ghost use Rattle.account_calls.specs.Refusals.{Stops, Unrefused};
ghost use Rattle.account_calls.specs.Shows.{with_source};
ghost use Rattle.account_calls.specs.Puts.{EnsuresIfDone};
ghost use Rattle.account_calls.specs.declared.state.Known.TheVariants as known;
ghost use Rattle.many_keys.specs.Copies.{CopiesStored, IsFoundSource, IsProperHead, IsReadSource, TellsCopied, is_body_to_copy};
ghost use Rattle.many_keys.specs.ObjectCopy.{CopiesSource, IsBetweenBuckets, IsOfHead, IsPutAs, calls_to_copy, is_own_copy, object_copied};
ghost use Rattle.many_keys.specs.Replies.{AnswersCopy};
ghost use Rattle.many_keys.specs.OwnSegments.{StandsCopy};

use crate::listed::copy_source_of_parts;
use crate::object_copy::{CopyIntoBucket, CopyTo};
use crate::source::{content_of, get_source_to_copy, head_source};
use account_calls::{PlanFault, Settled, condition_refusal, head_bucket, put_object};
use gate_base::Bytes;
use s3_machine::{
    Body, Code, Conditions, Content, CopiedBytes, Label, ObjectCopy, ObjectHead, ObjectPut, OnlyIf,
    Proper, Reply, is_onto_itself, is_other_acl, may_be_copied,
};
use swift_calls::Swift;

/// CopyObject: HEAD of the bucket's container and of the source's, HEAD of the source's file, HEAD of the key's own file where there
/// is a condition on it, and then the calls that copy the source by how it was put. A source that was put in one piece takes two
/// more, GET of its file and PUT of the copy's, which commits. The faults are those of the calls.
pub(crate) fn copy_object<W: Swift>(
    state: &mut Settled<'_, W>,
    copy: ObjectCopy,
    label: &Label,
) -> Result<Reply, PlanFault>
    ensures stays { Stays state.old state.new }
    ensures plans { Plans (by_account
        (copy_calls (5 + condition_calls copy.only_if) (present (W.history state.old.store.now))
        copy.bucket
        copy.from_bucket copy.from_key))
        (W.history state.old.store.now) (W.history state.new.store.now) state.old.settings.now
        (Given Any) (OnCopies (CopyObject copy)) label.now known.Settled result }
    ensures stands { EnsuresIfDone (W.history state.new.store.now)
        (StandsCopy copy.bucket copy.key label.now.moment) result }
    ensures stops { Stops (with_source (condition_calls copy.only_if)) 0
        (W.history state.old.store.now)
        (W.history state.new.store.now) result }
    ensures kind { AnswersCopy result }
    ensures source { CopiesStored (W.history state.old.store.now) copy.from_bucket copy.from_key
        result }
{
    let Some(list) = head_bucket(state, &copy.bucket)? else {
        return Ok(Reply::Refused(Code::NoSuchBucket));
    };
    let to = CopyTo {
        bucket: copy.bucket,
        key: copy.key,
        replaced: copy.replaced,
        label: *label,
    };
    let into = CopyIntoBucket {
        to,
        acl: copy.acl,
        list,
        from_bucket: copy.from_bucket,
        from_key: copy.from_key,
    };
    copy_within(state, into, &copy.conditions, &copy.only_if)
}

/// The rest of CopyObject, into a bucket that has this access control list.
fn copy_within<W: Swift>(
    state: &mut Settled<'_, W>,
    copy: CopyIntoBucket,
    conditions: &Conditions,
    only_if: &OnlyIf,
) -> Result<Reply, PlanFault>
    ensures stays { Stays state.old state.new }
    ensures plans { Plans (by_account
        (calls_to_copy (4 + condition_calls only_if.now) (present (W.history state.old.store.now))
        copy))
        (W.history state.old.store.now) (W.history state.new.store.now) state.old.settings.now
        (Given (λ s. TellsBucket copy.to.bucket s (Some copy.list)))
        (object_copied copy copy.acl conditions.now only_if.now) copy.to.label known.Settled
        result }
    ensures stands { EnsuresIfDone (W.history state.new.store.now) (IsPutAs copy.to) result }
    ensures stops { Stops (with_source (condition_calls only_if.now)) 1
        (W.history state.old.store.now)
        (W.history state.new.store.now) result }
    ensures kind { AnswersCopy result }
    ensures source { CopiesSource (W.history state.old.store.now) copy result }
{
    if is_other_acl(copy.acl, copy.list) {
        return Ok(Reply::Refused(Code::NotImplemented));
    }
    copy_with_acl(state, copy, conditions, only_if)
}

/// The rest of CopyObject, with the access control list of its bucket.
fn copy_with_acl<W: Swift>(
    state: &mut Settled<'_, W>,
    copy: CopyIntoBucket,
    conditions: &Conditions,
    only_if: &OnlyIf,
) -> Result<Reply, PlanFault>
    requires acl { is_other_acl copy.acl copy.list ≡ false }
    ensures stays { Stays state.old state.new }
    ensures plans { Plans (by_account
        (calls_to_copy (4 + condition_calls only_if.now) (present (W.history state.old.store.now))
        copy))
        (W.history state.old.store.now) (W.history state.new.store.now) state.old.settings.now
        (Given (λ s. TellsBucket copy.to.bucket s (Some copy.list)))
        (object_copied copy copy.acl conditions.now only_if.now) copy.to.label known.Settled
        result }
    ensures stands { EnsuresIfDone (W.history state.new.store.now) (IsPutAs copy.to) result }
    ensures stops { Stops (with_source (condition_calls only_if.now)) 1
        (W.history state.old.store.now)
        (W.history state.new.store.now) result }
    ensures kind { AnswersCopy result }
    ensures source { CopiesSource (W.history state.old.store.now) copy result }
{
    let Some(from) = head_bucket(state, &copy.from_bucket)? else {
        return Ok(Reply::Refused(Code::NoSuchBucket));
    };
    copy_from(state, copy, conditions, only_if)
}

/// The rest of CopyObject, from a bucket that is there.
fn copy_from<W: Swift>(
    state: &mut Settled<'_, W>,
    copy: CopyIntoBucket,
    conditions: &Conditions,
    only_if: &OnlyIf,
) -> Result<Reply, PlanFault>
    requires acl { is_other_acl copy.acl copy.list ≡ false }
    ensures stays { Stays state.old state.new }
    ensures plans { Plans (by_account
        (calls_to_copy (3 + condition_calls only_if.now) (present (W.history state.old.store.now))
        copy))
        (W.history state.old.store.now) (W.history state.new.store.now) state.old.settings.now
        (Given (IsBetweenBuckets copy))
        (object_copied copy copy.acl conditions.now only_if.now) copy.to.label known.Settled
        result }
    ensures stands { EnsuresIfDone (W.history state.new.store.now) (IsPutAs copy.to) result }
    ensures stops { Stops (with_source (condition_calls only_if.now)) 2
        (W.history state.old.store.now)
        (W.history state.new.store.now) result }
    ensures kind { AnswersCopy result }
    ensures source { CopiesSource (W.history state.old.store.now) copy result }
{
    let Some(head) = head_source(state, &copy.from_bucket, &copy.from_key)? else {
        return Ok(Reply::Refused(Code::NoSuchKey));
    };
    copy_under_conditions(state, copy, conditions, only_if, head)
}

/// The rest of CopyObject, of a source that has this head: PreconditionFailed, where a GET under the conditions wouldn't give its
/// bytes. The copy of any other is the copy without conditions.
fn copy_under_conditions<W: Swift>(
    state: &mut Settled<'_, W>,
    copy: CopyIntoBucket,
    conditions: &Conditions,
    only_if: &OnlyIf,
    head: ObjectHead,
) -> Result<Reply, PlanFault>
    requires acl { is_other_acl copy.acl copy.list ≡ false }
    requires head { IsProperHead head }
    ensures stays { Stays state.old state.new }
    ensures plans { Plans (by_account
        (calls_to_copy (2 + condition_calls only_if.now) (present (W.history state.old.store.now))
        copy))
        (W.history state.old.store.now) (W.history state.new.store.now) state.old.settings.now
        (Given (IsOfHead copy head))
        (object_copied copy copy.acl conditions.now only_if.now) copy.to.label known.Settled
        result }
    ensures stands { EnsuresIfDone (W.history state.new.store.now) (IsPutAs copy.to) result }
    ensures stops { Stops (with_source (condition_calls only_if.now)) 3
        (W.history state.old.store.now)
        (W.history state.new.store.now) result }
    ensures kind { AnswersCopy result }
    ensures source { CopiesSource (W.history state.old.store.now) copy result }
{
    if !may_be_copied(conditions, &head) {
        return Ok(Reply::Refused(Code::PreconditionFailed));
    }
    copy_found(state, copy, only_if, head)
}

/// The rest of CopyObject without conditions on its source, which has this head.
fn copy_found<W: Swift>(
    state: &mut Settled<'_, W>,
    copy: CopyIntoBucket,
    only_if: &OnlyIf,
    head: ObjectHead,
) -> Result<Reply, PlanFault>
    requires acl { is_other_acl copy.acl copy.list ≡ false }
    requires head { IsProperHead head }
    ensures stays { Stays state.old state.new }
    ensures plans { Plans (by_account
        (calls_to_copy (2 + condition_calls only_if.now) (present (W.history state.old.store.now))
        copy))
        (W.history state.old.store.now) (W.history state.new.store.now) state.old.settings.now
        (Given (IsOfHead copy head))
        (object_copied copy copy.acl no_conditions only_if.now) copy.to.label known.Settled result }
    ensures stands { EnsuresIfDone (W.history state.new.store.now) (IsPutAs copy.to) result }
    ensures stops { Stops (with_source (condition_calls only_if.now)) 3
        (W.history state.old.store.now)
        (W.history state.new.store.now) result }
    ensures kind { AnswersCopy result }
    ensures source { CopiesSource (W.history state.old.store.now) copy result }
{
    if is_onto_itself(
        &copy.to.bucket,
        &copy.to.key,
        &copy.from_bucket,
        &copy.from_key,
        &copy.to.replaced,
    ) {
        return Ok(Reply::Refused(Code::InvalidRequest));
    }
    copy_if(state, copy, only_if, head)
}

/// The rest of CopyObject, of a source that may be copied: what the condition on its own key asks is the last that may refuse it. It is
/// asked before a byte of the source is read.
fn copy_if<W: Swift>(
    state: &mut Settled<'_, W>,
    copy: CopyIntoBucket,
    only_if: &OnlyIf,
    head: ObjectHead,
) -> Result<Reply, PlanFault>
    requires acl { is_other_acl copy.acl copy.list ≡ false }
    requires head { IsProperHead head }
    requires other { is_own_copy copy ≡ false }
    ensures stays { Stays state.old state.new }
    ensures plans { Plans (by_account
        (calls_to_copy (2 + condition_calls only_if.now) (present (W.history state.old.store.now))
        copy))
        (W.history state.old.store.now) (W.history state.new.store.now) state.old.settings.now
        (Given (IsOfHead copy head))
        (object_copied copy copy.acl no_conditions only_if.now) copy.to.label known.Settled result }
    ensures stands { EnsuresIfDone (W.history state.new.store.now) (IsPutAs copy.to) result }
    ensures stops { Stops (with_source (condition_calls only_if.now)) 3
        (W.history state.old.store.now)
        (W.history state.new.store.now) result }
    ensures kind { AnswersCopy result }
    ensures source { CopiesSource (W.history state.old.store.now) copy result }
{
    let refused = condition_refusal(state, &copy.to.bucket, &copy.to.key, only_if)?;
    let Some(code) = refused else {
        return copy_met(state, copy, head);
    };
    Ok(Reply::Refused(code))
}

/// The rest of CopyObject that nothing refuses any more, of a source that has this head: an ETag of more than 32 bytes is one of
/// parts.
fn copy_met<W: Swift>(
    state: &mut Settled<'_, W>,
    copy: CopyIntoBucket,
    head: ObjectHead,
) -> Result<Reply, PlanFault>
    requires acl { is_other_acl copy.acl copy.list ≡ false }
    requires head { IsProperHead head }
    requires other { is_own_copy copy ≡ false }
    ensures stays { Stays state.old state.new }
    ensures plans { Plans (by_account
        (calls_to_copy 2 (present (W.history state.old.store.now)) copy))
        (W.history state.old.store.now) (W.history state.new.store.now) state.old.settings.now
        (Given (IsOfHead copy head))
        (object_copied copy copy.acl no_conditions Always) copy.to.label known.Settled result }
    ensures stands { EnsuresIfDone (W.history state.new.store.now) (IsPutAs copy.to) result }
    ensures unrefused { Unrefused result }
    ensures kind { AnswersCopy result }
    ensures source { CopiesSource (W.history state.old.store.now) copy result }
{
    if head.etag.len() <= 32 {
        copy_plain_source(state, copy, head)
    } else {
        copy_source_of_parts(state, copy, head)
    }
}

/// The rest of CopyObject, of a source that was put in one piece.
fn copy_plain_source<W: Swift>(
    state: &mut Settled<'_, W>,
    copy: CopyIntoBucket,
    head: ObjectHead,
) -> Result<Reply, PlanFault>
    requires head { IsProperHead head }
    requires plain { length head.etag ≤ 32 }
    ensures stays { Stays state.old state.new }
    ensures plans { (acl : Option Acl) (list : Acl) → is_other_acl acl list ≡ false
        → is_own_copy copy ≡ false
        → Plans (always 2) (W.history state.old.store.now) (W.history state.new.store.now)
        state.old.settings.now (Given (IsFoundSource copy.to.bucket list copy.from_bucket
        copy.from_key head))
        (object_copied copy acl no_conditions Always) copy.to.label known.Settled result }
    ensures stands { EnsuresIfDone (W.history state.new.store.now) (IsPutAs copy.to) result }
    ensures told { TellsCopied head.etag copy.to.label.moment result }
    ensures source { CopiesSource (W.history state.old.store.now) copy result }
{
    let body = get_source_to_copy(state, copy.from_bucket, copy.from_key, &head)?;
    put_copy(state, copy.to, head, body)
}

/// The PUT of CopyObject, of these bytes of the source.
fn put_copy<W: Swift>(
    state: &mut Settled<'_, W>,
    to: CopyTo,
    head: ObjectHead,
    body: Bytes,
) -> Result<Reply, PlanFault>
    requires head { IsProperHead head }
    requires source { is_body_to_copy head body ≡ true }
    ensures stays { Stays state.old state.new }
    ensures plans { (acl : Option Acl) (list : Acl) (from_bucket from_key : List ℕ)
        → is_other_acl acl list ≡ false
        → is_onto_itself to.bucket to.key from_bucket from_key to.replaced ≡ false
        → Plans (always 1) (W.history state.old.store.now)
        (W.history state.new.store.now) state.old.settings.now
        (Given (IsReadSource to.bucket list from_bucket from_key head body))
        (ops.CopyObject to.bucket to.key acl from_bucket from_key to.replaced no_conditions Always)
        to.label
        known.Settled result }
    ensures stands { EnsuresIfDone (W.history state.new.store.now) (IsPutAs to) result }
    ensures told { TellsCopied head.etag to.label.moment result }
{
    let etag = head.etag;
    let content = content_of(to.replaced, head.content_type, head.meta);
    let put = ObjectPut {
        bucket: to.bucket,
        key: to.key,
        acl: None,
        content: Proper::of(Content {
            content_type: content.content_type,
            meta: content.meta,
            body: Body::new(body),
        }),
        only_if: OnlyIf::Always,
        checksum: None,
    };
    let moment = to.label.moment;
    end_copy_object_plan(
        put_object(state, put, etag.as_slice(), &to.label),
        etag,
        moment,
    )
}

/// The end of CopyObject after its last call.
pub(crate) fn end_copy_object_plan(
    end: Result<(), PlanFault>,
    etag: Bytes,
    modified: u64,
) -> Result<Reply, PlanFault>
    ensures { result ≡ ended end (λ done. Copied false etag modified) }
{
    match end {
        Ok(()) => Ok(Reply::Copied(CopiedBytes {
            part: false,
            etag,
            modified,
        })),
        Err(fault) => Err(fault),
    }
}
