//! The answer to each operation on uploads.
ghost use Rattle.std.specs.Prelude.{◌≡◌, true, IsTrue, None};
ghost use Rattle.s3_machine.specs.declared.operation.Op.TheVariants.{OnUploads};
ghost use Rattle.swift_calls.specs.History.{present};
ghost use Rattle.account_calls.specs.Answers.{most_calls};
ghost use Rattle.account_calls.specs.declared.state.Known.TheVariants as known;
ghost use Rattle.account_calls.specs.Lent.{Stays};
ghost use Rattle.account_calls.specs.Plan.{reply_of, Answered};
ghost use Rattle.plan_uploads.specs.Completing.{end_in, known_after_completion, known_in, unfinished_in};
ghost use Rattle.account_calls.specs.Puts.{IfDone};
ghost use Rattle.plan_uploads.specs.Plans.{UnsureBy, UploadStands};
ghost use Rattle.plan_uploads.specs.Replies.{is_upload_reply};

use crate::abort::abort_upload;
use crate::complete::{Completing, complete_upload};
use crate::create::create_upload;
use crate::part::upload_part;
use crate::uploads::{plan_list_parts, plan_list_uploads};
use account_calls::{Known, PlanFault, Settled, reply_of};
use s3_machine::{Label, Reply, UploadsOp};
use swift_calls::Swift;

/// What an operation is answered, and whether a completion may be sealed then. It may be only where the calls of a completion broke
/// off from the one that seals it on: `unfinished` is the fault by which they did.
#[derive(Debug, Drop)]
pub struct Replied {
    pub reply: Reply,
    pub known: Known,
    pub unfinished: Option<PlanFault>,
}

/// Answers one operation of Amazon S3 on uploads in parts. The reply is the service's own, and then the state is as its step
/// leaves it. Or it is ServiceUnavailable, only where the store's count of faults rose in this call: the last call failed, no
/// earlier one did, and the state is the old one or the step's. Or it is `Memory`, where memory ran out, with the same two
/// states. Or it is InconsistentStore, never over an observable consistent account. How many calls there are is bounded by the
/// operation, and a refusal stops at the call that shows it. An upload that is created has the first id that is free from the label's word
/// of chance on; where one was aborted and no call failed, none of its segments is left. A completion is done once it is sealed:
/// where a later call fails, the reply is the service's own, and it is then unsure whether the completion is sealed still. That it is
/// unsure comes with its cause: the store's count of faults rose in this call, or the reply is InconsistentStore, or memory ran out.
pub fn answer<W: Swift>(state: &mut Settled<'_, W>, op: UploadsOp, label: &Label) -> Replied
    ensures stays { Stays state.old state.new }

    // The calls amount to the operation, with at most one commit.
    ensures answered { Answered (most_calls (OnUploads op)
        (present (W.history state.old.store.now)))
        (W.history state.old.store.now) (W.history state.new.store.now) state.old.settings.now
        (OnUploads op)
        label.now result.known result.reply }

    // It is unsure for a cause, over every store, whether a completion is sealed.
    ensures unsure { UnsureBy (W.history state.old.store.now) (W.history state.new.store.now) result }

    // Over every store the reply is one to an operation on uploads, and so none that gives bytes of an object.
    ensures kind { is_upload_reply result.reply ≡ true }

    // What was put stands, over every observable store, consistent or not.
    ensures stands { IsTrue (W.history state.new.store.now).observable
        → IfDone result.reply (UploadStands (OnUploads op) label.now result.known
        (W.history state.old.store.now)
        (W.history state.new.store.now) (present (W.history state.new.store.now))) }
{
    match op {
        UploadsOp::ListUploads(list) => settled(plan_list_uploads(state, list)),
        UploadsOp::CreateUpload(start) => settled(create_upload(state, start, label)),
        UploadsOp::UploadPart(part) => settled(upload_part(state, part, label)),
        UploadsOp::ListParts(list) => settled(plan_list_parts(state, list)),
        UploadsOp::CompleteUpload(done) => completed(complete_upload(state, &done, label)),
        UploadsOp::AbortUpload(upload) => settled(abort_upload(state, &upload)),
    }
}

/// What any other operation is answered, by how it ended.
fn settled(end: Result<Reply, PlanFault>) -> Replied
    ensures reply { result.reply ≡ reply_of end }
    ensures known { result.known ≡ known.Settled }
    ensures unfinished { result.unfinished ≡ None }
{
    Replied {
        reply: reply_of(end),
        known: Known::Settled,
        unfinished: None,
    }
}

/// What a completion is answered, by how it ended.
fn completed(end: Result<Completing, PlanFault>) -> Replied
    ensures reply { result.reply ≡ reply_of (end_in end) }
    ensures known { result.known ≡ known_in end }
    ensures unfinished { result.unfinished ≡ unfinished_in end }
{
    match end {
        Ok(completing) => Replied {
            reply: reply_of(completing.end),
            known: known_after_completion(completing.unfinished),
            unfinished: completing.unfinished,
        },
        Err(fault) => Replied {
            reply: reply_of(Err(fault)),
            known: Known::Settled,
            unfinished: None,
        },
    }
}

/// What is known of the store after a completion whose calls broke off by this fault, if they did.
fn known_after_completion(unfinished: Option<PlanFault>) -> Known
    ensures { result ≡ known_after_completion unfinished }
{
    match unfinished {
        None => Known::Settled,
        Some(_) => Known::Unsure,
    }
}
