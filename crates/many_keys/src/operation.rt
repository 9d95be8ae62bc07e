//! The answer to a copy.
ghost use Rattle.std.specs.Prelude.{◌≡◌, true, IsTrue};
ghost use Rattle.s3_machine.specs.declared.operation.Op.TheVariants.{OnCopies};
ghost use Rattle.swift_calls.specs.History.{present};
ghost use Rattle.account_calls.specs.Answers.{most_calls};
ghost use Rattle.account_calls.specs.declared.state.Known.TheVariants as known;
ghost use Rattle.account_calls.specs.Calls.{Any, Given};
ghost use Rattle.account_calls.specs.Lent.{Stays};
ghost use Rattle.account_calls.specs.Plan.{Plans, Answered};
ghost use Rattle.account_calls.specs.Refusals.{shows, Stops};
ghost use Rattle.account_calls.specs.Puts.{EnsuresIfDone, IfDone};
ghost use Rattle.many_keys.specs.CopiedPart.{CopyStands, IsOfSource, OfCopiedSource};
ghost use Rattle.many_keys.specs.Replies.{AnswersCopy, is_copy_reply};

use crate::copied_part::plan_upload_part_copy;
use crate::copies::copy_object;
use account_calls::{PlanFault, Settled, reply_of};
use s3_machine::{CopiesOp, Label, Reply};
use swift_calls::Swift;

/// Answers one of the two copies, CopyObject and CopyPart. The reply is the service's own, and then the state is as its step leaves it.
/// Or it is ServiceUnavailable, only where the store's count of faults rose in this call: the last call failed and no earlier one did;
/// the state is the old one or the step's. Or it is `Memory`, where memory ran out, with the same states. Or it is InconsistentStore,
/// never over an observable consistent account. No call follows one that failed, and how many there are is bounded by the operation.
pub fn answer<W: Swift>(state: &mut Settled<'_, W>, op: CopiesOp, label: &Label) -> Reply
    ensures stays { Stays state.old state.new }

    // The calls amount to the operation, with at most one commit.
    ensures answered { Answered (most_calls (OnCopies op) (present (W.history state.old.store.now)))
        (W.history state.old.store.now) (W.history state.new.store.now) state.old.settings.now
        (OnCopies op)
        label.now known.Settled result }

    // Over every store the reply is one to a copy, and so none that gives bytes of an object.
    ensures kind { is_copy_reply result ≡ true }

    // What was copied whole, of an object in one piece, was copied of a file with the ETag that is replied, over every observable store,
    // consistent or not.
    ensures source { IsTrue (W.history state.old.store.now).observable
        → IsOfSource (OnCopies op) (present (W.history state.old.store.now)) result }

    // What was copied stands, over every observable store, consistent or not.
    ensures stands { IsTrue (W.history state.new.store.now).observable
        → IfDone result (CopyStands (OnCopies op) label.now
        (present (W.history state.new.store.now))) }
{
    reply_of(plan(state, op, label))
}

/// Makes the calls of a copy's plan.
fn plan<W: Swift>(
    state: &mut Settled<'_, W>,
    op: CopiesOp,
    label: &Label,
) -> Result<Reply, PlanFault>
    ensures stays { Stays state.old state.new }
    ensures plans { Plans (most_calls (OnCopies op) (present (W.history state.old.store.now)))
        (W.history state.old.store.now) (W.history state.new.store.now) state.old.settings.now
        (Given Any) (OnCopies op) label.now known.Settled result }
    ensures stands { EnsuresIfDone (W.history state.new.store.now) (CopyStands (OnCopies op)
        label.now) result }
    ensures stops { Stops (shows (OnCopies op)) 0 (W.history state.old.store.now)
        (W.history state.new.store.now) result }
    ensures kind { AnswersCopy result }
    ensures source { OfCopiedSource (OnCopies op) (W.history state.old.store.now) result }
{
    match op {
        CopiesOp::CopyObject(copy) => copy_object(state, copy, label),
        CopiesOp::CopyPart(copy) => plan_upload_part_copy(state, copy, label),
    }
}
