//! The call that seals a completion, and those behind it.
ghost use Rattle.std.specs.Prelude.{◌≡◌, ◌≤◌, ◌+◌, ℕ, true, List, length, IfOk, Ok, Some};
ghost use Rattle.s3_machine.specs.declared.only_if.OnlyIf.TheVariants.{Always};
ghost use Rattle.s3_machine.specs.declared.operation.Label.{Label};
ghost use Rattle.s3_machine.specs.declared.operation.Listed.{Listed};
ghost use Rattle.s3_machine.specs.Ops as ops;
ghost use Rattle.s3_machine.specs.Replies as replies;
ghost use Rattle.swift_calls.specs.Step.{Fit};
ghost use Rattle.upload_texts.specs.Sealed.{has_sealed_text};
ghost use Rattle.upload_records.specs.Native.{seal_of, sealed_sub_manifests};
ghost use Rattle.account_calls.specs.Calls.{always, GivenOf, Met};
ghost use Rattle.account_calls.specs.Lent.{Stays};
ghost use Rattle.account_calls.specs.Refusals.{Unrefused};
ghost use Rattle.account_calls.specs.Plan.{Plans};
ghost use Rattle.account_calls.specs.Puts.{Ensures, EnsuresIfDone};
ghost use Rattle.plan_uploads.specs.Completing.{BreaksOff, CompletesBy, EndsQuietly, MaySeal, Seals, StandsAs, end_complete_upload_sealed, known_after_completion, most_sealed_text, put_sealed_text};
ghost use Rattle.plan_uploads.specs.Replies.{AnswersUpload};

use crate::complete::Completing;
use account_calls::{PlanFault, Settled, interpret_put_with_etag};
use gate_base::{Bytes, List, Memory, drop};
use recovery::roll_forward_held;
use s3_machine::{Reply, body_etag};
use std::alloc::Global;
use swift_calls::{FilePut, Swift, SwiftRequest};
use upload_records::{gateway_container, law_completion_sealed, sealed_name};
use upload_texts::Sealed;

/// Seals a completion, by PUT of its text into the gateway's own container (Object Storage API v1, "Create or replace object"):
/// the one call that commits. At most one call. After Ok the completion is finished in the S3 state, though its object isn't put
/// yet, and over every observable store, consistent or not, what is sealed is this. After Failed, which comes only where the store's
/// count of faults rose, and after Memory the state is the old one or that.
/// Inconsistent never comes over an observable consistent account on which nothing is sealed and the completion's parts are there.
pub(crate) fn seal<W: Swift>(state: &mut Settled<'_, W>, sealed: &Sealed) -> Result<(), PlanFault>
    requires { has_sealed_text sealed.now ≡ true }
    ensures stays { Stays state.old state.new }
    ensures seals { Seals (W.history state.old.store.now) (W.history state.new.store.now) sealed.now
        result }
    ensures stands { Ensures (W.history state.new.store.now)
        (λ tree. seal_of tree ≡ Some sealed.now) result }
{
    let alloc = state.alloc;
    law_completion_sealed();
    let text = sealed.write(alloc)?;
    let etag = body_etag(text.as_slice());
    let request = sealed_request(alloc, text)?;
    let reply = state.call(request)?;
    interpret_put_with_etag(&reply, &etag)
}

/// The PUT of a sealed completion of this text.
fn sealed_request(alloc: Global, text: Bytes) -> Result<SwiftRequest, Memory>
    requires short { length text ≤ most_sealed_text }
    ensures request { IfOk result (λ request. request ≡ put_sealed_text text) }
    ensures fits { IfOk result Fit }
{
    let container = gateway_container(alloc)?;
    let name = sealed_name(alloc)?;
    let content_type = Bytes::from_slice(alloc, b"application/json")?;
    Ok(SwiftRequest::PutObject(FilePut {
        container,
        name,
        content_type,
        meta: List::new(alloc),
        body: text,
        fresh: false,
    }))
}

/// Seals a completion and finishes it: PUT of what is sealed, which commits, then PUT of each sub-manifest, PUT of the object, PUT
/// of the record and DELETE of what is sealed. At most four calls, and one for each sub-manifest. The reply is made before: where a call behind the commit fails, or memory runs out there,
/// the completion is done all the same, and it is then unsure whether it is sealed still; the fault by which that is so is told. The
/// faults are those of [`seal`], after which that is unsure too.
pub(crate) fn seal_and_finish<W: Swift>(
    state: &mut Settled<'_, W>,
    sealed: &Sealed,
    reply: Reply,
) -> Completing
    requires text { has_sealed_text sealed.now ≡ true }
    requires reply { reply ≡ replies.Completed sealed.now.bucket sealed.now.key sealed.now.etag }
    ensures stays { Stays state.old state.new }
    ensures plans { (text : List ℕ) (list : List Listed) (label : Label)
        → Plans (always (4 + sealed_sub_manifests sealed.now)) (W.history state.old.store.now)
        (W.history state.new.store.now)
        state.old.settings.now
        (GivenOf (CompletesBy state.old.settings.now text list label sealed.now))
        (ops.CompleteUpload sealed.now.bucket sealed.now.key text list Always) label
        (known_after_completion result.unfinished) result.end }
    ensures unsure { BreaksOff (W.history state.old.store.now) (W.history state.new.store.now) (Ok result) }
    ensures stands { EnsuresIfDone (W.history state.new.store.now)
        (StandsAs (known_after_completion result.unfinished) sealed.now) result.end }
    ensures last { Met (GivenOf (MaySeal sealed.now)) (W.history state.old.store.now)
        → IfOk result.end (λ reply. EndsQuietly (W.history state.new.store.now)
        (W.history state.old.store.now).called (W.history state.new.store.now).called) }
    ensures unrefused { Unrefused result.end }
    ensures kind { AnswersUpload result.end }
{
    match seal(state, sealed) {
        Ok(()) => end_complete_upload_sealed(roll_forward_held(state, sealed), reply),
        Err(fault) => {
            drop(reply);
            Completing {
                end: Err(fault),
                unfinished: Some(fault),
            }
        }
    }
}

/// The end of a completion behind the call that seals it.
fn end_complete_upload_sealed(finished: Result<(), PlanFault>, reply: Reply) -> Completing
    ensures { result ≡ end_complete_upload_sealed finished reply }
{
    match finished {
        Ok(()) => Completing {
            end: Ok(reply),
            unfinished: None,
        },
        Err(PlanFault::Inconsistent) => {
            drop(reply);
            Completing {
                end: Err(PlanFault::Inconsistent),
                unfinished: Some(PlanFault::Inconsistent),
            }
        }
        Err(fault) => Completing {
            end: Ok(reply),
            unfinished: Some(fault),
        },
    }
}
