//! What stands under the key of a write that has a condition.
ghost use Rattle.std.specs.Prelude.{◌≡◌};
ghost use Rattle.std.specs.Option.{option_map};
ghost use Rattle.s3_machine.specs.OnlyIf.{refusal};
ghost use Rattle.upload_records.specs.Native.{IsSettled};
ghost use Rattle.account_calls.specs.Answers.{condition_calls};
ghost use Rattle.account_calls.specs.Calls.{always, Asks, Tells};
ghost use Rattle.account_calls.specs.Condition.{RefusesByCondition, TellsRefusal, etag_of_head};
ghost use Rattle.account_calls.specs.Lent.{Stays};
ghost use Rattle.account_calls.specs.Told.{LeavesAccount};

use crate::{PlanFault, Settled, head_object};
use s3_machine::{Code, ObjectHead, OnlyIf};
use s3_names::{BucketName, Key};
use swift_calls::Swift;

/// Why a write of a key is refused by its condition, and `None` where it isn't: by HEAD of the key's file ([`head_object`]), and
/// without a call where nothing is asked. The faults are those of the call. What it tells holds until the next call that writes, so a
/// plan asks it right before its first one.
pub fn condition_refusal<W: Swift>(
    state: &mut Settled<'_, W>,
    bucket: &BucketName,
    key: &Key,
    only_if: &OnlyIf,
) -> Result<Option<Code>, PlanFault>
    ensures stays { Stays state.old state.new }
    ensures asks { Asks (always (condition_calls only_if.now)) (W.history state.old.store.now)
        (W.history state.new.store.now) IsSettled
        (Tells (TellsRefusal bucket.now key.now only_if.now)) result }
    ensures leaves { LeavesAccount (W.history state.old.store.now) (W.history state.new.store.now) }
    ensures codes { RefusesByCondition result }
{
    if only_if.is_always() {
        return Ok(None);
    }
    asked_refusal(state, bucket, key, only_if)
}

/// The same by the call, whatever is asked.
fn asked_refusal<W: Swift>(
    state: &mut Settled<'_, W>,
    bucket: &BucketName,
    key: &Key,
    only_if: &OnlyIf,
) -> Result<Option<Code>, PlanFault>
    ensures stays { Stays state.old state.new }
    ensures asks { Asks (always 1) (W.history state.old.store.now) (W.history state.new.store.now)
        IsSettled (Tells (TellsRefusal bucket.now key.now only_if.now)) result }
    ensures leaves { LeavesAccount (W.history state.old.store.now) (W.history state.new.store.now) }
    ensures codes { RefusesByCondition result }
{
    let head = head_object(state, bucket, key)?;
    Ok(refusal_by_head(head, only_if))
}

fn refusal_by_head(head: Option<ObjectHead>, only_if: &OnlyIf) -> Option<Code>
    ensures { result ≡ refusal only_if.now (option_map etag_of_head head) }
{
    match head {
        Some(head) => only_if.refusal_of_object(head.etag.as_slice()),
        None => only_if.refusal_where_missing(),
    }
}
