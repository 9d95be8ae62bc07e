//! The plan of ListObjects.
ghost use Rattle.std.specs.Prelude.{◌≡◌, ◌+◌, Some, IfOk};
ghost use Rattle.s3_machine.specs.declared.operation.Op.TheVariants.{OnObjects};
ghost use Rattle.s3_machine.specs.declared.operation.ObjectsOp.TheVariants.{ListObjects};
ghost use Rattle.swift_calls.specs.History.{present};
ghost use Rattle.account_calls.specs.Answers.{pages_listed};
ghost use Rattle.account_calls.specs.Calls.{by_account, Any, Given, TellsBucket};
ghost use Rattle.account_calls.specs.Lent.{Stays};
ghost use Rattle.account_calls.specs.declared.state.Known.TheVariants as known;
ghost use Rattle.account_calls.specs.Refusals.{Stops};
ghost use Rattle.account_calls.specs.Shows.{alone};
ghost use Rattle.account_calls.specs.Plan.{Plans};
ghost use Rattle.planner.specs.Listing.{objects_reply};
ghost use Rattle.planner.specs.Reading.{GivesNoByte};

use account_calls::{PlanFault, Settled, head_bucket};
use gate_base::List;
use s3_machine::{Code, Item, Label, ObjectListing, ObjectPage, ObjectsReply, Reply, may_read};
use s3_names::Acl;
use swift_calls::Swift;

/// ListObjects: HEAD of the bucket's container, then its keys page by page, until the answer is full or a page is short;
/// where no item is wanted, no page. None of the calls commits. Over an observable consistent account at most one call
/// more than there are pages of the bucket's objects, and at most two more than items are shown. The faults are those of
/// the calls.
pub(crate) fn list_objects<W: Swift>(
    state: &mut Settled<'_, W>,
    wanted: ObjectListing,
    label: &Label,
) -> Result<Reply, PlanFault>
    ensures stays { Stays state.old state.new }
    ensures plans { Plans
        (by_account (1 + pages_listed wanted.bucket wanted.asked
        (present (W.history state.old.store.now))))
        (W.history state.old.store.now) (W.history state.new.store.now) state.old.settings.now
        (Given Any) (OnObjects (ListObjects wanted)) label.now known.Settled result }
    ensures stops { Stops alone 0 (W.history state.old.store.now) (W.history state.new.store.now) result }
    ensures bodiless { IfOk result GivesNoByte }
{
    let Some(list) = head_bucket(state, &wanted.bucket)? else {
        return Ok(Reply::Refused(Code::NoSuchBucket));
    };
    plan_list_objects_within(state, wanted, list, label)
}

/// The rest of ListObjects, in a bucket that has this access control list.
fn plan_list_objects_within<W: Swift>(
    state: &mut Settled<'_, W>,
    wanted: ObjectListing,
    list: Acl,
    label: &Label,
) -> Result<Reply, PlanFault>
    ensures stays { Stays state.old state.new }
    ensures plans { Plans
        (by_account (pages_listed wanted.bucket wanted.asked
        (present (W.history state.old.store.now))))
        (W.history state.old.store.now) (W.history state.new.store.now) state.old.settings.now
        (Given (λ s. TellsBucket wanted.bucket s (Some list))) (OnObjects (ListObjects wanted))
        label.now
        known.Settled result }
    ensures stops { Stops alone 1 (W.history state.old.store.now) (W.history state.new.store.now) result }
    ensures bodiless { IfOk result GivesNoByte }
{
    if !may_read(label.caller, list) {
        return Ok(Reply::Refused(Code::AccessDenied));
    }
    let listed = account_calls::list_objects(state, &wanted)?;
    Ok(end_list_objects_plan(wanted, listed))
}

/// The reply of the items, and whether one is left over.
fn end_list_objects_plan(wanted: ObjectListing, listed: (List<Item>, bool)) -> Reply
    ensures { result ≡ objects_reply wanted.bucket wanted.asked listed }
{
    let (items, truncated) = listed;
    Reply::OfObjects(ObjectsReply::Objects(ObjectPage {
        bucket: wanted.bucket.into_text(),
        asked: wanted.asked.into_value(),
        items,
        truncated,
    }))
}
