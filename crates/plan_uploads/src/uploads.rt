//! The plans of the listings of uploads and of their parts.
ghost use Rattle.std.specs.Prelude.{◌≡◌, ◌+◌, ℕ, List, Some};
ghost use Rattle.s3_names.specs.declared.acl.Acl.{Acl};
ghost use Rattle.s3_names.specs.Id.{id_digits};
ghost use Rattle.s3_machine.specs.declared.operation.Label.{Label};
ghost use Rattle.s3_machine.specs.declared.operation.Op.TheVariants.{OnUploads};
ghost use Rattle.s3_machine.specs.declared.operation.UploadsOp.TheVariants.{ListParts, ListUploads};
ghost use Rattle.s3_machine.specs.Ops as ops;
ghost use Rattle.swift_calls.specs.History.{present};
ghost use Rattle.account_calls.specs.Answers.{named_by, pages, records_of};
ghost use Rattle.account_calls.specs.Calls.{by_account, Any, Given, GivenOf, TellsBucket};
ghost use Rattle.account_calls.specs.Lent.{Stays};
ghost use Rattle.account_calls.specs.declared.state.Known.TheVariants as known;
ghost use Rattle.account_calls.specs.Refusals.{Stops, Unrefused};
ghost use Rattle.account_calls.specs.Shows.{alone};
ghost use Rattle.account_calls.specs.Plan.{Plans};
ghost use Rattle.upload_calls.specs.Found.{IsOpenUpload};
ghost use Rattle.plan_uploads.specs.Plans.{parts_told, uploads_told};
ghost use Rattle.plan_uploads.specs.Replies.{AnswersUpload};

use crate::listed_uploads::list_uploads;
use account_calls::{PlanFault, Settled, head_bucket};
use gate_base::List;
use s3_machine::{
    Code, PartItem, PartListing, PartPage, Reply, UploadItem, UploadListing, UploadPage,
    UploadsReply,
};
use swift_calls::Swift;
use upload_calls::{Found, find_upload, list_parts};

/// ListParts: HEAD of the bucket's container, GET of the upload's record, then the names of its segments page by page. None of
/// the calls commits. Over an observable consistent account at most two calls more than there are pages of the upload's
/// segments. The faults are those of the calls.
pub(crate) fn plan_list_parts<W: Swift>(
    state: &mut Settled<'_, W>,
    list: PartListing,
) -> Result<Reply, PlanFault>
    ensures stays { Stays state.old state.new }
    ensures plans { (label : Label)
        → Plans (by_account
        (2 + pages (named_by (present (W.history state.old.store.now)) list.bucket list.id)))
        (W.history state.old.store.now) (W.history state.new.store.now) state.old.settings.now
        (Given Any) (OnUploads (ListParts list)) label known.Settled result }
    ensures stops { Stops alone 0 (W.history state.old.store.now) (W.history state.new.store.now) result }
    ensures kind { AnswersUpload result }
{
    list.bucket.fits();
    match find_upload(state, &list.bucket, &list.key, &list.id)? {
        Found::NoBucket => Ok(Reply::Refused(Code::NoSuchBucket)),
        Found::NoUpload => Ok(Reply::Refused(Code::NoSuchUpload)),
        Found::Open(id) => plan_list_parts_within(state, list, id),
    }
}

/// The rest of ListParts, of an upload that is open.
fn plan_list_parts_within<W: Swift>(
    state: &mut Settled<'_, W>,
    list: PartListing,
    id: u128,
) -> Result<Reply, PlanFault>
    ensures stays { Stays state.old state.new }
    ensures plans { (text : List ℕ) (label : Label)
        → Plans (by_account
        (pages (named_by (present (W.history state.old.store.now)) list.bucket (id_digits id))))
        (W.history state.old.store.now) (W.history state.new.store.now) state.old.settings.now
        (GivenOf (IsOpenUpload list.bucket list.key text id))
        (ops.ListParts list.bucket list.key text list.asked.marker list.asked.max) label
        known.Settled result }
    ensures unrefused { Unrefused result }
    ensures kind { AnswersUpload result }
{
    list.bucket.fits();
    let asked = list.asked.get();
    let listed = list_parts(state, &list.bucket, id, asked.marker, asked.max)?;
    Ok(end_list_parts_plan(list, id, listed))
}

/// The reply of the parts, and whether one is left over.
fn end_list_parts_plan(list: PartListing, id: u128, listed: (List<PartItem>, bool)) -> Reply
    ensures { result ≡ parts_told list.bucket list.key id list.asked.marker list.asked.max listed }
{
    let (items, truncated) = listed;
    Reply::OfUploads(UploadsReply::Parts(PartPage {
        bucket: list.bucket.into_text(),
        key: list.key.into_text(),
        id,
        asked: list.asked.into_value(),
        items,
        truncated,
    }))
}

/// ListUploads: HEAD of the bucket's container, then the names of all records page by page, and GET of each. None of the calls
/// commits. Over an observable consistent account at most one call more than there are pages and records. The faults are those
/// of the calls.
pub(crate) fn plan_list_uploads<W: Swift>(
    state: &mut Settled<'_, W>,
    list: UploadListing,
) -> Result<Reply, PlanFault>
    ensures stays { Stays state.old state.new }
    ensures plans { (label : Label)
        → Plans (by_account (1 + pages
        (records_of (present (W.history state.old.store.now)) list.bucket) + records_of
        (present (W.history state.old.store.now)) list.bucket)) (W.history state.old.store.now)
        (W.history state.new.store.now) state.old.settings.now (Given Any)
        (OnUploads (ListUploads list)) label known.Settled result }
    ensures stops { Stops alone 0 (W.history state.old.store.now) (W.history state.new.store.now) result }
    ensures kind { AnswersUpload result }
{
    let Some(_) = head_bucket(state, &list.bucket)? else {
        return Ok(Reply::Refused(Code::NoSuchBucket));
    };
    plan_list_uploads_within(state, list)
}

/// The rest of ListUploads, in a bucket that is there, whatever list it has.
fn plan_list_uploads_within<W: Swift>(
    state: &mut Settled<'_, W>,
    list: UploadListing,
) -> Result<Reply, PlanFault>
    ensures stays { Stays state.old state.new }
    ensures plans { (acl : Acl) (label : Label)
        → Plans (by_account (pages
        (records_of (present (W.history state.old.store.now)) list.bucket) + records_of
        (present (W.history state.old.store.now)) list.bucket)) (W.history state.old.store.now)
        (W.history state.new.store.now) state.old.settings.now
        (Given (λ s. TellsBucket list.bucket s (Some acl)))
        (OnUploads (ListUploads list)) label known.Settled result }
    ensures unrefused { Unrefused result }
    ensures kind { AnswersUpload result }
{
    list.bucket.fits();
    let listed = list_uploads(state, &list.bucket, list.asked.get())?;
    Ok(end_list_uploads_plan(list, listed))
}

/// The reply of the uploads, and whether one is left over.
fn end_list_uploads_plan(list: UploadListing, listed: (List<UploadItem>, bool)) -> Reply
    ensures { result ≡ uploads_told list.bucket list.asked.prefix list.asked.key_marker
        list.asked.id_marker
        list.asked.max list.asked.url listed }
{
    let (items, truncated) = listed;
    Reply::OfUploads(UploadsReply::Uploads(UploadPage {
        bucket: list.bucket.into_text(),
        asked: list.asked.into_value(),
        items,
        truncated,
    }))
}
