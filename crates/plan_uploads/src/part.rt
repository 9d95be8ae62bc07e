//! The plan of UploadPart.
ghost use Rattle.std.specs.Prelude.{◌≡◌, ◌<◌, ◌≤◌, ℕ, List, length};
ghost use Rattle.s3_machine.specs.ETag.{body_etag};
ghost use Rattle.s3_machine.specs.Limits.{most_body_bytes};
ghost use Rattle.s3_machine.specs.declared.operation.Op.TheVariants.{OnUploads};
ghost use Rattle.s3_machine.specs.declared.operation.UploadsOp.TheVariants.{UploadPart};
ghost use Rattle.s3_machine.specs.Ops as ops;
ghost use Rattle.account_calls.specs.Calls.{always, Any, Given, GivenOf};
ghost use Rattle.account_calls.specs.Lent.{Stays};
ghost use Rattle.account_calls.specs.declared.state.Known.TheVariants as known;
ghost use Rattle.account_calls.specs.Refusals.{Stops, Unrefused};
ghost use Rattle.account_calls.specs.Shows.{alone};
ghost use Rattle.account_calls.specs.Plan.{Plans};
ghost use Rattle.account_calls.specs.Puts.{EnsuresIfDone, StandsIn};
ghost use Rattle.upload_calls.specs.Found.{IsOpenUpload};
ghost use Rattle.upload_calls.specs.Interpret.{put_part_of};
ghost use Rattle.upload_calls.specs.Records.{StandsPart};
ghost use Rattle.plan_uploads.specs.Replies.{AnswersUpload};

use account_calls::{PlanFault, Settled, stored_end};
use gate_base::{Bytes, Pair};
use s3_machine::{Body, Code, Label, PartPut, Proper, Reply, StoredBytes};
use swift_calls::Swift;
use upload_calls::{Found, PartPlace, find_upload, put_part};

/// UploadPart: HEAD of the bucket's container, GET of the upload's record, then PUT of the part's file, which commits. At most
/// three calls. The reply is made before the PUT, so that no memory is needed after it. The faults are those of the calls. Where the
/// reply is no refusal the part's file stands, over every observable store, consistent or not.
pub(crate) fn upload_part<W: Swift>(
    state: &mut Settled<'_, W>,
    part: PartPut,
    label: &Label,
) -> Result<Reply, PlanFault>
    ensures stays { Stays state.old state.new }
    ensures plans { Plans (always 3) (W.history state.old.store.now) (W.history state.new.store.now)
        state.old.settings.now (Given Any) (OnUploads (UploadPart part)) label.now known.Settled
        result }
    ensures stands { EnsuresIfDone (W.history state.new.store.now)
        (StandsPart part.bucket part.id part.number part.body label.now.moment) result }
    ensures stops { Stops alone 0 (W.history state.old.store.now) (W.history state.new.store.now) result }
    ensures kind { AnswersUpload result }
{
    part.bucket.fits();
    match find_upload(state, &part.bucket, &part.key, &part.id)? {
        Found::NoBucket => Ok(Reply::Refused(Code::NoSuchBucket)),
        Found::NoUpload => Ok(Reply::Refused(Code::NoSuchUpload)),
        Found::Open(id) => {
            let place = PartPlace {
                bucket: part.bucket,
                id,
                number: part.number,
                label: *label,
            };
            part_into(state, place, part.body, part.checksum)
        }
    }
}

/// The rest of UploadPart, of an upload that is open.
fn part_into<W: Swift>(
    state: &mut Settled<'_, W>,
    place: PartPlace,
    body: Proper<Body>,
    checksum: Option<Pair>,
) -> Result<Reply, PlanFault>
    ensures stays { Stays state.old state.new }
    ensures plans { (key text : List ℕ)
        → Plans (always 1) (W.history state.old.store.now) (W.history state.new.store.now)
        state.old.settings.now (GivenOf (IsOpenUpload place.bucket key text place.id))
        (ops.UploadPart place.bucket key text place.number body checksum) place.label known.Settled
        result }
    ensures stands { EnsuresIfDone (W.history state.new.store.now)
        (λ tree. StandsIn tree (put_part_of place.bucket place.id place.number body
        place.label.moment)) result }
    ensures unrefused { Unrefused result }
    ensures kind { AnswersUpload result }
{
    let body = body.into_value();
    let etag = body.etag();
    plan_upload_part_bytes(state, &place, body.into_bytes(), &etag, checksum)
}

/// The PUT of UploadPart, of a body that has this ETag, and of which this checksum was compared.
fn plan_upload_part_bytes<W: Swift>(
    state: &mut Settled<'_, W>,
    place: &PartPlace,
    body: Bytes,
    etag: &[u8; 32],
    checksum: Option<Pair>,
) -> Result<Reply, PlanFault>
    requires sized { length body ≤ most_body_bytes }
    requires etag { etag.now ≡ body_etag body }
    ensures stays { Stays state.old state.new }
    ensures plans { (key text : List ℕ)
        → Plans (always 1) (W.history state.old.store.now) (W.history state.new.store.now)
        state.old.settings.now (GivenOf (IsOpenUpload place.now.bucket key text place.now.id))
        (ops.UploadPart place.now.bucket key text place.now.number body checksum) place.now.label
        known.Settled
        result }
    ensures stands { EnsuresIfDone (W.history state.new.store.now)
        (λ tree. StandsIn tree
        (put_part_of place.now.bucket place.now.id place.now.number body place.now.label.moment))
        result }
    ensures unrefused { Unrefused result }
    ensures kind { AnswersUpload result }
{
    let alloc = state.alloc;
    place.bucket.fits();
    let stored = StoredBytes {
        etag: Bytes::from_slice(alloc, etag)?,
        checksum,
    };
    stored_end(put_part(state, place, body, etag), stored)
}
