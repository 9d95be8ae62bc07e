//! The call on the file of a part.
ghost use Rattle.std.specs.Prelude.{◌≡◌, ◌≤◌, true, length, IfOk};
ghost use Rattle.s3_machine.specs.ETag.{body_etag};
ghost use Rattle.s3_machine.specs.Limits.{most_body_bytes};
ghost use Rattle.swift_calls.specs.Step.{Fit};
ghost use Rattle.swift_marks.specs.Tag.{has_text, tag_text};
ghost use Rattle.account_calls.specs.Calls.{always, Becomes, Changes, GivenOf};
ghost use Rattle.account_calls.specs.Lent.{Stays};
ghost use Rattle.account_calls.specs.Puts.{Stands};
ghost use Rattle.upload_calls.specs.Interpret.{part_tag, put_part_of};
ghost use Rattle.upload_calls.specs.Records.{HasOpen, puts_part};

use account_calls::{PlanFault, Settled, interpret_put_with_etag};
use gate_base::{Bytes, List, Memory};
use s3_machine::{Label, PartNumber};
use s3_names::BucketName;
use std::alloc::Global;
use swift_calls::{FilePut, Swift, SwiftRequest};
use swift_marks::Tag;
use upload_records::{law_part_put, segment_name, segments_container};

/// The part of an open upload as which bytes are put, and the label of the request that puts them.
#[derive(Drop)]
pub struct PartPlace {
    pub bucket: BucketName,
    pub id: u128,
    pub number: PartNumber,
    pub label: Label,
}

impl PartPlace {
    /// The id of the upload. By this call a proof has that it is a number of 128 bits.
    pub fn upload_id(&self) -> u128
        ensures { result ≡ self.now.id }
    {
        self.id
    }
}

/// Puts a part into an open upload, in place of the one of its number, by PUT of its file (Object Storage API v1, "Create or
/// replace object"): the one call that commits. At most one call. It is put at the moment of the label. After Ok the S3 state has the part, and over every observable store, consistent or not, its file stands. After Failed, which comes only where the store's count of faults rose,
/// and after Memory the state is the old one or that. Inconsistent never comes over an observable consistent account on which
/// the upload is open.
pub fn put_part<W: Swift>(
    state: &mut Settled<'_, W>,
    place: &PartPlace,
    body: Bytes,
    etag: &[u8],
) -> Result<(), PlanFault>
    requires sized { length body ≤ most_body_bytes }
    requires etag { etag.now ≡ body_etag body }
    ensures stays { Stays state.old state.new }
    ensures changes { Changes (always 1) (W.history state.old.store.now) (W.history state.new.store.now)
        (GivenOf (HasOpen place.now.bucket place.now.id))
        (Becomes (puts_part place.now.bucket place.now.id place.now.number body
        place.now.label.moment)) result }
    ensures stands { Stands (W.history state.new.store.now)
        (put_part_of place.now.bucket place.now.id place.now.number body place.now.label.moment)
        result }
{
    place.number.get();
    place.upload_id();
    let alloc = state.alloc;
    place.bucket.fits();
    law_part_put();
    let request = part_request(alloc, place, body, etag)?;
    let reply = state.call(request)?;
    interpret_put_with_etag(&reply, etag)
}

/// The PUT of a part's file, whose body has this ETag.
pub fn part_request(
    alloc: Global,
    place: &PartPlace,
    body: Bytes,
    etag: &[u8],
) -> Result<SwiftRequest, Memory>
    requires sized { length body ≤ most_body_bytes }
    requires etag { etag.now ≡ body_etag body }
    ensures request { IfOk result
        (λ request. request
        ≡ put_part_of place.now.bucket place.now.id place.now.number body place.now.label.moment) }
    ensures fits { IfOk result Fit }
{
    place.upload_id();
    let content_type = part_tag_text(alloc, etag, place.label.moment, place.id)?;
    let container = segments_container(alloc, place.bucket.bytes())?;
    let name = segment_name(alloc, place.id, place.number.get())?;
    Ok(SwiftRequest::PutObject(FilePut {
        container,
        name,
        content_type,
        meta: List::new(alloc),
        body,
        fresh: false,
    }))
}

/// The tag of a part with the ETag of its bytes, as its file has it.
fn part_tag_text(alloc: Global, etag: &[u8], moment: u64, id: u128) -> Result<Bytes, Memory>
    requires { has_text (part_tag etag.now moment id) ≡ true }
    ensures { IfOk result (λ text. text ≡ tag_text (part_tag etag.now moment id)) }
{
    let tag = Tag {
        content_type: Bytes::from_slice(alloc, b"application/octet-stream")?,
        etag: Bytes::from_slice(alloc, etag)?,
        moment,
        id: Some(id),
    };
    tag.write(alloc)
}
