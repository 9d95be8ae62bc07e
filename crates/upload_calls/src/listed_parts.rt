//! The listing of the parts of an upload.
ghost use Rattle.std.specs.Prelude.{◌≡◌, ◌<◌, ◌+◌, ℕ, map, IfOk, IfSome, OnOk};
ghost use Rattle.std.specs.List.{All};
ghost use Rattle.s3_names.specs.Id.{id_digits};
ghost use Rattle.s3_machine.specs.Shown.{IsShownPart};
ghost use Rattle.s3_machine.specs.Uploads.{cut};
ghost use Rattle.swift_calls.specs.History.{budget, present};
ghost use Rattle.swift_calls.specs.Limits.{IsMarker};
ghost use Rattle.list_pages.specs.Listing.{name_in, IsPageOf};
ghost use Rattle.upload_records.specs.Layout.{segments_name, segments_prefix};
ghost use Rattle.account_calls.specs.Answers.{named_by, pages};
ghost use Rattle.account_calls.specs.Calls.{always, by_account, Any, Asks, GivenOf};
ghost use Rattle.account_calls.specs.FilePages.{TellsFiles};
ghost use Rattle.account_calls.specs.Lent.{Stays};
ghost use Rattle.account_calls.specs.Listing.{TellsOf};
ghost use Rattle.upload_calls.specs.Listing.{digits_in, number_in, part_due, Adds, ReadsPart, TellsNext};
ghost use Rattle.upload_calls.specs.Records.{HasOnlyParts, TellsParts};

use account_calls::{PlanFault, Settled, next_marker, settled_file_page};
use gate_base::{Bytes, List};
use s3_machine::{GREATEST_PART_NUMBER, PartItem};
use s3_names::BucketName;
use std::alloc::Global;
use swift_calls::{NameItem, Swift};
use swift_marks::Stamp;
use text_forms::{all_digits, short_value};
use upload_records::{segment_name, segments_container, segments_prefix};

/// The number that five digits write; `None` for every other text.
pub fn digits_in(text: &[u8]) -> Option<u32>
    ensures { result ≡ digits_in text.now }
{
    if text.len() == 5 && all_digits(text) {
        Some(short_value(text))
    } else {
        None
    }
}

/// The number whose five digits stand behind a prefix.
fn number_in(prefix: &[u8], name: &[u8]) -> Option<u32>
    ensures { result ≡ number_in prefix.now name.now }
{
    if name.len() < prefix.len() {
        return None;
    }
    let (front, digits) = name.split_at(prefix.len());
    if front != prefix {
        return None;
    }
    digits_in(digits)
}

/// The part that an item of the listing of the segments tells.
#[tactic(auto, unfolding(crate::specs::Listing::part_due))]
fn part_in(alloc: Global, prefix: &[u8], item: &NameItem) -> Result<PartItem, PlanFault>
    ensures due { ReadsPart (part_due prefix.now item.now) result }
    ensures dated { IfOk result IsShownPart }
{
    let Some(number) = number_in(prefix, item.name.as_slice()) else {
        return Err(PlanFault::Inconsistent);
    };
    let stamp = Stamp::read(alloc, item.content_type.as_slice())?;
    Ok(PartItem {
        number,
        etag: stamp.etag,
        modified: stamp.moment,
        size: item.size,
    })
}

/// Adds the parts that a page tells.
fn add_parts(
    alloc: Global,
    prefix: &[u8],
    parts: &mut List<PartItem>,
    page: &[NameItem],
) -> Result<(), PlanFault>
    ensures due { Adds (part_due prefix.now) parts.old parts.new page.now result }
    ensures dated { All IsShownPart parts.old → OnOk result (All IsShownPart parts.new) }
{
    for item in page {
        parts.push(part_in(alloc, prefix, item)?)?;
    }
    Ok(())
}

/// A page of the names of a bucket's segments.
fn segments_page<W: Swift>(
    state: &mut Settled<'_, W>,
    bucket: &BucketName,
    prefix: &Bytes,
    marker: &Bytes,
) -> Result<List<NameItem>, PlanFault>
    requires prefix { IsMarker prefix.now }
    requires marker { IsMarker marker.now }
    ensures stays { Stays state.old state.new }
    ensures counted { IfOk result (λ _. (W.history state.old.store.now).called < budget
        × ((W.history state.new.store.now).called ≡ (W.history state.old.store.now).called + 1)) }
    ensures page { IfOk result (λ items. IsPageOf prefix.now marker.now (map name_in items)) }
    ensures asks { Asks (always 1) (W.history state.old.store.now) (W.history state.new.store.now)
        Any (TellsOf (TellsFiles (segments_name bucket.now) prefix.now marker.now)) result }
{
    let alloc = state.alloc;
    let folder = segments_container(alloc, bucket.bytes())?;
    settled_file_page(
        state,
        folder.as_slice(),
        prefix.as_slice(),
        marker.as_slice(),
    )
}

/// Adds a page of parts. What is told is the marker of the next page, and `None` after the last one.
fn next_parts<W: Swift>(
    state: &mut Settled<'_, W>,
    bucket: &BucketName,
    id: u128,
    marker: &Bytes,
    parts: &mut List<PartItem>,
) -> Result<Option<Bytes>, PlanFault>
    requires marker { IsMarker marker.now }
    ensures stays { Stays state.old state.new }
    ensures counted { IfOk result (λ _. (W.history state.old.store.now).called < budget
        × ((W.history state.new.store.now).called ≡ (W.history state.old.store.now).called + 1)) }
    ensures dated { All IsShownPart parts.old → OnOk result (All IsShownPart parts.new) }
    ensures is_marker { IfOk result (λ next. IfSome next IsMarker) }
    ensures asks { Asks (always 1) (W.history state.old.store.now) (W.history state.new.store.now)
        (GivenOf (HasOnlyParts bucket.now id)) (TellsOf (TellsNext
        (part_due (segments_prefix (id_digits id))) (segments_name bucket.now)
        (segments_prefix (id_digits id)) marker.now parts.old parts.new)) result }
{
    let alloc = state.alloc;
    let prefix = segments_prefix(alloc, id)?;
    next_parts_under_prefix(state, bucket, &prefix, marker, parts)
}

/// The same by what the names of the parts begin with.
fn next_parts_under_prefix<W: Swift>(
    state: &mut Settled<'_, W>,
    bucket: &BucketName,
    prefix: &Bytes,
    marker: &Bytes,
    parts: &mut List<PartItem>,
) -> Result<Option<Bytes>, PlanFault>
    requires prefix { IsMarker prefix.now }
    requires marker { IsMarker marker.now }
    ensures stays { Stays state.old state.new }
    ensures counted { IfOk result (λ _. (W.history state.old.store.now).called < budget
        × ((W.history state.new.store.now).called ≡ (W.history state.old.store.now).called + 1)) }
    ensures dated { All IsShownPart parts.old → OnOk result (All IsShownPart parts.new) }
    ensures is_marker { IfOk result (λ next. IfSome next IsMarker) }
    ensures asks { (id : ℕ) → prefix.now ≡ segments_prefix (id_digits id)
        → Asks (always 1) (W.history state.old.store.now) (W.history state.new.store.now)
        (GivenOf (HasOnlyParts bucket.now id)) (TellsOf (TellsNext
        (part_due (segments_prefix (id_digits id))) (segments_name bucket.now)
        (segments_prefix (id_digits id)) marker.now parts.old parts.new)) result }
{
    let alloc = state.alloc;
    bucket.fits();
    let page = segments_page(state, bucket, prefix, marker)?;
    add_parts(alloc, prefix.as_slice(), parts, page.as_slice())?;
    Ok(next_marker(page.as_slice())?)
}

/// The first items, and whether one is left over; where none is asked for, none is.
fn first_listed_parts(items: List<PartItem>, max: u32) -> (List<PartItem>, bool)
    ensures cut { result ≡ cut max items }
    ensures dated { All IsShownPart items → All IsShownPart result.0 }
{
    let max = max as usize;
    let more = 0 < max && max < items.len();
    let mut items = items.into_vec();
    items.truncate(max);
    (List::from_vec(items), more)
}

/// The first parts of an upload whose number is above a marker, at most so many, and whether one is left over (Amazon S3 API
/// Reference, "ListParts"), by the names of its segments page by page. At most as many calls as there are pages of them, where
/// the store is observable and its account consistent; and the S3 state stays. Failed comes only where the store's count of
/// faults rose; Memory where memory ran out; Inconsistent never over an observable consistent account on which the bucket is
/// there and no sub-manifest stands under the id, as under that of an open upload none does.
pub fn list_parts<W: Swift>(
    state: &mut Settled<'_, W>,
    bucket: &BucketName,
    id: u128,
    marker: u32,
    max: u32,
) -> Result<(List<PartItem>, bool), PlanFault>
    ensures stays { Stays state.old state.new }
    ensures dated { IfOk result (λ told. All IsShownPart told.0) }
    ensures asks { Asks (by_account
        (pages (named_by (present (W.history state.old.store.now)) bucket.now (id_digits id))))
        (W.history state.old.store.now) (W.history state.new.store.now)
        (GivenOf (HasOnlyParts bucket.now id)) (TellsOf (TellsParts bucket.now id marker max)) result }
{
    let alloc = state.alloc;
    bucket.fits();
    let mut parts = List::new(alloc);
    if max == 0 || GREATEST_PART_NUMBER <= marker {
        return Ok((parts, false));
    }
    let mut behind = segment_name(alloc, id, marker)?;
    'pages: loop {
        match next_parts(state, bucket, id, &behind, &mut parts)? {
            Some(next) => behind = next,
            None => return Ok(first_listed_parts(parts, max)),
        }
        if parts.len() > max as usize {
            return Ok(first_listed_parts(parts, max));
        }
    }
}
