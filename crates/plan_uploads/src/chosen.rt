//! The parts that a completion lists.
ghost use Rattle.std.specs.Prelude.{◌≡◌, length, IfOk, IfSome};
ghost use Rattle.std.specs.FinMap.{get};
ghost use Rattle.std.specs.Option.{option_copied};
ghost use Rattle.plan_uploads.specs.Completing.{Ascend, by_number, has_small_chosen_part, listed_parts, size_of_chosen_part};

use gate_base::{Copying, List, Memory};
use s3_machine::{Listed, PartItem};
use std::alloc::Global;
use upload_texts::SealedPart;

/// The parts of a list with their sizes, and `None` where one of them isn't among the parts of the upload, whose numbers ascend,
/// or has another ETag. It fails only where memory runs out.
pub(crate) fn chosen_parts(
    alloc: Global,
    parts: &[PartItem],
    list: &[Listed],
) -> Result<Option<List<SealedPart>>, Memory>
    ensures listed { Ascend parts.now
        → IfOk result (λ chosen. chosen ≡ listed_parts (by_number parts.now) list.now) }
    ensures many { IfOk result (λ chosen. IfSome chosen (λ some. length some ≡ length list.now)) }
{
    let mut chosen = List::new(alloc);
    for listed in list {
        let Some(size) = size_of_chosen_part(parts, listed) else {
            return Ok(None);
        };
        chosen.push(chosen_part_with_size(listed, size)?)?;
    }
    Ok(Some(chosen))
}

/// The size of a part of a list, where it is there with its ETag.
fn size_of_chosen_part(parts: &[PartItem], listed: &Listed) -> Option<u64>
    ensures { Ascend parts.now
        → result ≡ size_of_chosen_part (get (by_number parts.now) listed.now.number) listed.now.etag }
{
    match part_of(parts, listed.number) {
        Some(part) if part.etag.as_slice() == listed.etag.as_slice() => Some(part.size),
        _ => None,
    }
}

/// The part of a number, of parts whose numbers ascend.
fn part_of(parts: &[PartItem], number: u32) -> Option<&PartItem>
    ensures { Ascend parts.now → option_copied result ≡ get (by_number parts.now) number }
{
    match parts.binary_search_by_key(&number, |part| part.number) {
        Ok(at) => Some(&parts[at]),
        Err(_) => None,
    }
}

fn chosen_part_with_size(listed: &Listed, size: u64) -> Result<SealedPart, Memory>
    ensures { IfOk result (λ part. part ≡ record
        { number = listed.now.number; etag = listed.now.etag; size = size }) }
{
    let etag = listed.etag.copy()?;
    Ok(SealedPart {
        number: listed.number,
        etag,
        size,
    })
}

/// Whether a part other than the last has fewer bytes than the least that it may have.
pub(crate) fn has_small_chosen_part(least: u64, parts: &[SealedPart]) -> bool
    ensures { result ≡ has_small_chosen_part least parts.now }
{
    for i in 1..parts.len() {
        if parts[i - 1].size < least {
            return true;
        }
    }
    false
}
