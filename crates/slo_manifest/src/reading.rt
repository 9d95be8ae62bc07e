ghost use Rattle.std.specs.Prelude.{◌≡◌, ◌≤◌, map, length, IfOk, true};
ghost use Rattle.std.specs.List.{list_all};
ghost use Rattle.serde_json.specs.View.{view};
ghost use Rattle.slo_manifest.specs.Segments.{is_segment, is_manifest};
ghost use Rattle.slo_manifest.specs.Entry.{entry_of};
ghost use Rattle.slo_manifest.specs.Manifest.{Reads, ReadsEntries, Parses, json_of};

use crate::Segment;
use crate::entries::{EntryFault, read_manifest_entry};
use crate::manifest::{Form, MOST_SEGMENTS, ManifestFault};
use gate_base::List;
use serde_json::{Category, Value};
use std::alloc::Global;

/// The segments that a manifest's text lists, in the form (Object Storage API v1, "Static large objects").
///
/// A text is JSON in UTF-8 of at most 127 levels. Further fields are ignored, of a field that stands twice the last
/// counts, a path may lack its first `/`, and a size is a whole number only without a fraction and an exponent.
/// `NotAList` exactly where the text is no such JSON or no list; else `TooManySegments` exactly above 1000 entries;
/// else the fault of the first entry that is no segment: `EmptySegment` where only its size is 0, and `BadEntry` for
/// every other reason. What is read may be written.
#[tactic(auto, using(crate::proofs::ListLemmas::entries_of_no_json, crate::proofs::ListLemmas::entries_of_no_list))]
pub fn read(alloc: Global, bytes: &[u8], form: Form) -> Result<List<Segment>, ManifestFault>
    ensures answer { Reads form bytes.now result }
    ensures listed { IfOk result (λ segments. is_manifest segments ≡ true) }
{
    let value = parse_manifest_json(alloc, bytes)?;
    let Some(entries) = value.as_array() else {
        return Err(ManifestFault::NotAList);
    };
    if entries.len() > MOST_SEGMENTS {
        return Err(ManifestFault::TooManySegments);
    }
    read_manifest_entries(alloc, entries, form)
}

/// The JSON of a text.
#[tactic(auto, using(crate::proofs::ReadLemmas::json_read, crate::proofs::ReadLemmas::json_refused))]
fn parse_manifest_json(alloc: Global, bytes: &[u8]) -> Result<Value, ManifestFault>
    ensures { Parses (json_of bytes.now) result }
{
    match Value::from_slice(alloc, bytes) {
        Ok(value) => Ok(value),
        Err(fault) => match fault.classify() {
            Category::Memory => Err(ManifestFault::Memory),
            _ => Err(ManifestFault::NotAList),
        },
    }
}

/// The segments that the entries are.
#[tactic(auto, using(crate::proofs::ListLemmas::map_more))]
fn read_manifest_entries(
    alloc: Global,
    entries: &[Value],
    form: Form,
) -> Result<List<Segment>, ManifestFault>
    requires { length entries.now ≤ 1000 }
    ensures answer { ReadsEntries (map (λ value. entry_of form (view value)) entries.now) result }
    ensures listed { IfOk result (λ segments. list_all is_segment segments ≡ true) }
{
    let mut segments = List::new(alloc);
    for (index, value) in entries.iter().enumerate() {
        match read_manifest_entry(alloc, value, form) {
            Ok(segment) => segments.push(segment)?,
            Err(EntryFault::Bad) => return Err(ManifestFault::BadEntry(index as u64)),
            Err(EntryFault::Empty) => return Err(ManifestFault::EmptySegment(index as u64)),
            Err(EntryFault::Memory) => return Err(ManifestFault::Memory),
        }
    }
    Ok(segments)
}
