//! What a list of segments has to be before it is taken for what an object has.
ghost use Rattle.std.specs.Prelude.{◌≡◌, ◌≤◌, ◌==◌, [], drop, length};
ghost use Rattle.std.specs.List.{list_all};
ghost use Rattle.gate_base.specs.Ascii.{is_digit};
ghost use Rattle.leftovers.specs.Lists.{is_entry, is_entry_name, is_part_name, is_sub_name, is_whole_list, names_rise, size_of_list};

use crate::gathering::is_sub_manifest;
use crate::kept::id_in;
use slo_manifest::Segment;
use text_forms::all_digits;

/// Whether a list is that of so many bytes under the text of an id: it isn't empty, each entry stands in the container by the name of
/// a part, or of a sub-manifest where it may have some, their numbers rise, and their sizes add up. It takes no memory.
pub(crate) fn is_whole_list(
    subs: bool,
    folder: &[u8],
    id: &[u8],
    size: u64,
    list: &[Segment],
) -> bool
    ensures { result ≡ is_whole_list subs folder.now id.now size list.now }
{
    1 <= list.len()
        && are_entries(subs, folder, id, list)
        && names_rise(list)
        && is_size_of_list(size, list)
}

fn are_entries(subs: bool, folder: &[u8], id: &[u8], list: &[Segment]) -> bool
    ensures { result ≡ list_all (is_entry subs folder.now id.now) list.now }
{
    for segment in list {
        if !is_entry(subs, folder, id, segment) {
            return false;
        }
    }
    true
}

fn is_entry(subs: bool, folder: &[u8], id: &[u8], segment: &Segment) -> bool
    ensures { result ≡ is_entry subs folder.now id.now segment.now }
{
    segment.container.as_slice() == folder && is_entry_name(subs, id, segment.name.as_slice())
}

fn is_entry_name(subs: bool, id: &[u8], name: &[u8]) -> bool
    ensures { result ≡ is_entry_name subs id.now name.now }
{
    if subs {
        return is_part_name(id, name) || is_sub_name(id, name);
    }
    is_part_name(id, name)
}

/// Whether the bytes behind the first so many are digits.
fn are_digits_behind(name: &[u8], at: usize) -> bool
    requires { at ≤ length name.now }
    ensures { result ≡ list_all is_digit (drop at name.now) }
{
    all_digits(&name[at..])
}

/// Whether a name is that of a part under the text of an id.
fn is_part_name(id: &[u8], name: &[u8]) -> bool
    ensures { result ≡ is_part_name id.now name.now }
{
    name.len() == 38 && id_in(name) == id && name[32] == b'/' && are_digits_behind(name, 33)
}

/// Whether it is that of a sub-manifest.
fn is_sub_name(id: &[u8], name: &[u8]) -> bool
    ensures { result ≡ is_sub_name id.now name.now }
{
    name.len() == 39
        && id_in(name) == id
        && name[32] == b'/'
        && is_sub_manifest(name)
        && are_digits_behind(name, 34)
}

/// Whether each name comes after the one before it.
fn names_rise(list: &[Segment]) -> bool
    ensures { result ≡ names_rise [] list.now }
{
    let mut last: &[u8] = b"";
    for segment in list {
        if !last.cmp(segment.name.as_slice()).is_lt() {
            return false;
        }
        last = segment.name.as_slice();
    }
    true
}

/// Whether the segments make so many bytes.
fn is_size_of_list(size: u64, list: &[Segment]) -> bool
    ensures { result ≡ (size_of_list list.now == size) }
{
    let mut left = size;
    for segment in list {
        if segment.size > left {
            return false;
        }
        left = left - segment.size;
    }
    left == 0
}
