ghost use Rattle.std.specs.Prelude.{◌≡◌};
ghost use Rattle.std.specs.List.{list_all, list_any};
ghost use Rattle.gate_base.specs.Ascii.{is_slash};
ghost use Rattle.slo_manifest.specs.Segments.{is_etag, is_filled, is_proper_entry, is_listable, is_segment, is_manifest};

use crate::Segment;
use crate::manifest::MOST_SEGMENTS;
use text_forms::{all_lower_hex, is_utf8};

/// The bytes of an ETag that a store gives: the hexadecimal text of an MD5.
const ETAG_BYTES: usize = 32;

/// The limit of sizes, and of the sum of the sizes of one object.
const SIZE_LIMIT: u64 = 1 << 63;

fn is_segment_path_slash(byte: u8) -> bool
    ensures { result ≡ is_slash byte }
{
    byte == b'/'
}

fn has_segment_path_slash(text: &[u8]) -> bool
    ensures { result ≡ list_any is_slash text.now }
{
    text.iter().any(|byte| is_segment_path_slash(*byte))
}

/// Whether the text is 32 lower-case hexadecimal digits.
#[tactic(auto, unfolding(crate::specs::Segments::is_etag))]
fn is_etag(text: &[u8]) -> bool
    ensures { result ≡ is_etag text.now }
{
    text.len() == ETAG_BYTES && all_lower_hex(text)
}

fn is_filled(text: &[u8]) -> bool
    ensures { result ≡ is_filled text.now }
{
    0 < text.len()
}

/// Whether the fields of an entry are those of a segment, whatever its size is otherwise.
#[tactic(auto, unfolding(crate::specs::Segments::is_proper_entry))]
pub fn are_manifest_entry_fields(container: &[u8], name: &[u8], etag: &[u8], size: u64) -> bool
    ensures { result ≡ is_proper_entry container.now name.now etag.now size }
{
    is_filled(container) && is_filled(name) && is_etag(etag) && size < SIZE_LIMIT
}

#[tactic(auto, unfolding(crate::specs::Segments::is_listable))]
fn is_listable_in_manifest(container: &[u8], name: &[u8], size: u64) -> bool
    ensures { result ≡ is_listable container.now name.now size }
{
    0 < size && !has_segment_path_slash(container) && is_utf8(container) && is_utf8(name)
}

/// Whether a manifest may list the segment: its container and name are filled and UTF-8, the container has no
/// `/`, the ETag is 32 lower-case hexadecimal digits, and the size is from 1 to below 2^63. It takes no memory.
#[tactic(auto, unfolding(crate::specs::Segments::is_segment))]
pub fn is_segment(segment: &Segment) -> bool
    ensures { result ≡ is_segment segment.now }
{
    let container = segment.container.as_slice();
    let name = segment.name.as_slice();
    are_manifest_entry_fields(container, name, segment.etag.as_slice(), segment.size)
        && is_listable_in_manifest(container, name, segment.size)
}

fn are_manifest_segments(segments: &[Segment]) -> bool
    ensures { result ≡ list_all is_segment segments.now }
{
    segments.iter().all(|segment| is_segment(segment))
}

/// Whether the segments have a text as a manifest: each may be listed (`is_segment`), and there are at most 1000.
/// It takes no memory.
#[tactic(auto, unfolding(crate::specs::Segments::is_manifest))]
pub fn is_manifest(segments: &[Segment]) -> bool
    ensures { result ≡ is_manifest segments.now }
{
    segments.len() <= MOST_SEGMENTS && are_manifest_segments(segments)
}
