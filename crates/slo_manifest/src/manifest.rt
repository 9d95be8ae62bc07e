ghost use Rattle.std.specs.Prelude.{◌≡◌};

use gate_base::{Copying, Memory};

/// The most segments that one manifest lists.
pub const MOST_SEGMENTS: usize = 1000;

/// The two texts of a manifest (Object Storage API v1, "Static large objects"): what a PUT with
/// `multipart-manifest=put` sends, and what a GET with `multipart-manifest=get` answers.
#[derive(Clone, Copy, Debug, PartialEq, Eq)]
pub enum Form {
    /// A list of `{"etag":ETAG,"path":"/CONTAINER/NAME","size_bytes":SIZE}`.
    Put,
    /// A list of `{"bytes":SIZE,"content_type":TYPE,"hash":ETAG,"last_modified":TIME,"name":"/CONTAINER/NAME"}`.
    Got,
}

/// Why a text is no manifest.
#[derive(Clone, Copy, Debug, PartialEq, Eq)]
pub enum ManifestFault {
    /// The text isn't a list of JSON in UTF-8.
    NotAList,
    /// The entry of this index, from 0, is no segment.
    BadEntry(u64),
    /// The entry of this index, from 0, is a segment of size 0.
    EmptySegment(u64),
    /// There are more than 1000 entries.
    TooManySegments,
    /// Memory ran out.
    Memory,
}

impl Copying for ManifestFault {
    fn copy(&self) -> Result<ManifestFault, Memory>
        ensures { result ≡ Ok self.now }
    {
        Ok(*self)
    }
}

impl From<Memory> for ManifestFault {
    ghost use Rattle.slo_manifest.specs.declared.manifest.ManifestFault.{ManifestFault};

    ghost from_gives = { λ _ fault. fault ≡ ManifestFault.Memory };

    fn from(_: Memory) -> ManifestFault {
        ManifestFault::Memory
    }
}
