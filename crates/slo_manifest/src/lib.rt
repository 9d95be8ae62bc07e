//! Manifests of static large objects, as Object Storage API v1 has them: the lists of segments that are put and got
//! as JSON, the ETag of the joined object, and where its bytes lie.
#![tactic(auto)]

mod covering;
mod entries;
mod etags;
mod laws;
mod manifest;
mod members;
mod paths;
mod ranges;
mod reading;
mod segments;
mod writing;

pub use covering::cover;
pub use etags::joined_etag;
use gate_base::{Bytes, Copying, Memory};
pub use laws::{law_byte_lies, law_one_answer, law_text_reads_back};
pub use manifest::{Form, MOST_SEGMENTS, ManifestFault};
pub use members::{Field, Member, json_array, json_object};
pub use ranges::Cover;
pub use reading::read;
pub use segments::{is_manifest, is_segment};
pub use writing::write;

/// One segment of a static large object: the container and the name under which it is stored, its ETag as the
/// store gives it, and its size in bytes.
#[derive(Debug, Drop)]
pub struct Segment {
    pub container: Bytes,
    pub name: Bytes,
    pub etag: Bytes,
    pub size: u64,
}

impl Copying for Segment {
    fn copy(&self) -> Result<Segment, Memory> {
        Ok(Segment {
            container: self.container.copy()?,
            name: self.name.copy()?,
            etag: self.etag.copy()?,
            size: self.size,
        })
    }
}
