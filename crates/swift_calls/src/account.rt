ghost use Rattle.std.specs.Prelude.{◌≡◌, ◌<◌, ◌^◌};
ghost use Rattle.swift_calls.specs.Account.{size_of};

use gate_base::{Bytes, Copying, List, Memory, Named};
use slo_manifest::Segment;

/// Who may read the objects of a container: nobody but its owner, or everybody (`X-Container-Read: .r:*,.rlistings`).
#[derive(Clone, Copy, Debug, PartialEq, Eq)]
pub enum ReadList {
    Nobody,
    Everybody,
}

impl Copying for ReadList {
    fn copy(&self) -> Result<ReadList, Memory>
        ensures { result ≡ Ok self.now }
    {
        Ok(*self)
    }
}

/// What an object has as its body: its own bytes, or those of the segments that a static large object lists.
#[derive(Debug, Drop)]
pub enum Content {
    Plain(Bytes),
    Segments(List<Segment>),
}

impl Content {
    /// The size in bytes: of its own bytes, or the sum of its segments'.
    pub fn size(&self) -> u64
        requires { size_of self.now < 2 ^ 63 }
        ensures { result ≡ size_of self.now }
    {
        match self {
            Content::Plain(bytes) => bytes.len() as u64,
            Content::Segments(segments) => segments.as_slice().iter().map(|s| s.size).sum(),
        }
    }
}

impl Copying for Content {
    fn copy(&self) -> Result<Content, Memory> {
        match self {
            Content::Plain(bytes) => Ok(Content::Plain(bytes.copy()?)),
            Content::Segments(segments) => Ok(Content::Segments(segments.copy()?)),
        }
    }
}

/// An object of a container. `meta` has the pieces of its metadata, in their order.
#[derive(Debug, Drop)]
pub struct Stored {
    pub name: Bytes,
    pub content_type: Bytes,
    pub meta: List<Bytes>,
    pub content: Content,
}

impl Copying for Stored {
    fn copy(&self) -> Result<Stored, Memory> {
        Ok(Stored {
            name: self.name.copy()?,
            content_type: self.content_type.copy()?,
            meta: self.meta.copy()?,
            content: self.content.copy()?,
        })
    }
}

impl Named for Stored {
    ghost name_of = { λ s. s.name };

    fn name(&self) -> &[u8] {
        self.name.as_slice()
    }
}
