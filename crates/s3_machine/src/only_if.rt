//! What a write asks of the object that stands under its key.
ghost use Rattle.std.specs.Prelude.{◌≡◌, None, Some};
ghost use Rattle.s3_machine.specs.OnlyIf.{is_always, refusal};

use crate::Code;
use gate_base::Bytes;

/// The condition of a write (RFC 9110, sections 13.1.1 and 13.1.2): none; that nothing stands under its key (If-None-Match of `*`);
/// that an object stands there (If-Match of `*`); or that one stands there with this ETag (If-Match), which has no quotes. The ETag
/// is compared as it stands, so a weak one, with `W/` before it, is no object's.
#[derive(Debug, Drop)]
pub enum OnlyIf {
    Always,
    Missing,
    Present,
    Holds(Bytes),
}

impl OnlyIf {
    /// Whether nothing is asked.
    pub fn is_always(&self) -> bool
        ensures { result ≡ is_always self.now }
    {
        matches!(self, OnlyIf::Always)
    }

    /// Why a write is refused by its condition where nothing stands under its key. It takes no memory.
    pub fn refusal_where_missing(&self) -> Option<Code>
        ensures { result ≡ refusal self.now None }
    {
        match self {
            OnlyIf::Always | OnlyIf::Missing => None,
            OnlyIf::Present | OnlyIf::Holds(_) => Some(Code::NoSuchKey),
        }
    }

    /// Why a write is refused by its condition where an object with this ETag stands under its key. It takes no memory.
    pub fn refusal_of_object(&self, etag: &[u8]) -> Option<Code>
        ensures { result ≡ refusal self.now (Some etag.now) }
    {
        match self {
            OnlyIf::Always | OnlyIf::Present => None,
            OnlyIf::Missing => Some(Code::PreconditionFailed),
            OnlyIf::Holds(asked) if asked.as_slice() == etag => None,
            OnlyIf::Holds(_) => Some(Code::PreconditionFailed),
        }
    }
}
