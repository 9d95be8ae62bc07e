ghost use Rattle.std.specs.Prelude.{◌≤◌, length};
ghost use Rattle.http_wire.specs.Seen.{Sees};

use crate::scan::ends_inside;
use httparse::Status;
use httparse::spans::{HeaderSpan, RequestSpans, parse_request};

/// What stands first in the bytes of a window.
#[derive(Clone, Copy)]
pub(crate) enum Verdict {
    /// A whole head, by its spans.
    Whole(RequestSpans),

    /// No head yet, and no prefix is dead.
    More,

    /// No head can come of the bytes, and they don't end inside a target.
    Dead,
}

/// Looks at the bytes of a window, which has no room for more header lines than there are spans.
pub(crate) fn look(bytes: &[u8], headers: &mut [HeaderSpan]) -> Verdict
    requires short { length bytes.now ≤ 16384 }
    requires room { 8192 ≤ length headers.old }
    ensures { Sees bytes.now headers.new result }
{
    match parse_request(bytes, headers) {
        Ok(Status::Complete(spans)) => Verdict::Whole(spans),
        Ok(Status::Partial) => Verdict::More,
        Err(_) => {
            if ends_inside(bytes) {
                Verdict::More
            } else {
                Verdict::Dead
            }
        }
    }
}
