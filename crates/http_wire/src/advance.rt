ghost use Rattle.std.specs.Prelude.{◌≡◌, ◌≤◌, ◌<◌, ◌++◌, ◌==◌, ℕ, List, [], false, length, take, IsTrue, IfOk, IfSome, MatchOption};
ghost use Rattle.gate_base.specs.Line.{OnlyReads};
ghost use Rattle.httparse.specs.Grammar.{HasNoRequest};
ghost use Rattle.http_wire.specs.Reading.{is_failed_read, weight};
ghost use Rattle.http_wire.specs.Seen.{AtEnd, IsFound, IsOpen, end_of, window};

use crate::ReadFault;
use crate::fill::read_more_of_request;
use crate::look::{Verdict, look};
use crate::scan::has_empty_head_line;
use gate_base::{Counted, Line};
use httparse::spans::{HeaderSpan, RequestSpans};

/// The bytes of a head, at most.
pub(crate) const HEAD_LIMIT: usize = 16_384;

/// The bytes of two line ends, at most.
const LINE_ENDS: usize = 4;

/// What the bytes that came begin with.
#[derive(Clone, Copy)]
pub(crate) enum Found {
    /// A whole head, by its spans.
    Head(RequestSpans),

    /// No whole head of `HEAD_LIMIT` bytes: no head can come of them, and they don't end inside a target.
    Bad,

    /// `HEAD_LIMIT` bytes hold no head, and one could still come or they end inside a target.
    Long,

    /// The connection's end inside a head that could still go on, or inside its target.
    Cut,

    /// The connection's end and no byte.
    Nothing,
}

/// The bytes among which a head has to end.
#[tactic(auto, using(std::proofs::lemmas::List::take_min))]
pub(crate) fn window(bytes: &[u8]) -> &[u8]
    ensures value { result.now ≡ window bytes.now }
    ensures short { length result.now ≤ HEAD_LIMIT }
{
    &bytes[..HEAD_LIMIT.min(bytes.len())]
}

/// Reads until it is known what stands first. What was read stays in `pending`, whatever the answer.
pub(crate) fn advance<N: Line<C>, C: Counted>(
    pending: &mut Vec<u8>,
    headers: &mut [HeaderSpan],
    line: &mut N,
) -> Result<Found, ReadFault>
    requires open { IsTrue (N.model line.old).is_open }
    requires room { 8192 ≤ length headers.old }
    ensures reads { OnlyReads (is_failed_read result) (N.model line.old) (N.model line.new) }
    ensures weight { weight (N.model line.new).spent pending.new.items
        ≤ weight (N.model line.old).spent pending.old.items }
    ensures kept { IsTrue (N.model line.old).observable
        → pending.new.items ++ (N.model line.new).transcript.rest
        ≡ pending.old.items ++ (N.model line.old).transcript.rest }
    ensures found { IfOk result (IsFound pending.new.items headers.new) }
    ensures at_end { IsTrue (N.model line.old).observable
        → IfOk result (λ found. AtEnd found (N.model line.new).transcript.rest) }
{
    let mut seen = 0;
    'come: loop {
        if is_due(pending, seen) {
            match head_found_in(pending, headers) {
                Some(found) => return Ok(found),
                None => seen = pending.len(),
            }
        }
        match read_more_of_request(pending, line) {
            Ok(0) => return Ok(head_found_at_end(pending, headers)),
            Ok(_) => {}
            Err(fault) => return Err(fault),
        }
    }
}

/// Whether bytes are to be looked at again, of which so many were seen before. They have to be where an empty line came,
/// since a head ends with one, and where there are as many as a head may have. Else it is enough to look as often as
/// there is an eighth more of them: so a head that comes byte by byte isn't parsed once for each byte.
fn is_due(bytes: &[u8], seen: usize) -> bool
    requires { seen ≤ length bytes.now }
    ensures { result ≡ false → HasNoRequest (take seen bytes.now) → HasNoRequest bytes.now }
{
    bytes.len() >= HEAD_LIMIT
        || bytes.len() - seen > seen / 8
        || has_empty_head_line(&bytes[seen.saturating_sub(LINE_ENDS)..])
}

/// What stands first in bytes that more may follow. None where it isn't known yet.
fn head_found_in(bytes: &[u8], headers: &mut [HeaderSpan]) -> Option<Found>
    requires { 8192 ≤ length headers.old }
    ensures found { MatchOption result (IsOpen bytes.now) (IsFound bytes.now headers.new) }
    ensures at_end { IfSome result (λ found. (rest : List ℕ) → AtEnd found rest) }
{
    match look(window(bytes), headers) {
        Verdict::Whole(spans) => Some(Found::Head(spans)),
        Verdict::Dead => Some(Found::Bad),
        Verdict::More => {
            if bytes.len() >= HEAD_LIMIT {
                Some(Found::Long)
            } else {
                None
            }
        }
    }
}

/// What stands first in bytes that none follow.
fn head_found_at_end(bytes: &[u8], headers: &mut [HeaderSpan]) -> Found
    requires { 8192 ≤ length headers.old }
    ensures found { IsFound bytes.now headers.new result }
    ensures at_end { (rest : List ℕ) → rest ≡ [] → AtEnd result rest }
{
    match head_found_in(bytes, headers) {
        Some(found) => found,
        None => head_missing_at_end(bytes),
    }
}

/// What the end of the connection says of bytes that have no whole head.
fn head_missing_at_end(pending: &[u8]) -> Found
    ensures { result ≡ end_of pending.now }
{
    match pending.split_first() {
        Some(_) => Found::Cut,
        None => Found::Nothing,
    }
}
