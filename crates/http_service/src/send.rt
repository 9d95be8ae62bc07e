//! What services write by.
ghost use Rattle.std.specs.Prelude.{◌≡◌, ◌≢◌, false, IsTrue, None};
ghost use Rattle.gate_base.specs.Line.{OnlyWrites};
ghost use Rattle.http_service.specs.Trace.{is_failed_step};
ghost use Rattle.http_service.specs.Answering.{Sends};

use crate::Ended;
use gate_base::{Counted, Line};

/// Sends bytes as one piece, behind which the connection ends so or goes on. Where the line fails, which raises its count of
/// faults, first bytes of the piece may have been sent, and the connection ends by that.
pub fn send_piece<C: Counted, N: Line<C>>(
    line: &mut N,
    counter: &C,
    bytes: &[u8],
    end: Option<Ended>,
) -> Option<Ended>
    requires open { IsTrue (N.model line.old).is_open }
    requires end { is_failed_step end ≡ false }
    ensures writes { OnlyWrites (is_failed_step result) (N.model line.old) (N.model line.new) }
    ensures ends { (end ≢ None → result ≢ None) }
    ensures effect { IsTrue (N.model line.old).observable
        → Sends (N.model line.old).transcript.begun (C.called counter.now) bytes.now end
        (N.model line.old).transcript.sent result (N.model line.new).transcript.sent }
{
    match line.write(counter, bytes) {
        Ok(()) => end,
        Err(_) => Some(Ended::LineFailed),
    }
}
