//! The interim line of 100 Continue (RFC 9110, sections 10.1.1 and 15.2.1).
ghost use Rattle.std.specs.Prelude.{◌≡◌, true, not, ◌&&◌, IsTrue, Ok, OnOk, OnErr};
ghost use Rattle.std.specs.Result.{is_err};
ghost use Rattle.std.specs.List.{list_any};
ghost use Rattle.gate_base.specs.Line.{OnlyWrites};
ghost use Rattle.http_wire.specs.Interim.{is_expecting, owed_by, SendsInterim, CutsInterim};

use crate::Message;
use crate::headers::has_name;
use gate_base::{Counted, Failed, Line, Pair};

const INTERIM: &[u8] = b"HTTP/1.1 100 Continue\r\n\r\n";

/// Writes the interim line where the head asks for it before its body of `size` bytes.
pub(crate) fn offer<N: Line<C>, C: Counted>(
    message: &Message,
    size: usize,
    line: &mut N,
    store: &C,
) -> Result<(), Failed>
    requires open { IsTrue (N.model line.old).is_open }
    ensures writes { OnlyWrites (is_err result) (N.model line.old) (N.model line.new) }
    ensures sent { IsTrue (N.model line.old).observable
        → OnOk result (SendsInterim (owed_by message.now (Ok size) ≡ true)
        (N.model line.old).transcript.begun (C.called store.now)
        (N.model line.old).transcript.sent (N.model line.new).transcript.sent) }
    ensures sent_err { IsTrue (N.model line.old).observable
        → OnErr result (CutsInterim (owed_by message.now (Ok size) ≡ true)
        (N.model line.old).transcript.begun (C.called store.now)
        (N.model line.old).transcript.sent (N.model line.new).transcript.sent) }
{
    if expects(message) && 0 < size {
        return line.write(store, INTERIM);
    }
    Ok(())
}

/// Whether the head asks for the interim line, if a body follows.
fn expects(message: &Message) -> bool
    ensures { result ≡ (not message.now.old && list_any is_expecting message.now.headers) }
{
    !message.old && is_expected(message.headers.as_slice())
}

fn is_expected(headers: &[Pair]) -> bool
    ensures { result ≡ list_any is_expecting headers.now }
{
    headers.iter().any(|header| is_expecting(header))
}

fn is_expecting(header: &Pair) -> bool
    ensures { result ≡ is_expecting header.now }
{
    has_name(header, b"expect")
        && header
            .value
            .as_slice()
            .eq_ignore_ascii_case(b"100-continue")
}
