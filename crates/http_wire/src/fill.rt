//! Reading from the line into a buffer.
ghost use Rattle.std.specs.Prelude.{◌≡◌, ◌≤◌, ◌<◌, ◌+◌, ◌++◌, [], length, take, IsTrue, IfOk, OnErr};
ghost use Rattle.gate_base.specs.Causes.{Spends};
ghost use Rattle.gate_base.specs.Line.{OnlyReads};
ghost use Rattle.http_wire.specs.Reading.{is_failed_read, weight};

use crate::ReadFault;
use gate_base::{Counted, Line};

/// The bytes that one read asks for while a head is read.
pub(crate) const READ_SIZE: usize = 4_096;

/// Reads once, and puts what came at the end of `pending`: no byte only at the connection's end.
pub(crate) fn read_more_of_request<N: Line<C>, C: Counted>(
    pending: &mut Vec<u8>,
    line: &mut N,
) -> Result<usize, ReadFault>
    requires { IsTrue (N.model line.old).is_open }
    ensures reads { OnlyReads (is_failed_read result) (N.model line.old) (N.model line.new) }
    ensures weight { weight (N.model line.new).spent pending.new.items
        ≤ weight (N.model line.old).spent pending.old.items }
    ensures falls { IfOk result (λ count. 0 < count
        → weight (N.model line.new).spent pending.new.items
        < weight (N.model line.old).spent pending.old.items) }
    ensures same { IfOk result (λ count. count ≡ 0 → pending.new.items ≡ pending.old.items) }
    ensures grows { length pending.old.items ≤ length pending.new.items }
    ensures kept { IsTrue (N.model line.old).observable
        → pending.new.items ++ (N.model line.new).transcript.rest
        ≡ pending.old.items ++ (N.model line.old).transcript.rest }
    ensures at_end { IsTrue (N.model line.old).observable
        → IfOk result (λ count. count ≡ 0 → (N.model line.new).transcript.rest ≡ []) }
{
    let came = pending.len();
    pending.resize(came + READ_SIZE, 0)?;
    match read_room(pending, came, line) {
        Ok(count) => {
            pending.truncate(came + count);
            Ok(count)
        }
        Err(fault) => {
            pending.truncate(came);
            Err(fault)
        }
    }
}

/// Reads once into the room of `bytes`, which begins behind the first `came`: no byte only at the connection's end.
/// What came before stays, and so does the length.
pub(crate) fn read_room<N: Line<C>, C: Counted>(
    bytes: &mut Vec<u8>,
    came: usize,
    line: &mut N,
) -> Result<usize, ReadFault>
    requires open { IsTrue (N.model line.old).is_open }
    requires room { came < length bytes.old.items }
    ensures reads { OnlyReads (is_failed_read result) (N.model line.old) (N.model line.new) }
    ensures spends { IfOk result (λ count. 0 < count
        → Spends (N.model line.old).spent (N.model line.new).spent) }
    ensures length { length bytes.new.items ≡ length bytes.old.items }
    ensures within { IfOk result (λ count. came + count ≤ length bytes.old.items) }
    ensures front { take came bytes.new.items ≡ take came bytes.old.items }
    ensures kept { IsTrue (N.model line.old).observable → IfOk result (λ count.
        take (came + count) bytes.new.items ++ (N.model line.new).transcript.rest
        ≡ take came bytes.old.items ++ (N.model line.old).transcript.rest) }
    ensures kept_err { IsTrue (N.model line.old).observable
        → OnErr result ((N.model line.new).transcript.rest ≡ (N.model line.old).transcript.rest) }
    ensures at_end { IsTrue (N.model line.old).observable
        → IfOk result (λ count. count ≡ 0 → (N.model line.new).transcript.rest ≡ []) }
{
    match line.read(&mut bytes[came..]) {
        Ok(count) => Ok(count),
        Err(fault) => Err(ReadFault::from(fault)),
    }
}
