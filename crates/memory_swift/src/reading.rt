//! The message that some bytes are.
ghost use Rattle.std.specs.Prelude.{◌≡◌, ◌++◌, true, false, Ok, IfOk, IsTrue};
ghost use Rattle.gate_base.specs.MemLine.{is_open_of, transcript_of};
ghost use Rattle.http_wire.specs.declared.judge.TheConstants.{MOST_BODY_LIMIT};
ghost use Rattle.http_wire.specs.Reading.{GivesFirstMessage, ends};
ghost use Rattle.memory_swift.specs.Handing.{IsMessageIn};

use gate_base::{Bytes, Line, List, MemLine, Memory, NoCount};
use http_wire::{Got, MOST_BODY_LIMIT, Message, ReadFault, Reader};
use std::alloc::Global;

/// The message that the bytes are; none where they are no message, or where others stand behind it.
pub(crate) fn message_at_hand(alloc: Global, bytes: &[u8]) -> Result<Option<Message>, Memory>
    ensures { IfOk result (IsMessageIn bytes.now) }
{
    let mut line = open_line_at_hand(alloc, bytes)?;
    let mut reader = Reader::new(alloc)?;
    read_message_at_hand(&mut reader, &mut line)
}

/// The message that is all of the bytes on the line.
fn read_message_at_hand(reader: &mut Reader, line: &mut MemLine) -> Result<Option<Message>, Memory>
    requires open { IsTrue (is_open_of line.old) }
    requires goes { reader.old.ended ≡ false }
    ensures { IfOk result (IsMessageIn (reader.old.bytes ++ (transcript_of line.old).rest)) }
{
    match read_next_at_hand(reader, line)? {
        Got::Request(message) => match read_next_at_hand(reader, line)? {
            Got::End => Ok(Some(message)),
            Got::Request(_) => Ok(None),
            Got::CutShort(_) => Ok(None),
            Got::Refused { .. } => Ok(None),
        },
        Got::End => Ok(None),
        Got::CutShort(_) => Ok(None),
        Got::Refused { .. } => Ok(None),
    }
}

/// What stands next on the line. It is in memory, so it fails only where memory runs out: for the interim line that the
/// reader writes.
fn read_next_at_hand(reader: &mut Reader, line: &mut MemLine) -> Result<Got, Memory>
    requires open { IsTrue (is_open_of line.old) }
    ensures open { IsTrue (is_open_of line.new) }
    ensures ends { IfOk result (λ got. reader.new.ended ≡ ends (Ok got)) }
    ensures gives { IfOk result (λ got. GivesFirstMessage MOST_BODY_LIMIT reader.old
        (reader.old.bytes ++ (transcript_of line.old).rest) got reader.new
        (reader.new.bytes ++ (transcript_of line.new).rest)) }
{
    match reader.next_request(MOST_BODY_LIMIT, line, &NoCount) {
        Ok(got) => Ok(got),
        Err(ReadFault::Failed) => Err(Memory),
        Err(ReadFault::Memory) => Err(Memory),
    }
}

/// A line whose open connection has the bytes.
fn open_line_at_hand(alloc: Global, bytes: &[u8]) -> Result<MemLine, Memory>
    ensures open { IfOk result (λ line. IsTrue (is_open_of line)) }
    ensures rest { IfOk result (λ line. (transcript_of line).rest ≡ bytes.now) }
{
    let mut connections = List::new(alloc);
    connections.push(Bytes::from_slice(alloc, bytes)?)?;
    let mut line = MemLine::new(alloc, connections, usize::MAX, List::new(alloc))?;
    match Line::<NoCount>::next(&mut line) {
        Ok(true) => Ok(line),
        _ => unreachable!(),
    }
}
