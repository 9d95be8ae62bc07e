//! Why a call of a store failed.
ghost use Rattle.std.specs.Prelude.{◌<◌};

use crate::pieces::append_log_pieces;
use crate::reply::logged_status_of_reply;
use gate_base::{Bytes, Memory};
use itoa::Buffer;

/// Why a call of a store failed.
#[derive(Clone, Copy, Debug, PartialEq, Eq)]
pub enum Cause {
    /// Its address can't be looked up.
    NotFound,
    /// Nothing listens at its address.
    Refused,
    /// Its address can't be reached.
    Unreachable,
    /// It was silent for so many seconds, the limit of time.
    Silent(u64),
    /// The system gave the connection up before that.
    TimedOut,
    /// It ended the connection before its answer was whole.
    Closed,
    /// Its answer has no end that is known, or bytes behind it.
    Unframed,
    /// Its answer came, with this status: it refuses the token, or the account to it.
    Answered(u16),
    /// Its answer came, with this status, and spells none of the call.
    Unread(u16),
    /// Anything else.
    Other,
}

/// What says why its last call failed.
pub trait Explains {
    /// Asked for after a call that failed. None where it isn't known.
    fn cause(&self) -> Option<Cause>;
}

/// The cause where an answer came whole and spells none of its call: by its status, where it has one.
pub fn logged_cause_of_answer(answer: &[u8]) -> Cause {
    match logged_status_number(answer) {
        Some(401) => Cause::Answered(401),
        Some(403) => Cause::Answered(403),
        Some(status) => Cause::Unread(status),
        None => Cause::Other,
    }
}

/// The number that the three digits of an answer's status write.
fn logged_status_number(answer: &[u8]) -> Option<u16> {
    match logged_status_of_reply(answer) {
        [hundreds, tens, ones] => Some(
            status_digit_for_log(*hundreds) * 100
                + status_digit_for_log(*tens) * 10
                + status_digit_for_log(*ones),
        ),
        _ => None,
    }
}

fn status_digit_for_log(digit: u8) -> u16
    ensures { result < 16 }
{
    (digit % 16) as u16
}

/// Appends the cause in words.
pub(crate) fn append_cause(line: &mut Bytes, cause: Cause) -> Result<(), Memory> {
    match cause {
        Cause::NotFound => line.append(b"cannot be looked up"),
        Cause::Refused => line.append(b"refused"),
        Cause::Unreachable => line.append(b"unreachable"),
        Cause::Silent(seconds) => append_counted(line, b"timed out after ", seconds, b" s"),
        Cause::TimedOut => line.append(b"timed out"),
        Cause::Closed => line.append(b"closed before its answer was whole"),
        Cause::Unframed => line.append(b"an answer without a known end"),
        Cause::Answered(status) => append_counted(line, b"answered ", status as u64, b""),
        Cause::Unread(status) => append_counted(line, b"spelled nothing: ", status as u64, b""),
        Cause::Other => line.append(b"failed"),
    }
}

fn append_counted(line: &mut Bytes, front: &[u8], number: u64, end: &[u8]) -> Result<(), Memory> {
    let mut digits = Buffer::new();
    append_log_pieces(line, &[front, digits.format(number).as_bytes(), end])
}
