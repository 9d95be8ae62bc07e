ghost use Rattle.std.specs.Prelude.{◌≡◌, ◌≤◌, ◌<◌, ◌++◌, [], true, false, length, IsTrue, IfOk, OnErr};
ghost use Rattle.gate_base.specs.Line.{LineServes};
ghost use Rattle.http_wire.specs.Reading.{GivesFirstMessage, OnRequest, ends, is_failed_read, weight};
ghost use Rattle.http_wire.specs.Interim.{OwesInterim, SendsOn};
ghost use Rattle.http_wire.specs.Taken.{AnswersHeadless, IsAnswer, IsHeadless};

use crate::advance::{Found, HEAD_LIMIT, advance};
use crate::fill::READ_SIZE;
use crate::take::{Taken, take_message};
use crate::{Got, Kind, ReadFault};
use gate_base::{Counted, Line, Memory};
use httparse::spans::{EMPTY_HEADER_SPAN, HeaderSpan};
use std::alloc::Global;
use std::marker::Model;

/// The header lines that there is room for: a line has three bytes at least, so no more stand in a head.
const LINES: usize = 8_192;

/// Reads the requests of one connection. Contracts see it as the bytes read and not given yet, the number of the
/// bytes given, and whether it has ended.
#[derive(Drop)]
pub struct Reader {
    /// The buffer: what was read while a head was sought, and not given yet.
    pending: Vec<u8>,

    /// What was read, behind that, of a body that could not be read whole.
    partial: Vec<u8>,
    lines: Vec<HeaderSpan>,
    given: u64,
    over: bool,
}

impl Model for Reader {
    ghost use Rattle.std.specs.Prelude.{◌≡◌, ◌≤◌, ◌++◌, [], false, length};
    ghost use Rattle.http_wire.specs.Reading.{Pending};

    ghost Value = { Pending };

    ghost view = { λ r. record { bytes = r.pending.items ++ r.partial.items; place = r.given; ended = r.over } };

    ghost invariant = { λ r. (8192 ≤ length r.lines.items) × (r.over ≡ false → r.partial.items ≡ []) };
}

impl Reader {
    /// A reader at the beginning of a connection, with its buffer and room for 8,192 header lines.
    pub fn new(alloc: Global) -> Result<Reader, Memory>
        ensures { IfOk result (λ reader. reader ≡ record { bytes = []; place = 0; ended = false }) }
    {
        Ok(Reader {
            pending: Vec::with_capacity(alloc, HEAD_LIMIT + READ_SIZE)?,
            partial: Vec::new(alloc),
            lines: vec![in alloc; EMPTY_HEADER_SPAN; LINES]?,
            given: 0,
            over: false,
        })
    }

    /// Reads one request: a whole head of at most 16,384 bytes with at most 100 headers and no Transfer-Encoding, and
    /// the body of at most `limit` bytes, and at most [`MOST_BODY_LIMIT`](crate::MOST_BODY_LIMIT), whose length its one
    /// Content-Length gives; without one the body is empty,
    /// and for PUT the request is refused (RFC 9112, sections 2, 3, 5 and 6, and this profile). `End` comes where no
    /// byte is left, `CutShort` where the connection ends inside a head that could still go on or inside its target,
    /// and `Refused` for all else, by its kind. Failed comes only where the line failed. After an error, and after any
    /// answer but a request, the reader answers `End` and leaves the line alone. No byte is lost by an error: what was
    /// read of the line stays with the reader, where the line is observable.
    ///
    /// Before it reads a body it writes `HTTP/1.1 100 Continue` and two line ends, where the head is accepted, its version
    /// is HTTP/1.1, the body isn't empty, and a header `Expect` has the value `100-continue`, in any case (RFC 9110,
    /// section 10.1.1). It writes nothing else. Where that write fails, first bytes of the line may have been sent.
    pub fn next_request<N: Line<C>, C: Counted>(
        &mut self,
        limit: u64,
        line: &mut N,
        store: &C,
    ) -> Result<Got, ReadFault>
        requires { IsTrue (N.model line.old).is_open }
        ensures line { LineServes (is_failed_read result) (N.model line.old) (N.model line.new) }

        // A loop over requests ends.
        ensures falls { OnRequest result
            (weight (N.model line.new).spent self.new.bytes
            < weight (N.model line.old).spent self.old.bytes) }

        // After any answer but a request it has ended, and then it gives End and touches nothing.
        ensures ends { self.new.ended ≡ ends result }
        ensures ended { self.old.ended ≡ true → (result ≡ Ok Got.End)
            × (line.new ≡ line.old) × (self.new ≡ self.old) }

        // Where the line is observable: the answer is the front of all that is left, read or not.
        ensures effect { IsTrue (N.model line.old).observable
            → IfOk result (λ got. GivesFirstMessage limit
            self.old (self.old.bytes ++ (N.model line.old).transcript.rest) got
            self.new (self.new.bytes ++ (N.model line.new).transcript.rest)) }
        ensures effect_err { IsTrue (N.model line.old).observable → OnErr result
            (self.new.bytes ++ (N.model line.new).transcript.rest
            ≡ self.old.bytes ++ (N.model line.old).transcript.rest) }
        ensures place_err { OnErr result (self.new.place ≡ self.old.place) }

        // And the interim line was sent where it is owed, and nothing else.
        ensures sent { self.old.ended ≡ false → IsTrue (N.model line.old).observable
            → SendsOn (OwesInterim limit (self.old.bytes ++ (N.model line.old).transcript.rest))
            (C.called store.now) (N.model line.old).transcript result (N.model line.new).transcript }
    {
        if self.over {
            return Ok(Got::End);
        }
        self.over = true;
        match advance(&mut self.pending, &mut self.lines, line) {
            Ok(Found::Head(spans)) => {
                let taken = take_message(
                    limit,
                    &mut self.pending,
                    &mut self.partial,
                    &self.lines,
                    &spans,
                    line,
                    store,
                )?;
                Ok(got_of_taken(taken, &mut self.given, &mut self.over))
            }
            Ok(found) => Ok(headless(found, self.given)),
            Err(fault) => Err(fault),
        }
    }
}

/// The answer to what was taken of a whole head, behind so many bytes. Behind a request the reader goes on. It stands alone
/// because a function's check costs its points times what is owned there: so the reader's call never takes a message apart.
fn got_of_taken(taken: Taken, given: &mut u64, over: &mut bool) -> Got
    requires { over.old ≡ true }
    ensures { IsAnswer taken given.old result given.new over.new }
{
    match taken {
        Taken::Whole { message, size } => {
            *given = given.saturating_add(size as u64);
            *over = false;
            Got::Request(message)
        }
        Taken::Not { kind, head } => Got::Refused {
            kind,
            place: *given,
            head,
        },
    }
}

/// The answer where no whole head was found, behind so many bytes.
fn headless(found: Found, place: u64) -> Got
    requires { IsHeadless found }
    ensures { AnswersHeadless found place result }
{
    match found {
        Found::Bad => Got::Refused {
            kind: Kind::BadHead,
            place,
            head: false,
        },
        Found::Long => Got::Refused {
            kind: Kind::LongHead,
            place,
            head: false,
        },
        Found::Cut => Got::CutShort(place),
        Found::Nothing => Got::End,
        Found::Head(_) => unreachable!(),
    }
}
