ghost use Rattle.std.specs.Prelude.{◌≡◌, false, IsTrue};
ghost use Rattle.gate_base.specs.Line.{LineServes};
ghost use Rattle.http_wire.specs.declared.judge.TheConstants.{BODY_LIMIT};
ghost use Rattle.http_wire.specs.Interim.{OwesInterim};
ghost use Rattle.sign_cmd.specs.Signing.{Answers, AnswersFrom, AnswersFirst, SendsBy, SendsFirst, SignsOn, is_failed_signing};

use crate::message::sign_message;
use gate_base::{Counted, Line, Memory};
use http_wire::{BODY_LIMIT, Got, Message, ReadFault, Reader};
use sigv4::Signed;
use std::alloc::Global;

/// How signing ended.
#[derive(Clone, Copy, Debug, PartialEq, Eq)]
pub enum Signing {
    /// What the first request signs to.
    Signed(Signed),
    /// No request came first, or one that can't be signed.
    NoRequest,
    /// The line failed: its count of faults rose.
    LineFailed,
    /// Memory ran out.
    Memory,
}

/// Reads the first request of the first connection and signs it by a secret for a region. It is signed where its target
/// reads, exactly one header is `x-amz-date`, of the form `YYYYMMDDTHHMMSSZ`, and exactly one `x-amz-content-sha256`; else,
/// and where no request comes first, the answer is `NoRequest`. All headers but `authorization` are signed, and the hash of
/// the payload is the one that the header gives. Where the line has no connection, no request comes first. Nothing is
/// written to the line but what [`Reader::next_request`] writes: the interim line, where the request asks for it.
pub fn sign_first<N: Line<W>, W: Counted>(
    alloc: Global,
    secret: &[u8],
    region: &[u8],
    line: &mut N,
    store: &W,
) -> Signing
    ensures line { SignsOn (is_failed_signing result) (W.called store.now) (N.model line.old)
        (N.model line.new) }
    ensures effect { IsTrue (N.model line.old).observable
        → AnswersFirst secret.now region.now (N.model line.old).transcript.waiting result }
    ensures sent { IsTrue (N.model line.old).observable
        → SendsFirst (W.called store.now) (N.model line.old).transcript result
        (N.model line.new).transcript }
{
    match line.next() {
        Ok(true) => sign_next(alloc, secret, region, line, store),
        Ok(false) => Signing::NoRequest,
        Err(_) => Signing::LineFailed,
    }
}

/// The same for the connection that is open.
fn sign_next<N: Line<W>, W: Counted>(
    alloc: Global,
    secret: &[u8],
    region: &[u8],
    line: &mut N,
    store: &W,
) -> Signing
    requires { IsTrue (N.model line.old).is_open }
    ensures line { LineServes (is_failed_signing result) (N.model line.old) (N.model line.new) }
    ensures effect { IsTrue (N.model line.old).observable
        → AnswersFrom secret.now region.now (N.model line.old).transcript.rest result }
    ensures sent { IsTrue (N.model line.old).observable
        → SendsBy (OwesInterim BODY_LIMIT (N.model line.old).transcript.rest)
        (N.model line.old).transcript.begun (W.called store.now) (N.model line.old).transcript.sent
        result (N.model line.new).transcript.sent }
{
    let mut reader = match Reader::new(alloc) {
        Ok(reader) => reader,
        Err(_) => return Signing::Memory,
    };
    match reader.next_request(BODY_LIMIT, line, store) {
        Ok(Got::Request(message)) => signing_of_message(alloc, secret, region, &message),
        Ok(Got::End) => Signing::NoRequest,
        Ok(Got::CutShort(_)) => Signing::NoRequest,
        Ok(Got::Refused { .. }) => Signing::NoRequest,
        Err(ReadFault::Failed) => Signing::LineFailed,
        Err(ReadFault::Memory) => Signing::Memory,
    }
}

/// The answer to a request.
fn signing_of_message(alloc: Global, secret: &[u8], region: &[u8], message: &Message) -> Signing
    ensures heard { is_failed_signing result ≡ false }
    ensures effect { Answers secret.now region.now message.now result }
{
    match sign_message(alloc, secret, region, message) {
        Ok(Some(signed)) => Signing::Signed(signed),
        Ok(None) => Signing::NoRequest,
        Err(Memory) => Signing::Memory,
    }
}
