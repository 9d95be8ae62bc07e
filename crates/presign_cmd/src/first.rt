ghost use Rattle.std.specs.Prelude.{◌≡◌, false, IsTrue};
ghost use Rattle.gate_base.specs.Line.{LineServes};
ghost use Rattle.http_wire.specs.declared.judge.TheConstants.{BODY_LIMIT};
ghost use Rattle.http_wire.specs.Interim.{OwesInterim};
ghost use Rattle.presign.specs.Url.{IsSigner};
ghost use Rattle.sign_cmd.specs.Signing.{SignsOn};
ghost use Rattle.presign_cmd.specs.Presigning.{Answers, AnswersFrom, AnswersFirst, Presigns, SendsBy, SendsFirst, is_failed_presigning};

use crate::message::presign_message;
use gate_base::{Bytes, Counted, Line, Memory};
use http_wire::{BODY_LIMIT, Got, Message, ReadFault, Reader};
use presign::UrlSigner;
use std::alloc::Global;

/// How presigning ended.
#[derive(Debug, Drop)]
pub enum Presigning {
    /// The URL of the first request, from its path on.
    Url(Bytes),
    /// No request came first, or one that can't be presigned.
    NoRequest,
    /// The line failed: its count of faults rose.
    LineFailed,
    /// Memory ran out.
    Memory,
}

/// Reads the first request of the first connection and makes its presigned URL (see [`presign::presign`]) for this signer. It is
/// presigned where its target reads, the query has none of the six names of a signature, and exactly one header is `host`; else,
/// and where no request comes first, the answer is `NoRequest`. `host` is the one header that is signed. Where the line has no
/// connection, no request comes first. Nothing is written to the line but what [`Reader::next_request`] writes: the interim
/// line, where the request asks for it.
pub fn presign_first<N: Line<W>, W: Counted>(
    alloc: Global,
    signer: &UrlSigner<'_>,
    line: &mut N,
    store: &W,
) -> Presigning
    requires signer { IsSigner signer.now.secret.now signer.now.id.now signer.now.region.now
        signer.now.moment signer.now.expires }
    ensures line { SignsOn (is_failed_presigning result) (W.called store.now) (N.model line.old)
        (N.model line.new) }
    ensures effect { IsTrue (N.model line.old).observable
        → AnswersFirst (Presigns signer.now.secret.now signer.now.id.now signer.now.region.now
        signer.now.moment
        signer.now.expires)
        (N.model line.old).transcript.waiting result }
    ensures sent { IsTrue (N.model line.old).observable
        → SendsFirst (W.called store.now) (N.model line.old).transcript result
        (N.model line.new).transcript }
{
    match line.next() {
        Ok(true) => presign_next(alloc, signer, line, store),
        Ok(false) => Presigning::NoRequest,
        Err(_) => Presigning::LineFailed,
    }
}

/// The same for the connection that is open.
fn presign_next<N: Line<W>, W: Counted>(
    alloc: Global,
    signer: &UrlSigner<'_>,
    line: &mut N,
    store: &W,
) -> Presigning
    requires open { IsTrue (N.model line.old).is_open }
    requires signer { IsSigner signer.now.secret.now signer.now.id.now signer.now.region.now
        signer.now.moment signer.now.expires }
    ensures line { LineServes (is_failed_presigning result) (N.model line.old) (N.model line.new) }
    ensures effect { IsTrue (N.model line.old).observable
        → AnswersFrom (Presigns signer.now.secret.now signer.now.id.now signer.now.region.now
        signer.now.moment
        signer.now.expires) (N.model line.old).transcript.rest result }
    ensures sent { IsTrue (N.model line.old).observable
        → SendsBy (OwesInterim BODY_LIMIT (N.model line.old).transcript.rest)
        (N.model line.old).transcript.begun (W.called store.now) (N.model line.old).transcript.sent
        result (N.model line.new).transcript.sent }
{
    let mut reader = match Reader::new(alloc) {
        Ok(reader) => reader,
        Err(_) => return Presigning::Memory,
    };
    match reader.next_request(BODY_LIMIT, line, store) {
        Ok(Got::Request(message)) => presigning_of_message(alloc, signer, &message),
        Ok(Got::End) => Presigning::NoRequest,
        Ok(Got::CutShort(_)) => Presigning::NoRequest,
        Ok(Got::Refused { .. }) => Presigning::NoRequest,
        Err(ReadFault::Failed) => Presigning::LineFailed,
        Err(ReadFault::Memory) => Presigning::Memory,
    }
}

/// The answer to a request.
fn presigning_of_message(alloc: Global, signer: &UrlSigner<'_>, message: &Message) -> Presigning
    requires signer { IsSigner signer.now.secret.now signer.now.id.now signer.now.region.now
        signer.now.moment signer.now.expires }
    ensures heard { is_failed_presigning result ≡ false }
    ensures effect { Answers (Presigns signer.now.secret.now signer.now.id.now signer.now.region.now
        signer.now.moment
        signer.now.expires) message.now
        result }
{
    match presign_message(alloc, signer, message) {
        Ok(Some(url)) => Presigning::Url(url),
        Ok(None) => Presigning::NoRequest,
        Err(Memory) => Presigning::Memory,
    }
}
