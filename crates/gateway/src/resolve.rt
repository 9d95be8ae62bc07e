//! How a request is resolved: a message that was read, or one that was refused before it was understood.
ghost use Rattle.std.specs.Prelude.{◌≡◌, ◌≢◌, false, cond, codes, [], Some, position, IfSome, IfOk, ◌<◌, length, true};
ghost use Rattle.gate_base.specs.declared.caller.Caller.TheVariants.{Anonymous as anonymous};
ghost use Rattle.s3_names.specs.Target.{target_of};
ghost use Rattle.s3_requests.specs.Meaning.{KeepsFront};
ghost use Rattle.extended.specs.Opened.{Opens};
ghost use Rattle.sigv4.specs.Verdict.{caller_or_refusal};
ghost use Rattle.presign.specs.Parameters.{is_presigned};
ghost use Rattle.presign.specs.Verdict.{owner_or_refusal};
ghost use Rattle.gateway.specs.ResolvedRequest.{Is};
ghost use Rattle.gateway.specs.Request.{raw_path, end_after, resolve_target, admitted, asked_target, as_sent, caller_of, caller_or_anonymous, by_header, by_query, opening_at, sent_meaning, taken_form, verdict_at, Verifies, refused_by_query, request_of, refused_request, asks_of, end_of, code_of, is_question_mark};
ghost use Rattle.s3_machine.specs.Proper.{IsProperCode};
ghost use Rattle.gateway.specs.Serving.{is_failed_step};
ghost use Rattle.gateway.specs.declared.ended.Ended.TheVariants as ended;
ghost use Rattle.s3_requests.specs.declared.meant.Meant.TheVariants as variant;

use crate::{Ended, ResolvedRequest, Service};
use chunked::ChunkedForm;
use extended::{ChunkRules, Sender, chunked_form, extended_meaning, open_chunked, refused_by};
use gate_base::{Caller, Memory};
use http_service::Received;
use http_wire::{Kind, Message, closes};
use presign::{QueryRefusal, is_presigned, verify_query, without_signature};
use s3_machine::{Code, Settings};
use s3_names::{NameFault, Target};
use s3_requests::{Meant, meaning};
use sigv4::{SignedRequest, verify};
use std::alloc::Global;

/// What was received, as it is answered at that moment. A body moves into its operation.
pub fn resolve<'a>(
    alloc: Global,
    service: &Service,
    received: &'a mut Received,
    moment: u64,
) -> ResolvedRequest<'a>
    ensures ends { result.end ≡ end_of received.old }
    ensures served { is_failed_step result.end ≡ false }
    ensures is { Is result (asks_of service.now received.old moment) }
{
    match received {
        Received::Message(message) => resolve_message(alloc, service, message, moment),
        Received::Refused { kind, place, head } => resolve_refused(*kind, *place, *head),
    }
}

/// A message that was read, as it is answered.
fn resolve_message<'a>(
    alloc: Global,
    service: &Service,
    message: &'a mut Message,
    moment: u64,
) -> ResolvedRequest<'a>
    ensures ends { result.end ≡ end_after message.entry.now }
    ensures served { is_failed_step result.end ≡ false }
    ensures is { Is result (request_of service.now moment message.entry.now) }
{
    let end = end_of(message);
    let understood = resolve_target_and_meaning(alloc, service, message, moment);
    ResolvedRequest {
        caller: understood.caller,
        method: message.method.as_slice(),
        resource: resolved_resource_path(message.target.as_slice()),
        means: understood.means,
        end,
    }
}

/// What was understood of a message: who sent it, and what it means.
#[derive(Debug, Drop)]
struct Understood {
    caller: Caller,
    means: Meant,
}

fn refused(code: Code) -> Understood
    requires { IsProperCode code }
    ensures means { result.means ≡ variant.Refused code }
    ensures caller { result.caller ≡ anonymous }
{
    Understood {
        caller: Caller::Anonymous,
        means: Meant::refused(code),
    }
}

fn resolve_out_of_memory() -> Understood
    ensures means { result.means ≡ variant.Memory }
{
    Understood {
        caller: Caller::Anonymous,
        means: Meant::Memory,
    }
}

/// The target is read, then the signature is verified, and then the meaning is found.
fn resolve_target_and_meaning(
    alloc: Global,
    service: &Service,
    message: &mut Message,
    moment: u64,
) -> Understood
    ensures means { result.means ≢ variant.Memory
        → result.means ≡ resolve_target service.now moment message.entry.now
        (target_of message.entry.now.target) }
    ensures caller { result.means ≢ variant.Memory
        → result.caller ≡ caller_of service.now moment message.entry.now
        (target_of message.entry.now.target) }
    ensures keeps { KeepsFront message.entry.now message.exit.now }
{
    match Target::read(alloc, message.target.as_slice()) {
        Ok(target) => verify_and_understand(alloc, service, message, target, moment),
        Err(NameFault::Memory) => resolve_out_of_memory(),
        Err(
            NameFault::BadBucket
            | NameFault::EmptyKey
            | NameFault::LongKey
            | NameFault::NotUtf8
            | NameFault::BadEscape,
        ) => refused(Code::InvalidURI),
    }
}

/// The signature is verified, and then the meaning is found.
#[tactic(auto, using(crate::proofs::Resolving::refused_means, crate::proofs::Resolving::refused_caller))]
fn verify_and_understand(
    alloc: Global,
    service: &Service,
    message: &mut Message,
    target: Target,
    moment: u64,
) -> Understood
    ensures means { result.means ≢ variant.Memory → result.means ≡ admitted service.now.settings target
        (opening_at service.now moment message.entry.now target) }
    ensures caller { result.means ≢ variant.Memory → result.caller ≡ caller_or_anonymous
        (opening_at service.now moment message.entry.now target) }
    ensures keeps { KeepsFront message.entry.now message.exit.now }
{
    match sender_of(alloc, service, message, &target, moment) {
        Ok(sender) => Understood {
            caller: sender.caller,
            means: meaning_for_sender(alloc, message, target, &sender, &service.settings),
        },
        Err(means) => Understood {
            caller: Caller::Anonymous,
            means,
        },
    }
}

/// What a request of that sender means. The names of a signature in the query don't count.
fn meaning_for_sender(
    alloc: Global,
    message: &mut Message,
    target: Target,
    sender: &Sender,
    settings: &Settings,
) -> Meant
    ensures value { result ≢ variant.Memory
        → result ≡ sent_meaning settings.now message.entry.now (asked_target target) sender.now }
    ensures keeps { KeepsFront message.entry.now message.exit.now }
{
    match asked_target(alloc, target) {
        Ok(target) => sent_meaning(alloc, message, &target, sender, settings),
        Err(_) => Meant::Memory,
    }
}

fn sent_meaning(
    alloc: Global,
    message: &mut Message,
    target: &Target,
    sender: &Sender,
    settings: &Settings,
) -> Meant
    ensures value { result ≢ variant.Memory
        → result ≡ sent_meaning settings.now message.entry.now target.now sender.now }
    ensures keeps { KeepsFront message.entry.now message.exit.now }
{
    if settings.extended {
        extended_meaning(alloc, message, target, sender, settings)
    } else {
        meaning(alloc, message, target, &sender.caller, settings)
    }
}

fn asked_target(alloc: Global, target: Target) -> Result<Target, Memory>
    ensures { IfOk result (λ asked. asked ≡ asked_target target) }
{
    if !is_presigned(&target) {
        return Ok(target);
    }
    let query = without_signature(alloc, &target.query)?;
    Ok(Target { query, ..target })
}

/// Who sent a request, or what it is answered whose signature or body is refused. A message is opened whose body comes in chunks,
/// where the service takes such.
fn sender_of(
    alloc: Global,
    service: &Service,
    message: &mut Message,
    target: &Target,
    moment: u64,
) -> Result<Sender, Meant>
    ensures opens { Opens (opening_at service.now moment message.entry.now target.now) result message.exit.now }
    ensures keeps { KeepsFront message.entry.now message.exit.now }
{
    let settings = &service.settings;
    match taken_form(settings, message, target) {
        Some(form) => {
            let by = ChunkRules {
                keys: &service.keys,
                region: settings.region.as_slice(),
                largest: settings.body_limit(),
            };
            open_chunked(alloc, &by, form, message, target, moment)
        }
        None => unchunked_sender_of(alloc, service, message, target, moment),
    }
}

/// The form in which the body comes in chunks, where the settings are extended and the request isn't presigned.
fn taken_form(settings: &Settings, message: &Message, target: &Target) -> Option<ChunkedForm>
    ensures { result ≡ taken_form settings.now message.now target.now }
{
    if settings.extended && !is_presigned(target) {
        chunked_form(message.headers.as_slice())
    } else {
        None
    }
}

#[tactic(auto, using(crate::proofs::Resolving::sent_unchunked, crate::proofs::Resolving::sent_refused))]
fn unchunked_sender_of(
    alloc: Global,
    service: &Service,
    message: &Message,
    target: &Target,
    moment: u64,
) -> Result<Sender, Meant>
    ensures opens { Opens (as_sent message.now (verdict_at service.now moment message.now target.now))
        result message.now }
{
    match verified_caller(alloc, service, message, target, moment) {
        Ok(caller) => Ok(Sender::unchunked(alloc, caller)),
        Err(means) => Err(means),
    }
}

/// Who sent a request, or what it is answered whose signature is refused: that in its query where it is presigned, and else
/// that in its header.
#[tactic(auto, using(crate::proofs::Resolving::verified_first, crate::proofs::Resolving::verified_second))]
fn verified_caller(
    alloc: Global,
    service: &Service,
    message: &Message,
    target: &Target,
    moment: u64,
) -> Result<Caller, Meant>
    ensures verdict { Verifies (verdict_at service.now moment message.now target.now) result }
{
    if is_presigned(target) {
        verified_caller_by_query(alloc, service, message, target, moment)
    } else {
        verified_caller_by_header(alloc, service, message, target, moment)
    }
}

#[tactic(auto, using(crate::proofs::Resolving::query_verifies))]
fn verified_caller_by_query(
    alloc: Global,
    service: &Service,
    message: &Message,
    target: &Target,
    moment: u64,
) -> Result<Caller, Meant>
    requires { is_presigned target.now.query ≡ true }
    ensures verdict { Verifies (by_query (owner_or_refusal service.now.keys
        service.now.settings.region message.now target.now moment)) result }
{
    let request = SignedRequest {
        message,
        target,
        region: service.settings.region.as_slice(),
        moment,
    };
    match verify_query(alloc, &service.keys, &request) {
        Ok(caller) => Ok(caller),
        Err(refusal) => Err(refused_by_query(refusal)),
    }
}

#[tactic(auto, using(crate::proofs::Resolving::refused_verifies))]
fn verified_caller_by_header(
    alloc: Global,
    service: &Service,
    message: &Message,
    target: &Target,
    moment: u64,
) -> Result<Caller, Meant>
    ensures verdict { Verifies (by_header (caller_or_refusal service.now.keys
        service.now.settings.region message.now target.now moment)) result }
{
    let request = SignedRequest {
        message,
        target,
        region: service.settings.region.as_slice(),
        moment,
    };
    match verify(alloc, &service.keys, &request) {
        Ok(caller) => Ok(caller),
        Err(refusal) => Err(refused_by(refusal)),
    }
}

/// What a presigned request is answered whose signature is refused.
fn refused_by_query(refusal: QueryRefusal) -> Meant
    ensures { result ≡ refused_by_query refusal }
{
    match refusal {
        QueryRefusal::QueryMalformed | QueryRefusal::WrongScope => {
            Meant::refused(Code::AuthorizationQueryParametersError)
        }
        QueryRefusal::UnknownKey => Meant::refused(Code::InvalidAccessKeyId),
        QueryRefusal::UnsignedHeader | QueryRefusal::OutOfTime => {
            Meant::refused(Code::AccessDenied)
        }
        QueryRefusal::Streaming => Meant::refused(Code::NotImplemented),
        QueryRefusal::SignatureDiffers(_) => Meant::refused(Code::SignatureDoesNotMatch),
        QueryRefusal::Memory => Meant::Memory,
    }
}

/// How the connection ends after the reply to a message, if it does.
fn end_of(message: &Message) -> Option<Ended>
    ensures is { result ≡ end_after message.now }
    ensures served { is_failed_step result ≡ false }
{
    if closes(message) {
        Some(Ended::Closed)
    } else {
        None
    }
}

/// A request that was refused before it was understood, as it is answered: with the code of its kind, on `/`.
#[tactic(auto, using(crate::proofs::Resolving::refused_is))]
fn resolve_refused(kind: Kind, place: u64, head: bool) -> ResolvedRequest<'static>
    ensures ends { result.end ≡ Some (ended.Refused kind place) }
    ensures served { is_failed_step result.end ≡ false }
    ensures is { Is result (refused_request kind place head) }
{
    ResolvedRequest {
        caller: Caller::Anonymous,
        method: method_for(head),
        resource: b"/",
        means: Meant::refused(code_of_refused_front(kind)),
        end: Some(Ended::Refused { kind, place }),
    }
}

fn method_for(head: bool) -> &'static [u8]
    ensures { result.now ≡ cond head (codes "HEAD") [] }
{
    if head { b"HEAD" } else { b"" }
}

fn code_of_refused_front(kind: Kind) -> Code
    ensures code { result ≡ code_of kind }
    ensures proper { IsProperCode result }
{
    match kind {
        Kind::BadHead | Kind::LongHead | Kind::ManyHeaders | Kind::BadLength => {
            Code::InvalidRequest
        }
        Kind::NoLength => Code::MissingContentLength,
        Kind::LongBody => Code::EntityTooLarge,
        Kind::Transfer => Code::NotImplemented,
        Kind::ShortBody => Code::IncompleteBody,
    }
}

// The text before a `?`.
fn resolved_resource_path(target: &[u8]) -> &[u8]
    ensures { result.now ≡ raw_path target.now }
{
    match question_mark_of_resolved_target(target) {
        Some(at) => &target[..at],
        None => target,
    }
}

fn question_mark_of_resolved_target(target: &[u8]) -> Option<usize>
    ensures place { result ≡ position is_question_mark target.now }
    ensures within { IfSome result (λ at. at < length target.now) }
{
    target.iter().position(|byte| *byte == b'?')
}
