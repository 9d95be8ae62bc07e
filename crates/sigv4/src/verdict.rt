ghost use Rattle.std.specs.Prelude.{◌≡◌, false, IfOk};
ghost use Rattle.std.specs.List.{list_any};
ghost use Rattle.sigv4.specs.Keys.{secret_of};
ghost use Rattle.sigv4.specs.Verdict.{claim_of, has_wrong_scope, is_among, is_left_out, leaves_unsigned, time_of, lacks_date, hash_of, announces_signed_pieces, has_signed_pieces, is_unsigned_payload, lacks_payload_hash, expected, signature_differs, payload_differs, first_refusal, reasons, judged_with, caller_or_refusal, Gives};

use crate::authorization::{Authorization, is_hex};
use crate::moment::{is_of_day, is_skewed, is_time};
use crate::request::canonical;
use crate::signature::{Signed, are_same_signatures, sign};
use crate::{Keys, Refusal};
use gate_base::{Bytes, Caller, Memory, Pair};
use http_wire::{Message, first_value, has_header, has_name, has_single_header};
use s3_names::Target;
use sha2::{Digest, Sha256};
use sign_rules::{is_of_scope, must_be_signed};
use std::alloc::Global;

pub(crate) const AUTHORIZATION: &[u8] = b"authorization";

const DATE: &[u8] = b"x-amz-date";

pub(crate) const PAYLOAD: &[u8] = b"x-amz-content-sha256";

/// A request whose signature is verified: its message and its target, at a region and at a moment, in seconds since 1970.
#[derive(Drop)]
pub struct SignedRequest<'a> {
    pub message: &'a Message,
    pub target: &'a Target,
    pub region: &'a [u8],
    pub moment: u64,
}

/// Who sent a request at a moment, in seconds since 1970, by its Authorization header (Amazon S3 API Reference,
/// "Authenticating requests: using the Authorization header"): without one `Anonymous`, and `Owner` where one of the keys
/// signed it for this region. Else the first refusal that fits, in the order of `Refusal`; `Memory` may come for any
/// request.
#[tactic(auto, unfolding(crate::specs::Verdict::caller_or_refusal))]
pub fn verify(alloc: Global, keys: &Keys, request: &SignedRequest<'_>) -> Result<Caller, Refusal>
    ensures { Gives result (caller_or_refusal keys.now request.now.region.now
        request.now.message.now
        request.now.target.now request.now.moment) }
{
    if !has_header(request.message.headers.as_slice(), AUTHORIZATION) {
        return Ok(Caller::Anonymous);
    }
    match claim_of(alloc, request.message.headers.as_slice())? {
        Some(claim) => judge_claim(alloc, keys, request, &claim),
        None => Err(Refusal::HeaderMalformed),
    }
}

/// The answer to what a header says.
fn judge_claim(
    alloc: Global,
    keys: &Keys,
    request: &SignedRequest<'_>,
    claim: &Authorization,
) -> Result<Caller, Refusal>
    ensures { Gives result
        (judged_with (secret_of claim.now.id keys.now) request.now.region.now
        request.now.message.now
        request.now.target.now request.now.moment claim.now) }
{
    match keys.secret(claim.id.as_slice()) {
        Some(secret) => judge_claim_by_secret(alloc, secret, request, claim),
        None => Err(Refusal::UnknownKey),
    }
}

/// The answer to what a header says whose key has this secret.
fn judge_claim_by_secret(
    alloc: Global,
    secret: &[u8],
    request: &SignedRequest<'_>,
    claim: &Authorization,
) -> Result<Caller, Refusal>
    ensures { Gives result
        (first_refusal (reasons secret.now request.now.region.now request.now.message.now
        request.now.target.now request.now.moment claim.now)) }
{
    let headers = request.message.headers.as_slice();
    if has_wrong_scope(request.region, claim) {
        return Err(Refusal::WrongScope);
    }
    if leaves_unsigned(claim, headers) {
        return Err(Refusal::UnsignedHeader);
    }
    if lacks_date(claim, headers) {
        return Err(Refusal::NoDate);
    }
    if is_skewed(time_of(headers), request.moment) {
        return Err(Refusal::Skewed);
    }
    if has_signed_pieces(headers) {
        return Err(Refusal::Streaming);
    }
    if lacks_payload_hash(headers) {
        return Err(Refusal::NoPayloadHash);
    }
    let due = expected_signature(alloc, secret, request, claim)?;
    if signature_differs(alloc, claim, &due)? {
        return Err(Refusal::SignatureDiffers(due.canonical_hash));
    }
    if payload_differs(alloc, request.message)? {
        return Err(Refusal::PayloadDiffers);
    }
    Ok(Caller::Owner)
}

/// What the Authorization header says, where it is the only one and has the form.
pub(crate) fn claim_of(alloc: Global, headers: &[Pair]) -> Result<Option<Authorization>, Memory>
    ensures { IfOk result (λ claim. claim ≡ claim_of headers.now) }
{
    if has_single_header(headers, AUTHORIZATION) {
        Authorization::read(alloc, first_value(headers, AUTHORIZATION))
    } else {
        Ok(None)
    }
}

/// Whether a credential is of another region, or of a service other than `s3`.
pub fn has_wrong_scope(region: &[u8], claim: &Authorization) -> bool
    ensures { result ≡ has_wrong_scope region.now claim.now }
{
    !is_of_scope(region, claim.region.as_slice(), claim.service.as_slice())
}

pub(crate) fn leaves_unsigned(claim: &Authorization, headers: &[Pair]) -> bool
    ensures { result ≡ leaves_unsigned claim.now headers.now }
{
    !has_header(headers, b"host") || leaves_some_out(claim, headers)
}

fn leaves_some_out(claim: &Authorization, headers: &[Pair]) -> bool
    ensures { result ≡ list_any (is_left_out claim.now) headers.now }
{
    headers.iter().any(|header| is_left_out(claim, header))
}

fn is_left_out(claim: &Authorization, header: &Pair) -> bool
    ensures { result ≡ is_left_out claim.now header.now }
{
    must_be_signed(header.name.as_slice())
        && !is_among(header.name.as_slice(), claim.names.as_slice())
}

/// Whether the name is one of those.
pub fn is_among(name: &[u8], names: &[Bytes]) -> bool
    ensures { result ≡ is_among name.now names.now }
{
    names.iter().any(|other| other.as_slice() == name)
}

/// The value of the first `x-amz-date`, no byte where there is none.
pub fn time_of(headers: &[Pair]) -> &[u8]
    ensures { result.now ≡ time_of headers.now }
{
    first_value(headers, DATE)
}

pub(crate) fn lacks_date(claim: &Authorization, headers: &[Pair]) -> bool
    ensures { result ≡ lacks_date claim.now headers.now }
{
    let time = time_of(headers);
    !(has_single_header(headers, DATE) && is_time(time) && is_of_day(time, claim.date.as_slice()))
}

/// The value of the first `x-amz-content-sha256`, no byte where there is none.
pub fn hash_of(headers: &[Pair]) -> &[u8]
    ensures { result.now ≡ hash_of headers.now }
{
    first_value(headers, PAYLOAD)
}

/// Whether some `x-amz-content-sha256` says that the body comes in signed pieces: its value begins with `STREAMING-`.
pub fn has_signed_pieces(headers: &[Pair]) -> bool
    ensures { result ≡ has_signed_pieces headers.now }
{
    headers.iter().any(|header| announces_signed_pieces(header))
}

fn announces_signed_pieces(header: &Pair) -> bool
    ensures { result ≡ announces_signed_pieces header.now }
{
    has_name(header, PAYLOAD) && header.value.as_slice().starts_with(b"STREAMING-")
}

fn lacks_payload_hash(headers: &[Pair]) -> bool
    ensures { result ≡ lacks_payload_hash headers.now }
{
    let hash = hash_of(headers);
    !(has_single_header(headers, PAYLOAD) && (is_hex(hash) || is_unsigned_payload(hash)))
}

fn is_unsigned_payload(hash: &[u8]) -> bool
    ensures { result ≡ is_unsigned_payload hash.now }
{
    hash == b"UNSIGNED-PAYLOAD".as_slice()
}

/// What the request signs to by a secret.
#[tactic(auto, unfolding(crate::specs::Verdict::expected))]
pub(crate) fn expected_signature(
    alloc: Global,
    secret: &[u8],
    request: &SignedRequest<'_>,
    claim: &Authorization,
) -> Result<Signed, Memory>
    requires { lacks_date claim.now request.now.message.now.headers ≡ false }
    ensures { IfOk result (λ due. due ≡ expected secret.now request.now.region.now
        request.now.message.now request.now.target.now claim.now) }
{
    let headers = request.message.headers.as_slice();
    let text = canonical(
        alloc,
        request.message,
        request.target,
        claim.names.as_slice(),
        hash_of(headers),
    )?;
    sign(
        alloc,
        secret,
        time_of(headers),
        request.region,
        text.as_slice(),
    )
}

/// Whether the signature that a request bears is another than the one that is due.
pub fn signature_differs(alloc: Global, claim: &Authorization, due: &Signed) -> Result<bool, Memory>
    ensures { IfOk result (λ differs. differs ≡ signature_differs claim.now due.now) }
{
    let digits = hex::encode(alloc, due.signature)?;
    Ok(!are_same_signatures(claim.signature.as_slice(), digits.as_bytes()))
}

fn payload_differs(alloc: Global, message: &Message) -> Result<bool, Memory>
    ensures { IfOk result (λ differs. differs ≡ payload_differs message.now) }
{
    let hash = hash_of(message.headers.as_slice());
    if is_unsigned_payload(hash) {
        return Ok(false);
    }
    let digits = hex::encode(alloc, Sha256::digest(message.body.as_slice()))?;
    Ok(hash != digits.as_bytes())
}
