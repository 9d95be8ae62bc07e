//! Who signed the head of a request whose body comes in pieces.
ghost use Rattle.std.specs.Prelude.{◌≡◌, false, IfOk};
ghost use Rattle.sigv4.specs.Chunked.{GivesSeal, head_judged_with, head_reasons, seal_after, seal_of, seal_or_refusal};
ghost use Rattle.sigv4.specs.Keys.{secret_of};
ghost use Rattle.sigv4.specs.Verdict.{first_refusal, lacks_date};

use crate::authorization::Authorization;
use crate::moment::is_skewed;
use crate::signature::{date_of, scope_of, signing_key};
use crate::verdict::{
    AUTHORIZATION, PAYLOAD, SignedRequest, claim_of, expected_signature, has_wrong_scope,
    lacks_date, leaves_unsigned, signature_differs, time_of,
};
use crate::{Keys, Refusal};
use gate_base::{Bytes, Copying, Memory};
use http_wire::{Message, has_header, has_single_header};
use std::alloc::Global;

/// What the pieces of a body are signed from, where the head of its request was signed: the signing key, the time and the scope of
/// the head's signature, and that signature, in 64 lower-case hexadecimal digits.
#[derive(Drop)]
pub struct Seal {
    pub key: [u8; 32],
    pub date_time: Bytes,
    pub scope: Bytes,
    pub signature: Bytes,
}

/// Who signed the head of a request whose body isn't looked at, since it comes in pieces (Amazon S3 API Reference, "Signature
/// calculations for the Authorization header: transferring a payload in multiple chunks"): none where there is no Authorization
/// header, and what the pieces are signed from where one of the keys signed it for this region. Else the first refusal that fits,
/// as for [`crate::verify`], but for those of the body; its `x-amz-content-sha256` may have any one value. `Memory` may come for
/// any request.
#[tactic(auto, unfolding(crate::specs::Chunked::seal_or_refusal))]
pub fn verify_head(
    alloc: Global,
    keys: &Keys,
    request: &SignedRequest<'_>,
) -> Result<Option<Seal>, Refusal>
    ensures { GivesSeal result (seal_or_refusal keys.now request.now.region.now
        request.now.message.now
        request.now.target.now request.now.moment) }
{
    if !has_header(request.message.headers.as_slice(), AUTHORIZATION) {
        return Ok(None);
    }
    match claim_of(alloc, request.message.headers.as_slice())? {
        Some(claim) => judge_head_claim(alloc, keys, request, &claim),
        None => Err(Refusal::HeaderMalformed),
    }
}

/// The answer to what a header says.
fn judge_head_claim(
    alloc: Global,
    keys: &Keys,
    request: &SignedRequest<'_>,
    claim: &Authorization,
) -> Result<Option<Seal>, Refusal>
    ensures { GivesSeal result
        (head_judged_with (secret_of claim.now.id keys.now) request.now.region.now
        request.now.message.now
        request.now.target.now request.now.moment claim.now) }
{
    match keys.secret(claim.id.as_slice()) {
        Some(secret) => judge_head_by_secret(alloc, secret, request, claim),
        None => Err(Refusal::UnknownKey),
    }
}

/// The answer to what a header says whose key has this secret.
fn judge_head_by_secret(
    alloc: Global,
    secret: &[u8],
    request: &SignedRequest<'_>,
    claim: &Authorization,
) -> Result<Option<Seal>, Refusal>
    ensures { GivesSeal result (seal_after (first_refusal
        (head_reasons secret.now request.now.region.now request.now.message.now
        request.now.target.now request.now.moment claim.now))
        (seal_of secret.now request.now.region.now request.now.message.now claim.now)) }
{
    let headers = request.message.headers.as_slice();
    if has_wrong_scope(request.region, claim) {
        return Err(Refusal::WrongScope);
    }
    if leaves_unsigned(claim, headers) {
        return Err(Refusal::UnsignedHeader);
    }
    if lacks_date(claim, headers) {
        return Err(Refusal::NoDate);
    }
    if is_skewed(time_of(headers), request.moment) {
        return Err(Refusal::Skewed);
    }
    if !has_single_header(headers, PAYLOAD) {
        return Err(Refusal::NoPayloadHash);
    }
    let due = expected_signature(alloc, secret, request, claim)?;
    if signature_differs(alloc, claim, &due)? {
        return Err(Refusal::SignatureDiffers(due.canonical_hash));
    }
    Ok(Some(seal_of(alloc, secret, request.region, request.message, claim)?))
}

/// What the pieces are signed from.
#[tactic(auto, unfolding(crate::specs::Chunked::seal_of))]
fn seal_of(
    alloc: Global,
    secret: &[u8],
    region: &[u8],
    message: &Message,
    claim: &Authorization,
) -> Result<Seal, Memory>
    requires { lacks_date claim.now message.now.headers ≡ false }
    ensures { IfOk result (λ seal. seal ≡ seal_of secret.now region.now message.now claim.now) }
{
    let time = time_of(message.headers.as_slice());
    let date = date_of(time);
    let key = signing_key(alloc, secret, date, region)?;
    Ok(Seal {
        key,
        date_time: Bytes::from_slice(alloc, time)?,
        scope: scope_of(alloc, date, region)?,
        signature: claim.signature.copy()?,
    })
}
