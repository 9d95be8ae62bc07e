ghost use Rattle.std.specs.Prelude.{◌≡◌, true, IfOk};
ghost use Rattle.std.specs.List.{list_any};
ghost use Rattle.sigv4.specs.Keys.{secret_of};
ghost use Rattle.sigv4.specs.Moment.{is_time};
ghost use Rattle.presign.specs.Parameters.{is_presigned};
ghost use Rattle.presign.specs.Verdict.{is_left_out, leaves_unsigned, is_out_of_time, signed_text, expected, first_refusal, reasons, judged_with, owner_or_refusal, Gives};

use crate::QueryRefusal;
use crate::claim::{Claim, presigned_claim_of};
use crate::parameters::SIGNATURE;
use gate_base::{Bytes, Caller, Memory, Pair};
use http_wire::{Message, has_header};
use sign_rules::must_be_signed;
use sigv4::{
    Keys, Signed, SignedRequest, canonical_with, has_signed_pieces, has_wrong_scope, is_among,
    sign, signature_differs, signing_time_seconds,
};
use std::alloc::Global;

/// The seconds by which a signature holds before its own time.
const EARLY: u64 = 900;

/// Who sent a presigned request at a moment, in seconds since 1970, by the signature in its query (Amazon S3 API Reference,
/// "Authenticating requests: using query parameters"): `Owner` where one of the keys signed it for this region and the
/// moment lies between 900 seconds before the time of the signature and its end. Else the first refusal that fits, in the
/// order of `QueryRefusal`; `Memory` may come for any request.
#[tactic(auto, unfolding(crate::specs::Verdict::owner_or_refusal))]
pub fn verify_query(
    alloc: Global,
    keys: &Keys,
    request: &SignedRequest<'_>,
) -> Result<Caller, QueryRefusal>
    requires { is_presigned request.now.target.now.query ≡ true }
    ensures { Gives result (owner_or_refusal keys.now request.now.region.now request.now.message.now
        request.now.target.now request.now.moment) }
{
    let headers = request.message.headers.as_slice();
    match presigned_claim_of(alloc, headers, request.target.query.pairs())? {
        Some(claim) => judge_query_claim(alloc, keys, request, &claim),
        None => Err(QueryRefusal::QueryMalformed),
    }
}

/// The answer to what a query says.
fn judge_query_claim(
    alloc: Global,
    keys: &Keys,
    request: &SignedRequest<'_>,
    claim: &Claim,
) -> Result<Caller, QueryRefusal>
    requires { is_time claim.now.time ≡ true }
    ensures { Gives result (judged_with (secret_of claim.now.by.id keys.now) request.now.region.now
        request.now.message.now request.now.target.now request.now.moment claim.now) }
{
    match keys.secret(claim.by.id.as_slice()) {
        Some(secret) => judge_query_by_secret(alloc, secret, request, claim),
        None => Err(QueryRefusal::UnknownKey),
    }
}

/// The answer to what a query says whose key has this secret.
fn judge_query_by_secret(
    alloc: Global,
    secret: &[u8],
    request: &SignedRequest<'_>,
    claim: &Claim,
) -> Result<Caller, QueryRefusal>
    requires { is_time claim.now.time ≡ true }
    ensures { Gives result
        (first_refusal (reasons secret.now request.now.region.now request.now.message.now
        request.now.target.now request.now.moment claim.now)) }
{
    let headers = request.message.headers.as_slice();
    if has_wrong_scope(request.region, &claim.by) {
        return Err(QueryRefusal::WrongScope);
    }
    if leaves_unsigned(claim.by.names.as_slice(), headers) {
        return Err(QueryRefusal::UnsignedHeader);
    }
    if has_signed_pieces(headers) {
        return Err(QueryRefusal::Streaming);
    }
    if is_out_of_time(claim, request.moment) {
        return Err(QueryRefusal::OutOfTime);
    }
    let due = expected_query_signature(alloc, secret, request, claim)?;
    if signature_differs(alloc, &claim.by, &due)? {
        return Err(QueryRefusal::SignatureDiffers(due.canonical_hash));
    }
    Ok(Caller::Owner)
}

fn leaves_unsigned(names: &[Bytes], headers: &[Pair]) -> bool
    ensures { result ≡ leaves_unsigned names.now headers.now }
{
    !has_header(headers, b"host") || query_leaves_some_out(names, headers)
}

fn query_leaves_some_out(names: &[Bytes], headers: &[Pair]) -> bool
    ensures { result ≡ list_any (is_left_out names.now) headers.now }
{
    headers.iter().any(|header| is_left_out(names, header))
}

/// Whether a header had to be signed and isn't. A URL can't tell the hash of a body that is sent later, so that one may be
/// added.
fn is_left_out(names: &[Bytes], header: &Pair) -> bool
    ensures { result ≡ is_left_out names.now header.now }
{
    let name = header.name.as_slice();
    must_be_signed(name) && name != b"x-amz-content-sha256".as_slice() && !is_among(name, names)
}

/// Whether the moment is more than 900 seconds before the time of the signature, or more seconds behind it than the
/// signature holds.
fn is_out_of_time(claim: &Claim, moment: u64) -> bool
    requires { is_time claim.now.time ≡ true }
    ensures { result ≡ is_out_of_time claim.now moment }
{
    let seconds = signing_time_seconds(claim.time.as_slice());
    seconds.saturating_sub(moment) > EARLY || moment.saturating_sub(seconds) > claim.expires
}

/// What the request signs to by a secret: with the query but for the signature itself, and nothing is said of its body.
#[tactic(auto, using(crate::proofs::Times::time_has_form), unfolding(crate::specs::Verdict::expected))]
fn expected_query_signature(
    alloc: Global,
    secret: &[u8],
    request: &SignedRequest<'_>,
    claim: &Claim,
) -> Result<Signed, Memory>
    requires { is_time claim.now.time ≡ true }
    ensures { IfOk result (λ due. due ≡ expected secret.now request.now.region.now
        request.now.message.now request.now.target.now claim.now) }
{
    let query = request.target.query.without(alloc, SIGNATURE)?;
    let names = claim.by.names.as_slice();
    let path = request.target.path.as_slice();
    let text = signed_text(alloc, request.message, path, query.pairs(), names)?;
    sign(
        alloc,
        secret,
        claim.time.as_slice(),
        request.region,
        text.as_slice(),
    )
}

/// The canonical request of a message with this path and query; nothing is said of its body.
pub(crate) fn signed_text(
    alloc: Global,
    message: &Message,
    path: &[u8],
    query: &[Pair],
    names: &[Bytes],
) -> Result<Bytes, Memory>
    ensures { IfOk result (λ text. text ≡ signed_text message.now path.now query.now names.now) }
{
    canonical_with(alloc, message, path, query, names, b"UNSIGNED-PAYLOAD")
}
