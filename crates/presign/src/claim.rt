//! What the query of a presigned request says.
ghost use Rattle.std.specs.Prelude.{◌≡◌, true, IfOk, IfSome};
ghost use Rattle.std.specs.Bool.{OnTrue};
ghost use Rattle.sigv4.specs.Moment.{is_time};
ghost use Rattle.presign.specs.Claim.{parts_of, presigned_time_in, is_labelled, is_dated, formed_presigned_parts, claim_of};

use crate::number::expiry_span_of;
use crate::parameters::{
    ALGORITHM, CREDENTIAL, DATE, EXPIRES, SIGNATURE, SIGNED_HEADERS, has_each_once, parameter,
};
use gate_base::{Bytes, Memory, Pair};
use http_wire::has_header;
use sigv4::{Authorization, authorization_from, behind_service, is_formed, is_of_day, is_time};
use std::alloc::Global;

/// What the query of a presigned request says: who signed it for which day, region and service, which headers, and the
/// signature; for which time, and for how many seconds from then on.
#[derive(Drop)]
pub struct Claim {
    pub by: Authorization,
    pub time: Bytes,
    pub expires: u64,
}

/// What the query of a request with these headers says; none exactly where it hasn't the form.
#[tactic(auto, unfolding(crate::specs::Claim::claim_of))]
pub(crate) fn presigned_claim_of(
    alloc: Global,
    headers: &[Pair],
    query: &[Pair],
) -> Result<Option<Claim>, Memory>
    ensures claim { IfOk result (λ claim. claim ≡ claim_of headers.now query.now) }
    ensures timed { IfOk result (λ claim. IfSome claim (λ said. is_time said.time ≡ true)) }
{
    let Some(expires) = expiry_span_of(parameter(query, EXPIRES)) else {
        return Ok(None);
    };
    let Some(by) = formed_presigned_parts(alloc, headers, query)? else {
        return Ok(None);
    };
    Ok(Some(Claim {
        by,
        time: Bytes::from_slice(alloc, presigned_time_in(query))?,
        expires,
    }))
}

/// The parts of the query, where each has its form and the time is of the credential's day.
fn formed_presigned_parts(
    alloc: Global,
    headers: &[Pair],
    query: &[Pair],
) -> Result<Option<Authorization>, Memory>
    ensures parts { IfOk result (λ parts. parts ≡ formed_presigned_parts headers.now query.now) }
    ensures timed { IfOk result (λ parts. IfSome parts (λ _. is_time (presigned_time_in query.now) ≡ true)) }
{
    if !is_labelled(headers, query) {
        return Ok(None);
    }
    let parts = parts_of(alloc, query)?;
    if is_formed(&parts) && is_dated(presigned_time_in(query), parts.date.as_slice()) {
        Ok(Some(parts))
    } else {
        Ok(None)
    }
}

/// Whether a text is a time of the calendar, and of that day.
fn is_dated(time: &[u8], day: &[u8]) -> bool
    ensures value { result ≡ is_dated time.now day.now }
    ensures timed { OnTrue result (is_time time.now ≡ true) }
{
    is_time(time) && is_of_day(time, day)
}

fn is_labelled(headers: &[Pair], query: &[Pair]) -> bool
    ensures { result ≡ is_labelled headers.now query.now }
{
    !has_header(headers, b"authorization")
        && has_each_once(query)
        && parameter(query, ALGORITHM) == b"AWS4-HMAC-SHA256".as_slice()
        && behind_service(parameter(query, CREDENTIAL)) == b"aws4_request".as_slice()
}

fn presigned_time_in(query: &[Pair]) -> &[u8]
    ensures { result.now ≡ presigned_time_in query.now }
{
    parameter(query, DATE)
}

#[tactic(auto, unfolding(crate::specs::Claim::parts_from))]
fn parts_of(alloc: Global, query: &[Pair]) -> Result<Authorization, Memory>
    ensures { IfOk result (λ parts. parts ≡ parts_of query.now) }
{
    authorization_from(
        alloc,
        parameter(query, CREDENTIAL),
        parameter(query, SIGNED_HEADERS),
        parameter(query, SIGNATURE),
    )
}
