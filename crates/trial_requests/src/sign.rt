//! The signatures of the requests.
ghost use Rattle.std.specs.Prelude.{◌≡◌, true, IfOk, codes};
ghost use Rattle.sha2.specs.Sha256.{sha256};
ghost use Rattle.sigv4.specs.Sign.{is_date_time, signed_of};
ghost use Rattle.trial_requests.specs.Trial.{canonical_of_trial, hash_text, header_of, signed_headers, signed_names};

use crate::asked::TrialRequest;
use gate_base::{Bytes, Copying, List, Memory, Pair};
use http_wire::Message;
use sha2::{Digest, Sha256};
use sigv4::{Signed, canonical_with, sign};
use std::alloc::Global;

const SECRET: &[u8] = b"trial";

const REGION: &[u8] = b"us-east-1";

/// What a request signs to, with this hash of its body.
pub(crate) fn sign_trial_request(
    alloc: Global,
    request: &TrialRequest,
    hash: &[u8],
    time: &[u8],
) -> Result<Signed, Memory>
    requires { is_date_time time.now ≡ true }
    ensures { IfOk result (λ signed. signed ≡ signed_of (codes "trial") time.now (codes "us-east-1")
        (canonical_of_trial request.now hash.now time.now)) }
{
    let text = canonical_of_trial(alloc, request, hash, time)?;
    sign(alloc, SECRET, time, REGION, text.as_slice())
}

fn canonical_of_trial(
    alloc: Global,
    request: &TrialRequest,
    hash: &[u8],
    time: &[u8],
) -> Result<Bytes, Memory>
    ensures { IfOk result
        (λ text. text ≡ canonical_of_trial request.now hash.now time.now) }
{
    let message = Message {
        method: request.method.copy()?,
        target: Bytes::new(alloc),
        old: false,
        headers: signed_headers(alloc, hash, time)?,
        body: Bytes::new(alloc),
    };
    let names = signed_names(alloc)?;
    canonical_with(
        alloc,
        &message,
        request.path.as_slice(),
        request.query.as_slice(),
        names.as_slice(),
        hash,
    )
}

fn signed_headers(alloc: Global, hash: &[u8], time: &[u8]) -> Result<List<Pair>, Memory>
    ensures { IfOk result (λ headers. headers ≡ signed_headers hash.now time.now) }
{
    let mut headers = List::new(alloc);
    headers.push(header_of(alloc, b"host", b"trial")?)?;
    headers.push(header_of(alloc, b"x-amz-content-sha256", hash)?)?;
    headers.push(header_of(alloc, b"x-amz-date", time)?)?;
    Ok(headers)
}

fn header_of(alloc: Global, name: &[u8], value: &[u8]) -> Result<Pair, Memory>
    ensures { IfOk result (λ header. header ≡ header_of name.now value.now) }
{
    Ok(Pair {
        name: Bytes::from_slice(alloc, name)?,
        value: Bytes::from_slice(alloc, value)?,
    })
}

fn signed_names(alloc: Global) -> Result<List<Bytes>, Memory>
    ensures { IfOk result (λ names. names ≡ signed_names) }
{
    let mut names = List::new(alloc);
    names.push(Bytes::from_slice(alloc, b"host")?)?;
    names.push(Bytes::from_slice(alloc, b"x-amz-content-sha256")?)?;
    names.push(Bytes::from_slice(alloc, b"x-amz-date")?)?;
    Ok(names)
}

/// The SHA-256 of a body in lower-case hexadecimal digits.
pub(crate) fn hash_text(alloc: Global, body: &[u8]) -> Result<Bytes, Memory>
    ensures { IfOk result (λ text. text ≡ hash_text body.now) }
{
    let text = hex::encode(alloc, Sha256::digest(body))?;
    Bytes::from_slice(alloc, text.as_bytes())
}
