ghost use Rattle.std.specs.Prelude.{◌≡◌, true, bytes_eq, IfOk};
ghost use Rattle.sigv4.specs.Sign.{is_date_time, date_of, scope_of, string_to_sign, signing_key, signature_of, signed_of};

use crate::hash::hmac;
use crate::texts::concatenated;
use gate_base::{Bytes, Memory};
use sha2::{Digest, Sha256};
use std::alloc::Global;
use text_forms::all_digits;

/// The bytes of a time `YYYYMMDDTHHMMSSZ`.
const TIME: usize = 16;

/// What a request signs to: the SHA-256 of its canonical request, and its signature.
#[derive(Clone, Copy, Debug, PartialEq, Eq)]
pub struct Signed {
    pub canonical_hash: [u8; 32],
    pub signature: [u8; 32],
}

/// Signs a canonical request by a secret, for the time `YYYYMMDDTHHMMSSZ` and the region (Amazon S3 API Reference,
/// "Authenticating requests: using the Authorization header", tasks 2 and 3).
#[tactic(auto, unfolding(crate::specs::Sign::signed_of))]
pub fn sign(
    alloc: Global,
    secret: &[u8],
    date_time: &[u8],
    region: &[u8],
    canonical: &[u8],
) -> Result<Signed, Memory>
    requires { is_date_time date_time.now ≡ true }
    ensures { IfOk result (λ signed.
        signed ≡ signed_of secret.now date_time.now region.now canonical.now) }
{
    let canonical_hash = Sha256::digest(canonical);
    let signature = signature_of(alloc, secret, date_time, region, &canonical_hash)?;
    Ok(Signed {
        canonical_hash,
        signature,
    })
}

fn signature_of(
    alloc: Global,
    secret: &[u8],
    date_time: &[u8],
    region: &[u8],
    hash: &[u8; 32],
) -> Result<[u8; 32], Memory>
    requires { is_date_time date_time.now ≡ true }
    ensures { IfOk result (λ signature.
        signature ≡ signature_of secret.now date_time.now region.now hash.now) }
{
    let date = date_of(date_time);
    let scope = scope_of(alloc, date, region)?;
    let text = string_to_sign(alloc, date_time, scope.as_slice(), hash)?;
    let key = signing_key(alloc, secret, date, region)?;
    Ok(hmac(&key, text.as_slice()))
}

/// Whether a text has the form `YYYYMMDDTHHMMSSZ`, with any digits.
pub fn is_date_time(text: &[u8]) -> bool
    ensures { result ≡ is_date_time text.now }
{
    text.len() == TIME
        && all_digits(&text[..8])
        && text[8] == b'T'
        && all_digits(&text[9..15])
        && text[15] == b'Z'
}

/// The date of a time.
pub fn date_of(date_time: &[u8]) -> &[u8]
    requires { is_date_time date_time.now ≡ true }
    ensures { result.now ≡ date_of date_time.now }
{
    &date_time[..8]
}

pub(crate) fn scope_of(alloc: Global, date: &[u8], region: &[u8]) -> Result<Bytes, Memory>
    ensures { IfOk result (λ scope. scope ≡ scope_of date.now region.now) }
{
    concatenated(alloc, &[date, b"/", region, b"/s3/aws4_request"])
}

fn string_to_sign(
    alloc: Global,
    date_time: &[u8],
    scope: &[u8],
    hash: &[u8; 32],
) -> Result<Bytes, Memory>
    ensures { IfOk result (λ text. text ≡ string_to_sign date_time.now scope.now hash.now) }
{
    let digits = hex::encode(alloc, *hash)?;
    let hash = digits.as_bytes();
    concatenated(
        alloc,
        &[b"AWS4-HMAC-SHA256\n", date_time, b"\n", scope, b"\n", hash],
    )
}

pub(crate) fn signing_key(
    alloc: Global,
    secret: &[u8],
    date: &[u8],
    region: &[u8],
) -> Result<[u8; 32], Memory>
    ensures { IfOk result (λ key. key ≡ signing_key secret.now date.now region.now) }
{
    let key = concatenated(alloc, &[b"AWS4", secret])?;
    let of_date = hmac(key.as_slice(), date);
    let of_region = hmac(&of_date, region);
    let of_service = hmac(&of_region, b"s3");
    Ok(hmac(&of_service, b"aws4_request"))
}

/// Whether two texts are the same. Where they are of one length, every byte of both is looked at, whatever the others are.
pub fn are_same_signatures(left: &[u8], right: &[u8]) -> bool
    ensures { result ≡ bytes_eq left.now right.now }
{
    let mut same = left.len() == right.len();
    for (one, other) in left.iter().zip(right) {
        same = (one == other) & same;
    }
    same
}
