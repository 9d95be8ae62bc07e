//! Presigned URLs.
ghost use Rattle.std.specs.Prelude.{◌≡◌, ◌++◌, ◌∷◌, [], true, false, IfOk, OnOk, codes};
ghost use Rattle.http_wire.specs.Headers.{has_single_header as has_one_header};
ghost use Rattle.sigv4.specs.Moment.{is_time};
ghost use Rattle.sigv4.specs.Sign.{date_of, signed_of};
ghost use Rattle.presign.specs.Url.{has_signature_name, credential_for, scope_parameters, span_parameters, with_credential, signing_query, host_alone, url_of, IsPresigned, IsSigner};
ghost use Rattle.presign.specs.Verdict.{signed_text};

use crate::parameters::{
    ALGORITHM, CREDENTIAL, DATE, EXPIRES, SIGNATURE, SIGNED_HEADERS, has_presigned_parameter,
};
use crate::time::presigned_time_at;
use crate::verdict::signed_text;
use gate_base::{Bytes, Copying, List, Memory, Pair};
use http_wire::Message;
use s3_names::{Target, encode_path};
use sigv4::{canonical_query, concatenated, date_of, sign};
use std::alloc::Global;
use text_forms::decimal_text;

/// Whether the query has one of the six names of a signature. It takes no memory.
pub fn has_signature_name(target: &Target) -> bool
    ensures { result ≡ has_signature_name target.now.query }
{
    let query = target.query.pairs();
    has_presigned_parameter(query, ALGORITHM)
        || has_presigned_parameter(query, CREDENTIAL)
        || has_presigned_parameter(query, DATE)
        || has_presigned_parameter(query, EXPIRES)
        || has_presigned_parameter(query, SIGNED_HEADERS)
        || has_presigned_parameter(query, SIGNATURE)
}

/// Who signs a URL, and for how long: the secret and the id of the key, and the region; the moment from which on the URL holds, in
/// seconds since 1970, and for how many seconds, a week at most. The region has 1 to 32 bytes of `a-z 0-9 -`.
#[derive(Drop)]
pub struct UrlSigner<'a> {
    pub secret: &'a [u8],
    pub id: &'a [u8],
    pub region: &'a [u8],
    pub moment: u64,
    pub expires: u64,
}

/// A presigned URL for the method and the `host` of a message and for this target, from its path on: whoever has it may send
/// that request, with any body, from 900 seconds before the moment until `expires` seconds after it (Amazon S3 API Reference,
/// "Authenticating requests: using query parameters"). `host` is the one header that is signed. Only memory can run out.
pub fn presign(
    alloc: Global,
    signer: &UrlSigner<'_>,
    message: &Message,
    target: &Target,
) -> Result<Bytes, Memory>
    requires unsigned { has_signature_name target.now.query ≡ false }
    requires host { has_one_header (codes "host") message.now.headers ≡ true }
    requires signer { IsSigner signer.now.secret.now signer.now.id.now signer.now.region.now
        signer.now.moment signer.now.expires }
    ensures { IfOk result (IsPresigned signer.now.secret.now signer.now.id.now signer.now.region.now
        message.now target.now signer.now.moment signer.now.expires) }
{
    let time = presigned_time_at(signer.moment);
    let query = signing_query(alloc, signer, &time, target.query.pairs())?;
    let path = target.path.as_slice();
    presigned_url_of(alloc, signer, message, path, &time, query.as_slice())
}

/// The path and the query of the URL.
#[tactic(auto, using(crate::proofs::Times::time_has_form), unfolding(crate::specs::Url::url_of))]
fn presigned_url_of(
    alloc: Global,
    signer: &UrlSigner<'_>,
    message: &Message,
    path: &[u8],
    time: &[u8],
    query: &[Pair],
) -> Result<Bytes, Memory>
    requires { is_time time.now ≡ true }
    ensures { IfOk result (λ url. url ≡ url_of signer.now.secret.now signer.now.region.now
        message.now
        path.now time.now query.now) }
{
    let signature = presigned_signature(alloc, signer, message, path, time, query)?;
    let digits = hex::encode(alloc, signature)?;
    let path = encode_path(alloc, path)?;
    let query = canonical_query(alloc, query)?;
    let (path, query) = (path.as_slice(), query.as_slice());
    concatenated(
        alloc,
        &[path, b"?", query, b"&X-Amz-Signature=", digits.as_bytes()],
    )
}

/// The signature of the URL, for which `host` is signed alone.
#[tactic(auto, using(crate::proofs::Times::time_has_form))]
fn presigned_signature(
    alloc: Global,
    signer: &UrlSigner<'_>,
    message: &Message,
    path: &[u8],
    time: &[u8],
    query: &[Pair],
) -> Result<[u8; 32], Memory>
    requires { is_time time.now ≡ true }
    ensures { IfOk result (λ signature. signature ≡ (signed_of signer.now.secret.now time.now
        signer.now.region.now (signed_text message.now path.now query.now host_alone)).signature) }
{
    let names = [Bytes::from_slice(alloc, b"host")?];
    let text = signed_text(alloc, message, path, query, &names)?;
    Ok(sign(alloc, signer.secret, time, signer.region, text.as_slice())?.signature)
}

/// The query as it is signed.
#[tactic(auto, unfolding(crate::specs::Url::signing_query))]
fn signing_query(
    alloc: Global,
    signer: &UrlSigner<'_>,
    time: &[u8],
    query: &[Pair],
) -> Result<List<Pair>, Memory>
    requires { is_time time.now ≡ true }
    ensures { IfOk result (λ pairs. pairs ≡ signing_query signer.now.id.now signer.now.region.now
        time.now signer.now.expires query.now) }
{
    let credential = credential_for(alloc, signer.id, time, signer.region)?;
    let mut pairs = presigned_pairs_of(alloc, query)?;
    add_parameters(
        alloc,
        &mut pairs,
        credential.as_slice(),
        time,
        signer.expires,
    )?;
    Ok(pairs)
}

#[tactic(auto, using(crate::proofs::Appends::both_more))]
fn add_parameters(
    alloc: Global,
    pairs: &mut List<Pair>,
    credential: &[u8],
    time: &[u8],
    expires: u64,
) -> Result<(), Memory>
    ensures { OnOk result
        (pairs.new ≡ pairs.old ++ with_credential credential.now time.now expires) }
{
    let seconds = decimal_text(alloc, expires)?;
    add_credential_parameters(alloc, pairs, credential, time)?;
    add_span_parameters(alloc, pairs, seconds.as_slice())?;
    Ok(())
}

fn add_credential_parameters(
    alloc: Global,
    pairs: &mut List<Pair>,
    credential: &[u8],
    time: &[u8],
) -> Result<(), Memory>
    ensures { OnOk result (pairs.new ≡ pairs.old ++ scope_parameters credential.now time.now) }
{
    add_parameter(alloc, pairs, ALGORITHM, b"AWS4-HMAC-SHA256")?;
    add_parameter(alloc, pairs, CREDENTIAL, credential)?;
    add_parameter(alloc, pairs, DATE, time)?;
    Ok(())
}

fn add_span_parameters(alloc: Global, pairs: &mut List<Pair>, seconds: &[u8]) -> Result<(), Memory>
    ensures { OnOk result (pairs.new ≡ pairs.old ++ span_parameters seconds.now) }
{
    add_parameter(alloc, pairs, EXPIRES, seconds)?;
    add_parameter(alloc, pairs, SIGNED_HEADERS, b"host")?;
    Ok(())
}

fn add_parameter(
    alloc: Global,
    pairs: &mut List<Pair>,
    name: &[u8],
    value: &[u8],
) -> Result<(), Memory>
    ensures { OnOk result
        (pairs.new ≡ pairs.old ++ record { name = name.now; value = value.now } ∷ []) }
{
    let pair = Pair {
        name: Bytes::from_slice(alloc, name)?,
        value: Bytes::from_slice(alloc, value)?,
    };
    pairs.push(pair)
}

fn presigned_pairs_of(alloc: Global, query: &[Pair]) -> Result<List<Pair>, Memory>
    ensures { IfOk result (λ pairs. pairs ≡ query.now) }
{
    let mut pairs = List::new(alloc);
    for pair in query {
        pairs.push(pair.copy()?)?;
    }
    Ok(pairs)
}

#[tactic(auto, using(crate::proofs::Times::time_has_form))]
fn credential_for(alloc: Global, id: &[u8], time: &[u8], region: &[u8]) -> Result<Bytes, Memory>
    requires { is_time time.now ≡ true }
    ensures { IfOk result
        (λ credential. credential ≡ credential_for id.now (date_of time.now) region.now) }
{
    let date = date_of(time);
    concatenated(alloc, &[id, b"/", date, b"/", region, b"/s3/aws4_request"])
}
