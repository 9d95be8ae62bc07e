//! The bytes of a request.
ghost use Rattle.std.specs.Prelude.{◌≡◌, ◌++◌, ◌≤◌, OnOk, IfOk, codes, map, decimal};
ghost use Rattle.hex.specs.Hex.{encode_lower};
ghost use Rattle.sigv4.specs.Sign.{date_of, is_date_time};
ghost use Rattle.trial_requests.specs.Trial.{credential, credential_of, field, first_line, head_of, last_fields, method_and_path, parameter_text, query_text, request_text, signed_fields, trial_time};
ghost use Rattle.std.specs.Prelude.{true};

use crate::asked::TrialRequest;
use crate::sign::{hash_text, sign_trial_request};
use crate::time::trial_time;
use gate_base::{Bytes, Copying, List, Memory, Pair};
use http_wire::joined;
use sigv4::date_of;
use std::alloc::Global;
use text_forms::append_decimal;

/// Adds the bytes of a request, signed for the time of its index.
#[tactic(auto, unfolding(crate::specs::Trial::request_text))]
pub(crate) fn append_trial_request(
    alloc: Global,
    text: &mut Bytes,
    index: u64,
    request: &TrialRequest,
) -> Result<(), Memory>
    requires { index ≤ 99999 }
    ensures { OnOk result (text.new ≡ text.old ++ request_text index request.now) }
{
    let time = trial_time(index);
    let hash = hash_text(alloc, request.body.as_slice())?;
    let credential = credential_of(alloc, request, hash.as_slice(), &time)?;
    append_head(
        alloc,
        text,
        request,
        hash.as_slice(),
        &time,
        credential.as_slice(),
    )?;
    text.append(request.body.as_slice())
}

/// Adds the first line, the headers and the empty line.
#[tactic(auto, unfolding(crate::specs::Trial::head_of))]
fn append_head(
    alloc: Global,
    text: &mut Bytes,
    request: &TrialRequest,
    hash: &[u8],
    time: &[u8],
    credential: &[u8],
) -> Result<(), Memory>
    ensures { OnOk result
        (text.new ≡ text.old ++ head_of request.now hash.now time.now credential.now) }
{
    append_first_line(alloc, text, request)?;
    append_signed_fields(text, hash, time)?;
    append_last_fields(
        alloc,
        text,
        request.body.as_slice().len() as u64,
        credential,
    )
}

fn append_signed_fields(text: &mut Bytes, hash: &[u8], time: &[u8]) -> Result<(), Memory>
    ensures { OnOk result (text.new ≡ text.old ++ signed_fields hash.now time.now) }
{
    append_field(text, b"host", b"trial")?;
    append_field(text, b"x-amz-content-sha256", hash)?;
    append_field(text, b"x-amz-date", time)
}

fn append_last_fields(
    alloc: Global,
    text: &mut Bytes,
    size: u64,
    credential: &[u8],
) -> Result<(), Memory>
    ensures { OnOk result (text.new ≡ text.old ++ last_fields size credential.now) }
{
    let mut length = Bytes::new(alloc);
    append_decimal(&mut length, size)?;
    append_field(text, b"Content-Length", length.as_slice())?;
    append_field(text, b"Authorization", credential)?;
    text.append(b"\r\n")
}

fn append_first_line(alloc: Global, text: &mut Bytes, request: &TrialRequest) -> Result<(), Memory>
    ensures { OnOk result (text.new ≡ text.old ++ first_line request.now) }
{
    let query = query_text(alloc, request.query.as_slice())?;
    append_method_and_path(text, request)?;
    text.append(query.as_slice())?;
    text.append(b" HTTP/1.1\r\n")
}

#[tactic(auto, unfolding(crate::specs::Trial::method_and_path))]
fn append_method_and_path(text: &mut Bytes, request: &TrialRequest) -> Result<(), Memory>
    ensures { OnOk result (text.new ≡ text.old ++ method_and_path request.now) }
{
    text.append(request.method.as_slice())?;
    text.append(b" ")?;
    text.append(request.path.as_slice())
}

#[tactic(auto, unfolding(crate::specs::Trial::field))]
fn append_field(text: &mut Bytes, name: &[u8], value: &[u8]) -> Result<(), Memory>
    ensures { OnOk result (text.new ≡ text.old ++ field name.now value.now) }
{
    text.append(name)?;
    text.append(b": ")?;
    text.append(value)?;
    text.append(b"\r\n")
}

/// The value of Authorization of a request with this hash of its body, at a time.
#[tactic(auto, unfolding(crate::specs::Trial::credential_of))]
fn credential_of(
    alloc: Global,
    request: &TrialRequest,
    hash: &[u8],
    time: &[u8],
) -> Result<Bytes, Memory>
    requires { is_date_time time.now ≡ true }
    ensures { IfOk result (λ text. text ≡ credential_of request.now hash.now time.now) }
{
    let signed = sign_trial_request(alloc, request, hash, time)?;
    let signature = hex::encode(alloc, signed.signature)?;
    credential(alloc, time, signature.as_bytes())
}

/// The same with this signature.
fn credential(alloc: Global, time: &[u8], signature: &[u8]) -> Result<Bytes, Memory>
    requires { is_date_time time.now ≡ true }
    ensures { IfOk result (λ text. text ≡ credential time.now signature.now) }
{
    let mut text = Bytes::from_slice(alloc, b"AWS4-HMAC-SHA256 Credential=TRIAL/")?;
    text.append(date_of(time))?;
    text.append(
        b"/us-east-1/s3/aws4_request,SignedHeaders=host;x-amz-content-sha256;x-amz-date,Signature=",
    )?;
    text.append(signature)?;
    Ok(text)
}

/// The query of a target, behind `?`; nothing where there is none.
#[tactic(auto, unfolding(crate::specs::Trial::query_text))]
fn query_text(alloc: Global, query: &[Pair]) -> Result<Bytes, Memory>
    ensures { IfOk result (λ text. text ≡ query_text query.now) }
{
    if query.is_empty() {
        return Ok(Bytes::new(alloc));
    }
    let parameters = parameter_texts(alloc, query)?;
    let pairs = joined(alloc, b'&', parameters.as_slice())?;
    let mut text = Bytes::from_slice(alloc, b"?")?;
    text.append(pairs.as_slice())?;
    Ok(text)
}

fn parameter_texts(alloc: Global, query: &[Pair]) -> Result<List<Bytes>, Memory>
    ensures { IfOk result (λ texts. texts ≡ map parameter_text query.now) }
{
    let mut texts = List::new(alloc);
    for pair in query {
        texts.push(parameter_text(pair)?)?;
    }
    Ok(texts)
}

/// A parameter: its name, and its value behind `=`, if it has one.
fn parameter_text(pair: &Pair) -> Result<Bytes, Memory>
    ensures { IfOk result (λ text. text ≡ parameter_text pair.now) }
{
    let mut text = pair.name.copy()?;
    if pair.value.as_slice().is_empty() {
        return Ok(text);
    }
    text.append(b"=")?;
    text.append(pair.value.as_slice())?;
    Ok(text)
}
