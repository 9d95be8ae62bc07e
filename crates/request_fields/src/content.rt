//! What an object is put with: the digest of its body, its content type and its user metadata.
ghost use Rattle.std.specs.Prelude.{◌≡◌, ◌&&◌, ◌||◌, ◌==◌, IfOk, OnOk, Ok, false};
ghost use Rattle.std.specs.List.{starts_with};
ghost use Rattle.base64.specs.Engines.{standard};
ghost use Rattle.base64.specs.GeneralPurpose.{encode_of};
ghost use Rattle.s3_machine.specs.Body.{IsDigestOf};
ghost use Rattle.s3_machine.specs.Limits.{is_kept_header};
ghost use Rattle.http_wire.specs.Headers.{has_header, text_of};
ghost use Rattle.request_fields.specs.Content.{is_digest, has_bad_digest, is_other_body, given_type, is_amz_meta_header, is_given_meta_entry, meta_entry_name, entered, given_meta, is_bad_entry, has_bad_entry};

use base64::DecodeAllocError;
use base64::engine::general_purpose::STANDARD;
use gate_base::{Bytes, Memory, Pair};
use http_wire::{has_header, text_of};
use md5::{Digest, Md5};
use s3_machine::{is_kept_header, is_meta_name, is_meta_value};
use s3_names::Meta;
use std::alloc::Global;

/// Whether the text is the strict base64 of 16 bytes (RFC 4648, section 4).
fn is_content_md5(alloc: Global, text: &[u8]) -> Result<bool, Memory>
    ensures { IfOk result (λ digest. digest ≡ is_digest text.now) }
{
    match STANDARD.decode(alloc, text) {
        Ok(bytes) => Ok(bytes.as_slice().len() == 16),
        Err(DecodeAllocError::DecodeError(_)) => Ok(false),
        Err(DecodeAllocError::OutOfMemory) => Err(Memory),
    }
}

/// Whether there is a Content-MD5 that is no digest (RFC 1864).
pub fn has_bad_digest(alloc: Global, headers: &[Pair]) -> Result<bool, Memory>
    ensures { IfOk result (λ bad. bad ≡ has_bad_digest headers.now) }
{
    if !has_header(headers, b"content-md5") {
        return Ok(false);
    }
    let text = text_of(alloc, headers, b"content-md5")?;
    Ok(!is_content_md5(alloc, text.as_slice())?)
}

fn content_md5_text(alloc: Global, digest: &[u8; 16]) -> Result<Bytes, Memory>
    ensures { IfOk result (λ text. text ≡ encode_of standard digest.now) }
{
    let text = STANDARD.encode(alloc, digest)?;
    Bytes::from_slice(alloc, text.as_bytes())
}

/// Whether there is a Content-MD5 other than the body's, and the body's MD5 where it was made for that.
pub fn is_other_body(
    alloc: Global,
    headers: &[Pair],
    body: &[u8],
) -> Result<(bool, Option<[u8; 16]>), Memory>
    ensures other { IfOk result (λ made. made.0 ≡ is_other_body headers.now body.now) }
    ensures digest { IfOk result (λ made. IsDigestOf made.1 body.now) }
{
    if !has_header(headers, b"content-md5") {
        return Ok((false, None));
    }
    let text = text_of(alloc, headers, b"content-md5")?;
    let digest = Md5::digest(body);
    let due = content_md5_text(alloc, &digest)?;
    Ok((text.as_slice() != due.as_slice(), Some(digest)))
}

/// The content type that the headers give.
pub fn given_type(alloc: Global, headers: &[Pair]) -> Result<Bytes, Memory>
    ensures { IfOk result (λ text. text ≡ given_type headers.now) }
{
    let text = text_of(alloc, headers, b"content-type")?;
    if text.len() == 0 {
        Bytes::from_slice(alloc, b"binary/octet-stream")
    } else {
        Ok(text)
    }
}

fn is_amz_meta_header(name: &[u8]) -> bool
    ensures { result ≡ is_amz_meta_header name.now }
{
    name.starts_with(b"x-amz-meta-")
}

fn is_given_meta_entry(name: &[u8]) -> bool
    ensures { result ≡ is_given_meta_entry name.now }
{
    is_amz_meta_header(name) || is_kept_header(name)
}

/// The name of the entry that a header makes: `-` and what follows `x-amz-meta-`, or the header's own.
fn meta_entry_name(name: &[u8]) -> &[u8]
    ensures { result.now ≡ meta_entry_name name.now }
{
    if is_amz_meta_header(name) {
        &name[10..]
    } else {
        name
    }
}

/// Puts the entry of a header into its place, unless its name is there.
fn enter_given_meta(
    alloc: Global,
    meta: &mut Meta,
    headers: &[Pair],
    header: &Pair,
) -> Result<(), Memory>
    ensures { OnOk result (meta.new ≡ entered headers.now meta.old header.now) }
{
    let name = header.name.as_slice();
    if !is_given_meta_entry(name) {
        return Ok(());
    }
    let value = text_of(alloc, headers, name)?;
    let _is_new = meta.add(meta_entry_name(name), value.as_slice())?;
    Ok(())
}

/// The metadata that the headers give.
#[tactic(auto, unfolding(crate::specs::Content::given_meta))]
pub fn given_meta(alloc: Global, headers: &[Pair]) -> Result<Meta, Memory>
    ensures { IfOk result (λ meta. meta ≡ given_meta headers.now) }
{
    let mut meta = Meta::new(alloc);
    for header in headers {
        enter_given_meta(alloc, &mut meta, headers, header)?;
    }
    Ok(meta)
}

fn is_bad_entry(entry: &Pair) -> bool
    ensures { result ≡ is_bad_entry entry.now }
{
    !(is_meta_name(entry.name.as_slice()) && is_meta_value(entry.value.as_slice()))
}

/// Whether an entry is past its form.
pub fn has_bad_entry(meta: &Meta) -> bool
    ensures { result ≡ has_bad_entry meta.now }
{
    any_bad_entry(meta.pairs())
}

fn any_bad_entry(entries: &[Pair]) -> bool
    ensures { result ≡ has_bad_entry entries.now }
{
    entries.iter().any(|entry| is_bad_entry(entry))
}
