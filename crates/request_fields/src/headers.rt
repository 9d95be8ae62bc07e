//! What the headers of a request say, and which of them no operation takes.
ghost use Rattle.std.specs.Prelude.{◌≡◌, ◌&&◌, ◌||◌, ◌==◌, IfOk, is_none};
ghost use Rattle.std.specs.List.{starts_with};
ghost use Rattle.http_wire.specs.Headers.{has_header, text_of};
ghost use Rattle.request_fields.specs.Headers.{is_unsupported_name, is_unsupported_kind, is_unsupported, has_unsupported, has_part, is_chunked, is_read, is_conditional_write, acl_named, names_acl, given_acl, has_other_acl, has_other_class};

use gate_base::{Memory, Pair};
use http_wire::{has_header, text_of};
use s3_names::Acl;
use std::alloc::Global;

fn is_unsupported_name(name: &[u8]) -> bool
    ensures { result ≡ is_unsupported_name name.now }
{
    name == b"x-amz-tagging".as_slice()
        || name == b"x-amz-website-redirect-location".as_slice()
        || name == b"x-amz-security-token".as_slice()
}

fn is_unsupported_kind(name: &[u8]) -> bool
    ensures { result ≡ is_unsupported_kind name.now }
{
    name.starts_with(b"x-amz-server-side-encryption")
        || name.starts_with(b"x-amz-object-lock")
        || name.starts_with(b"x-amz-bucket-object-lock")
        || name.starts_with(b"x-amz-grant-")
}

fn is_unsupported(header: &Pair) -> bool
    ensures { result ≡ is_unsupported header.now }
{
    is_unsupported_name(header.name.as_slice()) || is_unsupported_kind(header.name.as_slice())
}

/// Whether there is a header that asks for what this profile doesn't have.
pub fn has_unsupported(headers: &[Pair]) -> bool
    ensures { result ≡ has_unsupported headers.now }
{
    headers.iter().any(|header| is_unsupported(header))
}

/// Whether the word stands somewhere in the text.
#[tactic(auto, unfolding(crate::specs::Headers::has_part))]
fn content_encoding_has_word(word: &[u8], text: &[u8]) -> bool
    ensures { result ≡ has_part word.now text.now }
{
    let mut rest = text;
    'bytes: while let [_, behind @ ..] = rest {
        if rest.starts_with(word) {
            return true;
        }
        rest = behind;
    }
    false
}

/// Whether the body would come in the chunks of Signature Version 4.
pub fn is_chunked(alloc: Global, headers: &[Pair]) -> Result<bool, Memory>
    ensures { IfOk result (λ chunked. chunked ≡ is_chunked headers.now) }
{
    let encoding = text_of(alloc, headers, b"content-encoding")?;
    Ok(content_encoding_has_word(b"aws-chunked", encoding.as_slice()))
}

fn is_read(method: &[u8]) -> bool
    ensures { result ≡ is_read method.now }
{
    method == b"GET".as_slice() || method == b"HEAD".as_slice()
}

/// Whether a request that isn't a GET or HEAD has a condition on the ETag.
pub fn is_conditional_write(method: &[u8], headers: &[Pair]) -> bool
    ensures { result ≡ is_conditional_write method.now headers.now }
{
    !is_read(method) && (has_header(headers, b"if-match") || has_header(headers, b"if-none-match"))
}

/// Whether the headers name an access control list.
pub fn names_acl(headers: &[Pair]) -> bool
    ensures { result ≡ names_acl headers.now }
{
    has_header(headers, b"x-amz-acl")
}

fn acl_named(name: &[u8]) -> Option<Acl>
    ensures { result ≡ acl_named name.now }
{
    if name == b"private".as_slice() {
        Some(Acl::Private)
    } else if name == b"public-read".as_slice() {
        Some(Acl::PublicRead)
    } else {
        None
    }
}

/// The canned access control list that the headers name, if they name one that this profile has.
pub fn given_acl(alloc: Global, headers: &[Pair]) -> Result<Option<Acl>, Memory>
    ensures { IfOk result (λ acl. acl ≡ given_acl headers.now) }
{
    let name = text_of(alloc, headers, b"x-amz-acl")?;
    Ok(acl_named(name.as_slice()))
}

/// Whether the headers name an access control list that this profile doesn't have.
pub fn has_other_acl(alloc: Global, headers: &[Pair]) -> Result<bool, Memory>
    ensures { IfOk result (λ other. other ≡ has_other_acl headers.now) }
{
    if !names_acl(headers) {
        return Ok(false);
    }
    let acl = given_acl(alloc, headers)?;
    Ok(acl.is_none())
}

/// Whether a storage class other than `STANDARD` is asked for.
pub fn has_other_class(alloc: Global, headers: &[Pair]) -> Result<bool, Memory>
    ensures { IfOk result (λ other. other ≡ has_other_class headers.now) }
{
    if !has_header(headers, b"x-amz-storage-class") {
        return Ok(false);
    }
    let class = text_of(alloc, headers, b"x-amz-storage-class")?;
    Ok(class.as_slice() != b"STANDARD".as_slice())
}
