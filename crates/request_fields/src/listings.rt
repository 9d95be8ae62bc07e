//! What a listing of objects asks for, and what any listing may be given: counts, which are at most the greatest that S3 takes, and
//! texts.
ghost use Rattle.std.specs.Prelude.{◌≡◌, ◌≤◌, IfOk, IfSome};
ghost use Rattle.std.specs.Result.{result_ok};
ghost use Rattle.hex.specs.Hex.{decode_of};
ghost use Rattle.request_fields.specs.Query.{text_at};
ghost use Rattle.request_fields.specs.Listings.{up_to_greatest, count_of, capped, most_by, most_keys, listing_text, token_of, given_token, has_other, has_bad_flag, has_bad_count, has_bad_text, has_bad_token, has_bad_word, has_long_text, first_asked, second_asked};

use crate::query::{is_asked, text_at};
use gate_base::{Bytes, Memory, Pair};
use hex::FromHexError;
use s3_machine::{Asked, MOST_ITEMS, is_listing_text};
use std::alloc::Global;
use text_forms::{all_lower_hex, number_of};

/// The greatest count that is read.
const GREATEST: u64 = 2_147_483_647;

fn if_at_most_greatest(count: Option<u64>) -> Option<u64>
    ensures is { result ≡ up_to_greatest count }
    ensures within { IfSome result (λ count. count ≤ 2147483647) }
{
    match count {
        Some(count) if count <= GREATEST => Some(count),
        _ => None,
    }
}

/// The count that the text writes in 1 to 10 digits, at most 2147483647.
#[tactic(auto, unfolding(crate::specs::Listings::count_of))]
pub fn asked_count_of(text: &[u8]) -> Option<u64>
    ensures is { result ≡ count_of text.now }
    ensures within { IfSome result (λ count. count ≤ 2147483647) }
{
    if_at_most_greatest(number_of(text, 10))
}

fn capped(count: Option<u64>) -> u32
    ensures { result ≡ capped count }
{
    match count {
        Some(count) => count.min(u64::from(MOST_ITEMS)) as u32,
        None => MOST_ITEMS,
    }
}

/// How many items the listing may have, by the name that says so: at most 1000.
pub fn most_by(query: &[Pair], name: &[u8]) -> u32
    ensures { result ≡ most_by name.now query.now }
{
    capped(asked_count_of(text_at(query, name)))
}

fn most_keys(query: &[Pair]) -> u32
    ensures { result ≡ most_keys query.now }
{
    most_by(query, b"max-keys")
}

/// The bytes that hexadecimal digits write, of either case.
fn given_token_bytes(alloc: Global, text: &[u8]) -> Result<Option<Bytes>, Memory>
    ensures { IfOk result (λ bytes. bytes ≡ result_ok (decode_of text.now)) }
{
    match hex::decode(alloc, text) {
        Ok(bytes) => Ok(Some(Bytes::from_vec(bytes))),
        Err(FromHexError::OutOfMemory) => Err(Memory),
        Err(
            FromHexError::OddLength
            | FromHexError::InvalidStringLength
            | FromHexError::InvalidHexCharacter { .. },
        ) => Ok(None),
    }
}

fn listing_text(bytes: Option<Bytes>) -> Option<Bytes>
    ensures { result ≡ listing_text bytes }
{
    match bytes {
        Some(bytes) if is_listing_text(bytes.as_slice()) => Some(bytes),
        _ => None,
    }
}

/// The text that a token stands for.
#[tactic(auto, unfolding(crate::specs::Listings::token_of))]
fn given_token_of(alloc: Global, text: &[u8]) -> Result<Option<Bytes>, Memory>
    ensures { IfOk result (λ token. token ≡ token_of text.now) }
{
    if !all_lower_hex(text) {
        return Ok(None);
    }
    let bytes = given_token_bytes(alloc, text)?;
    Ok(listing_text(bytes))
}

fn given_token(alloc: Global, query: &[Pair]) -> Result<Option<Bytes>, Memory>
    ensures { IfOk result (λ token. token ≡ given_token query.now) }
{
    if is_asked(query, b"continuation-token") {
        given_token_of(alloc, text_at(query, b"continuation-token"))
    } else {
        Ok(None)
    }
}

fn has_other(query: &[Pair], name: &[u8], value: &[u8]) -> bool
    ensures { result ≡ has_other name.now value.now query.now }
{
    is_asked(query, name) && text_at(query, name) != value
}

fn has_bad_flag(query: &[Pair], name: &[u8]) -> bool
    ensures { result ≡ has_bad_flag name.now query.now }
{
    has_other(query, name, b"true") && has_other(query, name, b"false")
}

/// Whether the name is there with a value that is no count.
pub fn has_bad_count(query: &[Pair], name: &[u8]) -> bool
    ensures { result ≡ has_bad_count name.now query.now }
{
    is_asked(query, name) && asked_count_of(text_at(query, name)).is_none()
}

fn has_bad_text(query: &[Pair], name: &[u8]) -> bool
    ensures { result ≡ has_bad_text name.now query.now }
{
    !is_listing_text(text_at(query, name))
}

/// Whether there is a continuation token of another form.
pub fn has_bad_token(alloc: Global, query: &[Pair]) -> Result<bool, Memory>
    ensures { IfOk result (λ bad. bad ≡ has_bad_token query.now) }
{
    if !is_asked(query, b"continuation-token") {
        return Ok(false);
    }
    let token = given_token(alloc, query)?;
    Ok(token.is_none())
}

/// Whether a word or a count of the query is of another form.
pub fn has_bad_word(query: &[Pair]) -> bool
    ensures { result ≡ has_bad_word query.now }
{
    has_other(query, b"list-type", b"2")
        || has_other(query, b"encoding-type", b"url")
        || has_bad_flag(query, b"fetch-owner")
        || has_bad_count(query, b"max-keys")
}

/// Whether a text of the query is longer than a key may be.
pub fn has_long_text(query: &[Pair]) -> bool
    ensures { result ≡ has_long_text query.now }
{
    has_bad_text(query, b"prefix")
        || has_bad_text(query, b"delimiter")
        || has_bad_text(query, b"marker")
        || has_bad_text(query, b"start-after")
        || has_bad_text(query, b"key-marker")
        || has_bad_text(query, b"upload-id-marker")
}

/// A copy of the value of a name.
pub fn copy_of_query_value(alloc: Global, query: &[Pair], name: &[u8]) -> Result<Bytes, Memory>
    ensures { IfOk result (λ text. text ≡ text_at name.now query.now) }
{
    Bytes::from_slice(alloc, text_at(query, name))
}

/// What ListObjects asks for.
pub fn first_asked(alloc: Global, query: &[Pair]) -> Result<Asked, Memory>
    ensures { IfOk result (λ asked. asked ≡ first_asked query.now) }
{
    let prefix = copy_of_query_value(alloc, query, b"prefix")?;
    let delimiter = copy_of_query_value(alloc, query, b"delimiter")?;
    let marker = copy_of_query_value(alloc, query, b"marker")?;
    Ok(Asked {
        version: 1,
        prefix,
        delimiter,
        marker,
        start_after: Bytes::new(alloc),
        token: None,
        max: most_keys(query),
        url: is_asked(query, b"encoding-type"),
        owner: false,
        versions: false,
    })
}

/// What ListObjectsV2 asks for.
pub fn second_asked(alloc: Global, query: &[Pair]) -> Result<Asked, Memory>
    ensures { IfOk result (λ asked. asked ≡ second_asked query.now) }
{
    let token = given_token(alloc, query)?;
    let prefix = copy_of_query_value(alloc, query, b"prefix")?;
    let delimiter = copy_of_query_value(alloc, query, b"delimiter")?;
    let start_after = copy_of_query_value(alloc, query, b"start-after")?;
    Ok(Asked {
        version: 2,
        prefix,
        delimiter,
        marker: Bytes::new(alloc),
        start_after,
        token,
        max: most_keys(query),
        url: is_asked(query, b"encoding-type"),
        owner: text_at(query, b"fetch-owner") == b"true".as_slice(),
        versions: false,
    })
}
