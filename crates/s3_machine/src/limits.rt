//! The limits of what an object is put with, and of what is asked for.
ghost use Rattle.std.specs.Prelude.{◌≡◌, ◌&&◌, ◌||◌, ◌==◌, ◌+◌, drop, nat_le, sum_by, codes};
ghost use Rattle.std.specs.List.{list_all, list_any};
ghost use Rattle.s3_names.specs.Bucket.{is_lower_or_digit};
ghost use Rattle.s3_machine.specs.Limits.{bare_name, is_content_type, is_kept_header, is_listing_text, is_lower_token_byte, is_meta_name, is_meta_value, is_own_name, is_proper_meta, is_proper_pair, pair_bytes};

use gate_base::{Pair, are_printable, is_field};
use s3_names::{Meta, is_key};

/// The most bytes of the body of any request, whatever the settings say: 1 GiB.
pub const MOST_BODY_BYTES: u64 = 1_073_741_824;

/// The most bytes of a content type.
pub(crate) const MOST_CONTENT_TYPE_BYTES: usize = 256;

/// The most entries of user metadata.
pub(crate) const MOST_ENTRIES: usize = 64;

/// The most bytes of the names and values of user metadata, without the `-` before a name of the user's own.
pub(crate) const MOST_META_BYTES: usize = 2048;

/// The most items of one reply that lists.
pub const MOST_ITEMS: u32 = 1000;

/// The most buckets that a page of ListBuckets may be asked for; the least is 1 (Amazon S3 API Reference, "ListBuckets").
pub const MOST_BUCKETS: u32 = 10_000;

/// The most parts that a completion lists (Amazon S3 User Guide, "Amazon S3 multipart upload limits").
pub const MOST_PARTS: usize = 10_000;

/// The greatest number of a part; the least is 1 (Amazon S3 User Guide, "Amazon S3 multipart upload limits").
pub const GREATEST_PART_NUMBER: u32 = 10_000;

/// The most keys of one deletion of many keys.
pub const MOST_KEYS: usize = 1000;

/// The least number of more than 18 digits, which no range has.
pub const RANGE_LIMIT: u64 = 1_000_000_000_000_000_000;

/// The bytes of a token that are neither letters nor digits (RFC 9110, section 5.6.2).
const TOKEN_SYMBOLS: &[u8] = b"!#$%&'*+-.^_`|~";

/// Whether these bytes may be an object's content type: 1 to 256 bytes of visible ASCII and spaces, without a space at
/// either end. It takes no memory.
#[tactic(auto, unfolding(crate::specs::Limits::is_content_type))]
pub fn is_content_type(text: &[u8]) -> bool
    ensures { result ≡ is_content_type text.now }
{
    is_field(text, MOST_CONTENT_TYPE_BYTES)
}

/// Whether these bytes may be a value of user metadata: visible ASCII and spaces, or nothing. It takes no memory.
#[tactic(auto, unfolding(crate::specs::Limits::is_meta_value))]
pub fn is_meta_value(value: &[u8]) -> bool
    ensures { result ≡ is_meta_value value.now }
{
    are_printable(value)
}

/// Whether these bytes may be a name of user metadata: `-` and the lower-case bytes of a token (RFC 9110, section
/// 5.6.2), of which there may be none, for a name of the user's own; or `cache-control`, `content-disposition`,
/// `content-encoding`, `content-language` or `expires`. It takes no memory.
#[tactic(auto, unfolding(crate::specs::Limits::is_meta_name))]
pub fn is_meta_name(name: &[u8]) -> bool
    ensures { result ≡ is_meta_name name.now }
{
    is_user_meta_name(name) || is_kept_header(name)
}

/// Whether an object may be put with this user metadata: at most 64 entries, each with a proper name and value, and at
/// most 2048 bytes of names and values, where the `-` before a name isn't counted. It takes no memory.
#[tactic(auto, unfolding(crate::specs::Limits::is_proper_meta))]
pub fn is_proper_meta(meta: &Meta) -> bool
    ensures { result ≡ is_proper_meta meta.now }
{
    let pairs = meta.pairs();
    pairs.len() <= MOST_ENTRIES && are_proper_pairs(pairs) && is_small(pairs)
}

/// Whether these bytes may be a text of a listing, as its prefix or its delimiter: at most 1024 bytes of UTF-8 without byte
/// 0. It takes no memory.
#[tactic(auto, unfolding(crate::specs::Limits::is_listing_text))]
pub fn is_listing_text(text: &[u8]) -> bool
    ensures { result ≡ is_listing_text text.now }
{
    text.len() == 0 || is_key(text)
}

fn is_lower_or_digit(byte: u8) -> bool
    ensures { result ≡ is_lower_or_digit byte }
{
    byte.is_ascii_lowercase() || byte.is_ascii_digit()
}

fn is_token_symbol(byte: u8) -> bool
    ensures { result ≡ list_any (λ symbol. symbol == byte) (codes "!#$%&'*+-.^_`|~") }
{
    TOKEN_SYMBOLS.contains(&byte)
}

fn is_lower_token_byte(byte: u8) -> bool
    ensures { result ≡ is_lower_token_byte byte }
{
    is_lower_or_digit(byte) || is_token_symbol(byte)
}

fn are_lower_token_bytes(text: &[u8]) -> bool
    ensures { result ≡ list_all is_lower_token_byte text.now }
{
    text.iter().all(|byte| is_lower_token_byte(*byte))
}

fn is_own_name(name: &[u8]) -> bool
    ensures { result ≡ is_own_name name.now }
{
    match name.first() {
        Some(byte) => *byte == b'-',
        None => false,
    }
}

/// The name without the `-` before it.
fn bare_name(name: &[u8]) -> &[u8]
    ensures { result.now ≡ bare_name name.now }
{
    match name {
        [b'-', rest @ ..] => rest,
        _ => name,
    }
}

fn is_user_meta_name(name: &[u8]) -> bool
    ensures { result ≡ (is_own_name name.now && list_all is_lower_token_byte (drop 1 name.now)) }
{
    match name {
        [b'-', rest @ ..] => are_lower_token_bytes(rest),
        _ => false,
    }
}

/// Whether it is the name, in lower case, of a header that is kept with an object beside its metadata. It takes no memory.
pub fn is_kept_header(name: &[u8]) -> bool
    ensures { result ≡ is_kept_header name.now }
{
    name == b"cache-control".as_slice()
        || name == b"content-disposition".as_slice()
        || name == b"content-encoding".as_slice()
        || name == b"content-language".as_slice()
        || name == b"expires".as_slice()
}

fn is_proper_pair(pair: &Pair) -> bool
    ensures { result ≡ is_proper_pair pair.now }
{
    is_meta_name(pair.name.as_slice()) && is_meta_value(pair.value.as_slice())
}

fn are_proper_pairs(pairs: &[Pair]) -> bool
    ensures { result ≡ list_all is_proper_pair pairs.now }
{
    pairs.iter().all(|pair| is_proper_pair(pair))
}

/// Whether the names and values have no more bytes than are allowed.
fn is_small(pairs: &[Pair]) -> bool
    ensures { result ≡ nat_le (sum_by pair_bytes pairs.now) MOST_META_BYTES }
{
    let mut left = MOST_META_BYTES;
    for pair in pairs {
        let name = bare_name(pair.name.as_slice()).len();
        if name > left {
            return false;
        }
        let value = pair.value.len();
        if value > left - name {
            return false;
        }
        left = left - name - value;
    }
    true
}
