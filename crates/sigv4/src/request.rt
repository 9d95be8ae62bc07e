ghost use Rattle.std.specs.Prelude.{◌≡◌, ◌==◌, map, IfOk};
ghost use Rattle.http_wire.specs.Headers.{values_of};
ghost use Rattle.gate_base.specs.Ascii.{is_blank};
ghost use Rattle.sigv4.specs.Canonical.{skip_blanks, trim_canonical_end, begins_with_canonical_space, single_spaced, clean_header_value, canonical_header, canonical_headers, escaped_pair, pair_cmp, ordered, pair_text, canonical_query, canonical_of, canonical_text};

use crate::texts::concatenated;
use gate_base::{Bytes, List, Memory, Pair};
use http_wire::{Message, has_name, joined};
use s3_names::{Target, encode_all, encode_path};
use std::alloc::Global;
use std::cmp::Ordering;

/// The canonical request: the method, the path escaped, the query escaped and ordered, the headers of these names,
/// the names, and the hash of the body, joined by LF (Amazon S3 API Reference, "Authenticating requests: using the
/// Authorization header", task 1). A name that no header has stands with no value.
#[tactic(auto, unfolding(crate::specs::Canonical::canonical_text))]
pub fn canonical(
    alloc: Global,
    message: &Message,
    target: &Target,
    names: &[Bytes],
    payload: &[u8],
) -> Result<Bytes, Memory>
    ensures { IfOk result (λ text.
        text ≡ canonical_text message.now target.now names.now payload.now) }
{
    let path = target.path.as_slice();
    canonical_with(alloc, message, path, target.query.pairs(), names, payload)
}

/// The same of a message, but for another path and query than those of its target.
#[tactic(auto, unfolding(crate::specs::Canonical::canonical_of))]
pub fn canonical_with(
    alloc: Global,
    message: &Message,
    path: &[u8],
    query: &[Pair],
    names: &[Bytes],
    payload: &[u8],
) -> Result<Bytes, Memory>
    ensures { IfOk result (λ text. text ≡ canonical_of message.now.method path.now query.now
        message.now.headers names.now payload.now) }
{
    let path = encode_path(alloc, path)?;
    let query = canonical_query(alloc, query)?;
    let headers = canonical_headers(alloc, message.headers.as_slice(), names)?;
    let names = joined(alloc, b';', names)?;
    let (method, path, query) = (message.method.as_slice(), path.as_slice(), query.as_slice());
    let (headers, names, line) = (headers.as_slice(), names.as_slice(), b"\n".as_slice());
    concatenated(
        alloc,
        &[
            method, line, path, line, query, line, headers, line, names, line, payload,
        ],
    )
}

fn canonical_headers(alloc: Global, headers: &[Pair], names: &[Bytes]) -> Result<Bytes, Memory>
    ensures { IfOk result (λ text. text ≡ canonical_headers headers.now names.now) }
{
    let mut text = Bytes::new(alloc);
    for name in names {
        text.append(canonical_header(alloc, headers, name.as_slice())?.as_slice())?;
    }
    Ok(text)
}

fn canonical_header(alloc: Global, headers: &[Pair], name: &[u8]) -> Result<Bytes, Memory>
    ensures { IfOk result (λ text. text ≡ canonical_header headers.now name.now) }
{
    let values = clean_values(alloc, headers, name)?;
    let value = joined(alloc, b',', values.as_slice())?;
    concatenated(alloc, &[name, b":", value.as_slice(), b"\n"])
}

/// The values of the headers of a name, without the blanks around them and in single spacing.
fn clean_values(alloc: Global, headers: &[Pair], name: &[u8]) -> Result<List<Bytes>, Memory>
    ensures { IfOk result (λ values. values ≡ map clean_header_value (values_of name.now headers.now)) }
{
    let mut values = List::new(alloc);
    for header in headers {
        if has_name(header, name) {
            values.push(clean_header_value(alloc, header.value.as_slice())?)?;
        }
    }
    Ok(values)
}

fn clean_header_value(alloc: Global, value: &[u8]) -> Result<Bytes, Memory>
    ensures { IfOk result (λ text. text ≡ clean_header_value value.now) }
{
    single_spaced(alloc, trim_canonical_end(trim_canonical_start(value)))
}

fn is_canonical_blank(byte: u8) -> bool
    ensures { result ≡ is_blank byte }
{
    byte == b' ' || byte == b'\t'
}

#[tactic(auto, unfolding(crate::specs::Canonical::skip_blanks))]
fn trim_canonical_start(text: &[u8]) -> &[u8]
    ensures { result.now ≡ skip_blanks text.now }
{
    let mut rest = text;
    'bytes: while let [first, behind @ ..] = rest {
        if !is_canonical_blank(*first) {
            return rest;
        }
        rest = behind;
    }
    rest
}

#[tactic(auto, unfolding(crate::specs::Canonical::skip_blanks))]
fn trim_canonical_end(text: &[u8]) -> &[u8]
    ensures { result.now ≡ trim_canonical_end text.now }
{
    let mut rest = text;
    'bytes: while let [before @ .., last] = rest {
        if !is_canonical_blank(*last) {
            return rest;
        }
        rest = before;
    }
    rest
}

fn begins_with_canonical_space(text: &[u8]) -> bool
    ensures { result ≡ begins_with_canonical_space text.now }
{
    match text {
        [first, ..] => *first == b' ',
        [] => false,
    }
}

#[tactic(auto, unfolding(crate::specs::Canonical::single_spaced))]
fn single_spaced(alloc: Global, text: &[u8]) -> Result<Bytes, Memory>
    ensures { IfOk result (λ spaced. spaced ≡ single_spaced text.now) }
{
    let mut spaced = Bytes::new(alloc);
    let mut rest = text;
    'bytes: while let [first, behind @ ..] = rest {
        if *first != b' ' || !begins_with_canonical_space(behind) {
            spaced.push(*first)?;
        }
        rest = behind;
    }
    Ok(spaced)
}

/// The query of a canonical request: each pair `name=value` with both sides escaped, in the order of the escaped names and
/// then of the escaped values, with `&` between each two.
pub fn canonical_query(alloc: Global, pairs: &[Pair]) -> Result<Bytes, Memory>
    ensures { IfOk result (λ text. text ≡ canonical_query pairs.now) }
{
    let pairs = ordered_canonical_pairs(alloc, pairs)?;
    let texts = pair_texts(alloc, pairs.as_slice())?;
    joined(alloc, b'&', texts.as_slice())
}

/// The pairs escaped, in the order of what they are escaped to.
fn ordered_canonical_pairs(alloc: Global, pairs: &[Pair]) -> Result<List<Pair>, Memory>
    ensures { IfOk result (λ sorted. sorted ≡ ordered (map escaped_pair pairs.now)) }
{
    let mut escaped = escaped_pairs(alloc, pairs)?.into_vec();
    escaped.sort_unstable_by(|pair, other| pair_cmp(pair, other));
    Ok(List::from_vec(escaped))
}

fn escaped_pairs(alloc: Global, pairs: &[Pair]) -> Result<List<Pair>, Memory>
    ensures { IfOk result (λ escaped. escaped ≡ map escaped_pair pairs.now) }
{
    let mut escaped = List::new(alloc);
    for pair in pairs {
        escaped.push(escaped_pair(alloc, pair)?)?;
    }
    Ok(escaped)
}

fn escaped_pair(alloc: Global, pair: &Pair) -> Result<Pair, Memory>
    ensures { IfOk result (λ escaped. escaped ≡ escaped_pair pair.now) }
{
    Ok(Pair {
        name: encode_all(alloc, pair.name.as_slice())?,
        value: encode_all(alloc, pair.value.as_slice())?,
    })
}

fn pair_cmp(pair: &Pair, other: &Pair) -> Ordering
    ensures { result ≡ pair_cmp pair.now other.now }
{
    pair.name
        .as_slice()
        .cmp(other.name.as_slice())
        .then(pair.value.as_slice().cmp(other.value.as_slice()))
}

fn pair_texts(alloc: Global, pairs: &[Pair]) -> Result<List<Bytes>, Memory>
    ensures { IfOk result (λ texts. texts ≡ map pair_text pairs.now) }
{
    let mut texts = List::new(alloc);
    for pair in pairs {
        texts.push(pair_text(alloc, pair)?)?;
    }
    Ok(texts)
}

fn pair_text(alloc: Global, pair: &Pair) -> Result<Bytes, Memory>
    ensures { IfOk result (λ text. text ≡ pair_text pair.now) }
{
    concatenated(alloc, &[pair.name.as_slice(), b"=", pair.value.as_slice()])
}
