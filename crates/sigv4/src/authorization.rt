ghost use Rattle.std.specs.Prelude.{◌≡◌, drop, IfOk};
ghost use Rattle.std.specs.List.{before_first, list_all, starts_with, slice_split};
ghost use Rattle.gate_base.specs.Ascii.{is_slash};
ghost use Rattle.sigv4.specs.Authorization.{is_credential_byte, is_part, is_name_byte, is_name, signed_name_stands_before, are_ascending, are_names, is_hex, is_formed, is_semicolon, skip_spaces, algorithm_section, credential_section, names_section, signature_section, behind_id, behind_date, behind_region, behind_service, credential_of, is_labelled, parts_of, authorization_of};

use gate_base::{Bytes, List, Memory, cut, first_place};
use httparse::is_header_name_token;
use std::alloc::Global;
use text_forms::all_lower_hex;

/// The digits of a signature or of a hash.
const DIGITS: usize = 64;

/// What the Authorization header of a signed request says: who signed it, for which day, region and service, which
/// headers, and the signature, in hexadecimal digits.
#[derive(Drop)]
pub struct Authorization {
    pub id: Bytes,
    pub date: Bytes,
    pub region: Bytes,
    pub service: Bytes,
    pub names: List<Bytes>,
    pub signature: Bytes,
}

impl Authorization {
    /// Reads the value of an Authorization header, `AWS4-HMAC-SHA256
    /// Credential=ID/DATE/REGION/SERVICE/aws4_request,SignedHeaders=NAMES,Signature=HEX`: at least one space behind the
    /// first word, and any number behind a comma. ID, DATE, REGION and SERVICE are one or more bytes of visible ASCII but
    /// `/` and `,`; NAMES are tokens without upper-case letters, in strictly ascending order, with `;` between; HEX has
    /// 64 lower-case digits. None exactly where the text hasn't this form.
    #[tactic(auto, unfolding(crate::specs::Authorization::authorization_of))]
    pub fn read(alloc: Global, text: &[u8]) -> Result<Option<Authorization>, Memory>
        ensures { IfOk result (λ read. read ≡ authorization_of text.now) }
    {
        if !is_labelled(text) {
            return Ok(None);
        }
        let parts = authorization_parts(alloc, text)?;
        if is_formed(&parts) {
            Ok(Some(parts))
        } else {
            Ok(None)
        }
    }
}

fn is_labelled(text: &[u8]) -> bool
    ensures { result ≡ is_labelled text.now }
{
    algorithm_section(text).starts_with(b"AWS4-HMAC-SHA256 ")
        && credential_section(text).starts_with(b"Credential=")
        && signed_names_section(text).starts_with(b"SignedHeaders=")
        && signature_section(text).starts_with(b"Signature=")
        && behind_service(credential_of(text)) == b"aws4_request".as_slice()
}

#[tactic(auto, unfolding(crate::specs::Authorization::parts_of))]
fn authorization_parts(alloc: Global, text: &[u8]) -> Result<Authorization, Memory>
    ensures { IfOk result (λ parts. parts ≡ parts_of text.now) }
{
    authorization_from(
        alloc,
        credential_of(text),
        skip_authorization_bytes(signed_names_section(text), 14),
        skip_authorization_bytes(signature_section(text), 10),
    )
}

/// The parts of a credential `ID/DATE/REGION/SERVICE/aws4_request`, of signed names with `;` between each two and of a
/// signature, in whatever form.
pub fn authorization_from(
    alloc: Global,
    credential: &[u8],
    names: &[u8],
    signature: &[u8],
) -> Result<Authorization, Memory>
    ensures { IfOk result (λ parts. parts ≡ record {
      id = before_first is_slash credential.now;
      date = before_first is_slash (behind_id credential.now);
      region = before_first is_slash (behind_date credential.now);
      service = before_first is_slash (behind_region credential.now);
      names = slice_split is_semicolon names.now;
      signature = signature.now;
    }) }
{
    let (id, behind_id) = cut(credential, b'/');
    let (date, behind_date) = cut(behind_id, b'/');
    let (region, behind_region) = cut(behind_date, b'/');
    let (service, _) = cut(behind_region, b'/');
    Ok(Authorization {
        id: Bytes::from_slice(alloc, id)?,
        date: Bytes::from_slice(alloc, date)?,
        region: Bytes::from_slice(alloc, region)?,
        service: Bytes::from_slice(alloc, service)?,
        names: signed_names_in(alloc, names)?,
        signature: Bytes::from_slice(alloc, signature)?,
    })
}

/// The signed names of a text that has `;` between each two, as they stand there: the texts between the semicolons, in
/// whatever form. There is always one, of no byte where the text has none.
#[tactic(auto, using(crate::proofs::AuthorizationLemmas::names_more, crate::proofs::AuthorizationLemmas::names_end, crate::proofs::AuthorizationLemmas::behind_is_shorter))]
pub fn signed_names_in(alloc: Global, text: &[u8]) -> Result<List<Bytes>, Memory>
    ensures { IfOk result (λ names. names ≡ slice_split is_semicolon text.now) }
{
    let mut names = List::new(alloc);
    let mut rest = text;
    'names: while let Some(at) = first_place(rest, b';') {
        names.push(Bytes::from_slice(alloc, &rest[..at])?)?;
        rest = skip_authorization_bytes(rest, at + 1);
    }
    names.push(Bytes::from_slice(alloc, rest)?)?;
    Ok(names)
}

#[tactic(auto, unfolding(crate::specs::Authorization::algorithm_section))]
fn algorithm_section(text: &[u8]) -> &[u8]
    ensures { result.now ≡ algorithm_section text.now }
{
    let (section, _) = cut(text, b',');
    section
}

#[tactic(auto, unfolding(crate::specs::Authorization::credential_section))]
fn credential_section(text: &[u8]) -> &[u8]
    ensures { result.now ≡ credential_section text.now }
{
    skip_spaces(skip_authorization_bytes(algorithm_section(text), 17))
}

#[tactic(auto, unfolding(crate::specs::Authorization::names_section))]
fn signed_names_section(text: &[u8]) -> &[u8]
    ensures { result.now ≡ names_section text.now }
{
    let (_, behind) = cut(text, b',');
    let (section, _) = cut(behind, b',');
    skip_spaces(section)
}

#[tactic(auto, unfolding(crate::specs::Authorization::signature_section))]
fn signature_section(text: &[u8]) -> &[u8]
    ensures { result.now ≡ signature_section text.now }
{
    let (_, behind) = cut(text, b',');
    let (_, section) = cut(behind, b',');
    skip_spaces(section)
}

fn credential_of(text: &[u8]) -> &[u8]
    ensures { result.now ≡ credential_of text.now }
{
    skip_authorization_bytes(credential_section(text), 11)
}

/// A credential `ID/DATE/REGION/SERVICE/aws4_request` from behind its fourth slash on, no byte where it has fewer.
pub fn behind_service(credential: &[u8]) -> &[u8]
    ensures { result.now ≡ behind_service credential.now }
{
    let (_, behind_id) = cut(credential, b'/');
    let (_, behind_date) = cut(behind_id, b'/');
    let (_, behind_region) = cut(behind_date, b'/');
    let (_, behind_service) = cut(behind_region, b'/');
    behind_service
}

/// The text without its first bytes, none where there are no more.
fn skip_authorization_bytes(text: &[u8], count: usize) -> &[u8]
    ensures { result.now ≡ drop count text.now }
{
    if count < text.len() {
        &text[count..]
    } else {
        &text[text.len()..]
    }
}

#[tactic(auto, unfolding(crate::specs::Authorization::skip_spaces))]
fn skip_spaces(text: &[u8]) -> &[u8]
    ensures { result.now ≡ skip_spaces text.now }
{
    let mut rest = text;
    'bytes: while let [first, behind @ ..] = rest {
        if *first != b' ' {
            return rest;
        }
        rest = behind;
    }
    rest
}

/// Whether each part has its form: the id, the date, the region and the service are one or more bytes of visible ASCII but
/// `/` and `,`; the names are tokens without upper-case letters, one at least, in strictly ascending order; the signature
/// has 64 lower-case hexadecimal digits.
pub fn is_formed(parts: &Authorization) -> bool
    ensures { result ≡ is_formed parts.now }
{
    is_part(parts.id.as_slice())
        && is_part(parts.date.as_slice())
        && is_part(parts.region.as_slice())
        && is_part(parts.service.as_slice())
        && are_names(parts.names.as_slice())
        && is_hex(parts.signature.as_slice())
}

fn is_part(part: &[u8]) -> bool
    ensures { result ≡ is_part part.now }
{
    part.len() > 0 && all_credential_bytes(part)
}

fn all_credential_bytes(part: &[u8]) -> bool
    ensures { result ≡ list_all is_credential_byte part.now }
{
    part.iter().all(|byte| is_credential_byte(*byte))
}

fn is_credential_byte(byte: u8) -> bool
    ensures { result ≡ is_credential_byte byte }
{
    byte.is_ascii_graphic() && byte != b'/' && byte != b','
}

fn are_names(names: &[Bytes]) -> bool
    ensures { result ≡ are_names names.now }
{
    names.len() > 0 && all_signed_names(names) && are_signed_names_ascending(names)
}

fn all_signed_names(names: &[Bytes]) -> bool
    ensures { result ≡ list_all is_name names.now }
{
    names.iter().all(|name| is_name(name.as_slice()))
}

fn is_name(name: &[u8]) -> bool
    ensures { result ≡ is_name name.now }
{
    name.len() > 0 && all_signed_name_bytes(name)
}

fn all_signed_name_bytes(name: &[u8]) -> bool
    ensures { result ≡ list_all is_name_byte name.now }
{
    name.iter().all(|byte| is_name_byte(*byte))
}

fn is_name_byte(byte: u8) -> bool
    ensures { result ≡ is_name_byte byte }
{
    is_header_name_token(byte) && !byte.is_ascii_uppercase()
}

#[tactic(auto, unfolding(crate::specs::Authorization::are_ascending))]
fn are_signed_names_ascending(names: &[Bytes]) -> bool
    ensures { result ≡ are_ascending names.now }
{
    let mut rest = names;
    'names: while let [name, behind @ ..] = rest {
        if !signed_name_stands_before(name.as_slice(), behind) {
            return false;
        }
        rest = behind;
    }
    true
}

/// Whether the name stands before the first of the others, if there is one.
fn signed_name_stands_before(name: &[u8], others: &[Bytes]) -> bool
    ensures { result ≡ signed_name_stands_before name.now others.now }
{
    match others {
        [next, ..] => name.cmp(next.as_slice()).is_lt(),
        [] => true,
    }
}

/// Whether a text has the form of a hash or of a signature.
pub fn is_hex(text: &[u8]) -> bool
    ensures { result ≡ is_hex text.now }
{
    text.len() == DIGITS && all_lower_hex(text)
}
