//! What a request means.
ghost use Rattle.std.specs.Prelude.{◌≡◌, ◌≢◌, ◌&&◌, false, true, IfOk};
ghost use Rattle.s3_machine.specs.Body.{IsDigestOf};
ghost use Rattle.s3_machine.specs.Limits.{is_content_type, is_proper_meta};
ghost use Rattle.s3_machine.specs.Proper.{IsProperCode};
ghost use Rattle.s3_requests.specs.Meaning.{first_code, first_refusal, reasons, header_reasons, digest_reasons, argument_reasons, source_reasons, content_reasons, meta_reasons, own_meta_reasons, body_reasons, own_body_reasons, list_reasons, deletes_reasons, caller_reasons, meaning_of, op_of, KeepsFront, is_row_denied, has_bad_bucket, row_of, IsLeft};
ghost use Rattle.s3_requests.specs.declared.meant.Meant.TheVariants as variant;
ghost use Rattle.s3_requests.specs.Rows.{shape_of, level_of, row_for};
ghost use Rattle.s3_requests.specs.Meaning.{has_long_key, has_bad_key};
ghost use Rattle.s3_requests.specs.Content.{taken_type, taken_meta};
ghost use Rattle.request_fields.specs.Headers.{given_acl};
ghost use Rattle.s3_requests.specs.Copies.{given_source};
ghost use Rattle.s3_requests.specs.Deletes.{given_deletes};
ghost use Rattle.s3_requests.specs.Taken.{given};
ghost use Rattle.s3_requests.specs.Uploads.{given_list, taken_listed_parts};

use crate::content::{asks_with_long_body, lacks_acl, location_faults, taken_meta, taken_type};
use crate::copies::{copying, has_body_of_copy, has_unsupported_source, taken_source};
use crate::deletes::taken_deletes;
use crate::named::{Named, named_by};
use crate::operation::{BodyGiven, op_of};
use crate::query::{has_foreign_name, has_unknown_name};
use crate::rows::{Level, Row, is_method, is_same_level, level_of, row_for, shape_of};
use crate::taken::Taken;
use crate::uploads::taken_listed_parts;
use gate_base::{Bytes, Caller, List, Memory, Pair, drop};
use http_wire::Message;
use request_fields::{
    Source, given_acl, has_bad_digest, has_bad_entry, has_bad_number, has_bad_token, has_bad_word,
    has_long_text, has_name_twice, has_other_acl, has_other_class, has_unsupported, is_chunked,
    is_conditional_write, is_other_body,
};
use s3_machine::{Code, Described, Listed, Op, Proper, Settings, is_content_type, is_proper_meta};
use s3_names::{MOST_KEY_BYTES, Meta, Target, is_bucket, is_key};
use std::alloc::Global;

/// What a request means.
#[derive(Debug, Drop)]
pub enum Meant {
    /// An operation, which keeps the limits of this profile.
    Op(Op),
    /// The code by which it is refused, which is none for a store that failed.
    Refused(Proper<Code>),
    /// Memory ran out.
    Memory,
}

impl Meant {
    /// A refusal by this code.
    pub fn refused(code: Code) -> Meant
        requires { IsProperCode code }
        ensures { result ≡ variant.Refused code }
    {
        Meant::Refused(Proper::of(code))
    }
}

/// A request whose target was read, as what stands against it is tried: its row, what it is read by, who sent it, and what its target names.
#[derive(Drop)]
pub(crate) struct Asking<'a> {
    pub(crate) row: Row,
    pub(crate) settings: &'a Settings,
    pub(crate) target: &'a Target,
    pub(crate) named: &'a Named,
    pub(crate) caller: &'a Caller,
}

/// What a request means whose target was read (Amazon S3 API Reference, restated by this profile): the operation that it
/// asks for, or the code of the first reason to refuse it. Where the settings are extended, a copy may have conditions on its
/// source, and a listing of uploads an empty delimiter and escaped texts; else these are NotImplemented. The body moves into an
/// operation that has one; the method and the target of the message stay.
pub fn meaning(
    alloc: Global,
    message: &mut Message,
    target: &Target,
    caller: &Caller,
    settings: &Settings,
) -> Meant
    ensures value { result ≢ variant.Memory
        → result ≡ meaning_of settings.now message.entry.now target.now caller.now }
    ensures keeps { KeepsFront message.entry.now message.exit.now }
{
    match meant_from_target(alloc, settings, message, target, caller) {
        Ok(meant) => meant,
        Err(_) => Meant::Memory,
    }
}

/// The reasons against the target, and then those of its row.
#[tactic(auto, unfolding(crate::specs::Meaning::meaning_of))]
fn meant_from_target(
    alloc: Global,
    settings: &Settings,
    message: &mut Message,
    target: &Target,
    caller: &Caller,
) -> Result<Meant, Memory>
    ensures value { IfOk result
        (λ meant. meant ≡ meaning_of settings.now message.entry.now target.now caller.now) }
    ensures keeps { KeepsFront message.entry.now message.exit.now }
{
    if !is_method(message.method.as_slice()) {
        return Ok(Meant::refused(Code::MethodNotAllowed));
    }
    if has_bad_bucket(target) {
        return Ok(Meant::refused(Code::InvalidBucketName));
    }
    if has_long_key(target) {
        return Ok(Meant::refused(Code::KeyTooLongError));
    }
    if has_bad_key(target) {
        return Ok(Meant::refused(Code::InvalidURI));
    }
    if has_unknown_name(target.query.pairs()) {
        return Ok(Meant::refused(Code::NotImplemented));
    }
    let Some(row) = row_of(message, target) else {
        return Ok(Meant::refused(Code::MethodNotAllowed));
    };
    let named = named_by(target)?;
    let asking = Asking {
        row,
        settings,
        target,
        named: &named,
        caller,
    };
    meant_from_row(alloc, &asking, message)
}

/// The reasons against the names of the query, and then those against the headers.
fn meant_from_row(
    alloc: Global,
    asking: &Asking<'_>,
    message: &mut Message,
) -> Result<Meant, Memory>
    requires left { IsLeft asking.now message.now
        (reasons asking.now.settings.now asking.now.row message.now asking.now.target.now
        asking.now.caller.now) }
    ensures value { IfOk result (λ meant. meant ≡ first_refusal
        (reasons asking.now.settings.now asking.now.row message.entry.now asking.now.target.now
        asking.now.caller.now)
        (op_of asking.now.row message.entry.now asking.now.target.now)) }
    ensures keeps { KeepsFront message.entry.now message.exit.now }
{
    if has_foreign_name(
        asking.settings.extended,
        asking.row,
        asking.target.query.pairs(),
    ) {
        return Ok(Meant::refused(Code::NotImplemented));
    }
    if has_name_twice(asking.target.query.pairs()) {
        return Ok(Meant::refused(Code::InvalidArgument));
    }
    meant_from_headers(alloc, asking, message)
}

/// The reasons against the headers, and then those against the content.
fn meant_from_headers(
    alloc: Global,
    asking: &Asking<'_>,
    message: &mut Message,
) -> Result<Meant, Memory>
    requires left { IsLeft asking.now message.now
        (header_reasons asking.now.settings.now asking.now.row message.now asking.now.target.now
        asking.now.caller.now) }
    ensures value { IfOk result (λ meant. meant ≡ first_refusal
        (header_reasons asking.now.settings.now asking.now.row message.entry.now
        asking.now.target.now asking.now.caller.now)
        (op_of asking.now.row message.entry.now asking.now.target.now)) }
    ensures keeps { KeepsFront message.entry.now message.exit.now }
{
    let method = message.method.as_slice();
    let headers = message.headers.as_slice();
    if has_unsupported(headers) {
        return Ok(Meant::refused(Code::NotImplemented));
    }
    if has_unsupported_source(alloc, asking.settings.extended, asking.row, headers)? {
        return Ok(Meant::refused(Code::NotImplemented));
    }
    if is_chunked(alloc, headers)? {
        return Ok(Meant::refused(Code::NotImplemented));
    }
    if is_conditional_write(method, headers) {
        return Ok(Meant::refused(Code::NotImplemented));
    }
    if has_other_acl(alloc, headers)? {
        return Ok(Meant::refused(Code::NotImplemented));
    }
    if lacks_acl(asking.row, headers) {
        return Ok(Meant::refused(Code::NotImplemented));
    }
    if has_other_class(alloc, headers)? {
        return Ok(Meant::refused(Code::InvalidStorageClass));
    }
    meant_from_digest(alloc, asking, message)
}

/// The reasons against the digest of the body, and then those against the values of the query.
fn meant_from_digest(
    alloc: Global,
    asking: &Asking<'_>,
    message: &mut Message,
) -> Result<Meant, Memory>
    requires left { IsLeft asking.now message.now
        (digest_reasons asking.now.settings.now asking.now.row message.now asking.now.target.now
        asking.now.caller.now) }
    ensures value { IfOk result (λ meant. meant ≡ first_refusal
        (digest_reasons asking.now.settings.now asking.now.row message.entry.now
        asking.now.target.now asking.now.caller.now)
        (op_of asking.now.row message.entry.now asking.now.target.now)) }
    ensures keeps { KeepsFront message.entry.now message.exit.now }
{
    let headers = message.headers.as_slice();
    if has_bad_digest(alloc, headers)? {
        return Ok(Meant::refused(Code::InvalidDigest));
    }
    let (is_other, digest) = is_other_body(alloc, headers, message.body.as_slice())?;
    if is_other {
        return Ok(Meant::refused(Code::BadDigest));
    }
    meant_from_arguments(alloc, asking, message, digest)
}

/// The reasons against the values of the query, and then those against the source of a copy.
fn meant_from_arguments(
    alloc: Global,
    asking: &Asking<'_>,
    message: &mut Message,
    digest: Option<[u8; 16]>,
) -> Result<Meant, Memory>
    requires left { IsLeft asking.now message.now
        (argument_reasons asking.now.settings.now asking.now.row message.now asking.now.target.now
        asking.now.caller.now) }
    requires digest { IsDigestOf digest message.now.body }
    ensures value { IfOk result (λ meant. meant ≡ first_refusal
        (argument_reasons asking.now.settings.now asking.now.row message.entry.now
        asking.now.target.now asking.now.caller.now)
        (op_of asking.now.row message.entry.now asking.now.target.now)) }
    ensures keeps { KeepsFront message.entry.now message.exit.now }
{
    let query = asking.target.query.pairs();
    if has_bad_word(query) {
        return Ok(Meant::refused(Code::InvalidArgument));
    }
    if has_bad_number(query) {
        return Ok(Meant::refused(Code::InvalidArgument));
    }
    if has_long_text(query) {
        return Ok(Meant::refused(Code::InvalidArgument));
    }
    if has_bad_token(alloc, query)? {
        return Ok(Meant::refused(Code::InvalidArgument));
    }
    meant_from_source(alloc, asking, message, digest)
}

/// The reasons against the source of a copy, and then those against the content type.
fn meant_from_source(
    alloc: Global,
    asking: &Asking<'_>,
    message: &mut Message,
    digest: Option<[u8; 16]>,
) -> Result<Meant, Memory>
    requires left { IsLeft asking.now message.now
        (source_reasons asking.now.settings.now asking.now.row message.now asking.now.caller.now) }
    requires digest { IsDigestOf digest message.now.body }
    ensures value { IfOk result (λ meant. meant ≡ first_refusal
        (source_reasons asking.now.settings.now asking.now.row message.entry.now
        asking.now.caller.now)
        (op_of asking.now.row message.entry.now asking.now.target.now)) }
    ensures keeps { KeepsFront message.entry.now message.exit.now }
{
    match taken_source(alloc, asking.row, message.headers.as_slice())? {
        None => Ok(Meant::refused(Code::InvalidArgument)),
        Some(source) => meant_from_content(alloc, asking, message, source, digest),
    }
}

/// The reasons against the content type, and then those against the metadata.
fn meant_from_content(
    alloc: Global,
    asking: &Asking<'_>,
    message: &mut Message,
    source: Source,
    digest: Option<[u8; 16]>,
) -> Result<Meant, Memory>
    requires left { IsLeft asking.now message.now
        (content_reasons asking.now.settings.now asking.now.row message.now asking.now.caller.now) }
    requires source { source ≡ given_source asking.now.row message.now.headers }
    requires digest { IsDigestOf digest message.now.body }
    ensures value { IfOk result (λ meant. meant ≡ first_refusal
        (content_reasons asking.now.settings.now asking.now.row message.entry.now
        asking.now.caller.now)
        (op_of asking.now.row message.entry.now asking.now.target.now)) }
    ensures keeps { KeepsFront message.entry.now message.exit.now }
{
    let content_type = taken_type(alloc, asking.row, message.headers.as_slice())?;
    if !is_content_type(content_type.as_slice()) {
        return Ok(Meant::refused(Code::InvalidArgument));
    }
    meant_from_meta(alloc, asking, message, content_type, source, digest)
}

/// The reasons against the metadata and the bytes of a copy, and then those against the body.
fn meant_from_meta(
    alloc: Global,
    asking: &Asking<'_>,
    message: &mut Message,
    content_type: Bytes,
    source: Source,
    digest: Option<[u8; 16]>,
) -> Result<Meant, Memory>
    requires left { IsLeft asking.now message.now
        (meta_reasons asking.now.settings.now asking.now.row message.now asking.now.caller.now) }
    requires content_type { content_type ≡ taken_type asking.now.row message.now.headers }
    requires typed { is_content_type content_type ≡ true }
    requires source { source ≡ given_source asking.now.row message.now.headers }
    requires digest { IsDigestOf digest message.now.body }
    ensures value { IfOk result (λ meant. meant ≡ first_refusal
        (meta_reasons asking.now.settings.now asking.now.row message.entry.now
        asking.now.caller.now)
        (op_of asking.now.row message.entry.now asking.now.target.now)) }
    ensures keeps { KeepsFront message.entry.now message.exit.now }
{
    let meta = taken_meta(alloc, asking.row, message.headers.as_slice())?;
    match meta_refusal(asking.row, &meta, message.body.as_slice()) {
        Some(code) => Ok(Meant::Refused(code)),
        None => {
            let taken = taken_with(
                alloc,
                message.headers.as_slice(),
                content_type,
                meta,
                source,
            )?;
            meant_from_body(alloc, asking, message, taken, digest)
        }
    }
}

/// The code of the first reason against metadata and the bytes of a copy.
fn meta_refusal(row: Row, meta: &Meta, body: &[u8]) -> Option<Proper<Code>>
    ensures { result ≡ first_code (own_meta_reasons row meta.now body.now) }
{
    if has_bad_entry(meta) {
        return Some(Proper::of(Code::InvalidArgument));
    }
    if has_body_of_copy(row, body) {
        return Some(Proper::of(Code::InvalidRequest));
    }
    if !is_proper_meta(meta) {
        return Some(Proper::of(Code::MetadataTooLarge));
    }
    None
}

/// What the headers give, with the content type, the metadata and the source that were taken of them.
fn taken_with(
    alloc: Global,
    headers: &[Pair],
    content_type: Bytes,
    meta: Meta,
    source: Source,
) -> Result<Taken, Memory>
    requires typed { is_content_type content_type ≡ true }
    requires described { is_proper_meta meta ≡ true }
    ensures { IfOk result (λ taken. taken ≡ record {
      acl = given_acl headers.now;
      described = record { content_type = content_type; meta = meta };
      source = source;
    }) }
{
    let acl = given_acl(alloc, headers)?;
    Ok(Taken {
        acl,
        described: Proper::of(Described { content_type, meta }),
        source,
    })
}

/// The reasons against the body and its location, and then those against the parts that it lists.
fn meant_from_body(
    alloc: Global,
    asking: &Asking<'_>,
    message: &mut Message,
    taken: Taken,
    digest: Option<[u8; 16]>,
) -> Result<Meant, Memory>
    requires left { IsLeft asking.now message.now
        (body_reasons asking.now.settings.now asking.now.row message.now asking.now.caller.now) }
    requires taken { taken ≡ given asking.now.row message.now.headers }
    requires digest { IsDigestOf digest message.now.body }
    ensures value { IfOk result (λ meant. meant ≡ first_refusal
        (body_reasons asking.now.settings.now asking.now.row message.entry.now
        asking.now.caller.now)
        (op_of asking.now.row message.entry.now asking.now.target.now)) }
    ensures keeps { KeepsFront message.entry.now message.exit.now }
{
    match body_refusal(alloc, asking.settings, asking.row, message.body.as_slice())? {
        Some(code) => Ok(Meant::Refused(code)),
        None => meant_from_list(alloc, asking, message, taken, digest),
    }
}

/// The code of the first reason against the length of the body and the location that it names.
fn body_refusal(
    alloc: Global,
    settings: &Settings,
    row: Row,
    body: &[u8],
) -> Result<Option<Proper<Code>>, Memory>
    ensures { IfOk result
        (λ code. code ≡ first_code (own_body_reasons settings.now row body.now)) }
{
    if asks_with_long_body(settings, body) {
        return Ok(Some(Proper::of(Code::EntityTooLarge)));
    }
    let (is_bad, is_other) = location_faults(alloc, row, settings.region.as_slice(), body)?;
    if is_bad {
        return Ok(Some(Proper::of(Code::MalformedXML)));
    }
    if is_other {
        return Ok(Some(Proper::of(Code::InvalidArgument)));
    }
    Ok(None)
}

/// The reasons against the parts that the body lists, and then those against the keys that it lists.
fn meant_from_list(
    alloc: Global,
    asking: &Asking<'_>,
    message: &mut Message,
    taken: Taken,
    digest: Option<[u8; 16]>,
) -> Result<Meant, Memory>
    requires left { IsLeft asking.now message.now
        (list_reasons asking.now.row message.now asking.now.caller.now) }
    requires taken { taken ≡ given asking.now.row message.now.headers }
    requires digest { IsDigestOf digest message.now.body }
    ensures value { IfOk result (λ meant. meant ≡ first_refusal
        (list_reasons asking.now.row message.entry.now asking.now.caller.now)
        (op_of asking.now.row message.entry.now asking.now.target.now)) }
    ensures keeps { KeepsFront message.entry.now message.exit.now }
{
    match taken_listed_parts(alloc, asking.row, message.body.as_slice())? {
        None => Ok(Meant::refused(Code::MalformedXML)),
        Some(list) => meant_from_deletes(alloc, asking, message, taken, list, digest),
    }
}

/// The reasons against the keys that the body lists, and then that against the caller.
fn meant_from_deletes(
    alloc: Global,
    asking: &Asking<'_>,
    message: &mut Message,
    taken: Taken,
    list: List<Listed>,
    digest: Option<[u8; 16]>,
) -> Result<Meant, Memory>
    requires left { IsLeft asking.now message.now
        (deletes_reasons asking.now.row message.now asking.now.caller.now) }
    requires taken { taken ≡ given asking.now.row message.now.headers }
    requires list { list ≡ given_list asking.now.row message.now.body }
    requires digest { IsDigestOf digest message.now.body }
    ensures value { IfOk result (λ meant. meant ≡ first_refusal
        (deletes_reasons asking.now.row message.entry.now asking.now.caller.now)
        (op_of asking.now.row message.entry.now asking.now.target.now)) }
    ensures keeps { KeepsFront message.entry.now message.exit.now }
{
    match taken_deletes(alloc, asking.row, message.body.as_slice())? {
        None => Ok(Meant::refused(Code::MalformedXML)),
        Some(deletes) => {
            let body = BodyGiven {
                list,
                deletes,
                digest,
            };
            meant_from_caller(alloc, asking, message, taken, body)
        }
    }
}

/// The reason against the caller, and then the operation.
fn meant_from_caller(
    alloc: Global,
    asking: &Asking<'_>,
    message: &mut Message,
    taken: Taken,
    body: BodyGiven,
) -> Result<Meant, Memory>
    requires left { IsLeft asking.now message.now
        (caller_reasons asking.now.row asking.now.caller.now) }
    requires taken { taken ≡ given asking.now.row message.now.headers }
    requires list { body.list ≡ given_list asking.now.row message.now.body }
    requires deletes { body.deletes ≡ given_deletes asking.now.row message.now.body }
    requires digest { IsDigestOf body.digest message.now.body }
    ensures value { IfOk result (λ meant. meant ≡ first_refusal
        (caller_reasons asking.now.row asking.now.caller.now)
        (op_of asking.now.row message.entry.now asking.now.target.now)) }
    ensures keeps { KeepsFront message.entry.now message.exit.now }
{
    if is_row_denied(asking.row, *asking.caller) {
        drop(taken);
        drop(body);
        return Ok(Meant::refused(Code::AccessDenied));
    }
    op_of(alloc, asking, message, taken, body)
}

fn level_of_target(target: &Target) -> Level
    ensures { result ≡ level_of target.now.bucket target.now.key }
{
    level_of(target.bucket.as_slice(), target.key.as_slice())
}

fn table_row(message: &Message, target: &Target) -> Option<Row>
    ensures { result ≡ row_for message.now.method (level_of target.now.bucket target.now.key)
        target.now.query }
{
    row_for(
        message.method.as_slice(),
        level_of_target(target),
        target.query.pairs(),
    )
}

fn row_of(message: &Message, target: &Target) -> Option<Row>
    ensures { result ≡ row_of message.now target.now }
{
    match table_row(message, target) {
        Some(row) => Some(copying(message.headers.as_slice(), row)),
        None => None,
    }
}

fn has_bad_bucket(target: &Target) -> bool
    ensures { result ≡ has_bad_bucket target.now }
{
    !is_same_level(level_of_target(target), Level::Service) && !is_bucket(target.bucket.as_slice())
}

fn has_long_key(target: &Target) -> bool
    ensures { result ≡ has_long_key target.now }
{
    MOST_KEY_BYTES < target.key.len()
}

fn has_bad_key(target: &Target) -> bool
    ensures { result ≡ has_bad_key target.now }
{
    is_same_level(level_of_target(target), Level::Key) && !is_key(target.key.as_slice())
}

fn is_row_denied(row: Row, caller: Caller) -> bool
    ensures { result ≡ is_row_denied row caller }
{
    match caller {
        Caller::Owner => false,
        Caller::Reader => !shape_of(row).is_read(),
        Caller::Anonymous => !shape_of(row).is_open(),
    }
}
