//! What a row takes of what a request gives: a content type and metadata, an access control list, the bytes of a body, and the location
//! that a bucket is made with.
ghost use Rattle.std.specs.Prelude.{◌≡◌, ◌&&◌, ◌||◌, ◌==◌, IfOk};
ghost use Rattle.request_fields.specs.Content.{given_type, given_meta};
ghost use Rattle.request_fields.specs.Copies.{replaces};
ghost use Rattle.request_fields.specs.Headers.{names_acl};
ghost use Rattle.s3_requests.specs.Rows.{shape_of};
ghost use Rattle.s3_requests.specs.Content.{takes_content, taken_type, taken_meta, lacks_acl, asks_with_long_body, is_here, has_bad_location, has_other_location};

use crate::rows::{Row, shape_of};
use gate_base::{Bytes, Memory, Pair};
use request_fields::{given_meta, given_type, names_acl, replaces};
use s3_bodies::{BodyFault, read_location};
use s3_machine::Settings;
use s3_names::Meta;
use std::alloc::Global;

/// Whether the operation takes a content type and metadata: a copy of an object does where they replace those of its
/// source.
fn takes_content(alloc: Global, row: Row, headers: &[Pair]) -> Result<bool, Memory>
    ensures { IfOk result (λ takes. takes ≡ takes_content row headers.now) }
{
    match row {
        Row::CopyObject => replaces(alloc, headers),
        _ => Ok(shape_of(row).has_content()),
    }
}

/// The content type that the operation takes.
pub fn taken_type(alloc: Global, row: Row, headers: &[Pair]) -> Result<Bytes, Memory>
    ensures { IfOk result (λ text. text ≡ taken_type row headers.now) }
{
    if takes_content(alloc, row, headers)? {
        given_type(alloc, headers)
    } else {
        Bytes::from_slice(alloc, b"binary/octet-stream")
    }
}

/// The metadata that the operation takes.
pub fn taken_meta(alloc: Global, row: Row, headers: &[Pair]) -> Result<Meta, Memory>
    ensures { IfOk result (λ meta. meta ≡ taken_meta row headers.now) }
{
    if takes_content(alloc, row, headers)? {
        given_meta(alloc, headers)
    } else {
        Ok(Meta::new(alloc))
    }
}

/// Whether the row puts an access control list and the headers name none.
pub fn lacks_acl(row: Row, headers: &[Pair]) -> bool
    ensures { result ≡ lacks_acl row headers.now }
{
    shape_of(row).needs_acl() && !names_acl(headers)
}

/// Whether the body has more bytes than it may have in this run.
pub fn asks_with_long_body(settings: &Settings, body: &[u8]) -> bool
    ensures { result ≡ asks_with_long_body settings.now body.now }
{
    settings.body_limit() < body.len() as u64
}

fn is_here(region: &[u8], location: &[u8]) -> bool
    ensures { result ≡ is_here region.now location.now }
{
    location.len() == 0 || location == region
}

/// Whether the body should name a location and isn't of that form, and whether it should name one and names neither the
/// region nor none. The body is read once.
pub fn location_faults(
    alloc: Global,
    row: Row,
    region: &[u8],
    body: &[u8],
) -> Result<(bool, bool), Memory>
    ensures { IfOk result (λ faults. faults ≡ record
        { 0 = has_bad_location row body.now; 1 = has_other_location row region.now body.now }) }
{
    if !shape_of(row).has_location() {
        return Ok((false, false));
    }
    match read_location(alloc, body) {
        Ok(location) => Ok((false, !is_here(region, location.as_slice()))),
        Err(BodyFault::NotTheBody(_) | BodyFault::TooMany) => Ok((true, true)),
        Err(BodyFault::Memory) => Err(Memory),
    }
}
