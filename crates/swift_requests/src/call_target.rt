//! The target of a call that is written.
ghost use Rattle.std.specs.Prelude.{◌≡◌, ◌++◌, OnOk, codes};
ghost use Rattle.s3_names.specs.Escapes.{escaped_all, escaped_path};
ghost use Rattle.swift_requests.specs.CallText.{account_text, container_text, object_text, listing_text, target_text};

use crate::Place;
use gate_base::{Bytes, Memory};
use s3_names::{encode_all, encode_path};
use std::alloc::Global;
use swift_calls::SwiftRequest;
use text_forms::append_decimal;

/// Adds the target of a call.
pub(crate) fn append_target(
    alloc: Global,
    text: &mut Bytes,
    place: &Place,
    call: &SwiftRequest,
) -> Result<(), Memory>
    ensures { OnOk result (text.new ≡ text.old ++ target_text place.now call.now) }
{
    match call {
        SwiftRequest::ListContainers { marker, limit } => {
            append_account_listing_target(alloc, text, place, *limit, marker.as_slice())
        }
        SwiftRequest::ListNames {
            container,
            prefix,
            marker,
            limit,
        } => append_container_listing_target(alloc, text, place, container, *limit, marker, prefix),
        SwiftRequest::HeadContainer { container }
        | SwiftRequest::PutContainer { container, .. }
        | SwiftRequest::PostContainer { container, .. }
        | SwiftRequest::DeleteContainer { container } => append_container(
            alloc, text, place, container,
        ),
        SwiftRequest::PutManifest {
            container,
            name,
            ..
        } => append_manifest_target(alloc, text, place, container, name, b"put"),
        SwiftRequest::GetManifest { container, name } => {
            append_manifest_target(alloc, text, place, container, name, b"get")
        }
        SwiftRequest::PutObject(put) => append_object_path(
            alloc,
            text,
            place,
            &put.container,
            &put.name,
        ),
        SwiftRequest::HeadObject { container, name }
        | SwiftRequest::GetObject {
            container,
            name,
            ..
        }
        | SwiftRequest::DeleteObject { container, name } => append_object_path(
            alloc, text, place, container, name,
        ),
    }
}

/// Adds `/v1/ACCOUNT`.
fn append_account(alloc: Global, text: &mut Bytes, place: &Place) -> Result<(), Memory>
    ensures { OnOk result (text.new ≡ text.old ++ account_text place.now) }
{
    text.append(b"/v1/")?;
    append_escaped_to_target(alloc, text, place.account.as_slice())
}

/// Adds `/v1/ACCOUNT?format=json&limit=N&marker=M`.
fn append_account_listing_target(
    alloc: Global,
    text: &mut Bytes,
    place: &Place,
    limit: u32,
    marker: &[u8],
) -> Result<(), Memory>
    ensures { OnOk result
        (text.new ≡ text.old ++ account_text place.now ++ listing_text limit marker.now) }
{
    append_account(alloc, text, place)?;
    append_listing_query(alloc, text, limit, marker)
}

/// Adds `/v1/ACCOUNT/CONTAINER?format=json&limit=N&marker=M&prefix=P`.
fn append_container_listing_target(
    alloc: Global,
    text: &mut Bytes,
    place: &Place,
    container: &Bytes,
    limit: u32,
    marker: &Bytes,
    prefix: &Bytes,
) -> Result<(), Memory>
    ensures { OnOk result (text.new ≡ text.old ++ container_text place.now container.now
        ++ listing_text limit marker.now ++ codes "&prefix=" ++ escaped_all prefix.now) }
{
    append_container(alloc, text, place, container)?;
    append_listing_query(alloc, text, limit, marker.as_slice())?;
    text.append(b"&prefix=")?;
    append_escaped_to_target(alloc, text, prefix.as_slice())
}

/// Adds `/v1/ACCOUNT/CONTAINER/NAME?multipart-manifest=WORD`.
fn append_manifest_target(
    alloc: Global,
    text: &mut Bytes,
    place: &Place,
    container: &Bytes,
    name: &Bytes,
    word: &[u8],
) -> Result<(), Memory>
    ensures { OnOk result (text.new ≡ text.old ++ object_text place.now container.now name.now
        ++ codes "?multipart-manifest=" ++ word.now) }
{
    append_object_path(alloc, text, place, container, name)?;
    text.append(b"?multipart-manifest=")?;
    text.append(word)
}

/// Adds `/v1/ACCOUNT/CONTAINER`.
fn append_container(
    alloc: Global,
    text: &mut Bytes,
    place: &Place,
    container: &Bytes,
) -> Result<(), Memory>
    ensures { OnOk result (text.new ≡ text.old ++ container_text place.now container.now) }
{
    append_account(alloc, text, place)?;
    text.append(b"/")?;
    append_escaped_to_target(alloc, text, container.as_slice())
}

/// Adds `/v1/ACCOUNT/CONTAINER/NAME`.
fn append_object_path(
    alloc: Global,
    text: &mut Bytes,
    place: &Place,
    container: &Bytes,
    name: &Bytes,
) -> Result<(), Memory>
    ensures { OnOk result (text.new ≡ text.old ++ object_text place.now container.now name.now) }
{
    append_container(alloc, text, place, container)?;
    text.append(b"/")?;
    let name = encode_path(alloc, name.as_slice())?;
    text.append(name.as_slice())
}

/// Adds `?format=json&limit=N&marker=M`.
fn append_listing_query(
    alloc: Global,
    text: &mut Bytes,
    limit: u32,
    marker: &[u8],
) -> Result<(), Memory>
    ensures { OnOk result (text.new ≡ text.old ++ listing_text limit marker.now) }
{
    text.append(b"?format=json&limit=")?;
    append_decimal(text, u64::from(limit))?;
    text.append(b"&marker=")?;
    append_escaped_to_target(alloc, text, marker)
}

/// Adds bytes, each escaped but the unreserved.
fn append_escaped_to_target(alloc: Global, text: &mut Bytes, bytes: &[u8]) -> Result<(), Memory>
    ensures { OnOk result (text.new ≡ text.old ++ escaped_all bytes.now) }
{
    let escaped = encode_all(alloc, bytes)?;
    text.append(escaped.as_slice())
}
