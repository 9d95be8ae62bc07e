//! The page of an object.
ghost use Rattle.std.specs.Prelude.{◌≡◌, ◌<◌, ◌≤◌, ◌+◌, ◌^◌, [], ◌∷◌, ◌++◌, map, IfOk, OnOk, IsTrue};
ghost use Rattle.gate_base.specs.Told.{moment_limit};
ghost use Rattle.s3_machine.specs.Shown.{IsShown};
ghost use Rattle.s3_pages.specs.Pages.{head_headers, meta_header, meta_name, object_headers, object_page, overlaid, parts_headers, range_headers, range_text, read_status};

use crate::pages::{add_header, common};
use crate::shown::show_headers;
use crate::texts;
use gate_base::{Bytes, List, Memory, Page, Pair};
use s3_machine::{Label, ObjectBytes, ObjectHead};
use std::alloc::Global;
use text_forms::{append_decimal, decimal_text};

/// The page of an object, or of a part of it.
pub(crate) fn object_reply_page(
    alloc: Global,
    object: ObjectBytes,
    label: &Label,
) -> Result<Page, Memory>
    requires shown { IsShown object.head object.from object.length object.partial }
    ensures { IfOk result (λ page. page ≡ object_page object label.now) }
{
    let headers = object_headers(alloc, &object, label)?;
    Ok(Page {
        status: object_page_status(object.partial),
        headers,
        body: object.body,
    })
}

/// The headers of an object, or of a part of it.
fn object_headers(alloc: Global, object: &ObjectBytes, label: &Label) -> Result<List<Pair>, Memory>
    requires shown { IsShown object.now.head object.now.from object.now.length object.now.partial }
    ensures { IfOk result (λ headers. headers ≡ object_headers object.now label.now) }
{
    let first = common(alloc, label)?;
    let own = own_headers(alloc, object)?;
    let mut headers = joined_headers(first, own)?;
    add_range_page_header(
        alloc,
        &mut headers,
        object.partial,
        object.from,
        object.length,
        object.head.size,
    )?;
    add_parts_header(alloc, &mut headers, object.parts)?;
    let number = decimal_text(alloc, object.length)?;
    add_header(alloc, &mut headers, b"Content-Length", number.as_slice())?;
    Ok(headers)
}

/// What is said of the object itself, with the headers that are shown in place of that.
fn own_headers(alloc: Global, object: &ObjectBytes) -> Result<List<Pair>, Memory>
    requires { object.now.head.modified < moment_limit }
    ensures { IfOk result (λ headers. headers ≡ overlaid object.now.shown
        (head_headers object.now.head ++ map meta_header object.now.head.meta)) }
{
    let mut headers = List::new(alloc);
    add_object_page_headers(alloc, &mut headers, &object.head)?;
    add_metadata_page_headers(alloc, &mut headers, object.head.meta.pairs())?;
    show_headers(&mut headers, object.shown.as_slice())?;
    Ok(headers)
}

/// The one headers, and then the others.
fn joined_headers(headers: List<Pair>, more: List<Pair>) -> Result<List<Pair>, Memory>
    ensures { IfOk result (λ all. all ≡ headers ++ more) }
{
    let mut all = headers.into_vec();
    let mut more = more.into_vec();
    all.append(&mut more)?;
    Ok(List::from_vec(all))
}

/// Adds how many parts the object has, where that is told.
fn add_parts_header(
    alloc: Global,
    headers: &mut List<Pair>,
    parts: Option<u32>,
) -> Result<(), Memory>
    ensures { OnOk result (headers.new ≡ headers.old ++ parts_headers parts) }
{
    let Some(count) = parts else {
        return Ok(());
    };
    let number = decimal_text(alloc, count as u64)?;
    add_header(alloc, headers, b"x-amz-mp-parts-count", number.as_slice())
}

fn object_page_status(partial: bool) -> u16
    ensures { result ≡ read_status partial }
{
    if partial { 206 } else { 200 }
}

/// Adds what is said of the object itself.
fn add_object_page_headers(
    alloc: Global,
    headers: &mut List<Pair>,
    head: &ObjectHead,
) -> Result<(), Memory>
    requires { head.now.modified < moment_limit }
    ensures { OnOk result (headers.new ≡ headers.old ++ head_headers head.now) }
{
    let date = texts::page_header_date(head.modified);
    let etag = texts::quoted(alloc, head.etag.as_slice())?;
    add_header(alloc, headers, b"Last-Modified", &date)?;
    add_header(alloc, headers, b"ETag", etag.as_slice())?;
    add_header(alloc, headers, b"Accept-Ranges", b"bytes")?;
    add_header(
        alloc,
        headers,
        b"Content-Type",
        head.content_type.as_slice(),
    )?;
    Ok(())
}

fn add_metadata_page_headers(
    alloc: Global,
    headers: &mut List<Pair>,
    pairs: &[Pair],
) -> Result<(), Memory>
    ensures { OnOk result (headers.new ≡ headers.old ++ map meta_header pairs.now) }
{
    for pair in pairs {
        add_metadata_page_header(alloc, headers, pair)?;
    }
    Ok(())
}

fn add_metadata_page_header(
    alloc: Global,
    headers: &mut List<Pair>,
    pair: &Pair,
) -> Result<(), Memory>
    ensures { OnOk result (headers.new ≡ headers.old ++ meta_header pair.now ∷ []) }
{
    let name = metadata_page_header_name(alloc, pair.name.as_slice())?;
    add_header(alloc, headers, name.as_slice(), pair.value.as_slice())
}

/// The name of the header that an entry of the metadata has.
fn metadata_page_header_name(alloc: Global, name: &[u8]) -> Result<Bytes, Memory>
    ensures { IfOk result (λ text. text ≡ meta_name name.now) }
{
    match name {
        [b'-', rest @ ..] => {
            let mut text = Bytes::from_slice(alloc, b"x-amz-meta-")?;
            text.append(rest)?;
            Ok(text)
        }
        _ => Bytes::from_slice(alloc, name),
    }
}

fn add_range_page_header(
    alloc: Global,
    headers: &mut List<Pair>,
    partial: bool,
    from: u64,
    length: u64,
    size: u64,
) -> Result<(), Memory>
    requires ends { from + length ≤ 2 ^ 63 }
    requires filled { IsTrue partial → 0 < length }
    ensures { OnOk result (headers.new ≡ headers.old ++ range_headers partial from length size) }
{
    if !partial {
        return Ok(());
    }
    let range = content_range(alloc, from, length, size)?;
    add_header(alloc, headers, b"Content-Range", range.as_slice())?;
    Ok(())
}

/// The value of Content-Range (RFC 9110, section 14.4).
fn content_range(alloc: Global, from: u64, length: u64, size: u64) -> Result<Bytes, Memory>
    requires ends { from + length ≤ 2 ^ 63 }
    requires filled { 0 < length }
    ensures { IfOk result (λ text. text ≡ range_text from length size) }
{
    let mut text = Bytes::from_slice(alloc, b"bytes ")?;
    append_decimal(&mut text, from)?;
    text.append(b"-")?;
    append_decimal(&mut text, from + length - 1)?;
    text.append(b"/")?;
    append_decimal(&mut text, size)?;
    Ok(text)
}
