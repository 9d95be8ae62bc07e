//! What a page tells beside its reply.
ghost use Rattle.std.specs.Prelude.{◌≡◌, ◌++◌, take, drop, IfOk, OnOk};
ghost use Rattle.s3_pages.specs.Pages.{beside_headers, refused_code, region_headers, retry_headers, size_headers, strict_context, with_beside};

use crate::pages::add_header;
use gate_base::{Bytes, Copying, List, Memory, Page, Pair};
use s3_machine::{Code, Reply};
use std::alloc::Global;
use text_forms::append_decimal;

/// What a page of the extended profile tells: the region, and whether the request was a HEAD of a bucket, whose page names it.
#[derive(Debug, Drop)]
pub struct ExtendedPage {
    pub region: Bytes,
    pub heads_bucket: bool,
}

/// What a page tells beside the reply: the path that an error names, and what it tells where the settings are extended.
#[derive(Debug, Drop)]
pub struct PageContext {
    pub resource: Bytes,
    pub extended: Option<ExtendedPage>,
}

impl PageContext {
    /// Of a page of the strict profile, which tells of the path alone. It takes no memory.
    pub fn strict(resource: Bytes) -> PageContext
        ensures { result ≡ strict_context resource }
    {
        PageContext {
            resource,
            extended: None,
        }
    }
}

/// The code of a refusal.
pub(crate) fn refused_code(reply: &Reply) -> Option<Code>
    ensures { result ≡ refused_code reply.now }
{
    match reply {
        Reply::Refused(code) => Some(*code),
        _ => None,
    }
}

/// The page with what it tells beside the reply, behind the two headers that every page begins with.
pub(crate) fn page_with_beside(
    alloc: Global,
    page: Page,
    code: Option<Code>,
    extended: &Option<ExtendedPage>,
) -> Result<Page, Memory>
    ensures { IfOk result (λ told. told ≡ with_beside extended.now code page) }
{
    let Some(extended) = extended else {
        return Ok(page);
    };
    let beside = headers_beside(alloc, code, extended)?;
    let headers = page.headers;
    Ok(Page {
        status: page.status,
        headers: with_inserted(alloc, headers.as_slice(), beside.as_slice())?,
        body: page.body,
    })
}

/// These headers behind the first two of a page.
fn with_inserted(alloc: Global, headers: &[Pair], beside: &[Pair]) -> Result<List<Pair>, Memory>
    ensures { IfOk result
        (λ all. all ≡ take 2 headers.now ++ beside.now ++ drop 2 headers.now) }
{
    let (front, back) = headers.split_at(headers.len().min(2));
    let mut all = List::new(alloc);
    append_copies(&mut all, front)?;
    append_copies(&mut all, beside)?;
    append_copies(&mut all, back)?;
    Ok(all)
}

/// Adds copies of these headers at the end.
fn append_copies(all: &mut List<Pair>, headers: &[Pair]) -> Result<(), Memory>
    ensures { OnOk result (all.new ≡ all.old ++ headers.now) }
{
    for header in headers {
        all.push(header.copy()?)?;
    }
    Ok(())
}

/// The headers that a page of the extended profile has beside its reply's.
fn headers_beside(
    alloc: Global,
    code: Option<Code>,
    extended: &ExtendedPage,
) -> Result<List<Pair>, Memory>
    ensures { IfOk result (λ headers. headers ≡ beside_headers extended.now code) }
{
    let mut headers = List::new(alloc);
    add_size_header(alloc, &mut headers, code)?;
    add_region_header(alloc, &mut headers, extended)?;
    add_retry_header(alloc, &mut headers, code)?;
    Ok(headers)
}

/// Adds the size of an object that has no byte of the range (RFC 9110, section 14.4).
fn add_size_header(
    alloc: Global,
    headers: &mut List<Pair>,
    code: Option<Code>,
) -> Result<(), Memory>
    ensures { OnOk result (headers.new ≡ headers.old ++ size_headers code) }
{
    let Some(Code::InvalidRange(Some(size))) = code else {
        return Ok(());
    };
    let mut text = Bytes::from_slice(alloc, b"bytes */")?;
    append_decimal(&mut text, size)?;
    add_header(alloc, headers, b"Content-Range", text.as_slice())
}

/// Adds the region to the page of a HEAD of a bucket.
fn add_region_header(
    alloc: Global,
    headers: &mut List<Pair>,
    extended: &ExtendedPage,
) -> Result<(), Memory>
    ensures { OnOk result (headers.new ≡ headers.old ++ region_headers extended.now) }
{
    if !extended.heads_bucket {
        return Ok(());
    }
    add_header(
        alloc,
        headers,
        b"x-amz-bucket-region",
        extended.region.as_slice(),
    )
}

/// Adds when to try again to the page of 503 Service Unavailable (RFC 9110, section 10.2.3).
fn add_retry_header(
    alloc: Global,
    headers: &mut List<Pair>,
    code: Option<Code>,
) -> Result<(), Memory>
    ensures { OnOk result (headers.new ≡ headers.old ++ retry_headers code) }
{
    let Some(Code::ServiceUnavailable) = code else {
        return Ok(());
    };
    add_header(alloc, headers, b"Retry-After", b"1")
}
