ghost use Rattle.std.specs.Prelude.{◌≡◌, ◌<◌, IfOk};
ghost use Rattle.gate_base.specs.Told.{moment_limit};
ghost use Rattle.s3_pages.specs.Bodies.{copied_as, copied_body, copied_body_root};
ghost use Rattle.s3_pages.specs.Pages.{xml_page};

use crate::pages::xml_headers;
use crate::xml::Xml;
use gate_base::{Bytes, Memory, Page};
use s3_machine::{CopiedBytes, Label};
use std::alloc::Global;

/// The page of CopyObject and CopyPart.
pub(crate) fn copied_reply_page(
    alloc: Global,
    copied: &CopiedBytes,
    label: &Label,
) -> Result<Page, Memory>
    requires dated { copied.now.modified < moment_limit }
    ensures { IfOk result (λ page. page ≡ xml_page 200
        (copied_body copied.now.part copied.now.etag copied.now.modified) label.now) }
{
    Ok(Page {
        status: 200,
        headers: xml_headers(alloc, label)?,
        body: copied_body(alloc, copied)?,
    })
}

fn copied_body(alloc: Global, copied: &CopiedBytes) -> Result<Bytes, Memory>
    requires { copied.now.modified < moment_limit }
    ensures { IfOk result
        (λ body. body ≡ copied_body copied.now.part copied.now.etag copied.now.modified) }
{
    let root = copied_body_root(copied.part);
    copied_body_under_root(alloc, root, copied.etag.as_slice(), copied.modified)
}

#[tactic(auto, unfolding(crate::specs::Bodies::copied_as))]
fn copied_body_under_root(
    alloc: Global,
    name: &[u8],
    etag: &[u8],
    modified: u64,
) -> Result<Bytes, Memory>
    requires { modified < moment_limit }
    ensures { IfOk result (λ body. body ≡ copied_as name.now etag.now modified) }
{
    let mut xml = Xml::new(alloc)?;
    xml.root(name)?;
    xml.time(b"LastModified", modified)?;
    xml.etag(etag)?;
    xml.end(name)?;
    Ok(xml.text)
}

/// The name of the root.
fn copied_body_root(part: bool) -> &'static [u8]
    ensures { result.now ≡ copied_body_root part }
{
    if part {
        b"CopyPartResult"
    } else {
        b"CopyObjectResult"
    }
}
