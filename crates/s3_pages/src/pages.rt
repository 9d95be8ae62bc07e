//! The page of a reply: which function makes that of each; the error page of a refusal; the pages without a body, as that of a
//! stored object or part, 204 No Content and 304 Not Modified; and the headers that pages begin with (Date, x-amz-request-id,
//! Content-Type of XML).
ghost use Rattle.std.specs.Prelude.{◌≡◌, ◌≢◌, ◌<◌, false, [], ◌∷◌, ◌++◌, IfOk, OnOk};
ghost use Rattle.gate_base.specs.Told.{moment_limit};
ghost use Rattle.s3_machine.specs.Shown.{IsShowable};
ghost use Rattle.s3_machine.specs.declared.operation.Reply.TheVariants.{OfObjects, OfUploads};
ghost use Rattle.s3_pages.specs.Pages.{bears_bytes, checksum_headers, page_of, reply_page, common_headers, done_page, gone_page, header, made_page, not_modified_page, refused_page, stored_page, xml_type};
ghost use Rattle.s3_pages.specs.Xml.{error_body};
ghost use Rattle.s3_pages.specs.declared.context.PageContext.{PageContext as Context};

use crate::buckets::{acl_reply_page, buckets_reply_page, location_reply_page, setting_reply_page};
use crate::context::{ExtendedPage, PageContext, page_with_beside, refused_code};
use crate::copied::copied_reply_page;
use crate::deleted::deleted_reply_page;
use crate::listing::objects_reply_page;
use crate::object::object_reply_page;
use crate::uploads::{
    completed_reply_page, parts_reply_page, started_upload_reply_page, uploads_reply_page,
};
use crate::xml::Xml;
use crate::{codes, texts};
use gate_base::{Bytes, Copying, List, Memory, Page, Pair, drop};
use s3_machine::{Code, Label, ObjectHead, ObjectsReply, Reply, StoredBytes, UploadsReply};
use std::alloc::Global;

/// The page of a reply: its status, its headers in their order, and its body (Amazon S3 API Reference; what that
/// leaves open is this profile's). The context has the raw path of the request's target and, where the settings are extended, what
/// their pages tell more; without that a page is the strict profile's. The moments in the label and the
/// reply, in seconds since the beginning of 1970, lie before the year 10000, and an object's range ends at most at 2^63
/// and isn't empty where it is partial. The page of an object has `Content-Length` as its last header, also where its
/// body is empty; other headers that belong to the message and not to the reply are not among these. The reply for want
/// of memory has no page: its bytes are fixed. The body of an object is moved into its page. The call fails only where
/// memory runs out.
pub fn page(
    alloc: Global,
    reply: Reply,
    label: &Label,
    context: &PageContext,
) -> Result<Page, Memory>
    requires reply { reply ≢ Reply.Memory }
    requires showable { IsShowable reply }
    ensures { IfOk result (λ page. page ≡ page_of reply label.now context.now) }
{
    let code = refused_code(&reply);
    let page = plain_page(alloc, reply, label, context)?;
    page_with_beside(alloc, page, code, &context.extended)
}

/// The page but for what is told beside the reply.
fn plain_page(
    alloc: Global,
    reply: Reply,
    label: &Label,
    context: &PageContext,
) -> Result<Page, Memory>
    requires reply { reply ≢ Reply.Memory }
    requires showable { IsShowable reply }
    ensures { IfOk result (λ page. page ≡ reply_page reply label.now context.now) }
{
    match reply {
        Reply::Object(object) => object_reply_page(alloc, object, label),
        reply => {
            let page = lent_reply_page(alloc, &reply, label, context);
            drop(reply);
            page
        }
    }
}

/// The same of a reply that bears no bytes of an object, so that nothing of it moves into the page.
fn lent_reply_page(
    alloc: Global,
    reply: &Reply,
    label: &Label,
    context: &PageContext,
) -> Result<Page, Memory>
    requires reply { reply.now ≢ Reply.Memory }
    requires showable { IsShowable reply.now }
    requires bodiless { bears_bytes reply.now ≡ false }
    ensures { IfOk result (λ page. page ≡ reply_page reply.now label.now context.now) }
{
    match reply {
        Reply::Refused(code) => refused_reply_page(alloc, *code, label, context),
        Reply::Memory | Reply::Object(_) => unreachable!(),
        Reply::Done => done_reply_page(alloc, label),
        Reply::Gone => no_content_reply_page(alloc, label),
        Reply::NotModified(head) => not_modified_reply_page(alloc, head, label),
        Reply::Stored(stored) => stored_reply_page(alloc, stored, label),
        Reply::OfObjects(reply) => page_of_objects(alloc, reply, label),
        Reply::OfUploads(reply) => page_of_uploads(alloc, reply, label),
        Reply::Copied(copied) => copied_reply_page(alloc, copied, label),
    }
}

/// The page of a reply to an operation on buckets and objects.
fn page_of_objects(alloc: Global, reply: &ObjectsReply, label: &Label) -> Result<Page, Memory>
    requires { IsShowable (OfObjects reply.now) }
    ensures { (context : Context)
        → IfOk result (λ page. page ≡ reply_page (OfObjects reply.now) label.now context) }
{
    match reply {
        ObjectsReply::Buckets(listed) => buckets_reply_page(alloc, listed, label),
        ObjectsReply::Made(bucket) => made_bucket_reply_page(alloc, bucket.as_slice(), label),
        ObjectsReply::Location(region) => location_reply_page(alloc, region.as_slice(), label),
        ObjectsReply::AclOf(list) => acl_reply_page(alloc, *list, label),
        ObjectsReply::Objects(listed) => objects_reply_page(alloc, listed, label),
        ObjectsReply::Deleted(deleted) => deleted_reply_page(alloc, deleted, label),
        ObjectsReply::Setting(setting) => setting_reply_page(alloc, setting, label),
    }
}

/// The page of a reply to an operation on uploads in parts.
fn page_of_uploads(alloc: Global, reply: &UploadsReply, label: &Label) -> Result<Page, Memory>
    requires { IsShowable (OfUploads reply.now) }
    ensures { (context : Context)
        → IfOk result (λ page. page ≡ reply_page (OfUploads reply.now) label.now context) }
{
    match reply {
        UploadsReply::Uploads(listed) => uploads_reply_page(alloc, listed, label),
        UploadsReply::Started(started) => started_upload_reply_page(alloc, started, label),
        UploadsReply::Parts(listed) => parts_reply_page(alloc, listed, label),
        UploadsReply::Completed(completed) => completed_reply_page(alloc, completed, label),
    }
}

fn refused_reply_page(
    alloc: Global,
    code: Code,
    label: &Label,
    context: &PageContext,
) -> Result<Page, Memory>
    ensures { IfOk result (λ page. page ≡ refused_page code label.now context.now) }
{
    Ok(Page {
        status: codes::status(code),
        headers: xml_headers(alloc, label)?,
        body: error(alloc, code, context, label.request_id)?,
    })
}

fn done_reply_page(alloc: Global, label: &Label) -> Result<Page, Memory>
    ensures { IfOk result (λ page. page ≡ done_page label.now) }
{
    Ok(Page {
        status: 200,
        headers: common(alloc, label)?,
        body: Bytes::new(alloc),
    })
}

fn not_modified_reply_page(alloc: Global, head: &ObjectHead, label: &Label) -> Result<Page, Memory>
    requires dated { head.now.modified < moment_limit }
    ensures { IfOk result (λ page. page ≡ not_modified_page head.now label.now) }
{
    let date = texts::page_header_date(head.modified);
    let etag = texts::quoted(alloc, head.etag.as_slice())?;
    let mut headers = common(alloc, label)?;
    add_header(alloc, &mut headers, b"ETag", etag.as_slice())?;
    add_header(alloc, &mut headers, b"Last-Modified", &date)?;
    Ok(Page {
        status: 304,
        headers,
        body: Bytes::new(alloc),
    })
}

fn made_bucket_reply_page(alloc: Global, bucket: &[u8], label: &Label) -> Result<Page, Memory>
    ensures { IfOk result (λ page. page ≡ made_page bucket.now label.now) }
{
    let mut place = Bytes::from_slice(alloc, b"/")?;
    place.append(bucket)?;
    let mut headers = common(alloc, label)?;
    add_header(alloc, &mut headers, b"Location", place.as_slice())?;
    Ok(Page {
        status: 200,
        headers,
        body: Bytes::new(alloc),
    })
}

fn no_content_reply_page(alloc: Global, label: &Label) -> Result<Page, Memory>
    ensures { IfOk result (λ page. page ≡ gone_page label.now) }
{
    Ok(Page {
        status: 204,
        headers: common(alloc, label)?,
        body: Bytes::new(alloc),
    })
}

fn stored_reply_page(alloc: Global, stored: &StoredBytes, label: &Label) -> Result<Page, Memory>
    ensures { IfOk result
        (λ page. page ≡ stored_page stored.now.etag stored.now.checksum label.now) }
{
    let mut headers = common(alloc, label)?;
    let quoted = texts::quoted(alloc, stored.etag.as_slice())?;
    add_header(alloc, &mut headers, b"ETag", quoted.as_slice())?;
    add_checksum_header(&mut headers, &stored.checksum)?;
    Ok(Page {
        status: 200,
        headers,
        body: Bytes::new(alloc),
    })
}

/// Adds the header of a checksum that was compared, if one was.
fn add_checksum_header(headers: &mut List<Pair>, checksum: &Option<Pair>) -> Result<(), Memory>
    ensures { OnOk result (headers.new ≡ headers.old ++ checksum_headers checksum.now) }
{
    match checksum {
        Some(pair) => headers.push(pair.copy()?),
        None => Ok(()),
    }
}

/// The headers that every page begins with.
pub(crate) fn common(alloc: Global, label: &Label) -> Result<List<Pair>, Memory>
    ensures { IfOk result (λ headers. headers ≡ common_headers label.now) }
{
    let date = texts::page_header_date(label.moment);
    let id = texts::id_digits(label.request_id);
    let mut headers = List::new(alloc);
    add_header(alloc, &mut headers, b"Date", &date)?;
    add_header(alloc, &mut headers, b"x-amz-request-id", &id)?;
    Ok(headers)
}

/// The headers of a page whose body is XML.
pub(crate) fn xml_headers(alloc: Global, label: &Label) -> Result<List<Pair>, Memory>
    ensures { IfOk result (λ headers. headers ≡ common_headers label.now ++ xml_type ∷ []) }
{
    let mut headers = common(alloc, label)?;
    add_header(alloc, &mut headers, b"Content-Type", b"application/xml")?;
    Ok(headers)
}

/// Adds a header at the end.
pub(crate) fn add_header(
    alloc: Global,
    headers: &mut List<Pair>,
    name: &[u8],
    value: &[u8],
) -> Result<(), Memory>
    ensures { OnOk result (headers.new ≡ headers.old ++ header name.now value.now ∷ []) }
{
    headers.push(Pair {
        name: Bytes::from_slice(alloc, name)?,
        value: Bytes::from_slice(alloc, value)?,
    })
}

#[tactic(auto, unfolding(crate::specs::Xml::error_body))]
fn error(alloc: Global, code: Code, context: &PageContext, id: u128) -> Result<Bytes, Memory>
    ensures { IfOk result
        (λ body. body ≡ error_body context.now.extended code context.now.resource id) }
{
    let mut xml = Xml::new(alloc)?;
    xml.tags(b"<Error>")?;
    xml.element(b"Code", codes::name(code))?;
    xml.element(b"Message", codes::message(code))?;
    xml.error_details(&context.extended, code)?;
    xml.element(b"Resource", context.resource.as_slice())?;
    xml.element(b"RequestId", &texts::id_digits(id))?;
    xml.tags(b"</Error>")?;
    Ok(xml.text)
}

impl Xml {
    ghost use Rattle.s3_pages.specs.Xml.{error_details};

    /// Appends what a refusal tells behind its message, where the settings are extended.
    fn error_details(&mut self, extended: &Option<ExtendedPage>, code: Code) -> Result<(), Memory>
        ensures { OnOk result
            (self.new.text ≡ self.old.text ++ error_details extended.now code) }
    {
        let Some(extended) = extended else {
            return Ok(());
        };
        match code {
            Code::AuthorizationHeaderMalformed => {
                self.element(b"Region", extended.region.as_slice())
            }
            Code::InvalidRange(Some(size)) => self.number(b"ActualObjectSize", size),
            _ => Ok(()),
        }
    }
}
