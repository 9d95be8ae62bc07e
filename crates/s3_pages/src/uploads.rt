//! The pages of the replies on uploads and their parts, and the markers that the next page of a listing begins behind.
ghost use Rattle.std.specs.Prelude.{◌≡◌, ◌<◌, ◌++◌, IfOk, OnOk, codes};
ghost use Rattle.std.specs.List.{All, flat_map};
ghost use Rattle.s3_machine.specs.Shown.{IsShownPart, IsShownUpload};
ghost use Rattle.s3_pages.specs.Bodies.{
  completed_body,
  next_part_element_number,
  next_upload,
  number_element,
  part_element,
  parts_asked,
  parts_body,
  place_text,
  started_body,
  upload_element,
  upload_place,
  uploads_asked,
  uploads_body,
  uploads_limits,
  where_true,
};
ghost use Rattle.s3_pages.specs.Pages.{xml_page};

use crate::pages::xml_headers;
use crate::xml::Xml;
use gate_base::{Bytes, Memory, Page};
use s3_machine::{
    CompletedObject, Label, PartItem, PartPage, StartedUpload, UploadItem, UploadPage, UploadsAsked,
};
use s3_names::encode_path;
use std::alloc::Global;

/// The page of ListUploads.
pub(crate) fn uploads_reply_page(
    alloc: Global,
    listed: &UploadPage,
    label: &Label,
) -> Result<Page, Memory>
    requires dated { All IsShownUpload listed.now.items }
    ensures { IfOk result (λ page. page ≡ xml_page 200
        (uploads_body listed.now.bucket listed.now.asked.prefix listed.now.asked.key_marker
        listed.now.asked.id_marker listed.now.asked.max listed.now.asked.url listed.now.items
        listed.now.truncated)
        label.now) }
{
    Ok(Page {
        status: 200,
        headers: xml_headers(alloc, label)?,
        body: uploads_body(alloc, listed)?,
    })
}

#[tactic(auto, unfolding(crate::specs::Bodies::uploads_body))]
fn uploads_body(alloc: Global, listed: &UploadPage) -> Result<Bytes, Memory>
    requires { All IsShownUpload listed.now.items }
    ensures { IfOk result (λ body. body ≡ uploads_body listed.now.bucket listed.now.asked.prefix
        listed.now.asked.key_marker listed.now.asked.id_marker listed.now.asked.max
        listed.now.asked.url
        listed.now.items listed.now.truncated) }
{
    let url = listed.asked.url;
    let items = listed.items.as_slice();
    let mut xml = Xml::new(alloc)?;
    xml.root(b"ListMultipartUploadsResult")?;
    xml.uploads_asked(listed.bucket.as_slice(), &listed.asked)?;
    xml.next_upload_markers(url, items, listed.truncated)?;
    xml.uploads_limits(listed.asked.max, url, listed.truncated)?;
    xml.uploads(url, items)?;
    xml.end(b"ListMultipartUploadsResult")?;
    Ok(xml.text)
}

/// The page of CreateUpload.
pub(crate) fn started_upload_reply_page(
    alloc: Global,
    started: &StartedUpload,
    label: &Label,
) -> Result<Page, Memory>
    ensures { IfOk result (λ page. page ≡ xml_page 200
        (started_body started.now.bucket started.now.key started.now.id) label.now) }
{
    Ok(Page {
        status: 200,
        headers: xml_headers(alloc, label)?,
        body: started_upload_body(alloc, started)?,
    })
}

#[tactic(auto, unfolding(crate::specs::Bodies::started_body))]
fn started_upload_body(alloc: Global, started: &StartedUpload) -> Result<Bytes, Memory>
    ensures { IfOk result
        (λ body. body ≡ started_body started.now.bucket started.now.key started.now.id) }
{
    let mut xml = Xml::new(alloc)?;
    xml.root(b"InitiateMultipartUploadResult")?;
    xml.upload_place(
        started.bucket.as_slice(),
        started.key.as_slice(),
        started.id,
    )?;
    xml.end(b"InitiateMultipartUploadResult")?;
    Ok(xml.text)
}

/// The page of ListParts.
pub(crate) fn parts_reply_page(
    alloc: Global,
    listed: &PartPage,
    label: &Label,
) -> Result<Page, Memory>
    requires dated { All IsShownPart listed.now.items }
    ensures { IfOk result (λ page. page ≡ xml_page 200
        (parts_body listed.now.bucket listed.now.key listed.now.id listed.now.asked.marker
        listed.now.asked.max listed.now.items listed.now.truncated) label.now) }
{
    Ok(Page {
        status: 200,
        headers: xml_headers(alloc, label)?,
        body: parts_body(alloc, listed)?,
    })
}

#[tactic(auto, unfolding(crate::specs::Bodies::parts_body))]
fn parts_body(alloc: Global, listed: &PartPage) -> Result<Bytes, Memory>
    requires { All IsShownPart listed.now.items }
    ensures { IfOk result (λ body. body ≡ parts_body listed.now.bucket listed.now.key listed.now.id
        listed.now.asked.marker listed.now.asked.max listed.now.items listed.now.truncated) }
{
    let items = listed.items.as_slice();
    let mut xml = Xml::new(alloc)?;
    xml.root(b"ListPartsResult")?;
    xml.upload_place(listed.bucket.as_slice(), listed.key.as_slice(), listed.id)?;
    xml.initiator()?;
    xml.owner()?;
    xml.storage_class()?;
    xml.parts_asked(
        listed.asked.marker,
        listed.asked.max,
        items,
        listed.truncated,
    )?;
    xml.parts(items)?;
    xml.end(b"ListPartsResult")?;
    Ok(xml.text)
}

/// The page of CompleteUpload.
pub(crate) fn completed_reply_page(
    alloc: Global,
    completed: &CompletedObject,
    label: &Label,
) -> Result<Page, Memory>
    ensures { IfOk result (λ page. page ≡ xml_page 200
        (completed_body completed.now.bucket completed.now.key completed.now.etag) label.now) }
{
    Ok(Page {
        status: 200,
        headers: xml_headers(alloc, label)?,
        body: completed_body(alloc, completed)?,
    })
}

#[tactic(auto, unfolding(crate::specs::Bodies::completed_body))]
fn completed_body(alloc: Global, completed: &CompletedObject) -> Result<Bytes, Memory>
    ensures { IfOk result (λ body. body
        ≡ completed_body completed.now.bucket completed.now.key completed.now.etag) }
{
    let bucket = completed.bucket.as_slice();
    let key = completed.key.as_slice();
    let place = completed_body_location(alloc, bucket, key)?;
    let mut xml = Xml::new(alloc)?;
    xml.root(b"CompleteMultipartUploadResult")?;
    xml.element(b"Location", place.as_slice())?;
    xml.element(b"Bucket", bucket)?;
    xml.element(b"Key", key)?;
    xml.etag(completed.etag.as_slice())?;
    xml.end(b"CompleteMultipartUploadResult")?;
    Ok(xml.text)
}

/// The path of an object.
fn completed_body_location(alloc: Global, bucket: &[u8], key: &[u8]) -> Result<Bytes, Memory>
    ensures { IfOk result (λ text. text ≡ place_text bucket.now key.now) }
{
    let key = encode_path(alloc, key)?;
    let mut text = Bytes::from_slice(alloc, b"/")?;
    text.append(bucket)?;
    text.append(b"/")?;
    text.append(key.as_slice())?;
    Ok(text)
}

impl Xml {
    #[tactic(auto, unfolding(crate::specs::Bodies::uploads_asked))]
    fn uploads_asked(&mut self, bucket: &[u8], asked: &UploadsAsked) -> Result<(), Memory>
        ensures { OnOk result (self.new.text ≡ self.old.text
            ++ uploads_asked bucket.now asked.now.prefix asked.now.key_marker asked.now.id_marker
            asked.now.url) }
    {
        self.element(b"Bucket", bucket)?;
        self.shown(b"Prefix", asked.url, asked.prefix.as_slice())?;
        self.shown(b"KeyMarker", asked.url, asked.key_marker.as_slice())?;
        self.element(b"UploadIdMarker", asked.id_marker.as_slice())
    }

    #[tactic(auto, unfolding(crate::specs::Bodies::uploads_limits))]
    fn uploads_limits(&mut self, max: u32, url: bool, truncated: bool) -> Result<(), Memory>
        ensures { OnOk result
            (self.new.text ≡ self.old.text ++ uploads_limits max url truncated) }
    {
        self.count(b"MaxUploads", max)?;
        self.tags_if(url, b"<EncodingType>url</EncodingType>")?;
        self.truth(b"IsTruncated", truncated)
    }

    fn next_upload_markers(
        &mut self,
        url: bool,
        items: &[UploadItem],
        truncated: bool,
    ) -> Result<(), Memory>
        ensures { OnOk result
            (self.new.text ≡ self.old.text ++ where_true truncated (next_upload url items.now)) }
    {
        if !truncated {
            return Ok(());
        }
        match items.last() {
            Some(item) => {
                self.shown(b"NextKeyMarker", url, item.key.as_slice())?;
                self.id(b"NextUploadIdMarker", item.id)
            }
            None => {
                self.element(b"NextKeyMarker", b"")?;
                self.element(b"NextUploadIdMarker", b"")
            }
        }
    }

    fn uploads(&mut self, url: bool, items: &[UploadItem]) -> Result<(), Memory>
        requires { All IsShownUpload items.now }
        ensures { OnOk result
            (self.new.text ≡ self.old.text ++ flat_map (upload_element url) items.now) }
    {
        for item in items {
            self.upload(url, item)?;
        }
        Ok(())
    }

    #[tactic(auto, unfolding(crate::specs::Bodies::upload_element))]
    fn upload(&mut self, url: bool, item: &UploadItem) -> Result<(), Memory>
        requires { IsShownUpload item.now }
        ensures { OnOk result (self.new.text ≡ self.old.text ++ upload_element url item.now) }
    {
        self.tags(b"<Upload>")?;
        self.shown(b"Key", url, item.key.as_slice())?;
        self.id(b"UploadId", item.id)?;
        self.initiator()?;
        self.owner()?;
        self.storage_class()?;
        self.time(b"Initiated", item.started)?;
        self.tags(b"</Upload>")
    }

    /// Appends of which upload a reply speaks.
    #[tactic(auto, unfolding(crate::specs::Bodies::upload_place))]
    fn upload_place(&mut self, bucket: &[u8], key: &[u8], id: u128) -> Result<(), Memory>
        ensures { OnOk result
            (self.new.text ≡ self.old.text ++ upload_place bucket.now key.now id) }
    {
        self.element(b"Bucket", bucket)?;
        self.element(b"Key", key)?;
        self.id(b"UploadId", id)
    }

    #[tactic(auto, unfolding(crate::specs::Bodies::parts_asked))]
    fn parts_asked(
        &mut self,
        marker: u32,
        max: u32,
        items: &[PartItem],
        truncated: bool,
    ) -> Result<(), Memory>
        ensures { OnOk result
            (self.new.text ≡ self.old.text ++ parts_asked marker max items.now truncated) }
    {
        self.count(b"PartNumberMarker", marker)?;
        self.next_part_element_number(truncated, items)?;
        self.count(b"MaxParts", max)?;
        self.truth(b"IsTruncated", truncated)
    }

    fn next_part_element_number(
        &mut self,
        truncated: bool,
        items: &[PartItem],
    ) -> Result<(), Memory>
        ensures { OnOk result (self.new.text ≡ self.old.text
            ++ where_true truncated
            (number_element (codes "NextPartNumberMarker") (next_part_element_number items.now))) }
    {
        if truncated {
            self.count(b"NextPartNumberMarker", next_part_element_number(items))
        } else {
            Ok(())
        }
    }

    fn parts(&mut self, items: &[PartItem]) -> Result<(), Memory>
        requires { All IsShownPart items.now }
        ensures { OnOk result (self.new.text ≡ self.old.text ++ flat_map part_element items.now) }
    {
        for item in items {
            self.part(item)?;
        }
        Ok(())
    }

    #[tactic(auto, unfolding(crate::specs::Bodies::part_element))]
    fn part(&mut self, item: &PartItem) -> Result<(), Memory>
        requires { IsShownPart item.now }
        ensures { OnOk result (self.new.text ≡ self.old.text ++ part_element item.now) }
    {
        self.tags(b"<Part>")?;
        self.count(b"PartNumber", item.number)?;
        self.time(b"LastModified", item.modified)?;
        self.etag(item.etag.as_slice())?;
        self.number(b"Size", item.size)?;
        self.tags(b"</Part>")
    }
}

/// The number of the last part, or 0.
fn next_part_element_number(items: &[PartItem]) -> u32
    ensures { result ≡ next_part_element_number items.now }
{
    match items.last() {
        Some(item) => item.number,
        None => 0,
    }
}
