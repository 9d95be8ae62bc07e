//! The pages of the replies on buckets and access control lists.
ghost use Rattle.std.specs.Prelude.{◌≡◌, ◌<◌, ◌++◌, IfOk, OnOk};
ghost use Rattle.std.specs.List.{All, flat_map};
ghost use Rattle.s3_machine.specs.Shown.{IsShownBucket};
ghost use Rattle.s3_pages.specs.Bodies.{acl_body, bucket_element, buckets_body, buckets_prefix, last_bucket, location_body, next_buckets, setting_body, public_grant, region_in_location_page};
ghost use Rattle.s3_pages.specs.Pages.{xml_page};

use crate::pages::xml_headers;
use crate::xml::Xml;
use gate_base::{Bytes, Memory, Page};
use s3_machine::{BucketItem, BucketPage, Label, UnsetPage};
use s3_names::Acl;
use std::alloc::Global;

/// The page of ListBuckets.
pub(crate) fn buckets_reply_page(
    alloc: Global,
    listed: &BucketPage,
    label: &Label,
) -> Result<Page, Memory>
    requires dated { All IsShownBucket listed.now.items }
    ensures { IfOk result (λ page. page ≡ xml_page 200 (buckets_body listed.now) label.now) }
{
    Ok(Page {
        status: 200,
        headers: xml_headers(alloc, label)?,
        body: buckets_body(alloc, listed)?,
    })
}

#[tactic(auto, unfolding(crate::specs::Bodies::buckets_body))]
fn buckets_body(alloc: Global, listed: &BucketPage) -> Result<Bytes, Memory>
    requires { All IsShownBucket listed.now.items }
    ensures { IfOk result (λ body. body ≡ buckets_body listed.now) }
{
    let items = listed.items.as_slice();
    let mut xml = Xml::new(alloc)?;
    xml.root(b"ListAllMyBucketsResult")?;
    xml.owner()?;
    xml.tags(b"<Buckets>")?;
    xml.buckets(items)?;
    xml.tags(b"</Buckets>")?;
    xml.next_buckets(listed.truncated, items)?;
    xml.buckets_prefix(listed.asked.prefix.as_slice())?;
    xml.end(b"ListAllMyBucketsResult")?;
    Ok(xml.text)
}

/// The name of the last bucket, if there is one.
fn last_bucket(items: &[BucketItem]) -> &[u8]
    ensures { result.now ≡ last_bucket items.now }
{
    match items.last() {
        Some(item) => item.name.as_slice(),
        None => b"",
    }
}

/// The page of a setting that nothing sets.
pub(crate) fn setting_reply_page(
    alloc: Global,
    setting: &UnsetPage,
    label: &Label,
) -> Result<Page, Memory>
    ensures { IfOk result (λ page. page ≡ xml_page 200 (setting_body setting.now) label.now) }
{
    Ok(Page {
        status: 200,
        headers: xml_headers(alloc, label)?,
        body: setting_body(alloc, setting)?,
    })
}

#[tactic(auto, unfolding(crate::specs::Bodies::setting_body))]
fn setting_body(alloc: Global, setting: &UnsetPage) -> Result<Bytes, Memory>
    ensures { IfOk result (λ body. body ≡ setting_body setting.now) }
{
    let mut xml = Xml::new(alloc)?;
    xml.root(setting.root.as_slice())?;
    xml.tags(setting.inside.as_slice())?;
    xml.end(setting.root.as_slice())?;
    Ok(xml.text)
}

/// The page of GetLocation.
pub(crate) fn location_reply_page(
    alloc: Global,
    region: &[u8],
    label: &Label,
) -> Result<Page, Memory>
    ensures { IfOk result (λ page. page ≡ xml_page 200 (location_body region.now) label.now) }
{
    Ok(Page {
        status: 200,
        headers: xml_headers(alloc, label)?,
        body: location_body(alloc, region)?,
    })
}

#[tactic(auto, unfolding(crate::specs::Bodies::location_body))]
fn location_body(alloc: Global, region: &[u8]) -> Result<Bytes, Memory>
    ensures { IfOk result (λ body. body ≡ location_body region.now) }
{
    let mut xml = Xml::new(alloc)?;
    xml.root(b"LocationConstraint")?;
    xml.escaped(region_in_location_page(region))?;
    xml.end(b"LocationConstraint")?;
    Ok(xml.text)
}

/// The region as a location tells it: `us-east-1` by no text.
fn region_in_location_page(region: &[u8]) -> &[u8]
    ensures { result.now ≡ region_in_location_page region.now }
{
    if region == b"us-east-1".as_slice() {
        b""
    } else {
        region
    }
}

/// The page of GetBucketAcl and GetObjectAcl.
pub(crate) fn acl_reply_page(alloc: Global, list: Acl, label: &Label) -> Result<Page, Memory>
    ensures { IfOk result (λ page. page ≡ xml_page 200 (acl_body list) label.now) }
{
    Ok(Page {
        status: 200,
        headers: xml_headers(alloc, label)?,
        body: acl_body(alloc, list)?,
    })
}

#[tactic(auto, unfolding(crate::specs::Bodies::acl_body))]
fn acl_body(alloc: Global, list: Acl) -> Result<Bytes, Memory>
    ensures { IfOk result (λ body. body ≡ acl_body list) }
{
    let mut xml = Xml::new(alloc)?;
    xml.root(b"AccessControlPolicy")?;
    xml.owner()?;
    xml.tags(b"<AccessControlList>")?;
    xml.owner_grant()?;
    xml.public_grant(list)?;
    xml.tags(b"</AccessControlList>")?;
    xml.end(b"AccessControlPolicy")?;
    Ok(xml.text)
}

impl Xml {
    ghost use Rattle.s3_pages.specs.Bodies.{owner_grant, reader_grant};

    fn owner_grant(&mut self) -> Result<(), Memory>
        ensures { OnOk result (self.new.text ≡ self.old.text ++ owner_grant) }
    {
        self.tags(
            b"<Grant><Grantee xmlns:xsi=\"http://www.w3.org/2001/XMLSchema-instance\" xsi:type=\"CanonicalUser\">",
        )?;
        self.tags(
            b"<ID>s3gate</ID><DisplayName>s3gate</DisplayName></Grantee><Permission>FULL_CONTROL</Permission></Grant>",
        )
    }

    fn public_grant(&mut self, list: Acl) -> Result<(), Memory>
        ensures { OnOk result (self.new.text ≡ self.old.text ++ public_grant list) }
    {
        match list {
            Acl::Private => Ok(()),
            Acl::PublicRead => self.reader_grant(),
        }
    }

    fn reader_grant(&mut self) -> Result<(), Memory>
        ensures { OnOk result (self.new.text ≡ self.old.text ++ reader_grant) }
    {
        self.tags(
            b"<Grant><Grantee xmlns:xsi=\"http://www.w3.org/2001/XMLSchema-instance\" xsi:type=\"Group\">",
        )?;
        self.tags(
            b"<URI>http://acs.amazonaws.com/groups/global/AllUsers</URI></Grantee><Permission>READ</Permission></Grant>",
        )
    }

    fn buckets(&mut self, items: &[BucketItem]) -> Result<(), Memory>
        requires { All IsShownBucket items.now }
        ensures { OnOk result (self.new.text ≡ self.old.text ++ flat_map bucket_element items.now) }
    {
        for item in items {
            self.bucket(item)?;
        }
        Ok(())
    }

    /// The token of the next page, where there is one.
    fn next_buckets(&mut self, truncated: bool, items: &[BucketItem]) -> Result<(), Memory>
        ensures { OnOk result
            (self.new.text ≡ self.old.text ++ next_buckets truncated items.now) }
    {
        if truncated {
            self.hex(b"ContinuationToken", last_bucket(items))
        } else {
            Ok(())
        }
    }

    fn buckets_prefix(&mut self, prefix: &[u8]) -> Result<(), Memory>
        ensures { OnOk result (self.new.text ≡ self.old.text ++ buckets_prefix prefix.now) }
    {
        if prefix.is_empty() {
            Ok(())
        } else {
            self.element(b"Prefix", prefix)
        }
    }

    #[tactic(auto, unfolding(crate::specs::Bodies::bucket_element))]
    fn bucket(&mut self, item: &BucketItem) -> Result<(), Memory>
        requires { IsShownBucket item.now }
        ensures { OnOk result (self.new.text ≡ self.old.text ++ bucket_element item.now) }
    {
        self.tags(b"<Bucket>")?;
        self.element(b"Name", item.name.as_slice())?;
        self.time(b"CreationDate", item.created)?;
        self.tags(b"</Bucket>")
    }
}
