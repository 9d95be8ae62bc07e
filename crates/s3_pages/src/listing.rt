//! The page of a listing of objects.
ghost use Rattle.std.specs.Prelude.{◌≡◌, ◌<◌, ◌++◌, IfOk, OnOk, codes};
ghost use Rattle.std.specs.List.{All, flat_map};
ghost use Rattle.s3_machine.specs.Shown.{IsShownItem, IsShownItemHead};
ghost use Rattle.hex.specs.Hex.{encode_lower};
ghost use Rattle.s3_pages.specs.Bodies.{
  by_version,
  common_prefix,
  contents,
  contents_of,
  first_version,
  is_filled,
  is_version_2_page,
  limits,
  next_text,
  objects_body,
  prefix_of,
  second_version,
  page_tells_owner,
  text_element,
  token_by,
  where_true,
};
ghost use Rattle.s3_pages.specs.Pages.{xml_page};
ghost use Rattle.s3_pages.specs.Xml.{element};

use crate::pages::xml_headers;
use crate::xml::Xml;
use gate_base::{Bytes, Memory, Page};
use s3_machine::{Asked, Item, ItemHead, Label, ObjectPage};
use std::alloc::Global;

/// The page of ListObjects, in both versions.
pub(crate) fn objects_reply_page(
    alloc: Global,
    listed: &ObjectPage,
    label: &Label,
) -> Result<Page, Memory>
    requires dated { All IsShownItem listed.now.items }
    ensures { IfOk result (λ page. page ≡ xml_page 200
        (objects_body listed.now.bucket listed.now.asked listed.now.items listed.now.truncated)
        label.now) }
{
    Ok(Page {
        status: 200,
        headers: xml_headers(alloc, label)?,
        body: objects_body(alloc, listed)?,
    })
}

#[tactic(auto, unfolding(crate::specs::Bodies::objects_body))]
fn objects_body(alloc: Global, listed: &ObjectPage) -> Result<Bytes, Memory>
    requires { All IsShownItem listed.now.items }
    ensures { IfOk result (λ body. body
        ≡ objects_body listed.now.bucket listed.now.asked listed.now.items listed.now.truncated) }
{
    let asked = &listed.asked;
    let items = listed.items.as_slice();
    let mut xml = Xml::new(alloc)?;
    xml.root(b"ListBucketResult")?;
    xml.element(b"Name", listed.bucket.as_slice())?;
    xml.asked(asked, items, listed.truncated)?;
    xml.contents(asked, items)?;
    xml.prefixes(asked, items)?;
    xml.end(b"ListBucketResult")?;
    Ok(xml.text)
}

/// Whether version 2 was asked for.
fn is_version_2_page(asked: &Asked) -> bool
    ensures { result ≡ is_version_2_page asked.now }
{
    asked.version == 2
}

/// Whether the owner of each object is told.
fn page_tells_owner(asked: &Asked) -> bool
    ensures { result ≡ page_tells_owner asked.now }
{
    !is_version_2_page(asked) || asked.owner
}

fn is_filled(text: &[u8]) -> bool
    ensures { result ≡ is_filled text.now }
{
    text.len() != 0
}

/// The text of the last item, or nothing.
fn next_text(items: &[Item]) -> &[u8]
    ensures { result.now ≡ next_text items.now }
{
    match items.last() {
        Some(item) => item.text.as_slice(),
        None => b"",
    }
}

impl Xml {
    fn asked(&mut self, asked: &Asked, items: &[Item], truncated: bool) -> Result<(), Memory>
        ensures { OnOk result (self.new.text ≡ self.old.text
            ++ by_version (is_version_2_page asked.now) asked.now items.now truncated) }
    {
        if is_version_2_page(asked) {
            self.second_version(asked, items, truncated)
        } else {
            self.first_version(asked, items, truncated)
        }
    }

    #[tactic(auto, unfolding(crate::specs::Bodies::first_version))]
    fn first_version(
        &mut self,
        asked: &Asked,
        items: &[Item],
        truncated: bool,
    ) -> Result<(), Memory>
        ensures { OnOk result
            (self.new.text ≡ self.old.text ++ first_version asked.now items.now truncated) }
    {
        self.shown(b"Prefix", asked.url, asked.prefix.as_slice())?;
        self.shown(b"Marker", asked.url, asked.marker.as_slice())?;
        self.shown_if(
            truncated && is_filled(asked.delimiter.as_slice()),
            b"NextMarker",
            asked.url,
            next_text(items),
        )?;
        self.limits(asked, truncated)
    }

    #[tactic(auto, unfolding(crate::specs::Bodies::second_version))]
    fn second_version(
        &mut self,
        asked: &Asked,
        items: &[Item],
        truncated: bool,
    ) -> Result<(), Memory>
        ensures { OnOk result
            (self.new.text ≡ self.old.text ++ second_version asked.now items.now truncated) }
    {
        self.shown(b"Prefix", asked.url, asked.prefix.as_slice())?;
        self.shown_if(
            is_filled(asked.start_after.as_slice()),
            b"StartAfter",
            asked.url,
            asked.start_after.as_slice(),
        )?;
        self.continuation_token(&asked.token)?;
        self.number(b"KeyCount", items.len() as u64)?;
        self.limits(asked, truncated)?;
        self.next_token(truncated, next_text(items))
    }

    /// Appends how the keys were listed.
    #[tactic(auto, unfolding(crate::specs::Bodies::limits))]
    fn limits(&mut self, asked: &Asked, truncated: bool) -> Result<(), Memory>
        ensures { OnOk result (self.new.text ≡ self.old.text ++ limits asked.now truncated) }
    {
        self.count(b"MaxKeys", asked.max)?;
        self.shown_if(
            is_filled(asked.delimiter.as_slice()),
            b"Delimiter",
            asked.url,
            asked.delimiter.as_slice(),
        )?;
        self.tags_if(asked.url, b"<EncodingType>url</EncodingType>")?;
        self.truth(b"IsTruncated", truncated)
    }

    fn shown_if(&mut self, test: bool, name: &[u8], url: bool, text: &[u8]) -> Result<(), Memory>
        ensures { OnOk result (self.new.text ≡ self.old.text
            ++ where_true test (text_element url name.now text.now)) }
    {
        if test {
            self.shown(name, url, text)
        } else {
            Ok(())
        }
    }

    fn continuation_token(&mut self, token: &Option<Bytes>) -> Result<(), Memory>
        ensures { OnOk result (self.new.text ≡ self.old.text ++ token_by token.now) }
    {
        match token {
            Some(text) => self.hex(b"ContinuationToken", text.as_slice()),
            None => Ok(()),
        }
    }

    fn next_token(&mut self, truncated: bool, text: &[u8]) -> Result<(), Memory>
        ensures { OnOk result (self.new.text ≡ self.old.text
            ++ where_true truncated
            (element (codes "NextContinuationToken") (encode_lower text.now))) }
    {
        if truncated {
            self.hex(b"NextContinuationToken", text)
        } else {
            Ok(())
        }
    }

    fn contents(&mut self, asked: &Asked, items: &[Item]) -> Result<(), Memory>
        requires { All IsShownItem items.now }
        ensures { OnOk result
            (self.new.text ≡ self.old.text ++ flat_map (contents_of asked.now) items.now) }
    {
        for item in items {
            self.contents_of(asked, item)?;
        }
        Ok(())
    }

    fn contents_of(&mut self, asked: &Asked, item: &Item) -> Result<(), Memory>
        requires { IsShownItem item.now }
        ensures { OnOk result (self.new.text ≡ self.old.text ++ contents_of asked.now item.now) }
    {
        match &item.object {
            Some(head) => self.contents_element(asked, item.text.as_slice(), head),
            None => Ok(()),
        }
    }

    #[tactic(auto, unfolding(crate::specs::Bodies::contents))]
    fn contents_element(&mut self, asked: &Asked, key: &[u8], head: &ItemHead) -> Result<(), Memory>
        requires { IsShownItemHead head.now }
        ensures { OnOk result
            (self.new.text ≡ self.old.text ++ contents asked.now key.now head.now) }
    {
        self.tags(b"<Contents>")?;
        self.shown(b"Key", asked.url, key)?;
        self.time(b"LastModified", head.modified)?;
        self.etag(head.etag.as_slice())?;
        self.number(b"Size", head.size)?;
        self.owner_if(page_tells_owner(asked))?;
        self.storage_class()?;
        self.tags(b"</Contents>")
    }

    fn prefixes(&mut self, asked: &Asked, items: &[Item]) -> Result<(), Memory>
        ensures { OnOk result
            (self.new.text ≡ self.old.text ++ flat_map (prefix_of asked.now) items.now) }
    {
        for item in items {
            self.prefix_of(asked, item)?;
        }
        Ok(())
    }

    fn prefix_of(&mut self, asked: &Asked, item: &Item) -> Result<(), Memory>
        ensures { OnOk result (self.new.text ≡ self.old.text ++ prefix_of asked.now item.now) }
    {
        match &item.object {
            Some(_) => Ok(()),
            None => self.common_prefix(asked, item.text.as_slice()),
        }
    }

    #[tactic(auto, unfolding(crate::specs::Bodies::common_prefix))]
    fn common_prefix(&mut self, asked: &Asked, text: &[u8]) -> Result<(), Memory>
        ensures { OnOk result (self.new.text ≡ self.old.text ++ common_prefix asked.now text.now) }
    {
        self.tags(b"<CommonPrefixes>")?;
        self.shown(b"Prefix", asked.url, text)?;
        self.tags(b"</CommonPrefixes>")
    }
}
