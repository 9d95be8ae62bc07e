ghost use Rattle.std.specs.Prelude.{◌≡◌, ◌<◌, ◌++◌, IfOk, OnOk};
ghost use Rattle.std.specs.List.{flat_map};
ghost use Rattle.s3_pages.specs.Bodies.{deleted_body, deleted_element, where_true};
ghost use Rattle.s3_pages.specs.Pages.{xml_page};

use crate::pages::xml_headers;
use crate::xml::Xml;
use gate_base::{Bytes, Memory, Page};
use s3_machine::{DeletedKeys, Label};
use s3_names::Key;
use std::alloc::Global;

/// The page of DeleteObjects.
pub(crate) fn deleted_reply_page(
    alloc: Global,
    deleted: &DeletedKeys,
    label: &Label,
) -> Result<Page, Memory>
    ensures { IfOk result (λ page. page ≡ xml_page 200
        (deleted_body deleted.now.keys deleted.now.quiet) label.now) }
{
    Ok(Page {
        status: 200,
        headers: xml_headers(alloc, label)?,
        body: deleted_body(alloc, deleted)?,
    })
}

#[tactic(auto, unfolding(crate::specs::Bodies::deleted_body))]
fn deleted_body(alloc: Global, deleted: &DeletedKeys) -> Result<Bytes, Memory>
    ensures { IfOk result (λ body. body ≡ deleted_body deleted.now.keys deleted.now.quiet) }
{
    let mut xml = Xml::new(alloc)?;
    xml.root(b"DeleteResult")?;
    xml.deleted_if(!deleted.quiet, deleted.keys.as_slice())?;
    xml.end(b"DeleteResult")?;
    Ok(xml.text)
}

impl Xml {
    /// Appends the keys that were deleted, where the test is true.
    fn deleted_if(&mut self, test: bool, keys: &[Key]) -> Result<(), Memory>
        ensures { OnOk result (self.new.text ≡ self.old.text
            ++ where_true test (flat_map deleted_element keys.now)) }
    {
        if test { self.deleted(keys) } else { Ok(()) }
    }

    fn deleted(&mut self, keys: &[Key]) -> Result<(), Memory>
        ensures { OnOk result (self.new.text ≡ self.old.text ++ flat_map deleted_element keys.now) }
    {
        for key in keys {
            self.deleted_key(key.bytes())?;
        }
        Ok(())
    }

    #[tactic(auto, unfolding(crate::specs::Bodies::deleted_element))]
    fn deleted_key(&mut self, key: &[u8]) -> Result<(), Memory>
        ensures { OnOk result (self.new.text ≡ self.old.text ++ deleted_element key.now) }
    {
        self.tags(b"<Deleted>")?;
        self.element(b"Key", key)?;
        self.tags(b"</Deleted>")
    }
}
