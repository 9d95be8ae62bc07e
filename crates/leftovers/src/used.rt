//! Which files of a container are used, as a survey remembers it.
ghost use Rattle.std.specs.Prelude.{◌≡◌, ◌||◌, bytes_eq, List, ℕ, None, true, is_some, IfOk, IfSome, OnOk, Some};
ghost use Rattle.std.specs.FinMap.{empty, get};
ghost use Rattle.std.specs.List.{list_all, list_any};
ghost use Rattle.s3_names.specs.Id.{id_digits};
ghost use Rattle.upload_texts.specs.Sealed.{has_sealed_text, part_fits_sealed_text};
ghost use Rattle.upload_texts.specs.declared.sealed.SealedPart.{SealedPart};
ghost use Rattle.upload_records.specs.Layout.{segment_name};
ghost use Rattle.leftovers.specs.Used.{is_sub_of, is_taken, sealed_id_in, seals_part};

use crate::gathering::is_sub_manifest;
use crate::kept::{Kept, id_in};
use gate_base::{Bytes, Memory};
use name_table::Table;
use s3_names::id_digits;
use std::alloc::Global;
use upload_records::segment_name;
use upload_texts::{Sealed, SealedPart};

/// What is used in a container: what is kept there, and the sub-manifests of the completion that is sealed in its bucket, by the text
/// of its id.
#[derive(Drop)]
pub struct Used {
    /// What is kept.
    pub kept: Kept,
    /// The text of the id of the completion that is sealed in the bucket, if one is.
    pub sealed: Option<Bytes>,
}

impl Used {
    /// Whether a file of this name is used.
    pub fn takes(&self, name: &[u8]) -> bool
        ensures { result ≡ is_taken self.now name.now }
    {
        !self.kept.goes(name) || is_sub_of(&self.sealed, name)
    }

    /// The files of a container of which none is used. It takes no memory.
    pub fn nothing(alloc: Global) -> Used
        ensures listed { result.kept.listed ≡ empty }
        ensures opened { result.kept.opened ≡ empty }
        ensures sealed { result.sealed ≡ None }
    {
        Used {
            kept: Kept::nothing(alloc),
            sealed: None,
        }
    }

    /// The files of just these names are used. It takes no memory.
    pub fn named(alloc: Global, names: Table<bool>) -> Used
        ensures listed { result.kept.listed ≡ names }
        ensures opened { result.kept.opened ≡ empty }
        ensures sealed { result.sealed ≡ None }
    {
        Used {
            kept: Kept {
                listed: names,
                opened: Table::new(alloc),
            },
            sealed: None,
        }
    }
}

/// Whether a name is that of a sub-manifest of this id.
fn is_sub_of(id: &Option<Bytes>, name: &[u8]) -> bool
    ensures { result ≡ is_sub_of id.now name.now }
{
    match id {
        None => false,
        Some(id) => is_sub_manifest(name) && id_in(name) == id.as_slice(),
    }
}

/// Adds the names of these parts of an upload.
fn add_part_names(
    alloc: Global,
    id: u128,
    parts: &[SealedPart],
    table: &mut Table<bool>,
) -> Result<(), Memory>
    requires { list_all part_fits_sealed_text parts.now ≡ true }
    ensures { OnOk result ((text : List ℕ) → is_some (get table.new text) ≡ (is_some (get table.old text)
        || list_any (λ (p : SealedPart). bytes_eq (segment_name (id_digits id) p.number) text) parts.now)) }
{
    for part in parts {
        let name = segment_name(alloc, id, part.number)?;
        table.put(name.as_slice(), true)?;
    }
    Ok(())
}

/// Adds the names of the parts that a completion lists which is sealed, where it is in this bucket. What is told is the text of its
/// id.
fn add_sealed_completion(
    alloc: Global,
    sealed: &Sealed,
    bucket: &Bytes,
    table: &mut Table<bool>,
) -> Result<Option<Bytes>, Memory>
    requires { has_sealed_text sealed.now ≡ true }
    ensures id { IfOk result (λ id. id ≡ sealed_id_in (Some sealed.now) bucket.now) }
    ensures added { OnOk result ((text : List ℕ) → is_some (get table.new text)
        ≡ (is_some (get table.old text) || seals_part (Some sealed.now) bucket.now text)) }
{
    if sealed.bucket.as_slice() != bucket.as_slice() {
        return Ok(None);
    }
    let id = Bytes::from_slice(alloc, &id_digits(sealed.id))?;
    add_part_names(alloc, sealed.id, sealed.list.as_slice(), table)?;
    Ok(Some(id))
}

/// Adds the names of the parts that a completion lists, where one is sealed in this bucket. What is told is the text of its id.
pub fn add_sealed(
    alloc: Global,
    sealed: &Option<Sealed>,
    bucket: &Bytes,
    table: &mut Table<bool>,
) -> Result<Option<Bytes>, Memory>
    requires { IfSome sealed.now (λ s. has_sealed_text s ≡ true) }
    ensures id { IfOk result (λ id. id ≡ sealed_id_in sealed.now bucket.now) }
    ensures added { OnOk result ((text : List ℕ) → is_some (get table.new text)
        ≡ (is_some (get table.old text) || seals_part sealed.now bucket.now text)) }
{
    match sealed {
        Some(sealed) => add_sealed_completion(alloc, sealed, bucket, table),
        None => Ok(None),
    }
}
