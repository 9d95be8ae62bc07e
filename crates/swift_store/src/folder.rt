//! A container as it is kept in memory, and containers by their names.
ghost use Rattle.std.specs.Prelude.{◌≡◌, [], ◌∷◌, ◌++◌, IfOk, OnErr, OnOk, option_copied};
ghost use Rattle.std.specs.Option.{option_map};
ghost use Rattle.std.specs.FinMap.{entries, get, insert, remove};
ghost use Rattle.gate_base.specs.Maps.{adjust};
ghost use Rattle.swift_calls.specs.Account.{new_folder, on_files, put_file, remove_file, with_head};
ghost use Rattle.swift_calls.specs.Bodies.{item_of};
ghost use Rattle.swift_calls.specs.Step.{is_bare};
ghost use Rattle.std.specs.Range.Bound.{bound_map};
ghost use Rattle.swift_store.specs.Listing.{object_run};
ghost use Rattle.swift_store.specs.Shelf.{container_head, map_shelf_container_page, object_page};

use crate::kept::Kept;
use gate_base::{Bytes, List, Memory};
use name_table::Table;
use std::alloc::Global;
use std::marker::Model;
use std::ops::Bound;
use swift_calls::{NameItem, ReadList};

/// A container. Contracts see it as one of the account.
#[derive(Drop)]
pub(crate) struct Folder {
    readers: ReadList,
    created: Option<u64>,
    objects: Table<Kept>,
}

impl Model for Folder {
    ghost use Rattle.swift_calls.specs.Account.{SwiftContainer};
    ghost use Rattle.swift_store.specs.Coded.{container_code};

    ghost Value = { SwiftContainer };

    ghost coded = { container_code };

    ghost use Rattle.swift_store.specs.Kept.{container_in};

    ghost view = { container_in };
}

impl Folder {
    pub(crate) fn new(alloc: Global, readers: ReadList, created: Option<u64>) -> Folder
        ensures { result ≡ new_folder readers created }
    {
        Folder {
            readers,
            created,
            objects: Table::new(alloc),
        }
    }

    pub(crate) fn head(&self) -> (ReadList, Option<u64>)
        ensures { result ≡ container_head self.now }
    {
        (self.readers, self.created)
    }

    pub(crate) fn is_bare(&self) -> bool
        ensures { result ≡ is_bare self.now }
    {
        self.objects.is_empty()
    }

    pub(crate) fn object(&self, name: &[u8]) -> Option<&Kept>
        ensures { option_copied result ≡ get self.now.files name.now }
    {
        self.objects.get(name)
    }

    pub(crate) fn page(
        &self,
        alloc: Global,
        prefix: &[u8],
        marker: &[u8],
        limit: usize,
    ) -> Result<List<NameItem>, Memory>
        ensures { IfOk result
            (λ items. items ≡ object_page limit prefix.now marker.now self.now.files) }
    {
        object_page(&self.objects, alloc, prefix, marker, limit)
    }

    fn set_head(&mut self, readers: ReadList, created: Option<u64>)
        ensures { self.new ≡ with_head readers created self.old }
    {
        self.readers = readers;
        self.created = created;
    }

    fn put(&mut self, name: &[u8], object: Kept) -> Result<(), Memory>
        ensures ok { OnOk result (self.new ≡ on_files (λ fs. insert fs name.now object) self.old) }
        ensures err { OnErr result (self.new ≡ self.old) }
    {
        self.objects.put(name, object)
    }

    fn drop_at(&mut self, name: &[u8])
        ensures { self.new ≡ on_files (λ fs. remove fs name.now) self.old }
    {
        self.objects.drop_at(name);
    }
}

/// Replaces the read list and the creation time of a container, if it is there.
#[tactic(auto, using(name_table::proofs::lemmas::Tables::nothing_there))]
pub(crate) fn set_head_in_map_shelf(
    folders: &mut Table<Folder>,
    container: &[u8],
    readers: ReadList,
    created: Option<u64>,
)
    ensures { folders.new ≡ adjust container.now (with_head readers created) folders.old }
{
    if let Some(found) = folders.get_mut(container) {
        found.set_head(readers, created);
    }
}

/// Puts an object into a container, if it is there, in place of what stands under its name. Where memory runs out, all is
/// as before.
#[tactic(auto, using(name_table::proofs::lemmas::Tables::nothing_there))]
pub(crate) fn put_object_in_map_shelf(
    folders: &mut Table<Folder>,
    container: &[u8],
    name: &[u8],
    object: Kept,
) -> Result<(), Memory>
    ensures ok { OnOk result (folders.new ≡ put_file container.now name.now object folders.old) }
    ensures err { OnErr result (folders.new ≡ folders.old) }
{
    match folders.get_mut(container) {
        Some(found) => found.put(name, object),
        None => Ok(()),
    }
}

/// Takes away the object of a name in a container, if there is one.
#[tactic(auto, using(name_table::proofs::lemmas::Tables::nothing_there))]
pub(crate) fn drop_object_in_map_shelf(folders: &mut Table<Folder>, container: &[u8], name: &[u8])
    ensures { folders.new ≡ remove_file container.now name.now folders.old }
{
    if let Some(found) = folders.get_mut(container) {
        found.drop_at(name);
    }
}

/// The names after the marker, at most so many. Only these are visited, and one more.
pub(crate) fn map_shelf_container_page(
    folders: &Table<Folder>,
    alloc: Global,
    marker: &[u8],
    limit: usize,
) -> Result<List<Bytes>, Memory>
    ensures { IfOk result (λ names. names ≡ map_shelf_container_page limit marker.now folders.now) }
{
    let after = Vec::from_slice(alloc, marker)?;
    map_shelf_names_behind(folders, alloc, &after, limit)
}

/// The same after a name.
fn map_shelf_names_behind(
    folders: &Table<Folder>,
    alloc: Global,
    after: &Vec<u8>,
    limit: usize,
) -> Result<List<Bytes>, Memory>
    ensures { IfOk result
        (λ names. names ≡ map_shelf_container_page limit after.now.items folders.now) }
{
    let mut names = List::new(alloc);
    for (name, _) in folders
        .as_map()
        .range((Bound::Excluded(after), Bound::Unbounded))
    {
        if names.len() == limit {
            return Ok(names);
        }
        add_name(&mut names, alloc, name)?;
    }
    Ok(names)
}

fn add_name(names: &mut List<Bytes>, alloc: Global, name: &[u8]) -> Result<(), Memory>
    ensures { OnOk result (names.new ≡ names.old ++ name.now ∷ []) }
{
    names.push(Bytes::from_slice(alloc, name)?)
}

/// The objects after the marker whose names begin with the prefix, at most so many. Only these are visited, and one more.
#[tactic(auto, using(crate::proofs::Listing::items_from_prefix, crate::proofs::Listing::items_from_marker))]
fn object_page(
    objects: &Table<Kept>,
    alloc: Global,
    prefix: &[u8],
    marker: &[u8],
    limit: usize,
) -> Result<List<NameItem>, Memory>
    ensures { IfOk result (λ items. items ≡ object_page limit prefix.now marker.now objects.now) }
{
    if prefix.cmp(marker).is_gt() {
        let from = Vec::from_slice(alloc, prefix)?;
        let items = run(objects, alloc, prefix, Bound::Included(&from), limit)?;
        Ok(items)
    } else {
        let after = Vec::from_slice(alloc, marker)?;
        let items = run(objects, alloc, prefix, Bound::Excluded(&after), limit)?;
        Ok(items)
    }
}

/// The objects from a place on as far as their names begin with the prefix, at most so many.
fn run(
    objects: &Table<Kept>,
    alloc: Global,
    prefix: &[u8],
    start: Bound<&Vec<u8>>,
    limit: usize,
) -> Result<List<NameItem>, Memory>
    ensures { IfOk result (λ items. items ≡ object_run limit prefix.now
        (bound_map (λ x. x.now.items) start.entry) objects.now) }
{
    let mut items = List::new(alloc);
    for (name, object) in objects.as_map().range((start, Bound::Unbounded)) {
        if items.len() == limit {
            return Ok(items);
        }
        if !name.starts_with(prefix) {
            return Ok(items);
        }
        add_item(&mut items, alloc, name, object)?;
    }
    Ok(items)
}

fn add_item(
    items: &mut List<NameItem>,
    alloc: Global,
    name: &[u8],
    object: &Kept,
) -> Result<(), Memory>
    ensures { OnOk result (items.new ≡ items.old ++ item_of name.now object.now ∷ []) }
{
    items.push(object.item(alloc, name)?)
}
