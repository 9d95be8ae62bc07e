//! A shelf in memory.
ghost use Rattle.std.specs.Prelude.{◌≡◌, true, option_copied};
ghost use Rattle.std.specs.FinMap.{empty};
ghost use Rattle.std.proofs.Props.{props};
ghost use Rattle.swift_calls.specs.Account.{find_object};
ghost use Rattle.swift_store.specs.Made.{IsMade};

use crate::folder::{
    Folder, drop_object_in_map_shelf, map_shelf_container_page, put_object_in_map_shelf,
    set_head_in_map_shelf,
};
use crate::kept::Kept;
use crate::{Shelf, StoreFault};
use gate_base::{Bytes, List};
use name_table::Table;
use slo_manifest::Segment;
use std::alloc::Global;
use swift_calls::{NameItem, ReadList, Stored, StoredHead};

/// An account in memory: containers and objects in ordered maps by their names. To find, put or take away a thing costs
/// as much as its name and the logarithm of their number, a page of a listing no more than the page and finding its first
/// name. An object's ETag is found once, when it is put. It never fails.
#[derive(Drop)]
pub struct MapShelf {
    alloc: Global,
    folders: Table<Folder>,
    ghost made: { IsMade folders } by { Prim.hlevel props },
}

impl MapShelf {
    /// An account without a container. It takes no memory.
    pub fn new(alloc: Global) -> MapShelf
        ensures { result.folders ≡ empty }
    {
        MapShelf {
            alloc,
            folders: Table::new(alloc),
        }
    }

    #[tactic(auto, using(crate::proofs::Shelves::found_nowhere))]
    fn object(&self, container: &[u8], name: &[u8]) -> Option<&Kept>
        ensures { option_copied result ≡ find_object self.now.folders container.now name.now }
    {
        match self.folders.get(container) {
            Some(folder) => folder.object(name),
            None => None,
        }
    }
}

impl Shelf for MapShelf {
    ghost model = { λ s. record { sure = true; faults = 0; observable = true; account = s.folders } };

    ghost made = { λ s observable. s.made };

    fn containers(&mut self, marker: &[u8], limit: u32) -> Result<List<Bytes>, StoreFault> {
        Ok(map_shelf_container_page(&self.folders, self.alloc, marker, limit as usize)?)
    }

    #[tactic(auto, using(crate::proofs::Shelves::moment_found))]
    fn container(&mut self, name: &[u8]) -> Result<Option<(ReadList, Option<u64>)>, StoreFault> {
        match self.folders.get(name) {
            Some(folder) => Ok(Some(folder.head())),
            None => Ok(None),
        }
    }

    fn is_bare(&mut self, container: &[u8]) -> Result<Option<bool>, StoreFault> {
        match self.folders.get(container) {
            Some(folder) => Ok(Some(folder.is_bare())),
            None => Ok(None),
        }
    }

    #[tactic(auto, using(crate::proofs::Shelves::head_written, crate::proofs::Shelves::container_made))]
    fn put_container(
        &mut self,
        name: &[u8],
        readers: ReadList,
        created: Option<u64>,
    ) -> Result<(), StoreFault> {
        if self.folders.get(name).is_some() {
            set_head_in_map_shelf(&mut self.folders, name, readers, created);
        } else {
            self.folders
                .put(name, Folder::new(self.alloc, readers, created))?;
        }
        Ok(())
    }

    fn drop_container(&mut self, name: &[u8]) -> Result<(), StoreFault> {
        self.folders.drop_at(name);
        Ok(())
    }

    #[tactic(auto, using(crate::proofs::Shelves::listed_nowhere))]
    fn names(
        &mut self,
        container: &[u8],
        prefix: &[u8],
        marker: &[u8],
        limit: u32,
    ) -> Result<List<NameItem>, StoreFault> {
        match self.folders.get(container) {
            Some(folder) => Ok(folder.page(self.alloc, prefix, marker, limit as usize)?),
            None => Ok(List::new(self.alloc)),
        }
    }

    fn head(&mut self, container: &[u8], name: &[u8]) -> Result<Option<StoredHead>, StoreFault> {
        match self.object(container, name) {
            Some(object) => Ok(Some(object.head()?)),
            None => Ok(None),
        }
    }

    fn segments(
        &mut self,
        container: &[u8],
        name: &[u8],
    ) -> Result<Option<List<Segment>>, StoreFault> {
        match self.object(container, name) {
            Some(object) => Ok(object.segments()?),
            None => Ok(None),
        }
    }

    fn read(
        &mut self,
        container: &[u8],
        name: &[u8],
        from: u64,
        end: u64,
        out: &mut Bytes,
    ) -> Result<(), StoreFault> {
        match self.object(container, name) {
            Some(object) => Ok(object.read(from, end, out)?),
            None => Ok(()),
        }
    }

    #[tactic(auto, using(crate::proofs::Shelves::small_object))]
    fn put(&mut self, container: &[u8], object: Stored, etag: Bytes) -> Result<(), StoreFault> {
        let Stored {
            name,
            content_type,
            meta,
            content,
        } = object;
        let object = Kept::new(content_type, meta, content, etag);
        Ok(put_object_in_map_shelf(&mut self.folders, container, name.as_slice(), object)?)
    }

    fn remove(&mut self, container: &[u8], name: &[u8]) -> Result<bool, StoreFault> {
        let there = self.object(container, name).is_some();
        drop_object_in_map_shelf(&mut self.folders, container, name);
        Ok(there)
    }
}
