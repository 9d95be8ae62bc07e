//! What keeps an account for a store.
ghost use Rattle.std.specs.Prelude.{◌≡◌, ◌++◌, IsTrue, is_some, IfSome, IfOk, OnErr};
ghost use Rattle.std.specs.Option.{option_map};
ghost use Rattle.std.specs.FinMap.{get, remove};
ghost use Rattle.swift_calls.specs.Account.{SwiftAccount, files, find_object, put_file, remove_file};
ghost use Rattle.swift_calls.specs.Bodies.{etag_of, head_of};
ghost use Rattle.swift_calls.specs.Step.{IsContainerName, IsMoment, is_bare};
ghost use Rattle.swift_store.specs.Listed.{segments_at};
ghost use Rattle.swift_store.specs.Made.{IsMade, IsMadeObject};
ghost use Rattle.swift_store.specs.Shelf.{
  ShelfModel,
  ShelfReads,
  ShelfWrites,
  container_head,
  map_shelf_container_page,
  object_of,
  object_page,
  part_of,
  with_container,
};

use crate::StoreFault;
use gate_base::{Bytes, List};
use slo_manifest::Segment;
use swift_calls::{NameItem, ReadList, Stored, StoredHead};

/// What keeps the containers and objects of an account. Where it is observable, it tells the account. Each call answers
/// Failed only with a higher count of faults; one that writes then changed nothing or all. After Memory nothing changed.
/// What is put is within the limits of a call, and so is the account, where it is observable.
pub trait Shelf {
    /// Whether it never fails, its count of faults, and the account, where it is observable.
    ghost model: { Self → ShelfModel };

    /// The names of the containers after a marker, in byte order, at most so many.
    fn containers(&mut self, marker: &[u8], limit: u32) -> Result<List<Bytes>, StoreFault>
        ensures reads { ShelfReads
            (λ account names. names ≡ map_shelf_container_page limit marker.now account) (model self.old)
            result (model self.new) };

    /// The read list and the creation time of a container. The time is a moment, so that it can be given to
    /// `put_container` again, also where nothing is told of the account.
    fn container(&mut self, name: &[u8]) -> Result<Option<(ReadList, Option<u64>)>, StoreFault>
        ensures reads { ShelfReads
            (λ account head. head ≡ option_map container_head (get account name.now))
            (model self.old) result (model self.new) }
        ensures moment { IfOk result (λ head. IfSome head (λ told. IfSome told.1 IsMoment)) };

    /// Whether a container has no objects, where it is there.
    fn is_bare(&mut self, container: &[u8]) -> Result<Option<bool>, StoreFault>
        ensures reads { ShelfReads
            (λ account bare. bare ≡ option_map is_bare (get account container.now)) (model self.old)
            result (model self.new) };

    /// Makes a container, or writes the read list and the creation time of the one that is there over.
    fn put_container(
        &mut self,
        name: &[u8],
        readers: ReadList,
        created: Option<u64>,
    ) -> Result<(), StoreFault>
        requires name { IsContainerName name.now }
        requires moment { IfSome created IsMoment }
        ensures writes { ShelfWrites (with_container name.now readers created) (model self.old)
            result (model self.new) };

    /// Takes a container away, if it is there, with what is in it.
    fn drop_container(&mut self, name: &[u8]) -> Result<(), StoreFault>
        ensures writes { ShelfWrites (λ account. remove account name.now) (model self.old) result
            (model self.new) };

    /// The objects of a container after a marker whose names begin with a prefix, in byte order, at most so many. A
    /// container that isn't there has none.
    fn names(
        &mut self,
        container: &[u8],
        prefix: &[u8],
        marker: &[u8],
        limit: u32,
    ) -> Result<List<NameItem>, StoreFault>
        ensures reads { ShelfReads (λ account items. items ≡ object_page limit prefix.now marker.now
            (files account container.now)) (model self.old) result (model self.new) };

    /// The head of an object.
    fn head(&mut self, container: &[u8], name: &[u8]) -> Result<Option<StoredHead>, StoreFault>
        ensures reads { ShelfReads (λ account head. head ≡ option_map head_of
            (find_object account container.now name.now)) (model self.old) result (model self.new) };

    /// The segments that an object lists; none where it has a body of its own or isn't there.
    fn segments(
        &mut self,
        container: &[u8],
        name: &[u8],
    ) -> Result<Option<List<Segment>>, StoreFault>
        ensures reads { ShelfReads (λ account segments. segments ≡ segments_at
            (find_object account container.now name.now)) (model self.old) result (model self.new) };

    /// Appends the bytes of an object from one place to another; none where these are not within its own bytes. After
    /// an Err `out` is as before.
    fn read(
        &mut self,
        container: &[u8],
        name: &[u8],
        from: u64,
        end: u64,
        out: &mut Bytes,
    ) -> Result<(), StoreFault>
        ensures reads { ShelfReads (λ account done. out.new ≡ out.old
            ++ part_of from end (find_object account container.now name.now)) (model self.old)
            result (model self.new) }
        ensures err { OnErr result (out.new ≡ out.old) };

    /// Puts an object with its ETag into a container, if it is there, in place of the one of its name.
    fn put(&mut self, container: &[u8], object: Stored, etag: Bytes) -> Result<(), StoreFault>
        requires etag { etag ≡ etag_of object.content }
        requires made { IsMadeObject object.name (object_of object) }
        ensures writes { ShelfWrites (put_file container.now object.name (object_of object))
            (model self.old) result (model self.new) };

    /// Takes an object away, and says whether it was there.
    fn remove(&mut self, container: &[u8], name: &[u8]) -> Result<bool, StoreFault>
        ensures writes { ShelfWrites (remove_file container.now name.now) (model self.old) result
            (model self.new) }
        ensures told { IsTrue (model self.old).observable
            → IfOk result (λ there. there ≡ is_some
            (find_object (model self.old).account container.now name.now)) };

    /// Where it is observable, calls within their limits made its account.
    ghost made: { (s : Self) → IsTrue (model s).observable → IsMade (model s).account };
}
