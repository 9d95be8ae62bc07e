//! A shelf that is lent.

use crate::{Shelf, StoreFault};
use gate_base::{Bytes, List};
use slo_manifest::Segment;
use swift_calls::{NameItem, ReadList, Stored, StoredHead};

impl<S: Shelf> Shelf for &mut S {
    ghost model = { λ s. S.model s.now };

    ghost made = { λ s observable. S.made s.now observable };

    fn containers(&mut self, marker: &[u8], limit: u32) -> Result<List<Bytes>, StoreFault> {
        (**self).containers(marker, limit)
    }

    fn container(&mut self, name: &[u8]) -> Result<Option<(ReadList, Option<u64>)>, StoreFault> {
        (**self).container(name)
    }

    fn is_bare(&mut self, container: &[u8]) -> Result<Option<bool>, StoreFault> {
        (**self).is_bare(container)
    }

    fn put_container(
        &mut self,
        name: &[u8],
        readers: ReadList,
        created: Option<u64>,
    ) -> Result<(), StoreFault> {
        (**self).put_container(name, readers, created)
    }

    fn drop_container(&mut self, name: &[u8]) -> Result<(), StoreFault> {
        (**self).drop_container(name)
    }

    fn names(
        &mut self,
        container: &[u8],
        prefix: &[u8],
        marker: &[u8],
        limit: u32,
    ) -> Result<List<NameItem>, StoreFault> {
        (**self).names(container, prefix, marker, limit)
    }

    fn head(&mut self, container: &[u8], name: &[u8]) -> Result<Option<StoredHead>, StoreFault> {
        (**self).head(container, name)
    }

    fn segments(
        &mut self,
        container: &[u8],
        name: &[u8],
    ) -> Result<Option<List<Segment>>, StoreFault> {
        (**self).segments(container, name)
    }

    fn read(
        &mut self,
        container: &[u8],
        name: &[u8],
        from: u64,
        end: u64,
        out: &mut Bytes,
    ) -> Result<(), StoreFault> {
        (**self).read(container, name, from, end, out)
    }

    fn put(&mut self, container: &[u8], object: Stored, etag: Bytes) -> Result<(), StoreFault> {
        (**self).put(container, object, etag)
    }

    fn remove(&mut self, container: &[u8], name: &[u8]) -> Result<bool, StoreFault> {
        (**self).remove(container, name)
    }
}
