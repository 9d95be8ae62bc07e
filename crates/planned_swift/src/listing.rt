//! Listings of an account that is kept in memory.
ghost use Rattle.std.specs.Prelude.{◌≡◌, [], IfOk};
ghost use Rattle.swift_calls.specs.Bodies.{item_of};
ghost use Rattle.swift_calls.specs.Step.{is_listed, page};
ghost use Rattle.planned_swift.specs.Lists.{name_of, stored_item, AreSizedObjects};

use crate::Container;
use crate::objects::item_of;
use gate_base::{Bytes, Copying, List, Memory};
use std::alloc::Global;
use swift_calls::{NameItem, Stored};

/// Whether a name stands after the marker and begins with the prefix.
fn is_listed(prefix: &[u8], marker: &[u8], name: &[u8]) -> bool
    ensures { result ≡ is_listed prefix.now marker.now name.now }
{
    name.cmp(marker).is_gt() && name.starts_with(prefix)
}

/// The names of the containers after the marker, at most so many.
#[tactic(auto, using(crate::proofs::Paging::paged_start, crate::proofs::Paging::paged_more, crate::proofs::Paging::paged_left, crate::proofs::Paging::paged_full, crate::proofs::Paging::paged_end))]
pub(crate) fn list_containers_in_account(
    alloc: Global,
    containers: &[Container],
    marker: &[u8],
    limit: usize,
) -> Result<List<Bytes>, Memory>
    ensures { IfOk result (λ names. names ≡ page limit name_of (λ c. is_listed [] marker.now c.name)
        containers.now) }
{
    let mut names = List::new(alloc);
    for container in containers {
        if names.len() == limit {
            break;
        }
        if is_listed(b"", marker, container.name.as_slice()) {
            names.push(container.name.copy()?)?;
        }
    }
    Ok(names)
}

/// The objects after the marker whose names begin with the prefix, at most so many.
#[tactic(auto, using(crate::proofs::Paging::paged_start, crate::proofs::Paging::paged_more, crate::proofs::Paging::paged_left, crate::proofs::Paging::paged_full, crate::proofs::Paging::paged_end))]
pub(crate) fn list_objects_in_account(
    alloc: Global,
    objects: &[Stored],
    prefix: &[u8],
    marker: &[u8],
    limit: usize,
) -> Result<List<NameItem>, Memory>
    requires { AreSizedObjects objects.now }
    ensures { IfOk result (λ items. items ≡ page limit stored_item
        (λ s. is_listed prefix.now marker.now s.name) objects.now) }
{
    let mut items = List::new(alloc);
    for object in objects {
        if items.len() == limit {
            break;
        }
        if is_listed(prefix, marker, object.name.as_slice()) {
            items.push(item_of(alloc, object)?)?;
        }
    }
    Ok(items)
}
