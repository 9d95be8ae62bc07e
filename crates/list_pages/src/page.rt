//! One page of the names of a container, by one call of the store.
ghost use Rattle.std.specs.Prelude.{◌≡◌, map, option_copied, IfOk};
ghost use Rattle.swift_calls.specs.History.{Calls};
ghost use Rattle.swift_calls.specs.Step.{Fit};
ghost use Rattle.list_pages.specs.Listing.{follows, is_listed_name_with_prefix, name_in, page_request, AsksPage, ComesTo, FindsOdd, IsFaultOf, IsPageOf};

use crate::PageFault;
use gate_base::{Bytes, List, Memory};
use s3_machine::begins;
use s3_names::is_key;
use std::alloc::Global;
use swift_calls::{NameItem, Swift, SwiftFault, SwiftReply, SwiftRequest, drop_request};

/// How many names a page has at most (Object Storage API v1 lets a store give 10,000).
pub const MOST_NAMES: u32 = 1000;

/// A page of the names of a container's objects that begin with a prefix and come after a marker, at most 1000, by one
/// call of the store (Object Storage API v1, "Show container details and list objects"). A container that is missing has
/// none. Over every store the names of an Ok are names of objects (1 to 1024 bytes of UTF-8 without byte 0) that begin
/// with the prefix, come after the marker and ascend strictly in the order of their bytes. Failed comes only where the
/// store's count of faults rose; Memory where memory ran out, before the call, in it or to name what is inconsistent;
/// Inconsistent exactly for another answer, with the container and the first name by which it is no such page.
pub fn names<W: Swift>(
    alloc: Global,
    store: &mut W,
    container: &[u8],
    prefix: &[u8],
    marker: &[u8],
) -> Result<List<NameItem>, PageFault>
    requires { Fit (page_request container.now prefix.now marker.now) }
    ensures asks { AsksPage (W.history store.old) (W.history store.new) container.now prefix.now
        marker.now result }
    ensures page { IfOk result (λ items. IsPageOf prefix.now marker.now (map name_in items)) }
{
    let request = names_page_request(alloc, container, prefix, marker)?;
    let reply = ask_names_page(store, request)?;
    read_names_page(alloc, container, prefix, marker, reply)
}

/// Makes the call. It takes the request, so that the caller owns none where the call fails.
fn ask_names_page<W: Swift>(store: &mut W, request: SwiftRequest) -> Result<SwiftReply, SwiftFault>
    requires { Fit request }
    ensures { Calls (W.history store.old) (W.history store.new) request result }
{
    let answer = store.call(&request);
    drop_request(request);
    answer
}

/// The call that asks for a page.
fn names_page_request(
    alloc: Global,
    container: &[u8],
    prefix: &[u8],
    marker: &[u8],
) -> Result<SwiftRequest, Memory>
    ensures { IfOk result (λ request. request ≡ page_request container.now prefix.now marker.now) }
{
    Ok(SwiftRequest::ListNames {
        container: Bytes::from_slice(alloc, container)?,
        prefix: Bytes::from_slice(alloc, prefix)?,
        marker: Bytes::from_slice(alloc, marker)?,
        limit: MOST_NAMES,
    })
}

/// What the answer to a listing comes to.
fn read_names_page(
    alloc: Global,
    container: &[u8],
    prefix: &[u8],
    marker: &[u8],
    reply: SwiftReply,
) -> Result<List<NameItem>, PageFault>
    ensures comes { ComesTo container.now prefix.now marker.now reply result }
    ensures page { IfOk result (λ items. IsPageOf prefix.now marker.now (map name_in items)) }
{
    match reply {
        SwiftReply::Names(items) => {
            if let Some(name) = first_odd_in_names_page(prefix, marker, items.as_slice()) {
                return Err(inconsistent_names_page(alloc, container, name.as_slice()));
            }
            Ok(items)
        }
        SwiftReply::NotFound => Ok(List::new(alloc)),
        _ => Err(inconsistent_names_page(alloc, container, b"")),
    }
}

/// The fault of an answer that no listing of the container has.
fn inconsistent_names_page(alloc: Global, container: &[u8], name: &[u8]) -> PageFault
    ensures { IsFaultOf container.now name.now result }
{
    let folder = Bytes::from_slice(alloc, container);
    let odd = Bytes::from_slice(alloc, name);
    match (folder, odd) {
        (Ok(container), Ok(name)) => PageFault::Inconsistent { container, name },
        _ => PageFault::Memory,
    }
}

/// The first name by which the items are no page after the marker.
fn first_odd_in_names_page<'a>(
    prefix: &[u8],
    marker: &'a [u8],
    items: &'a [NameItem],
) -> Option<&'a Bytes>
    ensures { FindsOdd prefix.now marker.now (map name_in items.now) (option_copied result) }
{
    let mut last = marker;
    for (i, item) in items.iter().enumerate() {
        let name = item.name.as_slice();
        if i == MOST_NAMES as usize || !follows(prefix, last, name) {
            return Some(&item.name);
        }
        last = name;
    }
    None
}

/// Whether a name with the prefix may come next after another.
fn follows(prefix: &[u8], last: &[u8], name: &[u8]) -> bool
    ensures { result ≡ follows prefix.now last.now name.now }
{
    last.cmp(name).is_lt() && is_listed_name_with_prefix(prefix, name)
}

fn is_listed_name_with_prefix(prefix: &[u8], name: &[u8]) -> bool
    ensures { result ≡ is_listed_name_with_prefix prefix.now name.now }
{
    is_key(name) && begins(prefix, name)
}
