//! A page of the files of any container, for the loops that go over them.
ghost use Rattle.std.specs.Prelude.{◌≡◌, ◌<◌, ◌+◌, map, IfOk, IfSome};
ghost use Rattle.swift_calls.specs.History.{budget};
ghost use Rattle.swift_calls.specs.Limits.{IsMarker};
ghost use Rattle.swift_calls.specs.Step.{IsContainerName};
ghost use Rattle.list_pages.specs.Listing.{name_in, IsPageOf};
ghost use Rattle.account_calls.specs.Calls.{always, Any, Asks};
ghost use Rattle.account_calls.specs.FilePages.{next_after, TellsFiles};
ghost use Rattle.account_calls.specs.Lent.{Stays};
ghost use Rattle.account_calls.specs.Listing.{TellsOf};

use crate::{PlanFault, Settled};
use gate_base::{Bytes, Copying, List, Memory};
use list_pages::MOST_NAMES;
use swift_calls::{NameItem, Swift};

/// A page of the files of a container whose names begin with a prefix and come after a marker, by GET of the container (Object
/// Storage API v1, "Show container details and list objects"); of a container that is missing none. At most one call, and the
/// S3 state stays. Failed comes only where the store's count of faults rose; Memory where memory ran out; Inconsistent never
/// over an observable consistent account.
pub fn settled_file_page<W: Swift>(
    state: &mut Settled<'_, W>,
    folder: &[u8],
    prefix: &[u8],
    marker: &[u8],
) -> Result<List<NameItem>, PlanFault>
    requires folder { IsContainerName folder.now }
    requires prefix { IsMarker prefix.now }
    requires marker { IsMarker marker.now }
    ensures stays { Stays state.old state.new }
    ensures counted { IfOk result (λ _. (W.history state.old.store.now).called < budget
        × ((W.history state.new.store.now).called ≡ (W.history state.old.store.now).called + 1)) }
    ensures page { IfOk result (λ items. IsPageOf prefix.now marker.now (map name_in items)) }
    ensures asks { Asks (always 1) (W.history state.old.store.now) (W.history state.new.store.now)
        Any (TellsOf (TellsFiles folder.now prefix.now marker.now)) result }
{
    Ok(state.names(folder, prefix, marker)?)
}

/// The name that the next page begins behind: the last one of a whole page, and `None` after a shorter one.
pub fn next_marker(page: &[NameItem]) -> Result<Option<Bytes>, Memory>
    ensures { IfOk result (λ marker. marker ≡ next_after (map name_in page.now)) }
{
    if page.len() < MOST_NAMES as usize {
        return Ok(None);
    }
    match page.last() {
        Some(item) => Ok(Some(item.name.copy()?)),
        None => Ok(None),
    }
}
