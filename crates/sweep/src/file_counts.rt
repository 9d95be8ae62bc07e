//! The files of a container are counted, by whether they are used.
ghost use Rattle.std.specs.Prelude.{◌≡◌, ◌<◌, ◌+◌, map, IfOk, IfSome};
ghost use Rattle.list_pages.specs.Listing.{name_in};
ghost use Rattle.swift_calls.specs.History.{budget, present};
ghost use Rattle.swift_calls.specs.Limits.{IsMarker};
ghost use Rattle.swift_calls.specs.Step.{IsContainerName};
ghost use Rattle.account_calls.specs.Calls.{always, by_account, Any, Asks};
ghost use Rattle.account_calls.specs.Listing.{TellsOf};
ghost use Rattle.account_calls.specs.Told.{LeavesThroughout};
ghost use Rattle.leftovers.specs.Faults.{as_plan};
ghost use Rattle.leftovers.specs.Used.{is_taken};
ghost use Rattle.sweep.specs.Surveying.{one_more, page_calls, TalliesFiles, TellsTallied, TellsTally};

use account_calls::next_marker;
use gate_base::{Bytes, Memory};
use leftovers::{SweepFault, Used, file_page};
use std::alloc::Global;
use swift_calls::{NameItem, Swift};

/// How many files are used, and how many aren't.
#[derive(Clone, Copy, Debug, PartialEq, Eq)]
pub(crate) struct FileCount {
    pub(crate) used: u64,
    pub(crate) unused: u64,
}

/// The sum of two counts. One that 64 bits don't hold is refused as one that no memory holds.
pub(crate) fn add_counts(a: u64, b: u64) -> Result<u64, Memory>
    ensures { IfOk result (λ sum. sum ≡ a + b) }
{
    match a.checked_add(b) {
        Some(sum) => Ok(sum),
        None => Err(Memory),
    }
}

/// One file more, which is used or isn't.
fn add_file(total: FileCount, used: bool) -> Result<FileCount, Memory>
    ensures { IfOk result (λ sum. sum ≡ one_more used total) }
{
    if used {
        return Ok(FileCount {
            used: add_counts(total.used, 1)?,
            unused: total.unused,
        });
    }
    Ok(FileCount {
        used: total.used,
        unused: add_counts(total.unused, 1)?,
    })
}

/// The files of a page more.
fn add_files(used: &Used, items: &[NameItem], total: FileCount) -> Result<FileCount, Memory>
    ensures { IfOk result (λ sum. TalliesFiles (is_taken used.now) (map name_in items.now) total sum) }
{
    let mut sum = total;
    for item in items {
        sum = add_file(sum, used.takes(item.name.as_slice()))?;
    }
    Ok(sum)
}

/// Counts a page of files, on top of what was counted before. What is told with the sum is the marker of the next page, and `None`
/// after the last one. At most one call.
fn tally_page<W: Swift>(
    alloc: Global,
    store: &mut W,
    folder: &Bytes,
    used: &Used,
    marker: &Bytes,
    total: FileCount,
) -> Result<(FileCount, Option<Bytes>), SweepFault>
    requires folder { IsContainerName folder.now }
    requires marker { IsMarker marker.now }
    ensures counted { IfOk result (λ _. (W.history store.old).called < budget
        × ((W.history store.new).called ≡ (W.history store.old).called + 1)) }
    ensures is_marker { IfOk result (λ told. IfSome told.1 IsMarker) }
    ensures asks { Asks (always 1) (W.history store.old) (W.history store.new) Any
        (TellsOf (TellsTallied (is_taken used.now) folder.now marker.now total)) (as_plan result) }
    ensures leaves { LeavesThroughout (W.history store.old) (W.history store.new) }
{
    let page = file_page(alloc, store, folder.as_slice(), marker.as_slice())?;
    let next = next_marker(page.as_slice())?;
    let sum = add_files(used, page.as_slice(), total)?;
    Ok((sum, next))
}

/// Counts the files of a container page by page, by whether they are used. A container that is missing has none. At most as many
/// calls as there are pages, where the store is observable and its account consistent; the account stays as it is. One page is held
/// at a time.
pub(crate) fn tally_files<W: Swift>(
    alloc: Global,
    store: &mut W,
    folder: &Bytes,
    used: &Used,
) -> Result<FileCount, SweepFault>
    requires { IsContainerName folder.now }
    ensures asks { Asks (by_account (page_calls (present (W.history store.old)) folder.now))
        (W.history store.old) (W.history store.new) Any
        (TellsOf (TellsTally (is_taken used.now) folder.now)) (as_plan result) }
    ensures leaves { LeavesThroughout (W.history store.old) (W.history store.new) }
{
    let mut total = FileCount { used: 0, unused: 0 };
    let mut marker = Bytes::new(alloc);
    'pages: loop {
        let (sum, next) = tally_page(alloc, store, folder, used, &marker, total)?;
        total = sum;
        match next {
            Some(next) => marker = next,
            None => return Ok(total),
        }
    }
}
