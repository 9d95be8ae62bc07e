//! What rows tell.
ghost use Rattle.std.specs.Prelude.{◌≡◌, [], ◌∷◌, ◌++◌, IfOk, IfSome, OnOk};
ghost use Rattle.std.specs.List.{All};
ghost use Rattle.swift_calls.specs.Step.{IsMoment};
ghost use Rattle.kept_store.specs.Kept.{HasPrefix};

use gate_base::{Bytes, List};
use object_rows::{PLACED, Row, pieces_of};
use sqlite::{Error, ErrorCode};
use std::alloc::Global;
use swift_calls::{NameItem, ReadList, StoredHead};

/// The end of the moments of containers, in seconds since 1970.
const MOMENT_LIMIT: u64 = 253_402_300_800;

const LIST: u64 = 1;

const NO_MEMORY: Error = Error::SqliteFailure(ErrorCode::OutOfMemory);

/// A column has what no call put there.
const UNREAD: Error = Error::SqliteFailure(ErrorCode::DatabaseCorrupt);

pub(crate) fn is_out_of_memory(error: Error) -> bool {
    match error {
        Error::SqliteFailure(ErrorCode::OutOfMemory) => true,
        _ => false,
    }
}

fn bytes_at(row: &sqlite::Row, at: usize) -> Result<Bytes, Error> {
    let bytes: Vec<u8> = row.get(at)?;
    Ok(Bytes::from_vec(bytes))
}

pub(crate) fn row_in(row: &sqlite::Row) -> Result<Row, Error> {
    Ok(Row {
        kind: row.get(0)?,
        content_type: bytes_at(row, 1)?,
        meta: bytes_at(row, 2)?,
        size: row.get(3)?,
        hash: bytes_at(row, 4)?,
        body: bytes_at(row, 5)?,
    })
}

/// The number that stands in a row in the place of a body.
pub(crate) fn number_of_place(place: &[u8]) -> Option<u64> {
    match place {
        [a, b, c, d, e, f, g, h] => Some(u64::from_be_bytes([*a, *b, *c, *d, *e, *f, *g, *h])),
        _ => None,
    }
}

/// The number that the only column of a row has. None where another program wrote something else: that object isn't read, and
/// can be put over.
pub(crate) fn number_in(row: &sqlite::Row) -> Result<Option<u64>, Error> {
    let place: Vec<u8> = row.get(0)?;
    Ok(number_of_place(&place))
}

/// The numbers that rows tell, in order.
pub(crate) fn numbers_in(alloc: Global, rows: &[sqlite::Row]) -> Result<Vec<u64>, Error> {
    let mut numbers = Vec::new(alloc);
    for row in rows {
        if let Some(number) = number_in(row)? {
            if numbers.push(number).is_err() {
                return Err(NO_MEMORY);
            }
        }
    }
    numbers.sort_unstable();
    Ok(numbers)
}

/// The read list and the creation time of a container that a row tells.
pub(crate) fn container_in(row: &sqlite::Row) -> Result<(ReadList, Option<u64>), Error>
    ensures { IfOk result (λ told. IfSome told.1 IsMoment) }
{
    let readers = readers_in(row)?;
    let created = created_in(row)?;
    Ok((readers, created))
}

fn readers_in(row: &sqlite::Row) -> Result<ReadList, Error> {
    let readers: u64 = row.get(0)?;
    match readers {
        0 => Ok(ReadList::Nobody),
        1 => Ok(ReadList::Everybody),
        _ => Err(UNREAD),
    }
}

fn created_in(row: &sqlite::Row) -> Result<Option<u64>, Error>
    ensures { IfOk result (λ created. IfSome created IsMoment) }
{
    let created: Option<u64> = row.get(1)?;
    match created {
        Some(moment) => {
            if moment >= MOMENT_LIMIT {
                return Err(UNREAD);
            }
            Ok(created)
        }
        None => Ok(None),
    }
}

/// The names of containers that rows tell.
pub(crate) fn names_in(alloc: Global, rows: &[sqlite::Row]) -> Result<List<Bytes>, Error> {
    let mut names = List::new(alloc);
    for row in rows {
        if names.push(bytes_at(row, 0)?).is_err() {
            return Err(NO_MEMORY);
        }
    }
    Ok(names)
}

/// The objects that rows tell, up to the first whose name hasn't the prefix.
#[tactic(auto, using(crate::proofs::ListedItems::one_more))]
pub(crate) fn items_in(
    alloc: Global,
    prefix: &[u8],
    rows: &[sqlite::Row],
) -> Result<List<NameItem>, Error>
    ensures { IfOk result (All (HasPrefix prefix.now)) }
{
    let mut items = List::new(alloc);
    for row in rows {
        let item = item_in(row)?;
        if !item.name.as_slice().starts_with(prefix) {
            return Ok(items);
        }
        add_item(&mut items, item)?;
    }
    Ok(items)
}

fn add_item(items: &mut List<NameItem>, item: NameItem) -> Result<(), Error>
    ensures { OnOk result (items.new ≡ items.old ++ item ∷ []) }
{
    match items.push(item) {
        Ok(()) => Ok(()),
        Err(_) => Err(NO_MEMORY),
    }
}

fn item_in(row: &sqlite::Row) -> Result<NameItem, Error> {
    Ok(NameItem {
        name: bytes_at(row, 0)?,
        content_type: bytes_at(row, 1)?,
        size: row.get(2)?,
        hash: bytes_at(row, 3)?,
    })
}

/// The head that a row tells. Its kind is 0, 1 or 2.
pub(crate) fn head_in(alloc: Global, row: &sqlite::Row) -> Result<StoredHead, Error> {
    let kind: u64 = row.get(0)?;
    if kind > PLACED {
        return Err(UNREAD);
    }
    let meta: Vec<u8> = row.get(2)?;
    let Ok(meta) = pieces_of(alloc, &meta) else {
        return Err(NO_MEMORY);
    };
    Ok(StoredHead {
        content_type: bytes_at(row, 1)?,
        size: row.get(3)?,
        etag: bytes_at(row, 4)?,
        manifest: kind == LIST,
        meta,
    })
}
