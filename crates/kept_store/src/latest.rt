//! The object that was read last.
ghost use Rattle.std.specs.Prelude.{◌≡◌, [], OnErr};
ghost use Rattle.object_rows.specs.Rows.{ReadsColumns};

use crate::rows::{is_out_of_memory, number_of_place, row_in};
use body_files::Place;
use gate_base::{Bytes, Memory};
use object_rows::{Columns, PLACED, Row, RowFault, object_of_columns};
use sqlite::Error;
use std::alloc::Global;
use swift_calls::{Content, Stored};

/// An object of a container.
#[derive(Drop)]
pub(crate) struct Latest {
    container: Bytes,
    name: Bytes,
    held: Held,
}

/// Where its bytes are.
#[derive(Drop)]
pub(crate) enum Held {
    Row(Stored),
    File(Place),
}

/// Whether it is the object of that name.
pub(crate) fn is_latest(latest: &Option<Latest>, container: &[u8], name: &[u8]) -> bool {
    match latest {
        Some(latest) => {
            latest.container.as_slice() == container && latest.name.as_slice() == name
        }
        None => false,
    }
}

/// The fault where a column of a row isn't of its type.
fn fault_of_columns(error: Error) -> RowFault {
    if is_out_of_memory(error) {
        RowFault::Memory
    } else {
        RowFault::Unread
    }
}

/// The object of a row, where there is one.
pub(crate) fn found_in(
    alloc: Global,
    container: &[u8],
    name: &[u8],
    row: Option<sqlite::Row>,
) -> Result<Option<Latest>, RowFault> {
    match row {
        Some(row) => Ok(Some(latest_in(alloc, container, name, &row)?)),
        None => Ok(None),
    }
}

/// The object of a row, whose hash isn't looked at.
fn latest_in(
    alloc: Global,
    container: &[u8],
    name: &[u8],
    row: &sqlite::Row,
) -> Result<Latest, RowFault> {
    let row = match row_in(row) {
        Ok(row) => row,
        Err(error) => return Err(fault_of_columns(error)),
    };
    let container = Bytes::from_slice(alloc, container)?;
    let held = held_of(alloc, name, row)?;
    let name = Bytes::from_slice(alloc, name)?;
    Ok(Latest {
        container,
        name,
        held,
    })
}

fn held_of(alloc: Global, name: &[u8], row: Row) -> Result<Held, RowFault> {
    if row.kind == PLACED {
        match number_of_place(row.body.as_slice()) {
            Some(number) => Ok(Held::File(Place {
                number,
                size: row.size,
            })),
            None => Err(RowFault::Unread),
        }
    } else {
        Ok(Held::Row(object_of(alloc, name, row)?))
    }
}

fn object_of(alloc: Global, name: &[u8], row: Row) -> Result<Stored, RowFault>
    ensures { ReadsColumns name.now (record row { hash = [] }) result }
{
    let Row {
        kind,
        content_type,
        meta,
        size,
        hash: _,
        body,
    } = row;
    let columns = Columns {
        kind,
        content_type: content_type.as_slice(),
        meta: meta.as_slice(),
        size,
    };
    object_of_columns(alloc, name, &columns, body)
}

/// The place of the body that was looked up, if it stands in a file.
pub(crate) fn place_of_latest(latest: &Option<Latest>) -> Option<Place> {
    match latest {
        Some(latest) => match &latest.held {
            Held::File(place) => Some(*place),
            Held::Row(_) => None,
        },
        None => None,
    }
}

/// Appends what stands in the row that was looked up.
pub(crate) fn append_latest(
    latest: &Option<Latest>,
    from: u64,
    end: u64,
    out: &mut Bytes,
) -> Result<(), Memory>
    ensures { OnErr result (out.new ≡ out.old) }
{
    match latest {
        Some(latest) => match &latest.held {
            Held::File(_) => Ok(()),
            Held::Row(object) => append_range(&object.content, from, end, out),
        },
        None => Ok(()),
    }
}

/// Appends bytes that were read. Where there are none before them nothing is copied.
pub(crate) fn append_part(part: Bytes, out: &mut Bytes) -> Result<(), Memory>
    ensures { OnErr result (out.new ≡ out.old) }
{
    if out.is_empty() {
        *out = part;
        Ok(())
    } else {
        out.append(part.as_slice())
    }
}

/// Appends the own bytes of an object from one place to another, where these are within.
fn append_range(content: &Content, from: u64, end: u64, out: &mut Bytes) -> Result<(), Memory>
    ensures { OnErr result (out.new ≡ out.old) }
{
    match content {
        Content::Plain(bytes) => {
            if from <= end && end <= bytes.len() as u64 {
                out.append(&bytes.as_slice()[from as usize..end as usize])?;
            }
            Ok(())
        }
        Content::Segments(_) => Ok(()),
    }
}
