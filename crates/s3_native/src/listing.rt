//! The items of a listing in the machine's running form: all rows as a set, plain and slow.
ghost use Rattle.std.specs.Prelude.{◌≡◌, ◌≤◌, ◌&&◌, true, length, map, nat_lt, take, IfOk, IfSome, OnOk};
ghost use Rattle.std.specs.FinMap.{entries, from_entries};
ghost use Rattle.std.specs.Option.{option_map};
ghost use Rattle.gate_base.specs.Maps.{name_cmp};
ghost use Rattle.s3_machine.specs.declared.items.ItemHead.{ItemHead};
ghost use Rattle.s3_machine.specs.Items.{begins, behind, roll_by, row_of, with_prefix};
ghost use Rattle.s3_native.specs.Native.{added, shown, under};
ghost use Rattle.s3_machine.specs.Step.{item_of, listed_key, listing, marker_of};

use crate::native::NativeObject;
use gate_base::{Bytes, List, Memory};
use name_table::Table;
use s3_machine::{Asked, Item, ItemHead, begins, copy_option};
use std::alloc::Global;

/// The text that a listing goes on behind: version 2 has a token, which goes before what it is to start after.
pub(crate) fn native_listing_marker(asked: &Asked) -> &[u8]
    ensures { result.now ≡ marker_of asked.now }
{
    if asked.version != 2 {
        return asked.marker.as_slice();
    }
    match &asked.token {
        Some(token) => token.as_slice(),
        None => asked.start_after.as_slice(),
    }
}

/// Where the first delimiter of a text ends, if there is one and it isn't empty.
fn native_roll_end(delimiter: &[u8], text: &[u8]) -> Option<usize>
    ensures text { option_map (λ n. take n text.now) result ≡ roll_by delimiter.now text.now }
    ensures within { IfSome result (λ n. n ≤ length text.now) }
{
    if delimiter.len() == 0 {
        return None;
    }
    for (i, _byte) in text.iter().enumerate() {
        let (_, rest) = text.split_at(i);
        if begins(delimiter, rest) {
            return Some(i + delimiter.len());
        }
    }
    None
}

/// Where the text ends that a key with the prefix is listed by, and whether it rolled up.
fn native_row_end(prefix: &[u8], delimiter: &[u8], key: &[u8]) -> (usize, bool)
    requires { begins prefix.now key.now ≡ true }
    ensures within { result.0 ≤ length key.now }
    ensures row { (head : ItemHead)
        → row_of prefix.now delimiter.now
        (key.now, head) ≡ (take result.0 key.now, under result.1 head) }
{
    let (_, rest) = key.split_at(prefix.len());
    match native_roll_end(delimiter, rest) {
        Some(end) => (prefix.len() + end, true),
        None => (key.len(), false),
    }
}

/// Adds a row under a text, unless one is there. Where memory runs out, the rows are as before.
fn add_native_row(
    rows: &mut Table<Option<ItemHead>>,
    text: &[u8],
    head: Option<ItemHead>,
) -> Result<(), Memory>
    ensures { OnOk result (rows.new ≡ added (text.now, head) rows.old) }
{
    if rows.get(text).is_some() {
        return Ok(());
    }
    rows.put(text, head)
}

/// The items whose text is greater than the marker, in the order of the texts.
fn native_items_behind(
    rows: &Table<Option<ItemHead>>,
    alloc: Global,
    marker: &[u8],
) -> Result<List<Item>, Memory>
    ensures { IfOk result (λ items. items ≡ map item_of (behind marker.now (entries rows.now))) }
{
    let mut items = List::new(alloc);
    for (text, object) in rows.as_map() {
        if marker.cmp(text.as_slice()).is_lt() {
            items.push(Item {
                text: Bytes::from_slice(alloc, text)?,
                object: copy_option(object)?,
            })?;
        }
    }
    Ok(items)
}

/// The items of a listing of these objects, and whether one is left over.
pub(crate) fn native_listed_items(
    objects: &Table<NativeObject>,
    alloc: Global,
    asked: &Asked,
) -> Result<(List<Item>, bool), Memory>
    ensures { IfOk result (λ listed. listed ≡ shown (listing asked.now objects.now)) }
{
    let rows = native_rows(
        objects,
        alloc,
        asked.prefix.as_slice(),
        asked.delimiter.as_slice(),
    )?;
    let items = native_items_behind(&rows, alloc, native_listing_marker(asked))?;
    let max = asked.max as usize;
    let truncated = is_native_listing_cut(max, items.len());
    Ok((first_native_items(items, max), truncated))
}

/// The rows of the keys that have the prefix.
fn native_rows(
    objects: &Table<NativeObject>,
    alloc: Global,
    prefix: &[u8],
    delimiter: &[u8],
) -> Result<Table<Option<ItemHead>>, Memory>
    ensures { IfOk result (λ rows. rows ≡ from_entries {R = name_cmp}
        (map (row_of prefix.now delimiter.now)
        (with_prefix prefix.now (map listed_key (entries objects.now))))) }
{
    let mut rows = Table::new(alloc);
    for (key, object) in objects.as_map() {
        if begins(prefix, key) {
            let (end, rolled) = native_row_end(prefix, delimiter, key);
            let head = if rolled {
                None
            } else {
                Some(object.item_head()?)
            };
            add_native_row(&mut rows, &key[..end], head)?;
        }
    }
    Ok(rows)
}

/// Whether an item is left over, where any is asked for.
pub(crate) fn is_native_listing_cut(max: usize, count: usize) -> bool
    ensures { result ≡ (nat_lt 0 max && nat_lt max count) }
{
    0 < max && max < count
}

/// The first items.
pub(crate) fn first_native_items<T: Drop>(items: List<T>, max: usize) -> List<T>
    ensures { result ≡ take max items }
{
    let mut items = items.into_vec();
    items.truncate(max);
    List::from_vec(items)
}
