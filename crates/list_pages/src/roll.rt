ghost use Rattle.std.specs.Prelude.{◌<◌, map, Ok, ◌≡◌, ◌≢◌, ◌++◌, ◌∷◌, [], true, false, not, ◌&&◌, nat_lt, take, List, ℕ, IfOk, OnOk, OnErr, None, Err};
ghost use Rattle.std.specs.List.{All, list_all};
ghost use Rattle.std.specs.Ordering.{is_lt};
ghost use Rattle.gate_base.specs.Maps.{name_cmp};
ghost use Rattle.s3_machine.specs.Items.{begins};
ghost use Rattle.list_pages.specs.Rolling.{first_rows};
ghost use Rattle.list_pages.specs.Rolls.{wanted};
ghost use Rattle.s3_machine.specs.Shown.{IsShownItem, IsShownItemHead};
ghost use Rattle.s3_machine.specs.declared.items.ItemHead.{ItemHead};
ghost use Rattle.swift_marks.specs.Tag.{read_stamp};
ghost use Rattle.list_pages.specs.Jumps.{jumped, next_marker};
ghost use Rattle.list_pages.specs.Listing.{is_listed_name_with_prefix, last_of, name_in};
ghost use Rattle.list_pages.specs.Rolling.{Before, Rises, Rolled, ends};
ghost use Rattle.list_pages.specs.Rolls.{head_in, row_view, rows_of, seen_of, under_of, HasUntagged, IsUntagged};
ghost use Rattle.list_pages.specs.declared.fault.RollFault.TheVariants as fault;

use crate::RollFault;
use crate::text::{roll_next_marker, roll_text_end};
use gate_base::{Bytes, Copying, List, Memory};
use s3_machine::{Asked, Item, ItemHead};
use std::alloc::Global;
use std::marker::Model;
use swift_calls::NameItem;
use swift_marks::Stamp;

/// The items of a listing as its names come, one after the other in the order of their bytes: a name in which the
/// delimiter occurs after the prefix becomes the text up to the end of its first occurrence, and names of one text are
/// one item (Amazon S3 API Reference, "ListObjects"). Of the names only the last is kept, and of those behind it the listing
/// may leave out all that roll up into the same text.
#[derive(Drop)]
pub struct Roll {
    alloc: Global,
    prefix: Bytes,
    delimiter: Bytes,
    marker: Bytes,
    max: u32,
    items: List<Item>,
    more: bool,
    last: Bytes,
}

impl Model for Roll {
    ghost use Rattle.std.specs.List.{All};
    ghost use Rattle.s3_machine.specs.Shown.{IsShownItem};
    ghost use Rattle.list_pages.specs.Rolls.{Rolls};

    ghost Value = { Rolls };

    ghost view = { λ r. record { wanted = record { prefix = r.prefix; delimiter = r.delimiter; marker = r.marker; max = r.max }; items = r.items; more = r.more; last = r.last } };

    ghost invariant = { λ r. All IsShownItem r.items };
}

/// The text after which a listing begins: version 1's marker; version 2's token, or what it starts after where it has no
/// token.
fn roll_marker(asked: &Asked) -> &Bytes
    ensures { result.now ≡ (wanted asked.now).marker }
{
    if asked.version != 2 {
        return &asked.marker;
    }
    match &asked.token {
        Some(text) => text,
        None => &asked.start_after,
    }
}

/// The item of a text.
fn make_roll_item(alloc: Global, text: &[u8], up: bool, item: &NameItem) -> Result<Item, RollFault>
    ensures row { IfOk result (λ made. row_view made ≡ (text.now, under_of up (head_in item.now))) }
    ensures shown { IfOk result IsShownItem }
    ensures no_tag { result ≡ Err fault.NoTag → (up ≡ false)
        × (read_stamp item.now.content_type ≡ None) }
    ensures tagged { OnOk result (up ≡ false → read_stamp item.now.content_type ≢ None) }
{
    let text = Bytes::from_slice(alloc, text)?;
    if up {
        return Ok(Item { text, object: None });
    }
    let head = read_roll_item_head(alloc, item)?;
    Ok(Item {
        text,
        object: Some(head),
    })
}

/// What a listing tells of an object, whose type ends in its stamp.
#[tactic(auto, using(crate::proofs::lemmas::Dated::stamp_is_dated))]
fn read_roll_item_head(alloc: Global, item: &NameItem) -> Result<ItemHead, RollFault>
    ensures head { IfOk result (λ head. head ≡ head_in item.now) }
    ensures shown { IfOk result IsShownItemHead }
    ensures no_tag { result ≡ Err fault.NoTag → read_stamp item.now.content_type ≡ None }
    ensures tagged { OnOk result (read_stamp item.now.content_type ≢ None) }
{
    let stamp = Stamp::read(alloc, item.content_type.as_slice())?;
    Ok(ItemHead {
        etag: stamp.etag,
        modified: stamp.moment,
        size: item.size,
    })
}

impl Roll {
    /// Before the first name. Where the text after which the listing begins stands inside a common prefix, it goes on behind
    /// all keys of that prefix.
    pub fn new(alloc: Global, asked: &Asked) -> Result<Roll, Memory>
        ensures { IfOk result (λ roll. roll ≡ record {
          wanted = wanted asked.now;
          items = [];
          more = false;
          last = next_marker asked.now.prefix asked.now.delimiter (wanted asked.now).marker;
        }) }
    {
        let marker = roll_marker(asked);
        let last = roll_next_marker(
            alloc,
            asked.prefix.as_slice(),
            asked.delimiter.as_slice(),
            marker.as_slice(),
        )?;
        Ok(Roll {
            alloc,
            prefix: asked.prefix.copy()?,
            delimiter: asked.delimiter.copy()?,
            marker: marker.copy()?,
            max: asked.max,
            items: List::new(alloc),
            more: false,
            last,
        })
    }

    /// Takes the next name, which begins with the prefix and comes after those before it. False once the answer is full:
    /// exactly where at most 0 items are wanted, or the names so far already make the listing truncated. NoTag exactly
    /// where the name's object is to be shown and its type ends in no stamp of a tag; Memory where memory ran out. After
    /// a fault all is as before.
    pub fn push(&mut self, item: &NameItem) -> Result<bool, RollFault>
        requires { begins self.old.wanted.prefix item.now.name ≡ true }
        ensures rolled { OnOk result ((seen : List (List ℕ × ItemHead))
            → Rolled self.old.wanted (rows_of self.old.items) self.old.more seen
            → Before item.now.name seen
            → Rolled self.new.wanted (rows_of self.new.items) self.new.more
            (seen ++ seen_of item.now ∷ [])) }
        ensures wanted { self.new.wanted ≡ self.old.wanted }
        ensures last { OnOk result (self.new.last ≡ item.now.name) }
        ensures goes { IfOk result
            (λ goes. goes ≡ (nat_lt 0 self.new.wanted.max && not self.new.more)) }
        ensures no_tag { result ≡ Err fault.NoTag → IsUntagged self.old item.now }
        ensures tagged { OnOk result (IsUntagged self.old item.now → ⊥) }
        ensures err { OnErr result (self.new ≡ self.old) }
    {
        let name = item.name.copy()?;
        if self.more {
            self.last = name;
            return Ok(false);
        }
        self.take(item)?;
        self.last = name;
        Ok(0 < self.max && !self.more)
    }

    /// Takes the names of a page, of a listing that wants items and is not full yet, until the answer is full. False once
    /// it is. The faults are those of [`Roll::push`] for one of the names.
    pub fn push_page(&mut self, page: &[NameItem]) -> Result<bool, RollFault>
        requires names { list_all (is_listed_name_with_prefix self.old.wanted.prefix)
            (map name_in page.now) ≡ true }
        requires wants { 0 < self.old.wanted.max }
        requires room { self.old.more ≡ false }
        ensures rolled { OnOk result ((seen : List (List ℕ × ItemHead))
            → Rolled self.old.wanted (rows_of self.old.items) self.old.more seen
            → Rises self.old.wanted.prefix seen (map seen_of page.now)
            → Rolled self.new.wanted (rows_of self.new.items) self.new.more
            (seen ++ map seen_of page.now)) }
        ensures wanted { self.new.wanted ≡ self.old.wanted }
        ensures last { result ≡ Ok true
            → self.new.last ≡ last_of self.old.last (map name_in page.now) }
        ensures goes { IfOk result (λ goes. goes ≡ not self.new.more) }
        ensures no_tag { result ≡ Err fault.NoTag → HasUntagged page.now }
    {
        for item in page {
            if !self.push(item)? {
                return Ok(false);
            }
        }
        Ok(true)
    }

    /// Goes on behind all keys of the common prefix that the last name rolls up into, so that none of them is read. No key
    /// but theirs is left out, and they show nothing more. Where the name doesn't roll up, and after a fault, all is as
    /// before.
    pub fn jump(&mut self) -> Result<(), Memory>
        ensures jumped { OnOk result (self.new ≡ jumped self.old) }
        ensures err { OnErr result (self.new ≡ self.old) }
    {
        let marker = roll_next_marker(
            self.alloc,
            self.prefix.as_slice(),
            self.delimiter.as_slice(),
            self.next_marker(),
        )?;
        self.last = marker;
        Ok(())
    }

    /// Takes the next name, where none is left over yet.
    fn take(&mut self, item: &NameItem) -> Result<(), RollFault>
        requires prefix { begins self.old.wanted.prefix item.now.name ≡ true }
        requires room { self.old.more ≡ false }
        ensures rolled { OnOk result ((seen : List (List ℕ × ItemHead))
            → Rolled self.old.wanted (rows_of self.old.items) self.old.more seen
            → Before item.now.name seen
            → Rolled self.new.wanted (rows_of self.new.items) self.new.more
            (seen ++ seen_of item.now ∷ [])) }
        ensures wanted { self.new.wanted ≡ self.old.wanted }
        ensures last { self.new.last ≡ self.old.last }
        ensures no_tag { result ≡ Err fault.NoTag → IsUntagged self.old item.now }
        ensures tagged { OnOk result (IsUntagged self.old item.now → ⊥) }
        ensures err { OnErr result (self.new ≡ self.old) }
    {
        let name = item.name.as_slice();
        let (end, up) = roll_text_end(self.prefix.as_slice(), self.delimiter.as_slice(), name);
        let text = &name[..end];
        if !self.is_behind(text) {
            return Ok(());
        }
        if self.is_last_text(text) {
            return Ok(());
        }
        if self.items.len() < self.max as usize {
            let row = make_roll_item(self.alloc, text, up, item)?;
            self.items.push(row)?;
            return Ok(());
        }
        self.more = true;
        Ok(())
    }

    /// Whether a text comes after the marker.
    fn is_behind(&self, text: &[u8]) -> bool
        ensures { result ≡ is_lt (name_cmp self.now.wanted.marker text.now) }
    {
        self.marker.as_slice().cmp(text).is_lt()
    }

    /// Whether the last item has this text.
    fn is_last_text(&self, text: &[u8]) -> bool
        ensures { result ≡ ends text.now (rows_of self.now.items) }
    {
        let items = self.items.as_slice();
        if items.is_empty() {
            return false;
        }
        text == items[items.len() - 1].text.as_slice()
    }

    /// The text after which the next page of names is wanted: the last name that was taken, or where [`Roll::jump`] went on
    /// behind it, and before the first name where the listing begins.
    pub fn next_marker(&self) -> &[u8]
        ensures { result.now ≡ self.now.last }
    {
        self.last.as_slice()
    }

    /// The items, and whether the listing is truncated: at most 0 items are never.
    pub fn finish(self) -> (List<Item>, bool)
        ensures items { result.0 ≡ self.items }
        ensures truncated { result.1 ≡ (nat_lt 0 self.wanted.max && self.more) }
        ensures listed { (seen : List (List ℕ × ItemHead))
            → Rolled self.wanted (rows_of self.items) self.more seen
            → (rows_of result.0, result.1) ≡ first_rows self.wanted seen }
        ensures shown { All IsShownItem result.0 }
    {
        let truncated = 0 < self.max && self.more;
        (self.items, truncated)
    }
}
