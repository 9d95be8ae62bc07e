//! Metadata as the store keeps it: in pieces.
ghost use Rattle.std.specs.Prelude.{◌≡◌, ◌<◌, ◌++◌, true, flat_map, take, drop, IfOk, OnOk};
ghost use Rattle.std.specs.Cmp.Lexicographic.{pointwise};
ghost use Rattle.std.specs.Str.{bytes_eq};
ghost use Rattle.s3_names.specs.Meta.{names_ascend};
ghost use Rattle.swift_marks.specs.Pack.{entry_text, bracketed, pieces_of, pack_of, inside, first_entry, other_entries, entries_of, is_behind, ReadsEntries, unpacked, Unpacks};

use crate::MarkFault;
use crate::number::number_of;
use gate_base::{Bytes, List, Memory, Pair, cut};
use s3_names::Meta;
use std::alloc::Global;
use std::cmp::Ordering;
use text_forms::append_decimal;

/// The most bytes that a piece has between its brackets.
const PIECE: u64 = 254;

/// The pieces of metadata: its entries in order, each `NLEN.VLEN.NAME` and the value directly behind it, joined and
/// cut into pieces of 254 bytes, the last one shorter or equal, each in `[` and `]`. No entries give no piece. All
/// metadata has such pieces, whatever its names and values are.
#[tactic(auto, unfolding(crate::specs::Pack::pack_of))]
pub fn pack(alloc: Global, meta: &Meta) -> Result<List<Bytes>, Memory>
    ensures pieces { IfOk result (λ pieces. pieces ≡ pack_of meta.now) }
    ensures ordered { OnOk result (names_ascend meta.now ≡ true) }
{
    let text = pack_entries_text(alloc, meta.pairs())?;
    pack_pieces(alloc, text.as_slice())
}

fn pack_entries_text(alloc: Global, entries: &[Pair]) -> Result<Bytes, Memory>
    ensures { IfOk result (λ text. text ≡ flat_map entry_text entries.now) }
{
    let mut text = Bytes::new(alloc);
    for entry in entries {
        append_pack_entry(&mut text, entry)?;
    }
    Ok(text)
}

fn append_pack_entry(text: &mut Bytes, entry: &Pair) -> Result<(), Memory>
    ensures { OnOk result (text.new ≡ text.old ++ entry_text entry.now) }
{
    append_decimal(text, entry.name.len() as u64)?;
    text.append(b".")?;
    append_decimal(text, entry.value.len() as u64)?;
    text.append(b".")?;
    text.append(entry.name.as_slice())?;
    text.append(entry.value.as_slice())
}

fn pack_pieces(alloc: Global, text: &[u8]) -> Result<List<Bytes>, Memory>
    ensures { IfOk result (λ pieces. pieces ≡ pieces_of text.now) }
{
    let mut pieces = List::new(alloc);
    let mut rest = text;
    'cut: while rest.len() != 0 {
        let (piece, behind) = cut_pack_text(rest, PIECE);
        pieces.push(bracketed(alloc, piece)?)?;
        rest = behind;
    }
    Ok(pieces)
}

fn bracketed(alloc: Global, piece: &[u8]) -> Result<Bytes, Memory>
    ensures { IfOk result (λ text. text ≡ bracketed piece.now) }
{
    let mut text = Bytes::from_slice(alloc, b"[")?;
    text.append(piece)?;
    text.append(b"]")?;
    Ok(text)
}

/// The metadata of pieces. BadPack exactly where they are no pack: only the pieces that `pack` gives of some metadata
/// are one.
#[tactic(auto, unfolding(crate::specs::Pack::unpacked))]
pub fn unpack(alloc: Global, pieces: &[Bytes]) -> Result<Meta, MarkFault>
    ensures { Unpacks (unpacked pieces.now) result }
{
    let text = pack_piece_insides(alloc, pieces)?;
    let meta = read_pack_entries(alloc, text.as_slice())?;
    let packed = pack(alloc, &meta)?;
    if !are_same_pack_pieces(pieces, packed.as_slice()) {
        return Err(MarkFault::BadPack);
    }
    Ok(meta)
}

fn pack_piece_insides(alloc: Global, pieces: &[Bytes]) -> Result<Bytes, Memory>
    ensures { IfOk result (λ text. text ≡ flat_map inside pieces.now) }
{
    let mut text = Bytes::new(alloc);
    for piece in pieces {
        text.append(inside(piece.as_slice()))?;
    }
    Ok(text)
}

/// The piece without its first and its last byte.
fn inside(piece: &[u8]) -> &[u8]
    ensures { result.now ≡ inside piece.now }
{
    let (front, _) = piece.split_at(piece.len().saturating_sub(1));
    match front {
        [_, inside @ ..] => inside,
        [] => front,
    }
}

/// The entries that stand in the places of a text, BadPack exactly where their names don't ascend.
fn read_pack_entries(alloc: Global, text: &[u8]) -> Result<Meta, MarkFault>
    ensures { ReadsEntries (entries_of text.now) result }
{
    let mut meta = Meta::new(alloc);
    let mut rest = text;
    'entries: while rest.len() != 0 {
        let (name, value, behind) = cut_pack_entry(rest);
        if !is_behind(name, meta.pairs()) {
            return Err(MarkFault::BadPack);
        }
        meta.add(name, value)?;
        rest = behind;
    }
    Ok(meta)
}

/// The name and the value in the places of the first entry, and what stands behind it.
#[tactic(auto, unfolding(crate::specs::Pack::first_entry, crate::specs::Pack::other_entries))]
fn cut_pack_entry(text: &[u8]) -> (&[u8], &[u8], &[u8])
    ensures name { result.0.now ≡ (first_entry text.now).name }
    ensures value { result.1.now ≡ (first_entry text.now).value }
    ensures behind { result.2.now ≡ other_entries text.now }
{
    let (name_size, sized) = cut(text, b'.');
    let (value_size, body) = cut(sized, b'.');
    let (name, more) = cut_pack_text(body, number_of(name_size));
    let (value, behind) = cut_pack_text(more, number_of(value_size));
    (name, value, behind)
}

/// The first bytes, as many or all, and those behind them.
fn cut_pack_text(text: &[u8], size: u64) -> (&[u8], &[u8])
    ensures front { result.0.now ≡ take size text.now }
    ensures behind { result.1.now ≡ drop size text.now }
{
    if size < text.len() as u64 {
        text.split_at(size as usize)
    } else {
        (text, &text[text.len()..])
    }
}

/// The name stands behind those of all entries, whose names ascend.
fn is_behind(name: &[u8], entries: &[Pair]) -> bool
    ensures { result ≡ is_behind name.now entries.now }
{
    match entries.last() {
        Some(last) => last.name.as_slice().cmp(name) == Ordering::Less,
        None => true,
    }
}

fn are_same_pack_pieces(pieces: &[Bytes], others: &[Bytes]) -> bool
    ensures { result ≡ pointwise bytes_eq pieces.now others.now }
{
    if pieces.len() != others.len() {
        return false;
    }
    for at in 0..pieces.len() {
        if pieces[at].as_slice() != others[at].as_slice() {
            return false;
        }
    }
    true
}
