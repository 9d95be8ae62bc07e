ghost use Rattle.std.specs.Prelude.{◌≡◌, true, Err, IfOk, map};
ghost use Rattle.std.specs.List.{list_all, list_any};
ghost use Rattle.s3_names.specs.Answer.{Gives};
ghost use Rattle.s3_names.specs.Query.{pieces, pair_of, has_bad_side, is_text_pair, text_pairs, query_of, is_named, without};

use crate::NameFault;
use crate::escapes::{has_bad_escape, unescape};
use crate::text::is_text;
use gate_base::{Copying, List, Memory, Pair, cut};
use std::alloc::Global;
use std::marker::Model;

/// The query of a target: its pairs of a name and a value in the order of the target, each of them UTF-8 without
/// byte 0. Contracts see it as their list.
#[derive(Debug, Drop)]
pub struct Query {
    entries: List<Pair>,
}

impl Model for Query {
    ghost use Rattle.std.specs.Prelude.{◌≡◌, List, true};
    ghost use Rattle.std.specs.List.{list_all};
    ghost use Rattle.gate_base.specs.declared.page.Pair.{Pair};
    ghost use Rattle.s3_names.specs.Query.{is_text_pair};

    ghost Value = { List Pair };

    ghost view = { λ query. query.entries };

    ghost invariant = { λ query. list_all is_text_pair query.entries ≡ true };
}

impl Query {
    /// Splits at `&`, skips empty pieces, splits each at its first `=` (an absent value is empty) and decodes both
    /// sides. `BadEscape` exactly where a side has a bad escape; else `NotUtf8` exactly where a decoded side isn't
    /// UTF-8 or has a byte 0. A `+` stands for itself.
    #[tactic(auto, unfolding(crate::specs::Query::query_of))]
    pub fn read(alloc: Global, text: &[u8]) -> Result<Query, NameFault>
        ensures answer { Gives result (query_of text.now) }
        ensures bad_escape { list_any has_bad_side (pieces text.now) ≡ true
            → result ≡ Err NameFault.BadEscape }
    {
        if any_bad_side(text) {
            return Err(NameFault::BadEscape);
        }
        Ok(Query {
            entries: read_query_pairs(alloc, text)?,
        })
    }

    /// The pairs in the order of the target.
    pub fn pairs(&self) -> &[Pair]
        ensures value { result.now ≡ self.now }
        ensures texts { list_all is_text_pair self.now ≡ true }
    {
        self.entries.as_slice()
    }

    /// The pairs of all other names, in their order.
    pub fn without(&self, alloc: Global, name: &[u8]) -> Result<Query, Memory>
        ensures { IfOk result (λ query. query ≡ without name.now self.now) }
    {
        Ok(Query {
            entries: query_pairs_without(alloc, self.entries.as_slice(), name)?,
        })
    }
}

impl Copying for Query {
    fn copy(&self) -> Result<Query, Memory> {
        Ok(Query {
            entries: self.entries.copy()?,
        })
    }
}

fn bad_side(piece: &[u8]) -> bool
    ensures { result ≡ has_bad_side piece.now }
{
    let (name, value) = cut(piece, b'=');
    has_bad_escape(name) || has_bad_escape(value)
}

#[tactic(auto, using(crate::proofs::QueryLemmas::pieces_nil, crate::proofs::QueryLemmas::pieces_skip, crate::proofs::QueryLemmas::pieces_more, crate::proofs::QueryLemmas::behind_is_shorter))]
fn any_bad_side(text: &[u8]) -> bool
    ensures { result ≡ list_any has_bad_side (pieces text.now) }
{
    let mut rest = text;
    'pieces: while !rest.is_empty() {
        let (piece, behind) = cut(rest, b'&');
        if !piece.is_empty() && bad_side(piece) {
            return true;
        }
        rest = behind;
    }
    false
}

fn is_text_pair(pair: &Pair) -> bool
    ensures { result ≡ is_text_pair pair.now }
{
    is_text(pair.name.as_slice()) && is_text(pair.value.as_slice())
}

fn read_query_pair(alloc: Global, piece: &[u8]) -> Result<Pair, Memory>
    ensures { IfOk result (λ pair. pair ≡ pair_of piece.now) }
{
    let (before, behind) = cut(piece, b'=');
    Ok(Pair {
        name: unescape(alloc, before)?,
        value: unescape(alloc, behind)?,
    })
}

#[tactic(auto, using(crate::proofs::QueryLemmas::has_read_nothing, crate::proofs::QueryLemmas::behind_is_shorter))]
fn read_query_pairs(alloc: Global, text: &[u8]) -> Result<List<Pair>, NameFault>
    ensures answer { Gives result (text_pairs (map pair_of (pieces text.now))) }
    ensures texts { IfOk result (λ pairs. list_all is_text_pair pairs ≡ true) }
{
    let mut pairs = List::new(alloc);
    let mut rest = text;
    'pieces: while !rest.is_empty() {
        let (piece, behind) = cut(rest, b'&');
        if !piece.is_empty() {
            let pair = read_query_pair(alloc, piece)?;
            if !is_text_pair(&pair) {
                return Err(NameFault::NotUtf8);
            }
            pairs.push(pair)?;
        }
        rest = behind;
    }
    Ok(pairs)
}

fn is_named(name: &[u8], pair: &Pair) -> bool
    ensures { result ≡ is_named name.now pair.now }
{
    pair.name.as_slice() == name
}

fn query_pairs_without(alloc: Global, pairs: &[Pair], name: &[u8]) -> Result<List<Pair>, Memory>
    ensures { IfOk result (λ kept. kept ≡ without name.now pairs.now) }
{
    let mut kept = List::new(alloc);
    for pair in pairs {
        if !is_named(name, pair) {
            kept.push(pair.copy()?)?;
        }
    }
    Ok(kept)
}
