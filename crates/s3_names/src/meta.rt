ghost use Rattle.std.specs.Prelude.{◌≡◌, [], IfOk, OnErr, not, ◌≤◌, length, if◌then◌else◌, position, true};
ghost use Rattle.std.specs.Str.{bytes_eq};
ghost use Rattle.s3_names.specs.Meta.{is_before, names_ascend, has_name, place_of, with_pair};

use gate_base::{Bytes, Copying, List, Memory, Pair};
use std::alloc::Global;
use std::cmp::Ordering;
use std::marker::Model;

/// The user metadata of an object: pairs of a name and a value, in the byte order of the names, no name twice.
/// Contracts see it as the list of its pairs.
#[derive(Debug, Drop)]
pub struct Meta {
    alloc: Global,
    entries: List<Pair>,
}

impl Model for Meta {
    ghost use Rattle.std.specs.Prelude.{◌≡◌, List, true};
    ghost use Rattle.gate_base.specs.declared.page.Pair.{Pair};
    ghost use Rattle.s3_names.specs.Meta.{names_ascend};

    ghost Value = { List Pair };

    ghost view = { λ meta. meta.entries };

    ghost invariant = { λ meta. names_ascend meta.entries ≡ true };
}

impl Meta {
    /// No metadata. It takes no memory.
    #[tactic(auto, unfolding(crate::specs::Meta::names_ascend))]
    pub fn new(alloc: Global) -> Meta
        ensures { result ≡ [] }
    {
        Meta {
            alloc,
            entries: List::new(alloc),
        }
    }

    /// Puts a pair in its place and answers true. It answers false and changes nothing exactly where the name is
    /// there. Where memory runs out, the metadata is as before.
    #[tactic(auto, using(crate::proofs::lemmas::MetaLemmas::with_pair_ascends), unfolding(crate::specs::Meta::with_pair))]
    pub fn add(&mut self, name: &[u8], value: &[u8]) -> Result<bool, Memory>
        ensures answer { IfOk result (λ added. added ≡ not (has_name name.now self.old)) }
        ensures ok { IfOk result (λ added.
            self.new ≡ (if added then with_pair name.now value.now self.old else self.old)) }
        ensures err { OnErr result (self.new ≡ self.old) }
    {
        if has_name(name, self.entries.as_slice()) {
            return Ok(false);
        }
        let place = place_of(name, self.entries.as_slice());
        let pair = Pair {
            name: Bytes::from_slice(self.alloc, name)?,
            value: Bytes::from_slice(self.alloc, value)?,
        };
        self.entries.insert(place, pair)?;
        Ok(true)
    }

    /// The pairs, in the byte order of their names.
    pub fn pairs(&self) -> &[Pair]
        ensures value { result.now ≡ self.now }
        ensures ordered { names_ascend self.now ≡ true }
    {
        self.entries.as_slice()
    }
}

impl Copying for Meta {
    fn copy(&self) -> Result<Meta, Memory> {
        Ok(Meta {
            alloc: self.alloc,
            entries: self.entries.copy()?,
        })
    }
}

fn is_before(name: &[u8], pair: &Pair) -> bool
    ensures { result ≡ is_before name.now pair.now }
{
    pair.name.as_slice().cmp(name) == Ordering::Less
}

fn is_named(name: &[u8], pair: &Pair) -> bool
    ensures { result ≡ bytes_eq pair.now.name name.now }
{
    pair.name.as_slice() == name
}

fn has_name(name: &[u8], pairs: &[Pair]) -> bool
    ensures { result ≡ has_name name.now pairs.now }
{
    pairs.iter().any(|pair| is_named(name, pair))
}

fn first_metadata_not_before(name: &[u8], pairs: &[Pair]) -> Option<usize>
    ensures { result ≡ position (λ pair. not (is_before name.now pair)) pairs.now }
{
    pairs.iter().position(|pair| !is_before(name, pair))
}

// The first place whose name isn't before this one, or the end.
#[tactic(auto, using(crate::proofs::lemmas::MetaLemmas::place_is, crate::proofs::lemmas::MetaLemmas::place_within))]
fn place_of(name: &[u8], pairs: &[Pair]) -> usize
    ensures place { result ≡ place_of name.now pairs.now }
    ensures within { result ≤ length pairs.now }
{
    first_metadata_not_before(name, pairs).unwrap_or(pairs.len())
}
