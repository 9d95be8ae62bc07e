ghost use Rattle.std.specs.Prelude.{◌≡◌, false, [], ◌∷◌, ◌++◌, List, find, IfOk, OnOk};
ghost use Rattle.std.specs.Option.{option_copied};
ghost use Rattle.std.specs.List.{list_any};
ghost use Rattle.sigv4.specs.declared.keys.AccessKey.{AccessKey};
ghost use Rattle.sigv4.specs.Keys.{has_id};
ghost use Rattle.sigv4.specs.Index.{place_of, Finds};

use crate::AccessKey;
use gate_base::Memory;
use std::alloc::Global;
use std::collections::BTreeMap;

/// The places of the keys of a list, by their ids, so that a list of many keys isn't searched from its beginning.
#[derive(Debug, Drop)]
pub(crate) struct Index {
    places: BTreeMap<Vec<u8>, usize>,
}

impl Index {
    /// The index of the empty list. It takes no memory.
    pub(crate) fn new(alloc: Global) -> Index
        ensures { Finds result.places [] }
    {
        Index {
            places: BTreeMap::new(alloc),
        }
    }

    /// The key of the id. It takes no memory.
    pub(crate) fn find<'a>(&self, keys: &'a [AccessKey], id: &[u8]) -> Option<&'a AccessKey>
        requires { Finds self.now.places keys.now }
        ensures { option_copied result ≡ find (has_id id.now) keys.now }
    {
        match self.place(id) {
            Some(at) => Some(&keys[at]),
            None => None,
        }
    }

    /// Whether a key has the id.
    pub(crate) fn has(&self, keys: &[AccessKey], id: &[u8]) -> bool
        requires { Finds self.now.places keys.now }
        ensures { result ≡ list_any (has_id id.now) keys.now }
    {
        self.find(keys, id).is_some()
    }

    fn place(&self, id: &[u8]) -> Option<usize>
        ensures { result ≡ place_of self.now.places id.now }
    {
        self.places.get(id).copied()
    }

    /// Enters the id of the key that the list will have at its end.
    pub(crate) fn add(&mut self, alloc: Global, keys: &[AccessKey], id: &[u8]) -> Result<(), Memory>
        requires finds { Finds self.old.places keys.now }
        requires fresh { list_any (has_id id.now) keys.now ≡ false }
        ensures { OnOk result ((key : AccessKey) → key.id ≡ id.now
            → Finds self.new.places (keys.now ++ key ∷ [])) }
    {
        let key = Vec::from_slice(alloc, id)?;
        self.places.insert(key, keys.len())?;
        Ok(())
    }

    pub(crate) fn copy(&self) -> Result<Index, Memory>
        ensures { IfOk result (λ index. (keys : List AccessKey)
            → Finds self.now.places keys → Finds index.places keys) }
    {
        Ok(Index {
            places: self.places.clone()?,
        })
    }
}
