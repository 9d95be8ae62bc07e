//! What stands under names. A `Table` lends the value of one name that the caller has; here all of them are gone through in their
//! place, which takes no memory for names.
ghost use Rattle.std.specs.Prelude.{◌≡◌, option_copied, OnOk, OnErr, OnSome};
ghost use Rattle.std.specs.Borrow.{sem, LendsSo};
ghost use Rattle.std.specs.FinMap.{empty, get, insert, remove};
ghost use Rattle.std.specs.Option.{option_copied_mut};
ghost use Rattle.name_table.specs.Table.{names_of};
ghost use Rattle.s3_native.specs.contracts.named.Named.{the_row};

use gate_base::Memory;
use std::alloc::Global;
use std::collections::BTreeMap;
use std::marker::Model;

/// Values under names. Contracts see it as the map.
#[derive(Drop)]
pub(crate) struct Named<V> {
    alloc: Global,
    pub(crate) entries: BTreeMap<Vec<u8>, V>,
}

impl<V> Model for Named<V> {
    ghost use Rattle.std.specs.Coded.{coded_ℕ, coded_list};
    ghost use Rattle.std.specs.FinMap as map;
    ghost use Rattle.gate_base.specs.Maps.{Names};

    ghost Value = { Names V };

    ghost coded = { map.code (coded_list coded_ℕ) V.code };

    ghost use Rattle.name_table.specs.Table.{names_of};

    ghost view = { λ t. names_of t.entries.entries };
}

impl<V> Named<V> {
    /// The empty map. It takes no memory.
    pub(crate) fn new(alloc: Global) -> Named<V>
        ensures { result ≡ empty }
    {
        Named {
            alloc,
            entries: BTreeMap::new(alloc),
        }
    }

    /// What stands under a name.
    pub(crate) fn get(&self, name: &[u8]) -> Option<&V>
        ensures { option_copied result ≡ get self.now name.now }
    {
        self.entries.get(name)
    }

    /// The entries, in the order of their names.
    pub(crate) fn as_map(&self) -> &BTreeMap<Vec<u8>, V>
        ensures { names_of result.now.entries ≡ self.now }
    {
        &self.entries
    }

    /// What stands under a name, to be changed in its place.
    pub(crate) fn get_mut(&mut self, name: &[u8]) -> Option<&mut V>
        ensures* lends { sem 𝓛 (LendsSo (the_row V.row) V.row self.entry result
            (λ n w. OnSome result (n ≡ insert self.old name.now w)) (λ n. n ≡ self.old)) }
        ensures value { option_copied_mut result ≡ get self.old name.now }
    {
        self.entries.get_mut(name)
    }
}

impl<V: Drop> Named<V> {
    /// Puts a value under a name, in place of what stands there. Where memory runs out, the map is as before, and the value is
    /// dropped.
    pub(crate) fn put(&mut self, name: &[u8], value: V) -> Result<(), Memory>
        ensures ok { OnOk result (self.new ≡ insert self.old name.now value) }
        ensures err { OnErr result (self.new ≡ self.old) }
    {
        let key = Vec::from_slice(self.alloc, name)?;
        self.entries.insert(key, value)?;
        Ok(())
    }

    /// Takes away what stands under a name, if anything does.
    pub(crate) fn drop_at(&mut self, name: &[u8])
        ensures { self.new ≡ remove self.old name.now }
    {
        self.entries.remove(name);
    }
}
