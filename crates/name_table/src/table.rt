//! A map by names.
ghost use Rattle.std.specs.Prelude.{◌≡◌, nat_eq, option_copied, OnOk, OnErr, OnSome};
ghost use Rattle.std.specs.Borrow.{sem, LendsSo};
ghost use Rattle.std.specs.FinMap.{empty, get, insert, len, remove};
ghost use Rattle.std.specs.Option.{option_copied_mut};
ghost use Rattle.name_table.specs.Table.{names_of};
ghost use Rattle.name_table.specs.contracts.table.Table.{the_row};

use gate_base::Memory;
use std::alloc::Global;
use std::collections::BTreeMap;
use std::marker::Model;

/// Values under names, which are texts of bytes. Contracts see it as the map.
#[derive(Drop)]
pub struct Table<V> {
    alloc: Global,
    entries: BTreeMap<Vec<u8>, V>,
}

impl<V> Model for Table<V> {
    ghost use Rattle.std.specs.Coded.{coded_ℕ, coded_list};
    ghost use Rattle.std.specs.FinMap as map;
    ghost use Rattle.gate_base.specs.Maps.{Names};

    ghost Value = { Names V };

    ghost coded = { map.code (coded_list coded_ℕ) V.code };

    ghost use Rattle.name_table.specs.Table.{names_of};

    ghost view = { λ t. names_of t.entries.entries };
}

impl<V> Table<V> {
    /// The empty table. It takes no memory.
    pub fn new(alloc: Global) -> Table<V>
        ensures { result ≡ empty }
    {
        Table {
            alloc,
            entries: BTreeMap::new(alloc),
        }
    }

    /// What stands under a name.
    pub fn get(&self, name: &[u8]) -> Option<&V>
        ensures { option_copied result ≡ get self.now name.now }
    {
        self.entries.get(name)
    }

    /// The entries, in the order of their names.
    pub fn as_map(&self) -> &BTreeMap<Vec<u8>, V>
        ensures { names_of result.now.entries ≡ self.now }
    {
        &self.entries
    }

    /// What stands under a name, to be changed in its place.
    pub fn get_mut(&mut self, name: &[u8]) -> Option<&mut V>
        ensures* lends { sem 𝓛 (LendsSo (the_row V.row) V.row self.entry result
            (λ n w. OnSome result (n ≡ insert self.old name.now w)) (λ n. n ≡ self.old)) }
        ensures value { option_copied_mut result ≡ get self.old name.now }
    {
        self.entries.get_mut(name)
    }

    /// Whether nothing stands under any name.
    pub fn is_empty(&self) -> bool
        ensures { result ≡ nat_eq (len self.now) 0 }
    {
        self.entries.is_empty()
    }
}

impl<V: Drop> Table<V> {
    /// Puts a value under a name, in place of what stands there. Where memory runs out, the table is as before, and the
    /// value is dropped.
    pub fn put(&mut self, name: &[u8], value: V) -> Result<(), Memory>
        ensures ok { OnOk result (self.new ≡ insert self.old name.now value) }
        ensures err { OnErr result (self.new ≡ self.old) }
    {
        let key = Vec::from_slice(self.alloc, name)?;
        self.entries.insert(key, value)?;
        Ok(())
    }

    /// Takes away what stands under a name, if anything does.
    pub fn drop_at(&mut self, name: &[u8])
        ensures { self.new ≡ remove self.old name.now }
    {
        self.entries.remove(name);
    }
}
