//! What stands under numbers.
ghost use Rattle.std.specs.Prelude.{◌≡◌, option_copied, OnOk, OnErr};
ghost use Rattle.std.specs.FinMap.{empty, get, insert};

use gate_base::Memory;
use std::alloc::Global;
use std::collections::BTreeMap;
use std::marker::Model;

/// Values under numbers. Contracts see it as the map.
#[derive(Drop)]
pub(crate) struct Numbered<V> {
    pub(crate) entries: BTreeMap<u32, V>,
}

impl<V> Model for Numbered<V> {
    ghost use Rattle.std.specs.Coded.{coded_ℕ};
    ghost use Rattle.std.specs.FinMap as map;
    ghost use Rattle.gate_base.specs.Maps.{Numbers};

    ghost Value = { Numbers V };

    ghost coded = { map.code coded_ℕ V.code };

    ghost use Rattle.s3_native.specs.Numbered.{numbers_of};

    ghost view = { λ t. numbers_of t.entries.entries };
}

impl<V> Numbered<V> {
    /// The empty table. It takes no memory.
    pub(crate) fn new(alloc: Global) -> Numbered<V>
        ensures { result ≡ empty }
    {
        Numbered {
            entries: BTreeMap::new(alloc),
        }
    }

    pub(crate) fn get(&self, number: u32) -> Option<&V>
        ensures { option_copied result ≡ get self.now number }
    {
        self.entries.get(&number)
    }
}

impl<V: Drop> Numbered<V> {
    /// Puts a value under a number, in place of what stands there. Where memory runs out, the table is as before, and the
    /// value is dropped.
    pub(crate) fn put(&mut self, number: u32, value: V) -> Result<(), Memory>
        ensures ok { OnOk result (self.new ≡ insert self.old number value) }
        ensures err { OnErr result (self.new ≡ self.old) }
    {
        self.entries.insert(number, value)?;
        Ok(())
    }
}
