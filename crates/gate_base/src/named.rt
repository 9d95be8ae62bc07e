ghost use Rattle.std.specs.Prelude.{◌≡◌, ◌<◌, ◌≤◌, ℕ, List, length, slice_get, IsTrue, IfSome, OnOk, OnErr};
ghost use Rattle.gate_base.specs.Named.{index_named, count_below, one_has_name, placed};

use crate::{List, Memory};

/// What has a name. Names stand in byte order.
pub trait Named {
    ghost name_of: { Self → List ℕ };

    fn name(&self) -> &[u8]
        ensures { result.now ≡ name_of self.now };
}

impl<T: Named> List<T> {
    /// The index of the first item of a name.
    pub fn find(&self, name: &[u8]) -> Option<usize>
        ensures index { result ≡ index_named T.name_of name.now self.now }
        ensures within { IfSome result (λ i. i < length self.now) }
    {
        self.as_slice()
            .iter()
            .position(|item| name.cmp(item.name()).is_eq())
    }

    /// How many of the first items have lesser names.
    fn count_below(&self, name: &[u8]) -> usize
        ensures count { result ≡ count_below T.name_of name.now self.now }
        ensures within { result ≤ length self.now }
    {
        self.as_slice()
            .iter()
            .take_while(|item| name.cmp(item.name()).is_gt())
            .count()
    }

    /// Whether there is an item at the index, and it has the name.
    fn has_at(&self, index: usize, name: &[u8]) -> bool
        ensures there { result ≡ one_has_name T.name_of name.now (slice_get self.now index) }
        ensures within { IsTrue result → index < length self.now }
    {
        match self.as_slice().get(index) {
            Some(item) => name.cmp(item.name()).is_eq(),
            None => false,
        }
    }
}

impl<T: Named + Drop> List<T> {
    /// Puts an item in its place: in a list in order of names over the item of its name, or else before the first
    /// with a greater name. Where memory runs out, the list is as before, and the item is dropped.
    #[tactic(auto, using(crate::proofs::lemmas::Named::placed_over, crate::proofs::lemmas::Named::placed_before))]
    pub fn put(&mut self, item: T) -> Result<(), Memory>
        ensures ok { OnOk result (self.new ≡ placed T.name_of item self.old) }
        ensures err { OnErr result (self.new ≡ self.old) }
    {
        let index = self.count_below(item.name());
        if self.has_at(index, item.name()) {
            *self.at_mut(index) = item;
            Ok(())
        } else {
            self.insert(index, item)
        }
    }
}
