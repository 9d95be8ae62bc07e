ghost use Rattle.std.specs.Prelude.{◌≡◌, ◌+◌, if◌then◌else◌};
ghost use Rattle.gate_base.specs.Causes.{one_more};
ghost use Rattle.gate_base.specs.Listed.{is_next_listed, listed};

use crate::List;

/// The calls of an object in memory, numbered from 1, and the numbers of those that fail.
#[derive(Debug, Drop)]
pub(crate) struct Numbered {
    pub(crate) made: u64,
    pub(crate) fails: List<u64>,
}

impl Numbered {
    pub(crate) fn new(fails: List<u64>) -> Numbered
        ensures made { result.made ≡ 0 }
        ensures fails { result.fails ≡ fails }
    {
        Numbered { made: 0, fails }
    }

    /// Counts one more call. True where it is to fail. The number of calls stays at the greatest value of a `u64`.
    #[tactic(auto, using(crate::proofs::ListedLemmas::listed_next))]
    pub(crate) fn count(&mut self) -> bool
        ensures made { self.new.made ≡ one_more self.old.made }
        ensures fails { self.new.fails ≡ self.old.fails }
        ensures value { result ≡ is_next_listed self.old.fails self.old.made }
        ensures listed { listed self.new.fails self.new.made
            ≡ listed self.old.fails self.old.made + (if result then 1 else 0) }
    {
        match self.made.checked_add(1) {
            None => false,
            Some(number) => {
                self.made = number;
                self.fails.as_slice().contains(&number)
            }
        }
    }
}
