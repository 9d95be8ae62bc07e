ghost use Rattle.std.specs.Prelude.{◌≡◌, not, ◌&&◌, IsTrue, IsErr, is_err, OnErr, []};
ghost use Rattle.gate_base.specs.Causes.{one_more, one_more_if};
ghost use Rattle.gate_base.specs.Told.{SinkPut};

use crate::numbered::Numbered;
use crate::{Bytes, Failed, List, Memory, Sink};
use std::alloc::Global;

/// A sink in memory, for tests: what is put is kept.
///
/// The calls of `put` are numbered from 1, and those whose numbers it was given are Failed and put nothing. So is
/// a call that finds no memory, which [`MemSink::out_of_memory`] counts.
#[derive(Debug, Drop)]
pub struct MemSink {
    text: Bytes,
    calls: Numbered,
    out_of_memory: u64,
}

impl MemSink {
    ghost use Rattle.gate_base.specs.MemSink.{bytes_of, fails_of, made_of, out_of_memory_of, faults_of};

    /// A sink whose calls of these numbers are Failed.
    #[tactic(auto, unfolding(crate::specs::Listed::listed))]
    pub fn new(alloc: Global, fails: List<u64>) -> MemSink
        ensures bytes { bytes_of result ≡ [] }
        ensures fails { fails_of result ≡ fails }
        ensures made { made_of result ≡ 0 }
        ensures out_of_memory { out_of_memory_of result ≡ 0 }
        ensures faults { faults_of result ≡ 0 }
    {
        MemSink {
            text: Bytes::new(alloc),
            calls: Numbered::new(fails),
            out_of_memory: 0,
        }
    }

    /// The bytes put, in order.
    pub fn bytes(&self) -> &[u8]
        ensures { result.now ≡ bytes_of self.now }
    {
        self.text.as_slice()
    }

    /// How many calls of `put` found no memory. At the greatest value it stays.
    pub fn out_of_memory(&self) -> u64
        ensures { result ≡ out_of_memory_of self.now }
    {
        self.out_of_memory
    }
}

impl Sink for MemSink {
    ghost use Rattle.gate_base.specs.MemSink.{model_of, bytes_of, fails_of, made_of, out_of_memory_of, is_to_fail};

    ghost model = { model_of };

    /// Failed exactly where the number of the call was given, or where memory ran out. Then nothing is put.
    fn put(&mut self, bytes: &[u8]) -> Result<(), Failed>
        ensures does { SinkPut (model_of self.old) bytes.now result (model_of self.new) }

        ensures unput { OnErr result (bytes_of self.new ≡ bytes_of self.old) }
        ensures failed { IsTrue (is_to_fail self.old) → IsErr result }
        ensures fails { fails_of self.new ≡ fails_of self.old }
        ensures made { made_of self.new ≡ one_more (made_of self.old) }
        ensures out_of_memory { out_of_memory_of self.new ≡ one_more_if
            (not (is_to_fail self.old) && is_err result) (out_of_memory_of self.old) }
    {
        if self.calls.count() {
            return Err(Failed);
        }
        match self.text.append(bytes) {
            Ok(()) => Ok(()),
            Err(Memory) => {
                self.out_of_memory = self.out_of_memory.saturating_add(1);
                Err(Failed)
            }
        }
    }
}
