ghost use Rattle.std.specs.Prelude.{◌≡◌, ◌<◌, ◌≤◌, ◌+◌, false, not, ◌&&◌, ◌||◌, IsTrue, IsErr, is_err, IfOk, OnErr};
ghost use Rattle.std.specs.Prelude.{length, min};
ghost use Rattle.gate_base.specs.Causes.{one_more, one_more_if};
ghost use Rattle.gate_base.specs.Transcript.{empty, with_fault};
ghost use Rattle.gate_base.specs.Line.{LineNext, LineRead, LineWrite, LineClose};
ghost use Rattle.gate_base.specs.MemWire.{told_by};
ghost use Rattle.gate_base.specs.Listed.{listed};

use crate::numbered::Numbered;
use crate::wire_memory::MemWire;
use crate::{Bytes, CALL_LIMIT, Counted, Failed, Line, List, Memory, Piece};
use std::alloc::Global;

/// A line in memory, for tests: the connections are given whole, and what is written is kept.
///
/// The calls of `next`, `read` and `write` are numbered together from 1, and those whose numbers it was given are
/// Failed: nothing is begun, read or sent. So is a `write` that finds no memory, which [`MemLine::out_of_memory`] counts.
#[derive(Drop)]
pub struct MemLine {
    transcript: MemWire,
    piece: usize,
    connected: bool,
    calls: Numbered,
    spent: u64,
    past: u64,
    out_of_memory: u64,
    next_faults: u64,
    ghost some_piece: { 0 < piece },
    ghost begun: { IsTrue connected → 0 < (told_by transcript).begun },
    ghost next_within: { next_faults ≤ listed calls.fails calls.made + past + out_of_memory },
}

impl MemLine {
    ghost use Rattle.gate_base.specs.MemLine.{is_open_of, transcript_of, piece_of, fails_of, made_of, spent_of, past_of};
    ghost use Rattle.gate_base.specs.MemLine.{out_of_memory_of, faults_of, next_faults_of};

    /// A line of these connections, whose reads give at most `piece` bytes, and whose calls of these numbers
    /// are Failed. It takes the room for a note per connection.
    #[tactic(auto, unfolding(crate::specs::Listed::listed))]
    pub fn new(
        alloc: Global,
        connections: List<Bytes>,
        piece: usize,
        fails: List<u64>,
    ) -> Result<MemLine, Memory>
        requires { 0 < piece }
        ensures closed { IfOk result (λ line. is_open_of line ≡ false) }
        ensures transcript { IfOk result
            (λ line. transcript_of line ≡ record empty { waiting = connections }) }
        ensures piece { IfOk result (λ line. piece_of line ≡ piece) }
        ensures fails { IfOk result (λ line. fails_of line ≡ fails) }
        ensures made { IfOk result (λ line. made_of line ≡ 0) }
        ensures spent { IfOk result (λ line. spent_of line ≡ 0) }
        ensures past { IfOk result (λ line. past_of line ≡ 0) }
        ensures out_of_memory { IfOk result (λ line. out_of_memory_of line ≡ 0) }
        ensures faults { IfOk result (λ line. faults_of line ≡ 0) }
        ensures next_faults { IfOk result (λ line. next_faults_of line ≡ 0) }
    {
        Ok(MemLine {
            transcript: MemWire::new(alloc, connections)?,
            piece,
            connected: false,
            calls: Numbered::new(fails),
            spent: 0,
            past: 0,
            out_of_memory: 0,
            next_faults: 0,
        })
    }

    /// The pieces sent, in order.
    pub fn pieces(&self) -> &[Piece]
        ensures { result.now ≡ (transcript_of self.now).sent }
    {
        self.transcript.pieces()
    }

    /// How many calls of `write` found no memory. At the greatest value it stays.
    pub fn out_of_memory(&self) -> u64
        ensures { result ≡ out_of_memory_of self.now }
    {
        self.out_of_memory
    }
}

impl<C: Counted> Line<C> for MemLine {
    ghost use Rattle.std.proofs.Common.{sym};
    ghost use Rattle.gate_base.specs.MemLine.{is_open_of, model_of, piece_of, fails_of, made_of, past_of, out_of_memory_of};
    ghost use Rattle.gate_base.specs.MemLine.{next_faults_of, transcript_of, is_to_fail, begins_past, reads_past};

    ghost model = { model_of };

    ghost is_line = { λ line. record { one_for_each = λ observable. sym line.transcript.faulty.ok.0; next_within = line.next_within } };

    /// Failed exactly where the number of the call was given, or where a connection waits and no call is left.
    fn next(&mut self) -> Result<bool, Failed>
        ensures does { LineNext (model_of self.old) result (model_of self.new) }

        ensures failed { is_err result ≡ (is_to_fail self.old || begins_past self.old) }
        ensures piece { piece_of self.new ≡ piece_of self.old }
        ensures fails { fails_of self.new ≡ fails_of self.old }
        ensures made { made_of self.new ≡ one_more (made_of self.old) }
        ensures past { past_of self.new ≡ one_more_if (begins_past self.old) (past_of self.old) }
        ensures next_counted { next_faults_of self.new ≡ one_more_if (is_err result)
            (next_faults_of self.old) }
        ensures out_of_memory { out_of_memory_of self.new ≡ out_of_memory_of self.old }
    {
        self.connected = false;
        if self.calls.count() {
            self.next_faults = self.next_faults.saturating_add(1);
            return Err(Failed);
        }
        if self.transcript.has_waiting() && self.spent >= CALL_LIMIT {
            self.next_faults = self.next_faults.saturating_add(1);
            self.past = self.past.saturating_add(1);
            return Err(Failed);
        }
        let begun = self.transcript.begin();
        if begun {
            self.spent += 1;
        }
        self.connected = begun;
        Ok(begun)
    }

    /// Failed exactly where the number of the call was given, or where bytes are left and no call is.
    fn read(&mut self, buf: &mut [u8]) -> Result<usize, Failed>
        requires open { IsTrue (is_open_of self.old) }
        requires room { 0 < length buf.old }
        ensures does { LineRead (model_of self.old) (length buf.old) buf.new result
            (model_of self.new) }

        ensures count { IfOk result (λ count. count ≡ min (piece_of self.old)
            (min (length buf.old) (length (transcript_of self.old).rest))) }
        ensures failed { is_err result ≡ (is_to_fail self.old || reads_past self.old) }
        ensures piece { piece_of self.new ≡ piece_of self.old }
        ensures fails { fails_of self.new ≡ fails_of self.old }
        ensures made { made_of self.new ≡ one_more (made_of self.old) }
        ensures past { past_of self.new ≡ one_more_if (reads_past self.old) (past_of self.old) }
        ensures out_of_memory { out_of_memory_of self.new ≡ out_of_memory_of self.old }
    {
        if self.calls.count() {
            self.transcript.add_fault();
            return Err(Failed);
        }
        if self.transcript.has_rest() && self.spent >= CALL_LIMIT {
            self.past = self.past.saturating_add(1);
            self.transcript.add_fault();
            return Err(Failed);
        }
        let count = self.transcript.take(buf, self.piece);
        if count > 0 {
            self.spent += 1;
        }
        Ok(count)
    }

    /// Failed exactly where the number of the call was given, or where memory ran out. Then nothing is sent.
    fn write(&mut self, store: &C, bytes: &[u8]) -> Result<(), Failed>
        requires { IsTrue (is_open_of self.old) }
        ensures does { LineWrite (model_of self.old) (C.called store.now) bytes.now result
            (model_of self.new) }

        ensures unsent { OnErr result
            (transcript_of self.new ≡ with_fault (transcript_of self.old)) }
        ensures failed { IsTrue (is_to_fail self.old) → IsErr result }
        ensures piece { piece_of self.new ≡ piece_of self.old }
        ensures fails { fails_of self.new ≡ fails_of self.old }
        ensures made { made_of self.new ≡ one_more (made_of self.old) }
        ensures past { past_of self.new ≡ past_of self.old }
        ensures out_of_memory { out_of_memory_of self.new ≡ one_more_if
            (not (is_to_fail self.old) && is_err result) (out_of_memory_of self.old) }
    {
        if self.calls.count() {
            self.transcript.add_fault();
            return Err(Failed);
        }
        match self.transcript.keep(store.calls(), bytes) {
            Ok(()) => Ok(()),
            Err(Memory) => {
                self.out_of_memory = self.out_of_memory.saturating_add(1);
                self.transcript.add_fault();
                Err(Failed)
            }
        }
    }

    fn close(&mut self)
        ensures does { LineClose (model_of self.old) (model_of self.new) }

        ensures piece { piece_of self.new ≡ piece_of self.old }
        ensures fails { fails_of self.new ≡ fails_of self.old }
        ensures made { made_of self.new ≡ made_of self.old }
        ensures past { past_of self.new ≡ past_of self.old }
        ensures out_of_memory { out_of_memory_of self.new ≡ out_of_memory_of self.old }
    {
        self.connected = false;
    }
}
