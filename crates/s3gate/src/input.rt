//! Standard input as a line that nothing is written to.
ghost use Rattle.std.proofs.Common.{sym, true≢false, zero-le};

use gate_base::{Counted, Failed, Line, StdLine};
use std::io::{Input, Print};

/// Standard input as a line of one connection. What is written to it is dropped, since standard output has the report.
#[derive(Drop)]
pub struct InputLine<R> {
    line: StdLine<R>,
}

impl<R: Input + Print + Drop> InputLine<R> {
    /// No connection is open yet.
    pub fn new(rt: R) -> InputLine<R> {
        InputLine {
            line: StdLine::new(rt),
        }
    }
}

impl<R: Input + Print + Drop, C: Counted> Line<C> for InputLine<R> {
    ghost model = { λ line. ⟦<StdLine<R> as Line<C>>⟧.model line.line };

    ghost is_line = { λ line. record { one_for_each = λ observable. absurd (true≢false (sym observable)); next_within = zero-le } };

    fn next(&mut self) -> Result<bool, Failed> {
        Line::<C>::next(&mut self.line)
    }

    fn read(&mut self, buf: &mut [u8]) -> Result<usize, Failed> {
        Line::<C>::read(&mut self.line, buf)
    }

    fn write(&mut self, _store: &C, _bytes: &[u8]) -> Result<(), Failed> {
        Ok(())
    }

    fn close(&mut self) {
        Line::<C>::close(&mut self.line);
    }
}
