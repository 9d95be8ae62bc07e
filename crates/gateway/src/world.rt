ghost use Rattle.std.specs.Prelude.{◌≡◌};
ghost use Rattle.account_calls.specs.declared.state.Known.TheVariants.{Unsure};

use account_calls::Known;
use gate_base::{Clock, Draws, Line};
use swift_calls::Swift;

/// What requests are served over, lent as one: the line, the store with what is known of it, the clock, and the source of draws.
#[derive(Drop)]
pub struct World<'a, N: Line<W>, W: Swift, C: Clock, D: Draws> {
    pub line: &'a mut N,
    pub store: &'a mut W,
    pub known: Known,
    pub clock: &'a mut C,
    pub draws: &'a mut D,
}

impl<'a, N: Line<W>, W: Swift, C: Clock, D: Draws> World<'a, N, W, C, D> {
    /// Lends all four, where nothing is known of the store.
    pub fn over(
        line: &'a mut N,
        store: &'a mut W,
        clock: &'a mut C,
        draws: &'a mut D,
    ) -> World<'a, N, W, C, D>
        ensures line { result.line ≡ line.entry }
        ensures store { result.store ≡ store.entry }
        ensures known { result.known ≡ Unsure }
        ensures clock { result.clock ≡ clock.entry }
        ensures draws { result.draws ≡ draws.entry }
    {
        World {
            line,
            store,
            known: Known::Unsure,
            clock,
            draws,
        }
    }
}
