//! What answers requests.
ghost use Rattle.std.specs.Prelude.{◌≡◌, ℕ, List, Option, IsTrue};
ghost use Rattle.gate_base.specs.declared.outside.Piece.{Piece};
ghost use Rattle.gate_base.specs.Line.{OnlyWrites};
ghost use Rattle.http_service.specs.declared.received.Received.{Received};
ghost use Rattle.http_service.specs.declared.ended.Ended.{Ended};
ghost use Rattle.http_service.specs.Trace.{AnswerRelation, is_failed_step};
ghost use Rattle.http_service.specs.Answering.{IsAnswered, GoesOnOnlyAfterMessage};

use crate::{Ended, Received};
use gate_base::{Counted, Line};

/// What answers the requests of connections that are served in turn, over a line. `C` is the type of the one store with whose
/// number of calls each piece is recorded.
pub trait Service<C: Counted, N: Line<C>> {
    /// What goes on from one request to the next, as a trace shows it.
    ghost State: { Type 0 };

    /// What a trace notes of one request beside its bytes, as the span of an operation or which fault cut its answer off.
    ghost Note: { Type 0 };

    /// From where a service is looked at: it determines what is given of the service, and what is then said of its answers.
    ghost View: { Type 0 };

    /// The state in which it is.
    ghost state: { Self → State };

    /// How many calls its store had counted in a state.
    ghost number: { State → ℕ };

    /// The most bytes that the body of a request may have.
    ghost limit: { ℕ };

    /// The answer where memory ran out before a request was read.
    ghost memory: { List ℕ };

    /// What any number of answers do to it, or none.
    ghost GoesOn: { Self → Self → Type 0 };

    /// What is given of it.
    ghost Given: { View → Self → Type 0 };

    /// What is said of an answer, at the service as it is then or later.
    ghost Answers: { View → Self → AnswerRelation State Note };

    /// The store with whose number of calls a piece is recorded.
    fn counter(&self) -> &C
        ensures { C.called result.now ≡ number (state self.now) };

    /// The most bytes that the body of a request may have.
    fn body_limit(&self) -> u64
        ensures { result ≡ limit };

    /// The answer where memory ran out before a request was read. It takes no memory.
    fn out_of_memory(&self) -> &[u8]
        ensures { result.now ≡ memory };

    /// Answers what was received, by any number of writes, with calls of its store between them. `None` says that the connection
    /// goes on, which it does only after a message that was read. `LineFailed` says that the line failed under the answer, of
    /// which first bytes were sent; after any other answer no write failed.
    fn answer(&mut self, line: &mut N, received: Received) -> Option<Ended>
        requires { IsTrue (N.model line.old).is_open }
        ensures ends { GoesOnOnlyAfterMessage received result }
        ensures writes { OnlyWrites (is_failed_step result) (N.model line.old) (N.model line.new) }
        ensures goes { GoesOn self.old self.new }
        ensures answers { (view : View) → Given view self.old → IsTrue (N.model line.old).observable
            → IsAnswered (Answers view self.new) (N.model line.old).transcript
            (N.model line.new).transcript received (state self.old) result (state self.new) };

    /// No answer, and answers after answers.
    ghost goes_on_none: { (service : Self) → GoesOn service service };

    ghost goes_on_then: { (old : Self) → (middle : Self) → (new : Self) → GoesOn old middle → GoesOn middle new → GoesOn old new };

    /// What is given of a service stays so, and what is said of an answer at one time is so later.
    ghost given_on: { (view : View) → (old : Self) → (new : Self) → GoesOn old new → Given view old → Given view new };

    ghost answers_on: { (view : View) → (old : Self) → (new : Self) → GoesOn old new → Given view old
        → (connection : ℕ) → (received : Received) → (s : State) → (sent : List Piece) → (note : Note) → (end : Option Ended) → (s' : State) → (sent' : List Piece)
        → Answers view old connection received s sent note end s' sent' → Answers view new connection received s sent note end s' sent' };
}
