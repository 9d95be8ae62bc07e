//! The connections of a line, in turn.
ghost use Rattle.std.specs.Prelude.{◌≡◌, ◌≢◌, ◌-◌, true, false, List, IsTrue, Some, option_map};
ghost use Rattle.http_service.specs.Trace.{RunTrace};
ghost use Rattle.http_service.specs.Running.{LineServesAll, LineServesNext, NextCursor, run_cursor};

use crate::{Service, serve_connection};
use gate_base::{Counted, Line};
use std::alloc::Global;

/// Why no further connection is served.
#[derive(Clone, Copy, Debug, PartialEq, Eq)]
pub enum Stopped {
    /// None is left, or as many as were asked for began.
    Done,
    /// The line failed to give another.
    Line,
}

/// Serves the connections of the line until there is none, or as many as `most` says were served. `Line` comes only where the
/// line's count of failed calls of `next` rose; a connection under which the line fails ends, and the next is served.
pub fn serve_all<C: Counted, N: Line<C>, S: Service<C, N>>(
    alloc: Global,
    most: Option<u64>,
    service: &mut S,
    line: &mut N,
) -> Stopped
    ensures line { LineServesAll most result (N.model line.old) (N.model line.new) }
    ensures goes { S.GoesOn service.old service.new }

    // Where the line is observable, it is a run.
    ensures serves { (view : S.View) → S.Given view service.old
        → IsTrue (N.model line.old).observable → (notes : List S.Note)
        × RunTrace S.number S.limit S.memory (S.Answers view service.new)
        (run_cursor (N.model line.old).transcript (S.state service.old)) notes
        (run_cursor (N.model line.new).transcript (S.state service.new)) }
{
    let mut left = most;
    'connections: loop {
        if is_connection_limit_reached(left) {
            return Stopped::Done;
        }
        match serve_another(alloc, service, line) {
            Some(stopped) => return stopped,
            None => left = one_less(left),
        }
    }
}

/// Whether none is left of the connections that were asked for; `None` asks for any number.
pub fn is_connection_limit_reached(left: Option<u64>) -> bool
    ensures none { result ≡ true → left ≡ Some 0 }
    ensures some { result ≡ false → left ≢ Some 0 }
{
    match left {
        Some(left) => left == 0,
        None => false,
    }
}

/// How many of the connections that were asked for are left behind one more, and `None` where any number is served.
pub fn one_less(left: Option<u64>) -> Option<u64>
    ensures { result ≡ option_map (λ n. n - 1) left }
{
    match left {
        Some(left) => Some(left.saturating_sub(1)),
        None => None,
    }
}

/// Serves the next connection, if there is one. `None` says that it was served.
fn serve_another<C: Counted, N: Line<C>, S: Service<C, N>>(
    alloc: Global,
    service: &mut S,
    line: &mut N,
) -> Option<Stopped>
    ensures line { LineServesNext result (N.model line.old) (N.model line.new) }
    ensures goes { S.GoesOn service.old service.new }
    ensures serves { (view : S.View) → S.Given view service.old
        → IsTrue (N.model line.old).observable
        → NextCursor S.number S.limit S.memory (S.Answers view service.new) result
        (run_cursor (N.model line.old).transcript (S.state service.old))
        (run_cursor (N.model line.new).transcript (S.state service.new)) }
{
    match line.next() {
        Ok(true) => {
            let _ended = serve_connection(alloc, service, line);
            None
        }
        Ok(false) => Some(Stopped::Done),
        Err(_) => Some(Stopped::Line),
    }
}
