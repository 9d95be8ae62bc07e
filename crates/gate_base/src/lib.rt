//! What every layer stands on: byte texts and lists that report when memory runs out, pages, and the traits of the
//! outside world, each with a form in memory for tests and a thin adapter over the real thing.
#![tactic(auto)]

mod caller;
mod copying;
mod cuts;
mod drops;
mod faults;
mod fields;
mod line_memory;
mod lists;
mod named;
mod numbered;
mod outside;
mod page;
mod real;
mod sink_memory;
mod told_memory;
mod wire_memory;

pub use caller::Caller;
pub use copying::Copying;
pub use cuts::{cut, cut_last, first_place};
pub use drops::drop;
pub use faults::{Failed, Memory};
pub use fields::{are_printable, is_field};
pub use line_memory::MemLine;
pub use lists::{Bytes, List};
pub use named::Named;
pub use outside::{CALL_LIMIT, Clock, Counted, Draws, Line, MOMENT_LIMIT, NoCount, Piece, Sink};
pub use page::{Page, Pair};
pub use real::{RandomDraws, StdLine, StdSink, SystemClock};
pub use sink_memory::MemSink;
pub use told_memory::{ListClock, ListDraws};
