//! The program that is tried.
ghost use Rattle.std.specs.Prelude.{IsTrue};
ghost use Rattle.gate_base.specs.MemLine.{is_open_of};

use case_text::Told;
use gate_base::{ListClock, ListDraws, MemLine, MemSink};
use planned_swift::MemSwift;
use s3_machine::Settings;
use sigv4::Keys;
use std::alloc::Global;
use swift_calls::Swift;

/// What whole runs try: `s3gate`, of which they use these calls alone. So they stand beside it, and who tries it hands it to them.
pub trait Program {
    /// Runs the program by these words and this key text. The exit status.
    fn run<W: Swift>(
        &self,
        alloc: Global,
        words: &[String],
        keys: &str,
        line: &mut MemLine,
        report: &mut MemSink,
        store: &mut W,
        clock: &mut ListClock,
        draws: &mut ListDraws,
    ) -> u8;

    /// Serves the connection that is open on a line, and tells how it ended.
    fn tell_end(
        &self,
        alloc: Global,
        store: &mut MemSwift,
        settings: Settings,
        keys: Keys,
        line: &mut MemLine,
        clock: &mut ListClock,
        told: &mut Told,
    )
        requires { IsTrue (is_open_of line.old) };
}
