//! The program that the cases try: the top call of `s3gate`.
use case_runs::Program;
use case_text::{Told, tell_value};
use gate_base::{List, ListClock, ListDraws, MemLine, MemSink};
use gateway::{Service, World, serve_connection};
use gateway_cmd::run;
use planned_swift::MemSwift;
use s3_machine::Settings;
use sigv4::Keys;
use std::alloc::Global;
use swift_calls::Swift;

pub(crate) struct GatewayProgram;

impl Program for GatewayProgram {
    fn run<W: Swift>(
        &self,
        alloc: Global,
        words: &[String],
        keys: &str,
        line: &mut MemLine,
        report: &mut MemSink,
        store: &mut W,
        clock: &mut ListClock,
        draws: &mut ListDraws,
    ) -> u8 {
        run(alloc, words, keys, line, report, store, clock, draws)
    }

    fn tell_end(
        &self,
        alloc: Global,
        store: &mut MemSwift,
        settings: Settings,
        keys: Keys,
        line: &mut MemLine,
        clock: &mut ListClock,
        told: &mut Told,
    ) {
        let service = Service { settings, keys };
        let mut draws = ListDraws::new(List::new(alloc));
        let mut lent = World::over(line, store, clock, &mut draws);
        let ended = serve_connection(alloc, &service, &mut lent);
        tell_value(&ended, told);
    }
}
