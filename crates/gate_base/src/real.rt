//! Thin adapters over the real thing. They tell nothing of contents, and count each Failed that they answer in a
//! `u64` that stays at its greatest value. Only the `main` of a program and tests make them.
ghost use Rattle.std.specs.Prelude.{◌≡◌, false, []};
ghost use Rattle.gate_base.specs.Causes.{Rose};
ghost use Rattle.gate_base.specs.Line.{silent_line};
ghost use Rattle.std.proofs.Common.{sym, true≢false, zero-le};
ghost use Rattle.gate_base.specs.Told.{silent_source};

use crate::{CALL_LIMIT, Clock, Counted, Draws, Failed, Line, MOMENT_LIMIT, NoCount, Sink};
use std::io;
use std::io::{Input, Print, Read, Stderr, Stdout, Write};
use std::random::RandomSource;
use std::rt::Clock as RuntimeClock;
use std::time::{SystemTime, UNIX_EPOCH};

/// Standard input and output as a line of one connection.
#[derive(Drop)]
pub struct StdLine<R> {
    rt: R,
    connected: bool,
    /// The first of them began the connection.
    spent: u64,
    faults: u64,
}

impl<R: Input + Print + Drop> StdLine<R> {
    /// No connection is open yet.
    pub fn new(rt: R) -> StdLine<R>
        ensures { ⟦<StdLine<R> as Line<NoCount>>⟧.model result ≡ silent_line false 0 0 }
    {
        StdLine {
            rt,
            connected: false,
            spent: 0,
            faults: 0,
        }
    }

    /// Writes all the bytes, and at once, so that a client on a pipe sees them.
    fn send(&self, bytes: &[u8]) -> io::Result<()> {
        let mut output = io::writer(&self.rt);
        output.write_all(bytes)?;
        output.flush()
    }

    fn fail(&mut self) -> Failed
        ensures faults { Rose self.old.faults self.new.faults }
        ensures same { self.new ≡ record self.old { faults = self.new.faults } }
    {
        self.faults = self.faults.saturating_add(1);
        Failed
    }
}

impl<R: Input + Print + Drop, C: Counted> Line<C> for StdLine<R> {
    ghost model = { λ line. silent_line line.connected line.faults line.spent };

    ghost is_line = { λ line. record { one_for_each = λ observable. absurd (true≢false (sym observable)); next_within = zero-le } };

    /// True once, and false from then on.
    fn next(&mut self) -> Result<bool, Failed> {
        self.connected = self.spent == 0;
        if self.connected {
            self.spent = 1;
        }
        Ok(self.connected)
    }

    fn read(&mut self, buf: &mut [u8]) -> Result<usize, Failed> {
        if self.spent >= CALL_LIMIT {
            return Err(self.fail());
        }
        match self.rt.reader().read(buf) {
            Ok(0) => Ok(0),
            Ok(count) => {
                self.spent += 1;
                Ok(count)
            }
            Err(_) => Err(self.fail()),
        }
    }

    fn write(&mut self, _store: &C, bytes: &[u8]) -> Result<(), Failed> {
        match self.send(bytes) {
            Ok(()) => Ok(()),
            Err(_) => Err(self.fail()),
        }
    }

    fn close(&mut self) {
        self.connected = false;
    }
}

/// Where a report goes: standard output or standard error.
#[derive(Drop)]
enum Stream {
    Output(Stdout),
    Error(Stderr),
}

impl Stream {
    fn write_all(&self, bytes: &[u8]) -> io::Result<()> {
        match self {
            Stream::Output(stream) => Print::write_all(stream, bytes),
            Stream::Error(stream) => Print::write_all(stream, bytes),
        }
    }
}

/// Standard output or standard error as a sink.
#[derive(Drop)]
pub struct StdSink {
    stream: Stream,
    faults: u64,
}

impl StdSink {
    /// Standard output.
    pub fn output(rt: HostRuntime) -> StdSink
        ensures { (⟦<StdSink as Sink>⟧.model result).faults ≡ 0 }
    {
        StdSink {
            stream: Stream::Output(rt.stdout()),
            faults: 0,
        }
    }

    /// Standard error.
    pub fn error(rt: HostRuntime) -> StdSink
        ensures { (⟦<StdSink as Sink>⟧.model result).faults ≡ 0 }
    {
        StdSink {
            stream: Stream::Error(rt.stderr()),
            faults: 0,
        }
    }
}

impl Sink for StdSink {
    ghost model = { λ sink. record { faults = sink.faults; observable = false; bytes = [] } };

    fn put(&mut self, bytes: &[u8]) -> Result<(), Failed> {
        match self.stream.write_all(bytes) {
            Ok(()) => Ok(()),
            Err(_) => {
                self.faults = self.faults.saturating_add(1);
                Err(Failed)
            }
        }
    }
}

/// The system's clock.
#[derive(Drop)]
pub struct SystemClock<R> {
    rt: R,
}

impl<R: RuntimeClock + Drop> SystemClock<R> {
    pub fn new(rt: R) -> SystemClock<R>
        ensures { result.rt ≡ rt }
    {
        SystemClock { rt }
    }

    /// A clock that is before 1970 or can't be read gives 0.
    fn seconds(&self) -> u64 {
        match SystemTime::now(&self.rt) {
            Ok(time) => match time.duration_since(UNIX_EPOCH) {
                Ok(duration) => duration.as_secs(),
                Err(_) => 0,
            },
            Err(_) => 0,
        }
    }
}

impl<R: RuntimeClock + Drop> Clock for SystemClock<R> {
    ghost model = { λ _. silent_source };

    /// The last moment below the limit stands for each later one.
    fn now(&mut self) -> u64 {
        self.seconds().min(MOMENT_LIMIT - 1)
    }
}

/// The runtime's random words.
#[derive(Drop)]
pub struct RandomDraws<R> {
    rt: R,
    last: u128,
}

impl<R: RandomSource + Drop> RandomDraws<R> {
    pub fn new(rt: R) -> RandomDraws<R>
        ensures { result.rt ≡ rt }
    {
        RandomDraws { rt, last: 0 }
    }
}

impl<R: RandomSource + Drop> Draws for RandomDraws<R> {
    ghost model = { λ _. silent_source };

    /// 128 random bits. Where the runtime has none to give, the draw before plus one.
    fn draw(&mut self) -> u128 {
        let mut bytes = [0; 16];
        self.last = match self.rt.fill_bytes(&mut bytes) {
            Ok(()) => u128::from_be_bytes(bytes),
            Err(_) => self.last.wrapping_add(1),
        };
        self.last
    }
}
