//! The clock and the words of chance over a system that fails.
use gate_base::{Clock, Draws, MOMENT_LIMIT, RandomDraws, SystemClock};
use std::io;
use std::io::ErrorKind;
use std::random::RandomSource;
use std::rt::Clock as RuntimeClock;
use std::time::Duration;

/// A clock at this second, which can't be read where there is none, and no words of chance.
#[derive(Drop)]
struct Bare(Option<u64>);

impl RuntimeClock for Bare {
    fn monotonic(&self) -> io::Result<Duration> {
        self.since_1970()
    }

    fn since_1970(&self) -> io::Result<Duration> {
        match self.0 {
            Some(second) => Ok(Duration::from_secs(second)),
            None => Err(io::Error::from(ErrorKind::Unsupported)),
        }
    }
}

impl RandomSource for Bare {
    fn fill_bytes(&self, _buf: &mut [u8]) -> io::Result<()> {
        Err(io::Error::from(ErrorKind::Unsupported))
    }
}

/// What the clock says of that second.
fn moment(second: Option<u64>) -> u64 {
    SystemClock::new(Bare(second)).now()
}

#[test]
fn a_system_that_fails_is_answered_for(rt: HostRuntime) {
    assert_eq!(rt; moment(None), 0);
    assert_eq!(rt; moment(Some(5)), 5);
    assert_eq!(rt; moment(Some(MOMENT_LIMIT)), MOMENT_LIMIT - 1);
    assert_eq!(rt; moment(Some(u64::MAX)), 0);
    let mut draws = RandomDraws::new(Bare(None));
    assert_eq!(rt; (draws.draw(), draws.draw()), (1, 2));
}
