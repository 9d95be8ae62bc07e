//! A stream for one exchange, which has a limit of time in all.
ghost use Rattle.std.specs.Io.{ReadsAtMost, WritesAtMost};

use std::io;
use std::io::{ErrorKind, Read, Write};
use std::net::{Net, OpenStream};
use std::time::{Clock, Duration};

/// How many bytes a second more is given for.
const MEBIBYTE: u64 = 1_048_576;

/// A stream whose reads and writes fail once the limit of time is over for all of them together. Each MiB that is read or written gives a
/// second more. The error is `ErrorKind::WouldBlock` where a call waited till then, and else `ErrorKind::TimedOut`.
#[derive(Drop)]
pub(crate) struct Timed<'a, R: Net> {
    rt: &'a R,
    pub(crate) stream: R::Stream,
    limit: Duration,
    end: Duration,
    moved: u64,
}

impl<'a, R: Net + Clock> Timed<'a, R> {
    /// The limit begins now.
    pub(crate) fn new(rt: &'a R, stream: R::Stream, limit: Duration) -> io::Result<Timed<'a, R>> {
        let end = rt.monotonic()?.saturating_add(limit);
        Ok(Timed {
            rt,
            stream,
            limit,
            end,
            moved: 0,
        })
    }

    /// For how long the next call may wait. It is never nothing, which would be no limit.
    fn left(&self) -> io::Result<Duration> {
        let more = Duration::from_secs(self.moved / MEBIBYTE);
        let end = self.end.saturating_add(more);
        let left = end.saturating_sub(self.rt.monotonic()?);
        if left.is_zero() {
            Err(io::Error::from(ErrorKind::TimedOut))
        } else {
            Ok(left.min(self.limit))
        }
    }

    fn note(&mut self, count: usize) {
        self.moved = self.moved.saturating_add(count as u64);
    }
}

impl<'a, R: Net + Clock> Read for Timed<'a, R> {
    fn read(&mut self, buf: &mut [u8]) -> io::Result<usize> {
        self.stream.set_read_timeout(Some(self.left()?))?;
        let count = self.stream.read(buf)?;
        self.note(count);
        Ok(count)
    }
}

impl<'a, R: Net + Clock> Write for Timed<'a, R> {
    fn write(&mut self, buf: &[u8]) -> io::Result<usize> {
        self.stream.set_write_timeout(Some(self.left()?))?;
        let count = self.stream.write(buf)?;
        self.note(count);
        Ok(count)
    }

    fn flush(&mut self) -> io::Result<()> {
        self.stream.flush()
    }
}
