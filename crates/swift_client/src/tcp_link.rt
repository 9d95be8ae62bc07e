//! Exchanges over a TCP connection. It tells nothing of their bytes.
ghost use Rattle.std.specs.Prelude.{◌≡◌, false, IfOk};
ghost use Rattle.std.proofs.Common.{refl, sym, true≢false};
ghost use Rattle.gate_base.specs.Causes.{Rose};
ghost use Rattle.swift_client.specs.Silent.{nowhere, silent_history};

use crate::receive::receive;
use crate::timed::Timed;
use gate_base::{Bytes, Counted};
use std::alloc::Global;
use std::io;
use std::io::{ErrorKind, Read, Write};
use std::net::{HostAddrs, Net, OpenStream, ToSocketAddrs};
use std::time::{Clock, Duration};
use swift_requests::{Link, LinkFault};
use wire_log::{Cause, Explains};

/// A body of up to so many bytes is copied to stand behind its head, and both are sent by one write.
const JOINED: usize = 16_384;

/// Exchanges with the store at an address, one after the other, over a connection that is kept from one to the next.
///
/// Before a request is sent, the connection is tested without waiting. Where the store has ended it, or sent bytes that
/// nobody asked for, a new one is made first. Once a byte of a request was sent, it is never sent again.
///
/// An exchange fails where the store can't be reached, where it ends the connection before its answer is whole, where the
/// answer has a Transfer-Encoding, no length, or a head of more than 65,536 bytes, where bytes come behind the answer, and
/// where the store lets the limit of time pass: while a connection is made, or from then on until it has taken the request and sent the
/// whole answer, with a second more for each MiB of both. A wait that a signal interrupts begins again. Where an exchange fails the
/// connection is dropped. It is dropped too after an answer whose `Connection` says anything but `keep-alive`, or whose version is
/// HTTP/1.0.
#[derive(Drop)]
pub struct TcpLink<R: Net> {
    rt: R,
    alloc: Global,
    address: Bytes,
    /// The limit of time in seconds.
    limit: u64,
    stream: Option<R::Stream>,
    /// The connection was handed over, and no exchange was made on it.
    fresh: bool,
    calls: u64,
    faults: u64,
    /// Why the last exchange failed; none where it didn't.
    failing: Option<Cause>,
}

impl<R: Net + Clock + Drop> TcpLink<R> {
    /// A link to the store at an address: a host's name or number, a colon and a port. The first exchange makes the
    /// connection. `limit` is the limit of time, in seconds; with a limit of 0 each exchange fails.
    pub fn new(rt: R, alloc: Global, address: Bytes, limit: u64) -> TcpLink<R>
        ensures history { ⟦<TcpLink<R> as Link>⟧.history result ≡ silent_history 0 0 }
        ensures address { result.address ≡ address }
        ensures limit { result.limit ≡ limit }
    {
        TcpLink {
            rt,
            alloc,
            address,
            limit,
            stream: None,
            fresh: false,
            calls: 0,
            faults: 0,
            failing: None,
        }
    }

    /// The same, with a connection that is there. The first exchange is made on it without a test. It fails where the
    /// connection takes no limit of time.
    pub fn over(
        rt: R,
        alloc: Global,
        address: Bytes,
        limit: u64,
        stream: R::Stream,
    ) -> io::Result<TcpLink<R>>
        ensures history { IfOk result
            (λ link. ⟦<TcpLink<R> as Link>⟧.history link ≡ silent_history 0 0) }
        ensures address { IfOk result (λ link. link.address ≡ address) }
        ensures limit { IfOk result (λ link. link.limit ≡ limit) }
    {
        set_link_time_limits::<R>(&stream, limit)?;
        let mut link = TcpLink::new(rt, alloc, address, limit);
        link.stream = Some(stream);
        link.fresh = true;
        Ok(link)
    }

    /// A new connection. Each place that the address names is tried.
    fn connect(&self) -> io::Result<R::Stream> {
        let Ok(address) = str::from_utf8(self.address.as_slice()) else {
            return Err(io::Error::from(ErrorKind::InvalidInput));
        };
        let places = self.look_up(address)?;
        self.connect_to(places)
    }

    /// A connection to the first of the places that takes one.
    fn connect_to(&self, places: HostAddrs) -> io::Result<R::Stream> {
        let limit = Duration::from_secs(self.limit);
        let mut last = io::Error::from(ErrorKind::NotFound);
        for place in places {
            match self.rt.connect_timeout(place, limit) {
                Ok(stream) => return with_link_time_limits::<R>(stream, self.limit),
                Err(error) => last = error,
            }
        }
        Err(last)
    }

    /// The places that an address names. An error of kind `NotFound` where it can't be looked up.
    fn look_up(&self, address: &str) -> io::Result<HostAddrs> {
        match address.to_socket_addrs(&self.rt) {
            Ok(places) => Ok(places),
            Err(error) if error.kind() == ErrorKind::OutOfMemory => Err(error),
            Err(_) => Err(io::Error::from(ErrorKind::NotFound)),
        }
    }

    /// A connection for an exchange: the one that is kept, where it may serve another, or a new one.
    fn take_ready_stream(&mut self) -> io::Result<R::Stream>
        ensures { self.new ≡ record self.old { stream = self.new.stream; fresh = self.new.fresh } }
    {
        let fresh = self.fresh;
        self.fresh = false;
        if let Some(stream) = self.stream.take() {
            if fresh || is_reusable_link_stream::<R>(&stream) {
                return Ok(stream);
            }
        }
        self.connect()
    }

    /// One exchange. The connection is kept only where it went well. The answer is parted behind its head.
    fn exchange_over_stream(
        &mut self,
        head: &[u8],
        body: &[u8],
        front: &mut Bytes,
        rest: &mut Bytes,
    ) -> io::Result<()>
        ensures { self.new ≡ record self.old { stream = self.new.stream; fresh = self.new.fresh } }
    {
        let stream = self.take_ready_stream()?;
        let mut timed = Timed::new(&self.rt, stream, Duration::from_secs(self.limit))?;
        if send_and_receive(self.alloc, &mut timed, head, body, front, rest)? {
            self.stream = Some(timed.stream);
        }
        Ok(())
    }
}

impl<R: Net> Counted for TcpLink<R> {
    ghost called = { λ l. l.calls };

    fn calls(&self) -> u64 {
        self.calls
    }
}

impl<R: Net + Clock + Drop> Link for TcpLink<R> {
    ghost history = { λ l. silent_history l.calls l.faults };

    ghost place = { λ l. nowhere };

    ghost counted = { λ l. refl };

    ghost is_history = { λ l. record { last = λ observable. absurd (true≢false (sym observable)); rise = λ observable. absurd (true≢false (sym observable)) } };

    ghost left = { λ l observable. absurd (true≢false (sym observable)) };

    fn exchange(
        &mut self,
        head: &[u8],
        body: &[u8],
        front: &mut Bytes,
        rest: &mut Bytes,
    ) -> Result<(), LinkFault> {
        self.calls += 1;
        match self.exchange_over_stream(head, body, front, rest) {
            Ok(()) => {
                self.failing = None;
                Ok(())
            }
            Err(error) if error.kind() == ErrorKind::OutOfMemory => Err(LinkFault::Memory),
            Err(error) => {
                self.failing = Some(cause_of_failed_exchange(&error, self.limit));
                self.faults = self.faults.saturating_add(1);
                Err(LinkFault::Failed)
            }
        }
    }
}

impl<R: Net> Explains for TcpLink<R> {
    /// None where the last exchange went well.
    fn cause(&self) -> Option<Cause> {
        self.failing
    }
}

/// One exchange over a stream. True where the stream may serve another.
fn send_and_receive<S: Read + Write>(
    alloc: Global,
    stream: &mut S,
    head: &[u8],
    body: &[u8],
    front: &mut Bytes,
    rest: &mut Bytes,
) -> io::Result<bool> {
    send_link_request(alloc, stream, head, body)?;
    let answer = receive(alloc, stream, head.starts_with(b"HEAD "))?;
    *front = answer.head;
    *rest = answer.body;
    Ok(answer.stays)
}

/// Sends a request. A store that refuses a small one by its head alone, and closes, has both pieces then, so the refusal can still be
/// read; a longer body is written from where it stands.
fn send_link_request<S: Write>(
    alloc: Global,
    stream: &mut S,
    head: &[u8],
    body: &[u8],
) -> io::Result<()> {
    if body.is_empty() || body.len() > JOINED {
        stream.write_all(head)?;
        return stream.write_all(body);
    }
    let mut request = Vec::new(alloc);
    append_pieces(&mut request, head, body)?;
    stream.write_all(request.as_slice())
}

fn append_pieces(request: &mut Vec<u8>, head: &[u8], body: &[u8]) -> io::Result<()> {
    request.reserve(head.len().saturating_add(body.len()))?;
    request.extend_from_slice(head)?;
    request.extend_from_slice(body)?;
    Ok(())
}

/// Why an exchange failed with that error, under a limit of time of so many seconds. A read or a write past it is `WouldBlock` or, as
/// connecting, a `TimedOut` that isn't the system's own.
fn cause_of_failed_exchange(error: &io::Error, limit: u64) -> Cause {
    match error.kind() {
        ErrorKind::NotFound => Cause::NotFound,
        ErrorKind::ConnectionRefused => Cause::Refused,
        ErrorKind::HostUnreachable | ErrorKind::NetworkUnreachable => Cause::Unreachable,
        ErrorKind::WouldBlock => Cause::Silent(limit),
        ErrorKind::TimedOut if error.raw_os_error().is_none() => Cause::Silent(limit),
        ErrorKind::TimedOut => Cause::TimedOut,
        ErrorKind::UnexpectedEof => Cause::Closed,
        ErrorKind::ConnectionReset | ErrorKind::ConnectionAborted => Cause::Closed,
        ErrorKind::BrokenPipe | ErrorKind::WriteZero => Cause::Closed,
        ErrorKind::InvalidData => Cause::Unframed,
        _ => Cause::Other,
    }
}

/// Has the stream's calls fail after so many seconds without progress.
fn set_link_time_limits<R: Net>(stream: &R::Stream, limit: u64) -> io::Result<()> {
    let limit = Some(Duration::from_secs(limit));
    stream.set_nodelay(true)?;
    stream.set_read_timeout(limit)?;
    stream.set_write_timeout(limit)
}

/// The stream with these limits.
fn with_link_time_limits<R: Net>(stream: R::Stream, limit: u64) -> io::Result<R::Stream> {
    set_link_time_limits::<R>(&stream, limit)?;
    Ok(stream)
}

/// Whether the stream may serve another exchange: it is open, and nothing came since the last answer.
fn is_reusable_link_stream<R: Net>(stream: &R::Stream) -> bool {
    match peek_link_stream::<R>(stream) {
        Ok(_) => false,
        Err(error) => error.kind() == ErrorKind::WouldBlock,
    }
}

/// Looks for the next byte without waiting for it. An error of kind `WouldBlock` where none came.
fn peek_link_stream<R: Net>(stream: &R::Stream) -> io::Result<usize> {
    stream.set_nonblocking(true)?;
    let found = stream.peek(&mut [0]);
    stream.set_nonblocking(false)?;
    found
}
