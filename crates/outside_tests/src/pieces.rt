//! A reply in several pieces, over sockets and with a log. One thread is client and gateway, so the client speaks first.
ghost use Rattle.std.specs.Prelude.{IsTrue, false, []};

use crate::loopback::{begin, client, gets, hears, listen};
use gate_base::{Failed, Line, NoCount, Sink};
use sockets::{Bounds, TcpLine};
use std::io::{Read, Write};
use std::net::{Net, OpenListener, SocketAddr, TcpStream};
use std::process::Abort;
use wire_log::{Log, LoggedLine, Peers};

const ASKED: &[u8] = b"GET /photos/a HTTP/1.1\r\nHost: h\r\n\r\n";

const HEAD: &[u8] = b"HTTP/1.1 200 OK\r\nx-amz-request-id: c0ffee\r\nContent-Length: 39\r\n\r\n";

/// The bytes of an object may spell an interim reply.
const PIECES: [&[u8]; 2] = [b"HTTP/1.1 100 Continue\r\n\r\n", b"and 14 behind."];

/// The head of the next request, which is sent along with the first one. Before its turn no body is asked for.
const NEXT_HEAD: &[u8] =
    b"PUT /photos/b HTTP/1.1\r\nExpect: 100-continue\r\nContent-Length: 5\r\n\r\n";

/// Its body, which comes later, and so is given by a read of its own.
const NEXT_BODY: &[u8] = b"hello";

const NEXT: &[u8] = b"HTTP/1.1 200 OK\r\nContent-Length: 0\r\n\r\n";

/// What the log has between the time and the milliseconds.
const LOGGED: [&[u8]; 2] = [
    b" 1 GET /photos/a 200 c0ffee 104 0 ",
    b" 1 PUT /photos/b 200 - 38 0 ",
];

/// How many bytes the time of a line has.
const TIME: usize = 24;

/// The test doesn't come to the limit of time.
const BOUNDS: Bounds = Bounds {
    limit: 30,
    ahead: 1_048_576,
    largest: 16_777_216,
    floor: 0,
    places: 900,
    timeout: b"",
};

/// Asks a line of sockets for its client.
#[derive(Clone, Copy)]
struct SocketPeers;

impl Peers<TcpLine<HostRuntime>> for SocketPeers {
    fn peer(&self, line: &TcpLine<HostRuntime>) -> Option<SocketAddr> {
        line.peer()
    }

    fn waited(&self, _line: &TcpLine<HostRuntime>) -> u64 {
        0
    }

    fn was_slow(&self, line: &TcpLine<HostRuntime>) -> bool {
        line.was_slow()
    }

    fn refusal(&self, line: &TcpLine<HostRuntime>) -> &'static [u8] {
        line.refusal()
    }
}

/// A sink whose other end is read by the test.
#[derive(Drop)]
struct StreamSink<S> {
    stream: S,
    faults: u64,
}

impl<S: Write> Sink for StreamSink<S> {
    ghost model = { λ sink. record { faults = sink.faults; observable = false; bytes = [] } };

    fn put(&mut self, bytes: &[u8]) -> Result<(), Failed> {
        match self.stream.write_all(bytes) {
            Ok(()) => Ok(()),
            Err(_) => {
                self.faults = self.faults.saturating_add(1);
                Err(Failed)
            }
        }
    }
}

/// Two requests of one client, of which the first is answered in pieces, and the end.
fn serve<L: Line<NoCount>, S: Read + Write>(rt: &impl Abort, line: &mut L, client: &mut S) {
    client.write_all(NEXT_HEAD).expect(rt, "its bytes");
    begin(rt, line);
    assert!(rt; hears(line, ASKED));
    assert!(rt; line.write(&NoCount, HEAD).is_ok());
    assert!(rt; line.write(&NoCount, PIECES[0]).is_ok());
    assert!(rt; line.write(&NoCount, PIECES[1]).is_ok());
    client.write_all(NEXT_BODY).expect(rt, "its bytes");
    assert!(rt; hears(line, NEXT_HEAD));
    assert!(rt; hears(line, NEXT_BODY));
    assert!(rt; line.write(&NoCount, NEXT).is_ok());
    line.close();
}

/// Asserts that exactly these bytes come, piece behind piece.
pub(crate) fn comes<S: Read>(rt: &impl Abort, stream: &mut S, bytes: &[u8]) {
    let mut buf = [0; 100];
    let buf = &mut buf[..bytes.len().min(100)];
    stream.read_exact(buf).expect(rt, "all bytes");
    assert!(rt; &*buf == bytes);
}

/// How a line goes on behind its milliseconds, up to the port of its client; and its end, since no key is named and nothing was waited.
const PEER: &[u8] = b"127.0.0.1:";

const END: &[u8] = b"- 0\n";

/// Asserts that a line of the log comes that has these bytes behind its time, then milliseconds and the client.
fn is_logged<S: Read>(rt: &impl Abort, log: &mut S, bytes: &[u8]) {
    let mut time = [0; TIME];
    log.read_exact(&mut time).expect(rt, "a time");
    comes(rt, log, bytes);
    number_comes(rt, log);
    comes(rt, log, PEER);
    number_comes(rt, log);
    comes(rt, log, END);
}

/// Asserts that digits come, and a space.
fn number_comes<S: Read>(rt: &impl Abort, log: &mut S) {
    let mut byte = [0; 1];
    for _digit in 0..10 {
        log.read_exact(&mut byte).expect(rt, "a number and a space");
        if byte == *b" " {
            return;
        }
        assert!(rt; byte[0].is_ascii_digit());
    }
    panic!(rt; "the number doesn't end");
}

/// A log that is written to a stream, and the other end of that.
fn open_log<R: Net + Abort>(rt: &R) -> (StreamSink<R::Stream>, R::Stream) {
    let (listener, place) = listen(rt);
    let stream = TcpStream::connect(rt, place).expect(rt, "a connection");
    let (log, _) = listener.accept().expect(rt, "its other end");
    (StreamSink { stream, faults: 0 }, log)
}

#[test]
fn a_reply_in_pieces_is_one(rt: HostRuntime) {
    let (listener, place) = listen(&rt);
    let own = rt.clone().expect(&rt, "a handle");
    let made = TcpLine::<HostRuntime>::new(own, rt.alloc(), listener, Some(1), BOUNDS);
    let line = made.expect(&rt, "a line");
    let (sink, mut log) = open_log(&rt);
    let own = rt.clone().expect(&rt, "a handle");
    let mut line = LoggedLine::new(line, Log::new(own, rt.alloc(), sink, true), SocketPeers);
    let mut client = client(&rt, place, ASKED);
    serve(&rt, &mut line, &mut client);
    drop(line);
    for bytes in [HEAD, PIECES[0], PIECES[1], NEXT] {
        comes(&rt, &mut client, bytes);
    }
    gets(&rt, &mut client, b"");
    for bytes in LOGGED {
        is_logged(&rt, &mut log, bytes);
    }
    gets(&rt, &mut log, b"");
}
