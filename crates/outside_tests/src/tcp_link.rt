//! The link over sockets. One thread is gateway and store, so the store answers first, or never.
use crate::loopback::{gets, listen};
use gate_base::{Bytes, CALL_LIMIT};
use std::alloc::Global;
use std::io::{Read, Write};
use std::net::{Net, OpenListener, TcpListener, TcpStream};
use std::process::Abort;
use swift_client::TcpLink;
use swift_requests::{Link, LinkFault};

/// The two pieces of a request, and both together.
const HEAD: &[u8] = b"PUT /v1/a/photos/k HTTP/1.1\r\nHost: h\r\nContent-Length: 2\r\n\r\n";

const BODY: &[u8] = b"ab";

const ASKED: &[u8] = b"PUT /v1/a/photos/k HTTP/1.1\r\nHost: h\r\nContent-Length: 2\r\n\r\nab";

const ANSWER: &[u8] = b"HTTP/1.1 200 OK\r\nContent-Length: 2\r\n\r\n[]";

/// The limit of time in seconds, which the test comes to.
const SHORT: u64 = 1;

/// Both sides of a connection.
fn connected<R: Net + Abort>(rt: &R) -> (R::Stream, R::Stream) {
    let (listener, place) = listen(rt);
    let stream = TcpStream::connect(rt, place).expect(rt, "a connection");
    let (store, _) = listener.accept().expect(rt, "a client");
    (stream, store)
}

/// Whether the request, in two pieces, is answered by the answer, which comes in two.
fn ask<L: Link>(alloc: Global, link: &mut L) -> Result<bool, LinkFault> {
    if link.calls() >= CALL_LIMIT {
        return Err(LinkFault::Memory);
    }
    let mut front = Bytes::new(alloc);
    let mut rest = Bytes::new(alloc);
    match link.exchange(HEAD, BODY, &mut front, &mut rest) {
        Ok(()) => {
            front.append(rest.as_slice())?;
            Ok(front.as_slice() == ANSWER)
        }
        Err(fault) => Err(fault),
    }
}

/// The store answers before it is asked, and only once.
fn ask_twice<L: Link, S: Read + Write>(
    rt: &impl Abort,
    alloc: Global,
    link: &mut L,
    store: &mut S,
) {
    store.write_all(ANSWER).expect(rt, "its bytes");
    assert!(rt; matches!(ask(alloc, link), Ok(true)));
    gets(rt, store, ASKED);
    assert!(rt; matches!(ask(alloc, link), Err(LinkFault::Failed)));
    gets(rt, store, ASKED);
    gets(rt, store, b"");
}

/// The second request goes over the same connection, and the store never answers it: a fault at the limit of time, at
/// which the connection ends.
#[test]
fn an_answer_is_read_and_the_connection_kept(rt: HostRuntime) {
    let (stream, mut store) = connected(&rt);
    let text = Bytes::from_slice(rt.alloc(), b"store").expect(&rt, "memory");
    let made = TcpLink::over(&rt, rt.alloc(), text, SHORT, stream);
    let mut link = made.expect(&rt, "limits of time");
    ask_twice(&rt, rt.alloc(), &mut link, &mut store);
}
