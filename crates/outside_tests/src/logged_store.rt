//! A store whose calls are logged, over sockets. One thread is gateway and store, so the store answers first, or never.
use crate::loopback::listen;
use crate::pieces::comes;
use gate_base::{Bytes, CALL_LIMIT, List, MemSink};
use std::alloc::Global;
use std::io::{Read, Write};
use std::net::{Net, OpenListener, TcpListener, TcpStream};
use std::process::Abort;
use swift_calls::{Swift, SwiftReply, SwiftRequest, is_fit};
use swift_client::{SwiftClient, TcpLink};
use swift_requests::{Place, is_place};
use wire_log::{Log, LoggedStore};

const ANSWER: &[u8] = b"HTTP/1.1 404 Not Found\r\nContent-Length: 0\r\n\r\n";

/// How a HEAD of the container begins.
const ASKED: &[u8] = b"HEAD /v1/a/photos HTTP/1.1\r\n";

/// A limit of time in seconds that the test doesn't come to.
const LONG: u64 = 30;

fn text(rt: &impl Abort, alloc: Global, bytes: &[u8]) -> Bytes {
    Bytes::from_slice(alloc, bytes).expect(rt, "memory")
}

/// Whether a store says of a container that it isn't there.
fn is_missing<W: Swift>(store: &mut W, request: &SwiftRequest) -> bool {
    is_fit(request)
        && store.calls() < CALL_LIMIT
        && matches!(store.call(request), Ok(SwiftReply::NotFound))
}

/// A call is handed to the store below, and its answer handed back.
#[test]
fn a_call_is_handed_on(rt: HostRuntime) {
    let (listener, at) = listen(&rt);
    let stream = TcpStream::connect(&rt, at).expect(&rt, "a connection");
    let (mut below, _) = listener.accept().expect(&rt, "a client");
    below.write_all(ANSWER).expect(&rt, "its bytes");
    let made = TcpLink::over(
        &rt,
        rt.alloc(),
        text(&rt, rt.alloc(), b"store"),
        LONG,
        stream,
    );
    let link = made.expect(&rt, "limits of time");
    let place = Place {
        host: text(&rt, rt.alloc(), b"store"),
        account: text(&rt, rt.alloc(), b"a"),
        token: text(&rt, rt.alloc(), b"t"),
    };
    if !is_place(&place) {
        panic!(&rt; "a place");
    }
    let client = SwiftClient::new(rt.alloc(), link, place);
    let own = rt.clone().expect(&rt, "a handle");
    let log = Log::new(
        own,
        rt.alloc(),
        MemSink::new(rt.alloc(), List::new(rt.alloc())),
        true,
    );
    let mut store = LoggedStore::new(client, log, text(&rt, rt.alloc(), b"store"));
    let container = text(&rt, rt.alloc(), b"photos");
    let request = SwiftRequest::HeadContainer { container };
    assert!(&rt; is_missing(&mut store, &request));
    comes(&rt, &mut below, ASKED);
}
