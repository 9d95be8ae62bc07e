//! The line over sockets. One thread is client and gateway, so the client speaks first.
use crate::loopback::{begin, client, gets, hears, listen};
use gate_base::{Line, NoCount};
use sockets::{Bounds, TcpLine};
use std::io::Read;
use std::net::Net;
use std::process::Abort;

const ASKED: &[u8] = b"HEAD /photos HTTP/1.1\r\n\r\n";

const REPLY: &[u8] = b"HTTP/1.1 200 OK\r\nContent-Length: 0\r\n\r\n";

/// The test doesn't come to the limit of time.
const BOUNDS: Bounds = Bounds {
    limit: 30,
    ahead: 1_048_576,
    largest: 16_777_216,
    floor: 0,
    places: 900,
    timeout: b"",
};

/// One request and its reply, and the ends.
fn serve<L: Line<NoCount>, S: Read>(rt: &impl Abort, line: &mut L, client: &mut S) {
    begin(rt, line);
    assert!(rt; hears(line, ASKED));
    assert!(rt; line.write(&NoCount, REPLY).is_ok());
    line.close();
    gets(rt, client, REPLY);
    gets(rt, client, b"");
}

#[test]
fn a_client_is_served(rt: HostRuntime) {
    let (listener, place) = listen(&rt);
    let own = rt.clone().expect(&rt, "a handle");
    let made = TcpLine::<HostRuntime>::new(own, rt.alloc(), listener, Some(1), BOUNDS);
    let mut line = made.expect(&rt, "a line");
    let mut client = client(&rt, place, ASKED);
    serve(&rt, &mut line, &mut client);
}
