//! Sockets on the loopback interface, and the calls of a line over them.
ghost use Rattle.std.specs.Prelude.{IsTrue};

use gate_base::{Line, NoCount};
use std::io::{Read, Write};
use std::net::{Net, OpenListener, SocketAddr, TcpListener, TcpStream};
use std::process::Abort;

/// A listener at a free place, and that place.
pub(crate) fn listen<R: Net + Abort>(rt: &R) -> (R::Listener, SocketAddr) {
    let listener = TcpListener::bind(rt, "127.0.0.1:0").expect(rt, "a listener");
    let place = listener.local_addr().expect(rt, "its place");
    (listener, place)
}

/// Asserts that these bytes come next, or the end where there are none.
pub(crate) fn gets<S: Read>(rt: &impl Abort, stream: &mut S, bytes: &[u8]) {
    let mut buf = [0; 100];
    let count = stream.read(&mut buf).expect(rt, "a read");
    assert!(rt; &buf[..count] == bytes);
}

/// A client that has sent these bytes.
pub(crate) fn client<R: Net + Abort>(rt: &R, place: SocketAddr, bytes: &[u8]) -> R::Stream {
    let mut client = TcpStream::connect(rt, place).expect(rt, "a connection");
    client.write_all(bytes).expect(rt, "its bytes");
    client
}

/// Asserts that another connection begins.
pub(crate) fn begin<L: Line<NoCount>>(rt: &impl Abort, line: &mut L)
    ensures { IsTrue (L.model line.new).is_open }
{
    match line.next() {
        Ok(true) => {}
        _ => panic!(rt; "no connection begins"),
    }
}

/// Whether these bytes are read next.
pub(crate) fn hears<L: Line<NoCount>>(line: &mut L, bytes: &[u8]) -> bool
    requires { IsTrue (L.model line.old).is_open }
    ensures { IsTrue (L.model line.new).is_open }
{
    let mut buf = [0; 100];
    match line.read(&mut buf) {
        Ok(count) => &buf[..count] == bytes,
        Err(_) => false,
    }
}
