//! One answer read from a stream.
ghost use Rattle.std.specs.Prelude.{◌≡◌, ◌≤◌, ◌<◌, ◌+◌, vec_len, IfOk};
ghost use Rattle.std.specs.Io.{ReadsAtMost};

use gate_base::Bytes;
use http_answers::{Announced, announced_by_answer_head};
use std::alloc::Global;
use std::io;
use std::io::{ErrorKind, Read};

/// The bytes of a head, at most.
const HEAD_LIMIT: usize = 65_536;

/// The bytes that one read asks for at most: while the head is read, and while the body is. Each byte of the room for
/// them is made once.
const FRONT: usize = 16_384;

const PIECE: usize = 65_536;

/// The bytes of a head and a body together, at most: 1 GiB and the longest head. The longest answers are the bytes of an object,
/// which are held whole; one that was completed from parts may have more, and is then read by ranges alone.
const MOST: u64 = 1_073_807_360;

/// The bytes of a body that room is made for before they come, at most: 16 MiB and one byte more. Behind these the room grows with
/// what comes.
const AHEAD: usize = 16_777_217;

/// A whole answer, its head and its body, and whether the connection may serve another exchange.
#[derive(Drop)]
pub(crate) struct Received {
    pub(crate) head: Bytes,
    pub(crate) body: Bytes,
    pub(crate) stays: bool,
}

/// What the head of an answer says of its bytes: how many are its own, and how many the body's; and whether the connection stays open
/// behind them.
#[derive(Clone, Copy)]
struct Size {
    head: usize,
    body: usize,
    stays: bool,
}

/// Reads one whole answer. `head` says that the request was HEAD. Its head is parsed where a line of it came, and then
/// its bytes are counted. Those of the body are read to where they stay. Bytes behind it are an error, as far as they came with it.
pub(crate) fn receive<S: Read>(alloc: Global, stream: &mut S, head: bool) -> io::Result<Received> {
    let mut front = Vec::new(alloc);
    let size = receive_front(alloc, stream, head, &mut front)?;
    let body = receive_body(alloc, stream, &mut front, &size)?;
    let old = front.starts_with(b"HTTP/1.0");
    Ok(Received {
        head: Bytes::from_vec(front),
        body: Bytes::from_vec(body),
        stays: size.stays && !old,
    })
}

/// Reads until the head is whole. What came of the body stands behind it.
fn receive_front<S: Read>(
    alloc: Global,
    stream: &mut S,
    head: bool,
    answer: &mut Vec<u8>,
) -> io::Result<Size> {
    let mut came = answer.len();
    'pieces: while came < HEAD_LIMIT {
        let count = receive_some(stream, answer, FRONT)?;
        if answer[came..].contains(&b'\n') {
            match received_announcement(alloc, head, answer)? {
                Announced::More => {}
                Announced::Answer { head, body, stays } => {
                    return size_to_receive(head, body, stays);
                }
                Announced::Bad => return Err(io::Error::from(ErrorKind::InvalidData)),
            }
        }
        came += count;
    }
    Err(io::Error::from(ErrorKind::InvalidData))
}

/// What the bytes that came announce.
fn received_announcement(alloc: Global, head: bool, bytes: &[u8]) -> io::Result<Announced> {
    match announced_by_answer_head(alloc, head, bytes) {
        Ok(announced) => Ok(announced),
        Err(_) => Err(io::Error::from(ErrorKind::OutOfMemory)),
    }
}

/// Reads what comes next, at most so many bytes, behind those that came. None is an error: the connection is at its end.
fn receive_some<S: Read>(stream: &mut S, answer: &mut Vec<u8>, most: usize) -> io::Result<usize>
    requires { most ≤ 65536 }
    ensures some { IfOk result (λ count. 0 < count) }
    ensures more { IfOk result (λ count. vec_len answer.new ≡ vec_len answer.old + count) }
{
    let came = answer.len();
    answer.resize(came + most, 0)?;
    let count = receive_once(stream, &mut answer[came..])?;
    answer.truncate(came + count);
    if count == 0 {
        return Err(io::Error::from(ErrorKind::UnexpectedEof));
    }
    Ok(count)
}

/// One read. Where a signal interrupts its wait it is made again, and the limit of time begins anew. A program that was stopped
/// finds its wait interrupted when it goes on, and its answer may have come by then.
fn receive_once<S: Read>(stream: &mut S, buf: &mut [u8]) -> io::Result<usize>
    ensures { ReadsAtMost result buf.new }
{
    for _interruption in 0..u64::MAX {
        match stream.read(buf) {
            Err(error) if error.kind() == ErrorKind::Interrupted => {}
            got => return got,
        }
    }
    Err(io::Error::from(ErrorKind::Interrupted))
}

/// The size of an answer. More than [`MOST`] in all is an error, so that a store which announces what no answer has is not asked
/// for it, and no memory is taken for it.
fn size_to_receive(head: usize, body: u64, stays: bool) -> io::Result<Size> {
    match (head as u64).checked_add(body) {
        Some(size) if size <= MOST => Ok(Size {
            head,
            body: body as usize,
            stays,
        }),
        _ => Err(io::Error::from(ErrorKind::InvalidData)),
    }
}

/// The body of the answer. What came of it behind the head is moved out of `front`. One byte more is asked for.
fn receive_body<S: Read>(
    alloc: Global,
    stream: &mut S,
    front: &mut Vec<u8>,
    size: &Size,
) -> io::Result<Vec<u8>> {
    let mut body = Vec::new(alloc);
    append_body(stream, front, size, &mut body)?;
    Ok(body)
}

fn append_body<S: Read>(
    stream: &mut S,
    front: &mut Vec<u8>,
    size: &Size,
    body: &mut Vec<u8>,
) -> io::Result<()> {
    if size.body > 0 {
        body.reserve(size.body.saturating_add(1).min(AHEAD))?;
    }
    body.extend_from_slice(&front[size.head.min(front.len())..])?;
    front.truncate(size.head);
    receive_rest(stream, body, size.body)
}

/// Reads on until the body has `size` bytes. One more is asked for, so that bytes behind it are found out.
fn receive_rest<S: Read>(stream: &mut S, body: &mut Vec<u8>, size: usize) -> io::Result<()> {
    let mut came = body.len();
    'pieces: while came < size {
        if came == body.len() {
            body.resize(came + PIECE.min((size - came).saturating_add(1)), 0)?;
        }
        let count = receive_once(stream, &mut body[came..])?;
        if count == 0 {
            return Err(io::Error::from(ErrorKind::UnexpectedEof));
        }
        came += count;
    }
    if came > size {
        return Err(io::Error::from(ErrorKind::InvalidData));
    }
    body.truncate(size);
    Ok(())
}
