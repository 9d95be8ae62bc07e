//! What a log takes from a reply.

/// How an interim reply begins. The reply itself is still to come.
const INTERIM: &[u8] = b"HTTP/1.1 1";

/// The most bytes of a request's id.
const LONGEST_ID: usize = 64;

/// The most lines of a head in which the id is sought.
const MOST_LINES: usize = 100;

const ID: &[u8] = b"x-amz-request-id: ";

/// A status or an id.
#[derive(Clone, Copy)]
struct LoggedWord {
    bytes: [u8; LONGEST_ID],
    len: usize,
}

impl LoggedWord {
    /// The word, or as much of it as an id may have.
    fn new(word: &[u8]) -> LoggedWord {
        let mut bytes = [b' '; LONGEST_ID];
        let len = word.len().min(LONGEST_ID);
        bytes[..len].copy_from_slice(&word[..len]);
        LoggedWord { bytes, len }
    }

    fn as_slice(&self) -> &[u8] {
        &self.bytes[..self.len.min(LONGEST_ID)]
    }
}

/// A reply, as far as it is written. Of its bytes the status and the id are kept.
#[derive(Clone, Copy)]
pub(crate) struct LoggedReply {
    status: LoggedWord,
    id: LoggedWord,
    /// How many bytes were written; none once a write failed.
    pub(crate) bytes: Option<u64>,
    /// How many calls of the store there had been at the last write, the moment and the ticks.
    pub(crate) calls: u64,
    pub(crate) moment: u64,
    pub(crate) ticks: u64,
}

impl LoggedReply {
    /// A reply that begins with these bytes, which aren't written yet.
    pub(crate) fn new(bytes: &[u8]) -> LoggedReply {
        LoggedReply {
            status: LoggedWord::new(logged_status_of_reply(bytes)),
            id: LoggedWord::new(logged_request_id(bytes)),
            bytes: Some(0),
            calls: 0,
            moment: 0,
            ticks: 0,
        }
    }

    pub(crate) fn status(&self) -> &[u8] {
        self.status.as_slice()
    }

    /// Whether it says that something isn't implemented.
    pub(crate) fn is_not_implemented(&self) -> bool {
        self.status.as_slice() == b"501".as_slice()
    }

    /// Whether it says that the store is inconsistent: the one reply of this status that has an id.
    pub(crate) fn is_inconsistent(&self) -> bool {
        self.status.as_slice() == b"500".as_slice() && self.id.as_slice() != b"-".as_slice()
    }

    pub(crate) fn id(&self) -> &[u8] {
        self.id.as_slice()
    }

    /// The reply once so many more bytes of it are written, or aren't.
    pub(crate) fn with_piece(self, count: usize, sent: bool) -> LoggedReply {
        let mut reply = self;
        reply.bytes = match reply.bytes {
            Some(bytes) if sent => Some(bytes.saturating_add(count as u64)),
            _ => None,
        };
        reply
    }
}

pub(crate) fn is_unlogged_interim(reply: &[u8]) -> bool {
    reply.starts_with(INTERIM)
}

/// The three digits of a reply's status; `-` where it has none.
pub(crate) fn logged_status_of_reply(reply: &[u8]) -> &[u8] {
    if reply.starts_with(b"HTTP/1.") && 12 <= reply.len() && are_logged_digits(&reply[9..12]) {
        &reply[9..12]
    } else {
        b"-"
    }
}

fn are_logged_digits(bytes: &[u8]) -> bool {
    bytes.iter().all(|byte| byte.is_ascii_digit())
}

/// The value of `x-amz-request-id` in a reply's head; `-` where it has none, or one that is no short visible text.
pub(crate) fn logged_request_id(reply: &[u8]) -> &[u8] {
    let mut rest = reply;
    for _line in 0..MOST_LINES {
        let Some(end) = rest.iter().position(|byte| *byte == b'\n') else {
            break;
        };
        let line = trim_cr_for_log(&rest[..end]);
        if line.is_empty() {
            break;
        }
        if line.starts_with(ID) {
            return logged_id_or_dash(&line[ID.len()..]);
        }
        rest = &rest[end + 1..];
    }
    b"-"
}

fn logged_id_or_dash(id: &[u8]) -> &[u8] {
    if 0 < id.len() && id.len() <= LONGEST_ID && id.iter().all(|byte| byte.is_ascii_graphic()) {
        id
    } else {
        b"-"
    }
}

pub(crate) fn trim_cr_for_log(line: &[u8]) -> &[u8] {
    match line.split_last() {
        Some((b'\r', front)) => front,
        _ => line,
    }
}
