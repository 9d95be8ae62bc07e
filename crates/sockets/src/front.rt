//! Where the request at the front of bytes ends, as far as a line has to know it.

/// A head that isn't whole in so many bytes is left to who reads the line.
pub(crate) const HEAD_LIMIT: usize = 16_384;

/// The headers of a request, at most.
const HEADERS: usize = 100;

/// The most digits of the length of a body that is read ahead.
const DIGITS: usize = 10;

/// Within so many bytes it is found at once that no head can come of them. Who reads the line is given as many at once, and looks at
/// them at once.
pub(crate) const EARLY: usize = 4_096;

/// What stands at the front of bytes.
#[derive(Clone, Copy)]
pub(crate) enum Front {
    /// Its end isn't known yet.
    Part,
    /// A request of so many bytes, there or still to come. `asks` says that its client waits for an interim answer.
    Request { size: usize, asks: bool },
    /// Nothing of which the end is known.
    Open,
}

/// What the lines of a head have said so far.
#[derive(Clone, Copy)]
struct Said {
    /// Whether the request line came, and how many headers behind it.
    begun: bool,
    headers: usize,
    body: Option<usize>,
    asks: bool,
    /// Its client knows interim answers.
    modern: bool,
    /// A line is none that a head has.
    bad: bool,
    /// It is refused, or its end isn't known.
    strange: bool,
}

const NOTHING_SAID: Said = Said {
    begun: false,
    headers: 0,
    body: None,
    asks: false,
    modern: false,
    bad: false,
    strange: false,
};

/// What stands at the front of bytes that more may follow, where a body of at most `largest` bytes is read ahead. It is open as soon as
/// no head can come of the first [`EARLY`] ones.
pub(crate) fn find_front(bytes: &[u8], largest: usize) -> Front {
    let mut rest = &bytes[..HEAD_LIMIT.min(bytes.len())];
    let mut said = NOTHING_SAID;
    let mut read = 0usize;
    for _line in 0..HEAD_LIMIT {
        let Some(end) = rest.iter().position(|byte| *byte == b'\n') else {
            break;
        };
        let line = without_cr(&rest[..end]);
        rest = &rest[end + 1..];
        read = read.saturating_add(end).saturating_add(1);
        if line.is_empty() && said.begun {
            return said_front(said, read);
        }
        said = heard(said, line, largest);
        if said.bad && read <= EARLY {
            return Front::Open;
        }
    }
    unfinished_front(bytes, said, rest)
}

/// What stands at the front of bytes whose last line, as far as it came, is `rest`.
fn unfinished_front(bytes: &[u8], said: Said, rest: &[u8]) -> Front {
    let ends = bytes.len() <= EARLY && !may_go_on(said, rest);
    if ends || bytes.len() >= HEAD_LIMIT {
        Front::Open
    } else {
        Front::Part
    }
}

/// Whether bytes can be the beginning of the next line of a head, which may be an empty one.
fn may_go_on(said: Said, bytes: &[u8]) -> bool {
    if bytes == b"\r".as_slice() {
        true
    } else if said.begun {
        begins_field(bytes)
    } else {
        begins_request_line(bytes)
    }
}

/// What a whole head of so many bytes says.
fn said_front(said: Said, head: usize) -> Front {
    if said.strange || said.bad || HEADERS < said.headers {
        return Front::Open;
    }
    Front::Request {
        size: head.saturating_add(said.body.unwrap_or(0)),
        asks: said.asks && said.modern,
    }
}

/// What was said, with one more line of the head. Empty ones before the first are passed over.
fn heard(said: Said, line: &[u8], largest: usize) -> Said {
    let mut said = said;
    if said.begun {
        said.headers = said.headers.saturating_add(1);
        said.bad = said.bad || !is_field(line);
        said = heard_field(said, line, largest);
    } else if !line.is_empty() {
        said.begun = true;
        said.bad = !is_request_line(line);
        said.modern = line.ends_with(b"HTTP/1.1");
    }
    said
}

/// What was said, with one more header.
fn heard_field(said: Said, line: &[u8], largest: usize) -> Said {
    let mut said = said;
    let (name, value) = split_at(line, b':');
    let value = value.trim_ascii();
    if name.eq_ignore_ascii_case(b"expect") {
        // Any other expectation is passed over, as who reads the line does.
        said.asks = said.asks || value.eq_ignore_ascii_case(b"100-continue");
    } else if name.eq_ignore_ascii_case(b"transfer-encoding") {
        said.strange = true;
    } else if name.eq_ignore_ascii_case(b"content-length") {
        said.strange = said.strange || said.body.is_some();
        said.body = number(value, largest);
        said.strange = said.strange || said.body.is_none();
    }
    said
}

/// Whether a whole line is a method, a target and a version, with one space between each two (RFC 9112, section 3).
fn is_request_line(line: &[u8]) -> bool {
    let (method, rest) = split_at(line, b' ');
    let (target, version) = split_at(rest, b' ');
    is_token(method) && is_target(target) && is_known_version(version)
}

/// Whether bytes can be the beginning of such a line. Which bytes the target has, but for a carriage return, is asked once its end is
/// there.
fn begins_request_line(bytes: &[u8]) -> bool {
    let (method, rest) = split_at(bytes, b' ');
    if method.len() == bytes.len() {
        return are_token_bytes(method);
    }
    let (target, version) = split_at(rest, b' ');
    if target.len() == rest.len() {
        return is_token(method) && !target.contains(&b'\r');
    }
    is_token(method) && is_target(target) && begins_version(version)
}

fn is_known_version(version: &[u8]) -> bool {
    version == b"HTTP/1.1".as_slice() || version == b"HTTP/1.0".as_slice()
}

fn begins_version(bytes: &[u8]) -> bool {
    b"HTTP/1.1\r".starts_with(bytes) || b"HTTP/1.0\r".starts_with(bytes)
}

/// Whether a whole line is a header: a name, a colon and a value (RFC 9112, section 5).
fn is_field(line: &[u8]) -> bool {
    let (name, value) = split_at(line, b':');
    name.len() < line.len() && is_token(name) && are_value_bytes(value)
}

/// Whether bytes can be the beginning of such a line.
fn begins_field(bytes: &[u8]) -> bool {
    let (name, value) = split_at(bytes, b':');
    if name.len() == bytes.len() {
        return are_token_bytes(name);
    }
    is_token(name) && are_value_bytes(without_cr(value))
}

fn is_token(bytes: &[u8]) -> bool {
    !bytes.is_empty() && are_token_bytes(bytes)
}

fn are_token_bytes(bytes: &[u8]) -> bool {
    bytes.iter().all(is_token_byte)
}

/// Whether a method or the name of a header may have that byte (RFC 9110, section 5.6.2).
fn is_token_byte(byte: &u8) -> bool {
    byte.is_ascii_alphanumeric() || b"!#$%&'*+-.^_`|~".contains(byte)
}

/// Whether bytes are a target, as `httparse` takes it: visible ones, and text.
fn is_target(bytes: &[u8]) -> bool {
    !bytes.is_empty() && bytes.iter().all(is_target_byte) && str::from_utf8(bytes).is_ok()
}

fn is_target_byte(byte: &u8) -> bool {
    *byte > b' ' && *byte != 127
}

fn are_value_bytes(bytes: &[u8]) -> bool {
    bytes.iter().all(is_value_byte)
}

/// Whether the value of a header may have that byte: no control but the tab.
fn is_value_byte(byte: &u8) -> bool {
    *byte == b'\t' || *byte >= b' ' && *byte != 127
}

/// What stands before the first such byte, and behind it.
fn split_at(bytes: &[u8], byte: u8) -> (&[u8], &[u8]) {
    match bytes.iter().position(|it| *it == byte) {
        Some(at) => (&bytes[..at], &bytes[at + 1..]),
        None => (bytes, b""),
    }
}

fn without_cr(line: &[u8]) -> &[u8] {
    match line.split_last() {
        Some((b'\r', front)) => front,
        _ => line,
    }
}

/// The number that the digits write, where it is the length of a body that is read ahead.
fn number(digits: &[u8], largest: usize) -> Option<usize> {
    if digits.is_empty() || digits.len() > DIGITS {
        return None;
    }
    let mut sum = 0usize;
    for digit in digits {
        if !digit.is_ascii_digit() {
            return None;
        }
        sum = sum
            .saturating_mul(10)
            .saturating_add((*digit & 15) as usize);
    }
    if sum <= largest { Some(sum) } else { None }
}
