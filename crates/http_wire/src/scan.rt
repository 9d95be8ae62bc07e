ghost use Rattle.std.specs.Prelude.{◌≡◌, ◌≤◌, ◌↔◌, IsTrue, length};
ghost use Rattle.std.specs.List.{list_all};
ghost use Rattle.httparse.specs.Grammar.{is_token_byte};
ghost use Rattle.http_wire.specs.FirstMessage.{EndsInside, stays_in_target};
ghost use Rattle.http_wire.specs.Scan.{has_empty, in_method, is_text, line_end_len, skip_blank, starts_empty, starts_lf, starts_method};

/// Whether the bytes end inside a target: after any empty lines a method, one space and no space, CR or LF since.
#[tactic(auto, using(crate::proofs::ScanLemmas::is_inside_decides))]
pub(crate) fn ends_inside(bytes: &[u8]) -> bool
    ensures { IsTrue result ↔ EndsInside bytes.now }
{
    starts_method(skip_lines_before_request(bytes))
}

/// The bytes after the empty lines.
#[tactic(auto, using(crate::proofs::ScanLemmas::skip_steps))]
fn skip_lines_before_request(bytes: &[u8]) -> &[u8]
    ensures { result.now ≡ skip_blank bytes.now }
{
    let mut rest = bytes;
    'lines: loop {
        let count = line_end(rest);
        if count == 0 {
            return rest;
        }
        rest = &rest[count..];
    }
}

/// Whether an empty line comes somewhere behind one that isn't empty.
#[tactic(auto, unfolding(crate::specs::Scan::has_empty))]
pub(crate) fn has_empty_head_line(bytes: &[u8]) -> bool
    ensures { result ≡ has_empty bytes.now }
{
    let mut rest = bytes;
    'bytes: while let Some((first, behind)) = rest.split_first() {
        if is_text(*first) && starts_empty(behind) {
            return true;
        }
        rest = behind;
    }
    false
}

fn is_text(byte: u8) -> bool
    ensures { result ≡ is_text byte }
{
    byte != b'\r' && byte != b'\n'
}

/// Whether a line ends here, and an empty one comes behind it.
fn starts_empty(bytes: &[u8]) -> bool
    ensures { result ≡ starts_empty bytes.now }
{
    let end = line_end(bytes);
    0 < end && 0 < line_end(&bytes[end..])
}

/// How long the line end is that stands first; 0 for none.
fn line_end(bytes: &[u8]) -> usize
    ensures within { result ≤ length bytes.now }
    ensures value { result ≡ line_end_len bytes.now }
{
    match bytes.split_first() {
        Some((first, rest)) => {
            if *first == b'\n' {
                1
            } else if *first == b'\r' && starts_lf(rest) {
                2
            } else {
                0
            }
        }
        None => 0,
    }
}

fn starts_lf(bytes: &[u8]) -> bool
    ensures within { IsTrue result → 1 ≤ length bytes.now }
    ensures value { result ≡ starts_lf bytes.now }
{
    match bytes.split_first() {
        Some((first, _)) => *first == b'\n',
        None => false,
    }
}

/// Whether the bytes are a method, a space and a target so far.
fn starts_method(bytes: &[u8]) -> bool
    ensures { result ≡ starts_method bytes.now }
{
    match bytes.split_first() {
        Some((first, rest)) => is_token_byte(*first) && in_method(rest),
        None => false,
    }
}

/// Whether the bytes are the rest of a method, a space and a target so far.
#[tactic(auto, using(crate::proofs::ScanLemmas::method_steps))]
fn in_method(bytes: &[u8]) -> bool
    ensures { result ≡ in_method bytes.now }
{
    let mut rest = bytes;
    'bytes: while let Some((first, tail)) = rest.split_first() {
        if *first == b' ' {
            return stays_in_target(tail);
        }
        if !is_token_byte(*first) {
            return false;
        }
        rest = tail;
    }
    false
}

fn stays_in_target(bytes: &[u8]) -> bool
    ensures { result ≡ list_all stays_in_target bytes.now }
{
    bytes
        .iter()
        .all(|byte| *byte != b' ' && (*byte != b'\r' && *byte != b'\n'))
}

#[tactic(auto, unfolding(httparse::specs::Grammar::is_token_byte))]
fn is_token_byte(byte: u8) -> bool
    ensures { result ≡ is_token_byte byte }
{
    byte.is_ascii_alphanumeric() || b"!#$%&'*+-.^_`|~".contains(&byte)
}
