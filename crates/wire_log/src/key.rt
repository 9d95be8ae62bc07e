//! Whose key a request names, as a log shows it: what its client claims, whether or not it signed by it.

use crate::target::{logged_query, spells_word_hidden_in_log, split_logged_text};

/// How an Authorization header of Signature Version 4 begins.
const ALGORITHM: &[u8] = b"AWS4-HMAC-SHA256";

const CREDENTIAL: &[u8] = b"Credential=";

/// The parameter of a presigned address that names the key.
const QUERY_CREDENTIAL: &[u8] = b"x-amz-credential";

/// The most letters and digits of a key's id.
const LONGEST_KEY: usize = 128;

/// How many pieces of a header, or parameters of a query, are looked at.
const MOST_PIECES: usize = 100;

/// The key's id in the value of an Authorization header; none where there is no credential that begins with one.
pub(crate) fn logged_key_of_header(value: &[u8]) -> Option<&[u8]> {
    if !value.starts_with(ALGORITHM) {
        return None;
    }
    let mut rest = &value[ALGORITHM.len()..];
    for _piece in 0..MOST_PIECES {
        let (piece, behind) = split_logged_text(rest, b',');
        let piece = piece.trim_ascii();
        if piece.starts_with(CREDENTIAL) {
            return logged_key_id(&piece[CREDENTIAL.len()..]);
        }
        rest = behind;
    }
    None
}

/// The key's id in the query of a request's first line.
pub(crate) fn logged_key_of_query(line: &[u8]) -> Option<&[u8]> {
    let mut rest = logged_query(line);
    for _parameter in 0..MOST_PIECES {
        let (parameter, behind) = split_logged_text(rest, b'&');
        let (name, value) = split_logged_text(parameter, b'=');
        if spells_word_hidden_in_log(name, QUERY_CREDENTIAL) {
            return logged_key_id(value);
        }
        rest = behind;
    }
    None
}

/// What stands before the first slash of a credential, which may be escaped, where it is 1 to 128 letters and digits, as a key's id is.
fn logged_key_id(credential: &[u8]) -> Option<&[u8]> {
    let end = match credential
        .iter()
        .position(|byte| !byte.is_ascii_alphanumeric())
    {
        Some(end) => end,
        None => return None,
    };
    let (id, behind) = (&credential[..end], &credential[end..]);
    if 0 < id.len() && id.len() <= LONGEST_KEY && begins_with_logged_slash(behind) {
        Some(id)
    } else {
        None
    }
}

fn begins_with_logged_slash(text: &[u8]) -> bool {
    text.starts_with(b"/") || text.starts_with(b"%2F") || text.starts_with(b"%2f")
}
