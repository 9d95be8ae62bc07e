//! Which headers a request may be answered 501 for.

/// Headers that ask for what s3gate doesn't have, by how their names begin.
const KINDS: [&[u8]; 10] = [
    b"transfer-encoding",
    b"x-amz-acl",
    b"x-amz-bucket-object-lock",
    b"x-amz-copy-source-if-",
    b"x-amz-grant-",
    b"x-amz-object-lock",
    b"x-amz-security-token",
    b"x-amz-server-side-encryption",
    b"x-amz-tagging",
    b"x-amz-website-redirect-location",
];

/// Whether a request of that first line may be answered 501 for a header.
pub(crate) fn is_refusable_header(first: &[u8], name: &[u8], value: &[u8]) -> bool {
    KINDS.iter().any(|kind| starts_with_logged_name(name, kind))
        || is_refusable_by_value(name, value)
        || is_refusable_condition(first, name)
}

/// A signature of chunks, chunks themselves, and a version of a copy's source.
fn is_refusable_by_value(name: &[u8], value: &[u8]) -> bool {
    if name.eq_ignore_ascii_case(b"x-amz-content-sha256") {
        value.starts_with(b"STREAMING-")
    } else if name.eq_ignore_ascii_case(b"content-encoding") {
        has_logged_part(value, b"aws-chunked")
    } else {
        name.eq_ignore_ascii_case(b"x-amz-copy-source") && value.contains(&b'?')
    }
}

/// A condition on the ETag, where it isn't for a read.
fn is_refusable_condition(first: &[u8], name: &[u8]) -> bool {
    let is_read = first.starts_with(b"GET ") || first.starts_with(b"HEAD ");
    !is_read
        && (name.eq_ignore_ascii_case(b"if-match") || name.eq_ignore_ascii_case(b"if-none-match"))
}

fn starts_with_logged_name(name: &[u8], kind: &[u8]) -> bool {
    kind.len() <= name.len() && name[..kind.len()].eq_ignore_ascii_case(kind)
}

fn has_logged_part(text: &[u8], part: &[u8]) -> bool {
    let mut rest = text;
    for _byte in 0..text.len() {
        if rest.starts_with(part) {
            return true;
        }
        rest = match rest {
            [_, behind @ ..] => behind,
            [] => b"",
        };
    }
    false
}
