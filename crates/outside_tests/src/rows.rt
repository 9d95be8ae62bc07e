//! Rows as SQLite's tables have them, by hand; the hashes are those of Python's `hashlib`.

use gate_base::{Bytes, Memory};
use object_rows::{Row, RowFault, from_row, to_row};
use std::alloc::Global;
use swift_calls::Content;

const HELLO: &[u8] = b"5d41402abc4b2a76b9719d911017c592";

const LISTED: &[u8] =
    b"[{\"etag\":\"5d41402abc4b2a76b9719d911017c592\",\"path\":\"/c/1\",\"size_bytes\":5}]";

/// The hash of a list of that one segment: that of its ETag.
const LISTED_HASH: &[u8] = b"69a329523ce1ec88bf63061863d9cb14";

fn row(
    alloc: Global,
    kind: u64,
    meta: &[u8],
    size: u64,
    hash: &[u8],
    body: &[u8],
) -> Result<Row, Memory> {
    Ok(Row {
        kind,
        content_type: Bytes::from_slice(alloc, b"text/plain")?,
        meta: Bytes::from_slice(alloc, meta)?,
        size,
        hash: Bytes::from_slice(alloc, hash)?,
        body: Bytes::from_slice(alloc, body)?,
    })
}

/// What is read of such a row: the fault, or whether the row of what was read is the same.
fn is_read(
    rt: &HostRuntime,
    kind: u64,
    meta: &[u8],
    size: u64,
    hash: &[u8],
    body: &[u8],
) -> Result<bool, RowFault> {
    let row = row(rt.alloc(), kind, meta, size, hash, body)?;
    let object = from_row(rt.alloc(), b"k", &row)?;
    let again = to_row(rt.alloc(), &object)?;
    Ok(
        again.kind == kind
            && again.content_type.as_slice() == b"text/plain".as_slice()
            && again.meta.as_slice() == meta
            && again.size == size
            && again.hash.as_slice() == hash
            && again.body.as_slice() == body,
    )
}

#[test]
fn a_row_of_bytes_is_read(rt: HostRuntime) {
    assert_eq!(rt; is_read(&rt, 0, b"", 5, HELLO, b"hello"), Ok(true));
    assert_eq!(rt;
        is_read(&rt, 0, b"3.a:10.10. 1.b:2 3.4", 5, HELLO, b"hello"),
        Ok(true)
    );
    assert_eq!(rt;
        is_read(&rt, 0, b"", 0, b"d41d8cd98f00b204e9800998ecf8427e", b""),
        Ok(true)
    );
}

/// Whether the object of such a row has what its columns say, with these own bytes and two pieces of metadata.
fn is_told(rt: &HostRuntime, content_type: &[u8]) -> Result<bool, RowFault> {
    let mut row = row(rt.alloc(), 0, b"3.a:10.", 5, HELLO, b"hello")?;
    row.content_type = Bytes::from_slice(rt.alloc(), content_type)?;
    let object = from_row(rt.alloc(), b"a/k", &row)?;
    let [first, second] = object.meta.as_slice() else {
        return Ok(false);
    };
    let Content::Plain(bytes) = &object.content else {
        return Ok(false);
    };
    Ok(
        object.name.as_slice() == b"a/k".as_slice()
            && object.content_type.as_slice() == content_type
            && first.as_slice() == b"a:1".as_slice()
            && second.is_empty()
            && bytes.as_slice() == b"hello".as_slice(),
    )
}

/// Whether a row of that list is an object that lists its one segment.
fn is_listed(rt: &HostRuntime) -> Result<bool, RowFault> {
    let row = row(rt.alloc(), 1, b"", 5, LISTED_HASH, LISTED)?;
    let object = from_row(rt.alloc(), b"k", &row)?;
    let Content::Segments(segments) = &object.content else {
        return Ok(false);
    };
    let [segment] = segments.as_slice() else {
        return Ok(false);
    };
    Ok(
        segment.container.as_slice() == b"c".as_slice()
            && segment.name.as_slice() == b"1".as_slice()
            && segment.etag.as_slice() == HELLO
            && segment.size == 5,
    )
}

#[test]
fn an_object_has_what_the_columns_say(rt: HostRuntime) {
    assert_eq!(rt; is_told(&rt, b"text/plain"), Ok(true));
    assert_eq!(rt; is_told(&rt, b""), Ok(true));
    assert_eq!(rt; is_told(&rt, &[0, 255]), Ok(true));
    assert_eq!(rt; is_listed(&rt), Ok(true));
}

#[test]
fn a_row_with_a_wrong_column_is_not(rt: HostRuntime) {
    let unread = Err(RowFault::Unread);
    assert_eq!(rt; is_read(&rt, 1, b"", 5, HELLO, b"hello"), unread);
    assert_eq!(rt; is_read(&rt, 2, b"", 5, HELLO, b"hello"), unread);
    assert_eq!(rt; is_read(&rt, u64::MAX, b"", 5, HELLO, b"hello"), unread);
    assert_eq!(rt; is_read(&rt, 0, b"", 4, HELLO, b"hello"), unread);
    assert_eq!(rt; is_read(&rt, 0, b"", 6, HELLO, b"hello"), unread);
    assert_eq!(rt; is_read(&rt, 0, b"", 5, &HELLO[..31], b"hello"), unread);
    assert_eq!(rt;
        is_read(
            &rt,
            0,
            b"",
            5,
            b"5D41402ABC4B2A76B9719D911017C592",
            b"hello"
        ),
        unread
    );
    assert_eq!(rt; is_read(&rt, 0, b"", 5, HELLO, b"hellp"), unread);
}

#[test]
fn a_row_with_metadata_that_is_not_joined_is_not(rt: HostRuntime) {
    let unread = Err(RowFault::Unread);
    for meta in [
        b"3.a:", b"01.a", b"3a:1", b"x.ab", b".abc", b"1.ab", b"+1.a", b"1 .a",
    ] {
        assert_eq!(rt; is_read(&rt, 0, meta, 5, HELLO, b"hello"), unread);
    }
    // A length of 2^64 + 1.
    let meta = b"18446744073709551617.a";
    assert_eq!(rt; is_read(&rt, 0, meta, 5, HELLO, b"hello"), unread);
}

#[test]
fn a_row_of_a_list_is_read_where_its_text_is_the_list(rt: HostRuntime) {
    let unread = Err(RowFault::Unread);
    assert_eq!(rt; is_read(&rt, 1, b"", 5, LISTED_HASH, LISTED), Ok(true));
    assert_eq!(rt; is_read(&rt, 0, b"", 5, LISTED_HASH, LISTED), unread);
    assert_eq!(rt; is_read(&rt, 2, b"", 5, LISTED_HASH, LISTED), unread);
    assert_eq!(rt; is_read(&rt, 1, b"", 6, LISTED_HASH, LISTED), unread);
    assert_eq!(rt; is_read(&rt, 1, b"", 5, HELLO, LISTED), unread);
    assert_eq!(rt; is_read(&rt, 1, b"", 5, LISTED_HASH, b"[ ]"), unread);
    assert_eq!(rt;
        is_read(&rt, 1, b"", 0, b"d41d8cd98f00b204e9800998ecf8427e", b"[]"),
        unread
    );
}
