//! What the lines of a log say. The moments are those of Python's `datetime`; the rest is by hand, from the description of the log in
//! docs/OPERATING.md.
use gate_base::{Bytes, Memory};
use std::alloc::Global;
use std::net::SocketAddr;
use wire_log::{
    Cause, Entry, append_request_for_log, log_entry_line, logged_cause_of_answer, moment_text,
};

#[test]
fn moments_are_written(rt: HostRuntime) {
    assert_eq!(rt;
        &moment_text(1_795_869_296_789),
        b"2026-11-28T12:34:56.789Z"
    );
    assert_eq!(rt;
        &moment_text(1_709_251_199_999),
        b"2024-02-29T23:59:59.999Z"
    );
    assert_eq!(rt; &moment_text(0), b"1970-01-01T00:00:00.000Z");
    assert_eq!(rt; &moment_text(978_220_800_001), b"2000-12-31T00:00:00.001Z");
    assert_eq!(rt;
        &moment_text(4_107_575_287_006),
        b"2100-03-01T09:08:07.006Z"
    );
    assert_eq!(rt;
        &moment_text(253_402_300_799_999),
        b"9999-12-31T23:59:59.999Z"
    );
    assert_eq!(rt; &moment_text(u64::MAX), b"9999-12-31T23:59:59.999Z");
}

/// What the log shows of a request with that first line.
fn shown(alloc: Global, line: &[u8]) -> Result<Bytes, Memory> {
    let mut text = Bytes::new(alloc);
    append_request_for_log(&mut text, line)?;
    Ok(text)
}

fn is_shown(rt: &HostRuntime, line: &[u8], wanted: &[u8]) -> bool {
    match shown(rt.alloc(), line) {
        Ok(text) => text.as_slice() == wanted,
        Err(_) => false,
    }
}

#[test]
fn requests_are_shown(rt: HostRuntime) {
    assert!(rt; is_shown(&rt, b"GET /a/b%20c?x=1&y HTTP/1.1", b"GET /a/b%20c?x=1&y"));
    assert!(rt;
        is_shown(
            &rt,
            b"GET /a\\\x80\x7f\t? HTTP/1.1",
            b"GET /a\\x5c\\x80\\x7f\\x09?"
        )
    );
    assert!(rt; is_shown(&rt, b"GET /a", b"GET /a"));
    assert!(rt; is_shown(&rt, b"GET http://u:p@h/a HTTP/1.1", b"GET -"));
    assert!(rt; is_shown(&rt, b"GET", b"GET -"));
    assert!(rt; is_shown(&rt, b"X-Auth-Token: secret", b"- -"));
    assert!(rt; is_shown(&rt, b"", b"- -"));
}

#[test]
fn values_that_sign_are_hidden(rt: HostRuntime) {
    let plain = b"GET /a?X-Amz-Signature=12&x=X-Amz-Signature=3&X-Amz-Credential=a/b HTTP/1.1";
    assert!(rt;
        is_shown(
            &rt,
            plain,
            b"GET /a?X-Amz-Signature=...&x=X-Amz-Signature=3&X-Amz-Credential=..."
        )
    );
    let escaped = b"GET /a?x-amz-%53ecurity-tokeN=1=2&X-Amz-Signature&X-Amz-SignatureX=1 HTTP/1.1";
    assert!(rt;
        is_shown(
            &rt,
            escaped,
            b"GET /a?x-amz-%53ecurity-tokeN=...&X-Amz-Signature&X-Amz-SignatureX=1"
        )
    );
    assert!(rt;
        is_shown(
            &rt,
            b"GET /a?X-Amz-Signature%3D=1&X-Amz-Signatur%65=2",
            b"GET /a?X-Amz-Signature%3D=1&X-Amz-Signatur%65=..."
        )
    );
    assert!(rt;
        is_shown(
            &rt,
            b"GET /a?AWSAccessKeyId=KEY&Expires=60&Signature=ab%2Fc%3D&Signatures=1 HTTP/1.1",
            b"GET /a?AWSAccessKeyId=KEY&Expires=60&Signature=...&Signatures=1"
        )
    );
}

#[test]
fn an_entry_has_twelve_fields(rt: HostRuntime) {
    let peer: Option<SocketAddr> = "192.0.2.7:51234".parse().ok();
    assert!(rt; peer.is_some());
    let entry = Entry {
        moment: 1_795_869_296_789,
        connection: 17,
        request: Some(b"GET /photos/a HTTP/1.1"),
        status: b"200",
        id: b"c0ffee",
        bytes: Some(1834),
        slow: false,
        calls: 3,
        took: 12,
        peer,
        key: Some(b"AKIA1"),
        waited: 250,
    };
    let wanted: &[u8] =
        b"2026-11-28T12:34:56.789Z 17 GET /photos/a 200 c0ffee 1834 3 12 192.0.2.7:51234 AKIA1 250\n";
    let line = log_entry_line(rt.alloc(), &entry);
    assert!(rt; line.is_ok_and(|line| line.as_slice() == wanted));
    let unknown = Entry {
        moment: 0,
        connection: 1,
        request: None,
        status: b"503",
        id: b"-",
        bytes: None,
        slow: false,
        calls: 0,
        took: 0,
        peer: None,
        key: None,
        waited: 0,
    };
    let wanted: &[u8] = b"1970-01-01T00:00:00.000Z 1 - - 503 - - 0 0 - - 0\n";
    let line = log_entry_line(rt.alloc(), &unknown);
    assert!(rt; line.is_ok_and(|line| line.as_slice() == wanted));
    let slow = Entry {
        slow: true,
        ..unknown
    };
    let wanted: &[u8] = b"1970-01-01T00:00:00.000Z 1 - - 503 - slow 0 0 - - 0\n";
    let line = log_entry_line(rt.alloc(), &slow);
    assert!(rt; line.is_ok_and(|line| line.as_slice() == wanted));
}

#[test]
fn an_answer_that_spells_nothing_has_a_cause(rt: HostRuntime) {
    assert_eq!(rt;
        logged_cause_of_answer(b"HTTP/1.1 401 Unauthorized\r\n\r\n"),
        Cause::Answered(401)
    );
    assert_eq!(rt;
        logged_cause_of_answer(b"HTTP/1.1 403 Forbidden\r\n\r\n"),
        Cause::Answered(403)
    );
    assert_eq!(rt;
        logged_cause_of_answer(b"HTTP/1.1 500 x\r\n\r\n"),
        Cause::Unread(500)
    );
    assert_eq!(rt; logged_cause_of_answer(b""), Cause::Other);
}
