ghost use Rattle.std.specs.Prelude.{◌≡◌, ◌++◌, flat_map, IfOk, OnOk};
ghost use Rattle.std.specs.List.{list_any};
ghost use Rattle.http_wire.specs.Print.{IsReplyStatus, page_text, memory_reply, status_line, header_line, length_line, closing_line, sent_body, is_bodiless, is_printed_content_length, phrase_of, slow_reply};

use gate_base::{Bytes, Memory, Page, Pair};
use http::StatusCode;
use std::alloc::Global;
use text_forms::append_decimal;

/// Room for the head of most replies, so that no body is moved as its text grows.
const HEAD_ROOM: usize = 1024;

/// The bytes of a page that answers a request of that method: the status line, the page's headers in their order,
/// Content-Length, which is left out for 204 and 304 and where the page has a header of that name, `Connection: close`
/// where the connection ends after the reply, an empty line, and the body, which is left out for HEAD, 204 and 304
/// (RFC 9112, sections 4 to 6; RFC 9110, sections 8.6 and 9.3.2).
pub fn print_page(alloc: Global, page: &Page, method: &[u8], closing: bool) -> Result<Bytes, Memory>
    requires { IsReplyStatus page.now.status }
    ensures { IfOk result (λ text. text ≡ page_text page.now method.now closing) }
{
    let mut text = Bytes::with_room(alloc, page.body.len().saturating_add(HEAD_ROOM))?;
    append_status(&mut text, page.status)?;
    append_headers(&mut text, page.headers.as_slice())?;
    append_length(&mut text, page)?;
    append_closing(&mut text, closing)?;
    text.append(b"\r\n")?;
    append_body(&mut text, page, method)?;
    Ok(text)
}

/// The out-of-memory reply, which takes none: it closes the connection. `head` says that the method is HEAD, and
/// then the reply has no body (this profile).
pub fn print_memory(head: bool) -> &'static [u8]
    ensures { result.now ≡ memory_reply head }
{
    if head {
        b"HTTP/1.1 500 Internal Server Error\r\nContent-Length: 0\r\nConnection: close\r\n\r\n"
    } else {
        b"HTTP/1.1 500 Internal Server Error\r\nContent-Type: application/xml\r\nContent-Length: 66\r\nConnection: close\r\n\r\n<Error><Code>InternalError</Code><Message>Memory</Message></Error>"
    }
}

/// The reply to a client whose body came too slowly, which takes no memory: it closes the connection, and has neither date nor id (this
/// profile). It is written by whoever holds the line, which is given up with it.
pub fn print_slow() -> &'static [u8]
    ensures { result.now ≡ slow_reply }
{
    b"HTTP/1.1 400 Bad Request\r\nContent-Type: application/xml\r\nContent-Length: 86\r\nConnection: close\r\n\r\n<Error><Code>RequestTimeout</Code><Message>The body came too slowly.</Message></Error>"
}

fn append_status(text: &mut Bytes, status: u16) -> Result<(), Memory>
    requires { IsReplyStatus status }
    ensures { OnOk result (text.new ≡ text.old ++ status_line status) }
{
    text.append(b"HTTP/1.1 ")?;
    append_decimal(text, u64::from(status))?;
    text.append(b" ")?;
    append_phrase(text, status)?;
    text.append(b"\r\n")
}

fn append_phrase(text: &mut Bytes, status: u16) -> Result<(), Memory>
    requires { IsReplyStatus status }
    ensures { OnOk result (text.new ≡ text.old ++ phrase_of status) }
{
    match StatusCode::from_u16(status) {
        Ok(code) => match code.canonical_reason() {
            Some(phrase) => text.append(phrase.as_bytes()),
            None => Ok(()),
        },
        Err(_) => Ok(()),
    }
}

fn append_headers(text: &mut Bytes, headers: &[Pair]) -> Result<(), Memory>
    ensures { OnOk result (text.new ≡ text.old ++ flat_map header_line headers.now) }
{
    for header in headers {
        append_header(text, header)?;
    }
    Ok(())
}

fn append_header(text: &mut Bytes, header: &Pair) -> Result<(), Memory>
    ensures { OnOk result (text.new ≡ text.old ++ header_line header.now) }
{
    text.append(header.name.as_slice())?;
    text.append(b": ")?;
    text.append(header.value.as_slice())?;
    text.append(b"\r\n")
}

fn append_length(text: &mut Bytes, page: &Page) -> Result<(), Memory>
    ensures { OnOk result (text.new ≡ text.old ++ length_line page.now) }
{
    if is_bodiless(page.status) || has_printed_content_length(page.headers.as_slice()) {
        return Ok(());
    }
    text.append(b"Content-Length: ")?;
    append_decimal(text, page.body.len() as u64)?;
    text.append(b"\r\n")
}

fn has_printed_content_length(headers: &[Pair]) -> bool
    ensures { result ≡ list_any is_printed_content_length headers.now }
{
    headers.iter().any(is_printed_content_length)
}

fn is_printed_content_length(header: &Pair) -> bool
    ensures { result ≡ is_printed_content_length header.now }
{
    header
        .name
        .as_slice()
        .eq_ignore_ascii_case(b"content-length")
}

fn is_bodiless(status: u16) -> bool
    ensures { result ≡ is_bodiless status }
{
    status == 204 || status == 304
}

fn append_closing(text: &mut Bytes, closing: bool) -> Result<(), Memory>
    ensures { OnOk result (text.new ≡ text.old ++ closing_line closing) }
{
    if closing {
        text.append(b"Connection: close\r\n")
    } else {
        Ok(())
    }
}

fn append_body(text: &mut Bytes, page: &Page, method: &[u8]) -> Result<(), Memory>
    ensures { OnOk result (text.new ≡ text.old ++ sent_body page.now method.now) }
{
    if is_bodiless(page.status) || method == b"HEAD".as_slice() {
        Ok(())
    } else {
        text.append(page.body.as_slice())
    }
}
