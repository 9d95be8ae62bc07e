//! Whether a connection ends after the reply to a request.
ghost use Rattle.std.specs.Prelude.{◌≡◌, codes};
ghost use Rattle.std.specs.List.{list_any};
ghost use Rattle.http_wire.specs.Headers.{values_of};
ghost use Rattle.http_wire.specs.Closing.{is_close, is_comma, has_close, is_closing};

use crate::headers::has_name;
use crate::message::Message;
use gate_base::Pair;
use text_forms::without_blanks;

/// Whether the connection ends after the reply to a request: one of HTTP/1.0, or one whose Connection header has the
/// word `close` in any case (RFC 9112 section 9.3, RFC 9110 section 7.6.1).
pub fn closes(message: &Message) -> bool
    ensures { result ≡ is_closing message.now }
{
    message.old || close_header(message.headers.as_slice())
}

fn close_header(headers: &[Pair]) -> bool
    ensures { result ≡ list_any has_close (values_of (codes "connection") headers.now) }
{
    for header in headers {
        if has_name(header, b"connection") && header_value_has_close(header.value.as_slice()) {
            return true;
        }
    }
    false
}

/// Whether one of the pieces between the commas is the word.
fn header_value_has_close(value: &[u8]) -> bool
    ensures { result ≡ has_close value.now }
{
    value
        .split(|byte| is_header_comma(*byte))
        .any(|piece| close_word(piece))
}

fn is_header_comma(byte: u8) -> bool
    ensures { result ≡ is_comma byte }
{
    byte == b','
}

fn close_word(piece: &[u8]) -> bool
    ensures { result ≡ is_close piece.now }
{
    without_blanks(piece).eq_ignore_ascii_case(b"close")
}
