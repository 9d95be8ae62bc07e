//! The headers of a message, looked up by their names, which are in lower case.
ghost use Rattle.std.specs.Prelude.{◌≡◌, count_by, find, IfOk};
ghost use Rattle.std.specs.Option.{option_copied};
ghost use Rattle.http_wire.specs.Headers.{has_name, has_header, has_single_header, first_value, values_of, text_of};

use crate::join::joined;
use gate_base::{Bytes, Copying, List, Memory, Pair};
use std::alloc::Global;

/// Whether the header has the name.
pub fn has_name(header: &Pair, name: &[u8]) -> bool
    ensures { result ≡ has_name name.now header.now }
{
    header.name.as_slice() == name
}

/// Whether some header has the name.
pub fn has_header(headers: &[Pair], name: &[u8]) -> bool
    ensures { result ≡ has_header name.now headers.now }
{
    headers.iter().any(|header| has_name(header, name))
}

/// Whether exactly one header has the name.
pub fn has_single_header(headers: &[Pair], name: &[u8]) -> bool
    ensures { result ≡ has_single_header name.now headers.now }
{
    count_headers(headers, name) == 1
}

/// How many headers have the name.
pub(crate) fn count_headers(headers: &[Pair], name: &[u8]) -> usize
    ensures { result ≡ count_by (has_name name.now) headers.now }
{
    headers
        .iter()
        .filter(|header| has_name(header, name))
        .count()
}

/// The value of the first header of a name, no byte where there is none.
pub fn first_value<'a>(headers: &'a [Pair], name: &[u8]) -> &'a [u8]
    ensures { result.now ≡ first_value name.now headers.now }
{
    match first_header(headers, name) {
        Some(header) => header.value.as_slice(),
        None => b"",
    }
}

fn first_header<'a>(headers: &'a [Pair], name: &[u8]) -> Option<&'a Pair>
    ensures { option_copied result ≡ find (has_name name.now) headers.now }
{
    headers.iter().find(|header| has_name(header, name))
}

/// The values of the headers of a name, in their order.
pub fn values_of(alloc: Global, headers: &[Pair], name: &[u8]) -> Result<List<Bytes>, Memory>
    ensures { IfOk result (λ values. values ≡ values_of name.now headers.now) }
{
    let mut values = List::new(alloc);
    for header in headers {
        if has_name(header, name) {
            values.push(header.value.copy()?)?;
        }
    }
    Ok(values)
}

/// The values of the headers of a name in their order, with `,` between each two (RFC 9110, section 5.3); no byte where
/// there is none.
pub fn text_of(alloc: Global, headers: &[Pair], name: &[u8]) -> Result<Bytes, Memory>
    ensures { IfOk result (λ text. text ≡ text_of name.now headers.now) }
{
    let values = values_of(alloc, headers, name)?;
    joined(alloc, b',', values.as_slice())
}
