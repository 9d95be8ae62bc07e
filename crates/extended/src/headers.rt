//! The headers of a message that came in chunks, as they are of its data.
ghost use Rattle.std.specs.Prelude.{◌≡◌, ◌++◌, IfOk, OnOk};
ghost use Rattle.extended.specs.Chunks.{decoded_header, decoded_headers};

use chunked::without_chunked;
use gate_base::{Copying, List, Memory, Pair};
use http_wire::has_name;
use std::alloc::Global;

/// The headers, each Content-Encoding without the token `aws-chunked`, and without the header where nothing is left.
pub(crate) fn decoded_headers(alloc: Global, headers: &[Pair]) -> Result<List<Pair>, Memory>
    ensures { IfOk result (λ decoded. decoded ≡ decoded_headers headers.now) }
{
    let mut decoded = List::new(alloc);
    for header in headers {
        append_decoded_header(alloc, &mut decoded, header)?;
    }
    Ok(decoded)
}

fn append_decoded_header(
    alloc: Global,
    decoded: &mut List<Pair>,
    header: &Pair,
) -> Result<(), Memory>
    ensures { OnOk result (decoded.new ≡ decoded.old ++ decoded_header header.now) }
{
    if !has_name(header, b"content-encoding") {
        return decoded.push(header.copy()?);
    }
    let value = without_chunked(alloc, header.value.as_slice())?;
    if value.is_empty() {
        return Ok(());
    }
    let name = header.name.copy()?;
    decoded.push(Pair { name, value })
}
