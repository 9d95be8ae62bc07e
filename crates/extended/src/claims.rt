//! What a message says of its body besides.
ghost use Rattle.std.specs.Prelude.{◌≡◌, ◌++◌, IfOk, OnOk, filter};
ghost use Rattle.extended.specs.Checked.{claims_of, is_checksum};

use crate::Sender;
use crate::trailers::misnames_trailers;
use checksums::checksum_kind;
use gate_base::{Copying, List, Memory, Pair};
use std::alloc::Global;

/// What a message says of its body besides: whether that came in chunks, whether the trailers aren't those which `x-amz-trailer`
/// names, and the checksums in its headers and, behind them, in its trailers.
#[derive(Debug, Drop)]
pub struct Claims {
    pub chunked: bool,
    pub misnamed: bool,
    pub checksums: List<Pair>,
}

/// What a message of these headers says of its body.
pub(crate) fn claims_of(alloc: Global, headers: &[Pair], sender: &Sender) -> Result<Claims, Memory>
    ensures { IfOk result (λ claims. claims ≡ claims_of headers.now sender.now) }
{
    let trailers = sender.trailers.as_slice();
    let misnamed = misnames_trailers(alloc, headers, trailers)?;
    let mut checksums = List::new(alloc);
    append_checksums(&mut checksums, headers)?;
    append_checksums(&mut checksums, trailers)?;
    Ok(Claims {
        chunked: sender.chunked,
        misnamed,
        checksums,
    })
}

/// Adds those of the headers that have the name of a checksum.
fn append_checksums(checksums: &mut List<Pair>, headers: &[Pair]) -> Result<(), Memory>
    ensures { OnOk result (checksums.new ≡ checksums.old ++ filter is_checksum headers.now) }
{
    for header in headers {
        if is_checksum(header) {
            checksums.push(header.copy()?)?;
        }
    }
    Ok(())
}

fn is_checksum(header: &Pair) -> bool
    ensures { result ≡ is_checksum header.now }
{
    checksum_kind(header.name.as_slice()).is_some()
}
