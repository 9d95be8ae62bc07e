//! Checksums beside the bytes that they are of.
ghost use Rattle.std.specs.Prelude.{◌≡◌, IfOk};
ghost use Rattle.extended.specs.Checked.{comparison_code, first_code, kind_code};
ghost use Rattle.checksums.specs.Kinds.{checksum_kind};

use checksums::{Comparison, checksum_kind, compare_checksum};
use gate_base::{Memory, Pair};
use s3_machine::{Code, Proper};
use std::alloc::Global;

/// The code of the first checksum that isn't that of the bytes: BadDigest, or InvalidRequest where it is no checksum of its kind.
#[tactic(auto, unfolding(crate::specs::Checked::first_code))]
pub(crate) fn first_checksum_code(
    alloc: Global,
    checksums: &[Pair],
    bytes: &[u8],
) -> Result<Option<Proper<Code>>, Memory>
    ensures { IfOk result (λ code. code ≡ first_code bytes.now checksums.now) }
{
    for checksum in checksums {
        let code = checksum_code(alloc, checksum, bytes)?;
        if code.is_some() {
            return Ok(code);
        }
    }
    Ok(None)
}

fn checksum_code(
    alloc: Global,
    checksum: &Pair,
    bytes: &[u8],
) -> Result<Option<Proper<Code>>, Memory>
    ensures { IfOk result (λ code. code
        ≡ kind_code (checksum_kind checksum.now.name) checksum.now.value bytes.now) }
{
    match checksum_kind(checksum.name.as_slice()) {
        Some(kind) => {
            let comparison = compare_checksum(alloc, kind, checksum.value.as_slice(), bytes)?;
            Ok(comparison_code(comparison))
        }
        None => Ok(None),
    }
}

fn comparison_code(comparison: Comparison) -> Option<Proper<Code>>
    ensures { result ≡ comparison_code comparison }
{
    match comparison {
        Comparison::Same => None,
        Comparison::Different => Some(Proper::of(Code::BadDigest)),
        Comparison::NotAChecksum => Some(Proper::of(Code::InvalidRequest)),
    }
}
