//! What stands against an operation that is meant.
ghost use Rattle.std.specs.Prelude.{◌≡◌, ◌≢◌, IfOk, option_map};
ghost use Rattle.s3_requests.specs.declared.meant.Meant.TheVariants as variant;
ghost use Rattle.extended.specs.Checked.{checked, objection, objection_by, stored_bytes};

use crate::Claims;
use crate::compared::first_checksum_code;
use gate_base::Memory;
use s3_machine::{Code, ObjectsOp, Op, Proper, UploadsOp};
use s3_requests::Meant;
use std::alloc::Global;
use std::mem;

/// What is meant becomes what it is by what the message says of its body besides.
pub(crate) fn check_meaning(alloc: Global, claims: &Claims, means: &mut Meant)
    ensures { means.new ≢ variant.Memory → means.new ≡ checked claims.now means.old }
{
    match objection_to(alloc, claims, means) {
        Ok(None) => {}
        Ok(Some(code)) => replace_meaning(means, Meant::Refused(code)),
        Err(_) => replace_meaning(means, Meant::Memory),
    }
}

fn replace_meaning(means: &mut Meant, other: Meant)
    ensures { means.new ≡ other }
{
    drop(mem::replace(means, other));
}

fn objection_to(
    alloc: Global,
    claims: &Claims,
    means: &Meant,
) -> Result<Option<Proper<Code>>, Memory>
    ensures { IfOk result (λ code. code ≡ objection claims.now means.now) }
{
    match means {
        Meant::Op(op) => objection_to_op(alloc, claims, op),
        Meant::Refused(_) | Meant::Memory => Ok(None),
    }
}

fn objection_to_op(alloc: Global, claims: &Claims, op: &Op) -> Result<Option<Proper<Code>>, Memory>
    ensures { IfOk result (λ code. code ≡ objection_by claims.now (stored_bytes op.now)) }
{
    match stored_bytes(op) {
        Some(bytes) => objection_to_bytes(alloc, claims, bytes),
        None => Ok(objection_to_others(claims)),
    }
}

fn objection_to_bytes(
    alloc: Global,
    claims: &Claims,
    bytes: &[u8],
) -> Result<Option<Proper<Code>>, Memory>
    ensures { IfOk result (λ code. code ≡ objection_by claims.now (Some bytes.now)) }
{
    if claims.misnamed {
        return Ok(Some(Proper::of(Code::InvalidRequest)));
    }
    first_checksum_code(alloc, claims.checksums.as_slice(), bytes)
}

fn objection_to_others(claims: &Claims) -> Option<Proper<Code>>
    ensures { result ≡ objection_by claims.now None }
{
    if claims.chunked {
        Some(Proper::of(Code::NotImplemented))
    } else {
        None
    }
}

/// The bytes that an operation stores, as an object or a part.
#[tactic(auto, unfolding(crate::specs::Checked::stored_bytes))]
fn stored_bytes(op: &Op) -> Option<&[u8]>
    ensures { option_map (λ bytes. bytes.now) result ≡ stored_bytes op.now }
{
    match op {
        Op::OnObjects(ObjectsOp::PutObject(put)) => Some(put.content.get().body.as_slice()),
        Op::OnUploads(UploadsOp::UploadPart(part)) => Some(part.body.get().as_slice()),
        _ => None,
    }
}
