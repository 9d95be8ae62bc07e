//! What a request to delete many keys asks for beside its bucket.
ghost use Rattle.s3_machine.specs.Proper.{IsProperKeys};
ghost use Rattle.std.specs.Prelude.{◌≡◌, IfOk};
ghost use Rattle.s3_bodies.specs.Deletes.{deletes_in};
ghost use Rattle.s3_requests.specs.Deletes.{deletes_asked, taken_deletes};

use crate::rows::Row;
use gate_base::{List, Memory};
use s3_bodies::{BodyFault, Deletes, read_delete};
use s3_machine::{ObjectsDeletion, ObjectsOp, Op, Proper};
use s3_names::BucketName;
use std::alloc::Global;

/// What the body asks to delete of a row that deletes many keys, and no key for any other row. `None` where it can't be
/// read, or lists too many keys. The body is read once.
pub fn taken_deletes(alloc: Global, row: Row, body: &[u8]) -> Result<Option<Deletes>, Memory>
    ensures { IfOk result (λ deletes. deletes ≡ taken_deletes row body.now) }
{
    match row {
        Row::DeleteObjects => taken_deletes_in(alloc, body),
        _ => Ok(Some(Deletes {
            keys: List::new(alloc),
            quiet: false,
        })),
    }
}

fn taken_deletes_in(alloc: Global, body: &[u8]) -> Result<Option<Deletes>, Memory>
    ensures { IfOk result (λ deletes. deletes ≡ deletes_in body.now) }
{
    match read_delete(alloc, body) {
        Ok(deletes) => Ok(Some(deletes)),
        Err(BodyFault::NotTheBody(_) | BodyFault::TooMany) => Ok(None),
        Err(BodyFault::Memory) => Err(Memory),
    }
}

/// What DeleteObjects asks for, of a bucket.
pub fn deletes_asked(bucket: BucketName, deletes: Deletes) -> Op
    requires { IsProperKeys deletes.keys }
    ensures { result ≡ deletes_asked bucket deletes }
{
    Op::OnObjects(ObjectsOp::DeleteObjects(ObjectsDeletion {
        bucket,
        keys: Proper::of(deletes.keys),
        quiet: deletes.quiet,
    }))
}
