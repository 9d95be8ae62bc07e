//! The reply to an operation, by the end of its plan.
ghost use Rattle.std.specs.Prelude.{◌≡◌};
ghost use Rattle.s3_machine.specs.declared.operation.Reply.TheVariants.{Stored};
ghost use Rattle.account_calls.specs.Plan.{ended, reply_of};

use crate::PlanFault;
use s3_machine::{Code, Reply, StoredBytes};

/// The reply to an operation by the end of its plan.
pub fn reply_of(end: Result<Reply, PlanFault>) -> Reply
    ensures { result ≡ reply_of end }
{
    match end {
        Ok(reply) => reply,
        Err(PlanFault::Failed) => Reply::Refused(Code::ServiceUnavailable),
        Err(PlanFault::Memory) => Reply::Memory,
        Err(PlanFault::Inconsistent) => Reply::Refused(Code::InconsistentStore),
    }
}

/// The end of a plan whose last call put what has this ETag, and of which this checksum was compared: the reply was made before it.
pub fn stored_end(end: Result<(), PlanFault>, stored: StoredBytes) -> Result<Reply, PlanFault>
    ensures { result ≡ ended end (λ done. Stored stored) }
{
    match end {
        Ok(()) => Ok(Reply::Stored(stored)),
        Err(fault) => Err(fault),
    }
}
