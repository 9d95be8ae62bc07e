ghost use Rattle.gateway_cmd.specs.Session.{Offers};

use crate::status::Status;
use sigv4::{Keys, KeysFault};
use std::alloc::Global;

/// The keys of a key text; or the status of a run by it, where it is refused or memory ran out.
pub fn read_keys(alloc: Global, text: &str) -> Result<Keys, Status>
    ensures { Offers text.now result }
{
    match Keys::read(alloc, text.as_bytes()) {
        Ok(keys) => Ok(keys),
        Err(KeysFault::BadLine(_)) => Err(Status::Usage),
        Err(KeysFault::Twice(_)) => Err(Status::Usage),
        Err(KeysFault::Memory) => Err(Status::Memory),
    }
}
