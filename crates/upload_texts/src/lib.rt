//! The texts that the gateway keeps on a store beside the objects: records of uploads, and a completion that is sealed.
//! Each value has one text, and no other text reads as it (this profile).
#![tactic(auto)]

mod forms;
mod laws;
mod places;
mod reading;
mod record;
mod sealed;
mod values;

pub use laws::{law_record_has_one_text, law_sealed_has_one_text};
pub use record::{Record, RecordFault};
pub use sealed::{Sealed, SealedPart};
