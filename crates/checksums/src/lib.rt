//! The checksums that clients of S3 send of an object in a header or a trailer: five kinds, their values, and whether a
//! value is that of a message.
#![tactic(auto)]

mod crc;
mod kinds;
mod laws;
mod values;

pub use kinds::{Kind, checksum_header, checksum_kind};
pub use laws::{law_bursts_told, law_checksum_sized, law_kind_named, law_value_taken};
pub use values::{Comparison, checksum, checksum_text, compare_checksum};
