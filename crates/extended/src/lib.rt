//! Requests of the extended profile: a message whose body comes in chunks is opened, so that its data takes the place of its
//! body, and an object or a part is compared with the checksums that come with it.
#![tactic(auto)]

mod announced;
mod claims;
mod compared;
mod headers;
mod meaning;
mod objection;
mod open;
mod refused;
mod sender;
mod trailers;

pub use announced::chunked_form;
pub use claims::Claims;
pub use meaning::extended_meaning;
pub use open::{ChunkRules, open_chunked};
pub use refused::refused_by;
pub use sender::Sender;
