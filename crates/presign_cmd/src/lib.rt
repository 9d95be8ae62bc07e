//! The first request of a line, presigned by a secret: a URL by which whoever has it may send that request for a time.
#![tactic(auto)]

mod first;
mod message;

pub use first::{Presigning, presign_first};
