//! The first request of a line, signed by a secret: what a client would send in its Authorization header, and the hash of
//! the canonical request.
#![tactic(auto)]

mod first;
mod headers;
mod laws;
mod message;
mod names;

pub use first::{Signing, sign_first};
pub use laws::{law_names_once, law_one_answer};
