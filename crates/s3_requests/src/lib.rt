//! What a request of Amazon S3 asks for: its row, its refusals in their order, and the operation that it means. No store is
//! known here.
#![tactic(auto)]

mod content;
mod copies;
mod deletes;
mod laws;
mod meant;
mod named;
mod operation;
mod query;
mod rows;
mod taken;
mod uploads;

pub use laws::law_strict_asked;
pub use meant::{Meant, meaning};
