//! The plan of each operation on uploads in parts: which calls of the store answer it, in which order, and which one commits.
#![tactic(auto)]

mod abort;
mod chosen;
mod complete;
mod completed;
mod create;
mod listed_uploads;
mod operation;
mod part;
mod seal;
mod uploads;

pub use operation::{Replied, answer};
