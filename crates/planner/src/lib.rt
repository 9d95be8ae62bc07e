//! The plan of each operation on buckets and objects: which calls of the store answer it, in which order, and
//! which one commits.
#![tactic(auto)]

mod acls;
mod buckets;
mod deletions;
mod listing;
mod objects;
mod operation;
mod reading;
mod settings;

pub use operation::answer;
pub use reading::{Found, Reading, find_object, read_piece};
