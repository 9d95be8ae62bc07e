//! The plans of the copies: which calls of the store answer each, and in which order.
#![tactic(auto)]

mod copied_part;
mod copies;
mod cut;
mod listed;
mod manifests;
mod object_copy;
mod operation;
mod segments;
mod source;
mod sub_manifests;

pub use operation::answer;
