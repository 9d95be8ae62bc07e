//! The trial: requests that a number determines, answered over a store as one connection.
#![tactic(auto)]

mod given;
mod pieces;
mod serve;

pub use serve::{Trial, serve_trial};
