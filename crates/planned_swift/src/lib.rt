//! A Swift store in memory for tests: it keeps its first account and its calls, and loses those that it was told to lose.
#![tactic(auto)]

mod account;
mod listable;
mod listing;
mod memory;
mod objects;
mod replay;
mod segments;
mod serve;

pub use account::{Account, Container};
pub use memory::MemSwift;
