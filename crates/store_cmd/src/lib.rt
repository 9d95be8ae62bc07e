//! The top call of `swiftd`: the words, the connections of the line in turn, the status and the report.
#![tactic(auto)]

mod command;
mod laws;
mod lent_store;
mod refusals;
mod service;
mod setup;
mod status;
mod words;

pub use command::{run_store, shelf_file};
pub use laws::{law_failed_is_counted, law_unavailable_within_faults};
pub use words::compacted_file;
