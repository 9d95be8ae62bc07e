//! A map by names: values under texts of bytes, in the order of these.
#![tactic(auto)]

mod table;

pub use table::Table;
