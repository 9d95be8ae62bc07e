//! The cases of a file: verbs of public functions, and whole runs of `s3gate` over a store in memory, at hand or across the wire.
//! Who tries them hands in the program that is run (`Program`).
#![tactic(auto)]

mod cases;
mod ended;
mod files;
mod forgetting;
mod left;
mod losses;
mod machine;
mod play;
mod program;
mod running;
mod wire;

pub use cases::tell_cases_of_text;
pub use program::Program;
