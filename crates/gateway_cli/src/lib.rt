//! The words that follow the program's name of `s3gate`, read by `clap`: which command they name, with its options.
#![tactic(auto)]

mod command;
mod description;
mod read;
mod text;

pub use command::{Command, WordsFault};
pub use read::{USUAL_LARGEST_BODY, read_words};
