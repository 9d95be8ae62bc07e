//! A shelf over the tables of a SQLite database, and the files beside it: what keeps an account in a file.
#![tactic(auto)]

mod compact;
mod file;
mod kept_shelf;
mod latest;
mod rows;
mod statements;
mod tables;

pub use body_files::{Beside, Settled};
pub use compact::compact_file;
pub use file::{FileConnection, FileFault, close_file, open_beside, open_file};
pub use kept_shelf::KeptShelf;
pub use sqlite::{Alter, Connection};
