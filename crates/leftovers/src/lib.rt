//! What is left over beside a bucket and what is kept there: its definitions, the laws that it may go, and its removal.
#![tactic(auto)]

mod asking;
mod fault;
mod files;
mod gathering;
mod kept;
mod laws;
mod lists;
mod records;
mod segments;
mod sides;
mod stray;
mod used;

pub use fault::{SweepFault, file_fault};
pub use files::file_page;
pub use gathering::{Source, gather};
pub use kept::Kept;
pub use laws::{law_side_gone, law_unused_gone};
pub use records::get_listed_record;
pub use segments::sweep_segments;
pub use sides::{Kind, bucket_beside};
pub use stray::{is_there, sweep_stray};
pub use used::{Used, add_sealed};
