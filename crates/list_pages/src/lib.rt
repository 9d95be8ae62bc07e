//! The names of a container page by page, and what a listing of objects makes of them: keys rolled up by a delimiter,
//! after a marker, and at most so many (Amazon S3 API Reference, "ListObjects").
#![tactic(auto)]

mod fault;
mod laws;
mod page;
mod roll;
mod text;

pub use fault::{PageFault, RollFault};
pub use laws::law_jumps_exactly;
pub use page::{MOST_NAMES, names};
pub use roll::Roll;
