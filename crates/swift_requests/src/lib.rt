//! How calls of Object Storage API v1 are written in requests of HTTP/1.1, and how they are read; where an account is;
//! and what exchanges such messages with a store.
#![tactic(auto)]

mod call_reader;
mod call_target;
mod call_writer;
mod laws;
mod link;
mod listings;
mod long_lists;
mod paths;
mod place;
mod ranges;

pub use call_reader::read_call;
pub use call_writer::{WrittenCall, write_call};
pub use laws::{law_call_head_fits, law_call_reads_back, law_one_call};
pub use link::{Link, LinkFault};
pub use place::{Place, has_account_token, is_place};
