//! Calls of a Swift store: the account that a store keeps, what each call of Object Storage API v1 answers and
//! leaves, and the trait of a store that can fail.
#![tactic(auto)]

mod account;
mod calls;
mod drops;
mod fits;
mod heads;
mod laws;
mod outcome;

pub use account::{Content, ReadList, Stored};
pub use calls::{FilePut, Swift, SwiftFault, SwiftReply, SwiftRequest};
pub use drops::{drop_reply, drop_request};
pub use fits::is_fit;
pub use heads::{NameItem, StoredHead};
pub use laws::{law_reads_keep, law_reads_leave};
pub use outcome::{Outcome, outcome_at};
