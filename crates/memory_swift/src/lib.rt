//! A Swift store in memory, for tests and for the command `session`, reached through the same HTTP messages as one over a
//! network: a client whose link hands each request to a store at hand, and loses messages by their numbers.
#![tactic(auto)]

mod made;
mod reading;
mod store;
mod store_link;

pub use made::{client_over, memory_store};
pub use store::Store;
pub use store_link::{OverShelf, StoreLink};
