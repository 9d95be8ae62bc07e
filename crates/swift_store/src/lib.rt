//! A Swift store: what keeps an account, in memory or elsewhere, and the answers to requests of Object Storage API v1.
#![tactic(auto)]

mod effects;
mod faults;
mod folder;
mod joined;
mod kept;
mod laws;
mod map_shelf;
mod replies;
mod segments;
mod shelf;
mod shelf_ref;
mod store;

pub use faults::StoreFault;
pub use laws::{law_served_has_spelling, law_stays_made};
pub use map_shelf::MapShelf;
pub use shelf::Shelf;
pub use store::serve;
