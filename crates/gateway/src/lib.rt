//! One connection: who sent each request, what it means, what it is answered, and what is written for it.
#![tactic(auto)]

mod ended;
mod handle;
mod label;
mod laws;
mod reply;
mod resolve;
mod resolved;
mod send;
mod serve;
mod service;
mod world;
mod write;

pub use ended::Ended;
pub use laws::{
    law_calendars_agree, law_counted_whole, law_failed_store_rose, law_found_consistent,
    law_one_run, law_sent_is_counted, law_stands_all,
};
pub use resolved::ResolvedRequest;
pub use serve::serve_connection;
pub use service::Service;
pub use world::World;
pub use write::{ReplyContext, print_reply};
