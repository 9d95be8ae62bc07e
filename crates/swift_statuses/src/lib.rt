//! What the status of an answer of Swift says where it alone tells (Object Storage API v1).
#![tactic(auto)]

mod statuses;

pub use statuses::{delete_reply, gone, missing, put_reply};
