//! A log of what a program answers and of how its store does, over any line and any store.
#![tactic(auto)]

mod asked;
mod cause;
mod entry;
mod key;
mod last_call;
mod log;
mod logged_line;
mod logged_store;
mod moment;
mod peers;
mod pieces;
mod refusable;
mod reply;
mod second;
mod target;

pub use cause::{Cause, Explains, logged_cause_of_answer};
pub use entry::{Entry, log_entry_line};
pub use last_call::LastCall;
pub use log::Log;
pub use logged_line::LoggedLine;
pub use logged_store::LoggedStore;
pub use moment::moment_text;
pub use peers::Peers;
pub use target::append_request_for_log;
