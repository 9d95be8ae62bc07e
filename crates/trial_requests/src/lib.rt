//! The requests of a trial: the bytes that a client would send, which one number determines.
#![tactic(auto)]

mod asked;
mod input;
mod print;
mod sign;
mod time;

pub use input::{MOST_TRIAL_REQUESTS, trial_input};
