//! The machine of `s3_machine` in its running form: plain and slow, for tests.
#![tactic(auto)]

mod copies;
mod forgetting;
mod kept;
mod listing;
mod named;
mod native;
mod numbered;
mod settings;
mod upload;
mod uploads;

pub use native::Native;
