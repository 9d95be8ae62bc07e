//! Sweeping and surveying: what is left over on an account is removed, or counted.
#![tactic(auto)]

mod account;
mod containers;
mod counting;
mod file_counts;
mod forget;
mod forget_walk;
mod laws;
mod sealed;
mod shares;
mod walk;

pub use account::{Swept, sweep, sweep_before};
pub use counting::{Surveyed, survey};
pub use laws::{law_kept_dated, law_kept_forgotten};
