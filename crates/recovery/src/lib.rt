//! How a store is settled: a completion that is sealed on it is finished.
#![tactic(auto)]

mod sealed;
mod settling;
mod state;

pub use settling::roll_forward_held;
pub use state::{SettleFault, Unsure};
