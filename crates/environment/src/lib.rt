//! What a program is given before it begins: its words, the variables of its environment, the place that it listens at, and why
//! it can't begin; and the clients that come to that place.
#![tactic(auto)]

mod clients;
mod fault;
mod given;
mod machine;
mod place;

pub use clients::{
    Clients, ErrorLog, LONGEST, SocketPeers, ahead_limit, clients_at_variable_place, error_log,
    floor_limit, idle_limit,
};
pub use fault::{SetupFault, Why, report_variable_fault, variable_fault_line};
pub use given::{
    clone_environment_runtime, is_variable_on, number_from_zero_in_variable, number_in_variable,
    required_variable, variable, words,
};
pub use machine::{machine_memory, places};
pub use place::{listener_at_variable_place, place_fault};
pub use sockets::Bounds;
