//! A server of HTTP/1.1 over a line: connections in turn, the requests of each in order, each answered by a service.
#![tactic(auto)]

mod connection;
mod ended;
mod received;
mod run;
mod send;
mod service;

pub use connection::serve_connection;
pub use ended::Ended;
pub use received::Received;
pub use run::{Stopped, is_connection_limit_reached, one_less, serve_all};
pub use send::send_piece;
pub use service::Service;
