//! The outside world over sockets: connections that a listener accepts, as a line.
#![tactic(auto)]

mod bounds;
mod came;
mod client;
mod crowd;
mod front;
mod inbox;
mod outbox;
mod pace;
mod places;
mod room;
mod tcp_line;
mod turns;
mod watch;
mod wire;

pub use bounds::Bounds;
pub use tcp_line::TcpLine;
