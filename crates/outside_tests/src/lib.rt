//! Tests that must be code: the line and the link over sockets, the lines of a log, a system whose clock and chance fail, and rows
//! of a database by hand.
#![tactic(auto)]

#[cfg(test)]
mod adapters;
#[cfg(test)]
mod log_lines;
#[cfg(test)]
mod logged_store;
#[cfg(test)]
mod loopback;
#[cfg(test)]
mod pieces;
#[cfg(test)]
mod rows;
#[cfg(test)]
mod tcp_line;
#[cfg(test)]
mod tcp_link;
