//! Who comes over a line.

use std::net::SocketAddr;

/// What a line tells of its clients.
pub trait Peers<N> {
    /// The address of the client of the connection that is open. None where there is none, or it isn't known.
    fn peer(&self, line: &N) -> Option<SocketAddr>;

    /// How many milliseconds the request that is read has waited until the line gave it.
    fn waited(&self, line: &N) -> u64;

    /// Whether the line gave the client up that it served last, because others waited and that one was slow.
    fn was_slow(&self, line: &N) -> bool;

    /// The reply that the line wrote to that client by itself, as it gave it up. Without a byte there was none.
    fn refusal(&self, line: &N) -> &'static [u8];
}
