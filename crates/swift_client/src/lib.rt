//! A Swift store behind a link: each call is one exchange of HTTP/1.1 messages (OpenStack Object Storage API v1, RFC
//! 9112). And a link over TCP.
#![tactic(auto)]

mod client;
mod made;
mod receive;
mod tcp_link;
mod timed;

pub use client::SwiftClient;
pub use made::over_tcp;
pub use tcp_link::TcpLink;
