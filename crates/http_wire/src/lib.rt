//! Requests of HTTP/1.1 read from a line, and replies printed (RFC 9110, RFC 9112, and this profile's limits).
#![tactic(auto)]

mod advance;
mod closing;
mod fill;
mod headers;
mod interim;
mod join;
mod judge;
mod laws;
mod look;
mod message;
mod print;
mod reader;
mod scan;
mod take;

pub use closing::closes;
pub use headers::{first_value, has_header, has_name, has_single_header, text_of, values_of};
pub use join::joined;
pub use judge::{BODY_LIMIT, MOST_BODY_LIMIT};
pub use laws::{interim_owed, one_front, one_request_spelling, request_size};
pub use message::{Got, Kind, Message, ReadFault};
pub use print::{print_memory, print_page, print_slow};
pub use reader::Reader;
