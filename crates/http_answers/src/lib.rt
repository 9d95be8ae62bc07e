//! Answers of HTTP/1.1: their heads, where they end, what they announce, and the values of their headers.
#![tactic(auto)]

mod announced;
mod fields;
mod framing;
mod head;
mod numbers;

pub use announced::{Announced, announced_by_answer_head};
pub use fields::{answer_content_length, field, only};
pub use framing::{End, answer_end, expected};
pub use head::{Front, HEAD_LIMIT, Head, find_head};
pub use numbers::plain_number;
