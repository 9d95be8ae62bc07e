//! What an S3 reply is on the wire: its status, its headers and its XML body.
#![tactic(auto)]

mod buckets;
mod codes;
mod context;
mod copied;
mod deleted;
mod listing;
mod object;
mod pages;
mod shown;
mod texts;
mod uploads;
mod xml;

pub use context::{ExtendedPage, PageContext};
pub use pages::page;
