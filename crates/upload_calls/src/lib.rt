//! The calls on the files of uploads: their records, their parts, and the ids that are free.
#![tactic(auto)]

mod found;
mod ids;
mod listed_ids;
mod listed_parts;
mod parts;
mod records;

pub use found::{Found, find_upload};
pub use ids::{free_id, read_upload_id_to_find};
pub use listed_ids::record_ids;
pub use listed_parts::{digits_in, list_parts};
pub use parts::{PartPlace, part_request, put_part};
pub use records::{drop_record, get_record, put_record};
