//! How replies of Object Storage API v1 are written in answers of HTTP/1.1, and how they are read.
#![tactic(auto)]

mod answer_laws;
mod answers;
mod fault;
mod fields;
mod header_text;
mod list_text;
mod listed;
mod lists;
mod manifests;
mod objects;
mod parted;
mod values;
mod written;

pub use answer_laws::{law_one_answer, law_one_reply, law_reads_back};
pub use answers::read_answer;
pub use fault::WireFault;
pub use fields::{container_created_in, container_readers_by_value, meta_in};
pub use header_text::{
    append_swift_created, append_swift_header, append_swift_meta, append_swift_number_header,
    readers_text,
};
pub use manifests::spelled_segments_in;
pub use parted::read_parted_answer;
pub use written::{refusal, write_answer};
