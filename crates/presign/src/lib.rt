//! Presigned URLs: Signature Version 4 of Amazon S3 in the query of a target, by which whoever has the URL may send one
//! request for a time, without a key.
#![tactic(auto)]

mod claim;
mod laws;
mod number;
mod parameters;
mod refusal;
mod time;
mod url;
mod verdict;

pub use claim::Claim;
pub use laws::{law_made_is_read, law_made_is_taken, law_taken_exactly};
pub use parameters::{is_presigned, without_signature};
pub use refusal::QueryRefusal;
pub use url::{UrlSigner, has_signature_name, presign};
pub use verdict::verify_query;
