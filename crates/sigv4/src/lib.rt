//! Signature Version 4 of Amazon S3, in the Authorization header: the keys, the canonical request and its signature, and
//! who sent a request that bears one.
#![tactic(auto)]

mod authorization;
mod hash;
mod index;
mod keys;
mod laws;
mod moment;
mod pieces;
mod refusal;
mod request;
mod signature;
mod texts;
mod verdict;

pub use authorization::{
    Authorization, authorization_from, behind_service, is_formed, signed_names_in,
};
pub use hash::hmac;
pub use keys::{AccessKey, Keys, KeysFault};
pub use laws::{law_authorization_read, law_query_ordered};
pub use moment::{is_of_day, is_time, signing_time_seconds};
pub use pieces::{Seal, verify_head};
pub use refusal::Refusal;
pub use request::{canonical, canonical_query, canonical_with};
pub use signature::{Signed, are_same_signatures, date_of, is_date_time, sign};
pub use texts::concatenated;
pub use verdict::{
    SignedRequest, has_signed_pieces, has_wrong_scope, hash_of, is_among, signature_differs,
    time_of, verify,
};
