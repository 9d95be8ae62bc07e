//! The names of Amazon S3 as this profile takes them: buckets and their canned access control lists, object keys,
//! percent escapes, user metadata, queries, targets, the ids of uploads, and whose the buckets of an account are.
#![tactic(auto)]

mod acl;
mod bucket;
mod escapes;
mod fault;
mod id;
mod key;
mod laws;
mod meta;
mod query;
mod share;
mod target;
mod text;

pub use acl::Acl;
pub use bucket::{BucketName, is_bucket};
pub use escapes::{decode, encode_all, encode_path};
pub use fault::NameFault;
pub use id::{id_digits, read_id_digits};
pub use key::{Key, MOST_KEY_BYTES, is_key};
pub use laws::{law_id_reads_back, law_with_pair};
pub use meta::Meta;
pub use query::Query;
pub use share::{ShareRow, ShareTable, has_bucket, owner_of};
pub use target::Target;
