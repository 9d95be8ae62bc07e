//! The calls on the account that the service keeps on Swift: each as what it means for the S3 state, and what the calls of a whole
//! operation may amount to.
#![tactic(auto)]

mod beside;
mod bucket;
mod condition;
mod fault;
mod file_pages;
mod interpret;
mod keys;
mod laws;
mod listing;
mod object;
mod plans;
mod puts;
mod sealed;
mod state;
mod sub_manifests;

pub use beside::{interpret_container_put, purge, put_container_beside};
pub use bucket::{
    Dropped, delete_bucket_container, head_bucket, post_bucket_container, put_bucket_container,
};
pub use condition::condition_refusal;
pub use fault::PlanFault;
pub use file_pages::{next_marker, settled_file_page};
pub use interpret::{interpret_file_delete, interpret_listed_segments, interpret_put_with_etag};
pub use keys::list_objects;
pub use laws::{law_answered_fault_free, law_never_unavailable, law_one_acknowledged};
pub use listing::{container_names, list_buckets};
pub use object::{delete_object, get_object, head_object, put_object};
pub use plans::{reply_of, stored_end};
pub use puts::etag_of_put;
pub use sealed::{interpret_sealed_get, object_request, sealed_object_tag, sealed_segments};
pub use state::{Known, Settled, ask, ask_newest};
pub use sub_manifests::{sub_manifest_count, sub_manifest_request};
