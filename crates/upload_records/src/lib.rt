//! How the state of the S3 service lies on a Swift account: what is consistent there, and what it represents.
#![tactic(auto)]

mod laws;
mod layout;
mod upload_laws;

pub use laws::{
    law_acl_replaced, law_bucket_bare, law_bucket_gone, law_bucket_made, law_bucket_there,
    law_empty_consistent, law_object_found, law_object_gone, law_object_put, law_reads_stutter,
    law_smaller_bodies,
};
pub use layout::{
    acl_of_container_readers, container_readers_of_acl, gateway_container, sealed_name,
    segment_name, segments_container, segments_prefix, sub_manifest_name, uploads_container,
    writer_name,
};
pub use upload_laws::{
    law_completed_stands, law_completion_sealed, law_file_put, law_gateway_made, law_listing_found,
    law_listing_stands, law_object_listed, law_object_proper, law_object_rolled, law_orphan_gone,
    law_orphan_listed, law_orphan_put, law_part_put, law_record_rolled, law_seal_gone,
    law_side_file_gone, law_side_made, law_sub_rolled, law_unused_is_abandoned,
    law_upload_abandoned, law_upload_dropped, law_upload_opened, law_word_put,
};
