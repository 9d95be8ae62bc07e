//! The S3 service as one machine: its operations and replies, and the step that each operation is. It knows
//! nothing of Swift.
#![tactic(auto)]

mod access;
mod body;
mod buckets;
mod code;
mod completion;
mod copy_sources;
mod etag;
mod items;
mod laws;
mod limits;
mod numbers;
mod only_if;
mod operation;
mod parts;
mod proper;
mod reading;
mod unset;

pub use access::{is_other_acl, may_read};
pub use body::Body;
pub use buckets::{BucketListing, bucket_page};
pub use code::{Code, UnsetCode};
pub use completion::{rises, same_list, upload_etag};
pub use copy_sources::{copied_span, has_last, is_onto_itself, may_be_copied};
pub use etag::body_etag;
pub use items::{
    Asked, BucketItem, Item, ItemHead, PartItem, PartsAsked, UploadItem, UploadsAsked, begins,
    copy_option,
};
pub use laws::{
    law_get_after_delete, law_get_after_put, law_one_claim_wins, law_stays_held, law_swaps_once,
};
pub use limits::{
    GREATEST_PART_NUMBER, MOST_BODY_BYTES, MOST_BUCKETS, MOST_ITEMS, MOST_KEYS, MOST_PARTS,
    RANGE_LIMIT, is_content_type, is_kept_header, is_listing_text, is_meta_name, is_meta_value,
    is_proper_meta,
};
pub use numbers::{CopyRange, PartNumber};
pub use only_if::OnlyIf;
pub use operation::{
    BucketAcl, BucketPage, CompletedObject, Content, CopiedBytes, CopiesOp, DeletedKeys, Described,
    Label, Listed, ObjectAcl, ObjectBytes, ObjectCopy, ObjectDeletion, ObjectHead, ObjectListing,
    ObjectName, ObjectPage, ObjectPut, ObjectRead, ObjectsDeletion, ObjectsOp, ObjectsReply, Op,
    PartCopy, PartListing, PartPage, PartPut, Reply, SettingRead, Settings, StartedUpload,
    StoredBytes, UploadCompletion, UploadListing, UploadName, UploadPage, UploadStart, UploadsOp,
    UploadsReply,
};
pub use parts::{is_of_parts, judge_part, parts_in, range_code};
pub use proper::{Limits, Proper};
pub use reading::{Conditions, ETags, Judged, Range, Span, judge};
pub use unset::{Unset, UnsetPage};
