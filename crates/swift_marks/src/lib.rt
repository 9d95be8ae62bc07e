//! The marks that the gateway writes into the store, each with exactly one text: tags and packs (this profile).
#![tactic(auto)]

mod fault;
mod forms;
mod laws;
mod number;
mod packs;
mod tag;

pub use fault::MarkFault;
pub use forms::is_etag;
pub use laws::{
    law_etag_forms, law_metadata_has_one_pack, law_pack_is_small, law_pack_unpacks,
    law_tag_has_one_text, law_tag_is_field, law_tag_text_reads,
};
pub use packs::{pack, unpack};
pub use tag::{Stamp, Tag};
