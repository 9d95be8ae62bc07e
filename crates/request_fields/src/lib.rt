//! What the query and the header fields of a request of Amazon S3 say, each read from its text. Which operation is asked for is
//! not known here.
#![tactic(auto)]

mod conditions;
mod content;
mod copies;
mod headers;
mod laws;
mod listings;
mod query;
mod ranges;
mod uploads;

pub use conditions::{given_conditions, given_source_conditions};
pub use content::{given_meta, given_type, has_bad_digest, has_bad_entry, is_other_body};
pub use copies::{
    Source, asks_further, copied_range, copy_source_place_named, copy_source_text,
    has_bad_directive, names_source, replaces, source_at,
};
pub use headers::{
    given_acl, has_other_acl, has_other_class, has_unsupported, is_chunked, is_conditional_write,
    names_acl,
};
pub use laws::{law_given_meta, law_range_asked, law_source_named, law_token_returns};
pub use listings::{
    copy_of_query_value, first_asked, has_bad_token, has_bad_word, has_long_text, most_by,
    second_asked,
};
pub use query::{counts_as_query_name, has_name_twice, has_query_name, is_asked, text_at};
pub use ranges::given_range;
pub use uploads::{given_part_marker, given_part_number, given_upload, has_bad_number};
