//! The verbs of case files: each tries a public function of a library below plans and service, or of the server of
//! `swiftd`, by a text and by bytes, and tells what it gives. `s3_verbs`, `http_verbs` and `swift_verbs` say what they take.
#![tactic(auto)]

mod http_verbs;
mod s3_verbs;
mod s3_verbs_meaning;
mod s3_verbs_message;
mod s3_verbs_pages;
mod settings;
mod shown;
mod swift_verbs;
mod talk;
mod verbs;

pub use settings::{USUAL_LARGEST_BODY, USUAL_LEAST_PART, USUAL_REGION, settings_of_region};
pub use shown::{is_shown_reply, moment_with_date};
pub use swift_verbs::wire::place_of_store;
pub use talk::{Talk, opens_connection};
pub use verbs::tell_verb;
