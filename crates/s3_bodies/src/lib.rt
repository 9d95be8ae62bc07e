//! What the XML bodies of S3 requests say.
#![tactic(auto)]

mod completion;
mod delete;
mod elements;
mod fault;
mod key;
mod key_text;
mod location;
mod objects;
mod part;
mod root_end;

pub use completion::read_completion;
pub use delete::{Deletes, read_delete};
pub use fault::BodyFault;
pub use location::read_location;
