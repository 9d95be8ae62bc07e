//! Forms of text: what is read at the front of bytes, and how far bytes can be continued to a form.
#![tactic(auto)]

mod class;
mod document;
mod scan;

pub use class::Class;
pub use document::opening;
pub use scan::{
    nearer, only_space, read_element_form, read_run_form, read_short_element_form, read_word_form,
    skip_space,
};
