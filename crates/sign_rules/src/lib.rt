//! What a signature has to cover, and where it holds: the rules of Signature Version 4 that a wrong body would let clients pass by.
#![tactic(auto)]

mod rules;

pub use rules::{is_of_scope, must_be_signed};
