//! What the definitions of this crate promise, apart from its code.
ghost use Rattle.swift_store.specs.MadeLaws.{HasSpelling, StaysMade};

/// An account that calls within their limits made is one after each such call.
pub fn law_stays_made()
    ensures { StaysMade }
{}

/// Over such an account the reply to each such call has a spelling: a store answers no 500 in place of a reply.
pub fn law_served_has_spelling()
    ensures { HasSpelling }
{}
