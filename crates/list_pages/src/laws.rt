//! Laws of the definitions, each the contract of a function that does nothing.
ghost use Rattle.list_pages.specs.Jumps.{JumpsExactly};

/// A listing that goes on behind a name leaves out exactly those keys whose texts are up to the name.
pub fn law_jumps_exactly()
    ensures { JumpsExactly }
{}
