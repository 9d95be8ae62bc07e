//! Laws on what is left over, each the contract of a function that does nothing.
ghost use Rattle.leftovers.specs.Laws.{SideGone, UnusedGone};

/// Where no completion is sealed, the DELETE of a segment that isn't used leaves the state; it leaves the account consistent, and
/// the gateway's own container as it was.
pub fn law_unused_gone()
    ensures { UnusedGone }
{}

/// Where no completion is sealed, the DELETE of a container beside a bucket that is missing leaves the state, be a file in it or
/// not; it leaves the account consistent, and the gateway's own container as it was.
pub fn law_side_gone()
    ensures { SideGone }
{}
