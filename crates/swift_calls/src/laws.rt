//! Laws of the definitions, each the contract of a function that does nothing.
ghost use Rattle.swift_calls.specs.Laws.{ReadsLeave, ReadsKeep};

/// A call that only reads leaves the account.
pub fn law_reads_leave()
    ensures { ReadsLeave }
{}

/// A call that only reads leaves the account in each history: where it was answered, where it or its answer was lost,
/// where memory ran out, and where no call was left.
pub fn law_reads_keep()
    ensures { ReadsKeep }
{}
