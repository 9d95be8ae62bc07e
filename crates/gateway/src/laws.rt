//! Laws of the definitions, each the contract of a function that does nothing.
ghost use Rattle.gateway.specs.Laws.{CalendarsAgree, FailedStoreRose, FoundConsistent};
ghost use Rattle.gateway.specs.Life.{CountedWhole, OneRun, SentIsCounted, StandsAll};

/// Through a run the account is consistent after each call, and goes through the steps of the request that has the call.
pub fn law_stands_all()
    ensures { StandsAll }
{}

/// Over one run, at each number of calls, the requests that are counted there, in order through the machine's step, lead from
/// the state at its entry to the state.
pub fn law_one_run()
    ensures { OneRun }
{}

/// An operation that counts as one step is counted at a number of calls where it was taken and its commit point is by then, and
/// else not.
pub fn law_counted_whole()
    ensures { CountedWhole }
{}

/// A request that was answered by the service itself is counted from the first piece of its reply on.
pub fn law_sent_is_counted()
    ensures { SentIsCounted }
{}

/// The calendar of signatures is that of dates: a time that a request was signed for and the moment that a reply is dated by are
/// numbers of one scale.
pub fn law_calendars_agree()
    ensures { CalendarsAgree }
{}

/// A connection ends because the store failed only where its count of faults rose, over every store.
pub fn law_failed_store_rose()
    ensures { FailedStoreRose }
{}

/// No connection ends because the store was found inconsistent, where it is observable and its account consistent.
pub fn law_found_consistent()
    ensures { FoundConsistent }
{}
