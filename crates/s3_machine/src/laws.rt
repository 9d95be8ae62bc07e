//! Laws of the service: each is the contract of a function that does nothing.
ghost use Rattle.s3_machine.specs.Holding.{StaysHeld};
ghost use Rattle.s3_machine.specs.Laws.{GetAfterDelete, GetAfterPut, OneClaimWins, SwapsOnce};

/// What was put is what an owner gets next.
pub fn law_get_after_put()
    ensures { GetAfterPut }
{}

/// What was deleted is gone.
pub fn law_get_after_delete()
    ensures { GetAfterDelete }
{}

/// Of any number of requests that put one free key where nothing stands under it exactly one is done.
pub fn law_one_claim_wins()
    ensures { OneClaimWins }
{}

/// Of two requests that put a key in place of the same object at most one is done, where they don't put that object again.
pub fn law_swaps_once()
    ensures { SwapsOnce }
{}

/// An object stays under its key, whatever it becomes, until an operation may delete it or its bucket.
pub fn law_stays_held()
    ensures { StaysHeld }
{}
