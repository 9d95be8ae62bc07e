//! Laws of the definitions, each the contract of a function that does nothing.
ghost use Rattle.account_calls.specs.Answers.{AnsweredFaultFree, NeverUnavailable, OneAcknowledged};

/// Where no call failed, the answer is the service's own, or the word that memory ran out.
pub fn law_answered_fault_free()
    ensures { AnsweredFaultFree }
{}

/// Over a history in which no call failed, no operation is answered ServiceUnavailable while calls are left.
pub fn law_never_unavailable()
    ensures { NeverUnavailable }
{}

/// Of two requests that put one key where nothing stands under it at most one is acknowledged, whatever failed.
pub fn law_one_acknowledged()
    ensures { OneAcknowledged }
{}
