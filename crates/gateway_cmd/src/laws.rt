//! Laws of the definitions, each the contract of a function that does nothing.
ghost use Rattle.gateway_cmd.specs.Laws.{RunFaultFree, SentAreCounted, SpansFollow, TraceFaultFree, TraceStands};
ghost use Rattle.gateway_cmd.specs.Lives.{GoneAreCounted, ManyRunsOfAll, NoneBeforeFirst, OneRunOfAny};

use gateway::law_one_run;

/// The requests of all connections follow one another, with no call outside them.
pub fn law_spans_follow()
    ensures { SpansFollow }
{}

/// Through all connections the account goes through the steps of the requests, and is consistent after each call.
pub fn law_trace_stands()
    ensures { TraceStands }
{}

/// Where the store's count of faults did not rise, no request is answered ServiceUnavailable.
pub fn law_trace_fault_free()
    ensures { TraceFaultFree }
{}

/// A run without a fault of store or line, as one statement: no connection and no read broke off, no request is answered
/// ServiceUnavailable, and the account at its end is that of its requests, taken in order by the machine's step.
pub fn law_run_fault_free()
    ensures { RunFaultFree }
{
    law_one_run()
}

/// Each reply that was sent to an operation, and is neither ServiceUnavailable nor the out-of-memory reply, is one of an operation
/// that took all its steps.
pub fn law_sent_are_counted()
    ensures { SentAreCounted }
{}

/// Over one run of any command: where it was stopped its account is consistent, and the run's work up to there, be it requests or
/// completions that are forgotten, leads from the state at its entry to the state.
pub fn law_one_run_of_any()
    ensures { OneRunOfAny }
{
    law_one_run()
}

/// Over a list of runs of any commands, each begun on what the one before it left where it was stopped, so does the work of all.
pub fn law_many_runs_of_all()
    ensures { ManyRunsOfAll }
{
    law_one_run_of_any()
}

/// A sweep that forgets the completions from before the first moment forgets none.
pub fn law_none_before_first()
    ensures { NoneBeforeFirst }
{}

/// Of a state without the first completions from before a moment just so many are gone.
pub fn law_gone_are_counted()
    ensures { GoneAreCounted }
{}
