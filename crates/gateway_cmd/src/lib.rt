//! The top call of `s3gate`: the words, the key text, the connections of the line in turn, the status and the report.
#![tactic(auto)]

mod attempt;
mod command;
mod keys;
mod laws;
mod recover;
mod session;
mod status;
mod sweeping;
mod trial;

pub use command::run;
pub use laws::{
    law_gone_are_counted, law_many_runs_of_all, law_none_before_first, law_one_run_of_any,
    law_run_fault_free, law_sent_are_counted, law_spans_follow, law_trace_fault_free,
    law_trace_stands,
};
pub use trial_requests::trial_input;
