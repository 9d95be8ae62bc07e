//! The record of a name that a listing told of.
ghost use Rattle.std.specs.Prelude.{◌≡◌, ◌≢◌, ◌<◌, ◌≤◌, ◌+◌, ℕ, List, true, IfOk, Err};
ghost use Rattle.s3_names.specs.Bucket.{is_bucket};
ghost use Rattle.s3_names.specs.Key.{is_key};
ghost use Rattle.swift_calls.specs.History.{budget};
ghost use Rattle.swift_calls.specs.Step.{IsContainerName};
ghost use Rattle.upload_texts.specs.Records.{has_record_text, read_record};
ghost use Rattle.upload_records.specs.Layout.{uploads_name};
ghost use Rattle.account_calls.specs.Calls.{always, Asks};
ghost use Rattle.account_calls.specs.Interpret.{Gives};
ghost use Rattle.account_calls.specs.Listing.{TellsOf};
ghost use Rattle.account_calls.specs.Told.{LeavesThroughout};
ghost use Rattle.account_calls.specs.declared.fault.PlanFault.TheVariants as fault;
ghost use Rattle.leftovers.specs.Gathering.{HasRecord};
ghost use Rattle.leftovers.specs.Lists.{SaysRecord};
ghost use Rattle.leftovers.specs.Records.{listed_record_by, listed_record_due, TellsRecord};

use account_calls::{PlanFault, ask_newest};
use gate_base::{Bytes, Copying};
use std::alloc::Global;
use swift_calls::{Swift, SwiftReply, SwiftRequest};
use upload_texts::{Record, RecordFault};

/// The record of a name that was listed, by GET of its file (Object Storage API v1, "Get object content and metadata"). One that isn't
/// there any more is inconsistent: nothing else writes the account meanwhile. At most one call, which leaves the account.
#[tactic(auto, using(account_calls::proofs::lemmas::Names::object_name))]
pub fn get_listed_record<W: Swift>(
    alloc: Global,
    store: &mut W,
    folder: &Bytes,
    name: &Bytes,
) -> Result<Record, PlanFault>
    requires folder { IsContainerName folder.now }
    requires name { is_key name.now ≡ true }
    ensures counted { IfOk result (λ _. (W.history store.old).called < budget
        × ((W.history store.new).called ≡ (W.history store.old).called + 1)) }
    ensures near { (W.history store.new).called ≤ (W.history store.old).called + 1 }
    ensures has { IfOk result (λ r. has_record_text r ≡ true) }
    ensures asks { (bucket : List ℕ) → is_bucket bucket ≡ true → folder.now ≡ uploads_name bucket
        → Asks (always 1) (W.history store.old) (W.history store.new)
        (HasRecord bucket name.now) (TellsOf (TellsRecord bucket name.now)) result }
    ensures says { SaysRecord folder.now name.now (W.history store.old) result }
    ensures leaves { LeavesThroughout (W.history store.old) (W.history store.new) }
{
    let container = folder.copy()?;
    let name = name.copy()?;
    let request = SwiftRequest::GetObject {
        container,
        name,
        range: None,
    };
    let reply = ask_newest(store, request)?;
    listed_record_in_reply(alloc, &reply)
}

fn listed_record_in_reply(alloc: Global, reply: &SwiftReply) -> Result<Record, PlanFault>
    ensures due { Gives result (listed_record_due reply.now) }
    ensures own { result ≢ Err fault.Failed }
    ensures has { IfOk result (λ r. has_record_text r ≡ true) }
{
    match reply {
        SwiftReply::Bytes { body, .. } => listed_record_in_text(alloc, body.as_slice()),
        _ => Err(PlanFault::Inconsistent),
    }
}

fn listed_record_in_text(alloc: Global, text: &[u8]) -> Result<Record, PlanFault>
    ensures due { Gives result (listed_record_by (read_record text.now)) }
    ensures own { result ≢ Err fault.Failed }
    ensures has { IfOk result (λ r. has_record_text r ≡ true) }
{
    match Record::read(alloc, text) {
        Ok(record) => Ok(record),
        Err(RecordFault::Memory) => Err(PlanFault::Memory),
        Err(RecordFault::NotARecord) => Err(PlanFault::Inconsistent),
        Err(RecordFault::Version(_)) => Err(PlanFault::Inconsistent),
    }
}
