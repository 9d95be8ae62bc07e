ghost use Rattle.std.specs.Prelude.{◌≡◌, ◌<◌, Err, IsTrue};
ghost use Rattle.s3_machine.specs.Parts.{AsksNoPart};
ghost use Rattle.s3_requests.specs.Proper.{IsProperMeant};
ghost use Rattle.swift_calls.specs.History.{present};
ghost use Rattle.upload_records.specs.Native.{IsSettled};
ghost use Rattle.account_calls.specs.Lent.{Stays};
ghost use Rattle.account_calls.specs.Known.{Knows};
ghost use Rattle.account_calls.specs.Plan.{reply_of};
ghost use Rattle.recovery.specs.Settling.{Settles, settle_fault};
ghost use Rattle.planner.specs.Reading.{HasNoByte, LeavesBytes, ReadsBytes};
ghost use Rattle.gateway.specs.Exchange.{AsksBytes};
ghost use Rattle.gateway.specs.Reading.{PerformsOrFinds, IsReady, OperatedOrReads, RepliedOrReads};

use account_calls::{Known, Settled};
use gate_base::drop;
use planner::{Reading, find_object};
use recovery::{SettleFault, Unsure};
use s3_machine::{Code, Label, Op, Reply, Settings};
use s3_requests::Meant;
use std::alloc::Global;
use swift_calls::Swift;

/// What an operation came to on a settled store, and what is known of the store then.
#[derive(Debug, Drop)]
struct Performed {
    reading: Reading,
    known: Known,
}

/// What a request is answered: its code, without a call of the store; or what the operation is answered, of a read that finds its
/// object these bytes. `known`, what is known of the store, goes from one request to the next.
pub fn reply_to<W: Swift>(
    alloc: Global,
    store: &mut W,
    known: &mut Known,
    settings: &Settings,
    means: Meant,
    label: &Label,
) -> Reading
    requires knows { Knows known.old (W.history store.old) }
    requires proper { IsProperMeant means }
    ensures ready { IsReady (W.history store.new) result }
    ensures replied { RepliedOrReads settings.now means label.now (W.history store.old)
        (W.history store.new) known.old known.new result }

    // The bytes that a read asks for are still to be got.
    ensures leaves { AsksBytes means → LeavesBytes result }
{
    match means {
        Meant::Op(op) => settle_and_perform(alloc, store, known, settings, op, label),
        Meant::Refused(code) => Reading::Whole(Reply::Refused(code.into_value())),
        Meant::Memory => Reading::Whole(Reply::Memory),
    }
}

/// Settles the store where that is not known to be needless, and answers an operation over it. What is known of the store then
/// goes to the next one.
fn settle_and_perform<W: Swift>(
    alloc: Global,
    store: &mut W,
    known: &mut Known,
    settings: &Settings,
    op: Op,
    label: &Label,
) -> Reading
    requires knows { Knows known.old (W.history store.old) }
    requires planned { AsksNoPart op }
    ensures operated { OperatedOrReads settings.now op label.now (W.history store.old)
        (W.history store.new) known.old known.new result }
    ensures leaves { ReadsBytes op → LeavesBytes result }
{
    match known {
        Known::Settled => {}
        Known::Unsure => match settle_before_operation(alloc, store, settings) {
            Ok(()) => *known = Known::Settled,
            Err(fault) => {
                drop(op);
                return Reading::Whole(unsettled(fault));
            }
        },
    }
    let answer = perform_on_settled_store(alloc, store, settings, op, label);
    *known = answer.known;
    answer.reading
}

fn settle_before_operation<W: Swift>(
    alloc: Global,
    store: &mut W,
    settings: &Settings,
) -> Result<(), SettleFault>
    ensures { Settles (W.history store.old) (W.history store.new) result }
{
    Unsure::open(alloc, store, settings).settle()
}

/// Answers an operation over a store that is settled, by the crate that has its plan. A completion may be sealed after it.
fn perform_on_settled_store<W: Swift>(
    alloc: Global,
    store: &mut W,
    settings: &Settings,
    op: Op,
    label: &Label,
) -> Performed
    requires planned { AsksNoPart op }
    requires settled { IsTrue (W.history store.old).observable
        → IsSettled (present (W.history store.old)) }
    ensures performs { PerformsOrFinds (W.history store.old) (W.history store.new) settings.now op
        label.now result.known result.reading }
    ensures leaves { ReadsBytes op → LeavesBytes result.reading }
    ensures bodiless { HasNoByte result.reading }
{
    let mut state = Settled::hold(alloc, store, settings);
    perform(&mut state, op, label)
}

/// The same, of the store as it is held.
fn perform<W: Swift>(state: &mut Settled<'_, W>, op: Op, label: &Label) -> Performed
    requires planned { AsksNoPart op }
    ensures stays { Stays state.old state.new }
    ensures performs { PerformsOrFinds (W.history state.old.store.now)
        (W.history state.new.store.now) state.old.settings.now op label.now result.known
        result.reading }
    ensures leaves { ReadsBytes op → LeavesBytes result.reading }
    ensures bodiless { HasNoByte result.reading }
{
    match op {
        Op::GetObject(read) => Performed {
            reading: find_object(state, read, label),
            known: Known::Settled,
        },
        Op::OnObjects(op) => Performed {
            reading: Reading::Whole(planner::answer(state, op, label)),
            known: Known::Settled,
        },
        Op::OnUploads(op) => {
            let replied = plan_uploads::answer(state, op, label);
            Performed {
                reading: Reading::Whole(replied.reply),
                known: replied.known,
            }
        }
        Op::OnCopies(op) => Performed {
            reading: Reading::Whole(many_keys::answer(state, op, label)),
            known: Known::Settled,
        },
    }
}

/// The reply to an operation whose store could not be settled.
fn unsettled(fault: SettleFault) -> Reply
    ensures { result ≡ reply_of (Err (settle_fault fault)) }
{
    match fault {
        SettleFault::Failed => Reply::Refused(Code::ServiceUnavailable),
        SettleFault::Memory => Reply::Memory,
        SettleFault::Inconsistent { .. } => Reply::Refused(Code::InconsistentStore),
    }
}
