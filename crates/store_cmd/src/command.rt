//! A whole run.
ghost use Rattle.std.specs.Prelude.{◌≡◌, Bool, IsTrue, IfOk, None, Some};
ghost use Rattle.http_service.specs.Running.{LineServesAll};
ghost use Rattle.swift_requests.specs.Place.{IsPlace};
ghost use Rattle.store_cmd.specs.Connection.{RunTrace};
ghost use Rattle.store_cmd.specs.Report.{Reports, code_of, line_of};
ghost use Rattle.store_cmd.specs.Run.{Performs, Runs, place_by, run_cursor};
ghost use Rattle.store_cmd.specs.Words.{asked_of, file_of};
ghost use Rattle.store_cmd.specs.declared.status.Status.{Status as how};
ghost use Rattle.store_cmd.specs.declared.words.Asked.{Asked};

use crate::lent_store::LentStore;
use crate::refusals::Refusals;
use crate::setup::Setup;
use crate::status::Status;
use crate::words::{Asked, WordsFault, read_words};
use gate_base::{Bytes, Line, Memory, NoCount, Sink};
use http_service::{Stopped, serve_all};
use std::alloc::Global;
use swift_requests::Place;
use swift_store::Shelf;

/// The host of the store's place. No request is asked for it.
const HOST: &[u8] = b"swiftd";

/// A whole run of `swiftd` with these words, which follow the program's name: it serves the connections of the line, no
/// more of them than the words say, from the shelf. The answer is the exit status: 0 where no connection is left to serve,
/// or their number was reached; 2 where the words are refused; 3 where the line failed to give another connection; 5
/// where memory ran out before.
pub fn run_store<N: Line<NoCount>, R: Sink, S: Shelf>(
    alloc: Global,
    words: &[String],
    line: &mut N,
    report: &mut R,
    shelf: &mut S,
) -> u8
    // Words that are refused touch nothing but the report.
    ensures idle { asked_of words.now ≡ None → (line.new ≡ line.old) × (shelf.new ≡ shelf.old) }

    // How the run ended: its status, what it did, and what it reports. Where the line is observable, its connections were
    // served in order, none skipped, and of each the requests in order, each by one answer: that of Object Storage API
    // v1, or 401 or 400, behind the interim line where that is owed. A 503 comes only with a higher count of faults of
    // the shelf, and a 500 that has no reply only where memory ran out; either ends its connection. What is told of the
    // account holds where the shelf is observable.
    ensures run { (status : how) × (result ≡ code_of status)
        × Runs (asked_of words.now) status (N.model line.old) (N.model line.new)
        (S.model shelf.old) (S.model shelf.new)
        × Reports (line_of status) (R.model report.old) (R.model report.new) }

    // Where all was done nothing is reported.
    ensures silent { result ≡ 0 → report.new ≡ report.old }
{
    let status = run_store_without_report(alloc, words, line, shelf);
    report_store_run(status, report)
}

/// The path of the file that keeps the account, where the words are accepted and name one.
pub fn shelf_file(alloc: Global, words: &[String]) -> Result<Option<Bytes>, Memory>
    ensures { IfOk result (λ file. file ≡ file_of (asked_of words.now)) }
{
    match read_words(alloc, words) {
        Ok(asked) => Ok(asked.file),
        Err(WordsFault::Refused) => Ok(None),
        Err(WordsFault::Memory) => Err(Memory),
    }
}

/// A run but for its report.
fn run_store_without_report<N: Line<NoCount>, S: Shelf>(
    alloc: Global,
    words: &[String],
    line: &mut N,
    shelf: &mut S,
) -> Status
    ensures idle { asked_of words.now ≡ None → (line.new ≡ line.old) × (shelf.new ≡ shelf.old) }
    ensures runs { Runs (asked_of words.now) result (N.model line.old) (N.model line.new)
        (S.model shelf.old) (S.model shelf.new) }
{
    match read_words(alloc, words) {
        Ok(asked) => run_store_as_asked(alloc, asked, line, shelf),
        Err(WordsFault::Refused) => Status::Usage,
        Err(WordsFault::Memory) => Status::Memory,
    }
}

/// Serves as the words ask.
fn run_store_as_asked<N: Line<NoCount>, S: Shelf>(
    alloc: Global,
    asked: Asked,
    line: &mut N,
    shelf: &mut S,
) -> Status
    requires { IsPlace (place_by asked) }
    ensures { Performs asked result (N.model line.old) (N.model line.new)
        (S.model shelf.old) (S.model shelf.new) }
{
    let most = asked.connections;
    match setup_of_lent_store(alloc, asked) {
        Ok(setup) => serve_with_setup(alloc, most, &setup, shelf, line),
        Err(Memory) => Status::Memory,
    }
}

/// Serves as many connections as `most` says, and tells how the run ended.
fn serve_with_setup<N: Line<NoCount>, S: Shelf>(
    alloc: Global,
    most: u64,
    setup: &Setup,
    shelf: &mut S,
    line: &mut N,
) -> Status
    ensures { (asked : Asked) → asked.connections ≡ most → setup.now.place ≡ place_by asked
        → Performs asked result (N.model line.old) (N.model line.new) (S.model shelf.old)
        (S.model shelf.new) }
{
    match serve_lent_store(alloc, most, setup, shelf, line) {
        Stopped::Done => Status::Done,
        Stopped::Line => Status::Line,
    }
}

/// Serves as many connections as `most` says, or until there is none, from the shelf.
fn serve_lent_store<N: Line<NoCount>, S: Shelf>(
    alloc: Global,
    most: u64,
    setup: &Setup,
    shelf: &mut S,
    line: &mut N,
) -> Stopped
    ensures line { LineServesAll (Some most) result (N.model line.old) (N.model line.new) }
    ensures serves { (told : Bool) → (IsTrue told → IsTrue (S.model shelf.old).observable)
        → IsTrue (N.model line.old).observable
        → RunTrace told setup.now.place (run_cursor (N.model line.old) (S.model shelf.old))
        (run_cursor (N.model line.new) (S.model shelf.new)) }
{
    let none = NoCount;
    serve_all(
        alloc,
        Some(most),
        &mut LentStore {
            alloc,
            setup,
            shelf,
            none,
        },
        line,
    )
}

/// What the store needs beside its shelf.
fn setup_of_lent_store(alloc: Global, asked: Asked) -> Result<Setup, Memory>
    requires { IsPlace (place_by asked) }
    ensures { IfOk result (λ setup. setup.place ≡ place_by asked) }
{
    let refusals = Refusals::new(alloc)?;
    let place = place_of_lent_store(alloc, asked)?;
    Ok(Setup { place, refusals })
}

/// The place of the store.
fn place_of_lent_store(alloc: Global, asked: Asked) -> Result<Place, Memory>
    ensures { IfOk result (λ place. place ≡ place_by asked) }
{
    Ok(Place {
        host: Bytes::from_slice(alloc, HOST)?,
        account: asked.account,
        token: asked.token,
    })
}

/// Reports how a run ended. The answer is its exit status.
fn report_store_run<R: Sink>(status: Status, report: &mut R) -> u8
    ensures code { result ≡ code_of status }
    ensures reports { Reports (line_of status) (R.model report.old) (R.model report.new) }
    ensures silent { result ≡ 0 → report.new ≡ report.old }
{
    if let Status::Done = status {
        return 0;
    }
    let _ = report.put(status.line());
    status.code()
}
