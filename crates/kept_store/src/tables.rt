//! What is done to the tables by more than one statement.
ghost use Rattle.std.specs.Prelude.{OnOk};
ghost use Rattle.sqlite.specs.Held.{state};
ghost use Rattle.sqlite.specs.Values.{bound};
ghost use Rattle.kept_store.specs.Kept.{Commits, Executed, Numbered};

use crate::file::{FileFault, fault_of_beside};
use crate::rows::numbers_in;
use crate::statements;
use body_files::Beside;
use sqlite::types::ValueRef;
use sqlite::{Alter, Connection, Error, ErrorCode, params};
use std::alloc::Global;

/// The fault of a statement where there is no shelf.
pub(crate) fn fault_of_statement(error: Error) -> FileFault {
    match error {
        Error::SqliteFailure(ErrorCode::OutOfMemory) => FileFault::Memory,
        Error::SqliteFailure(ErrorCode::DiskFull) => FileFault::DiskFull,
        _ => FileFault::NoDatabase,
    }
}

pub(crate) fn make<S: Alter + Drop>(
    connection: &mut Connection<S>,
    text: &str,
) -> Result<(), FileFault> {
    match connection.execute(text, &[]) {
        Ok(_) => Ok(()),
        Err(error) => Err(fault_of_statement(error)),
    }
}

/// Makes the tables where they aren't there, in one transaction.
pub(crate) fn make_tables<S: Alter + Drop>(
    connection: &mut Connection<S>,
) -> Result<(), FileFault> {
    make(connection, statements::BEGIN)?;
    make(connection, statements::MAKE_CONTAINERS)?;
    make(connection, statements::MAKE_OBJECTS)?;
    make(connection, statements::MAKE_COMMITS)?;
    test_columns(connection, statements::TRY_CONTAINERS)?;
    test_columns(connection, statements::TRY_OBJECTS)?;
    test_columns(connection, statements::TRY_COMMITS)?;
    make(connection, statements::MAKE_HEADS)?;
    make(connection, statements::COMMIT)
}

fn test_columns<S: Alter + Drop>(
    connection: &mut Connection<S>,
    text: &str,
) -> Result<(), FileFault> {
    match connection.query_all(text, &[]) {
        Ok(_) => Ok(()),
        Err(error) => Err(fault_of_statement(error)),
    }
}

/// The number of the last commit that the tables have: 0 where none was numbered.
fn last_commit<S: Alter + Drop>(connection: &mut Connection<S>) -> Result<u64, FileFault> {
    match connection.query_row(statements::LAST_COMMIT, &[]) {
        Ok(row) => match row.get(0) {
            Ok(number) => Ok(number),
            Err(error) => Err(fault_of_statement(error)),
        },
        Err(Error::QueryReturnedNoRows) => Ok(0),
        Err(error) => Err(fault_of_statement(error)),
    }
}

/// Whether a higher number than this stands beside the tables: a commit that was answered isn't in them.
fn is_behind(beside: &Beside, last: u64) -> Result<bool, FileFault> {
    match beside.commits.number() {
        Ok(number) => Ok(last < number.unwrap_or(0)),
        Err(fault) => Err(fault_of_beside(fault)),
    }
}

/// The number of the last commit that the tables have, which are made where they aren't there. Behind: a higher one stands beside
/// them.
pub(crate) fn tested_commit<S: Alter + Drop>(
    connection: &mut Connection<S>,
    beside: &Beside,
) -> Result<u64, FileFault> {
    make_tables(connection)?;
    let last = last_commit(connection)?;
    if is_behind(beside, last)? {
        return Err(FileFault::Behind);
    }
    Ok(last)
}

/// The numbers of the files that rows tell, in order.
pub(crate) fn placed_numbers<S: Alter + Drop>(
    alloc: Global,
    connection: &mut Connection<S>,
) -> Result<Vec<u64>, FileFault> {
    match connection.query_all(statements::PLACES, &[]) {
        Ok(rows) => match numbers_in(alloc, rows.as_slice()) {
            Ok(numbers) => Ok(numbers),
            Err(error) => Err(fault_of_statement(error)),
        },
        Err(error) => Err(fault_of_statement(error)),
    }
}

fn executed<S: Alter + Drop>(
    connection: &mut Connection<S>,
    text: &str,
    values: &[ValueRef<'_>],
) -> Result<usize, Error>
    ensures { OnOk result (Executed text.now (bound values.now)
        (state S.Store connection.old) (state S.Store connection.new)) }
{
    connection.execute(text, values)
}

fn numbered<S: Alter + Drop>(connection: &mut Connection<S>, number: i64) -> Result<usize, Error>
    ensures { OnOk result (Numbered number
        (state S.Store connection.old) (state S.Store connection.new)) }
{
    executed(connection, statements::NUMBER, params![number])
}

/// Commits what one statement writes, with its number: how many rows it wrote.
fn commit_begun<S: Alter + Drop>(
    connection: &mut Connection<S>,
    text: &str,
    values: &[ValueRef<'_>],
    number: i64,
) -> Result<usize, Error>
    ensures { OnOk result (Commits (state S.Store) text.now (bound values.now)
        connection.old connection.new) }
{
    let _ = executed(connection, statements::BEGIN, &[])?;
    let count = executed(connection, text, values)?;
    let _ = numbered(connection, number)?;
    let _ = executed(connection, statements::COMMIT, &[])?;
    Ok(count)
}

/// The same. Where it fails, nothing is written.
pub(crate) fn commit<S: Alter + Drop>(
    connection: &mut Connection<S>,
    text: &str,
    values: &[ValueRef<'_>],
    number: i64,
) -> Result<usize, Error>
    ensures { OnOk result (Commits (state S.Store) text.now (bound values.now)
        connection.old connection.new) }
{
    match commit_begun(connection, text, values, number) {
        Ok(count) => Ok(count),
        Err(error) => {
            let _ = connection.execute(statements::ROLLBACK, &[]);
            Err(error)
        }
    }
}
