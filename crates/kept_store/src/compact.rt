//! The tables of a file written anew, without the room that what is gone had.

use crate::file::{
    FileConnection, FileFault, fault_of_beside, fault_of_open, open_beside, open_file,
};
use crate::statements;
use crate::tables::{fault_of_statement, make, make_tables, tested_commit};
use body_files::path_beside;
use sqlite::types::ValueRef;
use sqlite::{Alter, Connection, Error, ErrorCode, params};
use std::alloc::Global;
use std::fs;
use std::fs::File;

/// What stands behind the path of a file in that of the one that takes its place.
const ANEW: &str = "-compact";

/// The same of the log of that one.
const ANEW_LOG: &str = "-compact-wal";

/// Writes the tables of the file of this path into a new one, and puts that in its place, while no other process has the file. A
/// stop leaves the one or the other. A file that isn't there is CannotOpen, one that has tables of another program NoDatabase; what
/// else isn't opened or adopted isn't compacted, by the same faults.
pub fn compact_file(rt: &HostRuntime, path: &str, most: u64) -> Result<(), FileFault> {
    if !fs::exists(rt, path).unwrap_or(false) {
        return Err(FileFault::CannotOpen);
    }
    let anew = beside(rt, path, ANEW)?;
    let log = beside(rt, path, ANEW_LOG)?;
    let mut old = open_file(rt, path, most)?;
    test_commits(rt, path, &mut old)?;
    remove_anew(rt, anew.as_str(), log.as_str());
    match write_anew(rt, path, anew.as_str(), &mut old) {
        Ok(()) => put_in_place(rt, path, anew.as_str(), log.as_str(), old),
        Err(fault) => {
            remove_anew(rt, anew.as_str(), log.as_str());
            Err(fault)
        }
    }
}

fn beside(rt: &HostRuntime, path: &str, ending: &str) -> Result<String, FileFault> {
    match path_beside(rt.alloc(), path, ending) {
        Ok(beside) => Ok(beside),
        Err(fault) => Err(fault_of_beside(fault)),
    }
}

fn test_commits<S: Alter + Drop>(
    rt: &HostRuntime,
    path: &str,
    old: &mut Connection<S>,
) -> Result<(), FileFault> {
    let beside = open_beside(rt, path)?;
    let _ = tested_commit(old, &beside)?;
    Ok(())
}

fn remove_anew(rt: &HostRuntime, anew: &str, log: &str) {
    let _ = fs::remove_file(rt, anew);
    let _ = fs::remove_file(rt, log);
}

/// Writes the new file, with the mode of the old one, and closes it: its log is written into it and synced.
fn write_anew<S: Alter + Drop>(
    rt: &HostRuntime,
    path: &str,
    anew: &str,
    old: &mut Connection<S>,
) -> Result<(), FileFault> {
    let new = match Connection::open_with_sums(rt, anew) {
        Ok(new) => new,
        Err(error) => return Err(fault_of_open(error)),
    };
    if !has_mode_of(rt, path, anew) {
        return Err(FileFault::CannotOpen);
    }
    let new = copy_tables(rt.alloc(), old, new)?;
    match new.close() {
        Ok(()) => Ok(()),
        Err(error) => Err(fault_of_open(error)),
    }
}

fn has_mode_of(rt: &HostRuntime, path: &str, anew: &str) -> bool {
    match fs::metadata(rt, path) {
        Ok(told) => fs::set_permissions(rt, anew, told.permissions()).is_ok(),
        Err(_) => false,
    }
}

/// Puts the new file in the place of the old one, whose log is written into it first: it stays beside the new one, and has nothing.
fn put_in_place(
    rt: &HostRuntime,
    path: &str,
    anew: &str,
    log: &str,
    old: FileConnection,
) -> Result<(), FileFault> {
    match old.close_files() {
        // The files are open until it is done, so that no other process has them.
        Ok(_files) => name_anew(rt, path, anew, log),
        Err((error, _)) => {
            remove_anew(rt, anew, log);
            Err(fault_of_open(error))
        }
    }
}

/// Gives the new file the name of the old one.
fn name_anew(rt: &HostRuntime, path: &str, anew: &str, log: &str) -> Result<(), FileFault> {
    if fs::rename(rt, anew, path).is_err() {
        remove_anew(rt, anew, log);
        return Err(FileFault::CannotOpen);
    }
    let _ = fs::remove_file(rt, log);
    sync_folder_of(rt, path)
}

fn sync_folder_of(rt: &HostRuntime, path: &str) -> Result<(), FileFault> {
    let folder = match path.rsplit_once('/') {
        Some(("", _)) => "/",
        Some((folder, _)) => folder,
        None => ".",
    };
    match File::open(rt, folder) {
        Ok(folder) => match folder.sync_all() {
            Ok(()) => Ok(()),
            Err(_) => Err(FileFault::CannotOpen),
        },
        Err(_) => Err(FileFault::CannotOpen),
    }
}

/// Copies all rows, each table in the order in which they were made.
fn copy_tables<S: Alter + Drop, T: Alter + Drop>(
    alloc: Global,
    old: &mut Connection<S>,
    mut new: Connection<T>,
) -> Result<Connection<T>, FileFault> {
    if has_other_tables(old)? {
        return Err(FileFault::NoDatabase);
    }
    make_tables(&mut new)?;
    copy_table(
        alloc,
        old,
        &mut new,
        statements::EACH_CONTAINER,
        statements::COPY_CONTAINER,
    )?;
    copy_table(
        alloc,
        old,
        &mut new,
        statements::EACH_OBJECT,
        statements::COPY_OBJECT,
    )?;
    copy_table(
        alloc,
        old,
        &mut new,
        statements::EACH_COMMIT,
        statements::COPY_COMMIT,
    )?;
    Ok(new)
}

fn has_other_tables<S: Alter + Drop>(old: &mut Connection<S>) -> Result<bool, FileFault> {
    match old.query_row(statements::OTHERS, &[]) {
        Ok(row) => match row.get::<u64>(0) {
            Ok(count) => Ok(count > 0),
            Err(error) => Err(fault_of_statement(error)),
        },
        Err(error) => Err(fault_of_statement(error)),
    }
}

fn copy_table<S: Alter + Drop, T: Alter + Drop>(
    alloc: Global,
    old: &mut Connection<S>,
    new: &mut Connection<T>,
    each: &str,
    copy: &str,
) -> Result<(), FileFault> {
    let mut last = i64::MIN;
    for _ in 0..u64::MAX {
        let rows = match old.query_all(each, params![last]) {
            Ok(rows) => rows,
            Err(error) => return Err(fault_of_statement(error)),
        };
        let Some(row) = rows.last() else {
            return Ok(());
        };
        last = match row.get(0) {
            Ok(id) => id,
            Err(error) => return Err(fault_of_statement(error)),
        };
        make(new, statements::BEGIN)?;
        copy_rows(alloc, new, &rows, copy)?;
        make(new, statements::COMMIT)?;
    }
    Ok(())
}

fn copy_rows<T: Alter + Drop>(
    alloc: Global,
    new: &mut Connection<T>,
    rows: &[sqlite::Row],
    copy: &str,
) -> Result<(), FileFault> {
    for row in rows {
        if let Err(error) = copy_row(alloc, new, row, copy) {
            return Err(fault_of_statement(error));
        }
    }
    Ok(())
}

/// Copies all columns but the first, which is the row's number.
fn copy_row<T: Alter + Drop>(
    alloc: Global,
    new: &mut Connection<T>,
    row: &sqlite::Row,
    copy: &str,
) -> Result<usize, Error> {
    let mut values: Vec<ValueRef<'_>> = Vec::new(alloc);
    for at in 1..row.column_count() {
        if values.push(row.get_ref(at)?).is_err() {
            return Err(Error::SqliteFailure(ErrorCode::OutOfMemory));
        }
    }
    new.execute(copy, &values)
}
