//! The file that keeps an account.

use body_files::{Beside, BodyFault, test_log_beside};
use sqlite::{Connection, Error, ErrorCode, File, FileStore};
use std::fs;

/// A connection to a file. That it is one of SQLite's stores is proved anew in each function that calls a generic one for it,
/// which is dear: so there is to be one such call, of a function that is generic over the connection and does all.
pub type FileConnection = Connection<FileStore<File>>;

/// Why a file can't be opened.
#[derive(Clone, Copy, Debug, PartialEq, Eq)]
pub enum FileFault {
    Memory,
    /// The file has more bytes than it may have.
    TooLarge,
    /// Another process has it.
    InUse,
    /// It is no database, or a damaged one, or has tables of these names with other columns.
    NoDatabase,
    /// Its log has commits behind a frame that isn't what was written.
    DamagedLog,
    /// Commits that were answered aren't in it.
    Behind,
    DiskFull,
    /// The system doesn't open it, or it can't be written.
    CannotOpen,
}

/// A connection to the file of this path, which is made where there is none. It is refused where it has more bytes than `most`:
/// an open takes all rows into memory together, the bodies that stand in them too.
pub fn open_file(rt: &HostRuntime, path: &str, most: u64) -> Result<FileConnection, FileFault> {
    if is_larger(rt, path, most) {
        return Err(FileFault::TooLarge);
    }
    if let Err(fault) = test_log_beside(rt, path) {
        return Err(fault_of_log(fault));
    }
    match Connection::open_with_sums(rt, path) {
        Ok(connection) => Ok(connection),
        Err(error) => Err(fault_of_open(error)),
    }
}

/// What stands beside the file of this path: it is made where it isn't there, so the file is to be open.
pub fn open_beside(rt: &HostRuntime, path: &str) -> Result<Beside, FileFault> {
    match Beside::open(rt, path) {
        Ok(beside) => Ok(beside),
        Err(fault) => Err(fault_of_beside(fault)),
    }
}

/// Ends what stands over a file: the log beside it is written into it.
pub fn close_file(connection: FileConnection) {
    let _ = connection.close();
}

/// Whether there is a file of more bytes than that.
fn is_larger(rt: &HostRuntime, path: &str, most: u64) -> bool {
    match fs::metadata(rt, path) {
        Ok(told) => told.len() > most,
        Err(_) => false,
    }
}

fn fault_of_log(fault: BodyFault) -> FileFault {
    match fault {
        BodyFault::Memory => FileFault::Memory,
        BodyFault::Refused => FileFault::CannotOpen,
        BodyFault::Damaged => FileFault::DamagedLog,
    }
}

pub(crate) fn fault_of_beside(fault: BodyFault) -> FileFault {
    match fault {
        BodyFault::Memory => FileFault::Memory,
        BodyFault::Refused | BodyFault::Damaged => FileFault::CannotOpen,
    }
}

pub(crate) fn fault_of_open(error: Error) -> FileFault {
    match error {
        Error::SqliteFailure(ErrorCode::OutOfMemory) => FileFault::Memory,
        Error::SqliteFailure(ErrorCode::DatabaseBusy) => FileFault::InUse,
        Error::SqliteFailure(ErrorCode::DiskFull) => FileFault::DiskFull,
        Error::SqliteFailure(ErrorCode::NotADatabase | ErrorCode::DatabaseCorrupt) => {
            FileFault::NoDatabase
        }
        _ => FileFault::CannotOpen,
    }
}
