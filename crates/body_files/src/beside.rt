//! The files beside those of a database, by its path.

use crate::fault::BodyFault;
use crate::folder::BodyFolder;
use crate::log::test_log;
use crate::number::{NumberFile, number_at};
use std::alloc::Global;

/// What stands behind the path of a database in that of the folder of its bodies.
const BODIES: &str = "-bodies";

/// The same of the file that has the number of its last commit.
const COMMITS: &str = "-commits";

/// The same of its log, by SQLite.
const LOG: &str = "-wal";

/// What stands beside the tables of a database: the folder of its larger bodies, and the number of its last commit.
#[derive(Drop)]
pub struct Beside {
    pub bodies: BodyFolder,
    pub commits: NumberFile,
}

impl Beside {
    /// What stands beside the database of this path, which is made where there is none.
    pub fn open(rt: &HostRuntime, path: &str) -> Result<Beside, BodyFault> {
        let folder = path_beside(rt.alloc(), path, BODIES)?;
        let bodies = match rt.clone() {
            Ok(own) => BodyFolder::open(own, folder)?,
            Err(_) => return Err(BodyFault::Memory),
        };
        let commits = path_beside(rt.alloc(), path, COMMITS)?;
        let commits = NumberFile::open(rt, commits.as_str())?;
        Ok(Beside { bodies, commits })
    }
}

/// A path with this behind it.
pub fn path_beside(alloc: Global, path: &str, ending: &str) -> Result<String, BodyFault> {
    let mut beside = String::from_str(alloc, path)?;
    beside.push_str(ending)?;
    Ok(beside)
}

/// Tests the log of the database of this path, before it is opened: an open cuts a log that is damaged, and ends what stood behind.
/// Damaged where commits stand behind a frame that isn't what was written, which no stop leaves. Where no commit was numbered it
/// isn't tested.
pub fn test_log_beside(rt: &HostRuntime, path: &str) -> Result<(), BodyFault> {
    let commits = path_beside(rt.alloc(), path, COMMITS)?;
    if number_at(rt, commits.as_str())?.is_none() {
        return Ok(());
    }
    let log = path_beside(rt.alloc(), path, LOG)?;
    test_log(rt, log.as_str())
}
