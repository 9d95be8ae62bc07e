//! The number of the last commit, in a file of its own.

use crate::fault::{BodyFault, fault_of_call};
use std::fs::File;
use std::io;
use std::os::unix::fs::FileExt;

/// A file of eight bytes that has a number. A write isn't synced: after a kill the file has the number that was written last, and
/// after a loss of power that one or an earlier one.
#[derive(Drop)]
pub struct NumberFile {
    file: File,
}

impl NumberFile {
    /// The file of this path, which is made where there is none.
    pub fn open(rt: &HostRuntime, path: &str) -> Result<NumberFile, BodyFault> {
        let mut how = File::options();
        match how.read(true).write(true).create(true).open(rt, path) {
            Ok(file) => Ok(NumberFile { file }),
            Err(error) => Err(fault_of_call(error)),
        }
    }

    /// The number that was written last, high byte first: none where none was.
    pub fn number(&self) -> Result<Option<u64>, BodyFault> {
        number_in_file(&self.file)
    }

    /// Writes a number over it. Without a sync.
    pub fn set(&self, number: u64) -> Result<(), BodyFault> {
        match self.file.write_all_at(&number.to_be_bytes(), 0) {
            Ok(()) => Ok(()),
            Err(error) => Err(fault_of_call(error)),
        }
    }
}

fn number_in_file(file: &File) -> Result<Option<u64>, BodyFault> {
    let mut bytes = [0; 8];
    match file.read_exact_at(&mut bytes, 0) {
        Ok(()) => Ok(Some(u64::from_be_bytes(bytes))),
        Err(error) => match fault_of_call(error) {
            BodyFault::Damaged => Ok(None),
            fault => Err(fault),
        },
    }
}

/// The number that stands in the file of a path: none where there is no such file.
pub(crate) fn number_at(rt: &HostRuntime, path: &str) -> Result<Option<u64>, BodyFault> {
    match File::open(rt, path) {
        Ok(file) => number_in_file(&file),
        Err(error) => match error.kind() {
            io::ErrorKind::NotFound => Ok(None),
            _ => Err(fault_of_call(error)),
        },
    }
}
