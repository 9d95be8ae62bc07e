//! A folder of bodies.
ghost use Rattle.std.specs.Prelude.{◌≡◌, ◌≤◌, ◌-◌, length, IfOk};

use crate::fault::{BodyFault, fault_of_call};
use crate::names::{Stage, file_of_name, path_of};
use crate::sums::{PIECE, SUM, piece_sum, sums_of};
use gate_base::{Bytes, List};
use std::alloc::Global;
use std::fs;
use std::fs::File;
use std::os::unix::fs::FileExt;

/// The files of a folder, each with a body and behind it the sums of its pieces.
#[derive(Drop)]
pub struct BodyFolder {
    rt: HostRuntime,
    path: String,
}

/// The file of a body: its number and the size of the body.
#[derive(Clone, Copy, Debug, PartialEq, Eq)]
pub struct Place {
    pub number: u64,
    pub size: u64,
}

impl BodyFolder {
    /// The folder of this path, which is made where there is none.
    pub fn open(rt: HostRuntime, path: String) -> Result<BodyFolder, BodyFault> {
        if let Err(error) = fs::create_dir_all(&rt, path.as_str()) {
            return Err(fault_of_call(error));
        }
        Ok(BodyFolder { rt, path })
    }

    /// Writes a body into a new file, and syncs the file and the folder. The file is one that a start removes, until `keep`.
    pub fn write(&self, number: u64, body: &[u8]) -> Result<(), BodyFault> {
        let path = self.path_of(number, Stage::New)?;
        let sums = sums_of(self.rt.alloc(), number, body)?;
        let file = match File::create_new(&self.rt, path.as_str()) {
            Ok(file) => file,
            Err(error) => return Err(fault_of_call(error)),
        };
        write_all(&file, body, sums.as_slice())?;
        self.sync()
    }

    /// Makes a new file one that a start keeps. Without a sync, as each rename: a start knows what a stop left of it.
    pub fn keep(&self, number: u64) -> Result<(), BodyFault> {
        self.rename(number, Stage::New, Stage::Kept)
    }

    /// Makes the file of a number one that a start removes where no row tells of it. A read finds it as before.
    pub fn retire(&self, number: u64) -> Result<(), BodyFault> {
        self.rename(number, Stage::Kept, Stage::Old)
    }

    /// Makes an old file one that a start keeps.
    pub(crate) fn restore(&self, number: u64) -> Result<(), BodyFault> {
        self.rename(number, Stage::Old, Stage::Kept)
    }

    /// Sets a file of which no row tells aside.
    pub(crate) fn set_aside(&self, number: u64) -> Result<(), BodyFault> {
        self.rename(number, Stage::Kept, Stage::Lost)
    }

    /// Removes the file of a number, in whatever stage.
    pub fn remove(&self, number: u64) -> Result<(), BodyFault> {
        let mut answer = Err(BodyFault::Refused);
        for stage in [Stage::Old, Stage::New, Stage::Kept] {
            if answer.is_err() {
                answer = self.remove_at(number, stage);
            }
        }
        answer
    }

    /// The bytes of a body from one place to another: none where these aren't within. Each piece that has one of them is read
    /// whole and held against its sum.
    pub fn read(&self, place: Place, from: u64, end: u64) -> Result<Bytes, BodyFault>
        ensures { IfOk result (λ part. from ≤ end → end ≤ place.size → length part ≡ end - from) }
    {
        if from >= end || end > place.size {
            return Ok(Bytes::new(self.rt.alloc()));
        }
        let file = self.open_file(place.number)?;
        let part = read_part(self.rt.alloc(), &file, place, from, end)?;
        if part.len() as u64 != end - from {
            return Err(BodyFault::Damaged);
        }
        Ok(part)
    }

    /// The files of the folder: the number and the stage of each.
    pub(crate) fn files(&self) -> Result<List<(u64, Stage)>, BodyFault> {
        let mut files = List::new(self.rt.alloc());
        let entries = match fs::read_dir(&self.rt, self.path.as_str()) {
            Ok(entries) => entries,
            Err(error) => return Err(fault_of_call(error)),
        };
        for entry in entries {
            match entry {
                Ok(entry) => {
                    if let Some(file) = file_of_name(entry.file_name()) {
                        files.push(file)?;
                    }
                }
                Err(error) => return Err(fault_of_call(error)),
            }
        }
        Ok(files)
    }

    fn path_of(&self, number: u64, stage: Stage) -> Result<String, BodyFault> {
        path_of(self.rt.alloc(), self.path.as_str(), number, stage)
    }

    /// The file of a body, in whatever stage.
    fn open_file(&self, number: u64) -> Result<File, BodyFault> {
        let mut answer = self.open_at(number, Stage::Kept);
        for stage in [Stage::New, Stage::Old] {
            if answer.is_err() {
                answer = self.open_at(number, stage);
            }
        }
        answer
    }

    fn open_at(&self, number: u64, stage: Stage) -> Result<File, BodyFault> {
        let path = self.path_of(number, stage)?;
        match File::open(&self.rt, path.as_str()) {
            Ok(file) => Ok(file),
            Err(error) => Err(fault_of_call(error)),
        }
    }

    fn sync(&self) -> Result<(), BodyFault> {
        let folder = match File::open(&self.rt, self.path.as_str()) {
            Ok(folder) => folder,
            Err(error) => return Err(fault_of_call(error)),
        };
        match folder.sync_all() {
            Ok(()) => Ok(()),
            Err(error) => Err(fault_of_call(error)),
        }
    }

    fn rename(&self, number: u64, old: Stage, new: Stage) -> Result<(), BodyFault> {
        let from = self.path_of(number, old)?;
        let to = self.path_of(number, new)?;
        match fs::rename(&self.rt, from.as_str(), to.as_str()) {
            Ok(()) => Ok(()),
            Err(error) => Err(fault_of_call(error)),
        }
    }

    /// Removes the file of a number in a stage.
    pub(crate) fn remove_at(&self, number: u64, stage: Stage) -> Result<(), BodyFault> {
        let path = self.path_of(number, stage)?;
        match fs::remove_file(&self.rt, path.as_str()) {
            Ok(()) => Ok(()),
            Err(error) => Err(fault_of_call(error)),
        }
    }
}

fn write_all(file: &File, body: &[u8], sums: &[u8]) -> Result<(), BodyFault> {
    if let Err(error) = file.write_all_at(body, 0) {
        return Err(fault_of_call(error));
    }
    if let Err(error) = file.write_all_at(sums, body.len() as u64) {
        return Err(fault_of_call(error));
    }
    match file.sync_all() {
        Ok(()) => Ok(()),
        Err(error) => Err(fault_of_call(error)),
    }
}

/// The bytes from one place to another, piece by piece.
fn read_part(
    alloc: Global,
    file: &File,
    place: Place,
    from: u64,
    end: u64,
) -> Result<Bytes, BodyFault> {
    let mut part = Bytes::with_room(alloc, end.saturating_sub(from) as usize)?;
    let mut piece: Vec<u8> = Vec::new(alloc);
    piece.resize(PIECE as usize, 0)?;
    for index in from / PIECE..end.div_ceil(PIECE) {
        let bytes = read_piece(file, place, index, &mut piece)?;
        let start = index.saturating_mul(PIECE);
        append_within(bytes, start, from, end, &mut part)?;
    }
    Ok(part)
}

/// The piece of a body at a place, once it has its sum.
fn read_piece<'p>(
    file: &File,
    place: Place,
    index: u64,
    piece: &'p mut Vec<u8>,
) -> Result<&'p [u8], BodyFault> {
    let start = index.saturating_mul(PIECE);
    let size = place.size.saturating_sub(start).min(piece.len() as u64);
    let bytes = &mut piece[..size as usize];
    read_exact(file, bytes, start)?;
    let mut sum = [0u8; 16];
    read_exact(
        file,
        &mut sum,
        place.size.saturating_add(index.saturating_mul(SUM)),
    )?;
    if piece_sum(place.number, index, bytes) == sum {
        Ok(bytes)
    } else {
        Err(BodyFault::Damaged)
    }
}

fn read_exact(file: &File, bytes: &mut [u8], at: u64) -> Result<(), BodyFault> {
    match file.read_exact_at(bytes, at) {
        Ok(()) => Ok(()),
        Err(error) => Err(fault_of_call(error)),
    }
}

/// Appends what of the bytes that begin at `start` is within.
fn append_within(
    bytes: &[u8],
    start: u64,
    from: u64,
    end: u64,
    part: &mut Bytes,
) -> Result<(), BodyFault> {
    let len = bytes.len() as u64;
    let low = from.saturating_sub(start).min(len);
    let high = end.saturating_sub(start).min(len);
    if low < high {
        part.append(&bytes[low as usize..high as usize])?;
    }
    Ok(())
}
