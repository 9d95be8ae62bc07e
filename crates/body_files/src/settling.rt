//! What a start makes of the files of a folder.

use crate::fault::BodyFault;
use crate::folder::BodyFolder;
use crate::names::Stage;

/// What a start found.
#[derive(Clone, Copy, Debug, PartialEq, Eq)]
pub struct Settled {
    /// Files of which no row tells, which no stop leaves. They were set aside.
    pub lost: u64,
    /// Rows whose file isn't there, which no stop leaves.
    pub missing: u64,
    /// A number above those of all rows and files.
    pub next: u64,
}

/// Keeps each file of which a row tells, removes new and old ones of which none tells, and sets kept ones of which none tells aside.
/// The numbers are those that rows tell, in order. What the system refuses stays as it is, for the next start.
pub fn settle(bodies: &BodyFolder, numbers: &[u64]) -> Result<Settled, BodyFault> {
    let mut lost = 0u64;
    let mut told = 0u64;
    let mut next = match numbers.last() {
        Some(last) => last.saturating_add(1),
        None => 1,
    };
    for (number, stage) in bodies.files()?.as_slice() {
        next = next.max(number.saturating_add(1));
        if *stage == Stage::Lost {
            continue;
        }
        if numbers.binary_search(number).is_ok() {
            told = told.saturating_add(1);
            keep_file(bodies, *number, *stage);
        } else {
            if *stage == Stage::Kept {
                lost = lost.saturating_add(1);
            }
            end_file(bodies, *number, *stage);
        }
    }
    let missing = (numbers.len() as u64).saturating_sub(told);
    Ok(Settled {
        lost,
        missing,
        next,
    })
}

/// Keeps a file of which a row tells.
fn keep_file(bodies: &BodyFolder, number: u64, stage: Stage) {
    let _ = match stage {
        Stage::New => bodies.keep(number),
        Stage::Old => bodies.restore(number),
        Stage::Kept | Stage::Lost => Ok(()),
    };
}

/// Ends a file of which no row tells.
fn end_file(bodies: &BodyFolder, number: u64, stage: Stage) {
    let _ = match stage {
        Stage::New | Stage::Old => bodies.remove_at(number, stage),
        Stage::Kept => bodies.set_aside(number),
        Stage::Lost => Ok(()),
    };
}
