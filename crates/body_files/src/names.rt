//! The names of the files: a number in 16 hexadecimal digits, and behind them what stage the file is in.
ghost use Rattle.std.specs.Prelude.{◌≡◌};

use crate::fault::BodyFault;
use std::alloc::Global;

/// The stage of a file.
#[derive(Clone, Copy, Debug, PartialEq, Eq)]
pub enum Stage {
    /// It is written, and no row is known to tell of it.
    New,
    /// A row tells of it.
    Kept,
    /// A row tells of it, and the call that runs may end that.
    Old,
    /// A row told of it, and none told at a start.
    Lost,
}

impl Stage {
    /// How its name ends.
    fn ending(self) -> &'static str {
        match self {
            Stage::New => ".new",
            Stage::Kept => "",
            Stage::Old => ".old",
            Stage::Lost => ".lost",
        }
    }
}

fn digits_of(number: u64) -> [u8; 16] {
    let mut digits = [0; 16];
    if hex::encode_to_slice(number.to_be_bytes(), &mut digits).is_err() {
        unreachable!();
    }
    digits
}

/// The path of the file of a number.
pub(crate) fn path_of(
    alloc: Global,
    folder: &str,
    number: u64,
    stage: Stage,
) -> Result<String, BodyFault> {
    let mut path = String::from_str(alloc, folder)?;
    path.push('/')?;
    for digit in &digits_of(number) {
        path.push(char::from(*digit))?;
    }
    path.push_str(stage.ending())?;
    Ok(path)
}

fn number_of(digits: &[u8]) -> Option<u64> {
    let mut bytes = [0; 8];
    match hex::decode_to_slice(digits, &mut bytes) {
        Ok(()) => Some(u64::from_be_bytes(bytes)),
        Err(_) => None,
    }
}

/// The number and the stage of a file of that name: none of a name of another form.
pub(crate) fn file_of_name(name: &str) -> Option<(u64, Stage)> {
    for stage in [Stage::New, Stage::Old, Stage::Lost, Stage::Kept] {
        if let Some(front) = name.strip_suffix(stage.ending()) {
            return match number_of(front.as_bytes()) {
                Some(number) => Some((number, stage)),
                None => None,
            };
        }
    }
    None
}
