//! Words and variables.

use crate::fault::{SetupFault, Why};
use gate_base::Bytes;
use std::env;
use std::env::VarError;
use std::io::ErrorKind;

/// The most bytes of a field.
const LONGEST: usize = 1024;

/// The runtime once more, for what owns one.
pub fn clone_environment_runtime(rt: &HostRuntime) -> Result<HostRuntime, SetupFault> {
    match rt.clone() {
        Ok(own) => Ok(own),
        Err(_) => Err(SetupFault::Memory),
    }
}

/// A variable of the environment, where it is there. One that isn't UTF-8 is refused.
pub fn variable(rt: &HostRuntime, name: &'static str) -> Result<Option<String>, SetupFault> {
    match env::var(rt, name) {
        Ok(text) => Ok(Some(text)),
        Err(VarError::NotPresent) => Ok(None),
        Err(VarError::NotUnicode) => Err(SetupFault::Variable(name, Why::NotText)),
        Err(VarError::OutOfMemory) => Err(SetupFault::Memory),
    }
}

/// The number that a variable says, from 1 to the most that there may be, or else the usual one.
pub fn number_in_variable(
    rt: &HostRuntime,
    name: &'static str,
    usual: u64,
    most: u64,
) -> Result<u64, SetupFault> {
    let Some(text) = variable(rt, name)? else {
        return Ok(usual);
    };
    match text.as_str().parse::<u64>() {
        Ok(number) if 1 <= number && number <= most => Ok(number),
        _ => Err(SetupFault::Variable(name, Why::NotNumber(most))),
    }
}

/// The number that a variable says, from 0 to the most that there may be, or else the usual one.
pub fn number_from_zero_in_variable(
    rt: &HostRuntime,
    name: &'static str,
    usual: u64,
    most: u64,
) -> Result<u64, SetupFault> {
    let Some(text) = variable(rt, name)? else {
        return Ok(usual);
    };
    match text.as_str().parse::<u64>() {
        Ok(number) if number <= most => Ok(number),
        _ => Err(SetupFault::Variable(name, Why::NotCount(most))),
    }
}

/// Whether a variable says `on`, as it does where it isn't there, or `off`.
pub fn is_variable_on(rt: &HostRuntime, name: &'static str) -> Result<bool, SetupFault> {
    let Some(text) = variable(rt, name)? else {
        return Ok(true);
    };
    match text.as_bytes() {
        b"on" => Ok(true),
        b"off" => Ok(false),
        _ => Err(SetupFault::Variable(name, Why::NotSwitch)),
    }
}

/// The bytes of a variable that has to be there: 1 to 1024 of visible ASCII.
pub fn required_variable(rt: &HostRuntime, name: &'static str) -> Result<Bytes, SetupFault> {
    let Some(text) = variable(rt, name)? else {
        return Err(SetupFault::Variable(name, Why::Missing));
    };
    match variable_text_fault(text.as_bytes()) {
        Some(why) => Err(SetupFault::Variable(name, why)),
        None => Ok(Bytes::from_slice(rt.alloc(), text.as_bytes())?),
    }
}

fn variable_text_fault(text: &[u8]) -> Option<Why> {
    if text.is_empty() {
        Some(Why::Empty)
    } else if text.len() > LONGEST || !text.iter().all(|byte| byte.is_ascii_graphic()) {
        Some(Why::NotField)
    } else {
        None
    }
}

/// The words after the program's name. Words that are no text count as none, which are refused.
pub fn words(rt: &HostRuntime) -> Result<Vec<String>, SetupFault> {
    let mut words = Vec::new(rt.alloc());
    match env::args(rt) {
        Ok(all) => {
            for word in all.skip(1) {
                if words.push(word).is_err() {
                    return Err(SetupFault::Memory);
                }
            }
            Ok(words)
        }
        Err(error) if error.kind() == ErrorKind::OutOfMemory => Err(SetupFault::Memory),
        Err(_) => Ok(words),
    }
}
