//! What came, as text, and the first fault that came meanwhile.
use crate::Fault;
use gate_base::{Bytes, List};
use std::alloc::Global;
use std::fmt::{Debug, Write};

/// What is told, and the first fault that came meanwhile. What tells hands on no fault: it notes the fault here and goes on, so
/// its callers needn't ask after each line.
#[derive(Drop)]
pub struct Told {
    text: String,
    fault: Option<Fault>,
}

impl Told {
    pub fn new(alloc: Global) -> Told {
        Told {
            text: String::new(alloc),
            fault: None,
        }
    }

    pub fn text(&self) -> &str {
        self.text.as_str()
    }

    /// The first fault that was noted.
    pub fn fault(&self) -> Option<Fault> {
        self.fault
    }

    /// Notes a fault, if it is the first.
    pub fn note_fault(&mut self, fault: Fault) {
        if self.fault.is_none() {
            self.fault = Some(fault);
        }
    }

    /// Notes that memory ran out, where something wasn't done.
    pub fn check_done<E: Drop>(&mut self, done: Result<(), E>) {
        if done.is_err() {
            self.note_fault(Fault::Memory);
        }
    }

    /// Appends bytes to others.
    pub fn append(&mut self, to: &mut Bytes, bytes: &[u8]) {
        let done = to.append(bytes);
        self.check_done(done);
    }

    /// Appends a value to a list.
    pub fn push<T: Drop>(&mut self, to: &mut List<T>, value: T) {
        let done = to.push(value);
        self.check_done(done);
    }

    /// Appends a text.
    pub fn say(&mut self, text: &str) {
        let done = self.text.push_str(text);
        self.check_done(done);
    }

    /// Appends the text of a value.
    pub fn say_value<T: Debug>(&mut self, value: &T) {
        let done = write!(self.text, "{value:?}");
        self.check_done(done);
    }

    /// Appends a number behind a text.
    pub fn say_number(&mut self, text: &str, number: u64) {
        self.say(text);
        self.say_value(&number);
    }

    /// Notes the fault of another text.
    pub fn note_fault_of(&mut self, other: &Told) {
        if let Some(fault) = other.fault {
            self.note_fault(fault);
        }
    }

    /// Appends another text behind a line that says how it came, where it isn't the usual one. Its fault is noted.
    pub fn say_if_other(&mut self, how: &str, size: u64, other: &Told, usual: &str) {
        self.note_fault_of(other);
        if other.text() != usual {
            self.say_number(how, size);
            self.say(":\n");
            self.say(other.text());
        }
    }

    /// What was made. Where nothing was, it is noted that memory ran out.
    pub fn keep_made<T: Drop, E: Drop>(&mut self, made: Result<T, E>) -> Option<T> {
        match made {
            Ok(value) => Some(value),
            Err(_) => {
                self.note_fault(Fault::Memory);
                None
            }
        }
    }
}

/// Appends the text of a value, and a line end.
pub fn tell_value<T: Debug>(value: &T, told: &mut Told) {
    told.say_value(value);
    told.say("\n");
}

/// The same, of a value that ends with it.
pub fn tell_owned_value<T: Debug + Drop>(made: T, told: &mut Told) {
    tell_value(&made, told);
}

/// A copy of these bytes.
pub fn copy_of_bytes(alloc: Global, bytes: &[u8], told: &mut Told) -> Bytes {
    match Bytes::from_slice(alloc, bytes) {
        Ok(copied) => copied,
        Err(_) => {
            told.note_fault(Fault::Memory);
            Bytes::new(alloc)
        }
    }
}
