//! Why a program can't begin.

use gate_base::{Bytes, Memory};
use itoa::Buffer;
use std::alloc::Global;
use std::io::{ErrorKind, Write};

/// What is wrong with a variable or an option, or with what it names.
#[derive(Clone, Copy, Debug, PartialEq, Eq)]
pub enum Why {
    /// It isn't there, or has no byte.
    Missing,
    Empty,
    /// It, or the file that it names, isn't UTF-8.
    NotText,
    /// It isn't 1 to 1024 bytes of visible ASCII.
    NotField,
    /// It isn't a number from 1 to this one.
    NotNumber(u64),
    /// It isn't a number from 0 to this one.
    NotCount(u64),
    /// It holds no body of so many bytes.
    BelowBody(u64),
    /// It is neither `on` nor `off`.
    NotSwitch,
    /// It has a scheme, as `http://`, where a host and a port are wanted.
    Scheme,
    /// It doesn't end in a colon and a port, or has nothing before them.
    NoPort,
    NoHost,
    /// The system's answers.
    NotFound,
    InUse,
    Elsewhere,
    Denied,
    CannotListen,
    NoFile,
    Folder,
    FileDenied,
    Unreadable,
    /// The file that it names: another process has it, it is none of SQLite's or is damaged, its log is damaged, it hasn't all that
    /// was answered, its disk is full.
    FileInUse,
    NoDatabase,
    DamagedLog,
    Behind,
    DiskFull,
    /// It has more bytes than half of the machine's memory has.
    TooLarge,
    CannotOpen,
    /// The store that it names can't bear the gateway, by its own word: no static large objects, or fewer segments in one, or fewer bytes in
    /// an object, than this number.
    NoSlo,
    FewSegments(u64),
    SmallObjects(u64),
    /// The store answered with this status.
    Answered(u64),
}

/// Why a program can't begin: memory ran out, or a variable or an option won't do.
#[derive(Clone, Copy, Debug, PartialEq, Eq)]
pub enum SetupFault {
    Memory,
    Variable(&'static str, Why),
}

impl From<Memory> for SetupFault {
    fn from(_: Memory) -> SetupFault {
        SetupFault::Memory
    }
}

impl Why {
    /// The cause where a file can't be read.
    pub fn of_file(kind: ErrorKind) -> Why {
        match kind {
            ErrorKind::NotFound => Why::NoFile,
            ErrorKind::PermissionDenied => Why::FileDenied,
            ErrorKind::IsADirectory => Why::Folder,
            ErrorKind::InvalidData => Why::NotText,
            _ => Why::Unreadable,
        }
    }

    /// The cause where nothing can listen at a place.
    pub fn of_listener(kind: ErrorKind) -> Why {
        match kind {
            ErrorKind::AddrInUse => Why::InUse,
            ErrorKind::AddrNotAvailable => Why::Elsewhere,
            ErrorKind::PermissionDenied => Why::Denied,
            ErrorKind::Uncategorized => Why::NotFound,
            _ => Why::CannotListen,
        }
    }

    /// The number that stands behind the text.
    fn number(self) -> Option<u64> {
        match self {
            Why::NotNumber(number)
            | Why::NotCount(number)
            | Why::BelowBody(number)
            | Why::FewSegments(number)
            | Why::SmallObjects(number)
            | Why::Answered(number) => Some(number),
            _ => None,
        }
    }

    fn text(self) -> &'static [u8] {
        match self {
            Why::Missing => b"missing",
            Why::Empty => b"empty",
            Why::NotText => b"not UTF-8",
            Why::NotField => b"not 1 to 1024 bytes of visible ASCII",
            Why::NotNumber(_) => b"not a number from 1 to ",
            Why::NotCount(_) => b"not a number from 0 to ",
            Why::BelowBody(_) => b"holds no body of so many bytes: ",
            Why::NotSwitch => b"neither on nor off",
            Why::Scheme => b"has a scheme, where HOST:PORT is wanted",
            Why::NoPort => b"no port, where HOST:PORT is wanted",
            Why::NoHost => b"no host, where HOST:PORT is wanted",
            Why::NotFound => b"cannot be looked up",
            Why::InUse => b"address in use",
            Why::Elsewhere => b"no address of this machine",
            Why::Denied => b"permission denied",
            Why::CannotListen => b"cannot be listened at",
            Why::NoFile => b"cannot be read: no such file",
            Why::Folder => b"cannot be read: a folder",
            Why::FileDenied => b"cannot be read: permission denied",
            Why::Unreadable => b"cannot be read",
            Why::FileInUse => b"in use by another process",
            Why::NoDatabase => b"no database, or a damaged one",
            Why::DamagedLog => b"a damaged log",
            Why::Behind => b"changes that were answered are missing",
            Why::DiskFull => b"no room on the disk",
            Why::TooLarge => b"larger than half of the machine's memory",
            Why::CannotOpen => b"cannot be opened and written",
            Why::NoSlo => b"the store has no slo in its pipeline",
            Why::FewSegments(_) => b"the store takes no manifest of so many segments: ",
            Why::SmallObjects(_) => b"the store takes no object of so many bytes: ",
            Why::Answered(_) => b"the store answered ",
        }
    }
}

/// The line that says why, with its end: the variable's name, a colon, and the cause. Nothing of the variable's text is in it.
pub fn variable_fault_line(alloc: Global, name: &str, why: Why) -> Result<Bytes, Memory> {
    let mut line = Bytes::from_slice(alloc, name.as_bytes())?;
    append_variable_fault(&mut line, why)?;
    line.append(b"\n")?;
    Ok(line)
}

fn append_variable_fault(line: &mut Bytes, why: Why) -> Result<(), Memory> {
    line.append(b": ")?;
    line.append(why.text())?;
    if let Some(number) = why.number() {
        let mut digits = Buffer::new();
        return line.append(digits.format(number).as_bytes());
    }
    Ok(())
}

/// Writes that the program can't begin, and why, to standard error: that line first, and then the one that says why.
pub fn report_variable_fault(rt: &HostRuntime, line: &[u8], name: &str, why: Why) {
    let mut output = rt.stderr();
    let _ = output.write_all(line);
    if let Ok(second) = variable_fault_line(rt.alloc(), name, why) {
        let _ = output.write_all(second.as_slice());
    }
}
