//! The clients that come to the place that a variable names, with a log of what they are answered.

use crate::fault::{SetupFault, Why};
use crate::given::{
    clone_environment_runtime, is_variable_on, number_from_zero_in_variable, number_in_variable,
};
use crate::place::listener_at_variable_place;
use gate_base::StdSink;
use sockets::{Bounds, TcpLine};
use std::io::ErrorKind;
use std::net::SocketAddr;
use wire_log::{Log, LoggedLine, Peers};

/// The most seconds of a limit of time: a day.
pub const LONGEST: u64 = 86_400;

/// How many seconds a client may be silent, where the variable doesn't say.
const USUAL_IDLE: u64 = 60;

/// How many MiB are read ahead of clients or kept to be sent to them in all, where the variable doesn't say, and at most.
const USUAL_AHEAD: u64 = 64;

const MOST_AHEAD: u64 = 65_536;

/// How many KiB a client moves at least in 5 seconds for which others wait for it, where the variable doesn't say, and at most: a
/// fast network's.
const USUAL_FLOOR: u64 = 320;

const MOST_FLOOR: u64 = 1_048_576;

const KIBIBYTE: u64 = 1_024;

const MEBIBYTE: u64 = 1_048_576;

/// A log on standard error.
pub type ErrorLog = Log<StdSink, HostRuntime>;

/// The clients, with a log of their replies on standard error.
pub type Clients = LoggedLine<TcpLine<HostRuntime>, StdSink, HostRuntime, SocketPeers>;

/// Asks a line of sockets for its client.
#[derive(Clone, Copy, Debug)]
pub struct SocketPeers;

impl Peers<TcpLine<HostRuntime>> for SocketPeers {
    fn peer(&self, line: &TcpLine<HostRuntime>) -> Option<SocketAddr> {
        line.peer()
    }

    fn waited(&self, line: &TcpLine<HostRuntime>) -> u64 {
        line.waited()
    }

    fn was_slow(&self, line: &TcpLine<HostRuntime>) -> bool {
        line.was_slow()
    }

    fn refusal(&self, line: &TcpLine<HostRuntime>) -> &'static [u8] {
        line.refusal()
    }
}

/// How many seconds a client may be silent, by a variable: 60 where it is missing, and at most a day.
pub fn idle_limit(rt: &HostRuntime, name: &'static str) -> Result<u64, SetupFault> {
    number_in_variable(rt, name, USUAL_IDLE, LONGEST)
}

/// How many bytes are read ahead or kept to be sent in all, by a variable that says it in MiB: 64 MiB where it is missing, and at most
/// 64 GiB.
pub fn ahead_limit(rt: &HostRuntime, name: &'static str) -> Result<u64, SetupFault> {
    let count = number_in_variable(rt, name, USUAL_AHEAD, MOST_AHEAD)?;
    Ok(count.saturating_mul(MEBIBYTE))
}

/// How many bytes a client moves at least in 5 seconds for which others wait for it, by a variable that says it in KiB: 320 KiB where it is
/// missing. With 0 there is no floor.
pub fn floor_limit(rt: &HostRuntime, name: &'static str) -> Result<u64, SetupFault> {
    let count = number_from_zero_in_variable(rt, name, USUAL_FLOOR, MOST_FLOOR)?;
    Ok(count.saturating_mul(KIBIBYTE))
}

/// A log on standard error, unless a variable ends it.
pub fn error_log(rt: &HostRuntime, name: &'static str) -> Result<ErrorLog, SetupFault> {
    let is_on = is_variable_on(rt, name)?;
    let sink = StdSink::error(clone_environment_runtime(rt)?);
    Ok(Log::new(clone_environment_runtime(rt)?, rt.alloc(), sink, is_on))
}

/// The clients that come to the place which a variable names.
///
/// The listener is the first that is opened and stays. So where standard error is closed its number is the listener's, to which no
/// line can be written, and never that of a client or of the store.
pub fn clients_at_variable_place(
    rt: &HostRuntime,
    listen: &'static str,
    log: ErrorLog,
    bounds: Bounds,
) -> Result<Clients, SetupFault> {
    let listener = listener_at_variable_place(rt, listen)?;
    match TcpLine::new(
        clone_environment_runtime(rt)?,
        rt.alloc(),
        listener,
        None,
        bounds,
    ) {
        Ok(line) => Ok(LoggedLine::new(line, log, SocketPeers)),
        Err(error) if error.kind() == ErrorKind::OutOfMemory => Err(SetupFault::Memory),
        Err(_) => Err(SetupFault::Variable(listen, Why::CannotListen)),
    }
}
