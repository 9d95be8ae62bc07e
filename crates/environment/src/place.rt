//! Places: a host and a port.

use crate::fault::{SetupFault, Why};
use crate::given::variable;
use std::io::ErrorKind;
use std::net::TcpListener;

/// What is wrong with the text of a place: a host's name or number, a colon, and a port up to 65535. The host isn't looked up.
pub fn place_fault(text: &str) -> Option<Why> {
    if text.is_empty() {
        Some(Why::Empty)
    } else if text.contains("://") {
        Some(Why::Scheme)
    } else {
        place_host_or_port_fault(text)
    }
}

fn place_host_or_port_fault(text: &str) -> Option<Why> {
    match text.rsplit_once(':') {
        Some(("", _)) => Some(Why::NoHost),
        Some((_, port)) if port.parse::<u16>().is_ok() => None,
        _ => Some(Why::NoPort),
    }
}

/// A listener at the place that a variable names.
pub fn listener_at_variable_place(
    rt: &HostRuntime,
    name: &'static str,
) -> Result<TcpListener, SetupFault> {
    let Some(text) = variable(rt, name)? else {
        return Err(SetupFault::Variable(name, Why::Missing));
    };
    if let Some(why) = place_fault(text.as_str()) {
        return Err(SetupFault::Variable(name, why));
    }
    match TcpListener::bind(rt, text.as_str()) {
        Ok(listener) => Ok(listener),
        Err(error) if error.kind() == ErrorKind::OutOfMemory => Err(SetupFault::Memory),
        Err(error) => Err(SetupFault::Variable(name, Why::of_listener(error.kind()))),
    }
}
