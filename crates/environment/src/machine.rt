//! The machine, and what it lets the program have.

use std::fs;

/// Where Linux tells of its memory (proc_meminfo(5)).
const MEMORY: &str = "/proc/meminfo";

const KIBIBYTE: u64 = 1024;

/// Where Linux tells of what a process may have (proc_pid_limits(5)).
const LIMITS: &str = "/proc/self/limits";

/// The most clients that are connected at once.
const MOST_PLACES: u64 = 900;

/// How many descriptors the program has for itself: its standard streams, the listener, what waits for all of them, and a few to spare.
const OWN: u64 = 8;

/// How many are kept for connections to the store, where there are twice as many.
const KEPT: u64 = 16;

/// How many clients are connected at once: at most 900, or as many as there are descriptors beside the program's own and 16 for
/// connections to the store, or half of what is left where that is less than 32. One at least.
pub fn places(rt: &HostRuntime) -> u64 {
    match descriptor_limit(rt) {
        Some(limit) => {
            let free = limit.saturating_sub(OWN);
            free.saturating_sub(KEPT.min(free / 2))
                .max(1)
                .min(MOST_PLACES)
        }
        None => MOST_PLACES,
    }
}

/// How many descriptors the program may have, where the system tells it.
fn descriptor_limit(rt: &HostRuntime) -> Option<u64> {
    match fs::read_to_string(rt, LIMITS) {
        Ok(text) => soft_limit(text.as_str()),
        Err(_) => None,
    }
}

/// The first number behind `Max open files`.
fn soft_limit(text: &str) -> Option<u64> {
    let (_, behind) = text.split_once("Max open files")?;
    let (number, _) = behind.trim_start().split_once(' ')?;
    number.parse::<u64>().ok()
}

/// The bytes of memory that the machine has, where the system tells them.
pub fn machine_memory(rt: &HostRuntime) -> Option<u64> {
    match fs::read_to_string(rt, MEMORY) {
        Ok(text) => total_memory(text.as_str()),
        Err(_) => None,
    }
}

/// As `MemTotal` says it, in `kB` of 1024 bytes.
fn total_memory(text: &str) -> Option<u64> {
    let (_, behind) = text.split_once("MemTotal:")?;
    let (number, _) = behind.split_once(" kB")?;
    match number.trim_start().parse::<u64>() {
        Ok(count) => count.checked_mul(KIBIBYTE),
        Err(_) => None,
    }
}
