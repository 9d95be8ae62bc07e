//! The end of a value.

/// Drops a value, as Rust's `std::mem::drop` does. A function at whose end a value of many kinds goes out of scope has the code
/// that drops each of them, and is proved with it; one that calls this has a call.
pub fn drop<T: Drop>(_value: T) {}
