//! The numbers that a line keeps to, and what it says by itself.

/// The bounds of a line.
#[derive(Clone, Copy)]
pub struct Bounds {
    /// The limit of time, in seconds.
    pub limit: u64,
    /// How many bytes are read ahead or kept to be sent in all. A head's size comes to that, so that a body which is as large has room with
    /// its own.
    pub ahead: usize,
    /// How many bytes a body has at most that is read ahead.
    pub largest: usize,
    /// How many bytes a client moves at least in 5 seconds for which others wait for it; none where it is 0.
    pub floor: u64,
    /// How many clients are connected at once: at most 900 of them, and at least one.
    pub places: usize,
    /// The reply to a request that is given up in the middle of its body. Without a byte there is none.
    pub timeout: &'static [u8],
}
