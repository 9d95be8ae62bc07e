//! Which version this is. The packages and the pages of the manual take it from here, and CHANGES.md begins with it.

pub const VERSION: &[u8] = b"0.1.0";
