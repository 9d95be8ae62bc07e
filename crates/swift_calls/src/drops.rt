//! The end of a call and of its reply. Each has many kinds: a function at whose end one goes out of scope has the code that drops
//! each kind, and is proved with it. Here that is proved once, for this crate and those above.

use crate::{SwiftReply, SwiftRequest};

/// Drops a call.
pub fn drop_request(_request: SwiftRequest) {}

/// Drops a reply.
pub fn drop_reply(_reply: SwiftReply) {}
