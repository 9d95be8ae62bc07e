//! The replies that a status alone tells.
ghost use Rattle.std.specs.Prelude.{◌≡◌};
ghost use Rattle.swift_statuses.specs.Statuses.{missing, gone, put_reply, delete_reply};

use swift_calls::SwiftReply;

/// NotFound, which is 404, or nothing.
pub fn missing(status: u16) -> Option<SwiftReply>
    ensures { result ≡ missing status }
{
    if status == 404 {
        Some(SwiftReply::NotFound)
    } else {
        None
    }
}

/// What 204 and 404 say of a change.
pub fn gone(status: u16) -> Option<SwiftReply>
    ensures { result ≡ gone status }
{
    if status == 204 {
        Some(SwiftReply::Gone)
    } else {
        missing(status)
    }
}

/// What the status of the answer to a PUT of a container says: 201 that it was made, 202 that it was there, and any other
/// nothing.
pub fn put_reply(status: u16) -> Option<SwiftReply>
    ensures { result ≡ put_reply status }
{
    if status == 201 {
        return Some(SwiftReply::Made);
    }
    if status == 202 {
        Some(SwiftReply::There)
    } else {
        None
    }
}

/// What the status of the answer to a DELETE of a container says.
pub fn delete_reply(status: u16) -> Option<SwiftReply>
    ensures { result ≡ delete_reply status }
{
    if status == 409 {
        Some(SwiftReply::NotEmpty)
    } else {
        gone(status)
    }
}
