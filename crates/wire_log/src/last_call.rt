//! Of what the last call of a store was.

use gate_base::{Bytes, Memory, NoCount};
use std::alloc::Global;
use swift_calls::SwiftRequest;

/// What knows of which container and object the last call of a store was.
pub trait LastCall {
    /// The container, and behind a slash the object's name; empty where there was no call, or it isn't known.
    fn last_call(&self) -> &[u8];
}

impl LastCall for NoCount {
    fn last_call(&self) -> &[u8] {
        b""
    }
}

/// The container that a call is of, and behind a slash its object's name. A list of containers is of none.
pub(crate) fn path_of_logged_call(alloc: Global, request: &SwiftRequest) -> Result<Bytes, Memory> {
    match request {
        SwiftRequest::ListContainers { .. } => Ok(Bytes::new(alloc)),
        SwiftRequest::HeadContainer { container }
        | SwiftRequest::DeleteContainer { container }
        | SwiftRequest::PutContainer { container, .. }
        | SwiftRequest::PostContainer { container, .. }
        | SwiftRequest::ListNames { container, .. } => Bytes::from_slice(
            alloc,
            container.as_slice(),
        ),
        SwiftRequest::PutObject(put) => path_of_logged_object(alloc, &put.container, &put.name),
        SwiftRequest::PutManifest {
            container,
            name,
            ..
        }
        | SwiftRequest::HeadObject { container, name }
        | SwiftRequest::GetObject {
            container,
            name,
            ..
        }
        | SwiftRequest::GetManifest { container, name }
        | SwiftRequest::DeleteObject { container, name } => path_of_logged_object(
            alloc, container, name,
        ),
    }
}

fn path_of_logged_object(alloc: Global, container: &Bytes, name: &Bytes) -> Result<Bytes, Memory> {
    let mut path = Bytes::from_slice(alloc, container.as_slice())?;
    path.append(b"/")?;
    path.append(name.as_slice())?;
    Ok(path)
}
