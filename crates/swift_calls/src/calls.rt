ghost use Rattle.std.specs.Prelude.{◌≡◌, IfOk};
ghost use Rattle.swift_calls.specs.Step.{Fit};
ghost use Rattle.swift_calls.specs.History.{History, Calls, IsHistory};
ghost use Rattle.swift_calls.specs.declared.calls.SwiftFault.TheVariants as fault;

use crate::{NameItem, ReadList, StoredHead};
use gate_base::{Bytes, Copying, Counted, Failed, List, Memory};
use slo_manifest::Segment;
use std::alloc::{AllocError, AllocFailed};

/// A call of Object Storage API v1 on one account. Names, prefixes and markers are bytes of UTF-8; a range is its
/// first and its last byte.
#[derive(Debug, Drop)]
pub enum SwiftRequest {
    /// Asks for the names of the containers after a marker, in byte order, at most so many ("Show account details").
    ListContainers {
        marker: Bytes,
        limit: u32,
    },
    /// Asks for a container's read list and creation time ("Show container metadata").
    HeadContainer {
        container: Bytes,
    },
    /// Makes a container, or writes the read list and the creation time of one that is there over ("Create
    /// container").
    PutContainer {
        container: Bytes,
        readers: ReadList,
        created: Option<u64>,
    },
    /// Writes the read list of a container over ("Create, update, or delete container metadata").
    PostContainer {
        container: Bytes,
        readers: ReadList,
    },
    /// Takes an empty container away ("Delete container").
    DeleteContainer {
        container: Bytes,
    },
    /// Asks for a container's objects after a marker whose names begin with a prefix, in byte order, at most so many
    /// ("Show container details and list objects").
    ListNames {
        container: Bytes,
        prefix: Bytes,
        marker: Bytes,
        limit: u32,
    },
    /// Puts an object with these bytes ("Create or replace object").
    PutObject(FilePut),
    /// Puts an object that lists these segments, in place of the one that is there ("Static large objects").
    PutManifest {
        container: Bytes,
        name: Bytes,
        content_type: Bytes,
        meta: List<Bytes>,
        segments: List<Segment>,
    },
    /// Asks for an object's head ("Show object metadata").
    HeadObject {
        container: Bytes,
        name: Bytes,
    },
    /// Asks for an object's head and its bytes, or those of a range ("Get object content and metadata").
    GetObject {
        container: Bytes,
        name: Bytes,
        range: Option<(u64, u64)>,
    },
    /// Asks for the segments that an object lists ("Static large objects").
    GetManifest {
        container: Bytes,
        name: Bytes,
    },
    /// Takes an object away, and leaves the segments that it lists ("Delete object").
    DeleteObject {
        container: Bytes,
        name: Bytes,
    },
}

/// An object that is put, in place of the one that is there; where it is `fresh`, only if none is (`If-None-Match: *`).
#[derive(Debug, Drop)]
pub struct FilePut {
    pub container: Bytes,
    pub name: Bytes,
    pub content_type: Bytes,
    pub meta: List<Bytes>,
    pub body: Bytes,
    pub fresh: bool,
}

impl Copying for FilePut {
    fn copy(&self) -> Result<FilePut, Memory> {
        let meta = self.meta.copy()?;
        let (container, name) = copy_call_texts(&self.container, &self.name)?;
        let (content_type, body) = copy_call_texts(&self.content_type, &self.body)?;
        Ok(FilePut {
            container,
            name,
            content_type,
            meta,
            body,
            fresh: self.fresh,
        })
    }
}

impl Copying for SwiftRequest {
    fn copy(&self) -> Result<SwiftRequest, Memory> {
        match self {
            SwiftRequest::ListContainers { marker, limit } => Ok(SwiftRequest::ListContainers {
                marker: marker.copy()?,
                limit: *limit,
            }),
            SwiftRequest::HeadContainer { container } => Ok(SwiftRequest::HeadContainer {
                container: container.copy()?,
            }),
            SwiftRequest::PutContainer {
                container,
                readers,
                created,
            } => Ok(SwiftRequest::PutContainer {
                container: container.copy()?,
                readers: *readers,
                created: *created,
            }),
            SwiftRequest::PostContainer { container, readers } => Ok(SwiftRequest::PostContainer {
                container: container.copy()?,
                readers: *readers,
            }),
            SwiftRequest::DeleteContainer { container } => Ok(SwiftRequest::DeleteContainer {
                container: container.copy()?,
            }),
            SwiftRequest::ListNames {
                container,
                prefix,
                marker,
                limit,
            } => copy_list_names_call(container, prefix, marker, *limit),
            SwiftRequest::PutObject(put) => Ok(SwiftRequest::PutObject(put.copy()?)),
            SwiftRequest::PutManifest {
                container,
                name,
                content_type,
                meta,
                segments,
            } => copy_put_manifest_call(container, name, content_type, meta, segments),
            SwiftRequest::HeadObject { container, name } => copy_head_object_call(container, name),
            SwiftRequest::GetObject {
                container,
                name,
                range,
            } => copy_get_object_call(container, name, *range),
            SwiftRequest::GetManifest { container, name } => copy_get_manifest_call(
                container, name,
            ),
            SwiftRequest::DeleteObject { container, name } => copy_delete_object_call(
                container, name,
            ),
        }
    }
}

fn copy_call_texts(first: &Bytes, second: &Bytes) -> Result<(Bytes, Bytes), Memory>
    ensures { IfOk result (λ copies. copies ≡ record { 0 = first.now; 1 = second.now }) }
{
    let first = first.copy()?;
    let second = second.copy()?;
    Ok((first, second))
}

fn copy_list_names_call(
    container: &Bytes,
    prefix: &Bytes,
    marker: &Bytes,
    limit: u32,
) -> Result<SwiftRequest, Memory>
    ensures { IfOk result
        (λ copied. copied ≡ SwiftRequest.ListNames container.now prefix.now marker.now limit) }
{
    let container = container.copy()?;
    let (prefix, marker) = copy_call_texts(prefix, marker)?;
    Ok(SwiftRequest::ListNames {
        container,
        prefix,
        marker,
        limit,
    })
}

fn copy_head_object_call(container: &Bytes, name: &Bytes) -> Result<SwiftRequest, Memory>
    ensures { IfOk result (λ copied. copied ≡ SwiftRequest.HeadObject container.now name.now) }
{
    let (container, name) = copy_call_texts(container, name)?;
    Ok(SwiftRequest::HeadObject { container, name })
}

fn copy_get_object_call(
    container: &Bytes,
    name: &Bytes,
    range: Option<(u64, u64)>,
) -> Result<SwiftRequest, Memory>
    ensures { IfOk result (λ copied. copied ≡ SwiftRequest.GetObject container.now name.now range) }
{
    let (container, name) = copy_call_texts(container, name)?;
    Ok(SwiftRequest::GetObject {
        container,
        name,
        range,
    })
}

fn copy_get_manifest_call(container: &Bytes, name: &Bytes) -> Result<SwiftRequest, Memory>
    ensures { IfOk result (λ copied. copied ≡ SwiftRequest.GetManifest container.now name.now) }
{
    let (container, name) = copy_call_texts(container, name)?;
    Ok(SwiftRequest::GetManifest { container, name })
}

fn copy_delete_object_call(container: &Bytes, name: &Bytes) -> Result<SwiftRequest, Memory>
    ensures { IfOk result (λ copied. copied ≡ SwiftRequest.DeleteObject container.now name.now) }
{
    let (container, name) = copy_call_texts(container, name)?;
    Ok(SwiftRequest::DeleteObject { container, name })
}

fn copy_put_manifest_call(
    container: &Bytes,
    name: &Bytes,
    content_type: &Bytes,
    meta: &List<Bytes>,
    segments: &List<Segment>,
) -> Result<SwiftRequest, Memory>
    ensures { IfOk result (λ copied. copied ≡ SwiftRequest.PutManifest container.now name.now
        content_type.now meta.now segments.now) }
{
    let meta = meta.copy()?;
    let (container, name) = copy_call_texts(container, name)?;
    let content_type = content_type.copy()?;
    Ok(SwiftRequest::PutManifest {
        container,
        name,
        content_type,
        meta,
        segments: segments.copy()?,
    })
}

/// What a store answers.
#[derive(Debug, Drop)]
pub enum SwiftReply {
    /// 201 Created: the container that was put is new.
    Made,
    /// 202 Accepted: the container that was put was there.
    There,
    /// 204 No Content: it is done.
    Gone,
    /// 201 Created, with the ETag of the object that was put.
    Stored {
        etag: Bytes,
    },
    /// 404 Not Found.
    NotFound,
    /// 412 Precondition Failed: an object is there under the name of a fresh one.
    Exists,
    /// 409 Conflict: the container has objects.
    NotEmpty,
    /// 400 Bad Request: the segments may not be listed. There are none or too many of them, or one isn't there as it
    /// is listed or lists a list.
    BadManifest,
    /// 416 Range Not Satisfiable: the range begins past the last byte.
    Unsatisfiable,
    /// 200 OK, with the names of containers, in byte order.
    Containers(List<Bytes>),
    /// 204 No Content, with a container's read list and creation time.
    Readers {
        readers: ReadList,
        created: Option<u64>,
    },
    /// 200 OK, with objects of a container, in byte order of their names.
    Names(List<NameItem>),
    /// 200 OK, with an object's head.
    Head(StoredHead),
    /// 200 OK or 206 Partial Content, with an object's head and bytes.
    Bytes {
        head: StoredHead,
        body: Bytes,
    },
    /// 200 OK, with the segments that an object lists.
    Manifest(List<Segment>),
}

impl Copying for SwiftReply {
    fn copy(&self) -> Result<SwiftReply, Memory> {
        match self {
            SwiftReply::Made => Ok(SwiftReply::Made),
            SwiftReply::There => Ok(SwiftReply::There),
            SwiftReply::Gone => Ok(SwiftReply::Gone),
            SwiftReply::Stored { etag } => Ok(SwiftReply::Stored { etag: etag.copy()? }),
            SwiftReply::NotFound => Ok(SwiftReply::NotFound),
            SwiftReply::Exists => Ok(SwiftReply::Exists),
            SwiftReply::NotEmpty => Ok(SwiftReply::NotEmpty),
            SwiftReply::BadManifest => Ok(SwiftReply::BadManifest),
            SwiftReply::Unsatisfiable => Ok(SwiftReply::Unsatisfiable),
            SwiftReply::Containers(names) => Ok(SwiftReply::Containers(names.copy()?)),
            SwiftReply::Readers { readers, created } => Ok(SwiftReply::Readers {
                readers: *readers,
                created: *created,
            }),
            SwiftReply::Names(items) => Ok(SwiftReply::Names(items.copy()?)),
            SwiftReply::Head(head) => Ok(SwiftReply::Head(head.copy()?)),
            SwiftReply::Bytes { head, body } => Ok(SwiftReply::Bytes {
                head: head.copy()?,
                body: body.copy()?,
            }),
            SwiftReply::Manifest(segments) => Ok(SwiftReply::Manifest(segments.copy()?)),
        }
    }
}

/// Why a call has no answer.
#[derive(Clone, Copy, Debug, PartialEq, Eq)]
pub enum SwiftFault {
    /// The request or its answer was lost, or no call was left.
    Failed,
    /// Memory ran out.
    Memory,
}

impl Copying for SwiftFault {
    fn copy(&self) -> Result<SwiftFault, Memory>
        ensures { result ≡ Ok self.now }
    {
        Ok(*self)
    }
}

impl From<Failed> for SwiftFault {
    ghost from_gives = { λ _ e. e ≡ fault.Failed };

    fn from(_: Failed) -> SwiftFault {
        SwiftFault::Failed
    }
}

impl From<Memory> for SwiftFault {
    ghost from_gives = { λ _ e. e ≡ fault.Memory };

    fn from(_: Memory) -> SwiftFault {
        SwiftFault::Memory
    }
}

impl From<AllocError> for SwiftFault {
    ghost from_gives = { λ _ e. e ≡ fault.Memory };

    fn from(_: AllocError) -> SwiftFault {
        SwiftFault::Memory
    }
}

impl<T: Drop> From<AllocFailed<T>> for SwiftFault {
    ghost from_gives = { λ _ e. e ≡ fault.Memory };

    fn from(_: AllocFailed<T>) -> SwiftFault {
        SwiftFault::Memory
    }
}

/// A Swift store. It takes 2^63 calls and counts them. Where it tells its contents, it tells the account and the
/// count of faults as they stood after each call that it has counted.
pub trait Swift: Counted {
    /// What the store counts, and where it is observable, the account and the count of faults after each number of calls.
    ghost history: { Self → History };

    /// Makes one call. Ok is the store's answer, and the account is as the call leaves it. Failed comes only with a
    /// higher count of faults: the call had no effect or its whole effect, or no call was left and nothing
    /// changed. Where the history is observable and sure, it comes only where no call was left. Memory comes where the
    /// answer could not be read, after no effect or the whole effect, or before the call was made, which is then not
    /// counted.
    fn call(&mut self, request: &SwiftRequest) -> Result<SwiftReply, SwiftFault>
        requires { Fit request.now }
        ensures { Calls (history self.old) (history self.new) request.now result };

    /// The same, of which the answer is that of the newest of the replicas (Object Storage API v1, `X-Newest`): for a call that reads,
    /// on whose answer something is deleted or overwritten. What a store tells of itself is the same, so no clause knows the two apart.
    fn call_newest(&mut self, request: &SwiftRequest) -> Result<SwiftReply, SwiftFault>
        requires { Fit request.now }
        ensures { Calls (history self.old) (history self.new) request.now result };

    /// The calls of the history are those that are counted.
    ghost counted: { (store : Self) → (history store).called ≡ Self.called store };

    /// While calls are left, the last count of the history is the count of faults itself, and from call to call it
    /// never falls.
    ghost is_history: { (store : Self) → IsHistory (history store) };
}

impl<W: Swift> Swift for &mut W {
    ghost history = { λ s. W.history s.now };

    ghost counted = { λ store. W.counted store.now };

    ghost is_history = { λ store. W.is_history store.now };

    fn call(&mut self, request: &SwiftRequest) -> Result<SwiftReply, SwiftFault> {
        (**self).call(request)
    }

    fn call_newest(&mut self, request: &SwiftRequest) -> Result<SwiftReply, SwiftFault> {
        (**self).call_newest(request)
    }
}
