//! The account that a store begins with.
ghost use Rattle.std.specs.Prelude.{◌<◌, ◌^◌, IfOk, IsTrue};
ghost use Rattle.swift_calls.specs.Account.{size_of};
ghost use Rattle.planned_swift.specs.Accounts.{IsOrdered, IsSized};
ghost use Rattle.swift_calls.specs.declared.account.Content.TheVariants.{Segments};
ghost use Rattle.swift_requests.specs.Place.{IsPlace};

use crate::swift_verbs::wire::read_next_call;
use crate::talk::Talk;
use case_text::{Fault, Told};
use gate_base::{Bytes, List, Memory};
use planned_swift::{Account, Container, MemSwift};
use slo_manifest::{Form, Segment, read};
use std::alloc::Global;
use swift_calls::{Content, FilePut, ReadList, Stored, SwiftRequest, drop_request};
use swift_requests::Place;

/// An account in the order of its names, with objects that aren't too large.
#[derive(Drop)]
pub(crate) struct Start {
    account: Account,
    ghost ordered: { IsOrdered account },
    ghost sized: { IsSized account },
}

/// An account of so many containers with one large object each, as the next requests give them.
pub(crate) fn start_with_large_objects(
    alloc: Global,
    place: &Place,
    count: u64,
    talk: &mut Talk,
    told: &mut Told,
) -> Start
    requires { IsPlace place.now }
{
    let mut start = Start {
        account: Account {
            containers: List::new(alloc),
        },
    };
    for _ in 0..count {
        if let Some(call) = read_next_call(alloc, place, talk, told) {
            let done = start.add_large_object(alloc, call);
            told.check_done(done);
        }
    }
    start
}

impl Start {
    /// A store that begins with the account.
    pub(crate) fn into_store(
        self,
        alloc: Global,
        before: List<u64>,
        after: List<u64>,
        stop: u64,
    ) -> Result<MemSwift, Memory> {
        MemSwift::new(alloc, self.account, before, after, stop)
    }

    /// Adds the large object that a call puts whose body is its manifest.
    fn add_large_object(&mut self, alloc: Global, call: SwiftRequest) -> Result<(), Fault> {
        match call {
            SwiftRequest::PutObject(put) => {
                let FilePut {
                    container,
                    name,
                    content_type,
                    meta,
                    body,
                    ..
                } = put;
                let object = Stored {
                    content: large_content_of_manifest(alloc, body.as_slice())?,
                    name,
                    content_type,
                    meta,
                };
                put_container_with_object(alloc, &mut self.account, container, object)
            }
            other => {
                drop_request(other);
                Err(Fault::Unread("no large object"))
            }
        }
    }
}

/// The two segments of a manifest.
fn large_content_of_manifest(alloc: Global, body: &[u8]) -> Result<Content, Fault>
    ensures { IfOk result (λ content. size_of content < 2 ^ 63) }
{
    let Ok(segments) = read(alloc, body, Form::Put) else {
        return Err(Fault::Unread("no manifest"));
    };
    if are_two_small_segments(segments.as_slice()) {
        Ok(Content::Segments(segments))
    } else {
        Err(Fault::Unread("no two segments of less than 100 bytes"))
    }
}

fn are_two_small_segments(segments: &[Segment]) -> bool
    ensures { IsTrue result → size_of (Segments segments.now) < 2 ^ 63 }
{
    match segments {
        [first, second] => first.size < 100 && second.size < 100,
        _ => false,
    }
}

/// Puts a container with one object in its place.
#[tactic(auto, using(crate::proofs::Accounts::one_more_ordered, crate::proofs::Accounts::one_more_sized))]
fn put_container_with_object(
    alloc: Global,
    account: &mut Account,
    name: Bytes,
    object: Stored,
) -> Result<(), Fault>
    requires ordered { IsOrdered account.old }
    requires sized { IsSized account.old }
    requires size { size_of object.content < 2 ^ 63 }
    ensures ordered { IsOrdered account.new }
    ensures sized { IsSized account.new }
{
    let mut objects = List::new(alloc);
    objects.push(object)?;
    account.containers.put(Container {
        name,
        readers: ReadList::Nobody,
        created: None,
        objects,
    })?;
    Ok(())
}
