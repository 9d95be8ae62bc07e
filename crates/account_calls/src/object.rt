//! The calls on the files of a bucket's container, one function a call.
ghost use Rattle.std.specs.Prelude.{◌≡◌, true, IfOk, IfSome, OnOk};
ghost use Rattle.s3_machine.specs.ETag.{body_etag};
ghost use Rattle.s3_machine.specs.Proper.{IsPlace, IsProperContent};
ghost use Rattle.swift_calls.specs.Limits.{IsRange};
ghost use Rattle.swift_calls.specs.Step.{Fit};
ghost use Rattle.swift_marks.specs.Tag.{has_text, tag_text};
ghost use Rattle.s3_names.specs.Meta.{names_ascend};
ghost use Rattle.account_calls.specs.Interpret.{IsShownHead, plain_tag, put_of};
ghost use Rattle.upload_records.specs.Native.{IsSettled};
ghost use Rattle.account_calls.specs.Calls.{always, Any, Asks, Becomes, Changes, Given, GivesUnchanged, HasBucket, HasObject, Tells, TellsBytes, TellsObject, drops_object, puts_object};
ghost use Rattle.account_calls.specs.Lent.{Stays};
ghost use Rattle.account_calls.specs.Puts.{Stands};
ghost use Rattle.account_calls.specs.Told.{CountsOne, LeavesAccount};

use crate::interpret::{
    bytes_in, interpret_file_delete, interpret_object_head, interpret_put_with_etag,
};
use crate::state::ask;
use crate::{PlanFault, Settled};
use gate_base::{Bytes, Memory};
use s3_machine::{Label, ObjectHead, ObjectName, ObjectPut};
use s3_names::{BucketName, Key};
use std::alloc::Global;
use swift_calls::{FilePut, Swift, SwiftRequest};
use swift_marks::{Tag, pack};

/// The head of an object, and `None` where it is missing, by HEAD of its file (Object Storage API v1, "Show object
/// metadata"). At most one call, which leaves the account, consistent or not. Failed comes only where the store's count of faults rose;
/// Memory where memory ran out, before the call, to read its answer or to read the marks of the file; Inconsistent
/// never over an observable consistent account.
#[tactic(auto, using(crate::proofs::lemmas::Names::container_name, crate::proofs::lemmas::Names::object_name))]
pub fn head_object<W: Swift>(
    state: &mut Settled<'_, W>,
    bucket: &BucketName,
    key: &Key,
) -> Result<Option<ObjectHead>, PlanFault>
    ensures stays { Stays state.old state.new }
    ensures asks { Asks (always 1) (W.history state.old.store.now) (W.history state.new.store.now)
        IsSettled (Tells (TellsObject bucket.now key.now)) result }
    ensures leaves { LeavesAccount (W.history state.old.store.now) (W.history state.new.store.now) }
    ensures shown { IfOk result IsShownHead }
{
    let alloc = state.alloc;
    let container = bucket.copy_text()?;
    let name = key.copy_text()?;
    let reply = ask(state.store, SwiftRequest::HeadObject { container, name })?;
    interpret_object_head(alloc, &reply)
}

/// The bytes of an object, or those of a range, by GET of its file (Object Storage API v1, "Get object content and
/// metadata"), of which HEAD told this ETag and this size in bytes. A range has the number of its first byte and that of its
/// last, which may be past the end of the object. `None` where the object is missing, or has no byte of the range. At most
/// one call, which leaves the account, consistent or not. Failed comes only where the store's count of faults rose; Memory where
/// memory ran out; Inconsistent where the file that answers has no tag, isn't what its tag says, or has another ETag in it or another size,
/// and never over an observable consistent account whose object has these.
#[tactic(auto, using(crate::proofs::lemmas::Names::container_name, crate::proofs::lemmas::Names::object_name))]
pub fn get_object<W: Swift>(
    state: &mut Settled<'_, W>,
    bucket: BucketName,
    key: Key,
    etag: &[u8],
    size: u64,
    range: Option<(u64, u64)>,
) -> Result<Option<Bytes>, PlanFault>
    requires range { IfSome range IsRange }
    ensures stays { Stays state.old state.new }
    ensures asks { Asks (always 1) (W.history state.old.store.now) (W.history state.new.store.now)
        (Given (HasObject bucket key etag.now size)) (Tells (TellsBytes bucket key range)) result }
    ensures unchanged { GivesUnchanged (W.history state.old.store.now) bucket key etag.now size
        result }
    ensures leaves { LeavesAccount (W.history state.old.store.now) (W.history state.new.store.now) }
    ensures counts { CountsOne (W.history state.old.store.now).called
        (W.history state.new.store.now).called result }
{
    let alloc = state.alloc;
    let reply = ask(
        state.store,
        SwiftRequest::GetObject {
            container: bucket.into_text(),
            name: key.into_text(),
            range,
        },
    )?;
    bytes_in(alloc, reply, etag, size)
}

/// Puts an object into a bucket that is there, by PUT of its file (Object Storage API v1, "Create or replace object"):
/// the one call that commits. At most one call. It is put at the moment of
/// the label. After Ok the S3 state has the new object in place of what stood under the key, and over every observable store, consistent
/// or not, its file stands. After Failed, which comes only
/// where the store's count of faults rose, and after Memory the state is the old one or the new one. Inconsistent never
/// comes over an observable consistent account in which the bucket is there.
pub fn put_object<W: Swift>(
    state: &mut Settled<'_, W>,
    put: ObjectPut,
    etag: &[u8],
    label: &Label,
) -> Result<(), PlanFault>
    requires etag { etag.now ≡ body_etag put.content.body }
    ensures stays { Stays state.old state.new }
    ensures changes { Changes (always 1) (W.history state.old.store.now)
        (W.history state.new.store.now) (Given (HasBucket put.bucket))
        (Becomes (puts_object put.bucket put.key put.content.content_type put.content.meta
        put.content.body label.now.moment)) result }
    ensures stands { Stands (W.history state.new.store.now)
        (put_of put.bucket put.key put.content.content_type put.content.meta put.content.body
        label.now.moment) result }
{
    let alloc = state.alloc;
    let request = put_request(alloc, put, etag, label)?;
    let reply = ask(state.store, request)?;
    interpret_put_with_etag(&reply, etag)
}

/// The PUT of an object's file, whose body has this ETag.
#[tactic(auto, using(crate::proofs::lemmas::Fits::put_fits, crate::proofs::lemmas::Fits::tag_has_text))]
fn put_request(
    alloc: Global,
    put: ObjectPut,
    etag: &[u8],
    label: &Label,
) -> Result<SwiftRequest, Memory>
    requires etag { etag.now ≡ body_etag put.content.body }
    ensures request { IfOk result (λ request. request
        ≡ put_of put.bucket put.key put.content.content_type put.content.meta put.content.body
        label.now.moment) }
    ensures fits { IfOk result Fit }
    ensures named { OnOk result (IsPlace put.bucket put.key) }
    ensures content { OnOk result
        (IsProperContent put.content.content_type put.content.meta put.content.body) }
    ensures ordered { OnOk result (names_ascend put.content.meta ≡ true) }
{
    let content = put.content.into_value();
    let text = tag_of_put_object(alloc, content.content_type, etag, label.moment)?;
    let pieces = pack(alloc, &content.meta)?;
    Ok(SwiftRequest::PutObject(FilePut {
        container: put.bucket.into_text(),
        name: put.key.into_text(),
        content_type: text,
        meta: pieces,
        body: content.body.into_bytes(),
        fresh: false,
    }))
}

/// The tag of an object that is put in one piece, with the ETag of its bytes, as its file has it.
fn tag_of_put_object(
    alloc: Global,
    content_type: Bytes,
    etag: &[u8],
    moment: u64,
) -> Result<Bytes, Memory>
    requires { has_text (plain_tag content_type etag.now moment) ≡ true }
    ensures { IfOk result (λ text. text ≡ tag_text (plain_tag content_type etag.now moment)) }
{
    let tag = Tag {
        content_type,
        etag: Bytes::from_slice(alloc, etag)?,
        moment,
        id: None,
    };
    tag.write(alloc)
}

/// Deletes an object of a bucket, by DELETE of its file (Object Storage API v1, "Delete object"): the one call that
/// commits. At most one call. After Ok the S3 state has no object under the key; also one that wasn't there is gone.
/// After Failed, which comes only where the store's count of faults rose, and after Memory the state is the old one or
/// the new one. Inconsistent never comes over an observable consistent account.
#[tactic(auto, using(crate::proofs::lemmas::Names::container_name, crate::proofs::lemmas::Names::object_name))]
pub fn delete_object<W: Swift>(
    state: &mut Settled<'_, W>,
    name: ObjectName,
) -> Result<(), PlanFault>
    ensures stays { Stays state.old state.new }
    ensures changes { Changes (always 1) (W.history state.old.store.now)
        (W.history state.new.store.now) (Given Any) (Becomes (drops_object name.bucket name.key))
        result }
{
    let reply = ask(
        state.store,
        SwiftRequest::DeleteObject {
            container: name.bucket.into_text(),
            name: name.key.into_text(),
        },
    )?;
    interpret_file_delete(&reply)
}
