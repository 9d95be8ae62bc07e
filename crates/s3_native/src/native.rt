//! The machine's running form: plain and slow, for tests.
#![tactic(auto, using(crate::proofs::Steps::plain))]

ghost use Rattle.std.specs.Prelude.{◌≡◌, ◌-◌, ◌^◌, IfOk, OnErr, OnOk, length, min};
ghost use Rattle.std.specs.FinMap.{empty};
ghost use Rattle.gate_base.specs.Maps.{adjust};
ghost use Rattle.s3_machine.specs.declared.operation.Op.TheVariants.{GetObject, OnObjects};
ghost use Rattle.s3_machine.specs.declared.operation.ObjectsOp.TheVariants.{
  ListBuckets,
  CreateBucket,
  DeleteBucket,
  HeadBucket,
  GetLocation,
  GetBucketAcl,
  PutBucketAcl,
  ListObjects,
  PutObject,
  HeadObject,
  DeleteObject,
  DeleteObjects,
  GetObjectAcl,
};
ghost use Rattle.s3_native.specs.Forgetting.{Forgets, all_old};
ghost use Rattle.s3_native.specs.NewIds.{GivesFirstId};
ghost use Rattle.s3_machine.specs.Step.{S3Step, bucket_items, drop_object, drop_objects, is_other_acl, may_read, put_object, with_acl};

use crate::kept::NativeKept;
use crate::listing::native_listed_items;
use crate::named::Named;
use crate::upload::NativeUpload;
use gate_base::{Bytes, Caller, Copying, List, Memory, Pair};
use name_table::Table;
use s3_machine::{
    Asked, BucketAcl, BucketItem, BucketListing, BucketPage, Code, Content, DeletedKeys, Item,
    ItemHead, Judged, Label, ObjectBytes, ObjectDeletion, ObjectHead, ObjectListing, ObjectName,
    ObjectPage, ObjectPut, ObjectRead, ObjectsDeletion, ObjectsOp, ObjectsReply, OnlyIf, Op,
    PartNumber, Proper, Reply, Settings, Span, StoredBytes, bucket_page, copy_option, is_of_parts,
    is_other_acl, judge_part, may_read, parts_in, range_code,
};
use s3_names::{Acl, BucketName, Key, Meta};
use std::alloc::Global;
use std::marker::Model;

/// An object. Contracts see it as one of the state.
#[derive(Drop)]
pub(crate) struct NativeObject {
    pub(crate) bytes: Bytes,
    pub(crate) etag: Bytes,
    pub(crate) content_type: Bytes,
    pub(crate) meta: Meta,
    pub(crate) modified: u64,
}

impl Model for NativeObject {
    ghost use Rattle.s3_machine.specs.State.{Object, object_code};

    ghost Value = { Object };

    ghost coded = { object_code };

    ghost use Rattle.s3_native.specs.Native.{object_of};

    ghost view = { object_of };
}

impl NativeObject {
    ghost use Rattle.std.specs.Prelude.{◌+◌, ◌≤◌, length};
    ghost use Rattle.s3_machine.specs.Reading.{taken};
    ghost use Rattle.s3_machine.specs.Step.{got, head_of, headed, item_head, judged_read, new_object};
    ghost use Rattle.s3_machine.specs.Parts.{parts_in};
    ghost use Rattle.s3_native.specs.Reads.{chosen_part};
    ghost use Rattle.std.specs.Prelude.{option_and_then};

    fn new(alloc: Global, moment: u64, content: &Content) -> Result<NativeObject, Memory>
        ensures { IfOk result
            (λ made. made ≡ new_object moment content.now.content_type content.now.meta
            content.now.body) }
    {
        Ok(NativeObject {
            bytes: Bytes::from_slice(alloc, content.body.as_slice())?,
            etag: Bytes::from_slice(alloc, &content.body.etag())?,
            content_type: content.content_type.copy()?,
            meta: content.meta.copy()?,
            modified: moment,
        })
    }

    pub(crate) fn head(&self) -> Result<ObjectHead, Memory>
        ensures { IfOk result (λ head. head ≡ head_of self.now) }
    {
        Ok(ObjectHead {
            etag: self.etag.copy()?,
            modified: self.modified,
            size: self.bytes.len() as u64,
            content_type: self.content_type.copy()?,
            meta: self.meta.copy()?,
        })
    }

    /// What its PUT is answered, of which this checksum was compared.
    fn stored(&self, checksum: &Option<Pair>) -> Result<StoredBytes, Memory>
        ensures { IfOk result
            (λ stored. stored ≡ record { etag = self.now.etag; checksum = checksum.now }) }
    {
        Ok(StoredBytes {
            etag: self.etag.copy()?,
            checksum: copy_option(checksum)?,
        })
    }

    /// What a listing tells of it.
    pub(crate) fn item_head(&self) -> Result<ItemHead, Memory>
        ensures { IfOk result (λ head. head ≡ item_head self.now) }
    {
        Ok(ItemHead {
            etag: self.etag.copy()?,
            modified: self.modified,
            size: self.bytes.len() as u64,
        })
    }

    /// The bytes of the part that is asked for, as this machine chooses them: an object of parts it has none of.
    fn chosen_part(&self, part: Option<PartNumber>) -> Option<Span>
        ensures { result ≡ chosen_part part self.now }
    {
        let Some(part) = part else {
            return None;
        };
        if is_of_parts(self.etag.as_slice()) || part.get() != 1 {
            return None;
        }
        Some(Span {
            from: 0,
            length: self.bytes.len() as u64,
        })
    }

    /// What a read of it comes to.
    fn judged(&self, read: &ObjectRead, head: &ObjectHead) -> Judged
        ensures { result ≡ judged_read read.now (chosen_part read.now.part self.now) head.now }
    {
        judge_part(
            read.part,
            self.chosen_part(read.part),
            read.range,
            &read.conditions,
            head,
        )
    }

    /// How many parts it has, where a part is asked for.
    fn parts_shown(&self, part: Option<PartNumber>) -> Option<u32>
        ensures { result ≡ option_and_then (λ n. parts_in self.now.etag) part }
    {
        match part {
            Some(_) => parts_in(self.etag.as_slice()),
            None => None,
        }
    }

    /// The answer to GetObject.
    fn got(&self, alloc: Global, read: &ObjectRead) -> Result<Reply, Memory>
        ensures { IfOk result
            (λ reply. reply ≡ got read.now (chosen_part read.now.part self.now) self.now) }
    {
        let head = self.head()?;
        match self.judged(read, &head) {
            Judged::PreconditionFailed => Ok(Reply::Refused(Code::PreconditionFailed)),
            Judged::NotModified => Ok(Reply::NotModified(head)),
            Judged::InvalidRange => Ok(Reply::Refused(range_code(read.part, head.size))),
            Judged::Bytes { span, partial } => Ok(Reply::Object(ObjectBytes {
                head,
                from: span.from,
                length: span.length,
                partial,
                body: self.taken(alloc, span)?,
                shown: read.shown.copy()?,
                parts: self.parts_shown(read.part),
            })),
        }
    }

    /// The answer to HeadObject.
    fn headed(&self, alloc: Global, read: &ObjectRead) -> Result<Reply, Memory>
        ensures { IfOk result
            (λ reply. reply ≡ headed read.now (chosen_part read.now.part self.now) self.now) }
    {
        let head = self.head()?;
        match self.judged(read, &head) {
            Judged::PreconditionFailed => Ok(Reply::Refused(Code::PreconditionFailed)),
            Judged::NotModified => Ok(Reply::NotModified(head)),
            Judged::InvalidRange => Ok(Reply::Refused(range_code(read.part, head.size))),
            Judged::Bytes { span, partial } => Ok(Reply::Object(ObjectBytes {
                head,
                from: span.from,
                length: span.length,
                partial,
                body: Bytes::new(alloc),
                shown: read.shown.copy()?,
                parts: self.parts_shown(read.part),
            })),
        }
    }

    /// The bytes of a span.
    pub(crate) fn taken(&self, alloc: Global, span: Span) -> Result<Bytes, Memory>
        requires { span.from + span.length ≤ length self.now.bytes }
        ensures { IfOk result (λ bytes. bytes ≡ taken span self.now.bytes) }
    {
        let (_, rest) = self.bytes.as_slice().split_at(span.from as usize);
        let (bytes, _) = rest.split_at(span.length as usize);
        Bytes::from_slice(alloc, bytes)
    }
}

/// A bucket. Contracts see it as one of the state.
#[derive(Drop)]
pub(crate) struct NativeBucket {
    created: u64,
    acl: Acl,
    pub(crate) objects: Table<NativeObject>,
    pub(crate) uploads: Table<NativeUpload>,
    pub(crate) kept: Named<NativeKept>,
}

impl Model for NativeBucket {
    ghost use Rattle.s3_machine.specs.State.{Bucket, bucket_code};

    ghost Value = { Bucket };

    ghost coded = { bucket_code };

    ghost use Rattle.s3_native.specs.Native.{bucket_of};

    ghost view = { bucket_of };
}

impl NativeBucket {
    ghost use Rattle.std.specs.Prelude.{OnOk, count_by, option_copied};
    ghost use Rattle.std.specs.FinMap.{entries, get};
    ghost use Rattle.s3_native.specs.Forgetting.{is_older, newer_in};
    ghost use Rattle.s3_native.specs.Native.{shown};
    ghost use Rattle.s3_machine.specs.Step.{drop_object, drop_objects, is_bare, listing, new_bucket, put_object, refusal_in, with_acl};

    fn new(alloc: Global, moment: u64, acl: Acl) -> NativeBucket
        ensures { result ≡ new_bucket moment acl }
    {
        NativeBucket {
            created: moment,
            acl,
            objects: Table::new(alloc),
            uploads: Table::new(alloc),
            kept: Named::new(alloc),
        }
    }

    fn created(&self) -> u64
        ensures { result ≡ self.now.created }
    {
        self.created
    }

    fn acl(&self) -> Acl
        ensures { result ≡ self.now.acl }
    {
        self.acl
    }

    fn set_acl(&mut self, acl: Acl)
        ensures { self.new ≡ with_acl acl self.old }
    {
        self.acl = acl;
    }

    fn is_bare(&self) -> bool
        ensures { result ≡ is_bare self.now }
    {
        self.objects.is_empty()
    }

    fn may_be_read(&self, caller: Caller) -> bool
        ensures { result ≡ may_read caller self.now.acl }
    {
        may_read(caller, self.acl)
    }

    pub(crate) fn has_another_acl(&self, acl: Option<Acl>) -> bool
        ensures { result ≡ is_other_acl acl self.now.acl }
    {
        is_other_acl(acl, self.acl)
    }

    pub(crate) fn object(&self, key: &[u8]) -> Option<&NativeObject>
        ensures { option_copied result ≡ get self.now.objects key.now }
    {
        self.objects.get(key)
    }

    /// Why a write of the key is refused by its condition, if it is.
    pub(crate) fn refuses(&self, key: &[u8], only_if: &OnlyIf) -> Option<Code>
        ensures { result ≡ refusal_in only_if.now key.now self.now }
    {
        match self.object(key) {
            Some(object) => only_if.refusal_of_object(object.etag.as_slice()),
            None => only_if.refusal_where_missing(),
        }
    }

    fn listing(&self, alloc: Global, asked: &Asked) -> Result<(List<Item>, bool), Memory>
        ensures { IfOk result (λ listed. listed ≡ shown (listing asked.now self.now.objects)) }
    {
        native_listed_items(&self.objects, alloc, asked)
    }

    fn put(&mut self, key: &[u8], object: NativeObject) -> Result<(), Memory>
        ensures ok { OnOk result (self.new ≡ put_object key.now object self.old) }
        ensures err { OnErr result (self.new ≡ self.old) }
    {
        self.objects.put(key, object)
    }

    fn drop_at(&mut self, key: &[u8])
        ensures { self.new ≡ drop_object key.now self.old }
    {
        self.objects.drop_at(key);
    }

    /// How many kept completions have a moment before this one.
    pub(crate) fn count_older(&self, before: u64) -> u64
        ensures { result ≡ count_by (λ entry. is_older before entry.1) (entries self.now.kept) }
    {
        self.kept.count_older(before)
    }

    /// Drops those.
    pub(crate) fn drop_older(&mut self, before: u64)
        ensures { self.new ≡ newer_in before self.old }
    {
        self.kept.drop_older(before);
    }

    fn drop_all(&mut self, keys: &[Key])
        ensures { self.new ≡ drop_objects keys.now self.old }
    {
        for key in keys {
            self.drop_at(key.bytes());
        }
    }
}

/// Each bucket with the moment at which it was made, in the order of the names.
fn native_bucket_items(
    buckets: &Named<NativeBucket>,
    alloc: Global,
) -> Result<List<BucketItem>, Memory>
    ensures { IfOk result (λ items. items ≡ bucket_items buckets.now) }
{
    let mut items = List::new(alloc);
    for (name, bucket) in buckets.as_map() {
        items.push(BucketItem {
            name: Bytes::from_slice(alloc, name)?,
            created: bucket.created(),
        })?;
    }
    Ok(items)
}

/// Replaces the access control list of a bucket, if it is there.
#[tactic(auto, using(name_table::proofs::lemmas::Tables::nothing_there))]
fn set_acl(buckets: &mut Named<NativeBucket>, bucket: &[u8], acl: Acl)
    ensures { buckets.new ≡ adjust bucket.now (with_acl acl) buckets.old }
{
    if let Some(found) = buckets.get_mut(bucket) {
        found.set_acl(acl);
    }
}

/// Puts an object into a bucket, in place of what stands under its key. Where memory runs out, all is as before.
#[tactic(auto, using(name_table::proofs::lemmas::Tables::nothing_there))]
pub(crate) fn put_object(
    buckets: &mut Named<NativeBucket>,
    bucket: &[u8],
    key: &[u8],
    object: NativeObject,
) -> Result<(), Memory>
    ensures ok { OnOk result
        (buckets.new ≡ adjust bucket.now (put_object key.now object) buckets.old) }
    ensures err { OnErr result (buckets.new ≡ buckets.old) }
{
    match buckets.get_mut(bucket) {
        Some(found) => found.put(key, object),
        None => Ok(()),
    }
}

/// Takes away the object of a key in a bucket, if there is one.
#[tactic(auto, using(name_table::proofs::lemmas::Tables::nothing_there))]
fn drop_native_object(buckets: &mut Named<NativeBucket>, bucket: &[u8], key: &[u8])
    ensures { buckets.new ≡ adjust bucket.now (drop_object key.now) buckets.old }
{
    if let Some(found) = buckets.get_mut(bucket) {
        found.drop_at(key);
    }
}

/// Takes away the objects of these keys in a bucket, as far as there are any.
#[tactic(auto, using(name_table::proofs::lemmas::Tables::nothing_there))]
fn drop_native_objects(buckets: &mut Named<NativeBucket>, bucket: &[u8], keys: &[Key])
    ensures { buckets.new ≡ adjust bucket.now (drop_objects keys.now) buckets.old }
{
    if let Some(found) = buckets.get_mut(bucket) {
        found.drop_all(keys);
    }
}

/// One S3 service in memory. Contracts see its settings and the state of its buckets.
#[derive(Drop)]
pub struct Native {
    pub(crate) alloc: Global,
    pub(crate) settings: Settings,
    pub(crate) buckets: Named<NativeBucket>,
}

impl Model for Native {
    ghost use Rattle.s3_machine.specs.State.{Machine, machine_code};

    ghost Value = { Machine };

    ghost coded = { machine_code };

    ghost use Rattle.s3_native.specs.Native.{machine_of};

    ghost view = { machine_of };
}

impl Native {
    /// A service without a bucket.
    pub fn new(alloc: Global, settings: Settings) -> Native
        ensures settings { result.settings ≡ settings }
        ensures state { result.state ≡ empty }
    {
        let buckets = Named::new(alloc);
        Native {
            alloc,
            settings,
            buckets,
        }
    }

    /// One step: what the operation is answered, and the state after it. Where memory runs out, the state is as before.
    pub fn step(&mut self, op: &Op, label: &Label) -> Result<Reply, Memory>
        ensures settings { self.new.settings ≡ self.old.settings }
        ensures ok { IfOk result (λ reply. S3Step self.old.settings self.old.state op.now label.now
            reply self.new.state) }
        ensures first { GivesFirstId self.old.state op.now label.now result }
        ensures err { OnErr result (self.new.state ≡ self.old.state) }
    {
        match op {
            Op::GetObject(read) => self.get_object(read, label),
            Op::OnObjects(op) => self.step_object(op, label),
            Op::OnUploads(op) => self.step_upload(op, label),
            Op::OnCopies(op) => self.step_copy(op, label),
        }
    }

    /// A step of an operation on buckets and objects.
    fn step_object(&mut self, op: &ObjectsOp, label: &Label) -> Result<Reply, Memory>
        ensures settings { self.new.settings ≡ self.old.settings }
        ensures ok { IfOk result (λ reply. S3Step self.old.settings self.old.state
            (OnObjects op.now)
            label.now reply self.new.state) }
        ensures err { OnErr result (self.new.state ≡ self.old.state) }
    {
        match op {
            ObjectsOp::ListBuckets(asked) => self.list_buckets(asked, label),
            ObjectsOp::CreateBucket(made) => self.create_bucket(made, label),
            ObjectsOp::DeleteBucket(bucket) => Ok(self.delete_bucket(bucket, label)),
            ObjectsOp::HeadBucket(bucket) => Ok(self.head_bucket(bucket, label)),
            ObjectsOp::GetLocation(bucket) => self.get_location(bucket, label),
            ObjectsOp::GetBucketAcl(bucket) => Ok(self.get_bucket_acl(bucket, label)),
            ObjectsOp::PutBucketAcl(set) => Ok(self.put_bucket_acl(set, label)),
            ObjectsOp::ListObjects(list) => self.list_objects(list, label),
            ObjectsOp::PutObject(put) => self.put_object(put, label),
            ObjectsOp::HeadObject(read) => self.head_object(read, label),
            ObjectsOp::DeleteObject(deletion) => Ok(self.delete_object(deletion, label)),
            ObjectsOp::DeleteObjects(many) => self.delete_objects(many, label),
            ObjectsOp::GetObjectAcl(name) => Ok(self.get_object_acl(name, label)),
            ObjectsOp::PutObjectAcl(set) => Ok(self.put_object_acl(set, label)),
            ObjectsOp::GetSetting(read) => self.get_setting(read, label),
        }
    }

    /// Drops each kept completion with a moment before this one, and answers how many those are; the most that the type has, where
    /// there are more. It takes no memory.
    pub fn forget(&mut self, before: u64) -> u64
        ensures settings { self.new.settings ≡ self.old.settings }
        ensures forgets { Forgets before self.old.state self.new.state }
        ensures count { result ≡ min (length (all_old before self.old.state)) (2 ^ 64 - 1) }
    {
        let count = self.buckets.count_older_in_each(before);
        self.buckets.drop_older_in_each(before);
        count
    }

    #[tactic(auto, using(s3_machine::proofs::lemmas::StepLemmas::step_listed))]
    fn list_buckets(&self, asked: &Proper<BucketListing>, label: &Label) -> Result<Reply, Memory>
        ensures { IfOk result (λ reply. S3Step self.now.settings self.now.state
            (OnObjects (ListBuckets asked.now)) label.now reply self.now.state) }
    {
        let asked = asked.get();
        let all = native_bucket_items(&self.buckets, self.alloc)?;
        let (items, truncated) = bucket_page(asked, all);
        Ok(Reply::OfObjects(ObjectsReply::Buckets(BucketPage {
            asked: asked.copy()?,
            items,
            truncated,
        })))
    }

    /// Where memory runs out, the state is as before.
    fn create_bucket(&mut self, made: &BucketAcl, label: &Label) -> Result<Reply, Memory>
        ensures settings { self.new.settings ≡ self.old.settings }
        ensures ok { IfOk result (λ reply. S3Step self.old.settings self.old.state
            (OnObjects (CreateBucket made.now)) label.now reply self.new.state) }
        ensures err { OnErr result (self.new.state ≡ self.old.state) }
    {
        if self.buckets.get(made.bucket.bytes()).is_some() {
            return Ok(Reply::Refused(Code::BucketAlreadyOwnedByYou));
        }
        let name = made.bucket.copy_text()?;
        let bucket = NativeBucket::new(self.alloc, label.moment, made.acl);
        self.buckets.put(made.bucket.bytes(), bucket)?;
        Ok(Reply::OfObjects(ObjectsReply::Made(name)))
    }

    fn delete_bucket(&mut self, bucket: &BucketName, label: &Label) -> Reply
        ensures settings { self.new.settings ≡ self.old.settings }
        ensures step { S3Step self.old.settings self.old.state (OnObjects (DeleteBucket bucket.now))
            label.now result self.new.state }
    {
        let Some(found) = self.buckets.get(bucket.bytes()) else {
            return Reply::Refused(Code::NoSuchBucket);
        };
        if !found.is_bare() {
            return Reply::Refused(Code::BucketNotEmpty);
        }
        self.buckets.drop_at(bucket.bytes());
        Reply::Gone
    }

    fn head_bucket(&self, bucket: &BucketName, label: &Label) -> Reply
        ensures { S3Step self.now.settings self.now.state (OnObjects (HeadBucket bucket.now))
            label.now
            result self.now.state }
    {
        let Some(found) = self.buckets.get(bucket.bytes()) else {
            return Reply::Refused(Code::NoSuchBucket);
        };
        if !found.may_be_read(label.caller) {
            return Reply::Refused(Code::AccessDenied);
        }
        Reply::Done
    }

    fn get_location(&self, bucket: &BucketName, label: &Label) -> Result<Reply, Memory>
        ensures { IfOk result (λ reply. S3Step self.now.settings self.now.state
            (OnObjects (GetLocation bucket.now)) label.now reply self.now.state) }
    {
        if self.buckets.get(bucket.bytes()).is_none() {
            return Ok(Reply::Refused(Code::NoSuchBucket));
        }
        let region = self.settings.region.copy()?;
        Ok(Reply::OfObjects(ObjectsReply::Location(region)))
    }

    fn get_bucket_acl(&self, bucket: &BucketName, label: &Label) -> Reply
        ensures { S3Step self.now.settings self.now.state (OnObjects (GetBucketAcl bucket.now))
            label.now
            result self.now.state }
    {
        match self.buckets.get(bucket.bytes()) {
            Some(found) => Reply::OfObjects(ObjectsReply::AclOf(found.acl())),
            None => Reply::Refused(Code::NoSuchBucket),
        }
    }

    fn put_bucket_acl(&mut self, set: &BucketAcl, label: &Label) -> Reply
        ensures settings { self.new.settings ≡ self.old.settings }
        ensures step { S3Step self.old.settings self.old.state (OnObjects (PutBucketAcl set.now))
            label.now result self.new.state }
    {
        if self.buckets.get(set.bucket.bytes()).is_none() {
            return Reply::Refused(Code::NoSuchBucket);
        }
        set_acl(&mut self.buckets, set.bucket.bytes(), set.acl);
        Reply::Done
    }

    fn list_objects(&self, list: &ObjectListing, label: &Label) -> Result<Reply, Memory>
        ensures { IfOk result (λ reply. S3Step self.now.settings self.now.state
            (OnObjects (ListObjects list.now)) label.now reply self.now.state) }
    {
        let Some(found) = self.buckets.get(list.bucket.bytes()) else {
            return Ok(Reply::Refused(Code::NoSuchBucket));
        };
        if !found.may_be_read(label.caller) {
            return Ok(Reply::Refused(Code::AccessDenied));
        }
        let asked = list.asked.get();
        let (items, truncated) = found.listing(self.alloc, asked)?;
        Ok(Reply::OfObjects(ObjectsReply::Objects(ObjectPage {
            bucket: list.bucket.copy_text()?,
            asked: asked.copy()?,
            items,
            truncated,
        })))
    }

    fn get_object_acl(&self, name: &ObjectName, label: &Label) -> Reply
        ensures { S3Step self.now.settings self.now.state (OnObjects (GetObjectAcl name.now))
            label.now result self.now.state }
    {
        let Some(found) = self.buckets.get(name.bucket.bytes()) else {
            return Reply::Refused(Code::NoSuchBucket);
        };
        if found.object(name.key.bytes()).is_none() {
            return Reply::Refused(Code::NoSuchKey);
        }
        Reply::OfObjects(ObjectsReply::AclOf(found.acl()))
    }

    /// Where memory runs out, the state is as before.
    fn put_object(&mut self, put: &ObjectPut, label: &Label) -> Result<Reply, Memory>
        ensures settings { self.new.settings ≡ self.old.settings }
        ensures ok { IfOk result (λ reply. S3Step self.old.settings self.old.state
            (OnObjects (PutObject put.now)) label.now reply self.new.state) }
        ensures err { OnErr result (self.new.state ≡ self.old.state) }
    {
        let Some(found) = self.buckets.get(put.bucket.bytes()) else {
            return Ok(Reply::Refused(Code::NoSuchBucket));
        };
        if found.has_another_acl(put.acl) {
            return Ok(Reply::Refused(Code::NotImplemented));
        }
        if let Some(code) = found.refuses(put.key.bytes(), &put.only_if) {
            return Ok(Reply::Refused(code));
        }
        let object = NativeObject::new(self.alloc, label.moment, put.content.get())?;
        let stored = object.stored(&put.checksum)?;
        put_object(
            &mut self.buckets,
            put.bucket.bytes(),
            put.key.bytes(),
            object,
        )?;
        Ok(Reply::Stored(stored))
    }

    #[tactic(auto, using(crate::proofs::ReadSteps::get_missing, crate::proofs::ReadSteps::get_refused, crate::proofs::ReadSteps::get_none, crate::proofs::ReadSteps::get_there))]
    fn get_object(&self, read: &ObjectRead, label: &Label) -> Result<Reply, Memory>
        ensures { IfOk result (λ reply. S3Step self.now.settings self.now.state
            (GetObject read.now) label.now reply self.now.state) }
    {
        let Some(found) = self.buckets.get(read.bucket.bytes()) else {
            return Ok(Reply::Refused(Code::NoSuchBucket));
        };
        if !found.may_be_read(label.caller) {
            return Ok(Reply::Refused(Code::AccessDenied));
        }
        let Some(object) = found.object(read.key.bytes()) else {
            return Ok(Reply::Refused(Code::NoSuchKey));
        };
        object.got(self.alloc, read)
    }

    #[tactic(auto, using(crate::proofs::ReadSteps::head_missing, crate::proofs::ReadSteps::head_refused, crate::proofs::ReadSteps::head_none, crate::proofs::ReadSteps::head_there))]
    fn head_object(&self, read: &ObjectRead, label: &Label) -> Result<Reply, Memory>
        ensures { IfOk result (λ reply. S3Step self.now.settings self.now.state
            (OnObjects (HeadObject read.now)) label.now reply self.now.state) }
    {
        let Some(found) = self.buckets.get(read.bucket.bytes()) else {
            return Ok(Reply::Refused(Code::NoSuchBucket));
        };
        if !found.may_be_read(label.caller) {
            return Ok(Reply::Refused(Code::AccessDenied));
        }
        let Some(object) = found.object(read.key.bytes()) else {
            return Ok(Reply::Refused(Code::NoSuchKey));
        };
        object.headed(self.alloc, read)
    }

    fn delete_object(&mut self, deletion: &ObjectDeletion, label: &Label) -> Reply
        ensures settings { self.new.settings ≡ self.old.settings }
        ensures step { S3Step self.old.settings self.old.state (OnObjects (DeleteObject
            deletion.now))
            label.now result self.new.state }
    {
        let Some(found) = self.buckets.get(deletion.bucket.bytes()) else {
            return Reply::Refused(Code::NoSuchBucket);
        };
        if let Some(code) = found.refuses(deletion.key.bytes(), &deletion.only_if) {
            return Reply::Refused(code);
        }
        drop_native_object(
            &mut self.buckets,
            deletion.bucket.bytes(),
            deletion.key.bytes(),
        );
        Reply::Gone
    }

    /// Where memory runs out, the state is as before.
    fn delete_objects(&mut self, many: &ObjectsDeletion, label: &Label) -> Result<Reply, Memory>
        ensures settings { self.new.settings ≡ self.old.settings }
        ensures ok { IfOk result (λ reply. S3Step self.old.settings self.old.state
            (OnObjects (DeleteObjects many.now)) label.now reply self.new.state) }
        ensures err { OnErr result (self.new.state ≡ self.old.state) }
    {
        if self.buckets.get(many.bucket.bytes()).is_none() {
            return Ok(Reply::Refused(Code::NoSuchBucket));
        }
        // What may fail comes before the first key is dropped.
        let keys = many.keys.get();
        let deleted = keys.copy()?;
        drop_native_objects(&mut self.buckets, many.bucket.bytes(), keys.as_slice());
        Ok(Reply::OfObjects(ObjectsReply::Deleted(DeletedKeys {
            keys: deleted,
            quiet: many.quiet,
        })))
    }
}
