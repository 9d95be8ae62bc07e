ghost use Rattle.std.specs.Prelude.{◌≡◌, ◌<◌};
ghost use Rattle.gate_base.specs.Told.{moment_limit};
ghost use Rattle.s3_machine.specs.Limits.{body_limit, strict_settings};

use crate::items::{Asked, BucketItem, Item, PartItem, PartsAsked, UploadItem, UploadsAsked};
use crate::limits::MOST_BODY_BYTES;
use crate::only_if::OnlyIf;
use crate::reading::{Conditions, Range};
use crate::unset::{Unset, UnsetPage};
use crate::{Body, BucketListing, Code, CopyRange, Limits, PartNumber, Proper, copy_option};
use gate_base::{Bytes, Caller, Copying, List, Memory, Pair};
use s3_names::{Acl, BucketName, Key, Meta, ShareTable};

/// What holds for a whole run: the region's name, the least size in bytes of a part that isn't the last, the greatest of a body and
/// of a part that is copied, and whether requests may ask for more than the strict profile has. A greatest size above
/// `MOST_BODY_BYTES` counts as that. Where `any_region` is set, a credential's own region counts, and `region` is then us-east-1.
/// `domain` is that under whose names buckets stand in Host; `share` is what this writer has of the buckets, and without it that is
/// all of them.
#[derive(Debug, Drop)]
pub struct Settings {
    pub region: Bytes,
    pub least_part: u64,
    pub largest_body: u64,
    pub extended: bool,
    pub any_region: bool,
    pub domain: Option<Bytes>,
    pub share: Option<ShareTable>,
}

impl Copying for Settings {
    fn copy(&self) -> Result<Settings, Memory> {
        Ok(Settings {
            region: self.region.copy()?,
            least_part: self.least_part,
            largest_body: self.largest_body,
            extended: self.extended,
            any_region: self.any_region,
            domain: copy_option(&self.domain)?,
            share: copy_option(&self.share)?,
        })
    }
}

impl Settings {
    /// The settings of the strict profile, of one writer that has all buckets. It takes no memory.
    pub fn strict(region: Bytes, least_part: u64, largest_body: u64) -> Settings
        ensures { result ≡ strict_settings region least_part largest_body }
    {
        Settings {
            region,
            least_part,
            largest_body,
            extended: false,
            any_region: false,
            domain: None,
            share: None,
        }
    }

    /// The most bytes of a body, and of a part that is copied.
    pub fn body_limit(&self) -> u64
        ensures { result ≡ body_limit self.now }
    {
        self.largest_body.min(MOST_BODY_BYTES)
    }
}

/// What holds for one request: who sent it, the moment in seconds since the beginning of 1970 and before the year 10000, its id,
/// and a word of chance.
#[derive(Clone, Copy, Debug, PartialEq, Eq)]
pub struct Label {
    pub caller: Caller,
    pub moment: u64,
    pub request_id: u128,
    pub draw: u128,
    pub ghost timed: { moment < moment_limit },
}

impl Copying for Label {
    fn copy(&self) -> Result<Label, Memory> {
        Ok(*self)
    }
}

/// A part as a completion lists it: its number and its ETag without quotes.
#[derive(Debug, Drop)]
pub struct Listed {
    pub number: u32,
    pub etag: Bytes,
}

impl Copying for Listed {
    fn copy(&self) -> Result<Listed, Memory> {
        Ok(Listed {
            number: self.number,
            etag: self.etag.copy()?,
        })
    }
}

impl Limits for List<Listed> {
    ghost use Rattle.s3_machine.specs.Proper.{IsProperList};

    ghost Fits = { λ list. IsProperList list };
}

/// What an object is described by: the content type and the user metadata of an upload, and those that a copy is put with in
/// place of what its source has.
#[derive(Debug, Drop)]
pub struct Described {
    pub content_type: Bytes,
    pub meta: Meta,
}

impl Limits for Described {
    ghost use Rattle.s3_machine.specs.Proper.{IsProperDescribed};

    ghost Fits = { λ described. IsProperDescribed described };
}

impl Copying for Described {
    fn copy(&self) -> Result<Described, Memory> {
        Ok(Described {
            content_type: self.content_type.copy()?,
            meta: self.meta.copy()?,
        })
    }
}

/// A bucket and an access control list, as CreateBucket and PutBucketAcl have them.
#[derive(Debug, Drop)]
pub struct BucketAcl {
    pub bucket: BucketName,
    pub acl: Acl,
}

/// A bucket, and what ListObjects asks of it.
#[derive(Debug, Drop)]
pub struct ObjectListing {
    pub bucket: BucketName,
    pub asked: Proper<Asked>,
}

/// What an object is put with.
#[derive(Debug, Drop)]
pub struct Content {
    pub content_type: Bytes,
    pub meta: Meta,
    pub body: Body,
}

impl Limits for Content {
    ghost use Rattle.s3_machine.specs.Proper.{IsProperContent};

    ghost Fits = { λ content. IsProperContent content.content_type content.meta content.body };
}

/// An object that is put. An access control list that isn't given is the bucket's. `only_if` is what is asked of what stands under
/// the key, here and in each other write, last of all. `checksum` is the header of a checksum that was compared with the body, which
/// the reply shows.
#[derive(Debug, Drop)]
pub struct ObjectPut {
    pub bucket: BucketName,
    pub key: Key,
    pub acl: Option<Acl>,
    pub content: Proper<Content>,
    pub only_if: OnlyIf,
    pub checksum: Option<Pair>,
}

/// An object that is read, as GetObject and HeadObject have it. `part` asks for the bytes of the part of that number, and `shown` has
/// the headers, by their names in lower case, that the reply shows in place of the object's own.
#[derive(Debug, Drop)]
pub struct ObjectRead {
    pub bucket: BucketName,
    pub key: Key,
    pub range: Option<Range>,
    pub conditions: Conditions,
    pub part: Option<PartNumber>,
    pub shown: List<Pair>,
}

/// The name of an object, as GetObjectAcl has it.
#[derive(Debug, Drop)]
pub struct ObjectName {
    pub bucket: BucketName,
    pub key: Key,
}

/// An object that is deleted.
#[derive(Debug, Drop)]
pub struct ObjectDeletion {
    pub bucket: BucketName,
    pub key: Key,
    pub only_if: OnlyIf,
}

/// Many keys of a bucket that are deleted.
#[derive(Debug, Drop)]
pub struct ObjectsDeletion {
    pub bucket: BucketName,
    pub keys: Proper<List<Key>>,
    pub quiet: bool,
}

impl Limits for List<Key> {
    ghost use Rattle.s3_machine.specs.Proper.{IsProperKeys};

    ghost Fits = { λ keys. IsProperKeys keys };
}

/// A setting that is read: of a bucket or, where a key is given, of its object. Nothing sets any here, so `unset` is the answer where
/// the bucket, or the object, is there.
#[derive(Debug, Drop)]
pub struct SettingRead {
    pub bucket: BucketName,
    pub key: Option<Key>,
    pub unset: Unset,
}

/// An access control list that an object is given.
#[derive(Debug, Drop)]
pub struct ObjectAcl {
    pub bucket: BucketName,
    pub key: Key,
    pub acl: Acl,
}

/// The operations on buckets and objects, but for GetObject.
#[derive(Debug, Drop)]
pub enum ObjectsOp {
    ListBuckets(Proper<BucketListing>),
    CreateBucket(BucketAcl),
    DeleteBucket(BucketName),
    HeadBucket(BucketName),
    GetLocation(BucketName),
    GetBucketAcl(BucketName),
    PutBucketAcl(BucketAcl),
    ListObjects(ObjectListing),
    PutObject(ObjectPut),
    HeadObject(ObjectRead),
    DeleteObject(ObjectDeletion),
    DeleteObjects(ObjectsDeletion),
    GetObjectAcl(ObjectName),
    PutObjectAcl(ObjectAcl),
    GetSetting(SettingRead),
}

/// A bucket, and what ListUploads asks of it.
#[derive(Debug, Drop)]
pub struct UploadListing {
    pub bucket: BucketName,
    pub asked: Proper<UploadsAsked>,
}

/// An upload that is created.
#[derive(Debug, Drop)]
pub struct UploadStart {
    pub bucket: BucketName,
    pub key: Key,
    pub acl: Option<Acl>,
    pub described: Proper<Described>,
}

/// A part that is put. The id of an upload is a text as it was given: one that is no open upload's is NoSuchUpload. `checksum` is as
/// that of an object that is put.
#[derive(Debug, Drop)]
pub struct PartPut {
    pub bucket: BucketName,
    pub key: Key,
    pub id: Bytes,
    pub number: PartNumber,
    pub body: Proper<Body>,
    pub checksum: Option<Pair>,
}

/// An upload, and which of its parts ListParts lists.
#[derive(Debug, Drop)]
pub struct PartListing {
    pub bucket: BucketName,
    pub key: Key,
    pub id: Bytes,
    pub asked: Proper<PartsAsked>,
}

/// An upload, and the parts that complete it.
#[derive(Debug, Drop)]
pub struct UploadCompletion {
    pub bucket: BucketName,
    pub key: Key,
    pub id: Bytes,
    pub list: Proper<List<Listed>>,
    pub only_if: OnlyIf,
}

/// The name of an upload, as AbortUpload has it.
#[derive(Debug, Drop)]
pub struct UploadName {
    pub bucket: BucketName,
    pub key: Key,
    pub id: Bytes,
}

/// The operations on uploads in parts.
#[derive(Debug, Drop)]
pub enum UploadsOp {
    ListUploads(UploadListing),
    CreateUpload(UploadStart),
    UploadPart(PartPut),
    ListParts(PartListing),
    CompleteUpload(UploadCompletion),
    AbortUpload(UploadName),
}

/// An object that is copied. The conditions are on its source.
#[derive(Debug, Drop)]
pub struct ObjectCopy {
    pub bucket: BucketName,
    pub key: Key,
    pub acl: Option<Acl>,
    pub from_bucket: BucketName,
    pub from_key: Key,
    pub replaced: Option<Proper<Described>>,
    pub conditions: Conditions,
    pub only_if: OnlyIf,
}

/// A part that is copied. The conditions are on its source.
#[derive(Debug, Drop)]
pub struct PartCopy {
    pub bucket: BucketName,
    pub key: Key,
    pub id: Bytes,
    pub number: PartNumber,
    pub from_bucket: BucketName,
    pub from_key: Key,
    pub range: Option<CopyRange>,
    pub conditions: Conditions,
}

/// The copies.
#[derive(Debug, Drop)]
pub enum CopiesOp {
    CopyObject(ObjectCopy),
    CopyPart(PartCopy),
}

/// The operations of Amazon S3, by the crate that has their plans, and GetObject, which alone is answered in pieces.
#[derive(Debug, Drop)]
pub enum Op {
    GetObject(ObjectRead),
    OnObjects(ObjectsOp),
    OnUploads(UploadsOp),
    OnCopies(CopiesOp),
}

/// An object but for its bytes: its ETag without quotes, the moment of its last change in seconds since the
/// beginning of 1970, its size in bytes, its content type and its user metadata.
#[derive(Debug, Drop)]
pub struct ObjectHead {
    pub etag: Bytes,
    pub modified: u64,
    pub size: u64,
    pub content_type: Bytes,
    pub meta: Meta,
}

impl Copying for ObjectHead {
    fn copy(&self) -> Result<ObjectHead, Memory> {
        Ok(ObjectHead {
            etag: self.etag.copy()?,
            modified: self.modified,
            size: self.size,
            content_type: self.content_type.copy()?,
            meta: self.meta.copy()?,
        })
    }
}

/// The bytes of an object, as GetObject and HeadObject are answered: it has `length` bytes from the byte `from` on, all of them in
/// `body` or, in the reply to a HEAD, none; it is `partial` where a range was asked for. `shown` has the headers that are shown in place
/// of the object's own, and `parts` is how many parts it has, where a part was asked for and its ETag tells.
#[derive(Debug, Drop)]
pub struct ObjectBytes {
    pub head: ObjectHead,
    pub from: u64,
    pub length: u64,
    pub partial: bool,
    pub body: Bytes,
    pub shown: List<Pair>,
    pub parts: Option<u32>,
}

/// A page of the buckets, `truncated` where buckets are left over.
#[derive(Debug, Drop)]
pub struct BucketPage {
    pub asked: BucketListing,
    pub items: List<BucketItem>,
    pub truncated: bool,
}

/// A page of the objects of a bucket, `truncated` where items are left over.
#[derive(Debug, Drop)]
pub struct ObjectPage {
    pub bucket: Bytes,
    pub asked: Asked,
    pub items: List<Item>,
    pub truncated: bool,
}

/// Keys that were deleted. A `quiet` reply shows none of them.
#[derive(Debug, Drop)]
pub struct DeletedKeys {
    pub keys: List<Key>,
    pub quiet: bool,
}

/// What operations on buckets and objects are answered: a page of buckets, the name of one that was made, the region, an access
/// control list, a page of objects, keys that were deleted, or the document of a setting that nothing sets.
#[derive(Debug, Drop)]
pub enum ObjectsReply {
    Buckets(BucketPage),
    Made(Bytes),
    Location(Bytes),
    AclOf(Acl),
    Objects(ObjectPage),
    Deleted(DeletedKeys),
    Setting(UnsetPage),
}

/// A page of the open uploads of a bucket, `truncated` where items are left over.
#[derive(Debug, Drop)]
pub struct UploadPage {
    pub bucket: Bytes,
    pub asked: UploadsAsked,
    pub items: List<UploadItem>,
    pub truncated: bool,
}

/// An upload that was started.
#[derive(Debug, Drop)]
pub struct StartedUpload {
    pub bucket: Bytes,
    pub key: Bytes,
    pub id: u128,
}

/// A page of the parts of an upload, `truncated` where items are left over.
#[derive(Debug, Drop)]
pub struct PartPage {
    pub bucket: Bytes,
    pub key: Bytes,
    pub id: u128,
    pub asked: PartsAsked,
    pub items: List<PartItem>,
    pub truncated: bool,
}

/// An object that was completed, with its ETag without quotes.
#[derive(Debug, Drop)]
pub struct CompletedObject {
    pub bucket: Bytes,
    pub key: Bytes,
    pub etag: Bytes,
}

/// What operations on uploads in parts are answered.
#[derive(Debug, Drop)]
pub enum UploadsReply {
    Uploads(UploadPage),
    Started(StartedUpload),
    Parts(PartPage),
    Completed(CompletedObject),
}

/// A part or an object that was copied, with the ETag without quotes and the moment that it has since.
#[derive(Debug, Drop)]
pub struct CopiedBytes {
    pub part: bool,
    pub etag: Bytes,
    pub modified: u64,
}

/// An object or a part that was stored, with its ETag without quotes and the header of the checksum that was compared with its body.
#[derive(Debug, Drop)]
pub struct StoredBytes {
    pub etag: Bytes,
    pub checksum: Option<Pair>,
}

/// What an operation is answered. `Memory` says that memory ran out; the machine itself never gives it.
#[derive(Debug, Drop)]
pub enum Reply {
    Refused(Code),
    Memory,
    Done,
    Gone,
    NotModified(ObjectHead),
    Object(ObjectBytes),
    Stored(StoredBytes),
    OfObjects(ObjectsReply),
    OfUploads(UploadsReply),
    Copied(CopiedBytes),
}
