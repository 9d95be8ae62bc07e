//! The operations on uploads in the machine's running form.
#![tactic(auto, using(crate::proofs::Steps::plain))]

ghost use Rattle.std.specs.Prelude.{◌≡◌, map, IfOk, IfSome, IsTrue, false, None, is_some, OnOk, OnErr, Some};
ghost use Rattle.std.specs.FinMap.{entries, from_entries, get};
ghost use Rattle.std.specs.List.{filter};
ghost use Rattle.gate_base.specs.Maps.{adjust, name_cmp};
ghost use Rattle.s3_machine.specs.declared.operation.Op.TheVariants.{OnUploads};
ghost use Rattle.s3_machine.specs.declared.operation.UploadsOp.TheVariants.{ListUploads, CreateUpload, UploadPart, ListParts, CompleteUpload, AbortUpload};
ghost use Rattle.s3_machine.specs.ETag.{body_etag};
ghost use Rattle.s3_machine.specs.State.{Bucket};
ghost use Rattle.s3_machine.specs.Step.{IsNewId, S3Step};
ghost use Rattle.s3_machine.specs.Uploads.{
  cut,
  drop_upload,
  id_value,
  is_upload_after,
  is_upload_listed,
  kept_as,
  new_part,
  on_upload,
  open_upload,
  upload_place,
  upload_row,
  uploads_after,
  with_part,
};
ghost use Rattle.s3_native.specs.Made.{StepsTo, completed_to};
ghost use Rattle.s3_native.specs.Native.{added, closed, upload_item};
ghost use Rattle.s3_native.specs.NewIds.{GivesFirstId, IsFirstNewId};

use crate::kept::NativeKept;
use crate::listing::{first_native_items, is_native_listing_cut};
use crate::named::Named;
use crate::native::{Native, NativeBucket, NativeObject};
use crate::upload::{NativePart, NativeUpload};
use gate_base::{Bytes, Copying, List, Memory};
use name_table::Table;
use s3_machine::{
    Body, Code, CompletedObject, Label, Listed, PartListing, PartNumber, PartPage, PartPut,
    PartsAsked, Reply, StartedUpload, StoredBytes, UploadCompletion, UploadItem, UploadListing,
    UploadName, UploadPage, UploadStart, UploadsOp, UploadsReply, begins, copy_option,
};
use s3_names::{BucketName, id_digits, read_id_digits};
use std::alloc::Global;

/// How many ids are tried for a new upload. All of them are taken only where there are as many uploads.
const TRIES: u32 = 1_000_000;

/// The id that the text of an upload writes; 0 for a text that writes none.
fn native_upload_id_value(text: &[u8]) -> u128
    ensures { result ≡ id_value text.now }
{
    match read_id_digits(text) {
        Some(id) => id,
        None => 0,
    }
}

/// Whether an upload of this key and id comes after the markers.
fn is_native_upload_after(key_marker: &[u8], id_marker: &[u8], key: &[u8], id: &[u8]) -> bool
    ensures { result ≡ is_upload_after key_marker.now id_marker.now key.now id.now }
{
    key.cmp(key_marker).is_gt()
        || (key == key_marker && id_marker.len() > 0 && id.cmp(id_marker).is_gt())
}

impl NativeUpload {
    fn is_listed(&self, prefix: &[u8], key_marker: &[u8], id_marker: &[u8], id: &[u8]) -> bool
        ensures { result ≡ is_upload_listed prefix.now key_marker.now id_marker.now
            (id.now, self.now) }
    {
        let key = self.key.as_slice();
        begins(prefix, key) && is_native_upload_after(key_marker, id_marker, key, id)
    }

    /// What a listing tells of it.
    fn upload_item(&self, id: &[u8]) -> Result<UploadItem, Memory>
        ensures { IfOk result (λ item. item ≡ upload_item id.now self.now) }
    {
        Ok(UploadItem {
            key: self.key.copy()?,
            id: native_upload_id_value(id),
            started: self.started,
        })
    }

    /// Where it stands among others.
    fn place(&self, alloc: Global, id: &[u8]) -> Result<Bytes, Memory>
        ensures { IfOk result (λ place. place ≡ upload_place self.now.key id.now) }
    {
        let mut place = Bytes::from_slice(alloc, self.key.as_slice())?;
        place.push(0)?;
        place.append(id)?;
        Ok(place)
    }
}

/// Adds an item at its place, unless one is there. Where memory runs out, the rows are as before.
fn add_native_upload_item(
    rows: &mut Table<UploadItem>,
    place: &[u8],
    item: UploadItem,
) -> Result<(), Memory>
    ensures { OnOk result (rows.new ≡ added (place.now, item) rows.old) }
{
    if rows.get(place).is_some() {
        return Ok(());
    }
    rows.put(place, item)
}

/// The items in the order of their places.
fn native_upload_items(rows: &Table<UploadItem>, alloc: Global) -> Result<List<UploadItem>, Memory>
    ensures { IfOk result (λ items. items ≡ map (λ row. row.1) (entries rows.now)) }
{
    let mut items = List::new(alloc);
    for (_place, item) in rows.as_map() {
        items.push(item.copy()?)?;
    }
    Ok(items)
}

/// The uploads with the prefix that come after the markers, by their places.
fn native_upload_rows_after(
    uploads: &Table<NativeUpload>,
    alloc: Global,
    prefix: &[u8],
    key_marker: &[u8],
    id_marker: &[u8],
) -> Result<Table<UploadItem>, Memory>
    ensures { IfOk result (λ rows. rows ≡ from_entries {R = name_cmp}
        (map upload_row (filter (is_upload_listed prefix.now key_marker.now id_marker.now)
        (entries uploads.now)))) }
{
    let mut rows = Table::new(alloc);
    for (id, upload) in uploads.as_map() {
        if upload.is_listed(prefix, key_marker, id_marker, id) {
            let place = upload.place(alloc, id)?;
            let item = upload.upload_item(id)?;
            add_native_upload_item(&mut rows, place.as_slice(), item)?;
        }
    }
    Ok(rows)
}

/// The first uploads of a listing, and whether one is left over.
fn native_listed_uploads(
    uploads: &Table<NativeUpload>,
    alloc: Global,
    prefix: &[u8],
    key_marker: &[u8],
    id_marker: &[u8],
    max: u32,
) -> Result<(List<UploadItem>, bool), Memory>
    ensures { IfOk result (λ listed. listed ≡ cut max
        (uploads_after prefix.now key_marker.now id_marker.now uploads.now)) }
{
    let rows = native_upload_rows_after(uploads, alloc, prefix, key_marker, id_marker)?;
    let items = native_upload_items(&rows, alloc)?;
    let max = max as usize;
    let truncated = is_native_listing_cut(max, items.len());
    Ok((first_native_items(items, max), truncated))
}

/// Puts a part into an upload, in place of what stands under its number. Where memory runs out, all is as before.
fn put_part_in_native_uploads(
    uploads: &mut Table<NativeUpload>,
    id: &[u8],
    number: u32,
    part: NativePart,
) -> Result<(), Memory>
    ensures ok { OnOk result (uploads.new ≡ adjust id.now (with_part number part) uploads.old) }
    ensures err { OnErr result (uploads.new ≡ uploads.old) }
{
    match uploads.get_mut(id) {
        Some(found) => found.put_part(number, part),
        None => Ok(()),
    }
}

impl NativeBucket {
    fn is_unused(&self, id: u128) -> bool
        ensures unused { IsTrue result → IsNewId self.now id }
        ensures used { result ≡ false → IsNewId self.now id → ⊥ }
    {
        let digits = id_digits(id);
        self.uploads.get(&digits).is_none() && self.kept.get(&digits).is_none()
    }

    /// The first id from the word of chance on that is neither open nor kept, if few are.
    fn new_id(&self, draw: u128) -> Option<u128>
        ensures new { IfSome result (λ id. IsNewId self.now id) }
        ensures first { IfSome result (λ id. IsFirstNewId self.now draw id) }
    {
        'tries: for tries in 0..TRIES {
            let id = draw.wrapping_add(u128::from(tries));
            if self.is_unused(id) {
                return Some(id);
            }
        }
        None
    }

    /// The ETag with which the same completion is kept, if it is.
    fn repeated(&self, key: &[u8], id: &[u8], list: &[Listed]) -> Result<Option<Bytes>, Memory>
        ensures { IfOk result (λ etag. etag ≡ kept_as key.now list.now (get self.now.kept id.now)) }
    {
        match self.kept.get(id) {
            Some(kept) if kept.is_same(key, list) => Ok(Some(kept.etag()?)),
            _ => Ok(None),
        }
    }

    fn open_upload(&mut self, id: &[u8], upload: NativeUpload) -> Result<(), Memory>
        ensures ok { OnOk result (self.new ≡ open_upload id.now upload self.old) }
        ensures err { OnErr result (self.new ≡ self.old) }
    {
        self.uploads.put(id, upload)
    }

    fn put_part(&mut self, id: &[u8], number: u32, part: NativePart) -> Result<(), Memory>
        ensures ok { OnOk result (self.new ≡ on_upload id.now (with_part number part) self.old) }
        ensures err { OnErr result (self.new ≡ self.old) }
    {
        put_part_in_native_uploads(&mut self.uploads, id, number, part)
    }

    fn drop_upload(&mut self, id: &[u8])
        ensures { self.new ≡ drop_upload id.now self.old }
    {
        self.uploads.drop_at(id);
    }

    fn is_kept(&self, id: &[u8]) -> bool
        ensures { result ≡ is_some (get self.now.kept id.now) }
    {
        self.kept.get(id).is_some()
    }

    /// Puts the object of a completion, closes its upload, and keeps it. Where memory runs out, all is as before; it is taken
    /// to run out also where a completion of the id is kept already, which no open upload has.
    fn close(
        &mut self,
        key: &[u8],
        id: &[u8],
        object: NativeObject,
        kept: NativeKept,
    ) -> Result<(), Memory>
        ensures ok { OnOk result (self.new ≡ closed key.now id.now object kept self.old) }
        ensures err { OnErr result (self.new ≡ self.old) }
    {
        if self.is_kept(id) {
            return Err(Memory);
        }
        self.kept.put(id, kept)?;
        match self.objects.put(key, object) {
            Ok(()) => {
                self.uploads.drop_at(id);
                Ok(())
            }
            Err(fault) => {
                self.kept.drop_at(id);
                Err(fault)
            }
        }
    }
}

/// Opens an upload in a bucket. Where memory runs out, all is as before.
fn open_upload(
    buckets: &mut Named<NativeBucket>,
    bucket: &[u8],
    id: &[u8],
    upload: NativeUpload,
) -> Result<(), Memory>
    ensures ok { OnOk result
        (buckets.new ≡ adjust bucket.now (open_upload id.now upload) buckets.old) }
    ensures err { OnErr result (buckets.new ≡ buckets.old) }
{
    match buckets.get_mut(bucket) {
        Some(found) => found.open_upload(id, upload),
        None => Ok(()),
    }
}

/// Puts a part into an upload of a bucket. Where memory runs out, all is as before.
fn put_part(
    buckets: &mut Named<NativeBucket>,
    bucket: &[u8],
    id: &[u8],
    number: u32,
    part: NativePart,
) -> Result<(), Memory>
    ensures ok { OnOk result
        (buckets.new ≡ adjust bucket.now (on_upload id.now (with_part number part)) buckets.old) }
    ensures err { OnErr result (buckets.new ≡ buckets.old) }
{
    match buckets.get_mut(bucket) {
        Some(found) => found.put_part(id, number, part),
        None => Ok(()),
    }
}

/// Takes away an upload of a bucket, if it is there.
fn drop_native_upload(buckets: &mut Named<NativeBucket>, bucket: &[u8], id: &[u8])
    ensures { buckets.new ≡ adjust bucket.now (drop_upload id.now) buckets.old }
{
    if let Some(found) = buckets.get_mut(bucket) {
        found.drop_upload(id);
    }
}

/// Closes an upload of a bucket by its completion. Where memory runs out, all is as before.
fn close_native_upload(
    buckets: &mut Named<NativeBucket>,
    bucket: &[u8],
    key: &[u8],
    id: &[u8],
    object: NativeObject,
    kept: NativeKept,
) -> Result<(), Memory>
    ensures ok { OnOk result
        (buckets.new ≡ adjust bucket.now (closed key.now id.now object kept) buckets.old) }
    ensures err { OnErr result (buckets.new ≡ buckets.old) }
{
    match buckets.get_mut(bucket) {
        Some(found) => found.close(key, id, object, kept),
        None => Ok(()),
    }
}

/// What a completion is answered by the ETag of its object.
fn completed_object(done: &UploadCompletion, etag: Bytes) -> Result<CompletedObject, Memory>
    ensures { IfOk result (λ told. told ≡ record
        { bucket = done.now.bucket; key = done.now.key; etag = etag }) }
{
    Ok(CompletedObject {
        bucket: done.bucket.copy_text()?,
        key: done.key.copy_text()?,
        etag,
    })
}

impl Native {
    /// A step of an operation on uploads.
    pub(crate) fn step_upload(&mut self, op: &UploadsOp, label: &Label) -> Result<Reply, Memory>
        ensures settings { self.new.settings ≡ self.old.settings }
        ensures ok { IfOk result (λ reply. S3Step self.old.settings self.old.state
            (OnUploads op.now) label.now
            reply self.new.state) }
        ensures first { GivesFirstId self.old.state (OnUploads op.now) label.now result }
        ensures err { OnErr result (self.new.state ≡ self.old.state) }
    {
        match op {
            UploadsOp::ListUploads(list) => self.list_uploads(list, label),
            UploadsOp::CreateUpload(start) => self.create_upload(start, label),
            UploadsOp::UploadPart(part) => self.upload_part(part, label),
            UploadsOp::ListParts(list) => self.list_parts(list, label),
            UploadsOp::CompleteUpload(done) => self.complete_upload(done, label),
            UploadsOp::AbortUpload(upload) => Ok(self.abort_upload(upload, label)),
        }
    }

    fn list_uploads(&self, list: &UploadListing, label: &Label) -> Result<Reply, Memory>
        ensures { IfOk result (λ reply. S3Step self.now.settings self.now.state
            (OnUploads (ListUploads list.now)) label.now reply self.now.state) }
    {
        let Some(found) = self.buckets.get(list.bucket.bytes()) else {
            return Ok(Reply::Refused(Code::NoSuchBucket));
        };
        let asked = list.asked.get();
        let (items, truncated) = native_listed_uploads(
            &found.uploads,
            self.alloc,
            asked.prefix.as_slice(),
            asked.key_marker.as_slice(),
            asked.id_marker.as_slice(),
            asked.max,
        )?;
        Ok(Reply::OfUploads(UploadsReply::Uploads(UploadPage {
            bucket: list.bucket.copy_text()?,
            asked: asked.copy()?,
            items,
            truncated,
        })))
    }

    /// Where memory runs out, the state is as before.
    #[tactic(auto, using(crate::proofs::NewIds::first_in, crate::proofs::Steps::plain, s3_machine::proofs::lemmas::StepLemmas::start_with_another_acl))]
    fn create_upload(&mut self, start: &UploadStart, label: &Label) -> Result<Reply, Memory>
        ensures settings { self.new.settings ≡ self.old.settings }
        ensures ok { IfOk result (λ reply. S3Step self.old.settings self.old.state
            (OnUploads (CreateUpload start.now)) label.now reply self.new.state) }
        ensures first { GivesFirstId self.old.state (OnUploads (CreateUpload start.now)) label.now
            result }
        ensures err { OnErr result (self.new.state ≡ self.old.state) }
    {
        let Some(found) = self.buckets.get(start.bucket.bytes()) else {
            return Ok(Reply::Refused(Code::NoSuchBucket));
        };
        if found.has_another_acl(start.acl) {
            return Ok(Reply::Refused(Code::NotImplemented));
        }
        let Some(id) = found.new_id(label.draw) else {
            return Err(Memory);
        };
        let bucket = start.bucket.copy_text()?;
        let key = start.key.copy_text()?;
        let upload = NativeUpload::new(
            self.alloc,
            &start.key,
            start.described.get(),
            label.moment,
        )?;
        let digits = id_digits(id);
        open_upload(&mut self.buckets, start.bucket.bytes(), &digits, upload)?;
        Ok(Reply::OfUploads(UploadsReply::Started(StartedUpload { bucket, key, id })))
    }

    /// Where memory runs out, the state is as before.
    fn upload_part(&mut self, part: &PartPut, label: &Label) -> Result<Reply, Memory>
        ensures settings { self.new.settings ≡ self.old.settings }
        ensures ok { IfOk result (λ reply. S3Step self.old.settings self.old.state
            (OnUploads (UploadPart part.now)) label.now reply self.new.state) }
        ensures err { OnErr result (self.new.state ≡ self.old.state) }
    {
        let Some(found) = self.buckets.get(part.bucket.bytes()) else {
            return Ok(Reply::Refused(Code::NoSuchBucket));
        };
        let Some(upload) = found.uploads.get(part.id.as_slice()) else {
            return Ok(Reply::Refused(Code::NoSuchUpload));
        };
        if !upload.is_of(part.key.bytes()) {
            return Ok(Reply::Refused(Code::NoSuchUpload));
        }
        // What may fail comes before the part is put.
        let checksum = copy_option(&part.checksum)?;
        let etag = self.put_body(&part.bucket, &part.id, part.number, part.body.get(), label)?;
        Ok(Reply::Stored(StoredBytes { etag, checksum }))
    }

    /// Puts a part of these bytes into an upload, and gives its ETag. Where memory runs out, the state is as before.
    pub(crate) fn put_body(
        &mut self,
        bucket: &BucketName,
        id: &Bytes,
        number: PartNumber,
        body: &Body,
        label: &Label,
    ) -> Result<Bytes, Memory>
        ensures settings { self.new.settings ≡ self.old.settings }
        ensures etag { IfOk result (λ etag. etag ≡ body_etag body.now) }
        ensures ok { OnOk result (self.new.state ≡ adjust bucket.now
            (on_upload id.now (with_part number (new_part label.now.moment body.now)))
            self.old.state) }
        ensures err { OnErr result (self.new.state ≡ self.old.state) }
    {
        let part = NativePart::new(self.alloc, label.moment, body)?;
        let etag = part.etag()?;
        put_part(
            &mut self.buckets,
            bucket.bytes(),
            id.as_slice(),
            number.get(),
            part,
        )?;
        Ok(etag)
    }

    fn list_parts(&self, list: &PartListing, label: &Label) -> Result<Reply, Memory>
        ensures { IfOk result (λ reply. S3Step self.now.settings self.now.state
            (OnUploads (ListParts list.now)) label.now reply self.now.state) }
    {
        let Some(found) = self.buckets.get(list.bucket.bytes()) else {
            return Ok(Reply::Refused(Code::NoSuchBucket));
        };
        let Some(upload) = found.uploads.get(list.id.as_slice()) else {
            return Ok(Reply::Refused(Code::NoSuchUpload));
        };
        if !upload.is_of(list.key.bytes()) {
            return Ok(Reply::Refused(Code::NoSuchUpload));
        }
        let asked = list.asked.get();
        let (items, truncated) = upload.listed_parts(self.alloc, asked.marker, asked.max)?;
        Ok(Reply::OfUploads(UploadsReply::Parts(PartPage {
            bucket: list.bucket.copy_text()?,
            key: list.key.copy_text()?,
            id: native_upload_id_value(list.id.as_slice()),
            asked: PartsAsked {
                marker: asked.marker,
                max: asked.max,
            },
            items,
            truncated,
        })))
    }

    fn abort_upload(&mut self, upload: &UploadName, label: &Label) -> Reply
        ensures settings { self.new.settings ≡ self.old.settings }
        ensures step { S3Step self.old.settings self.old.state
            (OnUploads (AbortUpload upload.now)) label.now result self.new.state }
    {
        let Some(found) = self.buckets.get(upload.bucket.bytes()) else {
            return Reply::Refused(Code::NoSuchBucket);
        };
        let Some(open) = found.uploads.get(upload.id.as_slice()) else {
            return Reply::Refused(Code::NoSuchUpload);
        };
        if !open.is_of(upload.key.bytes()) {
            return Reply::Refused(Code::NoSuchUpload);
        }
        drop_native_upload(
            &mut self.buckets,
            upload.bucket.bytes(),
            upload.id.as_slice(),
        );
        Reply::Gone
    }

    /// A completion that is kept is answered again. Where memory runs out, the state is as before.
    fn complete_upload(&mut self, done: &UploadCompletion, label: &Label) -> Result<Reply, Memory>
        ensures settings { self.new.settings ≡ self.old.settings }
        ensures ok { IfOk result (λ reply. S3Step self.old.settings self.old.state
            (OnUploads (CompleteUpload done.now)) label.now reply self.new.state) }
        ensures err { OnErr result (self.new.state ≡ self.old.state) }
    {
        let Some(found) = self.buckets.get(done.bucket.bytes()) else {
            return Ok(Reply::Refused(Code::NoSuchBucket));
        };
        match found.repeated(
            done.key.bytes(),
            done.id.as_slice(),
            done.list.get().as_slice(),
        )? {
            Some(etag) => {
                let told = completed_object(done, etag)?;
                Ok(Reply::OfUploads(UploadsReply::Completed(told)))
            }
            None => self.complete_open(done, label),
        }
    }

    /// A completion that isn't kept.
    fn complete_open(&mut self, done: &UploadCompletion, label: &Label) -> Result<Reply, Memory>
        requires { (b : Bucket) → get self.now.state done.now.bucket ≡ Some b
            → kept_as done.now.key done.now.list (get b.kept done.now.id) ≡ None }
        ensures settings { self.new.settings ≡ self.old.settings }
        ensures ok { IfOk result (λ reply. S3Step self.old.settings self.old.state
            (OnUploads (CompleteUpload done.now)) label.now reply self.new.state) }
        ensures err { OnErr result (self.new.state ≡ self.old.state) }
    {
        let (etag, object, kept) = match self.completed_open(done, label)? {
            Ok(made) => made,
            Err(code) => return Ok(Reply::Refused(code)),
        };
        let told = completed_object(done, etag)?;
        close_native_upload(
            &mut self.buckets,
            done.bucket.bytes(),
            done.key.bytes(),
            done.id.as_slice(),
            object,
            kept,
        )?;
        Ok(Reply::OfUploads(UploadsReply::Completed(told)))
    }

    /// The ETag, the object and what is kept of a completion that isn't kept, or the code that refuses it. It changes nothing.
    fn completed_open(
        &self,
        done: &UploadCompletion,
        label: &Label,
    ) -> Result<Result<(Bytes, NativeObject, NativeKept), Code>, Memory>
        requires { (b : Bucket) → get self.now.state done.now.bucket ≡ Some b
            → kept_as done.now.key done.now.list (get b.kept done.now.id) ≡ None }
        ensures { IfOk result (λ made. StepsTo self.now.settings self.now.state
            (OnUploads (CompleteUpload done.now)) label.now
            (completed_to self.now.state done.now made)) }
    {
        let list = done.list.get();
        let Some(found) = self.buckets.get(done.bucket.bytes()) else {
            return Ok(Err(Code::NoSuchBucket));
        };
        let Some(upload) = found.uploads.get(done.id.as_slice()) else {
            return Ok(Err(Code::NoSuchUpload));
        };
        if !upload.is_of(done.key.bytes()) {
            return Ok(Err(Code::NoSuchUpload));
        }
        if let Some(code) = upload.refuses(self.settings.least_part, list.as_slice()) {
            return Ok(Err(code));
        }
        if let Some(code) = found.refuses(done.key.bytes(), &done.only_if) {
            return Ok(Err(code));
        }
        Ok(Ok(upload.completed(self.alloc, list, label.moment)?))
    }
}
