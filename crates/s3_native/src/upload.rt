//! Open uploads in the machine's running form: the parts of each by their numbers, what a listing tells of them, and what they are
//! joined to.
ghost use Rattle.std.specs.Prelude.{◌≡◌, ◌&&◌, bytes_eq, length, map, nat_lt, IfOk, OnOk, OnErr};
ghost use Rattle.std.specs.FinMap.{entries, get};
ghost use Rattle.std.specs.List.{filter};
ghost use Rattle.s3_machine.specs.Uploads.{cut, etag_listed, new_part, new_upload, part_item, parts_above, upload_etag, with_part};
ghost use Rattle.s3_native.specs.Native.{has_all, has_part, is_small_at, is_small_list, joined_by, kept_by, listed_bytes, refuses};

use crate::kept::NativeKept;
use crate::listing::{first_native_items, is_native_listing_cut};
use crate::native::NativeObject;
use crate::numbered::Numbered;
use gate_base::{Bytes, Copying, List, Memory};
use s3_machine::{Body, Code, Described, Listed, PartItem, rises, upload_etag};
use s3_names::{Key, Meta};
use std::alloc::Global;
use std::marker::Model;

/// A part of an open upload. Contracts see it as one of the state.
#[derive(Drop)]
pub(crate) struct NativePart {
    bytes: Bytes,
    etag: Bytes,
    modified: u64,
}

impl Model for NativePart {
    ghost use Rattle.s3_machine.specs.State.{Part, part_code};

    ghost Value = { Part };

    ghost coded = { part_code };

    ghost use Rattle.s3_native.specs.Native.{part_of};

    ghost view = { part_of };
}

impl NativePart {
    pub(crate) fn new(alloc: Global, moment: u64, body: &Body) -> Result<NativePart, Memory>
        ensures { IfOk result (λ made. made ≡ new_part moment body.now) }
    {
        Ok(NativePart {
            bytes: Bytes::from_slice(alloc, body.as_slice())?,
            etag: Bytes::from_slice(alloc, &body.etag())?,
            modified: moment,
        })
    }

    pub(crate) fn etag(&self) -> Result<Bytes, Memory>
        ensures { IfOk result (λ etag. etag ≡ self.now.etag) }
    {
        self.etag.copy()
    }

    /// What a listing tells of it.
    fn part_item(&self, number: u32) -> Result<PartItem, Memory>
        ensures { IfOk result (λ item. item ≡ part_item (number, self.now)) }
    {
        Ok(PartItem {
            number,
            etag: self.etag.copy()?,
            modified: self.modified,
            size: self.bytes.len() as u64,
        })
    }

    fn has_etag(&self, etag: &[u8]) -> bool
        ensures { result ≡ bytes_eq self.now.etag etag.now }
    {
        self.etag.as_slice() == etag
    }

    fn is_below(&self, least: u64) -> bool
        ensures { result ≡ nat_lt (length self.now.bytes) least }
    {
        (self.bytes.len() as u64) < least
    }
}

impl Numbered<NativePart> {
    /// The parts whose number is above the marker, in the order of the numbers.
    fn items_above(&self, alloc: Global, marker: u32) -> Result<List<PartItem>, Memory>
        ensures { IfOk result
            (λ items. items ≡ map part_item (filter (λ e. nat_lt marker e.0) (entries self.now))) }
    {
        let mut items = List::new(alloc);
        for (number, part) in &self.entries {
            if marker < *number {
                items.push(part.part_item(*number)?)?;
            }
        }
        Ok(items)
    }

    /// Whether a part that is listed is there with its ETag.
    fn has_part(&self, listed: &Listed) -> bool
        ensures { result ≡ has_part self.now listed.now }
    {
        match self.get(listed.number) {
            Some(part) => part.has_etag(listed.etag.as_slice()),
            None => false,
        }
    }

    fn has_all(&self, list: &[Listed]) -> bool
        ensures { result ≡ has_all self.now list.now }
    {
        list.iter().all(|listed| self.has_part(listed))
    }

    /// Whether a part that is listed has fewer bytes than the least.
    fn is_small_at(&self, least: u64, listed: &Listed) -> bool
        ensures { result ≡ is_small_at self.now least listed.now }
    {
        match self.get(listed.number) {
            Some(part) => part.is_below(least),
            None => false,
        }
    }

    /// Whether a part that is listed, other than the last, has fewer bytes than the least.
    #[tactic(auto, using(crate::proofs::Parts::small_next, crate::proofs::Parts::small_end))]
    fn is_small_list(&self, least: u64, list: &[Listed]) -> bool
        ensures { result ≡ is_small_list self.now least list.now }
    {
        for (i, listed) in list.iter().enumerate() {
            if i + 1 < list.len() && self.is_small_at(least, listed) {
                return true;
            }
        }
        false
    }

    /// The bytes of the parts that are listed, in the order of the list.
    fn joined(&self, alloc: Global, list: &[Listed]) -> Result<Bytes, Memory>
        ensures { IfOk result (λ bytes. bytes ≡ listed_bytes self.now list.now) }
    {
        let mut bytes = Bytes::new(alloc);
        for listed in list {
            if let Some(part) = self.get(listed.number) {
                bytes.append(part.bytes.as_slice())?;
            }
        }
        Ok(bytes)
    }
}

/// An open upload. Contracts see it as one of the state.
#[derive(Drop)]
pub(crate) struct NativeUpload {
    pub(crate) key: Bytes,
    content_type: Bytes,
    meta: Meta,
    pub(crate) started: u64,
    parts: Numbered<NativePart>,
}

impl Model for NativeUpload {
    ghost use Rattle.s3_machine.specs.State.{Upload, upload_code};

    ghost Value = { Upload };

    ghost coded = { upload_code };

    ghost use Rattle.s3_native.specs.Native.{upload_of};

    ghost view = { upload_of };
}

impl NativeUpload {
    pub(crate) fn new(
        alloc: Global,
        key: &Key,
        described: &Described,
        started: u64,
    ) -> Result<NativeUpload, Memory>
        ensures { IfOk result
            (λ made. made ≡ new_upload key.now described.now.content_type described.now.meta
            started) }
    {
        Ok(NativeUpload {
            key: key.copy_text()?,
            content_type: described.content_type.copy()?,
            meta: described.meta.copy()?,
            started,
            parts: Numbered::new(alloc),
        })
    }

    pub(crate) fn is_of(&self, key: &[u8]) -> bool
        ensures { result ≡ bytes_eq self.now.key key.now }
    {
        self.key.as_slice() == key
    }

    /// Puts a part in place of what stands under its number. Where memory runs out, the upload is as before.
    pub(crate) fn put_part(&mut self, number: u32, part: NativePart) -> Result<(), Memory>
        ensures ok { OnOk result (self.new ≡ with_part number part self.old) }
        ensures err { OnErr result (self.new ≡ self.old) }
    {
        self.parts.put(number, part)
    }

    /// The first parts above the marker, and whether one is left over.
    pub(crate) fn listed_parts(
        &self,
        alloc: Global,
        marker: u32,
        max: u32,
    ) -> Result<(List<PartItem>, bool), Memory>
        ensures { IfOk result (λ listed. listed ≡ cut max (parts_above marker self.now)) }
    {
        let items = self.parts.items_above(alloc, marker)?;
        let max = max as usize;
        let truncated = is_native_listing_cut(max, items.len());
        Ok((first_native_items(items, max), truncated))
    }

    /// The code with which a completion by this list is refused, if it is.
    pub(crate) fn refuses(&self, least: u64, list: &[Listed]) -> Option<Code>
        ensures { result ≡ refuses least self.now.parts list.now }
    {
        if !rises(list) {
            return Some(Code::InvalidPartOrder);
        }
        if !self.parts.has_all(list) {
            return Some(Code::InvalidPart);
        }
        if self.parts.is_small_list(least, list) {
            return Some(Code::EntityTooSmall);
        }
        None
    }

    /// The object that the parts of a list become.
    fn joined(
        &self,
        alloc: Global,
        list: &[Listed],
        etag: &Bytes,
        moment: u64,
    ) -> Result<NativeObject, Memory>
        ensures { IfOk result (λ object. object ≡ record {
          bytes = listed_bytes self.now.parts list.now;
          etag = etag.now;
          content_type = self.now.content_type;
          meta = self.now.meta;
          modified = moment;
        }) }
    {
        Ok(NativeObject {
            bytes: self.parts.joined(alloc, list)?,
            etag: etag.copy()?,
            content_type: self.content_type.copy()?,
            meta: self.meta.copy()?,
            modified: moment,
        })
    }

    /// What is kept of its completion by a list.
    fn kept(&self, list: &List<Listed>, etag: &Bytes, moment: u64) -> Result<NativeKept, Memory>
        ensures { IfOk result (λ kept. kept ≡ record {
          key = self.now.key;
          list = list.now;
          etag = etag.now;
          started = self.now.started;
          moment = moment;
        }) }
    {
        Ok(NativeKept {
            key: self.key.copy()?,
            list: list.copy()?,
            etag: etag.copy()?,
            started: self.started,
            moment,
        })
    }

    /// What a completion by a list makes of it: the ETag, the object, and what is kept.
    pub(crate) fn completed(
        &self,
        alloc: Global,
        list: &List<Listed>,
        moment: u64,
    ) -> Result<(Bytes, NativeObject, NativeKept), Memory>
        ensures { IfOk result (λ made. made ≡ (
          upload_etag (map etag_listed list.now),
          joined_by self.now list.now moment,
          kept_by self.now list.now moment,
        )) }
    {
        let etag = upload_etag(alloc, list.as_slice())?;
        let kept = self.kept(list, &etag, moment)?;
        let object = self.joined(alloc, list.as_slice(), &etag, moment)?;
        Ok((etag, object, kept))
    }
}
