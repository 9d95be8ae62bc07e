ghost use Rattle.std.specs.Prelude.{◌≡◌, true, IfOk};

use crate::MarkFault;
use crate::forms::{is_content_type, is_etag};
use crate::number::{append_tag_id, id_fits_tag, number_of};
use gate_base::{Bytes, Copying, MOMENT_LIMIT, Memory, cut, cut_last};
use s3_names::read_id_digits;
use std::alloc::Global;
use text_forms::append_decimal;

/// What the content type of a stored object tells of the object: its own content type, its ETag in hexadecimal, the
/// moment in seconds since 1970 at which it was put, and the id of the upload that it is of, where it is of one.
#[derive(Debug, Drop)]
pub struct Tag {
    pub content_type: Bytes,
    pub etag: Bytes,
    pub moment: u64,
    pub id: Option<u128>,
}

impl Copying for Tag {
    fn copy(&self) -> Result<Tag, Memory> {
        Ok(Tag {
            content_type: self.content_type.copy()?,
            etag: self.etag.copy()?,
            moment: self.moment,
            id: self.id,
        })
    }
}

/// The end of a tag, `;s3=ETAG.SECONDS.ID`: all that a tag tells but the content type of the object.
#[derive(Debug, Drop)]
pub struct Stamp {
    pub etag: Bytes,
    pub moment: u64,
    pub id: Option<u128>,
}

impl Copying for Stamp {
    fn copy(&self) -> Result<Stamp, Memory> {
        Ok(Stamp {
            etag: self.etag.copy()?,
            moment: self.moment,
            id: self.id,
        })
    }
}

impl Stamp {
    ghost use Rattle.swift_marks.specs.Tag.{is_stamp, read_stamp, stamp_of, stamp_text, tag_parts, ReadsStamp};

    /// Reads the stamp that a text ends in, whatever stands before it. NoTag exactly where it ends in none.
    ///
    /// A store may spell the content type anew in a listing of objects, so that what stands before the stamp is no content
    /// type any more (`;` is listed as nothing); the stamp stays as it was put.
    #[tactic(auto, unfolding(crate::specs::Tag::read_stamp))]
    pub fn read(alloc: Global, text: &[u8]) -> Result<Stamp, MarkFault>
        ensures { ReadsStamp (read_stamp text.now) result }
    {
        let stamp = Stamp::parts(alloc, text)?;
        if !stamp.is_stamp() {
            return Err(MarkFault::NoTag);
        }
        let end = stamp.write(alloc)?;
        if !text.ends_with(end.as_slice()) {
            return Err(MarkFault::NoTag);
        }
        Ok(stamp)
    }

    /// What stands in the places of a stamp, be it one or not.
    #[tactic(auto, unfolding(crate::specs::Tag::tag_parts))]
    fn parts(alloc: Global, text: &[u8]) -> Result<Stamp, Memory>
        ensures { IfOk result (λ stamp. stamp ≡ stamp_of (tag_parts text.now)) }
    {
        let (_, mark) = cut_last(text, b'=');
        let (etag, numbers) = cut(mark, b'.');
        let (moment, id) = cut(numbers, b'.');
        Ok(Stamp {
            etag: Bytes::from_slice(alloc, etag)?,
            moment: number_of(moment),
            id: read_id_digits(id),
        })
    }

    /// The stamp has a text.
    #[tactic(auto, unfolding(crate::specs::Tag::is_stamp))]
    fn is_stamp(&self) -> bool
        ensures { result ≡ is_stamp self.now }
    {
        is_etag(self.etag.as_slice()) && self.moment < MOMENT_LIMIT && id_fits_tag(self.id)
    }

    /// The text of the stamp.
    #[tactic(auto, unfolding(crate::specs::Tag::stamp_text))]
    fn write(&self, alloc: Global) -> Result<Bytes, Memory>
        requires { is_stamp self.now ≡ true }
        ensures { IfOk result (λ text. text ≡ stamp_text self.now) }
    {
        let mut text = Bytes::from_slice(alloc, b";s3=")?;
        text.append(self.etag.as_slice())?;
        text.append(b".")?;
        append_decimal(&mut text, self.moment)?;
        text.append(b".")?;
        append_tag_id(&mut text, self.id)?;
        Ok(text)
    }
}

impl Tag {
    ghost use Rattle.swift_marks.specs.Tag.{has_text, tag_text, tag_parts, read_tag, ReadsTag};

    /// Reads a tag `TYPE;s3=ETAG.SECONDS.ID`, which begins at the last `;s3=`. NoTag exactly where the text is no
    /// tag's.
    #[tactic(auto, unfolding(crate::specs::Tag::read_tag))]
    pub fn read(alloc: Global, text: &[u8]) -> Result<Tag, MarkFault>
        ensures { ReadsTag (read_tag text.now) result }
    {
        let tag = Tag::parts(alloc, text)?;
        if !tag.has_text() {
            return Err(MarkFault::NoTag);
        }
        if tag.write(alloc)?.as_slice() != text {
            return Err(MarkFault::NoTag);
        }
        Ok(tag)
    }

    /// What stands in the places of a tag, be it one or not.
    #[tactic(auto, unfolding(crate::specs::Tag::tag_parts))]
    fn parts(alloc: Global, text: &[u8]) -> Result<Tag, Memory>
        ensures { IfOk result (λ tag. tag ≡ tag_parts text.now) }
    {
        let (front, mark) = cut_last(text, b'=');
        let (content_type, _) = cut_last(front, b';');
        let (etag, numbers) = cut(mark, b'.');
        let (moment, id) = cut(numbers, b'.');
        Ok(Tag {
            content_type: Bytes::from_slice(alloc, content_type)?,
            etag: Bytes::from_slice(alloc, etag)?,
            moment: number_of(moment),
            id: read_id_digits(id),
        })
    }

    /// The text of the tag. It asks for one that has a text, as `has_text` tells.
    #[tactic(auto, unfolding(crate::specs::Tag::tag_text))]
    pub fn write(&self, alloc: Global) -> Result<Bytes, Memory>
        requires { has_text self.now ≡ true }
        ensures { IfOk result (λ text. text ≡ tag_text self.now) }
    {
        let mut text = Bytes::from_slice(alloc, self.content_type.as_slice())?;
        text.append(b";s3=")?;
        text.append(self.etag.as_slice())?;
        text.append(b".")?;
        append_decimal(&mut text, self.moment)?;
        text.append(b".")?;
        append_tag_id(&mut text, self.id)?;
        Ok(text)
    }

    /// The tag has a text: its content type has 1 to 256 bytes of visible ASCII and spaces without a space at either
    /// end; its ETag is 32 hexadecimal digits in lower case, alone or with `-` and a number from 1 to 10000 behind
    /// them; and its moment is before the year 10000.
    #[tactic(auto, unfolding(crate::specs::Tag::has_text))]
    pub fn has_text(&self) -> bool
        ensures { result ≡ has_text self.now }
    {
        is_content_type(self.content_type.as_slice())
            && is_etag(self.etag.as_slice())
            && self.moment < MOMENT_LIMIT
            && id_fits_tag(self.id)
    }
}
