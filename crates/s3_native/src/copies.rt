//! The copies of objects in the machine's running form.
#![tactic(auto, using(crate::proofs::Steps::plain))]

ghost use Rattle.std.specs.Prelude.{◌≡◌, length, nat_lt, true, IfOk, IfSome, OnErr};
ghost use Rattle.s3_machine.specs.declared.operation.Op.TheVariants.{OnCopies};
ghost use Rattle.s3_machine.specs.declared.operation.CopiesOp.TheVariants.{CopyObject, CopyPart};
ghost use Rattle.s3_machine.specs.Copies.{copied, copied_span, has_last, may_be_copied};
ghost use Rattle.s3_machine.specs.Limits.{body_limit};
ghost use Rattle.s3_machine.specs.Proper.{IsProperCopyRange};
ghost use Rattle.s3_machine.specs.Reading.{taken};
ghost use Rattle.s3_machine.specs.Step.{S3Step, head_of};
ghost use Rattle.s3_native.specs.Made.{StepsTo, copied_to, part_copied_to};

use crate::native::{Native, NativeObject, put_object};
use gate_base::{Bytes, Copying, Memory};
use s3_machine::{
    Body, Code, Conditions, CopiedBytes, CopiesOp, CopyRange, Described, Label, ObjectCopy,
    PartCopy, Proper, Reply, Settings, copied_span, has_last, is_onto_itself, may_be_copied,
};
use s3_names::Meta;
use std::alloc::Global;

impl NativeObject {
    /// Its copy, with its content type and metadata or those in their place.
    fn copied(
        &self,
        replaced: &Option<Proper<Described>>,
        moment: u64,
    ) -> Result<NativeObject, Memory>
        ensures { IfOk result (λ made. made ≡ copied replaced.now moment self.now) }
    {
        match replaced {
            None => self.copied_with(&self.content_type, &self.meta, moment),
            Some(given) => {
                let given = given.get();
                self.copied_with(&given.content_type, &given.meta, moment)
            }
        }
    }

    fn copied_with(
        &self,
        content_type: &Bytes,
        meta: &Meta,
        moment: u64,
    ) -> Result<NativeObject, Memory>
        ensures { IfOk result (λ made. made ≡ record {
          bytes = self.now.bytes;
          etag = self.now.etag;
          content_type = content_type.now;
          meta = meta.now;
          modified = moment;
        }) }
    {
        Ok(NativeObject {
            bytes: self.bytes.copy()?,
            etag: self.etag.copy()?,
            content_type: content_type.copy()?,
            meta: meta.copy()?,
            modified: moment,
        })
    }

    /// Whether it may be copied under these conditions.
    fn may_be_copied(&self, conditions: &Conditions) -> Result<bool, Memory>
        ensures { IfOk result (λ may. may ≡ may_be_copied conditions.now (head_of self.now)) }
    {
        let head = self.head()?;
        Ok(may_be_copied(conditions, &head))
    }

    /// Whether it has the last byte of the range.
    fn has_last(&self, range: &Option<CopyRange>) -> bool
        ensures { result ≡ has_last range.now (length self.now.bytes) }
    {
        has_last(range, self.bytes.len() as u64)
    }

    /// Whether the range has more bytes than a part.
    fn is_too_large(&self, settings: &Settings, range: &Option<CopyRange>) -> bool
        requires { has_last range.now (length self.now.bytes) ≡ true }
        ensures { result ≡ nat_lt (body_limit settings.now)
            (copied_span range.now (length self.now.bytes)).length }
    {
        settings.body_limit() < copied_span(range, self.bytes.len() as u64).length
    }

    /// The body of a part that is copied of it.
    fn part_body(&self, alloc: Global, range: &Option<CopyRange>) -> Result<Body, Memory>
        requires { has_last range.now (length self.now.bytes) ≡ true }
        ensures { IfOk result
            (λ body. body ≡ taken (copied_span range.now (length self.now.bytes)) self.now.bytes) }
    {
        range_fits(range);
        let span = copied_span(range, self.bytes.len() as u64);
        Ok(Body::new(self.taken(alloc, span)?))
    }
}

/// Says that a range keeps its limits, if there is one. It does nothing.
fn range_fits(range: &Option<CopyRange>)
    ensures { IfSome range.now IsProperCopyRange }
{
    match range {
        Some(range) => {
            range.get();
        }
        None => {}
    }
}

impl Native {
    /// A step of a copy.
    pub(crate) fn step_copy(&mut self, op: &CopiesOp, label: &Label) -> Result<Reply, Memory>
        ensures settings { self.new.settings ≡ self.old.settings }
        ensures ok { IfOk result (λ reply. S3Step self.old.settings self.old.state (OnCopies op.now)
            label.now
            reply self.new.state) }
        ensures err { OnErr result (self.new.state ≡ self.old.state) }
    {
        match op {
            CopiesOp::CopyObject(copy) => self.copy_object(copy, label),
            CopiesOp::CopyPart(copy) => self.copy_part(copy, label),
        }
    }

    /// Where memory runs out, the state is as before.
    fn copy_object(&mut self, copy: &ObjectCopy, label: &Label) -> Result<Reply, Memory>
        ensures settings { self.new.settings ≡ self.old.settings }
        ensures ok { IfOk result (λ reply. S3Step self.old.settings self.old.state
            (OnCopies (CopyObject copy.now)) label.now reply self.new.state) }
        ensures err { OnErr result (self.new.state ≡ self.old.state) }
    {
        let copied = match self.copied_object(copy, label)? {
            Ok(copied) => copied,
            Err(code) => return Ok(Reply::Refused(code)),
        };
        let etag = copied.etag.copy()?;
        put_object(
            &mut self.buckets,
            copy.bucket.bytes(),
            copy.key.bytes(),
            copied,
        )?;
        Ok(Reply::Copied(CopiedBytes {
            part: false,
            etag,
            modified: label.moment,
        }))
    }

    /// The copy that is to be put, or the code by which none is. It changes nothing.
    fn copied_object(
        &self,
        copy: &ObjectCopy,
        label: &Label,
    ) -> Result<Result<NativeObject, Code>, Memory>
        ensures { IfOk result (λ made. StepsTo self.now.settings self.now.state
            (OnCopies (CopyObject copy.now)) label.now
            (copied_to self.now.state copy.now label.now.moment made)) }
    {
        let Some(found) = self.buckets.get(copy.bucket.bytes()) else {
            return Ok(Err(Code::NoSuchBucket));
        };
        if found.has_another_acl(copy.acl) {
            return Ok(Err(Code::NotImplemented));
        }
        let Some(source) = self.buckets.get(copy.from_bucket.bytes()) else {
            return Ok(Err(Code::NoSuchBucket));
        };
        let Some(object) = source.object(copy.from_key.bytes()) else {
            return Ok(Err(Code::NoSuchKey));
        };
        if !object.may_be_copied(&copy.conditions)? {
            return Ok(Err(Code::PreconditionFailed));
        }
        if is_onto_itself(
            &copy.bucket,
            &copy.key,
            &copy.from_bucket,
            &copy.from_key,
            &copy.replaced,
        ) {
            return Ok(Err(Code::InvalidRequest));
        }
        if let Some(code) = found.refuses(copy.key.bytes(), &copy.only_if) {
            return Ok(Err(code));
        }
        Ok(Ok(object.copied(&copy.replaced, label.moment)?))
    }

    /// Where memory runs out, the state is as before.
    fn copy_part(&mut self, copy: &PartCopy, label: &Label) -> Result<Reply, Memory>
        ensures settings { self.new.settings ≡ self.old.settings }
        ensures ok { IfOk result (λ reply. S3Step self.old.settings self.old.state
            (OnCopies (CopyPart copy.now)) label.now reply self.new.state) }
        ensures err { OnErr result (self.new.state ≡ self.old.state) }
    {
        let body = match self.copied_body(copy, label)? {
            Ok(body) => body,
            Err(code) => return Ok(Reply::Refused(code)),
        };
        let etag = self.put_body(&copy.bucket, &copy.id, copy.number, &body, label)?;
        Ok(Reply::Copied(CopiedBytes {
            part: true,
            etag,
            modified: label.moment,
        }))
    }

    /// The body of the part that is to be put, or the code by which none is. It changes nothing.
    fn copied_body(&self, copy: &PartCopy, label: &Label) -> Result<Result<Body, Code>, Memory>
        ensures { IfOk result (λ made. StepsTo self.now.settings self.now.state
            (OnCopies (CopyPart copy.now)) label.now
            (part_copied_to self.now.state copy.now label.now.moment made)) }
    {
        let Some(found) = self.buckets.get(copy.bucket.bytes()) else {
            return Ok(Err(Code::NoSuchBucket));
        };
        let Some(upload) = found.uploads.get(copy.id.as_slice()) else {
            return Ok(Err(Code::NoSuchUpload));
        };
        if !upload.is_of(copy.key.bytes()) {
            return Ok(Err(Code::NoSuchUpload));
        }
        let Some(source) = self.buckets.get(copy.from_bucket.bytes()) else {
            return Ok(Err(Code::NoSuchBucket));
        };
        let Some(object) = source.object(copy.from_key.bytes()) else {
            return Ok(Err(Code::NoSuchKey));
        };
        if !object.may_be_copied(&copy.conditions)? {
            return Ok(Err(Code::PreconditionFailed));
        }
        if !object.has_last(&copy.range) {
            return Ok(Err(Code::InvalidRange(None)));
        }
        if object.is_too_large(&self.settings, &copy.range) {
            return Ok(Err(Code::EntityTooLarge));
        }
        Ok(Ok(object.part_body(self.alloc, &copy.range)?))
    }
}
