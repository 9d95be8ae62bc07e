//! The body of a CompleteMultipartUpload.
ghost use Rattle.std.specs.Prelude.{◌≡◌, map, IfOk};
ghost use Rattle.xml_forms.specs.Forms.{Skips};
ghost use Rattle.s3_bodies.specs.Completion.{AnswersCompletion, Part, listed_of};
ghost use Rattle.s3_bodies.specs.Listed.{TellsListed};
ghost use Rattle.s3_bodies.specs.PartReaders.{AnswersParts, part_of};

use crate::BodyFault;
use crate::part::completion_xml_part;
use crate::root_end::{request_xml_closing, request_xml_fault};
use gate_base::{Bytes, List, Memory};
use s3_machine::{Listed, MOST_PARTS};
use std::alloc::Global;
use xml_forms::opening;

/// The parts that the body of a CompleteMultipartUpload lists (Amazon S3 API Reference, CompleteMultipartUpload).
pub fn read_completion(alloc: Global, bytes: &[u8]) -> Result<List<Listed>, BodyFault>
    ensures answers { AnswersCompletion bytes.now result }
    ensures tells { TellsListed bytes.now result }
{
    listed_in_completion_xml(alloc, bytes)
}

fn listed_in_completion_xml(alloc: Global, bytes: &[u8]) -> Result<List<Listed>, BodyFault>
    ensures { AnswersCompletion bytes.now result }
{
    let parts = completion_xml_parts(alloc, bytes)?;
    if parts.len() > MOST_PARTS {
        return Err(BodyFault::TooMany);
    }
    Ok(owned_completion_xml_parts(alloc, parts.as_slice())?)
}

fn completion_xml_parts(alloc: Global, bytes: &[u8]) -> Result<List<(u32, &[u8])>, BodyFault>
    ensures { AnswersParts bytes.now result }
{
    let inner = match opening(bytes, b"<CompleteMultipartUpload") {
        Ok((_, inner)) => inner,
        Err(left) => return Err(request_xml_fault(bytes, left)),
    };
    let (parts, rest, left) = parts(alloc, inner)?;
    match request_xml_closing(rest, left, parts.is_empty(), b"</CompleteMultipartUpload>") {
        Ok(()) => Ok(parts),
        Err(left) => Err(request_xml_fault(bytes, left)),
    }
}

// All parts that can be read, the bytes behind them, and how many were left where no further one could be read.
fn parts(alloc: Global, bytes: &[u8]) -> Result<(List<(u32, &[u8])>, &[u8], usize), Memory>
    ensures { IfOk result
        (λ found. Skips Part bytes.now (map part_of found.0) found.1.now found.2) }
{
    let mut parts = List::new(alloc);
    let mut rest = bytes;
    'parts: loop {
        match completion_xml_part(rest) {
            Ok((part, after)) => {
                parts.push(part)?;
                rest = after;
            }
            Err(left) => return Ok((parts, rest, left)),
        }
    }
}

// The parts as a list that owns its ETags, which the body lends.
fn owned_completion_xml_parts(alloc: Global, parts: &[(u32, &[u8])]) -> Result<List<Listed>, Memory>
    ensures { IfOk result (λ list. list ≡ map (λ part. listed_of (part_of part)) parts.now) }
{
    let mut list = List::new(alloc);
    'parts: for part in parts {
        let etag = Bytes::from_slice(alloc, part.1)?;
        list.push(Listed {
            number: part.0,
            etag,
        })?;
    }
    Ok(list)
}
