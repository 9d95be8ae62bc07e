//! `Deletes`, what the body of a DeleteObjects asks for: the keys to delete, and whether its reply is quiet.
ghost use Rattle.std.specs.Prelude.{IfOk};
ghost use Rattle.s3_bodies.specs.Delete.{AnswersDelete};
ghost use Rattle.s3_bodies.specs.DeleteReaders.{AddsObjects, AnswersTexts, SkipsInside, texts_of};
ghost use Rattle.s3_bodies.specs.Deletes.{TellsDeletes};

use crate::BodyFault;
use crate::key::keys;
use crate::objects::{delete_xml_object, delete_xml_quiet};
use crate::root_end::{request_xml_closing, request_xml_fault};
use gate_base::{Copying, List, Memory};
use s3_machine::MOST_KEYS;
use s3_names::Key;
use std::alloc::Global;
use xml_forms::opening;

/// What the body of a DeleteObjects asks for.
#[derive(Debug, Drop)]
pub struct Deletes {
    /// The keys, in the body's order.
    pub keys: List<Key>,
    /// Whether the reply says nothing of what was deleted.
    pub quiet: bool,
}

impl Copying for Deletes {
    fn copy(&self) -> Result<Deletes, Memory> {
        Ok(Deletes {
            keys: self.keys.copy()?,
            quiet: self.quiet,
        })
    }
}

/// The keys that the body of a DeleteObjects lists, 1 to 1000 (Amazon S3 API Reference, DeleteObjects). Where the text of a key
/// names none, for its bytes are no key or a reference stands for no character, the whole body counts as what can be
/// continued.
pub fn read_delete(alloc: Global, bytes: &[u8]) -> Result<Deletes, BodyFault>
    ensures answers { AnswersDelete bytes.now result }
    ensures tells { TellsDeletes bytes.now result }
{
    deletes_in_delete_xml(alloc, bytes)
}

fn deletes_in_delete_xml(alloc: Global, bytes: &[u8]) -> Result<Deletes, BodyFault>
    ensures { AnswersDelete bytes.now result }
{
    let (texts, quiet) = key_texts_in_delete_xml(alloc, bytes)?;
    if texts.len() > MOST_KEYS {
        return Err(BodyFault::TooMany);
    }
    match keys(alloc, texts.as_slice())? {
        Some(keys) => Ok(Deletes { keys, quiet }),
        None => Err(BodyFault::NotTheBody(bytes.len() as u64)),
    }
}

// The texts of the keys as they stand in the body, and whether it is quiet.
fn key_texts_in_delete_xml(alloc: Global, bytes: &[u8]) -> Result<(List<&[u8]>, bool), BodyFault>
    ensures { AnswersTexts bytes.now result }
{
    let inner = match opening(bytes, b"<Delete") {
        Ok((_, inner)) => inner,
        Err(left) => return Err(request_xml_fault(bytes, left)),
    };
    let (texts, quiet, rest, left) = inside_delete_xml(alloc, inner)?;
    match request_xml_closing(rest, left, texts.is_empty(), b"</Delete>") {
        Ok(()) => Ok((texts, quiet)),
        Err(left) => Err(request_xml_fault(bytes, left)),
    }
}

// What stands in the root, the bytes behind it, and how many were left where nothing more could be read.
fn inside_delete_xml(
    alloc: Global,
    bytes: &[u8],
) -> Result<(List<&[u8]>, bool, &[u8], usize), Memory>
    ensures { IfOk result
        (λ found. SkipsInside bytes.now (texts_of found.0, found.1) found.2.now found.3) }
{
    let (before, rest, left) = add_delete_xml_objects(List::new(alloc), bytes)?;
    match delete_xml_quiet(rest) {
        Ok((quiet, after)) => {
            let (all, rest, left) = add_delete_xml_objects(before, after)?;
            Ok((all, quiet, rest, left))
        }
        Err(other) => Ok((before, false, rest, left.min(other))),
    }
}

// Adds the texts of all objects that can be read to those that are there; with the bytes behind the objects, and how many were left
// where no further one could be read.
fn add_delete_xml_objects<'a>(
    have: List<&'a [u8]>,
    bytes: &'a [u8],
) -> Result<(List<&'a [u8]>, &'a [u8], usize), Memory>
    ensures { IfOk result (λ found. AddsObjects have.entry bytes.now found.0 found.1.now found.2) }
{
    let mut texts = have;
    let mut rest = bytes;
    'objects: loop {
        match delete_xml_object(rest) {
            Ok((text, after)) => {
                texts.push(text)?;
                rest = after;
            }
            Err(left) => return Ok((texts, rest, left)),
        }
    }
}
