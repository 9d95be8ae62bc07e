//! The body of a CreateBucket.
ghost use Rattle.std.specs.Prelude.{[]};
ghost use Rattle.xml_forms.specs.Forms.{Exactly};
ghost use Rattle.xml_forms.specs.Readers.{ReadsText};
ghost use Rattle.s3_bodies.specs.Location.{AnswersDocument, AnswersLocation, Constraint, LocationInside, location_end};
ghost use Rattle.s3_bodies.specs.LocationTest.{TellsLocation};

use crate::BodyFault;
use gate_base::Bytes;
use std::alloc::Global;
use xml_forms::{
    Class, nearer, only_space, opening, read_element_form, read_word_form, skip_space,
};

/// The region that the body of a CreateBucket names (Amazon S3 API Reference, CreateBucket): empty where it names none,
/// or where the body is empty.
pub fn read_location(alloc: Global, bytes: &[u8]) -> Result<Bytes, BodyFault>
    ensures answers { AnswersLocation bytes.now result }
    ensures tells { TellsLocation bytes.now result }
{
    region_in_location_xml(alloc, bytes)
}

fn region_in_location_xml(alloc: Global, bytes: &[u8]) -> Result<Bytes, BodyFault>
    ensures { AnswersLocation bytes.now result }
{
    if bytes.is_empty() {
        return Ok(Bytes::new(alloc));
    }
    match location_xml_text(bytes) {
        Ok(text) => Ok(Bytes::from_slice(alloc, text)?),
        Err(left) => Err(BodyFault::NotTheBody((bytes.len() - left) as u64)),
    }
}

// The text of a document, or how many bytes were left where it stopped.
fn location_xml_text(bytes: &[u8]) -> Result<&[u8], usize>
    ensures { AnswersDocument bytes.now result }
{
    let (_, inner) = opening(bytes, b"<CreateBucketConfiguration")?;
    let (text, rest) = inside_location_xml(inner)?;
    only_space(rest)?;
    Ok(text)
}

fn inside_location_xml(bytes: &[u8]) -> Result<(&[u8], &[u8]), usize>
    ensures { ReadsText LocationInside bytes.now result }
{
    let rest = skip_space(bytes);
    nearer(
        location_xml_without_constraint(rest),
        location_xml_constraint(rest),
    )
}

fn location_xml_without_constraint(bytes: &[u8]) -> Result<(&[u8], &[u8]), usize>
    ensures { ReadsText (Exactly [] location_end) bytes.now result }
{
    let rest = read_word_form(bytes, b"</CreateBucketConfiguration>")?;
    Ok((b"", rest))
}

fn location_xml_constraint(bytes: &[u8]) -> Result<(&[u8], &[u8]), usize>
    ensures { ReadsText Constraint bytes.now result }
{
    let (text, rest) = read_element_form(
        bytes,
        b"<LocationConstraint>",
        Class::Dashed,
        b"</LocationConstraint>",
    )?;
    let rest = read_word_form(skip_space(rest), b"</CreateBucketConfiguration>")?;
    Ok((text, rest))
}
