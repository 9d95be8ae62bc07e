//! A part, in the body of a CompleteMultipartUpload.
ghost use Rattle.std.specs.Prelude.{codes};
ghost use Rattle.xml_forms.specs.Forms.{Word};
ghost use Rattle.xml_forms.specs.Readers.{ReadsRest};
ghost use Rattle.xml_forms.specs.Runs.{Spaced};
ghost use Rattle.s3_bodies.specs.Completion.{Checksums, EtagFirst, EtagThen, NumberFirst, NumberThen, Part, PartEnd, PartInside, PartLast};
ghost use Rattle.s3_bodies.specs.PartReaders.{ReadsPart, SkipsChecksums};

use crate::elements::{completion_xml_checksum, completion_xml_etag, completion_xml_number};
use xml_forms::{nearer, read_word_form, skip_space};

/// A part behind white space: its number and its ETag.
pub(crate) fn completion_xml_part(bytes: &[u8]) -> Result<((u32, &[u8]), &[u8]), usize>
    ensures { ReadsPart Part bytes.now result }
{
    let rest = completion_xml_part_start(bytes)?;
    completion_xml_part_inside(rest)
}

fn completion_xml_part_start(bytes: &[u8]) -> Result<&[u8], usize>
    ensures { ReadsRest (Spaced (Word (codes "<Part>"))) bytes.now result }
{
    read_word_form(skip_space(bytes), b"<Part>")
}

fn completion_xml_part_inside(bytes: &[u8]) -> Result<((u32, &[u8]), &[u8]), usize>
    ensures { ReadsPart PartInside bytes.now result }
{
    let (rest, left) = checksums(bytes);
    let either = nearer(
        completion_xml_number_first(rest),
        completion_xml_etag_first(rest),
    );
    nearer(Err(left), either)
}

fn completion_xml_number_first(bytes: &[u8]) -> Result<((u32, &[u8]), &[u8]), usize>
    ensures { ReadsPart NumberFirst bytes.now result }
{
    let (number, rest) = completion_xml_number(bytes)?;
    completion_xml_etag_last(rest, number)
}

fn completion_xml_etag_first(bytes: &[u8]) -> Result<((u32, &[u8]), &[u8]), usize>
    ensures { ReadsPart EtagFirst bytes.now result }
{
    let (etag, rest) = completion_xml_etag(bytes)?;
    completion_xml_number_last(rest, etag)
}

fn completion_xml_etag_last(bytes: &[u8], number: u32) -> Result<((u32, &[u8]), &[u8]), usize>
    ensures { ReadsPart (Checksums (EtagThen number)) bytes.now result }
{
    let (rest, left) = checksums(bytes);
    nearer(Err(left), completion_xml_etag_then(rest, number))
}

fn completion_xml_number_last<'a>(
    bytes: &'a [u8],
    etag: &'a [u8],
) -> Result<((u32, &'a [u8]), &'a [u8]), usize>
    ensures { ReadsPart (Checksums (NumberThen etag.now)) bytes.now result }
{
    let (rest, left) = checksums(bytes);
    nearer(Err(left), completion_xml_number_then(rest, etag))
}

fn completion_xml_etag_then(bytes: &[u8], number: u32) -> Result<((u32, &[u8]), &[u8]), usize>
    ensures { ReadsPart (EtagThen number) bytes.now result }
{
    let (etag, rest) = completion_xml_etag(bytes)?;
    completion_xml_part_last(rest, number, etag)
}

fn completion_xml_number_then<'a>(
    bytes: &'a [u8],
    etag: &'a [u8],
) -> Result<((u32, &'a [u8]), &'a [u8]), usize>
    ensures { ReadsPart (NumberThen etag.now) bytes.now result }
{
    let (number, rest) = completion_xml_number(bytes)?;
    completion_xml_part_last(rest, number, etag)
}

fn completion_xml_part_last<'a>(
    bytes: &'a [u8],
    number: u32,
    etag: &'a [u8],
) -> Result<((u32, &'a [u8]), &'a [u8]), usize>
    ensures { ReadsPart (PartLast (number, etag.now)) bytes.now result }
{
    let (rest, left) = checksums(bytes);
    nearer(Err(left), completion_xml_part_end(rest, number, etag))
}

fn completion_xml_part_end<'a>(
    bytes: &'a [u8],
    number: u32,
    etag: &'a [u8],
) -> Result<((u32, &'a [u8]), &'a [u8]), usize>
    ensures { ReadsPart (PartEnd (number, etag.now)) bytes.now result }
{
    let rest = read_word_form(skip_space(bytes), b"</Part>")?;
    Ok(((number, etag), rest))
}

// The bytes behind all checksums, and how many were left where no further one could be read.
fn checksums(bytes: &[u8]) -> (&[u8], usize)
    ensures { SkipsChecksums bytes.now result.0.now result.1 }
{
    let mut rest = bytes;
    'checksums: loop {
        match completion_xml_checksum(rest) {
            Ok(after) => rest = after,
            Err(left) => return (rest, left),
        }
    }
}
