//! The elements of a part, in the body of a CompleteMultipartUpload.
ghost use Rattle.xml_forms.specs.Forms.{Reads};
ghost use Rattle.xml_forms.specs.Readers.{ReadsRest, ReadsText, read_by};
ghost use Rattle.xml_forms.specs.Runs.{Spaced};
ghost use Rattle.s3_bodies.specs.Completion.{Checksum, ChecksumEnd, ChecksumName, ChecksumText, Etag, EtagText, Number, Quote, Quoted, QuotedEnd};

use text_forms::short_value;
use xml_forms::{
    Class, nearer, read_run_form, read_short_element_form, read_word_form, skip_space,
};

/// A PartNumber behind white space.
pub(crate) fn completion_xml_number(bytes: &[u8]) -> Result<(u32, &[u8]), usize>
    ensures { Reads (Spaced Number) bytes.now (read_by (λ n. n) result) }
{
    completion_xml_bare_number(skip_space(bytes))
}

fn completion_xml_bare_number(bytes: &[u8]) -> Result<(u32, &[u8]), usize>
    ensures { Reads Number bytes.now (read_by (λ n. n) result) }
{
    let (digits, rest) = read_short_element_form(
        bytes,
        b"<PartNumber>",
        Class::Digit,
        9,
        b"</PartNumber>",
    )?;
    Ok((short_value(digits), rest))
}

/// An ETag behind white space.
pub(crate) fn completion_xml_etag(bytes: &[u8]) -> Result<(&[u8], &[u8]), usize>
    ensures { ReadsText (Spaced Etag) bytes.now result }
{
    completion_xml_etag_element(skip_space(bytes))
}

fn completion_xml_etag_element(bytes: &[u8]) -> Result<(&[u8], &[u8]), usize>
    ensures { ReadsText Etag bytes.now result }
{
    let rest = read_word_form(bytes, b"<ETag>")?;
    let bare = read_short_element_form(rest, b"", Class::Dashed, 64, b"</ETag>");
    nearer(bare, completion_xml_quoted_etag(rest))
}

fn completion_xml_quoted_etag(bytes: &[u8]) -> Result<(&[u8], &[u8]), usize>
    ensures { ReadsText Quoted bytes.now result }
{
    let rest = completion_xml_quote(bytes)?;
    completion_xml_quoted_text(rest)
}

fn completion_xml_quoted_text(bytes: &[u8]) -> Result<(&[u8], &[u8]), usize>
    ensures { ReadsText (EtagText QuotedEnd) bytes.now result }
{
    let (text, rest) = read_run_form(bytes, Class::Dashed, 64);
    if text.is_empty() {
        return Err(rest.len());
    }
    let last = completion_xml_quote(rest)?;
    let after = read_word_form(last, b"</ETag>")?;
    Ok((text, after))
}

fn completion_xml_quote(bytes: &[u8]) -> Result<&[u8], usize>
    ensures { ReadsRest Quote bytes.now result }
{
    let escaped = nearer(
        read_word_form(bytes, b"&quot;"),
        read_word_form(bytes, b"&#34;"),
    );
    nearer(read_word_form(bytes, b"\""), escaped)
}

/// A checksum behind white space.
pub(crate) fn completion_xml_checksum(bytes: &[u8]) -> Result<&[u8], usize>
    ensures { ReadsRest (Spaced Checksum) bytes.now result }
{
    completion_xml_checksum_element(skip_space(bytes))
}

fn completion_xml_checksum_element(bytes: &[u8]) -> Result<&[u8], usize>
    ensures { ReadsRest Checksum bytes.now result }
{
    let rest = read_word_form(bytes, b"<Checksum")?;
    completion_xml_checksum_name(rest)
}

fn completion_xml_checksum_name(bytes: &[u8]) -> Result<&[u8], usize>
    ensures { ReadsRest ChecksumName bytes.now result }
{
    let (name, rest) = read_run_form(bytes, Class::LetterOrDigit, bytes.len());
    let rest = read_word_form(rest, b">")?;
    completion_xml_checksum_text(rest, name)
}

fn completion_xml_checksum_text<'a>(bytes: &'a [u8], name: &[u8]) -> Result<&'a [u8], usize>
    ensures { ReadsRest (ChecksumText name.now) bytes.now result }
{
    let (_, rest) = read_run_form(bytes, Class::Text, bytes.len());
    completion_xml_checksum_end(rest, name)
}

fn completion_xml_checksum_end<'a>(bytes: &'a [u8], name: &[u8]) -> Result<&'a [u8], usize>
    ensures { ReadsRest (ChecksumEnd name.now) bytes.now result }
{
    let rest = read_word_form(bytes, b"</Checksum")?;
    let rest = read_word_form(rest, name)?;
    read_word_form(rest, b">")
}
