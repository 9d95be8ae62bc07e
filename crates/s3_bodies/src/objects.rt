//! What stands in the body of a DeleteObjects.
ghost use Rattle.std.specs.Prelude.{◌≡◌, ◌∷◌, List, ℕ, codes};
ghost use Rattle.xml_forms.specs.Forms.{Exactly, Reads, Then, Word};
ghost use Rattle.xml_forms.specs.Readers.{ReadsRest, ReadsText, read_by};
ghost use Rattle.xml_forms.specs.Runs.{Spaced};
ghost use Rattle.s3_bodies.specs.Delete.{Key, Object, ObjectEnd, Quiet, QuietText};

use crate::key_text::delete_xml_key_text;
use xml_forms::{nearer, read_word_form, skip_space};

/// An object behind white space: the text of its key, as it stands there.
pub(crate) fn delete_xml_object(bytes: &[u8]) -> Result<(&[u8], &[u8]), usize>
    ensures { ReadsText Object bytes.now result }
{
    let rest = delete_xml_start(bytes, b"<Object>")?;
    delete_xml_object_inside(rest)
}

// The start of an element behind white space.
fn delete_xml_start<'a>(bytes: &'a [u8], tag: &[u8]) -> Result<&'a [u8], usize>
    requires { (t : List ℕ) × (tag.now ≡ 60 ∷ t) }
    ensures { ReadsRest (Spaced (Word tag.now)) bytes.now result }
{
    read_word_form(skip_space(bytes), tag)
}

fn delete_xml_object_inside(bytes: &[u8]) -> Result<(&[u8], &[u8]), usize>
    ensures { ReadsText (Then (Spaced Key) ObjectEnd) bytes.now result }
{
    let (text, rest) = delete_xml_spaced_key(bytes)?;
    let rest = delete_xml_start(rest, b"</Object>")?;
    Ok((text, rest))
}

fn delete_xml_spaced_key(bytes: &[u8]) -> Result<(&[u8], &[u8]), usize>
    ensures { ReadsText (Spaced Key) bytes.now result }
{
    delete_xml_key(skip_space(bytes))
}

fn delete_xml_key(bytes: &[u8]) -> Result<(&[u8], &[u8]), usize>
    ensures { ReadsText Key bytes.now result }
{
    let rest = read_word_form(bytes, b"<Key>")?;
    delete_xml_key_text(rest)
}

/// A Quiet behind white space.
pub(crate) fn delete_xml_quiet(bytes: &[u8]) -> Result<(bool, &[u8]), usize>
    ensures { Reads Quiet bytes.now (read_by (λ quiet. quiet) result) }
{
    let rest = delete_xml_start(bytes, b"<Quiet>")?;
    nearer(
        delete_xml_quiet_text(rest, b"true</Quiet>", true),
        delete_xml_quiet_text(rest, b"false</Quiet>", false),
    )
}

fn delete_xml_quiet_text<'a>(
    bytes: &'a [u8],
    text: &[u8],
    quiet: bool,
) -> Result<(bool, &'a [u8]), usize>
    ensures { Reads (Exactly quiet text.now) bytes.now (read_by (λ quiet. quiet) result) }
{
    let rest = read_word_form(bytes, text)?;
    Ok((quiet, rest))
}
