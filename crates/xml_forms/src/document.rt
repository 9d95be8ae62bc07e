//! How a document begins.
ghost use Rattle.std.specs.Prelude.{◌≡◌, ◌<◌, ◌+◌, ◌↔◌, IsTrue, slice_index, length, ℕ, List, [], ◌∷◌, codes, ◌≢◌};
ghost use Rattle.xml_forms.specs.Forms.{Exactly};
ghost use Rattle.xml_forms.specs.Readers.{ReadsText};
ghost use Rattle.xml_forms.specs.Openings.{Declared, DeclarationText, Opening, RootEnd, RootTag};

use crate::{Class, nearer, read_element_form, read_word_form, skip_space};

/// How a document begins whose root has this name, which is given with its `<`: a declaration or none, and the root's tag.
/// The value is that of the root's attribute.
pub fn opening<'a>(bytes: &'a [u8], name: &[u8]) -> Result<(&'a [u8], &'a [u8]), usize>
    requires { (c : ℕ) × (t : List ℕ) × (name.now ≡ 60 ∷ c ∷ t) × (c ≢ 63) }
    ensures { ReadsText (Opening name.now) bytes.now result }
{
    nearer(
        opening_with_declaration(bytes, name),
        opening_root_tag(bytes, name),
    )
}

fn opening_with_declaration<'a>(bytes: &'a [u8], name: &[u8]) -> Result<(&'a [u8], &'a [u8]), usize>
    requires { (t : List ℕ) × (name.now ≡ 60 ∷ t) }
    ensures { ReadsText (Declared name.now) bytes.now result }
{
    let rest = read_word_form(bytes, b"<?xml")?;
    let (_, inner) = declared_text(rest)?;
    opening_root_tag(inner, name)
}

// The root's tag behind white space.
fn opening_root_tag<'a>(bytes: &'a [u8], name: &[u8]) -> Result<(&'a [u8], &'a [u8]), usize>
    requires { (t : List ℕ) × (name.now ≡ 60 ∷ t) }
    ensures { ReadsText (RootTag name.now) bytes.now result }
{
    let rest = read_word_form(skip_space(bytes), name)?;
    opening_root_end(rest)
}

fn opening_root_end(bytes: &[u8]) -> Result<(&[u8], &[u8]), usize>
    ensures { ReadsText RootEnd bytes.now result }
{
    let quoted = nearer(
        read_element_form(bytes, b" xmlns=\"", Class::InDouble, b"\">"),
        read_element_form(bytes, b" xmlns='", Class::InSingle, b"'>"),
    );
    nearer(plain_end(bytes), quoted)
}

fn plain_end(bytes: &[u8]) -> Result<(&[u8], &[u8]), usize>
    ensures { ReadsText (Exactly [] (codes ">")) bytes.now result }
{
    let rest = read_word_form(bytes, b">")?;
    Ok((b"", rest))
}

// The text up to the first `?>`, and the bytes behind it.
fn declared_text(bytes: &[u8]) -> Result<(&[u8], &[u8]), usize>
    ensures { ReadsText DeclarationText bytes.now result }
{
    'bytes: for i in 0..bytes.len() {
        if is_declaration_end(bytes, i) {
            let (text, rest) = bytes.split_at(i);
            let (_, last) = rest.split_at(2);
            return Ok((text, last));
        }
    }
    Err(0)
}

// Whether `?>` stands at this place.
fn is_declaration_end(bytes: &[u8], i: usize) -> bool
    requires { i < length bytes.now }
    ensures { IsTrue result ↔ (slice_index bytes.now i ≡ 63)
        × (slice_index bytes.now (i + 1) ≡ 62) }
{
    let (_, rest) = bytes.split_at(i);
    rest.len() >= 2 && rest[0] == b'?' && rest[1] == b'>'
}
