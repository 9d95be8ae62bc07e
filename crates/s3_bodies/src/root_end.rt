//! The end of a root that has at least one child.
ghost use Rattle.std.specs.Prelude.{◌≡◌, ◌≤◌, ◌-◌, List, ℕ, ◌∷◌, length};
ghost use Rattle.xml_forms.specs.Forms.{Word};
ghost use Rattle.xml_forms.specs.Readers.{ReadsRest, rest_read};
ghost use Rattle.xml_forms.specs.Runs.{Spaced};
ghost use Rattle.s3_bodies.specs.RootEnd.{ClosesRoot, EndsRoot};
ghost use Rattle.s3_bodies.specs.declared.fault.BodyFault.{BodyFault};

use crate::BodyFault;
use xml_forms::{nearer, only_space, read_word_form, skip_space};

/// The root's end, and nothing but white space behind it. A child more would stop where so many bytes are left. The root may
/// not end where no child is there.
pub(crate) fn request_xml_closing(
    bytes: &[u8],
    left: usize,
    none: bool,
    end: &[u8],
) -> Result<(), usize>
    requires { (t : List ℕ) × (end.now ≡ 60 ∷ t) }
    ensures { ClosesRoot end.now none bytes.now left result }
{
    let rest = request_xml_children_end(bytes, left, none, end)?;
    only_space(rest)
}

fn request_xml_children_end<'a>(
    bytes: &'a [u8],
    left: usize,
    none: bool,
    end: &[u8],
) -> Result<&'a [u8], usize>
    requires { (t : List ℕ) × (end.now ≡ 60 ∷ t) }
    ensures { EndsRoot end.now none bytes.now left (rest_read result) }
{
    if none {
        return Err(left);
    }
    nearer(Err(left), request_xml_root_end(bytes, end))
}

fn request_xml_root_end<'a>(bytes: &'a [u8], end: &[u8]) -> Result<&'a [u8], usize>
    requires { (t : List ℕ) × (end.now ≡ 60 ∷ t) }
    ensures { ReadsRest (Spaced (Word end.now)) bytes.now result }
{
    read_word_form(skip_space(bytes), end)
}

/// The fault of a body of which so many bytes were left.
pub(crate) fn request_xml_fault(bytes: &[u8], left: usize) -> BodyFault
    requires { left ≤ length bytes.now }
    ensures { result ≡ BodyFault.NotTheBody (length bytes.now - left) }
{
    BodyFault::NotTheBody((bytes.len() - left) as u64)
}
