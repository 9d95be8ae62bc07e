//! Headers that a reply shows in place of the object's own.
ghost use Rattle.std.specs.Prelude.{◌≡◌, ◌<◌, length, position, IfSome, OnOk};
ghost use Rattle.s3_pages.specs.Pages.{has_same_name, overlaid, with_shown};

use gate_base::{Copying, List, Memory, Pair};

/// Whether two headers have the same name, in any case.
fn has_same_name(shown: &Pair, header: &Pair) -> bool
    ensures { result ≡ has_same_name shown.now header.now }
{
    header
        .name
        .as_slice()
        .eq_ignore_ascii_case(shown.name.as_slice())
}

/// The place of the first header of that name.
fn place_named(shown: &Pair, headers: &[Pair]) -> Option<usize>
    ensures place { result ≡ position (has_same_name shown.now) headers.now }
    ensures within { IfSome result (λ at. at < length headers.now) }
{
    headers
        .iter()
        .position(|header| has_same_name(shown, header))
}

/// Shows a header: its value in place of that of the header of its name, and without one the header at the end.
fn show_header(headers: &mut List<Pair>, shown: &Pair) -> Result<(), Memory>
    ensures { OnOk result (headers.new ≡ with_shown shown.now headers.old) }
{
    let value = shown.value.copy()?;
    match place_named(shown, headers.as_slice()) {
        Some(place) => {
            headers.at_mut(place).value = value;
            Ok(())
        }
        None => headers.push(Pair {
            name: shown.name.copy()?,
            value,
        }),
    }
}

/// Shows these headers one after another.
pub(crate) fn show_headers(headers: &mut List<Pair>, shown: &[Pair]) -> Result<(), Memory>
    ensures { OnOk result (headers.new ≡ overlaid shown.now headers.old) }
{
    for pair in shown {
        show_header(headers, pair)?;
    }
    Ok(())
}
