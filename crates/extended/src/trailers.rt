//! The trailers that a message announces, and those that came.
ghost use Rattle.std.specs.Prelude.{◌≡◌, ◌||◌, IfOk};
ghost use Rattle.extended.specs.Trailers.{has_come, has_missing, has_unnamed, is_comma, is_missing, is_named, misnames, names, trailer_list};

use gate_base::{Memory, Pair};
use http_wire::text_of;
use std::alloc::Global;
use text_forms::without_blanks;

/// Whether the trailers that came aren't those which `x-amz-trailer` names: one that isn't named, or a name of none.
pub(crate) fn misnames_trailers(
    alloc: Global,
    headers: &[Pair],
    trailers: &[Pair],
) -> Result<bool, Memory>
    ensures { IfOk result (λ misnamed. misnamed ≡ misnames (trailer_list headers.now) trailers.now) }
{
    let text = text_of(alloc, headers, b"x-amz-trailer")?;
    Ok(
        has_missing_trailer(text.as_slice(), trailers)
            || has_unnamed_trailer(text.as_slice(), trailers),
    )
}

fn has_missing_trailer(text: &[u8], trailers: &[Pair]) -> bool
    ensures { result ≡ has_missing text.now trailers.now }
{
    text.split(|byte| is_trailer_comma(*byte))
        .any(|piece| is_missing_trailer(piece, trailers))
}

fn is_missing_trailer(piece: &[u8], trailers: &[Pair]) -> bool
    ensures { result ≡ is_missing trailers.now piece.now }
{
    !names_trailer(piece, b"") && !has_trailer_come(piece, trailers)
}

fn has_trailer_come(piece: &[u8], trailers: &[Pair]) -> bool
    ensures { result ≡ has_come trailers.now piece.now }
{
    trailers
        .iter()
        .any(|trailer| names_trailer(piece, trailer.name.as_slice()))
}

fn has_unnamed_trailer(text: &[u8], trailers: &[Pair]) -> bool
    ensures { result ≡ has_unnamed text.now trailers.now }
{
    trailers
        .iter()
        .any(|trailer| !is_trailer_named(text, trailer))
}

fn is_trailer_named(text: &[u8], trailer: &Pair) -> bool
    ensures { result ≡ is_named text.now trailer.now }
{
    text.split(|byte| is_trailer_comma(*byte))
        .any(|piece| names_trailer(piece, trailer.name.as_slice()))
}

fn is_trailer_comma(byte: u8) -> bool
    ensures { result ≡ is_comma byte }
{
    byte == b','
}

/// Whether a piece between commas names this name, in any case.
#[tactic(auto, unfolding(crate::specs::Trailers::names))]
fn names_trailer(piece: &[u8], name: &[u8]) -> bool
    ensures { result ≡ names piece.now name.now }
{
    without_blanks(piece).eq_ignore_ascii_case(name)
}
