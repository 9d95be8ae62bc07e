//! Lists of more entries than a list of segments may have, which are refused before they are held.
ghost use Rattle.std.specs.Prelude.{◌≡◌, IsTrue, IfOk, None};
ghost use Rattle.json.specs.Json.{after_end_array, skip_value};
ghost use Rattle.slo_manifest.specs.declared.manifest.Form.TheVariants.{Put};
ghost use Rattle.swift_replies.specs.Answers.{segments_in};
ghost use Rattle.swift_requests.specs.Counted.{HasMore, IsLong, PassesEntry};

use gate_base::Memory;
use json::{Reader, Scratch, Token};
use slo_manifest::MOST_SEGMENTS;
use std::alloc::Global;
use text_forms::{is_utf8, text_of};

/// How many levels of lists and objects an entry may have: one less than a text.
const MOST_LEVELS: usize = 126;

/// Whether a text begins with more entries than a list of segments may have. They are counted as they are passed over, and none is
/// held. That they are no segments, or that behind them the text is no JSON, isn't looked for: it is no list of segments either way.
#[tactic(auto, using(crate::proofs::CountLemmas::long_list))]
pub(crate) fn is_long_list(alloc: Global, text: &[u8]) -> Result<bool, Memory>
    ensures { IfOk result (λ long. IsTrue long → segments_in Put text.now ≡ None) }
{
    if !is_utf8(text) {
        return Ok(false);
    }
    let mut scratch = Scratch::new(alloc);
    let mut reader = Reader::new(text_of(text), &mut scratch)?;
    Ok(begins_long_list(&mut reader))
}

#[tactic(auto, using(crate::proofs::CountLemmas::begins_long))]
fn begins_long_list(reader: &mut Reader<'_>) -> bool
    ensures { IsTrue result → IsLong reader.old }
{
    match reader.next() {
        Some(Token::BeginArray) => has_more_entries(reader),
        _ => false,
    }
}

/// Behind the bracket that opens a list.
#[tactic(auto, using(crate::proofs::CountLemmas::passed_none, crate::proofs::CountLemmas::passed_all))]
fn has_more_entries(reader: &mut Reader<'_>) -> bool
    ensures { IsTrue result → HasMore reader.old }
{
    for _ in 0..=MOST_SEGMENTS {
        if !pass_entry(reader) {
            return false;
        }
    }
    true
}

fn pass_entry(reader: &mut Reader<'_>) -> bool
    ensures { IsTrue result → PassesEntry reader.old reader.new }
{
    !reader.take_end_array() && reader.skip_value(MOST_LEVELS).is_ok()
}
