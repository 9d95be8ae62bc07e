//! The seconds for which a signature holds, in decimal.
ghost use Rattle.std.specs.Prelude.{◌≡◌};
ghost use Rattle.presign.specs.Claim.{is_expiry_span, span_of};

use text_forms::{digits_value, is_number};

/// The longest time that a signature holds for, in seconds: a week.
const LONGEST: u64 = 604_800;

/// The digits that write it, at most.
const DIGITS: usize = 6;

/// The seconds that a text writes in 1 to 6 digits, leading zeros among them; none unless they are 1 to 604800.
#[tactic(auto, unfolding(crate::specs::Claim::span_of))]
pub(crate) fn expiry_span_of(text: &[u8]) -> Option<u64>
    ensures { result ≡ span_of text.now }
{
    if !is_number(text, DIGITS) {
        return None;
    }
    let seconds = digits_value(text);
    if is_expiry_span(seconds) {
        Some(seconds)
    } else {
        None
    }
}

fn is_expiry_span(seconds: u64) -> bool
    ensures { result ≡ is_expiry_span seconds }
{
    1 <= seconds && seconds <= LONGEST
}
