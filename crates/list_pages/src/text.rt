//! Where a key's text ends, and where a listing goes on behind it.
ghost use Rattle.std.specs.Prelude.{◌≡◌, ◌≤◌, true, IfOk, IfSome, OnOk, length, take, Option};
ghost use Rattle.std.specs.Option.{option_map};
ghost use Rattle.s3_machine.specs.Items.{begins, rolled, row_of};
ghost use Rattle.list_pages.specs.Jumps.{next_marker, past_all};
ghost use Rattle.list_pages.specs.Rolls.{under_of};
ghost use Rattle.s3_machine.specs.declared.items.ItemHead.{ItemHead};

use gate_base::{Bytes, Memory};
use s3_machine::begins;
use s3_names::MOST_KEY_BYTES;
use std::alloc::Global;

/// Where the first occurrence of a delimiter in a text ends.
fn roll_delimiter_end(delimiter: &[u8], text: &[u8]) -> Option<usize>
    ensures text { option_map (λ n. take n text.now) result ≡ rolled delimiter.now text.now }
    ensures within { IfSome result (λ n. n ≤ length text.now) }
{
    for (i, _byte) in text.iter().enumerate() {
        let (_, rest) = text.split_at(i);
        if begins(delimiter, rest) {
            return Some(i + delimiter.len());
        }
    }
    None
}

/// How many bytes of a key with the prefix are its text, and whether it rolled up.
pub(crate) fn roll_text_end(prefix: &[u8], delimiter: &[u8], key: &[u8]) -> (usize, bool)
    requires { begins prefix.now key.now ≡ true }
    ensures within { result.0 ≤ length key.now }
    ensures row { (h : ItemHead)
        → row_of prefix.now delimiter.now
        (key.now, h) ≡ (take result.0 key.now, under_of result.1 h) }
{
    if delimiter.is_empty() {
        return (key.len(), false);
    }
    let (_, rest) = key.split_at(prefix.len());
    match roll_delimiter_end(delimiter, rest) {
        None => (key.len(), false),
        Some(n) => (prefix.len() + n, true),
    }
}

/// The text after which the next page of names begins, behind a name. Where the name rolls up, no key that begins with its
/// common prefix comes after that text; else it is the name.
pub(crate) fn roll_next_marker(
    alloc: Global,
    prefix: &[u8],
    delimiter: &[u8],
    name: &[u8],
) -> Result<Bytes, Memory>
    ensures { IfOk result (λ marker. marker ≡ next_marker prefix.now delimiter.now name.now) }
{
    if !begins(prefix, name) {
        return Bytes::from_slice(alloc, name);
    }
    let (end, up) = roll_text_end(prefix, delimiter, name);
    let mut marker = Bytes::from_slice(alloc, &name[..end])?;
    if up {
        append_greatest(&mut marker)?;
    }
    Ok(marker)
}

/// Makes a text longer than any key, by the greatest character as often as it takes.
fn append_greatest(text: &mut Bytes) -> Result<(), Memory>
    ensures { OnOk result (text.new ≡ past_all text.old) }
{
    'characters: while text.len() <= MOST_KEY_BYTES {
        text.append(&[0xF4, 0x8F, 0xBF, 0xBF])?;
    }
    Ok(())
}
