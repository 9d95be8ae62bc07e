//! Where a text is cut at a byte.
ghost use Rattle.std.specs.Prelude.{◌≡◌, ◌==◌, ◌-◌, ◌≤◌, not, length, position};
ghost use Rattle.std.specs.List.{before_first, after_first, before_last, after_last, suffix_len};

/// The place of the first such byte.
pub fn first_place(text: &[u8], byte: u8) -> Option<usize>
    ensures { result ≡ position (λ item. item == byte) text.now }
{
    text.iter().position(|item| *item == byte)
}

/// The text before the first separator and the text behind it: all of it and none where there is no separator.
pub fn cut(text: &[u8], separator: u8) -> (&[u8], &[u8])
    ensures before { result.0.now ≡ before_first (λ byte. byte == separator) text.now }
    ensures behind { result.1.now ≡ after_first (λ byte. byte == separator) text.now }
{
    match first_place(text, separator) {
        Some(at) => (&text[..at], &text[at + 1..]),
        None => (text, &text[text.len()..]),
    }
}

/// The text before the last separator and the text behind it: none and all of it where there is no separator.
pub fn cut_last(text: &[u8], separator: u8) -> (&[u8], &[u8])
    ensures before { result.0.now ≡ before_last (λ byte. byte == separator) text.now }
    ensures behind { result.1.now ≡ after_last (λ byte. byte == separator) text.now }
{
    let at = behind_last(text, separator);
    (&text[..at.saturating_sub(1)], &text[at..])
}

// The place behind the last such byte, or the first.
fn behind_last(text: &[u8], separator: u8) -> usize
    ensures place { result ≡ length text.now - suffix_len (λ byte. not (byte == separator))
        text.now }
    ensures within { result ≤ length text.now }
{
    let mut at = text.len();
    'back: while at > 0 && text[at - 1] != separator {
        at -= 1;
    }
    at
}
