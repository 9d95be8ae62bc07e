//! Texts without the blanks at their ends.
ghost use Rattle.std.specs.Prelude.{◌≡◌, ◌≤◌, length};
ghost use Rattle.std.specs.List.{prefix_len, suffix_len};
ghost use Rattle.gate_base.specs.Ascii.{is_blank};
ghost use Rattle.text_forms.specs.Blanks.{behind_blanks, before_blanks, without_blanks};

/// The text without the spaces and tabs at its ends (RFC 9110, section 5.6.3, optional whitespace).
pub fn without_blanks(text: &[u8]) -> &[u8]
    ensures { result.now ≡ without_blanks text.now }
{
    before_blanks(behind_blanks(text))
}

fn behind_blanks(text: &[u8]) -> &[u8]
    ensures { result.now ≡ behind_blanks text.now }
{
    &text[first_blanks(text)..]
}

fn before_blanks(text: &[u8]) -> &[u8]
    ensures { result.now ≡ before_blanks text.now }
{
    &text[..text.len() - last_blanks(text)]
}

fn first_blanks(text: &[u8]) -> usize
    ensures is { result ≡ prefix_len is_blank text.now }
    ensures within { result ≤ length text.now }
{
    text.iter().take_while(|byte| is_blank(**byte)).count()
}

fn last_blanks(text: &[u8]) -> usize
    ensures is { result ≡ suffix_len is_blank text.now }
    ensures within { result ≤ length text.now }
{
    text.iter()
        .rev()
        .take_while(|byte| is_blank(**byte))
        .count()
}

fn is_blank(byte: u8) -> bool
    ensures { result ≡ is_blank byte }
{
    byte == b' ' || byte == b'\t'
}
