//! Texts without the quotes at their ends.
ghost use Rattle.std.specs.Prelude.{◌≡◌};
ghost use Rattle.text_forms.specs.Quotes.{is_quoted, without_quotes};

/// The text between the double quotes at its ends, and the text itself where it hasn't both (RFC 9110, section 8.8.3, entity tags).
pub fn without_quotes(text: &[u8]) -> &[u8]
    ensures { result.now ≡ without_quotes text.now }
{
    if is_quoted(text) {
        &text[1..text.len() - 1]
    } else {
        text
    }
}

fn is_quoted(text: &[u8]) -> bool
    ensures { result ≡ is_quoted text.now }
{
    2 <= text.len() && (text[0] == b'"' && text[text.len() - 1] == b'"')
}
