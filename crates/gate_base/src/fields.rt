//! Texts that are kept as the value of a header.
ghost use Rattle.std.specs.Prelude.{◌≡◌};
ghost use Rattle.std.specs.List.{list_all};
ghost use Rattle.gate_base.specs.Fields.{is_field, is_printable};

/// Whether these are 1 to so many bytes of visible ASCII and spaces, without a space at either end. It takes no memory.
pub fn is_field(text: &[u8], most: usize) -> bool
    ensures { result ≡ is_field most text.now }
{
    let size = text.len();
    if size < 1 || most < size {
        return false;
    }
    are_printable(text) && text[0] != b' ' && text[size - 1] != b' '
}

/// Whether these bytes are visible ASCII and spaces, or there are none. It takes no memory.
pub fn are_printable(text: &[u8]) -> bool
    ensures { result ≡ list_all is_printable text.now }
{
    text.iter().all(|byte| is_printable(*byte))
}

fn is_printable(byte: u8) -> bool
    ensures { result ≡ is_printable byte }
{
    b' ' <= byte && byte <= b'~'
}
