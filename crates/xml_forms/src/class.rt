//! Classes of bytes.
ghost use Rattle.std.specs.Prelude.{◌≡◌};
ghost use Rattle.xml_forms.specs.Runs.{has};

#[derive(Clone, Copy, Debug, Drop)]
pub enum Class {
    /// A space, a tab, a carriage return or a line feed.
    Space,
    /// `0` to `9`.
    Digit,
    /// `0` to `9`, `A` to `F`, `a` to `f`.
    HexDigit,
    /// A letter or a digit.
    LetterOrDigit,
    /// A letter, a digit or `-`.
    Dashed,
    /// Any byte but `<`.
    Text,
    /// What stands for itself in a text: any byte but `<` and `&`.
    InText,
    /// What may stand in an attribute's value between double quotes: any byte but `"`, `<` and `&`.
    InDouble,
    /// What may stand in an attribute's value between single quotes: any byte but `'`, `<` and `&`.
    InSingle,
}

impl Class {
    pub fn has(self, byte: u8) -> bool
        ensures { result ≡ has self byte }
    {
        match self {
            Class::Space => byte == b' ' || byte == b'\t' || byte == b'\r' || byte == b'\n',
            Class::Digit => byte.is_ascii_digit(),
            Class::HexDigit => byte.is_ascii_hexdigit(),
            Class::LetterOrDigit => byte.is_ascii_alphanumeric(),
            Class::Dashed => byte.is_ascii_alphanumeric() || byte == b'-',
            Class::Text => byte != b'<',
            Class::InText => byte != b'<' && byte != b'&',
            Class::InDouble => byte != b'"' && byte != b'<' && byte != b'&',
            Class::InSingle => byte != b'\'' && byte != b'<' && byte != b'&',
        }
    }
}
