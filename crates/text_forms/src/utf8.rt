//! Bytes as UTF-8: the test, and what passes it as text.
ghost use Rattle.std.specs.Prelude.{◌≡◌, true};
ghost use Rattle.std.specs.Str.{is_utf8};

use std::str;

/// Whether the bytes are UTF-8 (RFC 3629).
#[tactic(auto, using(crate::proofs::Texts::is_utf8_where, crate::proofs::Texts::is_utf8_unless))]
pub fn is_utf8(bytes: &[u8]) -> bool
    ensures { result ≡ is_utf8 bytes.now }
{
    match str::from_utf8(bytes) {
        Ok(_) => true,
        Err(_) => false,
    }
}

/// Bytes that are UTF-8, as text.
#[tactic(auto, using(crate::proofs::Texts::utf8_after_all))]
pub fn text_of(bytes: &[u8]) -> &str
    requires { is_utf8 bytes.now ≡ true }
    ensures { result.now ≡ bytes.now }
{
    match str::from_utf8(bytes) {
        Ok(text) => text,
        Err(_) => unreachable!(),
    }
}
