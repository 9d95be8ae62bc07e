ghost use Rattle.std.specs.Prelude.{◌≡◌};
ghost use Rattle.s3_names.specs.Text.{has_zero, is_text};

use text_forms::is_utf8;

fn has_zero(bytes: &[u8]) -> bool
    ensures { result ≡ has_zero bytes.now }
{
    bytes.contains(&0)
}

/// Whether the bytes are UTF-8 without byte 0.
pub fn is_text(bytes: &[u8]) -> bool
    ensures { result ≡ is_text bytes.now }
{
    is_utf8(bytes) && !has_zero(bytes)
}
