//! The ids of uploads.
ghost use Rattle.std.specs.Prelude.{◌≡◌};
ghost use Rattle.s3_names.specs.Id.{id_digits, id_of};

/// An id in 32 hexadecimal digits, in lower case (this profile). It takes no memory.
#[tactic(auto, unfolding(crate::specs::Id::id_digits))]
pub fn id_digits(id: u128) -> [u8; 32]
    ensures { result ≡ id_digits id }
{
    let mut digits = [0; 32];
    if hex::encode_to_slice(id.to_be_bytes(), &mut digits).is_err() {
        unreachable!();
    }
    digits
}

/// The id that 32 hexadecimal digits write, in either case; none for every other text. It takes no memory.
#[tactic(auto, unfolding(crate::specs::Id::id_of))]
pub fn read_id_digits(text: &[u8]) -> Option<u128>
    ensures { result ≡ id_of text.now }
{
    let mut bytes = [0; 16];
    match hex::decode_to_slice(text, &mut bytes) {
        Ok(()) => Some(u128::from_be_bytes(bytes)),
        Err(_) => None,
    }
}
