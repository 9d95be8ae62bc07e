ghost use Rattle.std.specs.Prelude.{◌≡◌, ◌-◌, ◌≤◌, ◌++◌, length, map, replicate, bit_xor};
ghost use Rattle.sha2.specs.Sha256.{sha256};
ghost use Rattle.sigv4.specs.Hmac.{key_block, hmac};

use sha2::{Digest, Sha256};

/// The bytes of a block of SHA-256 (FIPS 180-4, section 1).
const BLOCK: usize = 64;

/// The keyed-hash message authentication code of a text, over SHA-256 (RFC 2104, section 2). It takes no memory.
#[tactic(auto, unfolding(crate::specs::Hmac::hmac))]
pub fn hmac(key: &[u8], text: &[u8]) -> [u8; 32]
    ensures { result ≡ hmac key.now text.now }
{
    let block = key_block(key);
    let inner = digest_of(&hmac_block_with_pad(&block, 0x36), text);
    digest_of(&hmac_block_with_pad(&block, 0x5c), &inner)
}

/// The digest of two texts, one behind the other.
fn digest_of(first: &[u8], second: &[u8]) -> [u8; 32]
    ensures { result ≡ sha256 (first.now ++ second.now) }
{
    let mut hasher = Sha256::new();
    hasher.update(first);
    hasher.update(second);
    hasher.finalize()
}

/// The key's block.
fn key_block(key: &[u8]) -> [u8; 64]
    ensures { result ≡ key_block key.now }
{
    if key.len() > BLOCK {
        hmac_key_with_zeros(&Sha256::digest(key))
    } else {
        hmac_key_with_zeros(key)
    }
}

/// The key with zeros behind it.
fn hmac_key_with_zeros(key: &[u8]) -> [u8; 64]
    requires { length key.now ≤ 64 }
    ensures { result ≡ key.now ++ replicate (64 - length key.now) 0 }
{
    let mut block = [0; BLOCK];
    block[..key.len()].copy_from_slice(key);
    block
}

/// The block, each byte with the pad.
fn hmac_block_with_pad(block: &[u8; 64], pad: u8) -> [u8; 64]
    ensures { result ≡ map (λ byte. bit_xor byte pad) block.now }
{
    let mut padded = *block;
    add_hmac_pad(&mut padded, pad);
    padded
}

fn add_hmac_pad(block: &mut [u8], pad: u8)
    ensures { block.new ≡ map (λ byte. bit_xor byte pad) block.old }
{
    for byte in block.iter_mut() {
        *byte ^= pad;
    }
}
