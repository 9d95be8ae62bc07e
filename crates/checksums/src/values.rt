ghost use Rattle.std.specs.Prelude.{◌≡◌, ◌↔◌, IfOk, Ok};
ghost use Rattle.checksums.specs.Kinds.{checksum_size, checksum_of, checksum_text, IsChecksumText, compared_bytes, compared};

use crate::crc::{crc32, crc32c, crc64_nvme};
use crate::kinds::{Kind, checksum_size};
use base64::DecodeAllocError;
use base64::engine::general_purpose::STANDARD;
use gate_base::{Bytes, Memory};
use sha1::Sha1;
use sha2::{Digest, Sha256};
use std::alloc::Global;

/// What the value of a checksum's header or trailer says of a message.
#[derive(Clone, Copy, Debug, PartialEq, Eq)]
pub enum Comparison {
    /// It is the message's checksum.
    Same,
    /// It is another checksum of this kind: S3's BadDigest.
    Different,
    /// It is the text of no checksum of this kind: S3's InvalidRequest.
    NotAChecksum,
}

/// The bytes of the message's checksum: the digest, or those of the CRC, the highest first.
#[tactic(auto, unfolding(crate::specs::Kinds::checksum_of))]
pub fn checksum(alloc: Global, kind: Kind, message: &[u8]) -> Result<Bytes, Memory>
    ensures { IfOk result (λ bytes. bytes ≡ checksum_of kind message.now) }
{
    match kind {
        Kind::Sha256 => Bytes::from_slice(alloc, &Sha256::digest(message)),
        Kind::Sha1 => Bytes::from_slice(alloc, &Sha1::digest(message)),
        Kind::Crc32 => Bytes::from_slice(alloc, &crc32(message).to_be_bytes()),
        Kind::Crc32c => Bytes::from_slice(alloc, &crc32c(message).to_be_bytes()),
        Kind::Crc64Nvme => Bytes::from_slice(alloc, &crc64_nvme(message).to_be_bytes()),
    }
}

/// The value of the header that has the message's checksum: its bytes in base64, with padding.
pub fn checksum_text(alloc: Global, kind: Kind, message: &[u8]) -> Result<Bytes, Memory>
    ensures { IfOk result (λ text. text ≡ checksum_text kind message.now) }
{
    let bytes = checksum(alloc, kind, message)?;
    let text = STANDARD.encode(alloc, bytes.as_slice())?;
    Bytes::from_slice(alloc, text.as_bytes())
}

/// Whether the value of a checksum's header or trailer, without spaces around it, is the message's checksum. The value of a
/// checksum is strict base64 with padding (RFC 4648, section 4) of just as many bytes as the kind has.
pub fn compare_checksum(
    alloc: Global,
    kind: Kind,
    value: &[u8],
    message: &[u8],
) -> Result<Comparison, Memory>
    ensures value { IfOk result (λ comparison. comparison ≡ compared kind value.now message.now) }
    ensures read { IfOk result (λ comparison. (comparison ≡ Comparison.NotAChecksum) ↔ ¬ IsChecksumText kind value.now) }
{
    match STANDARD.decode(alloc, value) {
        Ok(bytes) => compare_checksum_bytes(alloc, kind, bytes.as_slice(), message),
        Err(DecodeAllocError::DecodeError(_)) => Ok(Comparison::NotAChecksum),
        Err(DecodeAllocError::OutOfMemory) => Err(Memory),
    }
}

fn compare_checksum_bytes(
    alloc: Global,
    kind: Kind,
    bytes: &[u8],
    message: &[u8],
) -> Result<Comparison, Memory>
    ensures { IfOk result (λ comparison. comparison ≡
        compared_bytes (checksum_size kind) (checksum_of kind message.now) (Ok bytes.now)) }
{
    if bytes.len() != checksum_size(kind) {
        return Ok(Comparison::NotAChecksum);
    }
    let due = checksum(alloc, kind, message)?;
    if bytes == due.as_slice() {
        Ok(Comparison::Same)
    } else {
        Ok(Comparison::Different)
    }
}
