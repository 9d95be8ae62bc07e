ghost use Rattle.std.specs.Prelude.{◌≡◌};
ghost use Rattle.checksums.specs.Kinds.{checksum_header, checksum_kind, checksum_size};

/// A checksum that a client may send of an object.
#[derive(Clone, Copy, Debug, PartialEq, Eq)]
pub enum Kind {
    Sha256,
    Sha1,
    Crc32,
    Crc32c,
    Crc64Nvme,
}

/// The name of the header, or of the trailer, that has a checksum of this kind, in lower case.
pub fn checksum_header(kind: Kind) -> &'static [u8]
    ensures { result.now ≡ checksum_header kind }
{
    match kind {
        Kind::Sha256 => b"x-amz-checksum-sha256",
        Kind::Sha1 => b"x-amz-checksum-sha1",
        Kind::Crc32 => b"x-amz-checksum-crc32",
        Kind::Crc32c => b"x-amz-checksum-crc32c",
        Kind::Crc64Nvme => b"x-amz-checksum-crc64nvme",
    }
}

/// The kind of checksum that a header or a trailer of this name has, which is in lower case; none for any other name.
pub fn checksum_kind(name: &[u8]) -> Option<Kind>
    ensures { result ≡ checksum_kind name.now }
{
    const KINDS: [Kind; 5] = [
        Kind::Sha256,
        Kind::Sha1,
        Kind::Crc32,
        Kind::Crc32c,
        Kind::Crc64Nvme,
    ];
    KINDS
        .iter()
        .copied()
        .find(|kind| name == checksum_header(*kind))
}

/// The bytes of a checksum: 32, 20, 4, 4 or 8.
pub(crate) fn checksum_size(kind: Kind) -> usize
    ensures { result ≡ checksum_size kind }
{
    match kind {
        Kind::Sha256 => 32,
        Kind::Sha1 => 20,
        Kind::Crc32 | Kind::Crc32c => 4,
        Kind::Crc64Nvme => 8,
    }
}
