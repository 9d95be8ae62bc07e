//! The laws of the definitions: each is the contract of a function that does nothing.
ghost use Rattle.checksums.specs.Laws.{KindNamed, ChecksumSized, ValueTaken, BurstsTold};

/// A name is read as the kind whose header has it, and as no other.
pub fn law_kind_named()
    ensures { KindNamed }
{}

/// The checksum of a message has as many bytes as its kind has.
pub fn law_checksum_sized()
    ensures { ChecksumSized }
{}

/// A value is taken as that of a message exactly where it is the text of the message's checksum.
pub fn law_value_taken()
    ensures { ValueTaken }
{}

/// Two messages that differ only within four bytes in a row have different CRCs, and with CRC-64/NVME within eight: so no
/// bit that is flipped alone is missed.
pub fn law_bursts_told()
    ensures { BurstsTold }
{}
