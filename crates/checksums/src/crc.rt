//! The CRCs of a message, by a table of eight rows that takes eight bytes at once.
ghost use Rattle.std.specs.Prelude.{◌≡◌, ℕ, ◌+◌, ◌*◌, ◌<◌, ◌≤◌, ◌^◌, length, drop, bit_xor};
ghost use Rattle.checksums.specs.Crc.{message_bits, crc_bits, crc, crc32, crc32c, crc64_nvme};
ghost use Rattle.checksums.specs.Rows.{behind_zeros, behind_zero_bytes, IsFilledTo, AreRows};

/// The polynomial of each CRC, reflected.
const CRC32: u64 = 0xedb8_8320;

const CRC32C: u64 = 0x82f6_3b78;

const CRC64_NVME: u64 = 0x9a6c_9329_ac4b_c9b5;

/// Eight rows of an crc_entry for each byte.
const ENTRIES: usize = 2048;

pub(crate) fn crc32(message: &[u8]) -> u32
    ensures { result ≡ crc32 message.now }
{
    crc(CRC32, 0xffff_ffff, message) as u32
}

pub(crate) fn crc32c(message: &[u8]) -> u32
    ensures { result ≡ crc32c message.now }
{
    crc(CRC32C, 0xffff_ffff, message) as u32
}

pub(crate) fn crc64_nvme(message: &[u8]) -> u64
    ensures { result ≡ crc64_nvme message.now }
{
    crc(CRC64_NVME, u64::MAX, message)
}

/// The CRC by a polynomial, over a register that begins as these ones. The table is made anew, in the time that some 3,000
/// bytes of a message take.
fn crc(polynomial: u64, ones: u64, message: &[u8]) -> u64
    ensures value { result ≡ crc polynomial ones message.now }
    ensures within { (width : ℕ) → polynomial < 2 ^ width → ones < 2 ^ width → result < 2 ^ width }
{
    let mut table = [0; ENTRIES];
    fill_crc_rows(polynomial, &mut table);
    crc_register(&table, ones, message) ^ ones
}

fn fill_crc_rows(polynomial: u64, table: &mut [u64])
    requires { length table.old ≡ ENTRIES }
    ensures { AreRows polynomial table.new }
{
    fill_first_crc_row(polynomial, table);
    for place in 256..ENTRIES {
        let before = table[place - 256];
        table[place] = table[(before % 256) as usize] ^ (before / 256);
    }
}

fn fill_first_crc_row(polynomial: u64, table: &mut [u64])
    requires { length table.old ≡ ENTRIES }
    ensures { IsFilledTo polynomial 256 table.new }
{
    for place in 0..256 {
        table[place] = crc_zero_byte(polynomial, place as u64);
    }
}

fn crc_zero_byte(polynomial: u64, register: u64) -> u64
    ensures { result ≡ behind_zero_bytes polynomial 1 register }
{
    let mut shifted = register;
    for _ in 0..8_u8 {
        shifted = crc_zero_bit(polynomial, shifted);
    }
    shifted
}

#[tactic(auto, unfolding(crate::specs::Rows::behind_zeros))]
fn crc_zero_bit(polynomial: u64, register: u64) -> u64
    ensures { result ≡ behind_zeros polynomial 1 register }
{
    if register % 2 == 0 {
        register / 2
    } else {
        (register / 2) ^ polynomial
    }
}

/// The register behind a message, eight bytes at a time while there are so many.
fn crc_register(table: &[u64], register: u64, message: &[u8]) -> u64
    requires { length table.now ≡ ENTRIES }
    ensures { (polynomial : ℕ) → AreRows polynomial table.now
        → result ≡ crc_bits polynomial register (message_bits message.now) }
{
    let words = message.len() / 8;
    let mut shifted = register;
    for index in 0..words {
        shifted = crc_word(table, shifted, message, 8 * index);
    }
    crc_bytes(table, shifted, &message[8 * words..])
}

/// The register behind the eight bytes that begin at a place.
fn crc_word(table: &[u64], register: u64, message: &[u8], place: usize) -> u64
    requires room { length table.now ≡ ENTRIES }
    requires within { place + 8 ≤ length message.now }
    ensures { (polynomial : ℕ) → AreRows polynomial table.now
        → crc_bits polynomial result (message_bits (drop (place + 8) message.now))
        ≡ crc_bits polynomial register (message_bits (drop place message.now)) }
{
    let word = u64::from_le_bytes([
        message[place],
        message[place + 1],
        message[place + 2],
        message[place + 3],
        message[place + 4],
        message[place + 5],
        message[place + 6],
        message[place + 7],
    ]);
    crc_zero_word(table, register ^ word)
}

/// The register behind eight bytes that are zero: the sum of what is left of each byte of its own.
fn crc_zero_word(table: &[u64], register: u64) -> u64
    requires { length table.now ≡ ENTRIES }
    ensures { (polynomial : ℕ) → AreRows polynomial table.now
        → result ≡ behind_zero_bytes polynomial 8 register }
{
    let [a, b, c, d, e, f, g, h] = register.to_le_bytes();
    crc_entry(table, 7, a)
        ^ crc_entry(table, 6, b)
        ^ crc_entry(table, 5, c)
        ^ crc_entry(table, 4, d)
        ^ crc_entry(table, 3, e)
        ^ crc_entry(table, 2, f)
        ^ crc_entry(table, 1, g)
        ^ crc_entry(table, 0, h)
}

fn crc_entry(table: &[u64], row: usize, byte: u8) -> u64
    requires room { length table.now ≡ ENTRIES }
    requires within { row < 8 }
    ensures { (polynomial : ℕ) → AreRows polynomial table.now
        → result ≡ behind_zero_bytes polynomial (row + 1) byte }
{
    table[256 * row + byte as usize]
}

fn crc_bytes(table: &[u64], register: u64, message: &[u8]) -> u64
    requires { length table.now ≡ ENTRIES }
    ensures { (polynomial : ℕ) → AreRows polynomial table.now
        → result ≡ crc_bits polynomial register (message_bits message.now) }
{
    let mut shifted = register;
    for byte in message {
        shifted = crc_byte(table, shifted, *byte);
    }
    shifted
}

fn crc_byte(table: &[u64], register: u64, byte: u8) -> u64
    requires { length table.now ≡ ENTRIES }
    ensures { (polynomial : ℕ) → AreRows polynomial table.now
        → result ≡ behind_zero_bytes polynomial 1 (bit_xor register byte) }
{
    let mixed = register ^ byte as u64;
    table[(mixed % 256) as usize] ^ (mixed / 256)
}
