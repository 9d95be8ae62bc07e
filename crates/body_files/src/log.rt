//! Whether a write-ahead log (SQLite's file format 2, section 4) was cut by a frame that has other bytes than were written.

use crate::fault::{BodyFault, fault_of_call};
use std::alloc::Global;
use std::fs::File;
use std::io;
use std::os::unix::fs::FileExt;

/// The bytes of the log's header, and of a frame's.
const HEAD: u64 = 32;

const FRONT: u64 = 24;

/// A log of so many bytes has no frame: one that was emptied has its header, and a frame's first nine bytes.
const EMPTY: u64 = 41;

/// The header's fourth byte, where the words of sums have their high byte first.
const BIG: u8 = 0x83;

/// Two sums of 32 bits, each over the other.
type Sum = (u32, u32);

/// Where the log isn't sound: 0 is the header, and else the number of the frame, from 1.
type Fault = Option<u64>;

/// Damaged where the log isn't sound, read twice: one that is being written is at another place the second time.
pub(crate) fn test_log(rt: &HostRuntime, path: &str) -> Result<(), BodyFault> {
    let file = match File::open(rt, path) {
        Ok(file) => file,
        Err(error) => {
            return match error.kind() {
                io::ErrorKind::NotFound => Ok(()),
                _ => Err(fault_of_call(error)),
            };
        }
    };
    let first = fault_in_log(rt.alloc(), &file)?;
    if first.is_some() && fault_in_log(rt.alloc(), &file)? == first {
        return Err(BodyFault::Damaged);
    }
    Ok(())
}

fn fault_in_log(alloc: Global, file: &File) -> Result<Fault, BodyFault> {
    let len = match file.metadata() {
        Ok(told) => told.len(),
        Err(error) => return Err(fault_of_call(error)),
    };
    let mut head = [0; 32];
    if len <= EMPTY || !is_read(file, &mut head, 0)? {
        return Ok(None);
    }
    // The first byte is written last where the log is emptied: the tables have all that it had.
    if head[0] == 0 {
        return Ok(None);
    }
    let page = number_in(&head[8..12]);
    if !is_signed(&head) || page < 512 || page > 65_536 {
        return Ok(Some(0));
    }
    fault_in_frames(alloc, file, &head, u64::from(page), len)
}

/// The first frame that isn't good, where two commits or more end at it or behind it. One may be a transaction that a loss of power
/// cut off; before a second one began, the first was synced.
fn fault_in_frames(
    alloc: Global,
    file: &File,
    head: &[u8; 32],
    page: u64,
    len: u64,
) -> Result<Fault, BodyFault> {
    let mut bytes: Vec<u8> = Vec::new(alloc);
    bytes.resize(page as usize, 0)?;
    let mut front = [0; 24];
    let mut sum = sum_in(&head[24..32]);
    let mut fault = None;
    let mut marks = 0u64;
    let size = FRONT.saturating_add(page);
    for index in 0..len.saturating_sub(HEAD) / size {
        let at = HEAD.saturating_add(index.saturating_mul(size));
        if !is_read(file, &mut front, at)? {
            return Ok(None);
        }
        if !is_read(file, &mut bytes, at.saturating_add(FRONT))? {
            return Ok(None);
        }
        if fault.is_none() {
            if is_good(head, sum, &front, &bytes) {
                sum = sum_in(&front[16..24]);
            } else if front[8] == other_than(head[16]) {
                // Shut: a transaction whose last byte wasn't written, or that was given up.
                return Ok(None);
            } else {
                fault = Some(index.saturating_add(1));
            }
        }
        if fault.is_some() && is_mark(head, &front) {
            marks = marks.saturating_add(1);
        }
    }
    if marks < 2 {
        return Ok(None);
    }
    Ok(fault)
}

/// Fills a buffer from a place of the file; false where the file ends before.
fn is_read(file: &File, bytes: &mut [u8], at: u64) -> Result<bool, BodyFault> {
    match file.read_exact_at(bytes, at) {
        Ok(()) => Ok(true),
        Err(error) => match fault_of_call(error) {
            BodyFault::Damaged => Ok(false),
            fault => Err(fault),
        },
    }
}

/// The byte that stands in the place of a frame's first byte of salt until all others are written.
fn other_than(salt: u8) -> u8 {
    if salt == 0 { 1 } else { 0 }
}

fn is_signed(head: &[u8; 32]) -> bool {
    let is_log = head[0] == 0x37 && head[1] == 0x7f && head[2] == 0x06;
    let is_form = head[3] == 0x82 || head[3] == BIG;
    is_log && is_form && sum_of(head[3] == BIG, (0, 0), &head[..24]) == sum_in(&head[24..32])
}

fn is_good(head: &[u8; 32], before: Sum, front: &[u8; 24], page: &[u8]) -> bool {
    let big = head[3] == BIG;
    let sum = sum_of(big, sum_of(big, before, &front[..8]), page);
    has_salt(head, front) && number_in(&front[..4]) != 0 && sum == sum_in(&front[16..24])
}

/// Whether a frame is the last one of a commit of this log.
fn is_mark(head: &[u8; 32], front: &[u8; 24]) -> bool {
    has_salt(head, front) && number_in(&front[4..8]) != 0
}

fn has_salt(head: &[u8; 32], front: &[u8; 24]) -> bool {
    head[16..24] == front[8..16]
}

/// A number of four bytes, high byte first.
fn number_in(bytes: &[u8]) -> u32 {
    match bytes {
        [a, b, c, d] => u32::from_be_bytes([*a, *b, *c, *d]),
        _ => 0,
    }
}

fn sum_in(bytes: &[u8]) -> Sum {
    match bytes {
        [a, b, c, d, e, f, g, h] => (
            u32::from_be_bytes([*a, *b, *c, *d]),
            u32::from_be_bytes([*e, *f, *g, *h]),
        ),
        _ => (0, 0),
    }
}

/// The sums of bytes behind those before them, in words of four bytes.
fn sum_of(big: bool, before: Sum, bytes: &[u8]) -> Sum {
    let (mut first, mut second) = before;
    for words in bytes.chunks(8) {
        if let [a, b, c, d, e, f, g, h] = words {
            let one = word(big, [*a, *b, *c, *d]);
            first = first.wrapping_add(one).wrapping_add(second);
            let two = word(big, [*e, *f, *g, *h]);
            second = second.wrapping_add(two).wrapping_add(first);
        }
    }
    (first, second)
}

fn word(big: bool, bytes: [u8; 4]) -> u32 {
    if big {
        u32::from_be_bytes(bytes)
    } else {
        u32::from_le_bytes(bytes)
    }
}
