ghost use Rattle.std.specs.Prelude.{◌≡◌, ◌&&◌, ◌==◌, length, nat_le, count_by, Err, IfOk};
ghost use Rattle.std.specs.List.{list_all, slice_split};
ghost use Rattle.gate_base.specs.Ascii.{is_digit};
ghost use Rattle.s3_names.specs.Bucket.{is_lower_or_digit, is_bucket_byte, begins_and_ends, has_two_dots, is_short_number, is_address, is_dot, is_bucket, bucket_of};
ghost use Rattle.s3_names.specs.Answer.{Gives};

use crate::NameFault;
use gate_base::{Bytes, Copying, Memory, first_place};
use std::alloc::Global;
use std::marker::Model;
use text_forms::is_number;

/// A bucket name (Amazon S3 User Guide, "General purpose bucket naming rules"). Contracts see it as its bytes.
#[derive(Debug, Drop)]
pub struct BucketName {
    name: Bytes,
}

impl Model for BucketName {
    ghost use Rattle.std.specs.Prelude.{◌≡◌, List, ℕ, true};
    ghost use Rattle.gate_base.specs.Ascii.{is_digit};
    ghost use Rattle.s3_names.specs.Bucket.{is_bucket};

    ghost Value = { List ℕ };

    ghost view = { λ bucket. bucket.name };

    ghost invariant = { λ bucket. is_bucket bucket.name ≡ true };
}

impl BucketName {
    ghost use Rattle.std.specs.Prelude.{true};

    /// The bucket name that this text is. It takes no memory.
    pub fn of(name: Bytes) -> BucketName
        requires { is_bucket name ≡ true }
        ensures { result ≡ name }
    {
        BucketName { name }
    }

    /// The bucket name that these bytes are. `BadBucket` exactly where they are none; memory runs out only where
    /// they are one.
    pub fn read(alloc: Global, name: &[u8]) -> Result<BucketName, NameFault>
        ensures answer { Gives result (bucket_of name.now) }
        ensures refusal { (fault : NameFault) → bucket_of name.now ≡ Err fault
            → result ≡ Err fault }
    {
        if !is_bucket(name) {
            return Err(NameFault::BadBucket);
        }
        Ok(BucketName {
            name: Bytes::from_slice(alloc, name)?,
        })
    }

    /// The bytes of the name.
    pub fn bytes(&self) -> &[u8]
        ensures value { result.now ≡ self.now }
        ensures fit { is_bucket self.now ≡ true }
    {
        self.name.as_slice()
    }

    /// Says that the name is a bucket name, where no other call does. It does nothing.
    pub fn fits(&self)
        ensures { is_bucket self.now ≡ true }
    {
        let _ = &self.name;
    }

    /// A copy of the text of the name.
    pub fn copy_text(&self) -> Result<Bytes, Memory>
        ensures value { IfOk result (λ text. text ≡ self.now) }
        ensures fit { is_bucket self.now ≡ true }
    {
        self.name.copy()
    }

    /// The text of the name, which is given away. It takes no memory.
    pub fn into_text(self) -> Bytes
        ensures value { result ≡ self }
        ensures fit { is_bucket self ≡ true }
    {
        self.name
    }
}

impl Copying for BucketName {
    fn copy(&self) -> Result<BucketName, Memory> {
        Ok(BucketName {
            name: self.name.copy()?,
        })
    }
}

/// Whether these bytes are a bucket name, by the S3 naming rules for buckets: 3 to 63 lower-case letters, digits,
/// dots and hyphens that begin and end with a letter or digit, without two dots in a row, and not written like an
/// IPv4 address. It takes no memory.
#[tactic(auto, unfolding(crate::specs::Bucket::is_bucket))]
pub fn is_bucket(name: &[u8]) -> bool
    ensures { result ≡ is_bucket name.now }
{
    has_bucket_bytes(name)
        && has_bucket_ends(name)
        && !two_dots(name)
        && !is_bucket_like_address(name)
}

fn letter_or_digit(byte: u8) -> bool
    ensures { result ≡ is_lower_or_digit byte }
{
    byte.is_ascii_lowercase() || byte.is_ascii_digit()
}

fn bucket_byte(byte: u8) -> bool
    ensures { result ≡ is_bucket_byte byte }
{
    letter_or_digit(byte) || byte == b'.' || byte == b'-'
}

fn has_bucket_bytes(name: &[u8]) -> bool
    ensures { result ≡ (nat_le 3 (length name.now) && nat_le (length name.now) 63
        && list_all is_bucket_byte name.now) }
{
    3 <= name.len() && name.len() <= 63 && all_bucket_bytes(name)
}

fn all_bucket_bytes(name: &[u8]) -> bool
    ensures { result ≡ list_all is_bucket_byte name.now }
{
    name.iter().all(|byte| bucket_byte(*byte))
}

fn has_bucket_ends(name: &[u8]) -> bool
    ensures { result ≡ begins_and_ends name.now }
{
    match (name.first(), name.last()) {
        (Some(first), Some(last)) => letter_or_digit(*first) && letter_or_digit(*last),
        _ => false,
    }
}

#[tactic(auto, using(crate::proofs::lemmas::Dots::has_two_dots_short), unfolding(crate::specs::Bucket::has_two_dots))]
fn two_dots(name: &[u8]) -> bool
    ensures { result ≡ has_two_dots name.now }
{
    let mut rest = name;
    'pairs: while let [first, second, ..] = rest {
        if *first == b'.' && *second == b'.' {
            return true;
        }
        rest = &rest[1..];
    }
    false
}

fn is_number_between_dots(text: &[u8]) -> bool
    ensures { result ≡ is_short_number text.now }
{
    is_number(text, 3)
}

fn dot(byte: u8) -> bool
    ensures { result ≡ is_dot byte }
{
    byte == b'.'
}

fn count_dots(name: &[u8]) -> usize
    ensures { result ≡ count_by is_dot name.now }
{
    name.iter().filter(|byte| dot(**byte)).count()
}

// Whether each text between the dots is a short number.
#[tactic(auto, using(crate::proofs::lemmas::Dots::numbers_end, crate::proofs::lemmas::Dots::numbers_go_on, crate::proofs::lemmas::Dots::numbers_without_dot))]
fn are_numbers_between_dots(name: &[u8]) -> bool
    ensures { result ≡ list_all is_short_number (slice_split is_dot name.now) }
{
    let mut rest = name;
    'texts: while let Some(at) = first_place(rest, b'.') {
        if !is_number_between_dots(&rest[..at]) {
            return false;
        }
        rest = &rest[at + 1..];
    }
    is_number_between_dots(rest)
}

#[tactic(auto, using(crate::proofs::lemmas::Dots::is_address_by_dots))]
fn is_bucket_like_address(name: &[u8]) -> bool
    ensures { result ≡ is_address name.now }
{
    count_dots(name) == 3 && are_numbers_between_dots(name)
}
