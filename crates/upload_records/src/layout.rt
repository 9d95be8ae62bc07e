ghost use Rattle.std.specs.Prelude.{◌≡◌, ◌≤◌, ◌+◌, IfOk};
ghost use Rattle.s3_names.specs.Id.{id_digits};
ghost use Rattle.s3_machine.specs.Uploads.{greatest_part};
ghost use Rattle.upload_records.specs.Layout.{acl_of, five_digits, gateway_name, readers_of, sealed_name, segment_name, segments_name, segments_prefix, sub_manifest_name, uploads_name, writer_name};

use gate_base::{Bytes, Memory};
use s3_names::{Acl, id_digits};
use std::alloc::Global;
use swift_calls::ReadList;

/// The read list that a bucket's container has for a canned access control list (this profile).
pub fn container_readers_of_acl(acl: Acl) -> ReadList
    ensures { result ≡ readers_of acl }
{
    match acl {
        Acl::Private => ReadList::Nobody,
        Acl::PublicRead => ReadList::Everybody,
    }
}

/// The canned access control list that a read list represents (this profile).
pub fn acl_of_container_readers(readers: ReadList) -> Acl
    ensures { result ≡ acl_of readers }
{
    match readers {
        ReadList::Nobody => Acl::Private,
        ReadList::Everybody => Acl::PublicRead,
    }
}

/// The name of the container of a bucket's upload records (this profile).
#[tactic(auto, unfolding(crate::specs::Layout::uploads_name))]
pub fn uploads_container(alloc: Global, bucket: &[u8]) -> Result<Bytes, Memory>
    ensures { IfOk result (λ name. name ≡ uploads_name bucket.now) }
{
    let mut name = Bytes::from_slice(alloc, bucket)?;
    name.append(b"+uploads")?;
    Ok(name)
}

/// The name of the container of a bucket's segments (this profile).
#[tactic(auto, unfolding(crate::specs::Layout::segments_name))]
pub fn segments_container(alloc: Global, bucket: &[u8]) -> Result<Bytes, Memory>
    ensures { IfOk result (λ name. name ≡ segments_name bucket.now) }
{
    let mut name = Bytes::from_slice(alloc, bucket)?;
    name.append(b"+segments")?;
    Ok(name)
}

/// The name of the one container of the gateway's own (this profile).
#[tactic(auto, unfolding(crate::specs::Layout::gateway_name))]
pub fn gateway_container(alloc: Global) -> Result<Bytes, Memory>
    ensures { IfOk result (λ name. name ≡ gateway_name) }
{
    Bytes::from_slice(alloc, b"+gateway")
}

/// The name in it of a completion that is sealed (this profile).
#[tactic(auto, unfolding(crate::specs::Layout::sealed_name))]
pub fn sealed_name(alloc: Global) -> Result<Bytes, Memory>
    ensures { IfOk result (λ name. name ≡ sealed_name) }
{
    Bytes::from_slice(alloc, b"sealed")
}

/// The name in it of the word of the program that writes (this profile).
#[tactic(auto, unfolding(crate::specs::Layout::writer_name))]
pub fn writer_name(alloc: Global) -> Result<Bytes, Memory>
    ensures { IfOk result (λ name. name ≡ writer_name) }
{
    Bytes::from_slice(alloc, b"writer")
}

/// What the names of all segments of an upload begin with (this profile).
#[tactic(auto, unfolding(crate::specs::Layout::segments_prefix))]
pub fn segments_prefix(alloc: Global, id: u128) -> Result<Bytes, Memory>
    ensures { IfOk result (λ prefix. prefix ≡ segments_prefix (id_digits id)) }
{
    let mut prefix = Bytes::from_slice(alloc, &id_digits(id))?;
    prefix.push(b'/')?;
    Ok(prefix)
}

/// The name of the part of a number (this profile).
#[tactic(auto, unfolding(crate::specs::Layout::segment_name, crate::specs::Layout::segments_prefix, s3_machine::specs::Uploads::greatest_part))]
pub fn segment_name(alloc: Global, id: u128, number: u32) -> Result<Bytes, Memory>
    requires { number ≤ greatest_part }
    ensures { IfOk result (λ name. name ≡ segment_name (id_digits id) number) }
{
    let mut name = segments_prefix(alloc, id)?;
    name.append(&five_digits(number))?;
    Ok(name)
}

/// The name of the sub-manifest of a number (this profile).
#[tactic(auto, unfolding(crate::specs::Layout::sub_manifest_name, crate::specs::Layout::segments_prefix))]
pub fn sub_manifest_name(alloc: Global, id: u128, number: u32) -> Result<Bytes, Memory>
    requires { number ≤ 99999 }
    ensures { IfOk result (λ name. name ≡ sub_manifest_name (id_digits id) number) }
{
    let mut name = segments_prefix(alloc, id)?;
    name.push(b'm')?;
    name.append(&five_digits(number))?;
    Ok(name)
}

/// A number of at most five digits, in five.
fn five_digits(number: u32) -> [u8; 5]
    requires { number ≤ 99999 }
    ensures { result ≡ five_digits number }
{
    [
        segment_name_digit(number / 10000),
        segment_name_digit(number / 1000 % 10),
        segment_name_digit(number / 100 % 10),
        segment_name_digit(number / 10 % 10),
        segment_name_digit(number % 10),
    ]
}

fn segment_name_digit(value: u32) -> u8
    requires { value ≤ 9 }
    ensures { result ≡ 48 + value }
{
    b'0' + value as u8
}
