ghost use Rattle.std.specs.Prelude.{◌≡◌, ◌≤◌, length, slice_get, IfOk, OnOk};
ghost use Rattle.gate_base.specs.Named.{count_below, one_has_name};
ghost use Rattle.sign_cmd.specs.Names.{itself, is_signed, AreSigned, AddsName};

use gate_base::{Bytes, List, Memory, Pair};
use std::alloc::Global;

/// The names that are signed: those of all headers but `authorization`, each once, in ascending byte order.
pub(crate) fn names_to_sign(alloc: Global, headers: &[Pair]) -> Result<List<Bytes>, Memory>
    ensures { IfOk result (λ names. AreSigned headers.now names) }
{
    let mut names = List::new(alloc);
    for header in headers {
        if is_signed(header.name.as_slice()) {
            add_name_to_sign(alloc, &mut names, header.name.as_slice())?;
        }
    }
    Ok(names)
}

fn is_signed(name: &[u8]) -> bool
    ensures { result ≡ is_signed name.now }
{
    name != b"authorization".as_slice()
}

/// Puts a name in its place among ascending names. One that is there stays.
fn add_name_to_sign(alloc: Global, names: &mut List<Bytes>, name: &[u8]) -> Result<(), Memory>
    ensures { OnOk result (AddsName name.now names.old names.new) }
{
    let index = count_names_to_sign_below(name, names.as_slice());
    if has_name_to_sign_at(names.as_slice(), index, name) {
        Ok(())
    } else {
        names.insert(index, Bytes::from_slice(alloc, name)?)
    }
}

/// How many of the first names are less than this one.
fn count_names_to_sign_below(name: &[u8], names: &[Bytes]) -> usize
    ensures count { result ≡ count_below itself name.now names.now }
    ensures within { result ≤ length names.now }
{
    names
        .iter()
        .take_while(|other| name.cmp(other.as_slice()).is_gt())
        .count()
}

/// Whether the name stands at the index.
fn has_name_to_sign_at(names: &[Bytes], index: usize, name: &[u8]) -> bool
    ensures { result ≡ one_has_name itself name.now (slice_get names.now index) }
{
    match names.get(index) {
        Some(other) => name.cmp(other.as_slice()).is_eq(),
        None => false,
    }
}
