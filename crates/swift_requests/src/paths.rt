//! The target of a call: its path, and the values of its query.
ghost use Rattle.std.specs.Prelude.{◌≡◌, IfOk};
ghost use Rattle.swift_requests.specs.Paths.{unescaped, is_nested_call_path, path_below, account_call_path, is_versioned_call_path, path_of, object_path};
ghost use Rattle.swift_requests.specs.Calls.{account_in};

use gate_base::{Bytes, Memory, cut};
use s3_names::{NameFault, decode};
use std::alloc::Global;

/// What the path of a target names, by the parts as they are read: an account; its container; an object in that.
#[derive(Drop)]
pub enum Path {
    Account(Bytes),
    Container(Bytes, Bytes),
    Object(Bytes, Bytes, Bytes),
}

/// The account of a path.
pub(crate) fn account_in(path: &Path) -> &[u8]
    ensures { result.now ≡ account_in path.now }
{
    match path {
        Path::Account(account) => account.as_slice(),
        Path::Container(account, _) => account.as_slice(),
        Path::Object(account, _, _) => account.as_slice(),
    }
}

/// What the path of a target names.
pub(crate) fn read_call_path(alloc: Global, target: &[u8]) -> Result<Option<Path>, Memory>
    ensures { IfOk result (λ path. path ≡ path_of target.now) }
{
    let (path, _) = cut(target, b'?');
    if is_versioned_call_path(path) {
        account_call_path(alloc, &path[4..])
    } else {
        Ok(None)
    }
}

fn is_versioned_call_path(path: &[u8]) -> bool
    ensures { result ≡ is_versioned_call_path path.now }
{
    path.starts_with(b"/v1/")
}

/// An account, or behind a `/` what is in it.
fn account_call_path(alloc: Global, text: &[u8]) -> Result<Option<Path>, Memory>
    ensures { IfOk result (λ path. path ≡ account_call_path text.now) }
{
    if is_nested_call_path(text) {
        let (account, others) = cut(text, b'/');
        return path_below(alloc, account, others);
    }
    match unescaped(alloc, text)? {
        Some(account) => Ok(Some(Path::Account(account))),
        None => Ok(None),
    }
}

/// A container, or behind a `/` an object in it.
fn path_below(alloc: Global, account: &[u8], text: &[u8]) -> Result<Option<Path>, Memory>
    ensures { IfOk result (λ path. path ≡ path_below account.now text.now) }
{
    if is_nested_call_path(text) {
        let (container, name) = cut(text, b'/');
        return object_path(alloc, account, container, name);
    }
    let Some(account) = unescaped(alloc, account)? else {
        return Ok(None);
    };
    match unescaped(alloc, text)? {
        Some(container) => Ok(Some(Path::Container(account, container))),
        None => Ok(None),
    }
}

fn object_path(
    alloc: Global,
    account: &[u8],
    container: &[u8],
    name: &[u8],
) -> Result<Option<Path>, Memory>
    ensures { IfOk result (λ path. path ≡ object_path (unescaped account.now)
        (unescaped container.now) (unescaped name.now)) }
{
    let Some(account) = unescaped(alloc, account)? else {
        return Ok(None);
    };
    let Some(container) = unescaped(alloc, container)? else {
        return Ok(None);
    };
    match unescaped(alloc, name)? {
        Some(name) => Ok(Some(Path::Object(account, container, name))),
        None => Ok(None),
    }
}

fn is_nested_call_path(text: &[u8]) -> bool
    ensures { result ≡ is_nested_call_path text.now }
{
    text.iter().any(|byte| *byte == b'/')
}

/// The bytes that an escaped text stands for; none where it has a bad escape.
pub(crate) fn unescaped(alloc: Global, text: &[u8]) -> Result<Option<Bytes>, Memory>
    ensures { IfOk result (λ bytes. bytes ≡ unescaped text.now) }
{
    match decode(alloc, text) {
        Ok(bytes) => Ok(Some(bytes)),
        Err(NameFault::Memory) => Err(Memory),
        Err(_) => Ok(None),
    }
}
