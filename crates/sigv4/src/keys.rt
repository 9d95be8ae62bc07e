ghost use Rattle.std.specs.Prelude.{◌≡◌, is_some, IfOk};
ghost use Rattle.std.specs.Option.{option_copied};
ghost use Rattle.std.specs.List.{list_all, list_any as any_of};
ghost use Rattle.gate_base.specs.Ascii.{is_letter_or_digit, is_visible};
ghost use Rattle.sigv4.specs.Keys.{has_word_length, is_key, key_of, keys_of, has_id, are_keys, ReadsKeys, secret_of};

use crate::index::Index;
use gate_base::{Bytes, Copying, List, Memory, cut};
use std::alloc::Global;
use std::marker::Model;

/// The longest id or secret, in bytes.
const LONGEST: usize = 128;

/// An access key: its id, of letters and digits, and its secret, of visible ASCII, each of 1 to 128 bytes.
#[derive(Debug, Drop)]
pub struct AccessKey {
    pub id: Bytes,
    pub secret: Bytes,
}

impl Copying for AccessKey {
    fn copy(&self) -> Result<AccessKey, Memory> {
        Ok(AccessKey {
            id: self.id.copy()?,
            secret: self.secret.copy()?,
        })
    }
}

/// Why a text of keys isn't read. `BadLine`: the first line, counted from 0, that isn't an id of 1 to 128 letters and
/// digits, a space and a secret of 1 to 128 bytes of visible ASCII. `Twice`: the first line whose id an earlier line
/// has. The lines before it are good. `Memory`: memory ran out.
#[derive(Clone, Copy, Debug, PartialEq, Eq)]
pub enum KeysFault {
    BadLine(u64),
    Twice(u64),
    Memory,
}

impl Copying for KeysFault {
    fn copy(&self) -> Result<KeysFault, Memory>
        ensures { result ≡ Ok self.now }
    {
        Ok(*self)
    }
}

impl From<Memory> for KeysFault {
    ghost use Rattle.std.specs.Prelude.{◌≡◌};
    ghost use Rattle.sigv4.specs.declared.keys.KeysFault.TheVariants.{Memory as out_of_memory};

    ghost from_gives = { λ _ fault. fault ≡ out_of_memory };

    fn from(_: Memory) -> KeysFault {
        KeysFault::Memory
    }
}

/// The access keys that sign requests, in the order of their text, no id twice. Contracts see them as their list.
#[derive(Debug, Drop)]
pub struct Keys {
    entries: List<AccessKey>,
    index: Index,
}

impl Model for Keys {
    ghost use Rattle.std.specs.Prelude.{◌≡◌, List, true};
    ghost use Rattle.sigv4.specs.declared.keys.AccessKey.{AccessKey};
    ghost use Rattle.sigv4.specs.Keys.{are_keys};
    ghost use Rattle.sigv4.specs.Index.{Finds};

    ghost Value = { List AccessKey };

    ghost view = { λ keys. keys.entries };

    ghost invariant = { λ keys. (are_keys keys.entries ≡ true) × Finds keys.index.places keys.entries };
}

impl Copying for Keys {
    fn copy(&self) -> Result<Keys, Memory> {
        Ok(Keys {
            entries: self.entries.copy()?,
            index: self.index.copy()?,
        })
    }
}

impl Keys {
    /// Reads lines `ID SECRET`, each ended by LF, the last one perhaps not; a text of no byte has no line. The first
    /// line that is bad, or has the id of an earlier one, is the fault.
    #[tactic(auto, using(crate::proofs::KeysLemmas::behind_is_shorter))]
    pub fn read(alloc: Global, text: &[u8]) -> Result<Keys, KeysFault>
        ensures { ReadsKeys (keys_of text.now) result }
    {
        let mut keys = List::new(alloc);
        let mut index = Index::new(alloc);
        let mut rest = text;
        'lines: while !rest.is_empty() {
            let (line, behind) = cut(rest, b'\n');
            let key = read_access_key_line(alloc, line)?;
            if !is_key(&key) {
                return Err(KeysFault::BadLine(keys.len() as u64));
            }
            if index.has(keys.as_slice(), key.id.as_slice()) {
                return Err(KeysFault::Twice(keys.len() as u64));
            }
            index.add(alloc, keys.as_slice(), key.id.as_slice())?;
            keys.push(key)?;
            rest = behind;
        }
        Ok(Keys {
            entries: keys,
            index,
        })
    }

    /// The secret of the id, or none exactly where no line has the id. It takes no memory.
    pub fn secret(&self, id: &[u8]) -> Option<&[u8]>
        ensures value { option_copied result ≡ secret_of id.now self.now }
        ensures found { is_some result ≡ any_of (has_id id.now) self.now }
    {
        match self.index.find(self.entries.as_slice(), id) {
            Some(key) => Some(key.secret.as_slice()),
            None => None,
        }
    }
}

fn read_access_key_line(alloc: Global, line: &[u8]) -> Result<AccessKey, Memory>
    ensures { IfOk result (λ key. key ≡ key_of line.now) }
{
    let (id, secret) = cut(line, b' ');
    Ok(AccessKey {
        id: Bytes::from_slice(alloc, id)?,
        secret: Bytes::from_slice(alloc, secret)?,
    })
}

fn is_key(key: &AccessKey) -> bool
    ensures { result ≡ is_key key.now }
{
    let id = key.id.as_slice();
    let secret = key.secret.as_slice();
    has_word_length(id)
        && all_access_key_id_bytes(id)
        && has_word_length(secret)
        && all_secret_bytes(secret)
}

fn has_word_length(word: &[u8]) -> bool
    ensures { result ≡ has_word_length word.now }
{
    1 <= word.len() && word.len() <= LONGEST
}

fn all_access_key_id_bytes(word: &[u8]) -> bool
    ensures { result ≡ list_all is_letter_or_digit word.now }
{
    word.iter().all(|byte| is_access_key_id_byte(*byte))
}

fn is_access_key_id_byte(byte: u8) -> bool
    ensures { result ≡ is_letter_or_digit byte }
{
    byte.is_ascii_digit() || byte.is_ascii_uppercase() || byte.is_ascii_lowercase()
}

fn all_secret_bytes(word: &[u8]) -> bool
    ensures { result ≡ list_all is_visible word.now }
{
    word.iter().all(|byte| is_secret_byte(*byte))
}

fn is_secret_byte(byte: u8) -> bool
    ensures { result ≡ is_visible byte }
{
    byte.is_ascii_graphic()
}
