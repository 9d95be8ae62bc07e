ghost use Rattle.std.specs.Prelude.{◌≡◌, Err, IfOk};
ghost use Rattle.s3_names.specs.Answer.{Gives};
ghost use Rattle.s3_names.specs.Key.{is_key, key_of};

use crate::NameFault;
use crate::text::is_text;
use gate_base::{Bytes, Copying, Memory};
use std::alloc::Global;
use std::marker::Model;

/// The most bytes of a key (Amazon S3 User Guide, "Naming Amazon S3 objects").
pub const MOST_KEY_BYTES: usize = 1024;

/// Whether these bytes are an object key: 1 to 1024 bytes of UTF-8 without byte 0. It takes no memory.
#[tactic(auto, unfolding(crate::specs::Key::is_key))]
pub fn is_key(name: &[u8]) -> bool
    ensures { result ≡ is_key name.now }
{
    1 <= name.len() && name.len() <= MOST_KEY_BYTES && is_text(name)
}

/// An object key: 1 to 1024 bytes of UTF-8 without byte 0. Contracts see it as its bytes.
#[derive(Debug, Drop)]
pub struct Key {
    name: Bytes,
}

impl Model for Key {
    ghost use Rattle.std.specs.Prelude.{◌≡◌, List, ℕ, true};
    ghost use Rattle.s3_names.specs.Key.{is_key};

    ghost Value = { List ℕ };

    ghost view = { λ key. key.name };

    ghost invariant = { λ key. is_key key.name ≡ true };
}

impl Key {
    ghost use Rattle.std.specs.Prelude.{true};

    /// The key that this text is. It takes no memory.
    pub fn of(name: Bytes) -> Key
        requires { is_key name ≡ true }
        ensures { result ≡ name }
    {
        Key { name }
    }

    /// The key that these bytes are. `EmptyKey` for no byte; else `LongKey` above 1024 bytes; else `NotUtf8` where
    /// they aren't UTF-8 or have a byte 0. Memory runs out only where none of these fits.
    #[tactic(auto, unfolding(crate::specs::Key::key_of, crate::specs::Key::is_key))]
    pub fn read(alloc: Global, name: &[u8]) -> Result<Key, NameFault>
        ensures answer { Gives result (key_of name.now) }
        ensures refusal { (fault : NameFault) → key_of name.now ≡ Err fault → result ≡ Err fault }
    {
        if name.is_empty() {
            return Err(NameFault::EmptyKey);
        }
        if name.len() > MOST_KEY_BYTES {
            return Err(NameFault::LongKey);
        }
        if !is_text(name) {
            return Err(NameFault::NotUtf8);
        }
        Ok(Key {
            name: Bytes::from_slice(alloc, name)?,
        })
    }

    /// The bytes of the key.
    pub fn bytes(&self) -> &[u8]
        ensures value { result.now ≡ self.now }
        ensures fit { is_key self.now ≡ true }
    {
        self.name.as_slice()
    }

    /// Says that the key is one, where no other call does. It does nothing.
    pub fn fits(&self)
        ensures { is_key self.now ≡ true }
    {
        let _ = &self.name;
    }

    /// A copy of the text of the key.
    pub fn copy_text(&self) -> Result<Bytes, Memory>
        ensures value { IfOk result (λ text. text ≡ self.now) }
        ensures fit { is_key self.now ≡ true }
    {
        self.name.copy()
    }

    /// The text of the key, which is given away. It takes no memory.
    pub fn into_text(self) -> Bytes
        ensures value { result ≡ self }
        ensures fit { is_key self ≡ true }
    {
        self.name
    }
}

impl Copying for Key {
    fn copy(&self) -> Result<Key, Memory> {
        Ok(Key {
            name: self.name.copy()?,
        })
    }
}
