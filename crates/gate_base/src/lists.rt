ghost use Rattle.std.specs.Prelude.{◌≡◌, ◌<◌, ◌≤◌, [], ◌∷◌, ◌++◌, length, insert, slice_get, slice_set, IsTrue, ◌↔◌, IfOk, OnOk, OnErr};
ghost use Rattle.std.specs.Borrow.{sem, Lends};
ghost use Rattle.gate_base.specs.contracts.lists.List.{the_row};

use crate::{Copying, Memory};
use std::alloc::Global;
use std::fmt::{self, Debug, Formatter, Write};
use std::marker::Model;

/// A text of bytes. Contracts see it as the list of its bytes.
#[derive(Drop)]
pub struct Bytes {
    items: Vec<u8>,
}

impl Model for Bytes {
    ghost use Rattle.std.specs.Prelude.{List, ℕ};

    ghost Value = { List ℕ };

    ghost view = { λ b. b.items.items };
}

impl Bytes {
    /// The empty text. It takes no memory.
    pub fn new(alloc: Global) -> Bytes
        ensures { result ≡ [] }
    {
        Bytes {
            items: Vec::new(alloc),
        }
    }

    /// The empty text, with room for so many bytes: they are appended without a move of those before them.
    pub fn with_room(alloc: Global, room: usize) -> Result<Bytes, Memory>
        ensures { IfOk result (λ text. text ≡ []) }
    {
        Ok(Bytes {
            items: Vec::with_capacity(alloc, room)?,
        })
    }

    /// A text of these bytes.
    pub fn from_slice(alloc: Global, bytes: &[u8]) -> Result<Bytes, Memory>
        ensures { IfOk result (λ text. text ≡ bytes.now) }
    {
        Ok(Bytes {
            items: Vec::from_slice(alloc, bytes)?,
        })
    }

    /// The text that a vector holds. It takes no memory.
    pub fn from_vec(items: Vec<u8>) -> Bytes
        ensures { result ≡ items.items }
    {
        Bytes { items }
    }

    /// The vector that held the text. It takes no memory.
    pub fn into_vec(self) -> Vec<u8>
        ensures { result.items ≡ self }
    {
        self.items
    }

    /// Adds a byte at the end. Where memory runs out, the text is as before.
    pub fn push(&mut self, byte: u8) -> Result<(), Memory>
        ensures ok { OnOk result (self.new ≡ self.old ++ byte ∷ []) }
        ensures err { OnErr result (self.new ≡ self.old) }
    {
        self.items.push(byte)?;
        Ok(())
    }

    /// Adds bytes at the end. Where memory runs out, the text is as before.
    pub fn append(&mut self, bytes: &[u8]) -> Result<(), Memory>
        ensures ok { OnOk result (self.new ≡ self.old ++ bytes.now) }
        ensures err { OnErr result (self.new ≡ self.old) }
    {
        self.items.extend_from_slice(bytes)?;
        Ok(())
    }

    pub fn as_slice(&self) -> &[u8]
        ensures { result.now ≡ self.now }
    {
        &self.items
    }

    pub fn len(&self) -> usize
        ensures { result ≡ length self.now }
    {
        self.items.len()
    }

    pub fn is_empty(&self) -> bool
        ensures { IsTrue result ↔ (self.now ≡ []) }
    {
        self.items.is_empty()
    }
}

impl Copying for Bytes {
    fn copy(&self) -> Result<Bytes, Memory> {
        Ok(Bytes {
            items: self.items.clone()?,
        })
    }
}

// The text in double quotes. A byte that is no visible ASCII and no space, a quote and a backslash are written as `\HH`, with
// two lower-case hexadecimal digits.
impl Debug for Bytes {
    fn fmt<W: Write>(&self, f: &mut Formatter<W>) -> fmt::Result {
        f.write_str("\"")?;
        write_all_bytes(f, &self.items)?;
        f.write_str("\"")
    }
}

fn write_all_bytes<W: Write>(f: &mut Formatter<W>, bytes: &[u8]) -> fmt::Result {
    for byte in bytes {
        write_byte(f, *byte)?;
    }
    Ok(())
}

fn write_byte<W: Write>(f: &mut Formatter<W>, byte: u8) -> fmt::Result {
    if b' ' <= byte && byte <= b'~' && byte != b'"' && byte != b'\\' {
        f.write_char(char::from(byte))
    } else {
        write!(f, "\\{byte:02x}")
    }
}

/// A list of items. Contracts see it as the list.
#[derive(Drop)]
pub struct List<T> {
    items: Vec<T>,
}

impl<T> Model for List<T> {
    ghost use Rattle.std.specs.Prelude.{List};

    ghost Value = { List T };

    ghost view = { λ l. l.items.items };
}

impl<T: Debug> Debug for List<T> {
    fn fmt<W: Write>(&self, f: &mut Formatter<W>) -> fmt::Result {
        f.debug_list().entries(self.items.iter()).finish()
    }
}

impl<T> List<T> {
    /// The empty list. It takes no memory.
    pub fn new(alloc: Global) -> List<T>
        ensures { result ≡ [] }
    {
        List {
            items: Vec::new(alloc),
        }
    }

    /// The list that a vector holds. It takes no memory.
    pub fn from_vec(items: Vec<T>) -> List<T>
        ensures { result ≡ items.items }
    {
        List { items }
    }

    /// The vector that held the list.
    pub fn into_vec(self) -> Vec<T>
        ensures { result.items ≡ self }
    {
        self.items
    }

    pub fn as_slice(&self) -> &[T]
        ensures { result.now ≡ self.now }
    {
        &self.items
    }

    pub fn len(&self) -> usize
        ensures { result ≡ length self.now }
    {
        self.items.len()
    }

    pub fn is_empty(&self) -> bool
        ensures { IsTrue result ↔ (self.now ≡ []) }
    {
        self.items.is_empty()
    }

    /// The item at an index, to be changed in its place.
    pub fn at_mut(&mut self, index: usize) -> &mut T
        requires { index < length self.old }
        ensures* lends { sem 𝓛
            (Lends (the_row T.row) T.row self.entry result (λ w. slice_set self.old index w)) }
        ensures value { slice_get self.old index ≡ Some result.now }
    {
        &mut self.items[index]
    }
}

impl<T: Drop> List<T> {
    /// Adds an item at the end. Where memory runs out, the list is as before, and the item is dropped.
    pub fn push(&mut self, item: T) -> Result<(), Memory>
        ensures ok { OnOk result (self.new ≡ self.old ++ item ∷ []) }
        ensures err { OnErr result (self.new ≡ self.old) }
    {
        self.items.push(item)?;
        Ok(())
    }

    /// Puts an item before the one at the index, or at the end. Where memory runs out, the list is as before, and
    /// the item is dropped.
    pub fn insert(&mut self, index: usize, item: T) -> Result<(), Memory>
        requires { index ≤ length self.old }
        ensures ok { OnOk result (self.new ≡ insert self.old index item) }
        ensures err { OnErr result (self.new ≡ self.old) }
    {
        self.items.insert(index, item)?;
        Ok(())
    }
}

impl<T: Copying + Drop> Copying for List<T> {
    fn copy(&self) -> Result<List<T>, Memory> {
        let mut items = Vec::with_capacity(*self.items.allocator(), self.items.len())?;
        for item in &self.items {
            push_copy(&mut items, item)?;
        }
        Ok(List { items })
    }
}

/// Adds a copy of an item at the end.
fn push_copy<T: Copying + Drop>(items: &mut Vec<T>, item: &T) -> Result<(), Memory>
    ensures { OnOk result (items.new.items ≡ items.old.items ++ item.now ∷ []) }
{
    items.push(item.copy()?)?;
    Ok(())
}
