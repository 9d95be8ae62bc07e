//! What a sweep remembers of a bucket: which segments its objects list, and which uploads are open.
ghost use Rattle.std.specs.Prelude.{◌≡◌, true, false};
ghost use Rattle.std.specs.FinMap.{empty};
ghost use Rattle.leftovers.specs.Kept.{goes};
ghost use Rattle.leftovers.specs.Leftovers.{id_in};

use name_table::Table;
use std::alloc::Global;

/// What is kept beside a bucket: the names of the segments that its objects list, and the ids of its open uploads.
#[derive(Drop)]
pub struct Kept {
    /// The names of the segments that its objects list, by themselves or through a sub-manifest.
    pub listed: Table<bool>,
    /// The texts of the ids of its open uploads.
    pub opened: Table<bool>,
}

impl Kept {
    /// Nothing is kept. It takes no memory.
    pub(crate) fn nothing(alloc: Global) -> Kept
        ensures listed { result.listed ≡ empty }
        ensures opened { result.opened ≡ empty }
    {
        Kept {
            listed: Table::new(alloc),
            opened: Table::new(alloc),
        }
    }

    /// Whether a segment of this name goes: nothing keeps it.
    pub(crate) fn goes(&self, name: &[u8]) -> bool
        ensures { result ≡ goes self.now name.now }
    {
        self.listed.get(name).is_none() && self.opened.get(id_in(name)).is_none()
    }
}

/// The text of the id in the name of a segment: its first 32 bytes.
pub(crate) fn id_in(name: &[u8]) -> &[u8]
    ensures { result.now ≡ id_in name.now }
{
    if name.len() < 32 {
        return name;
    }
    &name[..32]
}
