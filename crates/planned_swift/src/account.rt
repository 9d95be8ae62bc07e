//! The account that a store in memory keeps, as lists.
ghost use Rattle.std.specs.Prelude.{◌≡◌};

use gate_base::{Bytes, Copying, List, Memory, Named};
use swift_calls::{ReadList, Stored};

/// A container. `created` is the moment of its making, in seconds since the beginning of 1970, where it keeps one.
#[derive(Debug, Drop)]
pub struct Container {
    pub name: Bytes,
    pub readers: ReadList,
    pub created: Option<u64>,
    pub objects: List<Stored>,
}

impl Copying for Container {
    fn copy(&self) -> Result<Container, Memory> {
        Ok(Container {
            name: self.name.copy()?,
            readers: self.readers,
            created: self.created,
            objects: self.objects.copy()?,
        })
    }
}

impl Named for Container {
    ghost name_of = { λ c. c.name };

    fn name(&self) -> &[u8] {
        self.name.as_slice()
    }
}

/// All that a store keeps for its user.
#[derive(Debug, Drop)]
pub struct Account {
    pub containers: List<Container>,
}

impl Copying for Account {
    fn copy(&self) -> Result<Account, Memory> {
        Ok(Account {
            containers: self.containers.copy()?,
        })
    }
}
