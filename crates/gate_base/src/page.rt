use crate::{Bytes, Copying, List, Memory};

/// A name with its value, as a header or a query has it.
#[derive(Debug, Drop)]
pub struct Pair {
    pub name: Bytes,
    pub value: Bytes,
}

impl Copying for Pair {
    fn copy(&self) -> Result<Pair, Memory> {
        Ok(Pair {
            name: self.name.copy()?,
            value: self.value.copy()?,
        })
    }
}

/// A reply before it is spelled: its status, its own headers in their order, and its body.
#[derive(Debug, Drop)]
pub struct Page {
    pub status: u16,
    pub headers: List<Pair>,
    pub body: Bytes,
}

impl Copying for Page {
    fn copy(&self) -> Result<Page, Memory> {
        Ok(Page {
            status: self.status,
            headers: self.headers.copy()?,
            body: self.body.copy()?,
        })
    }
}
