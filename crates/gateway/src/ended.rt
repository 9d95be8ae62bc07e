use gate_base::{Bytes, Copying, Memory};
use http_wire::Kind;

/// How a connection ended.
#[derive(Debug, Drop)]
pub enum Ended {
    /// No byte was left.
    End,
    /// A request was answered that ends the connection.
    Closed,
    /// The connection ended inside a head that could still go on, or inside a target, after so many bytes of requests.
    CutShort(u64),
    /// A request was refused before it was understood, after so many bytes of requests.
    Refused { kind: Kind, place: u64 },
    /// The line failed: its count of faults rose.
    LineFailed,
    /// The store failed after the head of a read was written: its count of faults rose.
    StoreFailed,
    /// The store was found inconsistent at this object, after the head of a read was written.
    Inconsistent { container: Bytes, name: Bytes },
    /// Memory ran out.
    Memory,
}

impl Copying for Ended {
    fn copy(&self) -> Result<Ended, Memory> {
        match self {
            Ended::End => Ok(Ended::End),
            Ended::Closed => Ok(Ended::Closed),
            Ended::CutShort(place) => Ok(Ended::CutShort(*place)),
            Ended::Refused { kind, place } => Ok(Ended::Refused {
                kind: *kind,
                place: *place,
            }),
            Ended::LineFailed => Ok(Ended::LineFailed),
            Ended::StoreFailed => Ok(Ended::StoreFailed),
            Ended::Inconsistent { container, name } => Ok(Ended::Inconsistent {
                container: container.copy()?,
                name: name.copy()?,
            }),
            Ended::Memory => Ok(Ended::Memory),
        }
    }
}
