use http_wire::Kind;

/// How a connection ended.
#[derive(Clone, Copy, Debug, PartialEq, Eq)]
pub enum Ended {
    /// No byte was left.
    End,
    /// A request was answered that ends the connection.
    Closed,
    /// The connection ended inside a head that could still go on, or inside a target, after so many bytes of requests.
    CutShort(u64),
    /// A request was refused before it was understood, after so many bytes of requests.
    Refused { kind: Kind, place: u64 },
    /// The service failed under an answer, which says so, or was cut off. Which fault it was is the service's own, as what is
    /// noted of the answer can say.
    ServiceFailed,
    /// The line failed: its count of faults rose.
    LineFailed,
    /// Memory ran out. That was answered.
    Memory,
}
