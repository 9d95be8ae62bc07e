ghost use Rattle.std.specs.Prelude.{◌≡◌};
ghost use Rattle.extended.specs.Checked.{unchunked_sender};

use gate_base::{Caller, List, Pair};
use std::alloc::Global;

/// Who sent a message, whether its body came in chunks, and the trailers behind these in their order, with names in lower case and
/// values without the blanks around them.
#[derive(Debug, Drop)]
pub struct Sender {
    pub caller: Caller,
    pub chunked: bool,
    pub trailers: List<Pair>,
}

impl Sender {
    /// The sender of a message whose body doesn't come in chunks. It takes no memory.
    pub fn unchunked(alloc: Global, caller: Caller) -> Sender
        ensures { result ≡ unchunked_sender caller }
    {
        Sender {
            caller,
            chunked: false,
            trailers: List::new(alloc),
        }
    }
}
