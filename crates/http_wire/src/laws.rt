//! What the definitions of this crate promise, apart from its code.
ghost use Rattle.std.specs.Prelude.{◌≡◌, ◌<◌, ◌≤◌, List, length, take, ℕ};
ghost use Rattle.http_wire.specs.declared.message.Message.{Message};
ghost use Rattle.http_wire.specs.FirstMessage.{FirstMessage, BeginsWith, Spells, asks};
ghost use Rattle.http_wire.specs.Interim.{OwesInterim, IsOwedFirst};

/// At most one thing stands first in a list of bytes.
pub fn one_front()
    ensures { (limit : ℕ) (bytes : List ℕ) (a b : FirstMessage)
        → BeginsWith limit bytes a → BeginsWith limit bytes b → a ≡ b }
{}

/// A request has a byte at least, and no more than there are.
pub fn request_size()
    ensures some { (limit : ℕ) (bytes : List ℕ) (message : Message) (size : ℕ)
        → BeginsWith limit bytes (asks message size) → 0 < size }
    ensures within { (limit : ℕ) (bytes : List ℕ) (message : Message) (size : ℕ)
        → BeginsWith limit bytes (asks message size) → size ≤ length bytes }
{}

/// A request stands first where the first bytes spell its message, and these alone: no two different prefixes of one
/// list spell a message.
pub fn one_request_spelling()
    ensures one { (limit : ℕ) (bytes : List ℕ) (a b : Message) (n m : ℕ) → n ≤ length bytes → m ≤ length bytes
        → Spells limit (take n bytes) a → Spells limit (take m bytes) b → (n ≡ m) × (a ≡ b) }
    ensures spelt { (limit : ℕ) (bytes : List ℕ) (message : Message) (size : ℕ)
        → BeginsWith limit bytes (asks message size) → Spells limit (take size bytes) message }
    ensures front { (limit : ℕ) (bytes : List ℕ) (message : Message) (size : ℕ)
        → size ≤ length bytes → Spells limit (take size bytes) message
        → BeginsWith limit bytes (asks message size) }
{}

/// What comes first says whether the interim line is owed for it.
pub fn interim_owed()
    ensures { (limit : ℕ) (bytes : List ℕ) (front : FirstMessage) → BeginsWith limit bytes front
        → (OwesInterim limit bytes → IsOwedFirst limit bytes front)
        × (IsOwedFirst limit bytes front → OwesInterim limit bytes) }
{}
