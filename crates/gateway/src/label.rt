ghost use Rattle.std.specs.Prelude.{◌≡◌};
ghost use Rattle.gateway.specs.Connection.{NextLabel, sent_by};

use gate_base::{Caller, Clock, Draws};
use s3_machine::Label;

/// The label of the next request, of an anonymous caller: the clock is read once, and two words are drawn, its id and
/// its word of chance.
pub fn next_label<C: Clock, D: Draws>(clock: &mut C, draws: &mut D) -> Label
    ensures { NextLabel (C.model clock.old) (D.model draws.old) (C.model clock.new)
        (D.model draws.new) result }
{
    let moment = clock.now();
    let request_id = draws.draw();
    let draw = draws.draw();
    Label {
        caller: Caller::Anonymous,
        moment,
        request_id,
        draw,
    }
}

/// The same label, of that caller.
pub fn sent_by(caller: Caller, label: Label) -> Label
    ensures { result ≡ sent_by caller label }
{
    Label {
        caller,
        moment: label.moment,
        request_id: label.request_id,
        draw: label.draw,
    }
}
