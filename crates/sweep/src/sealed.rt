//! What a survey reads of a completion that is sealed.
ghost use Rattle.std.specs.Prelude.{◌≡◌, true, IfOk, IfSome};
ghost use Rattle.upload_texts.specs.Sealed.{has_sealed_text};
ghost use Rattle.account_calls.specs.Calls.{always, Any, Asks};
ghost use Rattle.account_calls.specs.Listing.{TellsOf};
ghost use Rattle.account_calls.specs.Told.{LeavesThroughout};
ghost use Rattle.sweep.specs.Surveying.{TellsSealed};

use account_calls::{PlanFault, ask_newest, interpret_sealed_get};
use std::alloc::Global;
use swift_calls::{Swift, SwiftRequest};
use upload_records::{gateway_container, sealed_name};
use upload_texts::Sealed;

/// The completion that is sealed on the account, and `None` where none is, by GET of its file (Object Storage API v1, "Get object
/// content and metadata"). At most one call.
#[tactic(auto, using(account_calls::proofs::lemmas::SealedNames::gateway_is_container, account_calls::proofs::lemmas::SealedNames::sealed_is_object))]
pub(crate) fn get_sealed<W: Swift>(
    alloc: Global,
    store: &mut W,
) -> Result<Option<Sealed>, PlanFault>
    ensures asks { Asks (always 1) (W.history store.old) (W.history store.new) Any
        (TellsOf TellsSealed) result }
    ensures has { IfOk result (λ found. IfSome found (λ s. has_sealed_text s ≡ true)) }
    ensures leaves { LeavesThroughout (W.history store.old) (W.history store.new) }
{
    let container = gateway_container(alloc)?;
    let name = sealed_name(alloc)?;
    let request = SwiftRequest::GetObject {
        container,
        name,
        range: None,
    };
    let reply = ask_newest(store, request)?;
    interpret_sealed_get(alloc, &reply)
}
