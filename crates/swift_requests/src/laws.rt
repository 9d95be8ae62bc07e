//! What the definitions of this crate promise, apart from its code.
ghost use Rattle.std.specs.Prelude.{◌≡◌, ◌<◌, Bool, List, ℕ, length};
ghost use Rattle.http_wire.specs.declared.message.Message.{Message};
ghost use Rattle.swift_calls.specs.Step.{Fit};
ghost use Rattle.swift_calls.specs.declared.calls.SwiftRequest.{SwiftRequest};
ghost use Rattle.swift_requests.specs.Place.{IsPlace};
ghost use Rattle.swift_requests.specs.Calls.{SpellsCall, SpellsRequest};
ghost use Rattle.swift_requests.specs.CallText.{call_fields, call_head, call_text};
ghost use Rattle.swift_requests.specs.declared.place.Place.{Place};

use slo_manifest::law_text_reads_back;

/// What is written for a call is one whole request that spells the call, and has the place's token.
pub fn law_call_reads_back()
    ensures { (newest : Bool) (place : Place) (call : SwiftRequest) → IsPlace place → Fit call
        → SpellsRequest place call (call_text newest place call) }
{
    law_text_reads_back();
}

/// The head that is written for a call is within what a store reads: less than 16,384 bytes, fewer than 100 fields.
pub fn law_call_head_fits()
    ensures bytes { (newest : Bool) (place : Place) (call : SwiftRequest) → IsPlace place → Fit call
        → length (call_head newest place call) < 16384 }
    ensures fields { (newest : Bool) (place : Place) (call : SwiftRequest) → Fit call
        → length (call_fields newest place call) < 100 }
{}

/// No message spells two calls, and no bytes do.
pub fn law_one_call()
    ensures message { (place : Place) (message : Message) (a b : SwiftRequest)
        → SpellsCall place a message → SpellsCall place b message → a ≡ b }
    ensures bytes { (place : Place) (bytes : List ℕ) (a b : SwiftRequest)
        → SpellsRequest place a bytes → SpellsRequest place b bytes → a ≡ b }
{}
