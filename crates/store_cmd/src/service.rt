//! A store over a shelf that is lent, as a service of HTTP.
ghost use Rattle.std.specs.Prelude.{◌≡◌, ◌≢◌, Bool, false, if◌then◌else◌, IsTrue, None, Some};
ghost use Rattle.std.proofs.Common.{refl, sym, subst, ◌∙◌};
ghost use Rattle.gate_base.specs.Line.{OnlyWrites};
ghost use Rattle.http_wire.specs.declared.judge.TheConstants.{MOST_BODY_LIMIT};
ghost use Rattle.http_service.specs.declared.ended.Ended.TheVariants.{Closed, Refused};
ghost use Rattle.http_service.specs.Answering.{Sends};
ghost use Rattle.http_service.specs.Trace.{is_failed_step};
ghost use Rattle.swift_replies.specs.AnswerText.{refusal};
ghost use Rattle.store_cmd.specs.Connection.{AnswersMessage, StoreAnswers, StoreState, state_of};
ghost use Rattle.store_cmd.specs.Service.{ServiceGoesOn};

use crate::lent_store::LentStore;
use crate::setup::Setup;
use gate_base::{Bytes, Line, NoCount};
use http_service::{Ended, Received, Service, send_piece};
use http_wire::{Kind, MOST_BODY_LIMIT, Message, closes};
use std::alloc::Global;
use swift_store::{Shelf, StoreFault, serve};

impl<'a, S: Shelf, N: Line<NoCount>> Service<NoCount, N> for LentStore<'a, S> {
    ghost State = { StoreState };

    ghost Note = { Unit {0} };

    ghost View = { Bool };

    ghost state = { λ service. state_of (S.model service.shelf.now) };

    ghost number = { λ state. 0 };

    ghost limit = { MOST_BODY_LIMIT };

    ghost memory = { refusal 500 };

    ghost GoesOn = { ServiceGoesOn S.model };

    ghost Given = { λ told service. IsTrue told → IsTrue (S.model service.shelf.now).observable };

    ghost Answers = { λ told service. StoreAnswers told service.setup.now.place };

    ghost goes_on_none = { λ service. record { shelf = refl; setup = refl; observable = λ t. t } };

    ghost goes_on_then = { λ old middle new a b. record {
      shelf = b.shelf ∙ a.shelf;
      setup = b.setup ∙ a.setup;
      observable = λ t. b.observable (a.observable t);
    } };

    ghost given_on = { λ told old new on given t. on.observable (given t) };

    ghost answers_on = { λ told old new on given connection received state sent note end state' sent' answers.
        subst (λ setup. StoreAnswers told setup.place connection received state sent note end state' sent') (sym on.setup) answers };

    fn counter(&self) -> &NoCount {
        &self.none
    }

    fn body_limit(&self) -> u64 {
        MOST_BODY_LIMIT
    }

    fn out_of_memory(&self) -> &[u8] {
        self.setup.refusals.out_of_memory.as_slice()
    }

    fn answer(&mut self, line: &mut N, received: Received) -> Option<Ended> {
        match received {
            Received::Message(message) => {
                answer_message(self.alloc, self.setup, self.shelf, line, message)
            }
            Received::Refused { kind, place, .. } => answer_bad_request(
                self.setup, line, kind, place,
            ),
        }
    }
}

/// Answers one message. A fault of the shelf is answered `503 Service Unavailable`, and where memory runs out the answer is
/// `500 Internal Server Error`; either ends the connection. `None` says that the connection goes on.
fn answer_message<N: Line<NoCount>, S: Shelf>(
    alloc: Global,
    setup: &Setup,
    shelf: &mut S,
    line: &mut N,
    message: Message,
) -> Option<Ended>
    requires { IsTrue (N.model line.old).is_open }
    ensures writes { OnlyWrites (is_failed_step result) (N.model line.old) (N.model line.new) }
    ensures observable { IsTrue (S.model shelf.old).observable
        → IsTrue (S.model shelf.new).observable }
    ensures answers { (told : Bool) → (IsTrue told → IsTrue (S.model shelf.old).observable)
        → IsTrue (N.model line.old).observable
        → AnswersMessage told setup.now.place (N.model line.old).transcript.begun message
        (state_of (S.model shelf.old)) (N.model line.old).transcript.sent result
        (state_of (S.model shelf.new)) (N.model line.new).transcript.sent }
{
    let last = closes(&message);
    let mut text = Bytes::new(alloc);
    match serve(alloc, &setup.place, shelf, message, &mut text) {
        Ok(()) => send_piece(line, &NoCount, text.as_slice(), ended_after_answer(last)),
        Err(StoreFault::Failed) => send_piece(
            line,
            &NoCount,
            setup.refusals.unavailable.as_slice(),
            Some(Ended::ServiceFailed),
        ),
        Err(StoreFault::Memory) => send_piece(
            line,
            &NoCount,
            setup.refusals.out_of_memory.as_slice(),
            Some(Ended::Memory),
        ),
    }
}

/// How it goes on after an answer.
fn ended_after_answer(last: bool) -> Option<Ended>
    ensures value { result ≡ (if last then Some Closed else None) }
    ensures sound { is_failed_step result ≡ false }
{
    if last { Some(Ended::Closed) } else { None }
}

/// Answers what is no request that is accepted, `400 Bad Request`, which ends the connection.
fn answer_bad_request<N: Line<NoCount>>(
    setup: &Setup,
    line: &mut N,
    kind: Kind,
    place: u64,
) -> Option<Ended>
    requires { IsTrue (N.model line.old).is_open }
    ensures ends { result ≢ None }
    ensures writes { OnlyWrites (is_failed_step result) (N.model line.old) (N.model line.new) }
    ensures sends { IsTrue (N.model line.old).observable
        → Sends (N.model line.old).transcript.begun 0 (refusal 400) (Some (Refused kind place))
        (N.model line.old).transcript.sent result (N.model line.new).transcript.sent }
{
    send_piece(
        line,
        &NoCount,
        setup.refusals.bad_request.as_slice(),
        Some(Ended::Refused { kind, place }),
    )
}
