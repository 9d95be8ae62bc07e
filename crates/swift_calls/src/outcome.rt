//! How the calls of a store go that was told which of them to lose.
ghost use Rattle.std.specs.Prelude.{◌≡◌, ◌&&◌, ◌==◌, nat_lt, nat_le};
ghost use Rattle.std.specs.List.{list_any};
ghost use Rattle.swift_calls.specs.Outcomes.{outcome_of};

/// How a call goes.
#[derive(Clone, Copy, Debug, PartialEq, Eq)]
pub enum Outcome {
    /// It takes effect and is answered.
    Answered,
    /// The request is lost: the call fails without effect.
    LostBefore,
    /// The answer is lost: the call fails after its effect.
    LostAfter,
}

/// How the call of a number goes, by what a store was told of its calls.
pub fn outcome_at(before: &[u64], after: &[u64], stop: u64, number: u64) -> Outcome
    ensures { result ≡ outcome_of before.now after.now stop number }
{
    if is_among_call_numbers(number, before) || is_call_stopped(stop, number) {
        Outcome::LostBefore
    } else if is_among_call_numbers(number, after) {
        Outcome::LostAfter
    } else {
        Outcome::Answered
    }
}

fn is_among_call_numbers(number: u64, numbers: &[u64]) -> bool
    ensures { result ≡ list_any (λ k. k == number) numbers.now }
{
    numbers.iter().any(|k| *k == number)
}

/// Whether each call fails from the number on, where 0 stops none.
fn is_call_stopped(stop: u64, number: u64) -> bool
    ensures { result ≡ nat_lt 0 stop && nat_le stop number }
{
    0 < stop && stop <= number
}
