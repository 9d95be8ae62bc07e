//! The requests of a trial, one behind the other.
ghost use Rattle.std.specs.Prelude.{◌≡◌, ◌≤◌, IfOk, OnOk};
ghost use Rattle.trial_requests.specs.Trial.{next_point, point_of, trial_point, trial_text};

use crate::asked::{BegunUpload, begun_after, trial_request};
use crate::print::append_trial_request;
use gate_base::{Bytes, Memory};
use rand_core::SeedableRng;
use rand_core::utils::NextWord;
use rand_pcg::Lcg64Xsh32;
use std::alloc::Global;

/// The most requests of a trial.
pub const MOST_TRIAL_REQUESTS: u64 = 100_000;

/// The bytes of so many requests, which a number determines.
#[tactic(auto, unfolding(crate::specs::Trial::trial_point))]
pub fn trial_input(alloc: Global, number: u64, requests: u64) -> Result<Bytes, Memory>
    requires { requests ≤ 100000 }
    ensures { IfOk result (λ text. text ≡ trial_text number requests) }
{
    let mut source = Lcg64Xsh32::seed_from_u64(number);
    let mut latest: Option<BegunUpload> = None;
    let mut text = Bytes::new(alloc);
    'turns: for index in 0..requests {
        append_next(alloc, &mut text, &mut source, &mut latest, index)?;
    }
    Ok(text)
}

/// Adds the next request, of that index.
#[tactic(auto, unfolding(crate::specs::Trial::next_point))]
fn append_next(
    alloc: Global,
    text: &mut Bytes,
    source: &mut Lcg64Xsh32,
    latest: &mut Option<BegunUpload>,
    index: u64,
) -> Result<(), Memory>
    requires { index ≤ 99999 }
    ensures { OnOk result (point_of source.new latest.new text.new
        ≡ next_point index (point_of source.old latest.old text.old)) }
{
    let kind = source.next_word() % 12;
    let bucket = source.next_word() % 3;
    let key = source.next_word() % 8;
    let request = trial_request(alloc, kind, index, bucket, key, *latest)?;
    append_trial_request(alloc, text, index, &request)?;
    *latest = begun_after(kind, index, bucket, key, *latest);
    Ok(())
}
