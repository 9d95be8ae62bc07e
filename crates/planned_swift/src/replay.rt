//! A store in memory: its calls, and its accounts again.
ghost use Rattle.std.specs.Prelude.{◌≡◌, ℕ, ◌≤◌, take, ◌+◌, ◌++◌, ◌∷◌, [], refl, IfOk, OnErr, OnOk, IsErrOf};
ghost use Rattle.std.proofs.Common.{ap, subst};
ghost use Rattle.std.proofs.Math.Seq.{take-length};
ghost use Rattle.std.proofs.lemmas.List.{take-take};
ghost use Rattle.std.proofs.lemmas.List.Sums.{sum_by-take-le};
ghost use Rattle.planned_swift.specs.Accounts.{tree_of, IsOrdered, IsSized};
ghost use Rattle.swift_calls.specs.Step.{Fit, swift_step};
ghost use Rattle.swift_calls.specs.History.{Calls};
ghost use Rattle.swift_calls.specs.Outcomes.{outcome_of, loses_none};
ghost use Rattle.planned_swift.specs.Replay.{left_by, reply_by, failures, Goes, Logs};
ghost use Rattle.planned_swift.specs.MemSwift.{calls_of, account_after, faults_after, history_of, planned, SamePlan};

use crate::memory::Entry;
use crate::serve::serve;
use crate::{Account, MemSwift};
use gate_base::{Copying, Counted, List, Memory};
use std::alloc::Global;
use swift_calls::{Outcome, Swift, SwiftFault, SwiftReply, SwiftRequest, drop_reply, outcome_at};

impl MemSwift {
    /// A store with this account. The calls whose numbers are in `before` fail without effect, those in `after` after
    /// their effect, and from `stop` on each call fails without effect, where `stop` isn't 0. A number in both
    /// lists counts as one of `before`.
    #[tactic(auto, using(crate::proofs::Replaying::replayed_none))]
    pub fn new(
        alloc: Global,
        account: Account,
        before: List<u64>,
        after: List<u64>,
        stop: u64,
    ) -> Result<MemSwift, Memory>
        requires ordered { IsOrdered account }
        requires sized { IsSized account }
        ensures calls { IfOk result (λ m. calls_of m ≡ 0) }
        ensures account { IfOk result (λ m. account_after m 0 ≡ account) }
        ensures faults { IfOk result (λ m. faults_after m 0 ≡ 0) }
        ensures sure { IfOk result (λ m. (history_of m).sure ≡ loses_none before after stop) }
        ensures planned { IfOk result
            (λ m. (number : ℕ) → planned m number ≡ outcome_of before after stop number) }
    {
        Ok(MemSwift {
            present: account.copy()?,
            first: account,
            log: Vec::new(alloc),
            before,
            after,
            stop,
            alloc,
        })
    }

    /// The account after all calls.
    #[tactic(auto, using(crate::proofs::Replaying::ordered_at, crate::proofs::Replaying::sized_at))]
    pub fn account(&self) -> &Account
        ensures exact { result.now ≡ account_after self.now (calls_of self.now) }
        ensures ordered { IsOrdered result.now }
        ensures sized { IsSized result.now }
    {
        &self.present
    }

    /// The account after the first `k` calls.
    #[tactic(auto, using(crate::proofs::Replaying::replayed_none, crate::proofs::Replaying::replayed_next, crate::proofs::Replaying::ordered_at, crate::proofs::Replaying::sized_at_take))]
    pub fn account_at(&self, k: u64) -> Result<Account, Memory>
        requires { k ≤ calls_of self.now }
        ensures exact { IfOk result (λ account. account ≡ account_after self.now k) }
        ensures ordered { IfOk result IsOrdered }
        ensures sized { IfOk result IsSized }
    {
        let mut account = self.first.copy()?;
        for entry in &self.log[..k as usize] {
            make_call_unanswered(self.alloc, &mut account, &entry.request, entry.outcome)?;
        }
        Ok(account)
    }

    /// The account after all calls, and nothing else.
    #[tactic(auto, using(crate::proofs::Replaying::ordered_at, crate::proofs::Replaying::sized_at))]
    pub fn into_account(self) -> Account
        ensures exact { result ≡ account_after self (calls_of self) }
        ensures ordered { IsOrdered result }
        ensures sized { IsSized result }
    {
        self.present
    }

    /// How the call of a number goes.
    fn outcome(&self, number: u64) -> Outcome
        ensures { result ≡ planned self.now number }
    {
        let before = self.before.as_slice();
        outcome_at(before, self.after.as_slice(), self.stop, number)
    }

    /// Makes a call and records it. Where memory runs out, all is as it was.
    #[tactic(auto, using(crate::proofs::Replaying::replayed_more, crate::proofs::Replaying::ordered_at, crate::proofs::Replaying::sized_at, crate::proofs::Replaying::small_more, crate::proofs::Replaying::small_fit))]
    fn make(&mut self, request: &SwiftRequest) -> Result<SwiftReply, SwiftFault>
        requires { Fit request.now }
        ensures plan { SamePlan self.old self.new }
        ensures logs { Logs (planned self.old (calls_of self.old + 1)) request.now result
            self.old.log.items self.new.log.items }
        ensures reply { IfOk result
            (λ reply. reply ≡ (swift_step request.now (tree_of self.old.present)).reply) }
    {
        let outcome = self.outcome(self.log.as_slice().len() as u64 + 1);
        let reply = enter_call_for_replay(
            self.alloc,
            &mut self.log,
            &mut self.present,
            request,
            outcome,
        )?;
        reply.ok_or(SwiftFault::Failed)
    }
}

/// Makes a call as its outcome says, and records it. Where memory runs out, all is as it was.
#[tactic(auto, using(crate::proofs::Replaying::without_last))]
fn enter_call_for_replay(
    alloc: Global,
    log: &mut Vec<Entry>,
    account: &mut Account,
    request: &SwiftRequest,
    outcome: Outcome,
) -> Result<Option<SwiftReply>, Memory>
    requires ordered { IsOrdered account.old }
    requires sized { IsSized account.old }
    ensures reply { IfOk result
        (λ reply. reply ≡ reply_by outcome (swift_step request.now (tree_of account.old)).reply) }
    ensures effect { OnOk result (account.new ≡ left_by outcome request.now account.old) }
    ensures logs { OnOk result (log.new.items ≡ log.old.items
        ++ record { request = request.now; outcome = outcome } ∷ []) }
    ensures kept { OnErr result (account.new ≡ account.old) }
    ensures same { OnErr result (log.new.items ≡ log.old.items) }
{
    let count = log.len();
    record_call(log, request, outcome)?;
    let reply = make_call(alloc, account, request, outcome);
    if reply.is_err() {
        log.truncate(count);
    }
    reply
}

/// Records a call.
fn record_call(log: &mut Vec<Entry>, request: &SwiftRequest, outcome: Outcome) -> Result<(), Memory>
    ensures logs { OnOk result (log.new.items ≡ log.old.items
        ++ record { request = request.now; outcome = outcome } ∷ []) }
    ensures same { OnErr result (log.new.items ≡ log.old.items) }
{
    log.reserve(1)?;
    let request = request.copy()?;
    log.push_reserved(Entry { request, outcome });
    Ok(())
}

/// Makes a call as its outcome says, and gives its reply where it is answered. Where memory runs out, nothing changes.
fn make_call(
    alloc: Global,
    account: &mut Account,
    request: &SwiftRequest,
    outcome: Outcome,
) -> Result<Option<SwiftReply>, Memory>
    requires ordered { IsOrdered account.old }
    requires sized { IsSized account.old }
    ensures reply { IfOk result
        (λ reply. reply ≡ reply_by outcome (swift_step request.now (tree_of account.old)).reply) }
    ensures effect { OnOk result (account.new ≡ left_by outcome request.now account.old) }
    ensures err { OnErr result (account.new ≡ account.old) }
{
    match outcome {
        Outcome::Answered => Ok(Some(serve(alloc, account, request)?)),
        _ => {
            make_call_unanswered(alloc, account, request, outcome)?;
            Ok(None)
        }
    }
}

/// Makes a call as its outcome says, and gives no reply. Where memory runs out, nothing changes.
fn make_call_unanswered(
    alloc: Global,
    account: &mut Account,
    request: &SwiftRequest,
    outcome: Outcome,
) -> Result<(), Memory>
    requires ordered { IsOrdered account.old }
    requires sized { IsSized account.old }
    ensures effect { OnOk result (account.new ≡ left_by outcome request.now account.old) }
    ensures err { OnErr result (account.new ≡ account.old) }
{
    match outcome {
        Outcome::LostBefore => Ok(()),
        _ => {
            drop_reply(serve(alloc, account, request)?);
            Ok(())
        }
    }
}

impl Counted for MemSwift {
    ghost called = { calls_of };

    fn calls(&self) -> u64 {
        self.log.as_slice().len() as u64
    }
}

/// A call goes as its number was told to. Where memory runs out, it is not counted and changes nothing, so the next
/// call has its number.
impl Swift for MemSwift {
    ghost history = { history_of };

    ghost counted = { λ m. refl };

    ghost is_history = { λ m. record {
      last = λ observable left. ap failures (take-length m.log.items);
      rise = λ observable j k order within.
          subst (λ entries. failures entries ≤ faults_after m k) (take-take j k m.log.items order) (sum_by-take-le _ (take k m.log.items) j);
    } };

    fn call(&mut self, request: &SwiftRequest) -> Result<SwiftReply, SwiftFault>
        requires { Fit request.now }
        ensures calls { Calls (history_of self.old) (history_of self.new) request.now result }
        ensures plan { SamePlan self.old self.new }
        ensures exact { Goes (planned self.old (calls_of self.old + 1)) request.now result
            (account_after self.old (calls_of self.old))
            (account_after self.new (calls_of self.new)) }
        ensures memory { IsErrOf result SwiftFault.Memory → calls_of self.new ≡ calls_of self.old }
    {
        self.make(request)
    }

    /// It has one replica.
    fn call_newest(&mut self, request: &SwiftRequest) -> Result<SwiftReply, SwiftFault> {
        self.make(request)
    }
}
