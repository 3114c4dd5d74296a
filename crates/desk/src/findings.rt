//! What is found of a request before anything is reserved.
ghost use Rattle.std.specs.Prelude.{◌≡◌, ℕ, ◌≤◌, List, [], None, length, IfOk, IfErr, IsErrAnd};
ghost use Rattle.policy.specs.View.{policy_view};
ghost use Rattle.tsp.specs.Rules.{HasVersionOne, IsFirstFailing};
ghost use Rattle.tsp.specs.{Request.Spells, View.request_view, declared.rule.Rule.Rule};
ghost use Rattle.decide.specs.{Verdict.IsJudged, View.account_asked};
ghost use Rattle.book.specs.History.{History, greatest_serial, day_of};
ghost use Rattle.book.specs.{Fault.CountsFaults, Fault.IsOfStorage, Sound.IsSound, Stands.Stands, Stands.OnlyLooks};
ghost use Rattle.desk.specs.Findings.{HoldsUnasked, Finds};
ghost use Rattle.desk.specs.Calls.{outcome_of, finding_of, why_of, count_for, IsOfLooks, IsSomebodys};
ghost use Rattle.desk.specs.{auxiliary.NewDeposit.FailsLate, Outcome.faults_after, WaitingStamps.with_waiting};

use crate::clock_facts::{Looked, look_among};
use crate::refusal::StampRefusal;
use crate::waiting_stamp::{WaitingStamp, count_waiting};
use book::{Book, StoreFault};
use decide::{ClockState, Facts, Verdict, clock_state, decide, judge_request, verdicts_are_one};
use der::Oid;
use gentime::GenTime;
use policy::{Account, Policy};
use tsp::{Request, Rule, requests_have_one_reading};

/// A stamp that no rule refuses: its request, its policy and its genTime, and the greatest serial number so far.
#[derive(Drop)]
pub(crate) struct Planned<'p, 'a> {
    pub(crate) request: Request<'a>,
    pub(crate) policy: &'p Oid,
    pub(crate) gen_time: GenTime,
    pub(crate) last: u64,
}

/// A request that was read: for whom, when by the clock in microseconds, and what it asks for.
#[derive(Drop)]
pub(crate) struct Requested<'q, 'a> {
    pub(crate) account: Option<&'q Account>,
    pub(crate) reading: i64,
    pub(crate) request: Request<'a>,
}

/// How many reservations the account has on the day of a genTime, with those that wait.
fn count<B: Book + Drop>(
    store: &mut B,
    waits: &[WaitingStamp<'_, '_>],
    account: Option<&Account>,
    gen_time: GenTime,
) -> Result<u64, StoreFault>
    ensures looks { OnlyLooks B.Standing store.old store.new }
    ensures value { B.honest store.new → (b : History) → Stands B.Standing b store.old
        → IsSound (with_waiting waits.now b)
        → IfOk result (λ count. count ≡ count_for (account_asked account.entry) (day_of gen_time)
        (with_waiting waits.now b)) }
    ensures somebody { IfErr result (λ _. account_asked account.entry ≡ None → ⊥) }
    ensures refusals { IfErr result IsOfStorage }
    ensures faults { CountsFaults result (B.fault_count store.old) (B.fault_count store.new) }
{
    match account {
        None => Ok(0),
        Some(account) => {
            let day = gen_time.day();
            let name = account.name.as_str();
            let stored = store.count_of_day(name, day)?;
            Ok(stored.saturating_add(count_waiting(waits, name, day) as u64))
        }
    }
}

/// Judges the rules 10 and 11, which ask the store, of a request that the rules before them let through.
fn ask<'p, 'a, B: Book + Drop>(
    store: &mut B,
    waits: &[WaitingStamp<'_, '_>],
    policy: &'p Policy,
    requested: Requested<'_, 'a>,
) -> Result<Planned<'p, 'a>, StampRefusal>
    ensures looks { OnlyLooks B.Standing store.old store.new }
    ensures counted { B.fault_count store.new ≡ faults_after (outcome_of result) (B.fault_count store.old) }
    ensures finds { B.honest store.new → (b : History) → Stands B.Standing b store.old
        → IsSound (with_waiting waits.now b) → (octets : List ℕ)
        → Spells octets (request_view requested.entry.request) → length octets ≤ 65536
        → IsJudged (policy_view policy.now) (account_asked requested.entry.account)
        (request_view requested.entry.request) None
        → Finds (policy_view policy.now) (account_asked requested.entry.account) requested.entry.reading octets
        (outcome_of result) (with_waiting waits.now b) (finding_of result) }
    ensures same { IfOk result (λ planned. request_view planned.request ≡ request_view requested.entry.request) }
    ensures late { HasVersionOne (request_view requested.entry.request) → IfErr result (λ r. FailsLate (why_of r)) }
    ensures last { B.honest store.new → (b : History) → Stands B.Standing b store.old
        → IsSound (with_waiting waits.now b)
        → IfOk result (λ planned. planned.last ≡ greatest_serial (with_waiting waits.now b)) }
    ensures rises { IsSound (with_waiting waits.now [])
        → IfOk result (λ planned. greatest_serial (with_waiting waits.now []) ≤ planned.last) }
    ensures somebody { IfErr result (IsSomebodys (account_asked requested.entry.account)) }
    ensures refusals { IfErr result IsOfLooks }
{
    requests_have_one_reading();
    verdicts_are_one();
    let Requested {
        account,
        reading,
        request,
    } = requested;
    let Looked { clock, serial } = match look_among(store, waits, reading) {
        Ok(looked) => looked,
        Err(fault) => return Err(StampRefusal::Looking(fault)),
    };
    let ClockState::Good(gen_time) = clock_state(&policy.counter, &clock) else {
        return Err(StampRefusal::Fails(Rule::Clock));
    };
    let count = match count(store, waits, account, gen_time) {
        Ok(count) => count,
        Err(fault) => return Err(StampRefusal::Counting(fault)),
    };
    match decide(policy, account, &request, &Facts { clock, count }) {
        Verdict::Deny(rule) => Err(StampRefusal::Fails(rule)),
        Verdict::Allow(plan) => Ok(Planned {
            request,
            policy: plan.policy,
            gen_time: plan.gen_time,
            last: serial,
        }),
    }
}

/// Judges the rules 2 to 11 of a request in their order, once all that waits is reserved. One that fails one of the
/// rules 1 to 9 is refused without a call of the store and without memory; the day is counted only where the clock is
/// good.
pub(crate) fn judge<'p, 'a, B: Book + Drop>(
    store: &mut B,
    waits: &[WaitingStamp<'_, '_>],
    policy: &'p Policy,
    requested: Requested<'_, 'a>,
) -> Result<Planned<'p, 'a>, StampRefusal>
    ensures looks { OnlyLooks B.Standing store.old store.new }
    ensures counted { B.fault_count store.new ≡ faults_after (outcome_of result) (B.fault_count store.old) }
    ensures finds { B.honest store.new → (b : History) → Stands B.Standing b store.old
        → IsSound (with_waiting waits.now b) → (octets : List ℕ)
        → Spells octets (request_view requested.entry.request) → length octets ≤ 65536
        → Finds (policy_view policy.now) (account_asked requested.entry.account) requested.entry.reading octets
        (outcome_of result) (with_waiting waits.now b) (finding_of result) }
    ensures same { IfOk result (λ planned. request_view planned.request ≡ request_view requested.entry.request) }
    ensures late { HasVersionOne (request_view requested.entry.request) → IfErr result (λ r. FailsLate (why_of r)) }
    ensures last { B.honest store.new → (b : History) → Stands B.Standing b store.old
        → IsSound (with_waiting waits.now b)
        → IfOk result (λ planned. planned.last ≡ greatest_serial (with_waiting waits.now b)) }
    ensures rises { IsSound (with_waiting waits.now [])
        → IfOk result (λ planned. greatest_serial (with_waiting waits.now []) ≤ planned.last) }
    ensures unasked { (octets : List ℕ) → Spells octets (request_view requested.entry.request) → length octets ≤ 65536
        → (rule : Rule) → IsFirstFailing (HoldsUnasked (policy_view policy.now)
        (account_asked requested.entry.account) octets) rule
        → IsErrAnd result (λ r. r ≡ StampRefusal.Fails rule) × (store.new ≡ store.old) }
    ensures somebody { IfErr result (IsSomebodys (account_asked requested.entry.account)) }
    ensures refusals { IfErr result IsOfLooks }
{
    requests_have_one_reading();
    verdicts_are_one();
    match judge_request(policy, requested.account, &requested.request) {
        Some(rule) => Err(StampRefusal::Fails(rule)),
        None => ask(store, waits, policy, requested),
    }
}
