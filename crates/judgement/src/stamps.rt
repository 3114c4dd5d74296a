//! What is found of a stamp.
ghost use Rattle.std.specs.Prelude.{◌≡◌, ◌↔◌, ◌≤◌, List, length};
ghost use Rattle.policy.specs.View.{policy_view};
ghost use Rattle.tsp.specs.{Request.Spells, View.request_view};
ghost use Rattle.book.specs.{Rows.StampRow, Values.stamp_view};
ghost use Rattle.decide.specs.{Verdict.IsVerdict, Verdict.Allowed, View.plan_view, declared.facts.Facts.Facts};
ghost use Rattle.judgement.specs.Readings.{ComesFurthest, EvidenceValue, IsPossible, unheld};
ghost use Rattle.judgement.specs.{Given.IsGivenByRules, Given.account_of, Judged.IsJudgedAs, Judged.IsJudgedBehind};
ghost use Rattle.judgement.specs.{Past.IsPast, View.evidence_view, declared.judgement.Judgement.Judgement};

use crate::evidence::{Before, Evidence};
use crate::judgement::Judgement;
use crate::past::Past;
use crate::readings::good_clock;
use crate::row::is_stamp_by;
use book::Stamp;
use decide::{ClockFacts, Facts, Plan, Verdict, decide, verdicts_are_of_octets};
use tsp::{Request, Rule, read_request, requests_have_one_reading};

/// What is found of a stamp: whether it is given by the rules of the policy file, and else how not. Takes no memory.
pub fn judge(evidence: &Evidence<'_>, before: &Before, stamp: &Stamp) -> Judgement
    ensures { IsJudgedAs (evidence_view evidence.now) before.now (stamp_view stamp.now) result }
{
    verdicts_are_of_octets();
    let Ok(request) = read_request(&stamp.request) else {
        return Judgement::Fails(Rule::Spelling);
    };
    let account = evidence.policy.account_named(stamp.account.as_str());
    let facts = furthest(evidence, before, stamp.gen_time);
    match decide(evidence.policy, account, &request, &facts) {
        Verdict::Allow(plan) => judge_allowed(evidence, before, stamp, &request, &plan),
        Verdict::Deny(rule) => Judgement::Fails(rule),
    }
}

/// The same evidence, if nothing had ever been held.
fn unheld<'a>(evidence: &Evidence<'a>) -> Evidence<'a>
    ensures { evidence_view result ≡ unheld (evidence_view evidence.now) }
{
    Evidence {
        holds: &[],
        ..*evidence
    }
}

/// The facts by which the rules come furthest, if nothing had ever been held.
pub(crate) fn furthest(evidence: &Evidence<'_>, before: &Before, gen_time: u64) -> Facts
    ensures { ComesFurthest (unheld (evidence_view evidence.now)) before.now gen_time result }
{
    match good_clock(&unheld(evidence), before, gen_time) {
        Some(clock) => Facts {
            clock,
            count: before.count,
        },
        None => Facts {
            clock: ClockFacts {
                reading: 0,
                calibration: None,
                held: false,
                last_gen_time: None,
            },
            count: before.count,
        },
    }
}

/// What is found of a stamp behind the rows before it. Nothing is of a first row whose serial number isn't 1, which was
/// carried on from another database.
pub fn judge_behind(evidence: &Evidence<'_>, past: &Past, stamp: &Stamp) -> Option<Judgement>
    ensures { (before : List StampRow) → IsPast before past.now
        → IsJudgedBehind (evidence_view evidence.now) before (stamp_view stamp.now) result }
{
    let before = past.before(stamp);
    if before.last_gen_time.is_none() && stamp.serial != 1 {
        return None;
    }
    Some(judge(evidence, &before, stamp))
}

/// What is found of a stamp that the rules allow, if nothing was held.
fn judge_allowed(
    evidence: &Evidence<'_>,
    before: &Before,
    stamp: &Stamp,
    request: &Request<'_>,
    plan: &Plan<'_>,
) -> Judgement
    requires asked { Spells stamp.now.request.items (request_view request.now) }
    requires short { length stamp.now.request.items ≤ 65536 }
    requires allowed { (facts : Facts) × IsPossible (unheld (evidence_view evidence.now)) before.now stamp.now.gen_time
        facts × IsVerdict (policy_view evidence.now.policy.now)
        (account_of (evidence_view evidence.now) (stamp_view stamp.now)) (request_view request.now) facts
        (Allowed (plan_view plan.now)) }
    ensures { IsJudgedAs (evidence_view evidence.now) before.now (stamp_view stamp.now) result }
{
    requests_have_one_reading();
    if !is_stamp_by(evidence, stamp, request, plan) {
        return Judgement::Differs;
    }
    match good_clock(evidence, before, stamp.gen_time) {
        Some(_clock) => Judgement::Given,
        None => Judgement::MayHaveBeenHeld,
    }
}

/// A stamp is judged as given exactly if it is given by the rules, and is found to be one thing only.
pub fn judgements_say_what_is_given()
    ensures given { (e : EvidenceValue) (before : Before) (stamp : StampRow) (found : Judgement)
        → IsJudgedAs e before stamp found → (found ≡ Judgement.Given) ↔ IsGivenByRules e before stamp }
{
    verdicts_are_of_octets();
}
