//! The rules in their order.
ghost use Rattle.std.specs.Prelude.{◌≡◌, ◌≤◌, Some, None, IfSome, MatchResult};
ghost use Rattle.policy.specs.View.{policy_view};
ghost use Rattle.tsp.specs.{Rejection.number_of, View.request_view};
ghost use Rattle.decide.specs.{Rules.policy_asked, View.account_asked, View.verdict_view};
ghost use Rattle.decide.specs.Verdict.{IsJudged, IsVerdict, AllowsAccurately};

use crate::accounts::is_known;
use crate::clock::{ClockState, clock_state};
use crate::facts::Facts;
use crate::rules::{
    accepted_policy, allows_algorithm, allows_extensions, gives_certificate, has_algorithm_length,
    has_known_algorithm, is_within_quota,
};
use crate::verdict::{Plan, Verdict};
use der::Oid;
use policy::{Account, Policy};
use tsp::{Request, Rule};

/// The first of the rules 2 to 9 that a request fails; none where it fails none of them. They speak of the policy file,
/// the account and the request alone (RFC 3161 2.4.1).
pub fn judge_request(
    policy: &Policy,
    account: Option<&Account>,
    request: &Request<'_>,
) -> Option<Rule>
    ensures first { IsJudged (policy_view policy.now) (account_asked account.entry) (request_view request.now) result }
    ensures number { IfSome result (λ rule. (2 ≤ number_of rule) × (number_of rule ≤ 9)) }
{
    match judged(policy, account, request) {
        Ok(_oid) => None,
        Err(rule) => Some(rule),
    }
}

/// The policy under which a request may have its token, or the first of the rules 2 to 9 that it fails.
fn judged<'p>(
    policy: &'p Policy,
    account: Option<&Account>,
    request: &Request<'_>,
) -> Result<&'p Oid, Rule>
    ensures { MatchResult result
        (λ oid. IsJudged (policy_view policy.now) (account_asked account.entry) (request_view request.now) None
        × (policy_asked (policy_view policy.now) (account_asked account.entry) (request_view request.now)
        ≡ Some oid.now))
        (λ rule. IsJudged (policy_view policy.now) (account_asked account.entry) (request_view request.now)
        (Some rule)) }
{
    if !request.has_version_one() {
        return Err(Rule::Version);
    }
    let Some(account) = account else {
        return Err(Rule::Account);
    };
    if !is_known(policy, account) {
        return Err(Rule::Account);
    }
    if !has_known_algorithm(policy, request) {
        return Err(Rule::Algorithm);
    }
    if !has_algorithm_length(policy, request) {
        return Err(Rule::HashLength);
    }
    let Some(oid) = accepted_policy(policy, account, request) else {
        return Err(Rule::Policy);
    };
    if !allows_algorithm(policy, oid, request) {
        return Err(Rule::PolicyAlgorithm);
    }
    if !allows_extensions(policy, oid, request) {
        return Err(Rule::Extensions);
    }
    if !gives_certificate(policy, oid, request) {
        return Err(Rule::Certificate);
    }
    Ok(oid)
}

/// The decision on a request, of the rules 2 to 11: the plan of the stamp where none fails, and else the first that
/// fails. Where a stamp is allowed, each moment that is at most the deviation away from now is at most the accuracy
/// away from its genTime (RFC 3161 2.4.2).
pub fn decide<'p>(
    policy: &'p Policy,
    account: Option<&Account>,
    request: &Request<'_>,
    facts: &Facts,
) -> Verdict<'p>
    ensures verdict { IsVerdict (policy_view policy.now) (account_asked account.entry)
        (request_view request.now) facts.now
        (verdict_view result) }
    ensures interval { AllowsAccurately (policy_view policy.now) facts.now (verdict_view result) }
{
    let oid = match judged(policy, account, request) {
        Ok(oid) => oid,
        Err(rule) => return Verdict::Deny(rule),
    };
    let ClockState::Good(gen_time) = clock_state(&policy.counter, &facts.clock) else {
        return Verdict::Deny(Rule::Clock);
    };
    if !is_within_quota(account, facts.count) {
        return Verdict::Deny(Rule::Quota);
    }
    Verdict::Allow(Plan {
        policy: oid,
        gen_time,
        certificate: request.cert_req(),
    })
}
