//! What holds of all verdicts.
ghost use Rattle.std.specs.Prelude.{◌≡◌, ℕ, ◌≤◌, List, length, Option, Some, None};
ghost use Rattle.policy.specs.Record.{AccountValue, CounterValue, PolicyValue};
ghost use Rattle.tsp.specs.Request.{RequestValue, Spells};
ghost use Rattle.tsp.specs.Rules.{IsSpelled, HoldsOfOctets, IsFirstFailing};
ghost use Rattle.tsp.specs.declared.rule.Rule.{Rule, TheVariants.Spelling, TheVariants.Clock, TheVariants.Quota};
ghost use Rattle.decide.specs.{Clock.IsGood, Clock.IsGoodAt, Clock.KeepsAccuracy, Rules.HoldsOf, Rules.Holds};
ghost use Rattle.decide.specs.{Rules.IsWithinQuota, declared.facts.ClockFacts.ClockFacts, declared.facts.Facts.Facts};
ghost use Rattle.decide.specs.Verdict.{IsJudged, IsVerdict, IsPlan, PlanValue, VerdictValue, Allowed, Denied};

use tsp::requests_have_one_reading;

/// A request has one verdict, and what is found out on the way to it is the verdict: the rules 2 to 9 are judged
/// without the facts, rule 10 without the day's count.
pub fn verdicts_are_one()
    // The first rule of 2 to 9 that fails is the verdict, whatever the facts.
    ensures judged { (file : PolicyValue) (account : Option AccountValue) (r : RequestValue) (facts : Facts)
        (rule : Rule)
        → IsJudged file account r (Some rule) → IsVerdict file account r facts (Denied rule) }

    // Where these hold and the clock isn't good, rule 10 is, whatever the count.
    ensures clock { (file : PolicyValue) (account : Option AccountValue) (r : RequestValue) (facts : Facts)
        → IsJudged file account r None → (IsGood file.counter facts.clock → ⊥)
        → IsVerdict file account r facts (Denied Clock) }

    // Where the clock is good too and the account has had its quota, rule 11 is.
    ensures quota { (file : PolicyValue) (account : Option AccountValue) (r : RequestValue) (facts : Facts)
        → IsJudged file account r None → IsGood file.counter facts.clock → (IsWithinQuota account facts.count → ⊥)
        → IsVerdict file account r facts (Denied Quota) }

    // Else the stamp is allowed.
    ensures allowed { (file : PolicyValue) (account : Option AccountValue) (r : RequestValue) (facts : Facts)
        (plan : PlanValue)
        → IsJudged file account r None → IsWithinQuota account facts.count → IsPlan file account r facts plan
        → IsVerdict file account r facts (Allowed plan) }

    // There is one verdict, and at most one first rule of 2 to 9 that fails.
    ensures one { (file : PolicyValue) (account : Option AccountValue) (r : RequestValue) (facts : Facts)
        (first second : VerdictValue) → IsVerdict file account r facts first → IsVerdict file account r facts second
        → first ≡ second }
    ensures one_judged { (file : PolicyValue) (account : Option AccountValue) (r : RequestValue)
        (first second : Option Rule)
        → IsJudged file account r first → IsJudged file account r second → first ≡ second }
{}

/// What is found out of the request that octets spell, at most 65,536 of them, is found out of the octets: the first
/// rule that fails is the same, and where none fails of the request, none does of the octets. Octets that spell no
/// request, or are more, fail the rule on their spelling.
pub fn verdicts_are_of_octets()
    ensures judged { (file : PolicyValue) (account : Option AccountValue) (octets : List ℕ) (r : RequestValue)
        (rule : Rule) → Spells octets r → length octets ≤ 65536 → IsJudged file account r (Some rule)
        → IsFirstFailing (HoldsOfOctets (HoldsOf file account) octets) rule }
    ensures passed { (file : PolicyValue) (account : Option AccountValue) (octets : List ℕ) (r : RequestValue)
        → Spells octets r → length octets ≤ 65536 → IsJudged file account r None
        → (rule : Rule) → HoldsOfOctets (HoldsOf file account) octets rule }
    ensures denied { (file : PolicyValue) (account : Option AccountValue) (octets : List ℕ) (r : RequestValue)
        (facts : Facts) (rule : Rule) → Spells octets r → length octets ≤ 65536
        → IsVerdict file account r facts (Denied rule)
        → IsFirstFailing (HoldsOfOctets (λ s. Holds file account s facts) octets) rule }
    ensures allowed { (file : PolicyValue) (account : Option AccountValue) (octets : List ℕ) (r : RequestValue)
        (facts : Facts) (plan : PlanValue) → Spells octets r → length octets ≤ 65536
        → IsVerdict file account r facts (Allowed plan)
        → (rule : Rule) → HoldsOfOctets (λ s. Holds file account s facts) octets rule }
    ensures unspelled { (file : PolicyValue) (account : Option AccountValue) (octets : List ℕ) (facts : Facts)
        → (IsSpelled octets → ⊥)
        → IsFirstFailing (HoldsOfOctets (HoldsOf file account) octets) Spelling
        × IsFirstFailing (HoldsOfOctets (λ s. Holds file account s facts) octets) Spelling }
{
    requests_have_one_reading();
}

/// A good clock gives one genTime.
pub fn gen_times_are_one()
    ensures { (counter : CounterValue) (facts : ClockFacts) (first second : ℕ) → IsGoodAt counter facts first
        → IsGoodAt counter facts second → first ≡ second }
{}

/// Wherever a token may be given, its genTime keeps the accuracy: each moment that is at most the clock's deviation
/// away from now is at most the accuracy away from the genTime.
pub fn good_clocks_keep_the_accuracy()
    ensures { (counter : CounterValue) (facts : ClockFacts) (moment : ℕ) → IsGoodAt counter facts moment
        → KeepsAccuracy counter facts moment }
{}
