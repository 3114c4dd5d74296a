//! Rules that are judged of a request, and of the octets that spell it.
ghost use Rattle.std.specs.Prelude.{ℕ, ◌≤◌, List, length};
ghost use Rattle.tsp.specs.{Request.RequestValue, Request.Spells, Rules.IsSpelled, Rules.HoldsOfOctets};
ghost use Rattle.tsp.specs.{Rules.IsFirstFailing, declared.rule.Rule.Rule, declared.rule.Rule.TheVariants.Spelling};

use crate::request::requests_have_one_reading;

/// One who judges requests by rules of its own. It has no code: an `impl` says which rules hold of a request.
pub trait JudgesRequests {
    ghost use Rattle.tsp.specs.{Request.RequestValue, declared.rule.Rule.Rule};

    ghost holds_of: { Self → RequestValue → Rule → Type 0 };
}

/// Whoever judges requests: the first rule that fails of the request that octets spell is the first that fails of the
/// octets, at most 65,536 of them; where no rule fails of the request, none does of the octets; and octets that spell
/// no request, or are more, fail the rule on their spelling.
pub fn octets_fail_as_their_request<J: JudgesRequests>()
    ensures first { (judge : J) (octets : List ℕ) (r : RequestValue) → Spells octets r → length octets ≤ 65536
        → J.holds_of judge r Spelling → (rule : Rule) → IsFirstFailing (J.holds_of judge r) rule
        → IsFirstFailing (HoldsOfOctets (J.holds_of judge) octets) rule }
    ensures none { (judge : J) (octets : List ℕ) (r : RequestValue) → Spells octets r → length octets ≤ 65536
        → ((rule : Rule) → J.holds_of judge r rule) → (rule : Rule) → HoldsOfOctets (J.holds_of judge) octets rule }
    ensures unspelled { (judge : J) (octets : List ℕ) → (IsSpelled octets → ⊥)
        → IsFirstFailing (HoldsOfOctets (J.holds_of judge) octets) Spelling }
{
    requests_have_one_reading();
}
