//! The rules that speak of a request and of hash algorithms alone.
ghost use Rattle.std.specs.Prelude.{◌↔◌, IsTrue, MatchOption};
ghost use Rattle.tsp.specs.{Rules.HasKnownAlgorithm, Rules.HasAlgorithmLength, Rules.IsFirstFailing, View.request_view};
ghost use Rattle.console.specs.{Known.five_algorithms, Tst.HoldsOf};

use crate::known::{has_known_length, is_known};
use der::oids_have_one_content_and_text;
use tsp::{Request, Rule};

/// The first rule that the request fails; none where it fails no rule.
pub fn first_failing(request: &Request<'_>) -> Option<Rule>
    ensures { MatchOption result ((rule : Rule) → HoldsOf (request_view request.now) rule)
        (λ rule. IsFirstFailing (HoldsOf (request_view request.now)) rule) }
{
    if !request.has_version_one() {
        return Some(Rule::Version);
    }
    if !has_known_algorithm(request) {
        return Some(Rule::Algorithm);
    }
    if !has_algorithm_length(request) {
        return Some(Rule::HashLength);
    }
    None
}

fn has_known_algorithm(request: &Request<'_>) -> bool
    ensures { IsTrue result ↔ HasKnownAlgorithm five_algorithms (request_view request.now) }
{
    oids_have_one_content_and_text();
    is_known(request.algorithm()) && request.has_plain_parameters()
}

fn has_algorithm_length(request: &Request<'_>) -> bool
    ensures { IsTrue result ↔ HasAlgorithmLength five_algorithms (request_view request.now) }
{
    oids_have_one_content_and_text();
    has_known_length(request.algorithm(), request.hash())
}
