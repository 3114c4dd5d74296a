//! The rules, each judged by itself.
ghost use Rattle.std.specs.Prelude.{◌≡◌, ◌↔◌, ◌==◌, ◌||◌, ◌&&◌, not, false, Some, option_map, map, string_bytes};
ghost use Rattle.std.specs.{Prelude.IsTrue, Prelude.MatchOption, List.list_all, List.list_any, Str.bytes_eq};
ghost use Rattle.der.specs.ObjectIdentifier.{oid_content};
ghost use Rattle.policy.specs.{Kinds.is_among, View.policy_view, View.account_view};
ghost use Rattle.tsp.specs.{Rules.HasKnownAlgorithm, Rules.HasAlgorithmLength, View.extension_view, View.request_view};
ghost use Rattle.decide.specs.Rules.{algorithms_of, policy_asked, IsAccepted, AllowsAlgorithm, AllowsExtensions};
ghost use Rattle.decide.specs.{Rules.GivesCertificate, Rules.IsWithinQuota, auxiliary.Tests.stand_once};
ghost use Rattle.decide.specs.auxiliary.Tests.{lists_algorithm, knows_extension, knows_extensions, stands_once};

use der::{Oid, oids_have_one_content_and_text};
use policy::{Account, Algorithm, Extension as KnownExtension, Policy, TsaPolicy};
use tsp::{Extension, Extensions, Request};

/// Whether an algorithm of the file has the request's identifier, with plain parameters.
pub(crate) fn has_known_algorithm(policy: &Policy, request: &Request<'_>) -> bool
    ensures { IsTrue result ↔ HasKnownAlgorithm (algorithms_of (policy_view policy.now)) (request_view request.now) }
{
    oids_have_one_content_and_text();
    policy.algorithm_of_oid(request.algorithm()).is_some() && request.has_plain_parameters()
}

/// Whether the hash has the length of each algorithm of the file with the request's identifier.
pub(crate) fn has_algorithm_length(policy: &Policy, request: &Request<'_>) -> bool
    ensures { IsTrue result ↔ HasAlgorithmLength (algorithms_of (policy_view policy.now)) (request_view request.now) }
{
    oids_have_one_content_and_text();
    have_length(
        &policy.algorithms,
        request.algorithm(),
        request.hash().len(),
    )
}

/// Whether each algorithm with this identifier has that length.
fn have_length(algorithms: &[Algorithm], identifier: &[u8], length: usize) -> bool
    ensures { result ≡ list_all (λ a. not (bytes_eq (oid_content a.oid) identifier.now)
        || (a.length == length)) algorithms.now }
{
    algorithms.iter().all(|a| a.oid.content() != identifier || usize::from(a.length) == length)
}

/// Whether a name is in a list.
fn has_name(names: &[String], name: &str) -> bool
    ensures { result ≡ is_among (map string_bytes names.now) name.now }
{
    names.iter().any(|other| other.as_str() == name)
}

/// The policy that is asked for, by the contents octets of its object identifier: the request's, and else the account's
/// default.
fn policy_asked<'a>(
    policy: &'a Policy,
    account: &Account,
    request: &Request<'a>,
) -> Option<&'a [u8]>
    ensures { option_map (λ content. content.now) result
        ≡ option_map oid_content (policy_asked (policy_view policy.now) (Some (account_view account.now))
        (request_view request.now)) }
{
    match request.policy() {
        Some(content) => Some(content),
        None => Some(policy.default_policy(account)?.oid.content()),
    }
}

/// The policy that is asked for, where it is one of the account's.
pub(crate) fn accepted_policy<'p>(
    policy: &'p Policy,
    account: &Account,
    request: &Request<'_>,
) -> Option<&'p Oid>
    ensures { MatchOption result
        (IsAccepted (policy_view policy.now) (Some (account_view account.now))
        (policy_asked (policy_view policy.now) (Some (account_view account.now)) (request_view request.now)) → ⊥)
        (λ oid. IsAccepted (policy_view policy.now) (Some (account_view account.now)) (Some oid.now)
        × (policy_asked (policy_view policy.now) (Some (account_view account.now)) (request_view request.now)
        ≡ Some oid.now)) }
{
    oids_have_one_content_and_text();
    let content = policy_asked(policy, account, request)?;
    let tsa_policy = policy.policy_of_oid(content)?;
    if is_accepted(&policy.policies, &account.policies, content) {
        Some(&tsa_policy.oid)
    } else {
        None
    }
}

/// Whether a policy with that object identifier has one of the names.
fn is_accepted(policies: &[TsaPolicy], names: &[String], content: &[u8]) -> bool
    ensures { result ≡ list_any (λ p. bytes_eq (oid_content p.oid) content.now
        && is_among (map string_bytes names.now) (string_bytes p.name))
        policies.now }
{
    policies.iter().any(|p| p.oid.content() == content && has_name(names, p.name.as_str()))
}

/// Whether the policy allows the request's algorithm.
pub(crate) fn allows_algorithm(policy: &Policy, oid: &Oid, request: &Request<'_>) -> bool
    ensures { IsTrue result ↔ AllowsAlgorithm (policy_view policy.now) (Some oid.now) (request_view request.now) }
{
    oids_have_one_content_and_text();
    is_listed(policy, oid.content(), request.algorithm())
}

/// Whether a policy with that object identifier lists an algorithm with this one.
fn is_listed(policy: &Policy, content: &[u8], identifier: &[u8]) -> bool
    ensures { result ≡ list_any (λ p. bytes_eq (oid_content p.oid) content.now
        && lists_algorithm policy.now.algorithms.items identifier.now p)
        policy.now.policies.items }
{
    policy.policies.iter().any(|p| {
        p.oid.content() == content && lists_algorithm(&policy.algorithms, identifier, p)
    })
}

/// Whether a policy lists an algorithm with this identifier.
fn lists_algorithm(algorithms: &[Algorithm], identifier: &[u8], tsa_policy: &TsaPolicy) -> bool
    ensures { result ≡ lists_algorithm algorithms.now identifier.now tsa_policy.now }
{
    algorithms.iter().any(|a| {
        a.oid.content() == identifier && has_name(&tsa_policy.algorithms, a.name.as_str())
    })
}

/// Whether there are no extensions, or the policy knows each and none stands twice.
pub(crate) fn allows_extensions(policy: &Policy, oid: &Oid, request: &Request<'_>) -> bool
    ensures { IsTrue result ↔ AllowsExtensions (policy_view policy.now) (Some oid.now) (request_view request.now) }
{
    oids_have_one_content_and_text();
    let extensions = request.extensions();
    extensions.is_empty()
        || (are_known(policy, oid.content(), &extensions)
            && stand_once(&policy.extensions, &extensions))
}

/// Whether a policy with that object identifier knows each extension.
fn are_known(policy: &Policy, content: &[u8], extensions: &Extensions<'_>) -> bool
    ensures { result ≡ list_any (λ p. bytes_eq (oid_content p.oid) content.now
        && knows_extensions policy.now.extensions.items p extensions.now)
        policy.now.policies.items }
{
    policy.policies.iter().any(|p| {
        p.oid.content() == content && knows_extensions(&policy.extensions, p, extensions)
    })
}

/// Whether a policy knows each extension.
fn knows_extensions(
    known: &[KnownExtension],
    tsa_policy: &TsaPolicy,
    extensions: &Extensions<'_>,
) -> bool
    ensures { result ≡ knows_extensions known.now tsa_policy.now extensions.now }
{
    extensions
        .again()
        .all(|extension| knows_extension(known, tsa_policy, &extension))
}

/// Whether a policy lists a known extension with this identifier, and its value isn't too long.
fn knows_extension(
    known: &[KnownExtension],
    tsa_policy: &TsaPolicy,
    extension: &Extension<'_>,
) -> bool
    ensures { result ≡ knows_extension known.now tsa_policy.now (extension_view extension.now) }
{
    known.iter().any(|x| {
        x.oid.content() == extension.identifier.content()
            && has_name(&tsa_policy.extensions, x.name.as_str())
            && extension.value.len() <= usize::from(x.max_length)
    })
}

/// Whether each known identifier stands once at most. Where each extension is known, none stands twice then; so the
/// work grows as the number of extensions times that of the known ones, which the policy file bounds.
fn stand_once(known: &[KnownExtension], extensions: &Extensions<'_>) -> bool
    ensures { result ≡ stand_once known.now extensions.now }
{
    known
        .iter()
        .all(|x| stands_once(x.oid.content(), extensions))
}

/// Whether one extension at most has this identifier.
fn stands_once(identifier: &[u8], extensions: &Extensions<'_>) -> bool
    ensures { result ≡ stands_once identifier.now false extensions.now }
{
    let mut seen = false;
    for extension in extensions.again() {
        let here = extension.identifier.content() == identifier;
        if seen && here {
            return false;
        }
        seen = seen || here;
    }
    true
}

/// Whether the certificate isn't asked for, or the policy gives it out.
pub(crate) fn gives_certificate(policy: &Policy, oid: &Oid, request: &Request<'_>) -> bool
    ensures { IsTrue result ↔ GivesCertificate (policy_view policy.now) (Some oid.now) (request_view request.now) }
{
    oids_have_one_content_and_text();
    !request.cert_req() || is_given_out(&policy.policies, oid.content())
}

/// Whether a policy with that object identifier gives the certificate out.
fn is_given_out(policies: &[TsaPolicy], content: &[u8]) -> bool
    ensures { result ≡ list_any (λ p. bytes_eq (oid_content p.oid) content.now && p.certificate) policies.now }
{
    policies
        .iter()
        .any(|p| p.oid.content() == content && p.certificate)
}

/// Whether the account has had fewer reservations on the day than its quota.
pub(crate) fn is_within_quota(account: Option<&Account>, count: u64) -> bool
    ensures { IsTrue result ↔ IsWithinQuota (option_map (λ a. account_view a.now) account.entry) count }
{
    match account {
        None => true,
        Some(account) => count < u64::from(account.daily_quota),
    }
}
