//! By what a desk answers.
ghost use Rattle.std.specs.{Prelude.◌≤◌, Prelude.map, List.AllByRecursion};
ghost use Rattle.der.specs.ObjectIdentifier.{IsOid};
ghost use Rattle.policy.specs.View.{tsa_policy_view};
ghost use Rattle.desk.specs.{Calls.settings_view, MachineRuns.IsProper, Succession.HasSubject};

use cms::{Algorithm, Identity};
use policy::{Counter, Policy, TsaPolicy};

/// By what a desk answers: the policy file, and what is in force. The contracts see it as a `Setting`
/// (`settings_view`).
#[derive(Clone, Copy)]
pub struct Settings<'p> {
    /// The policy file.
    pub policy: &'p Policy,
    /// Whose certificate the tokens name.
    pub identity: &'p Identity,
    /// Under which algorithm the tokens are signed, the signer's.
    pub algorithm: &'p Algorithm,
}

/// The accuracy of a policy file is in its range.
fn has_accuracy(counter: &Counter)
    ensures some { 1 ≤ counter.now.accuracy_us }
    ensures most { counter.now.accuracy_us ≤ 1_000_000 }
{
    let _accuracy = counter.accuracy_us;
}

/// The object identifiers of a policy file's policies are such.
fn has_object_identifiers(policies: &[TsaPolicy])
    ensures { AllByRecursion (λ p. IsOid p.oid) (map tsa_policy_view policies.now) }
{
    for policy in policies {
        let _content = policy.oid.content();
    }
}

/// The subject of an identity stands in its certificate, and a TSTInfo has room for it: each identity is such a one. So
/// who asks for a succession in a list of commands meets its condition.
pub fn has_subject(identity: &Identity)
    ensures { HasSubject identity.now }
{
    let _name = identity.name();
}

/// What the laws need of accuracy, object identifiers and the identity, the types of policy and identity keep.
pub(crate) fn is_proper(settings: Settings<'_>)
    ensures { IsProper (settings_view settings.entry) }
{
    let policy = settings.policy;
    has_accuracy(&policy.counter);
    has_object_identifiers(&policy.policies);
    has_subject(settings.identity);
}
