//! Whether a policy file knows an account.
ghost use Rattle.std.specs.Prelude.{◌↔◌, Some, IsTrue};
ghost use Rattle.policy.specs.View.{account_view, policy_view};
ghost use Rattle.decide.specs.Rules.{IsKnown};

use policy::{Account, Policy};

/// Whether the account is one of the file's, the same in all its fields, and active.
pub(crate) fn is_known(policy: &Policy, account: &Account) -> bool
    ensures { IsTrue result ↔ IsKnown (policy_view policy.now) (Some (account_view account.now)) }
{
    account.active && policy.has_account(account)
}
