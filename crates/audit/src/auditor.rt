//! Who may have an extract.
ghost use Rattle.std.specs.Prelude.{◌≡◌, ◌↔◌, ◌⊎◌, IsTrue, IfErr, MatchResult};
ghost use Rattle.policy.specs.View.{account_view, policy_view};
ghost use Rattle.audit.specs.{Auditor.IsAuditor, Inquiries.Allows, Inquiries.ComesFor};

use crate::extracts::Inquiry;
use crate::fault::ExtractFault;
use policy::{Account, Policy};

/// Whether an auditor asks, and then whether for a range.
pub(crate) fn allow(inquiry: &Inquiry<'_>) -> Result<(), ExtractFault>
    ensures allowed { MatchResult result (λ _. Allows inquiry.now) (ComesFor inquiry.now) }
    ensures refusals { IfErr result (λ e. (e ≡ ExtractFault.NotAuditor) ⊎ (e ≡ ExtractFault.Range)) }
{
    if !is_auditor(inquiry.policy, inquiry.account) {
        return Err(ExtractFault::NotAuditor);
    }
    if inquiry.from < 1 || inquiry.to < inquiry.from {
        return Err(ExtractFault::Range);
    }
    Ok(())
}

/// Whether the account is one of the file's, the same in all its fields, active, and an auditor.
fn is_auditor(policy: &Policy, account: &Account) -> bool
    ensures { IsTrue result ↔ IsAuditor (policy_view policy.now) (account_view account.now) }
{
    account.active && account.auditor && policy.has_account(account)
}
