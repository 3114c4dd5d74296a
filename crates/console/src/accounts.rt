//! Who asks.
ghost use Rattle.std.specs.Prelude.{◌≡◌, ◌≢◌, None, Some, option_map, IfOk, IfErr, OnOk};
ghost use Rattle.policy.specs.{LookUp.account_named, View.account_view, View.policy_view};
ghost use Rattle.console.specs.Accounts.{IsKnown, account_shown};

use crate::fault::InputFault;
use policy::{Account, Policy};

/// The account that has the key; without a key the one of those that show none, where the file names one. `Unknown`
/// where no account has the key.
pub fn account_of<'a>(
    policy: &'a Policy,
    key: Option<&str>,
) -> Result<Option<&'a Account>, InputFault>
    ensures found { IfOk result (λ account. option_map (λ a. account_view a.now) account
        ≡ account_shown (policy_view policy.now) key.entry) }
    ensures none { IfErr result (λ fault. (fault ≡ InputFault.Unknown)
        × (key.entry ≢ None) × (account_shown (policy_view policy.now) key.entry ≡ None)) }
    ensures known { OnOk result (IsKnown (policy_view policy.now) key.entry) }
{
    let Some(key) = key else {
        return Ok(policy.anonymous());
    };
    match policy.account_of_key(key.as_bytes()) {
        Some(account) => Ok(Some(account)),
        None => Err(InputFault::Unknown),
    }
}

/// The account of that name. `Unknown` where there is none.
pub fn account_named<'a>(policy: &'a Policy, name: &str) -> Result<&'a Account, InputFault>
    ensures found { IfOk result (λ account. account_named (policy_view policy.now) name.now
        ≡ Some (account_view account.now)) }
    ensures none { IfErr result (λ fault. (fault ≡ InputFault.Unknown)
        × (account_named (policy_view policy.now) name.now ≡ None)) }
{
    policy.account_named(name).ok_or(InputFault::Unknown)
}
