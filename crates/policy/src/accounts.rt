//! Accounts that are the same.
ghost use Rattle.std.specs.Prelude.{◌≡◌, ◌↔◌, Contains, IsTrue, map, string_bytes};
ghost use Rattle.policy.specs.View.{account_view};

use crate::entries::Account;

/// Whether an account is among others.
pub(crate) fn is_among(accounts: &[Account], account: &Account) -> bool
    ensures { IsTrue result ↔ Contains (map account_view accounts.now) (account_view account.now) }
{
    accounts.iter().any(|other| is_same(other, account))
}

/// Whether two accounts are the same in all their fields.
fn is_same(one: &Account, other: &Account) -> bool
    ensures { IsTrue result ↔ (account_view one.now ≡ account_view other.now) }
{
    one.name.as_str() == other.name.as_str()
        && are_same_keys(&one.key_sha256, &other.key_sha256)
        && one.active == other.active
        && one.auditor == other.auditor
        && one.operator == other.operator
        && are_same_names(&one.policies, &other.policies)
        && one.daily_quota == other.daily_quota
}

/// Whether two key hashes are the same, or both absent.
fn are_same_keys(one: &Option<[u8; 32]>, other: &Option<[u8; 32]>) -> bool
    ensures { IsTrue result ↔ (one.now ≡ other.now) }
{
    one == other
}

/// Whether two lists have the same names in the same order.
fn are_same_names(one: &[String], other: &[String]) -> bool
    ensures { IsTrue result ↔ (map string_bytes one.now ≡ map string_bytes other.now) }
{
    one == other
}
