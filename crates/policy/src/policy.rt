ghost use Rattle.std.specs.Prelude.{◌≤◌, length};

use crate::accounts::is_among;
use crate::document::from_table;
use crate::entries::{Account, Algorithm, Counter, Extension, Group, TsaPolicy};
use crate::fault::PolicyFault;
use crate::find::{find_by_hash, find_by_name, find_by_oid};
use crate::groups::GroupNames;
use sha2::{Digest, Sha256};
use std::alloc::Global;

/// What a policy file says.
#[derive(Drop)]
pub struct Policy {
    /// How the counter keeps time.
    pub counter: Counter,
    /// The hash algorithms, at most 8, in the file's order.
    pub algorithms: Vec<Algorithm>,
    /// The extensions, at most 32, in the file's order.
    pub extensions: Vec<Extension>,
    /// The TSA policies, at most 16, in the file's order.
    pub policies: Vec<TsaPolicy>,
    /// The accounts, at most 64, in the file's order.
    pub accounts: Vec<Account>,
    /// The groups, at most 16, in the file's order.
    pub groups: Vec<Group>,
    ghost few_groups: { length groups.items ≤ 16 },
}

impl Policy {
    ghost use Rattle.std.specs.Prelude.{◌≡◌, ◌↔◌, Contains, IsTrue, Option, option_map};
    ghost use Rattle.policy.specs.{Answers.AnswersMeaning, LookUp.group_named, LookUp.groups_of};
    ghost use Rattle.policy.specs.{Meaning.meaning_of, View.policy_view};
    ghost use Rattle.policy.specs.View.{algorithm_view, extension_view, tsa_policy_view, account_view, group_view};
    ghost use Rattle.policy.specs.LookUp.{account_named, account_of_key, anonymous_account, policy_named};
    ghost use Rattle.policy.specs.LookUp.{policy_of_oid, default_policy, algorithm_of_oid, extension_of_oid};

    /// What the text of a policy file says, or its first fault: `Toml` where it is no TOML document, then the first of
    /// `Missing`, `BadValue`, `Duplicate`, `UnknownName` and `TooMany` in the order of the tables and of their keys.
    /// `Memory` where memory runs out.
    #[tactic(auto, unfolding(crate::specs::Meaning::meaning_of))]
    pub fn from_text(alloc: Global, text: &str) -> Result<Policy, PolicyFault>
        ensures { AnswersMeaning policy_view result (meaning_of text.now) }
    {
        match toml::table_from_str(alloc, text) {
            Ok(document) => from_table(alloc, &document),
            Err(fault) => {
                if fault.is_memory() {
                    Err(PolicyFault::Memory)
                } else {
                    Err(PolicyFault::Toml)
                }
            }
        }
    }

    /// The account whose key these octets are: its `key_sha256` is their SHA-256. Whether it is active isn't asked.
    /// None where no account has that key. Takes no memory.
    pub fn account_of_key(&self, key: &[u8]) -> Option<&Account>
        ensures { option_map (λ a. account_view a.now) result ≡ account_of_key (policy_view self.now) key.now }
    {
        let hash = Sha256::digest(key);
        find_by_hash(&self.accounts, &hash)
    }

    /// The account of those that show no key, if the file names one. Takes no memory.
    pub fn anonymous(&self) -> Option<&Account>
        ensures { option_map (λ a. account_view a.now) result ≡ anonymous_account (policy_view self.now) }
    {
        match &self.counter.anonymous {
            Some(name) => find_by_name(&self.accounts, name.as_str()),
            None => None,
        }
    }

    /// The account of that name. None where no account has it. Takes no memory.
    pub fn account_named(&self, name: &str) -> Option<&Account>
        ensures { option_map (λ a. account_view a.now) result ≡ account_named (policy_view self.now) name.now }
    {
        find_by_name(&self.accounts, name)
    }

    /// Whether the account is one of the file's, the same in all its fields. Takes no memory.
    pub fn has_account(&self, account: &Account) -> bool
        ensures { IsTrue result ↔ Contains (policy_view self.now).accounts (account_view account.now) }
    {
        is_among(&self.accounts, account)
    }

    /// The policy of that name. None where no policy has it. Takes no memory.
    pub fn policy_named(&self, name: &str) -> Option<&TsaPolicy>
        ensures { option_map (λ p. tsa_policy_view p.now) result ≡ policy_named (policy_view self.now) name.now }
    {
        find_by_name(&self.policies, name)
    }

    /// The policy whose object identifier has these contents octets (X.690 8.19). None where no policy has it. Takes no
    /// memory.
    pub fn policy_of_oid(&self, content: &[u8]) -> Option<&TsaPolicy>
        ensures { option_map (λ p. tsa_policy_view p.now) result ≡ policy_of_oid (policy_view self.now) content.now }
    {
        find_by_oid(&self.policies, content)
    }

    /// The account's default policy: its first. None where it has no policy, or where no policy has that name; neither
    /// is so for an account of a policy file. Takes no memory.
    pub fn default_policy(&self, account: &Account) -> Option<&TsaPolicy>
        ensures { option_map (λ p. tsa_policy_view p.now) result
            ≡ default_policy (policy_view self.now) (account_view account.now) }
    {
        let name = account.policies.first()?;
        self.policy_named(name.as_str())
    }

    /// The hash algorithm whose object identifier has these contents octets (X.690 8.19). None where no algorithm has
    /// it. Takes no memory.
    pub fn algorithm_of_oid(&self, content: &[u8]) -> Option<&Algorithm>
        ensures { option_map (λ a. algorithm_view a.now) result ≡ algorithm_of_oid (policy_view self.now) content.now }
    {
        find_by_oid(&self.algorithms, content)
    }

    /// The extension whose object identifier has these contents octets (X.690 8.19). None where no extension has it.
    /// Takes no memory.
    pub fn extension_of_oid(&self, content: &[u8]) -> Option<&Extension>
        ensures { option_map (λ e. extension_view e.now) result ≡ extension_of_oid (policy_view self.now) content.now }
    {
        find_by_oid(&self.extensions, content)
    }

    /// The group of that name. None where no group has it. Takes no memory.
    pub fn group_named(&self, name: &str) -> Option<&Group>
        ensures { option_map (λ g. group_view g.now) result ≡ group_named (policy_view self.now) name.now }
    {
        find_by_name(&self.groups, name)
    }

    /// The names of the groups that the account of that name is a member of, in the file's order. There are none where
    /// no account has the name. Takes no memory.
    pub fn groups_of(&self, account: &str) -> GroupNames<'_>
        ensures { result ≡ groups_of (policy_view self.now) account.now }
    {
        GroupNames::of(&self.groups, account)
    }
}
