//! Who gives and takes rights.
ghost use Rattle.std.specs.Prelude.{◌≡◌, None, IfErr, MatchResult};
ghost use Rattle.policy.specs.View.{account_view, policy_view};
ghost use Rattle.book.specs.{Entries.entry_view, Entries.reader_view, History.History, Stands.Stands, Stands.OnlyLooks};
ghost use Rattle.desk.specs.auxiliary.Obstacles.{fault_with, outcome_with, told_with, IsOfRight, IsOpposed};
ghost use Rattle.desk.specs.{Asked.right_command, Asked.right_entry, CallContract.StepsBy, CallContract.no_signer};
ghost use Rattle.desk.specs.{Effects.has_account, Effects.has_group, Effects.objection, auxiliary.Obstacles.MayName};
ghost use Rattle.desk.specs.{auxiliary.Obstacles.MayNot, Calls.settings_view, Outcome.faults_after, Shown.done_as};
ghost use Rattle.desk.specs.Fault as refused;

use crate::fault::Fault;
use crate::obstacle::Obstacle;
use crate::settings::Settings;
use crate::sight::see;
use book::{Book, Entry, Reader};
use policy::{Account, Policy};

/// What an account does with a reader's right to see a deposit.
#[derive(Clone, Copy)]
pub enum Change {
    /// It gives the right.
    Give,
    /// It takes the right away.
    Take,
}

impl Change {
    /// The entry that does so.
    fn entry(self, number: u64, reader: Reader<'_>) -> Entry<'_>
        ensures { entry_view result ≡ right_entry self number (reader_view reader.entry) }
    {
        match self {
            Change::Give => Entry::Granted { number, reader },
            Change::Take => Entry::Revoked { number, reader },
        }
    }
}

/// Whether the policy file has an account of that name, active or not.
fn is_known(policy: &Policy, name: &str) -> bool
    ensures { result ≡ has_account (policy_view policy.now) name.now }
{
    policy.account_named(name).is_some()
}

/// Whether it has a group of that name.
fn is_group(policy: &Policy, name: &str) -> bool
    ensures { result ≡ has_group (policy_view policy.now) name.now }
{
    policy.group_named(name).is_some()
}

/// Whether the owner of a deposit may give a reader the right to see it: another account, or a group.
fn may_read(policy: &Policy, owner: &str, reader: Reader<'_>) -> Result<(), Obstacle>
    ensures may { MatchResult result
        (λ _. objection (policy_view policy.now) owner.now (reader_view reader.entry) ≡ None)
        (IsOpposed (policy_view policy.now) owner.now (reader_view reader.entry)) }
    ensures refusals { IfErr result (IsOfRight (reader_view reader.entry)) }
{
    match reader {
        Reader::Account(name) => {
            if !is_known(policy, name) {
                return Err(Obstacle::Denied(Fault::UnknownReader));
            }
            if name == owner {
                return Err(Obstacle::Denied(Fault::SelfGrant));
            }
        }
        Reader::Group(name) => {
            if !is_group(policy, name) {
                return Err(Obstacle::Denied(Fault::UnknownGroup));
            }
        }
    }
    Ok(())
}

/// Whether an account may give a reader the right to see a deposit, and take it: the owner may, for another account and
/// for a group.
fn may_name<B: Book + Drop>(
    store: &mut B,
    policy: &Policy,
    account: &str,
    number: u64,
    reader: Reader<'_>,
) -> Result<(), Obstacle>
    ensures looks { OnlyLooks B.Standing store.old store.new }
    ensures counted { B.fault_count store.new ≡ faults_after (outcome_with result) (B.fault_count store.old) }
    ensures may { B.honest store.new → (b : History) → Stands B.Standing b store.old
        → MatchResult result (λ _. MayName (policy_view policy.now) account.now (reader_view reader.entry) number b)
        (MayNot (policy_view policy.now) account.now (reader_view reader.entry) number b) }
    ensures refusals { IfErr result (IsOfRight (reader_view reader.entry)) }
{
    see(store, policy, account, number)?;
    let owns = store.is_owner(number, account).map_err(Obstacle::Looking)?;
    if !owns {
        return Err(Obstacle::Denied(Fault::NotOwner));
    }
    may_read(policy, account, reader)
}

/// Gives a reader the right to see a deposit, or takes it, from now on.
pub(crate) fn change_by<B: Book + Drop>(
    store: &mut B,
    settings: Settings<'_>,
    account: &Account,
    number: u64,
    reader: Reader<'_>,
    change: Change,
) -> Result<(), Obstacle>
    ensures honest { B.honest store.new → B.honest store.old }
    ensures step { StepsBy B.Standing no_signer (settings_view settings.entry)
        (right_command change (account_view account.now) number (reader_view reader.entry)) (outcome_with result)
        store.old store.new (told_with done_as result) }
    ensures refusals { IfErr result (λ obstacle. refused.IsOfRight (reader_view reader.entry) (fault_with obstacle)) }
{
    let policy = settings.policy;
    may_name(store, policy, account.name.as_str(), number, reader)?;
    store
        .append(&[change.entry(number, reader)])
        .map_err(Obstacle::Adding)
}
