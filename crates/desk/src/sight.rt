//! What an account sees.
ghost use Rattle.std.specs.Prelude.{◌≡◌, ◌⊎◌, map, option_map, IfOk, IfErr, MatchResult};
ghost use Rattle.std.specs.Io.KnownBytes.{Keeps};
ghost use Rattle.policy.specs.View.{account_view, policy_view};
ghost use Rattle.book.specs.{Fault.CountsFaults, Fault.IsOfStorage, History.History, Rights.listed, Stands.Stands};
ghost use Rattle.book.specs.{Stands.OnlyLooks, Values.listed_view, Values.stamp_view};
ghost use Rattle.desk.specs.Command.{Show, Token, ListAll};
ghost use Rattle.desk.specs.auxiliary.Obstacles.{fault_with, outcome_with, told_with, token_in};
ghost use Rattle.desk.specs.auxiliary.Obstacles.{IsOfSight, Sees, IsUnseen};
ghost use Rattle.desk.specs.{CallContract.StepsBy, CallContract.no_signer, Calls.settings_view, Outcome.faults_after};
ghost use Rattle.desk.specs.{Shown.shown_as, Shown.listed_as, Viewers.viewer_in};
ghost use Rattle.desk.specs.Fault as sight;

use crate::fault::Fault;
use crate::obstacle::Obstacle;
use crate::settings::Settings;
use book::{Book, Listed, Stamp, StoreFault};
use policy::{Account, Policy};
use std::alloc::Global;
use std::io::Write;
use tsp::write_granted;

/// An account, which the policy file knows with its groups, sees the deposit with a number.
pub(crate) fn see<B: Book + Drop>(
    store: &mut B,
    policy: &Policy,
    account: &str,
    number: u64,
) -> Result<(), Obstacle>
    ensures looks { OnlyLooks B.Standing store.old store.new }
    ensures counted { B.fault_count store.new ≡ faults_after (outcome_with result) (B.fault_count store.old) }
    ensures sees { B.honest store.new → (b : History) → Stands B.Standing b store.old
        → MatchResult result (λ _. Sees (viewer_in (policy_view policy.now) account.now) number b)
        (IsUnseen (viewer_in (policy_view policy.now) account.now) number b) }
    ensures refusals { IfErr result IsOfSight }
{
    let groups = policy.groups_of(account);
    let visible = store
        .visible(number, account, groups.as_slice())
        .map_err(Obstacle::Searching)?;
    if !visible {
        return Err(Obstacle::Denied(Fault::NotHere));
    }
    Ok(())
}

/// All that such an account sees, by number, as long as the output can be flushed.
fn all_seen<B: Book + Drop, W: Write>(
    store: &mut B,
    policy: &Policy,
    account: &str,
    output: &mut W,
) -> Result<Vec<Listed>, StoreFault>
    ensures looks { OnlyLooks B.Standing store.old store.new }
    ensures value { B.honest store.new → (b : History) → Stands B.Standing b store.old
        → IfOk result (λ rows. map listed_view rows.items
        ≡ listed (viewer_in (policy_view policy.now) account.now) b) }
    ensures unwritten { Keeps (W.contents output.old) (W.contents output.new) }
    ensures refusals { IfErr result IsOfStorage }
    ensures faults { CountsFaults result (B.fault_count store.old) (B.fault_count store.new) }
{
    let groups = policy.groups_of(account);
    store.list(account, groups.as_slice(), output)
}

/// The token of a stamp that is found, if it has one.
fn token_in(found: Option<Stamp>) -> Option<Vec<u8>>
    ensures { option_map (λ token. token.items) result ≡ token_in (option_map stamp_view found) }
{
    found?.token
}

/// The octets of a deposit that the account sees.
pub(crate) fn show_to<B: Book + Drop>(
    store: &mut B,
    settings: Settings<'_>,
    account: &Account,
    number: u64,
) -> Result<Vec<u8>, Obstacle>
    ensures looks { OnlyLooks B.Standing store.old store.new }
    ensures step { StepsBy B.Standing no_signer (settings_view settings.entry) (Show (account_view account.now) number)
        (outcome_with result) store.old store.new (told_with shown_as result) }
    ensures refusals { IfErr result (λ obstacle. sight.IsOfSight (fault_with obstacle)) }
{
    let policy = settings.policy;
    see(store, policy, account.name.as_str(), number)?;
    let found = store.deposit(number).map_err(Obstacle::Looking)?;
    let Some(found) = found else {
        return Err(Obstacle::Denied(Fault::NotHere));
    };
    Ok(found.deposit.bytes)
}

/// The granted reply with the token of a deposit that the account sees. The deposit isn't read.
pub(crate) fn token_to<B: Book + Drop>(
    store: &mut B,
    alloc: Global,
    settings: Settings<'_>,
    account: &Account,
    number: u64,
) -> Result<Vec<u8>, Obstacle>
    ensures looks { OnlyLooks B.Standing store.old store.new }
    ensures step { StepsBy B.Standing no_signer (settings_view settings.entry) (Token (account_view account.now) number)
        (outcome_with result) store.old store.new (told_with shown_as result) }
    ensures refusals { IfErr result (λ obstacle. sight.IsOfSight (fault_with obstacle)) }
{
    let policy = settings.policy;
    see(store, policy, account.name.as_str(), number)?;
    let found = store.next_stamp(number, number).map_err(Obstacle::Looking)?;
    let Some(token) = token_in(found) else {
        return Err(Obstacle::Denied(Fault::NotHere));
    };
    let Ok(reply) = write_granted(alloc, &token) else {
        return Err(Obstacle::OutOfMemory);
    };
    Ok(reply)
}

/// All that the account sees, by number, as long as the output can be flushed.
pub(crate) fn list_to<B: Book + Drop, W: Write>(
    store: &mut B,
    settings: Settings<'_>,
    account: &Account,
    output: &mut W,
) -> Result<Vec<Listed>, Obstacle>
    ensures looks { OnlyLooks B.Standing store.old store.new }
    ensures step { StepsBy B.Standing no_signer (settings_view settings.entry) (ListAll (account_view account.now))
        (outcome_with result) store.old store.new (told_with listed_as result) }
    ensures unwritten { Keeps (W.contents output.old) (W.contents output.new) }
    ensures refusals { IfErr result (λ obstacle. (fault_with obstacle ≡ Fault.Memory)
        ⊎ (fault_with obstacle ≡ Fault.Store)) }
{
    let policy = settings.policy;
    all_seen(store, policy, account.name.as_str(), output).map_err(Obstacle::Looking)
}
