//! Which identity is in force: an opening and a succession install it.
ghost use Rattle.std.specs.Prelude.{◌≡◌, ◌⊎◌, [], ◌∷◌, ℕ, List, Some, map, IfOk, IfErr, OnOk};
ghost use Rattle.book.specs.Identities.{identities, latest_identity, installed_as};
ghost use Rattle.book.specs.{Entries.Appends, Fault.CountsFaults, Fault.IsOfStorage, History.History};
ghost use Rattle.book.specs.{History.Installed, Stands.Stands, Stands.OnlyLooks, Values.identity_view};
ghost use Rattle.desk.specs.CallContract.{StepsBy, IsStep, StandsInForce, no_signer};
ghost use Rattle.desk.specs.Calls.{in_force_of, settings_view, succeeded_as};
ghost use Rattle.desk.specs.auxiliary.Obstacles.{fault_with, outcome_with, told_with};
ghost use Rattle.desk.specs.Succession.{installed_by, is_latest, HasSubject};
ghost use Rattle.desk.specs.{Answers.answered, Command.Setting, Command.Succeed, Shown.done_as};

use crate::desk::Desk;
use crate::fault::Fault;
use crate::laws::steps_keep_their_promises;
use crate::obstacle::Obstacle;
use crate::settings::{Settings, has_subject};
use book::{Book, IdentityRow, StoreFault};
use cms::{Algorithm, Identity};

/// Whether an identity's certificate and chain are those of a row.
fn is_of(row: &IdentityRow, identity: &Identity) -> bool
    ensures { result ≡ is_latest (installed_by identity.now) (Some (installed_as (identity_view row.now))) }
{
    row.certificate.as_slice() == identity.certificate() && row.chain.as_slice() == identity.chain()
}

/// Whether an identity is the one that was installed last, of all that were, by number.
fn is_last(mut rows: Vec<IdentityRow>, identity: &Identity) -> bool
    ensures { (b : History) → map identity_view rows.items ≡ identities b
        → result ≡ is_latest (installed_by identity.now) (latest_identity b) }
{
    match rows.pop() {
        None => false,
        Some(row) => is_of(&row, identity),
    }
}

/// Whether an identity is the one that was installed last.
fn is_installed<B: Book + Drop>(store: &mut B, identity: &Identity) -> Result<bool, StoreFault>
    ensures looks { OnlyLooks B.Standing store.old store.new }
    ensures opened { B.honest store.new → OnOk result (B.is_open store.old) }
    ensures value { B.honest store.new → (b : History) → Stands B.Standing b store.old
        → IfOk result (λ latest. latest ≡ is_latest (installed_by identity.now) (latest_identity b)) }
    ensures refusals { IfErr result IsOfStorage }
    ensures faults { CountsFaults result (B.fault_count store.old) (B.fault_count store.new) }
{
    let rows = store.identities()?;
    Ok(is_last(rows, identity))
}

/// Adds an identity, which is the latest from now on.
fn add<B: Book + Drop>(store: &mut B, identity: &Identity) -> Result<(), StoreFault>
    ensures appends { Appends B.Standing (Installed (installed_by identity.now) ∷ []) store.old store.new result }
    ensures refusals { IfErr result IsOfStorage }
{
    store.install(identity.certificate(), identity.chain())
}

/// Installs an identity, unless it is the one that was installed last.
pub(crate) fn install<B: Book + Drop>(store: &mut B, identity: &Identity) -> Result<(), Obstacle>
    ensures honest { B.honest store.new → B.honest store.old }
    ensures step { (s : Setting) (algorithm : List ℕ) → StepsBy B.Standing no_signer s
        (Succeed (in_force_of identity.now algorithm)) (outcome_with result) store.old store.new
        (told_with done_as result) }
    ensures opened { B.honest store.new → OnOk result (B.is_open store.old) }
    ensures in_force { (algorithm : List ℕ) → B.honest store.new → (b : History) → Stands B.Standing b store.old
        → OnOk result (StandsInForce B.Standing (in_force_of identity.now algorithm) b store.new) }
    ensures refusals { IfErr result (λ obstacle. (fault_with obstacle ≡ Fault.Memory)
        ⊎ (fault_with obstacle ≡ Fault.Store)) }
{
    let latest = is_installed(store, identity).map_err(Obstacle::Looking)?;
    if latest {
        return Ok(());
    }
    add(store, identity).map_err(Obstacle::Adding)
}

/// Brings an identity and an algorithm into force: with what a desk goes on, or why it goes on as before.
pub(crate) fn succeed_by<'p, B: Book + Drop>(
    store: &mut B,
    settings: Settings<'p>,
    identity: &'p Identity,
    algorithm: &'p Algorithm,
) -> Result<Settings<'p>, Obstacle>
    ensures honest { B.honest store.new → B.honest store.old }
    ensures step { (s : Setting) → StepsBy B.Standing no_signer s (Succeed (in_force_of identity.now algorithm.now))
        (outcome_with result) store.old store.new (told_with succeeded_as result) }
    ensures opened { B.honest store.new → OnOk result (B.is_open store.old) }
    ensures in_force { B.honest store.new → (b : History) → Stands B.Standing b store.old
        → OnOk result (StandsInForce B.Standing (in_force_of identity.now algorithm.now) b store.new) }
    ensures brought { IfOk result (λ after. settings_view after
        ≡ record (settings_view settings.entry) { in_force = in_force_of identity.now algorithm.now }) }
    ensures refusals { IfErr result (λ obstacle. (fault_with obstacle ≡ Fault.Memory)
        ⊎ (fault_with obstacle ≡ Fault.Store)) }
{
    install(store, identity)?;
    Ok(Settings {
        identity,
        algorithm,
        ..settings
    })
}

impl<'p, B: Book + Drop> Desk<'p, B> {
    /// Brings another identity and algorithm into force while the desk is open, as `open` does: the identity is
    /// installed, unless it is the one that was installed last. What was begun before keeps its own.
    ///
    /// Refused with `Memory` or `Store`, where it is met: nothing is installed then, and what was in force stays.
    pub fn succeed(&mut self, identity: &'p Identity, algorithm: &'p Algorithm) -> Result<(), Fault>
        ensures honest { B.honest self.new.store → B.honest self.old.store }
        ensures step { IsStep B.Standing no_signer (Succeed (in_force_of identity.now algorithm.now)) self.old self.new
            (answered done_as result) }
        ensures opened { B.honest self.new.store → OnOk result (B.is_open self.old.store) }
        ensures in_force { B.honest self.new.store → (b : History) → Stands B.Standing b self.old.store
            → OnOk result (StandsInForce B.Standing self.new.setting.in_force b self.new.store) }
        ensures met { HasSubject identity.now }
        ensures refusals { IfErr result (λ fault. (fault ≡ Fault.Memory) ⊎ (fault ≡ Fault.Store)) }
    {
        steps_keep_their_promises();
        has_subject(identity);
        let settings = self.settings;
        let settings = succeed_by(&mut self.store, settings, identity, algorithm)?;
        self.settings = settings;
        Ok(())
    }
}
