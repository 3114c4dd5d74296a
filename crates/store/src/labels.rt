//! What was looked up of the deposits of owners, so that a list goes through those of each owner once.
ghost use Rattle.std.specs.Prelude.{◌≡◌, ◌<◌, List, length, IfOk, IfErr, IfSome, OnOk, HoldsAt};
ghost use Rattle.std.specs.Prelude.{string_bytes};
ghost use Rattle.tables.specs.Queries.{ShowsDepositSerial, ShowsReference, is_owned, is_owned_after};
ghost use Rattle.tables.specs.{Base.IsHonest, Base.IsOpen, Found.IsFoundAs, Found.IsLeastAs, Tables.DepositRow};
ghost use Rattle.book.specs.{History.History, Fault.CountsFaults, Fault.IsOfStorage, Stands.Stands, Stands.OnlyLooks};
ghost use Rattle.store.specs.auxiliary.Steps.{AreLabels, AreOwned};
ghost use Rattle.store.specs.{Stands.over_tables, auxiliary.Replay.replayed};

use crate::store::Store;
use book::StoreFault;
use sqlite::Alter;
use tables::Label;

/// An owner, and all its deposits, by number.
#[derive(Drop)]
pub(crate) struct Owned {
    owner: String,
    labels: Vec<Label>,
}

impl Owned {
    /// The least number after another.
    pub(crate) fn number_after(&self, after: u64) -> Option<u64>
        ensures { (rows : List DepositRow) → AreLabels (string_bytes self.now.owner) rows self.now.labels.items
            → IsLeastAs ShowsDepositSerial (λ row. row.serial) (is_owned_after (string_bytes self.now.owner) after) rows
            result }
    {
        let at = self.labels.partition_point(|label| label.serial <= after);
        if at == self.labels.len() {
            return None;
        }
        Some(self.labels[at].serial)
    }

    /// The reference of the deposit with a number.
    pub(crate) fn reference(&self, number: u64) -> Result<Option<String>, StoreFault>
        ensures value { (rows : List DepositRow) → AreLabels (string_bytes self.now.owner) rows self.now.labels.items
            → IfOk result (IsFoundAs ShowsReference (is_owned number (string_bytes self.now.owner)) rows) }
        ensures memory { IfErr result (λ e. e ≡ StoreFault.Memory) }
    {
        let at = self.labels.partition_point(|label| label.serial < number);
        if at == self.labels.len() {
            return Ok(None);
        }
        if self.labels[at].serial > number {
            return Ok(None);
        }
        match self.labels[at].reference.clone() {
            Ok(reference) => Ok(Some(reference)),
            Err(_) => Err(StoreFault::Memory),
        }
    }
}

impl<S: Alter + Drop> Store<S> {
    /// Looks up the deposits of an owner.
    pub(crate) fn look_up(&mut self, owner: &str, known: &mut Vec<Owned>) -> Result<(), StoreFault>
        ensures looks { OnlyLooks (over_tables S.Store) self.old self.new }
        ensures opened { IsHonest S.Store self.new → OnOk result (IsOpen S.Store self.old) }
        ensures value { IsHonest S.Store self.new → (b : History) → Stands (over_tables S.Store) b self.old
            → AreOwned b known.old.items → OnOk result (AreOwned b known.new.items) }
        ensures place { OnOk result (length known.old.items < length known.new.items
            × HoldsAt (λ owned. string_bytes owned.owner ≡ owner.now) known.new.items (length known.old.items)) }
        ensures refusals { IfErr result IsOfStorage }
        ensures faults { CountsFaults result self.old.faults self.new.faults }
    {
        let labels = self.base.labels(self.alloc, owner)?;
        let Ok(owner) = String::from_str(self.alloc, owner) else {
            return Err(StoreFault::Memory);
        };
        known.push(Owned { owner, labels })?;
        Ok(())
    }

    /// The least number after another of a deposit that the account owns.
    pub(crate) fn next_owned(
        &mut self,
        account: &str,
        after: u64,
        known: &mut Vec<Owned>,
    ) -> Result<Option<u64>, StoreFault>
        ensures looks { OnlyLooks (over_tables S.Store) self.old self.new }
        ensures known { IsHonest S.Store self.new → (b : History) → Stands (over_tables S.Store) b self.old
            → AreOwned b known.old.items → OnOk result (AreOwned b known.new.items) }
        ensures value { IsHonest S.Store self.new → (b : History) → Stands (over_tables S.Store) b self.old
            → AreOwned b known.old.items → IfOk result (IsLeastAs ShowsDepositSerial (λ row. row.serial)
            (is_owned_after account.now after) (replayed b).deposits) }
        ensures refusals { IfErr result IsOfStorage }
        ensures faults { CountsFaults result self.old.faults self.new.faults }
    {
        let place = self.place_of(account, known)?;
        Ok(known[place].number_after(after))
    }

    /// The reference of the deposit with a number, where this account owns it.
    pub(crate) fn reference_of(
        &mut self,
        number: u64,
        owner: &str,
        known: &mut Vec<Owned>,
    ) -> Result<Option<String>, StoreFault>
        ensures looks { OnlyLooks (over_tables S.Store) self.old self.new }
        ensures known { IsHonest S.Store self.new → (b : History) → Stands (over_tables S.Store) b self.old
            → AreOwned b known.old.items → OnOk result (AreOwned b known.new.items) }
        ensures value { IsHonest S.Store self.new → (b : History) → Stands (over_tables S.Store) b self.old
            → AreOwned b known.old.items
            → IfOk result (IsFoundAs ShowsReference (is_owned number owner.now) (replayed b).deposits) }
        ensures refusals { IfErr result IsOfStorage }
        ensures faults { CountsFaults result self.old.faults self.new.faults }
    {
        let place = self.place_of(owner, known)?;
        match known[place].reference(number) {
            Ok(found) => Ok(found),
            Err(fault) => Err(fault),
        }
    }

    /// Where an owner stands among those that are known. Where it doesn't stand there yet, its deposits are looked up.
    fn place_of(&mut self, owner: &str, known: &mut Vec<Owned>) -> Result<usize, StoreFault>
        ensures looks { OnlyLooks (over_tables S.Store) self.old self.new }
        ensures value { IsHonest S.Store self.new → (b : History) → Stands (over_tables S.Store) b self.old
            → AreOwned b known.old.items → OnOk result (AreOwned b known.new.items) }
        ensures place { IfOk result (λ place. place < length known.new.items
            × HoldsAt (λ owned. string_bytes owned.owner ≡ owner.now) known.new.items place) }
        ensures refusals { IfErr result IsOfStorage }
        ensures faults { CountsFaults result self.old.faults self.new.faults }
    {
        if let Some(place) = place_in(known, owner) {
            return Ok(place);
        }
        let place = known.len();
        self.look_up(owner, known)?;
        Ok(place)
    }
}

/// Where an owner stands among those that are known.
#[tactic(auto, using(crate::proofs::LabelRows::at_item))]
fn place_in(known: &[Owned], owner: &str) -> Option<usize>
    ensures { IfSome result (λ place. place < length known.now
        × HoldsAt (λ owned. string_bytes owned.owner ≡ owner.now) known.now place) }
{
    for (place, owned) in known.iter().enumerate() {
        if owned.owner.as_str() == owner {
            return Some(place);
        }
    }
    None
}
