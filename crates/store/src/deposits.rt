//! Deposits and rights: who reads a deposit, and what a list shows of one.
ghost use Rattle.std.specs.Prelude.{◌≡◌, map, option_map, IfOk, IfErr, OnOk};
ghost use Rattle.std.specs.Prelude.{◌++◌, option_to_list};
ghost use Rattle.tables.specs.Base.{IsHonest, IsOpen};
ghost use Rattle.book.specs.Fault.{CountsFaults, IsOfStorage};
ghost use Rattle.book.specs.{History.History, Entries.reader_view, Rights.is_reader, Rights.may_read};
ghost use Rattle.book.specs.{Values.listed_view, Values.viewer_of, Stands.Stands, Stands.OnlyLooks};
ghost use Rattle.store.specs.{Stands.over_tables, auxiliary.Steps.listing_at, auxiliary.Steps.AreOwned};

use crate::labels::Owned;
use crate::store::Store;
use book::{Listed, Reader, StoreFault};
use sqlite::Alter;

impl<S: Alter + Drop> Store<S> {
    /// Whether the account reads the deposit with a number, by its own name or in one of the groups.
    pub(crate) fn may_read(
        &mut self,
        number: u64,
        account: &str,
        groups: &[&str],
    ) -> Result<bool, StoreFault>
        ensures looks { OnlyLooks (over_tables S.Store) self.old self.new }
        ensures opened { IsHonest S.Store self.new → OnOk result (IsOpen S.Store self.old) }
        ensures value { IsHonest S.Store self.new → (b : History) → Stands (over_tables S.Store) b self.old
            → IfOk result (λ reads.
            reads ≡ may_read (viewer_of account.now (map (λ name. name.now) groups.now)) number b) }
        ensures refusals { IfErr result IsOfStorage }
        ensures faults { CountsFaults result self.old.faults self.new.faults }
    {
        let reads = self.is_reader(number, Reader::Account(account))?;
        if reads {
            return Ok(true);
        }
        for name in groups {
            let reads = self.is_reader(number, Reader::Group(name))?;
            if reads {
                return Ok(true);
            }
        }
        Ok(false)
    }

    /// Whether the reader reads the deposit with a number.
    fn is_reader(&mut self, number: u64, reader: Reader<'_>) -> Result<bool, StoreFault>
        ensures looks { OnlyLooks (over_tables S.Store) self.old self.new }
        ensures opened { IsHonest S.Store self.new → OnOk result (IsOpen S.Store self.old) }
        ensures value { IsHonest S.Store self.new → (b : History) → Stands (over_tables S.Store) b self.old
            → IfOk result (λ reads. reads ≡ is_reader number (reader_view reader.entry) b) }
        ensures refusals { IfErr result IsOfStorage }
        ensures faults { CountsFaults result self.old.faults self.new.faults }
    {
        let reads = self.base.is_reader(number, reader)?;
        Ok(reads)
    }

    /// What a list shows of a deposit.
    pub(crate) fn listing(
        &mut self,
        number: u64,
        known: &mut Vec<Owned>,
    ) -> Result<Option<Listed>, StoreFault>
        ensures looks { OnlyLooks (over_tables S.Store) self.old self.new }
        ensures known { IsHonest S.Store self.new → (b : History) → Stands (over_tables S.Store) b self.old
            → AreOwned b known.old.items → OnOk result (AreOwned b known.new.items) }
        ensures value { IsHonest S.Store self.new → (b : History) → Stands (over_tables S.Store) b self.old
            → AreOwned b known.old.items → IfOk result (λ found. option_map listed_view found ≡ listing_at number b) }
        ensures refusals { IfErr result IsOfStorage }
        ensures faults { CountsFaults result self.old.faults self.new.faults }
    {
        let Some(origin) = self.base.origin(number)? else {
            return Ok(None);
        };
        let Some(reference) = self.reference_of(number, &origin.account, known)? else {
            return Ok(None);
        };
        Ok(Some(Listed {
            number,
            owner: origin.account,
            reference,
            gen_time: origin.gen_time,
        }))
    }
}

/// Adds a row, if there is one.
pub(crate) fn add_listed(rows: &mut Vec<Listed>, row: Option<Listed>) -> Result<(), StoreFault>
    ensures added { OnOk result (map listed_view rows.new.items ≡ map listed_view rows.old.items
        ++ option_to_list (option_map listed_view row)) }
    ensures memory { IfErr result (λ e. e ≡ StoreFault.Memory) }
{
    if let Some(row) = row {
        rows.push(row)?;
    }
    Ok(())
}
