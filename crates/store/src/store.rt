//! The store: a book that is kept in tables.
ghost use Rattle.std.specs.Prelude.{◌≡◌, false, option_map};
ghost use Rattle.sqlite_trees.specs.Tree.{Trees};
ghost use Rattle.tables.specs.Base.{IsHonest, IsOpen, Keeps, Recovers, IsStored};
ghost use Rattle.book.specs.Values.{calibration_option};
ghost use Rattle.store.specs.auxiliary.Steps.{last_from, calibration_from, count_of};
ghost use Rattle.store.specs.TablesOf.{tables_of};

use crate::cursors::Cursors;
use crate::deposits::add_listed;
use crate::ranges::only_within;
use book::{
    Book, Calibration, Deposit, Entry, GREATEST_NUMBER, Hold, IdentityRow, Last, Listed, Stamp,
    StampedDeposit, Standing, StoreFault,
};
use sqlite::{Alter, Connection};
use std::alloc::Global;
use std::io::Write;
use std::marker::Model;
use tables::{Base, ColumnNumber, LastStamp, NumberedCalibration};

/// The history of what the counter accepted, kept in tables. Entries that are added together are one commit.
///
/// A call refused with `Memory` or `Database` changes nothing that the store shows, and `faults` counts exactly the
/// refusals with `Database`. After a fault the database may be shut; each later call is then refused, and where the
/// fault came in the commit itself, a later opening may find the change.
#[derive(Drop)]
pub struct Store<S: Alter + Drop> {
    pub(crate) base: Base<S>,
    pub(crate) alloc: Global,
}

impl<S: Alter + Drop> Model for Store<S> {
    ghost use Rattle.tables.specs.Base.{BaseValue, base_code};

    ghost Value = { BaseValue S };

    ghost coded = { base_code S.code };

    ghost view = { λ store. store.base };

    ghost invariant = { λ store. Unit {0} };
}

impl<S: Alter + Drop> Standing for Store<S> {
    ghost honest = { IsHonest S.Store };

    ghost is_open = { IsOpen S.Store };

    ghost keeps = { λ store b. Keeps S.Store (tables_of b) store };

    ghost Left = { Trees };

    ghost leaves = { Recovers S.Store };

    ghost holds = { λ db b. IsStored (tables_of b) db };

    ghost fault_count = { λ store. store.faults };
}

impl<S: Alter + Drop> Book for Store<S> {
    fn last(&mut self) -> Result<Last, StoreFault> {
        let stamp = self.base.greatest_stamp()?;
        Ok(last_from(stamp))
    }

    fn count_of_day(&mut self, account: &str, day: u64) -> Result<u64, StoreFault> {
        // No genTime is on so late a day, and no column can have a later one.
        let count = self.base.tally(account, ColumnNumber::at_most(day))?;
        Ok(count.unwrap_or(0))
    }

    fn calibration(&mut self) -> Result<Option<Calibration>, StoreFault> {
        let latest = self.base.latest_calibration()?;
        Ok(calibration_from(latest))
    }

    fn held_at(&mut self, now: i64) -> Result<bool, StoreFault> {
        let held = self.base.held_at(now)?;
        Ok(held)
    }

    fn deposit(&mut self, number: u64) -> Result<Option<StampedDeposit>, StoreFault> {
        if number > GREATEST_NUMBER {
            return Ok(None);
        }
        let Some(deposit) = self.base.deposit(number)? else {
            return Ok(None);
        };
        let Some(stamp) = self.base.stamp(number)? else {
            return Ok(None);
        };
        Ok(Some(StampedDeposit { deposit, stamp }))
    }

    fn visible(&mut self, number: u64, account: &str, groups: &[&str]) -> Result<bool, StoreFault> {
        if number > GREATEST_NUMBER {
            return Ok(false);
        }
        let reads = self.may_read(number, account, groups)?;
        if reads {
            return Ok(true);
        }
        self.is_owner(number, account)
    }

    fn is_owner(&mut self, number: u64, account: &str) -> Result<bool, StoreFault> {
        if number > GREATEST_NUMBER {
            return Ok(false);
        }
        let owns = self.base.is_owner(number, account)?;
        Ok(owns)
    }

    fn by_reference(
        &mut self,
        owner: &str,
        reference: &str,
    ) -> Result<Option<Deposit>, StoreFault> {
        let found = self.base.deposit_under(owner, reference)?;
        Ok(found)
    }

    fn list<W: Write>(
        &mut self,
        account: &str,
        groups: &[&str],
        output: &mut W,
    ) -> Result<Vec<Listed>, StoreFault> {
        let mut rows = Vec::new(self.alloc);
        let mut cursors = Cursors::new(self.alloc, groups.len())?;
        let mut known = Vec::new(self.alloc);
        self.look_up(account, &mut known)?;
        let mut last = 0;
        while let Some(number) = self.next_seen(account, groups, last, &mut cursors, &mut known)? {
            if output.flush().is_err() {
                return Err(StoreFault::Memory);
            }
            let row = self.listing(number, &mut known)?;
            add_listed(&mut rows, row)?;
            last = number;
        }
        Ok(rows)
    }

    fn calibration_count(&mut self) -> Result<u64, StoreFault> {
        let latest = self.base.latest_calibration()?;
        Ok(number_of(latest))
    }

    fn hold_count(&mut self) -> Result<u64, StoreFault> {
        let greatest = self.base.greatest_hold()?;
        Ok(greatest.unwrap_or(0))
    }

    fn append(&mut self, entries: &[Entry<'_>]) -> Result<(), StoreFault> {
        match self.base.commit(entries) {
            Ok(()) => Ok(()),
            Err(fault) => Err(StoreFault::from(fault)),
        }
    }

    fn tell_the_same(&self) {}

    fn identities(&mut self) -> Result<Vec<IdentityRow>, StoreFault> {
        self.all()
    }

    fn calibrations(&mut self) -> Result<Vec<Calibration>, StoreFault> {
        self.all()
    }

    fn holds(&mut self) -> Result<Vec<Hold>, StoreFault> {
        self.all()
    }

    fn next_stamp(&mut self, from: u64, to: u64) -> Result<Option<Stamp>, StoreFault> {
        let last = ColumnNumber::at_most(to);
        if from > last.value {
            return Ok(None);
        }
        let first = ColumnNumber::at_most(from);
        let found = self.base.next_stamp(first, last)?;
        Ok(only_within(found, from, last.value))
    }

    fn faults(&self) -> u64 {
        self.base.faults()
    }
}

impl<S: Alter + Drop> Store<S> {
    /// The connection. Takes no memory.
    pub fn into_connection(self) -> Connection<S>
        ensures same { result ≡ self.conn }
        ensures closed { result.in_transaction ≡ false }
    {
        self.base.into_connection()
    }
}

fn last_from(stamp: Option<LastStamp>) -> Last
    ensures { result ≡ last_from stamp }
{
    match stamp {
        Some(stamp) => Last {
            serial: stamp.serial,
            gen_time: Some(stamp.gen_time),
        },
        None => Last {
            serial: 0,
            gen_time: None,
        },
    }
}

pub(crate) fn calibration_from(found: Option<NumberedCalibration>) -> Option<Calibration>
    ensures { calibration_option result ≡ option_map calibration_from found }
{
    match found {
        Some(row) => Some(Calibration {
            reading: row.reading,
            offset: row.offset,
            uncertainty: row.uncertainty,
        }),
        None => None,
    }
}

/// Calibrations are numbered from 1 on, so the latest one's number is how many there are.
fn number_of(latest: Option<NumberedCalibration>) -> u64
    ensures { result ≡ count_of (option_map (λ row. row.n) latest) }
{
    match latest {
        Some(row) => row.n,
        None => 0,
    }
}
