//! The table of deposits: the statement that adds one, inside a transaction, and the look-ups.

ghost use Rattle.std.specs.{List.list_any, Prelude.◌≡◌, Prelude.map};
ghost use Rattle.sqlite.specs.Held.{state};
ghost use Rattle.book.specs.Values.{deposit_of};
ghost use Rattle.tables.specs.Queries.{LooksUp, ShowsDeposit, label_of, label_view, is_owned, is_owned_by};
ghost use Rattle.tables.specs.Tables.{with_deposit, is_deposit, is_deposit_of};
ghost use Rattle.tables.specs.{Found.IsFoundAs, Found.AreFoundAs, Transaction.Carries};

use crate::base::Base;
use crate::fault::TableFault;
use crate::queries::{FromRow, number, octets, text};
use crate::rows::{Label, column};
use book::Deposit;
use sqlite::types::ValueRef;
use sqlite::{Alter, Error, Row, Transaction};
use std::alloc::Global;

const INSERT_DEPOSIT: &str =
    "INSERT INTO deposit (serial, owner, reference, bytes) VALUES (?1, ?2, ?3, ?4)";

const DEPOSIT: &str = "SELECT serial, owner, reference, bytes FROM deposit WHERE serial = ?1";

const DEPOSIT_UNDER: &str =
    "SELECT serial, owner, reference, bytes FROM deposit WHERE owner = ?1 AND reference = ?2";

// The rows of the index on owner and reference have all that this shows, and no bytes.
const LABELS: &str = "SELECT serial, reference FROM deposit WHERE owner = ?1 ORDER BY serial";

// `serial = ?1` would fetch the row by its number, with its bytes. By `IS` the rows of that index do.
const IS_OWNER: &str = "SELECT serial FROM deposit WHERE serial IS ?1 AND owner = ?2";

pub(crate) fn put_deposit<S: Alter>(
    tx: &mut Transaction<'_, S>,
    serial: u64,
    owner: &str,
    reference: &str,
    bytes: &[u8],
) -> Result<usize, Error>
    ensures same_reference { tx.new.conn.ghost_name ≡ tx.old.conn.ghost_name }
    ensures carries { Carries
        (with_deposit (deposit_of serial owner.now reference.now bytes.now))
        (state S.Store tx.old.conn.now) (state S.Store tx.new.conn.now) result }
{
    let serial = column(serial)?;
    tx.execute(
        INSERT_DEPOSIT,
        &[
            serial,
            ValueRef::Text(owner.as_bytes()),
            ValueRef::Text(reference.as_bytes()),
            ValueRef::Blob(bytes),
        ],
    )
}

impl FromRow for Deposit {
    ghost use Rattle.std.specs.Prelude.{◌≡◌};
    ghost use Rattle.tables.specs.{Queries.deposit_view, auxiliary.Shown.deposit_shown, Tables.DepositRow};

    ghost shows = { λ row d. (x : DepositRow) → row ≡ deposit_shown x → deposit_view d ≡ x };

    fn from_row(row: &Row) -> Result<Deposit, Error> {
        let serial = number(row, 0)?;
        let owner = text(row, 1)?;
        let reference = text(row, 2)?;
        let bytes = octets(row, 3)?;
        Ok(Deposit {
            serial,
            owner,
            reference,
            bytes,
        })
    }
}

impl FromRow for Label {
    ghost use Rattle.std.specs.Prelude.{◌≡◌};
    ghost use Rattle.tables.specs.{Queries.label_view, auxiliary.Shown.label_in};

    ghost shows = { λ row label. label_view label ≡ label_in row };

    fn from_row(row: &Row) -> Result<Label, Error> {
        let serial = number(row, 0)?;
        let reference = text(row, 1)?;
        Ok(Label { serial, reference })
    }
}

impl<S: Alter + Drop> Base<S> {
    /// The deposit with the number.
    pub fn deposit(&mut self, serial: u64) -> Result<Option<Deposit>, TableFault>
        ensures { LooksUp S.Store (λ t found. IsFoundAs ShowsDeposit (is_deposit serial) t.deposits found)
            self.old self.new result }
    {
        self.first_at(DEPOSIT, serial)
    }

    /// The deposit of the owner under the reference.
    pub fn deposit_under(
        &mut self,
        owner: &str,
        reference: &str,
    ) -> Result<Option<Deposit>, TableFault>
        ensures { LooksUp S.Store (λ t found. IsFoundAs ShowsDeposit (is_deposit_of owner.now reference.now)
            t.deposits found) self.old self.new result }
    {
        self.first_as(
            DEPOSIT_UNDER,
            &[
                ValueRef::Text(owner.as_bytes()),
                ValueRef::Text(reference.as_bytes()),
            ],
        )
    }

    /// The numbers and references of all deposits of an owner, by number. No deposit's bytes are read: it goes through
    /// what an index has of these deposits, once.
    pub fn labels(&mut self, alloc: Global, owner: &str) -> Result<Vec<Label>, TableFault>
        ensures { LooksUp S.Store (λ t found. AreFoundAs label_of (λ label. label.serial) (is_owned_by owner.now)
            t.deposits (map label_view found.items)) self.old self.new result }
    {
        self.all_as(alloc, LABELS, &[ValueRef::Text(owner.as_bytes())])
    }

    /// Whether the account owns the deposit with the number. No deposit's bytes are read, as for `labels`.
    pub fn is_owner(&mut self, serial: u64, account: &str) -> Result<bool, TableFault>
        ensures { LooksUp S.Store (λ t owner. owner ≡ list_any (is_owned serial account.now) t.deposits)
            self.old self.new result }
    {
        let serial = self.column(serial)?;
        self.any_row(IS_OWNER, &[serial, ValueRef::Text(account.as_bytes())])
    }
}
