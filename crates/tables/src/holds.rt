//! The table of holds: the statement that adds one, inside a transaction, and the look-ups.

ghost use Rattle.std.specs.{List.list_any, Prelude.◌≡◌, Prelude.◌<◌, Prelude.◌^◌, Prelude.IfOk, Prelude.IfSome};
ghost use Rattle.sqlite.specs.Held.{state};
ghost use Rattle.book.specs.{History.Held, Values.hold_view};
ghost use Rattle.tables.specs.Found.{IsFoundAs, IsGreatestAs};
ghost use Rattle.tables.specs.Queries.{LooksUp, ShowsHold, ShowsNumber, holds_at};
ghost use Rattle.tables.specs.{Changes.applied, Tables.is_hold, Transaction.Carries};

use crate::base::Base;
use crate::fault::TableFault;
use crate::queries::{FromRow, number_in, signed};
use crate::rows::column;
use book::Hold;
use sqlite::types::{ToSql, ValueRef};
use sqlite::{Alter, Error, Row, Transaction};

const INSERT_HOLD: &str = "INSERT INTO hold (n, from_us, to_us) VALUES (?1, ?2, ?3)";

const GREATEST_HOLD: &str = "SELECT n FROM hold ORDER BY n DESC LIMIT 1";

const HOLD: &str = "SELECT from_us, to_us FROM hold WHERE n = ?1";

const HOLD_AT: &str = "SELECT n FROM hold WHERE from_us <= ?1 AND to_us > ?1";

/// Adds a hold, under the number that comes next.
pub(crate) fn put_hold<S: Alter>(tx: &mut Transaction<'_, S>, hold: &Hold) -> Result<usize, Error>
    ensures same_reference { tx.new.conn.ghost_name ≡ tx.old.conn.ghost_name }
    ensures carries { Carries (applied (Held (hold_view hold.now))) (state S.Store tx.old.conn.now)
        (state S.Store tx.new.conn.now) result }
{
    let greatest = number_in(tx, GREATEST_HOLD)?;
    let n = column(greatest + 1)?;
    let Hold { from, to } = hold;
    tx.execute(INSERT_HOLD, &[n, from.to_sql(), to.to_sql()])
}

impl FromRow for Hold {
    ghost use Rattle.std.specs.Prelude.{◌≡◌};
    ghost use Rattle.sqlite_value.specs.{Order.column, declared.value.Value.TheVariants.Int};

    ghost shows = { λ row h. (column row 0 ≡ Int h.from) × (column row 1 ≡ Int h.to) };

    fn from_row(row: &Row) -> Result<Hold, Error> {
        let from = signed(row, 0)?;
        let to = signed(row, 1)?;
        Ok(Hold { from, to })
    }
}

impl<S: Alter + Drop> Base<S> {
    /// The hold with the number.
    pub fn hold(&mut self, number: u64) -> Result<Option<Hold>, TableFault>
        ensures { LooksUp S.Store (λ t found. IsFoundAs ShowsHold (is_hold number) t.holds found)
            self.old self.new result }
    {
        self.first_at(HOLD, number)
    }

    /// The greatest number of a hold.
    pub fn greatest_hold(&mut self) -> Result<Option<u64>, TableFault>
        ensures looks { LooksUp S.Store (λ t n. IsGreatestAs ShowsNumber (λ row. row.n) t.holds n)
            self.old self.new result }
        ensures small { IfOk result (λ found. IfSome found (λ number. number < 2 ^ 63)) }
    {
        self.first_number(GREATEST_HOLD, &[])
    }

    /// Whether a hold has the moment.
    pub fn held_at(&mut self, now: i64) -> Result<bool, TableFault>
        ensures { LooksUp S.Store (λ t held. held ≡ list_any (holds_at now) t.holds) self.old self.new result }
    {
        self.any_row(HOLD_AT, &[ValueRef::Int(now)])
    }
}
