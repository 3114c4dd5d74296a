//! The table of tallies: the statements that raise one, inside a transaction, and the look-up.

ghost use Rattle.std.specs.Prelude.{◌≡◌, IsTrue, IfOk, length, filter};
ghost use Rattle.sqlite.specs.{Held.state, State.HasCleanDisk};
ghost use Rattle.tables.specs.auxiliary.Steps.{with_raised, with_first_tally, with_count};
ghost use Rattle.tables.specs.{Found.IsFoundAs, Layout.IsDatabaseOf, Queries.LooksUp, Queries.ShowsCount};
ghost use Rattle.tables.specs.{Tables.Tables, Tables.is_tally_of, Transaction.Carries};

use crate::base::Base;
use crate::fault::TableFault;
use crate::rows::{ColumnNumber, column};
use sqlite::types::ValueRef;
use sqlite::{Alter, Error, Transaction};

const RAISE_TALLY: &str = "UPDATE tally SET count = count + 1 WHERE account = ?1 AND day = ?2";

const FIRST_TALLY: &str = "INSERT INTO tally (account, day, count) VALUES (?1, ?2, 1)";

const TALLY: &str = "SELECT count FROM tally WHERE account = ?1 AND day = ?2";

fn raise_tally<S: Alter>(
    tx: &mut Transaction<'_, S>,
    account: &str,
    day: u64,
) -> Result<usize, Error>
    ensures same_reference { tx.new.conn.ghost_name ≡ tx.old.conn.ghost_name }
    ensures carries { Carries (with_raised account.now day) (state S.Store tx.old.conn.now)
        (state S.Store tx.new.conn.now) result }
    ensures counts { HasCleanDisk (state S.Store tx.new.conn.now)
        → IsTrue (state S.Store tx.old.conn.now).in_transaction
        → IfOk result (λ count. (t : Tables) → IsDatabaseOf t (state S.Store tx.old.conn.now).now → count
        ≡ length (filter (is_tally_of account.now day) t.tallies)) }
{
    let day = column(day)?;
    tx.execute(RAISE_TALLY, &[ValueRef::Text(account.as_bytes()), day])
}

fn first_tally<S: Alter>(
    tx: &mut Transaction<'_, S>,
    account: &str,
    day: u64,
) -> Result<usize, Error>
    ensures same_reference { tx.new.conn.ghost_name ≡ tx.old.conn.ghost_name }
    ensures carries { Carries (with_first_tally account.now day) (state S.Store tx.old.conn.now)
        (state S.Store tx.new.conn.now) result }
{
    let day = column(day)?;
    tx.execute(FIRST_TALLY, &[ValueRef::Text(account.as_bytes()), day])
}

/// One more for the account on the day.
pub(crate) fn count_stamp<S: Alter>(
    tx: &mut Transaction<'_, S>,
    account: &str,
    day: u64,
) -> Result<usize, Error>
    ensures same_reference { tx.new.conn.ghost_name ≡ tx.old.conn.ghost_name }
    ensures carries { Carries (with_count account.now day) (state S.Store tx.old.conn.now)
        (state S.Store tx.new.conn.now) result }
{
    let counted = raise_tally(tx, account, day)?;
    if counted == 0 {
        first_tally(tx, account, day)
    } else {
        Ok(counted)
    }
}

impl<S: Alter + Drop> Base<S> {
    /// How many stamps the account has on the day, where a row says it.
    pub fn tally(&mut self, account: &str, day: ColumnNumber) -> Result<Option<u64>, TableFault>
        ensures { LooksUp S.Store (λ t count. IsFoundAs ShowsCount (is_tally_of account.now day.value) t.tallies count)
            self.old self.new result }
    {
        self.first_number(TALLY, &[ValueRef::Text(account.as_bytes()), day.cell()])
    }
}
