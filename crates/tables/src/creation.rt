//! Making the tables, and the rows with which they begin.

ghost use Rattle.std.specs.Prelude.{◌≡◌, true, false, IsTrue, Ok, Err, IfOk, IfErr};
ghost use Rattle.sqlite.specs.{Held.state, State.HasCleanDisk};
ghost use Rattle.book.specs.Entries.{entries_view};
ghost use Rattle.tables.specs.Versions.{Creates, Fills, IsInTheWay, takes_name, tells_taken};
ghost use Rattle.tables.specs.{Schema.no_schema, Tables.no_rows, Transaction.CarriesFrom};

use crate::changes::make_each;
use crate::fault::{OpenFault, Task};
use book::Entry;
use sqlite::{Alter, Connection, Error, Transaction};

/// Hands a macro the text that makes each table, in the order of their places in the schema, and then the one that adds
/// the row of `meta`.
macro_rules! texts {
    ($take:ident) => {
        $take!(
            "CREATE TABLE meta (version INTEGER NOT NULL) STRICT;",
            "CREATE TABLE stamp (serial INTEGER PRIMARY KEY, account TEXT NOT NULL, day INTEGER NOT NULL, \
            gen INTEGER NOT NULL, policy BLOB NOT NULL, algorithm BLOB NOT NULL, digest BLOB NOT NULL, \
            request BLOB NOT NULL, tst BLOB NOT NULL, token BLOB) STRICT;",
            "CREATE TABLE calibration (n INTEGER PRIMARY KEY, reading INTEGER NOT NULL, offset_us INTEGER NOT NULL, \
            uncertainty INTEGER NOT NULL) STRICT;",
            "CREATE TABLE hold (n INTEGER PRIMARY KEY, from_us INTEGER NOT NULL, to_us INTEGER NOT NULL) STRICT;",
            "CREATE TABLE deposit (serial INTEGER PRIMARY KEY REFERENCES stamp (serial), owner TEXT NOT NULL, \
            reference TEXT NOT NULL, bytes BLOB NOT NULL, UNIQUE (owner, reference)) STRICT;",
            "CREATE TABLE reader (serial INTEGER NOT NULL REFERENCES deposit (serial), account TEXT NOT NULL, \
            PRIMARY KEY (serial, account)) STRICT;",
            "CREATE TABLE tally (account TEXT NOT NULL, day INTEGER NOT NULL, count INTEGER NOT NULL, \
            PRIMARY KEY (account, day)) STRICT;",
            "CREATE TABLE group_reader (serial INTEGER NOT NULL REFERENCES deposit (serial), name TEXT NOT NULL, \
            PRIMARY KEY (serial, name)) STRICT;",
            "CREATE TABLE identity (n INTEGER PRIMARY KEY, after_serial INTEGER NOT NULL, certificate BLOB NOT NULL, \
            chain BLOB NOT NULL) STRICT;";
            "INSERT INTO meta (version) VALUES (3)"
        )
    };
}

/// All of them, one after the other.
macro_rules! joined {
    ($($table:literal),*; $row:literal) => {
        concat!($($table,)* $row)
    };
}

/// Those that make the tables.
macro_rules! of_tables {
    ($($table:literal),*; $row:literal) => {
        [$($table),*]
    };
}

/// The one that adds the row of `meta`.
macro_rules! of_row {
    ($($table:literal),*; $row:literal) => {
        $row
    };
}

const MAKE_ALL: &str = texts!(joined);

pub(crate) const MAKE_EACH: &[&str] = &texts!(of_tables);

const INSERT_VERSION: &str = texts!(of_row);

fn make_all<S: Alter>(tx: &mut Transaction<'_, S>) -> Result<(), Error>
    ensures same_reference { tx.new.conn.ghost_name ≡ tx.old.conn.ghost_name }
    ensures carries { CarriesFrom (λ _ d. d.schema ≡ no_schema) (IsTrue (state S.Store tx.old.conn.now).is_open)
        (λ _. no_rows) (state S.Store tx.old.conn.now) (state S.Store tx.new.conn.now) result }
    ensures taken { HasCleanDisk (state S.Store tx.new.conn.now)
        → IfErr result (λ e. tells_taken e ≡ true → IsInTheWay (state S.Store tx.old.conn.now).now.schema) }
    ensures unused { HasCleanDisk (state S.Store tx.new.conn.now)
        → IfOk result (λ _. takes_name (state S.Store tx.old.conn.now).now.schema ≡ false) }
{
    tx.execute_batch(MAKE_ALL)
}

/// Makes all tables, and what the entries change of them, the first of them first.
fn make_filled<S: Alter>(
    tx: &mut Transaction<'_, S>,
    entries: &[Entry<'_>],
) -> Result<(), OpenFault>
    ensures same_reference { tx.new.conn.ghost_name ≡ tx.old.conn.ghost_name }
    ensures filled { IfOk result (λ _. Fills (entries_view entries.now) (state S.Store tx.old.conn.now)
        (state S.Store tx.new.conn.now) (Ok tt)) }
    ensures refused { IfErr result (λ _. (error : _) × Fills (entries_view entries.now)
        (state S.Store tx.old.conn.now) (state S.Store tx.new.conn.now) (Err error)) }
    ensures taken { HasCleanDisk (state S.Store tx.new.conn.now)
        → IfErr result (λ e. e ≡ OpenFault.NotOurs → IsInTheWay (state S.Store tx.old.conn.now).now.schema) }
    ensures unused { HasCleanDisk (state S.Store tx.new.conn.now)
        → IfOk result (λ _. takes_name (state S.Store tx.old.conn.now).now.schema ≡ false) }
{
    match make_all(tx) {
        Ok(()) => {}
        Err(error) => return Err(OpenFault::of(error, Task::Make)),
    }
    if entries.is_empty() {
        return Ok(());
    }
    match make_each(tx, entries) {
        Ok(()) => Ok(()),
        Err(error) => Err(OpenFault::of(error, Task::Use)),
    }
}

/// Makes all tables, and what the entries change of them, in one commit.
pub fn make_tables<S: Alter>(
    conn: &mut Connection<S>,
    entries: &[Entry<'_>],
) -> Result<(), OpenFault>
    requires { conn.old.in_transaction ≡ false }
    ensures closed { conn.new.in_transaction ≡ false }
    ensures made { IfOk result (λ _. Creates (entries_view entries.now) (state S.Store conn.old)
        (state S.Store conn.new) (Ok tt)) }
    ensures undone { IfErr result (λ _. (error : _) × Creates (entries_view entries.now) (state S.Store conn.old)
        (state S.Store conn.new) (Err error)) }
    ensures taken { HasCleanDisk (state S.Store conn.new)
        → IfErr result (λ e. e ≡ OpenFault.NotOurs → IsInTheWay (state S.Store conn.old).now.schema) }
    ensures unused { HasCleanDisk (state S.Store conn.new)
        → IfOk result (λ _. takes_name (state S.Store conn.old).now.schema ≡ false) }
{
    let mut tx = conn.transaction();
    match make_filled(&mut tx, entries) {
        Ok(()) => {}
        Err(fault) => return Err(fault),
    }
    match tx.commit() {
        Ok(()) => Ok(()),
        Err(error) => Err(OpenFault::of(error, Task::Use)),
    }
}
