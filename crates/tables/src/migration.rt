//! Tables of an earlier version of the schema, taken to that of now.

ghost use Rattle.std.specs.Prelude.{◌≡◌, ◌⊎◌, false, IfErr, OnOk, IsTrue};
ghost use Rattle.sqlite.specs.{Held.state, State.HasCleanDisk};
ghost use Rattle.tables.specs.Layout.{IsDatabaseOf, IsDatabaseIn, IsOnTheWay};
ghost use Rattle.tables.specs.Versions.{IsFoundIn, IsUntold, LooksAs, number_of, tells_taken};
ghost use Rattle.tables.specs.declared.version.Version.{Version as Value};
ghost use Rattle.tables.specs.{Migration.Migrates, Schema.the_version, Tables.Tables, Transaction.CommitsFrom};
ghost use Rattle.tables.specs.auxiliary.Steps.{LeadsOn};

use crate::creation::MAKE_EACH;
use crate::fault::{OpenFault, Task};
use crate::version::{Version, found_version};
use sqlite::{Alter, Connection, Error, Transaction};

/// The places in the schema of the tables that later versions have.
const GROUP_READER: usize = 7;

const IDENTITY: usize = 8;

const SET_VERSION: &str = "UPDATE meta SET version = 3";

/// Makes what the second version has.
fn make_group_readers<S: Alter>(tx: &mut Transaction<'_, S>) -> Result<usize, Error>
    ensures same_reference { tx.new.conn.ghost_name ≡ tx.old.conn.ghost_name }
    ensures leads { LeadsOn (IsOnTheWay 1) (IsOnTheWay 2) (state S.Store tx.old.conn.now)
        (state S.Store tx.new.conn.now) result }
{
    tx.execute(MAKE_EACH[GROUP_READER], &[])
}

/// Makes what the third version has.
fn make_identities<S: Alter>(tx: &mut Transaction<'_, S>) -> Result<usize, Error>
    ensures same_reference { tx.new.conn.ghost_name ≡ tx.old.conn.ghost_name }
    ensures leads { LeadsOn (IsOnTheWay 2) (IsOnTheWay 3) (state S.Store tx.old.conn.now)
        (state S.Store tx.new.conn.now) result }
{
    tx.execute(MAKE_EACH[IDENTITY], &[])
}

/// Has `meta` say the version of now.
fn set_version<S: Alter>(tx: &mut Transaction<'_, S>) -> Result<usize, Error>
    ensures same_reference { tx.new.conn.ghost_name ≡ tx.old.conn.ghost_name }
    ensures leads { LeadsOn (IsOnTheWay the_version) IsDatabaseOf (state S.Store tx.old.conn.now)
        (state S.Store tx.new.conn.now) result }
{
    tx.execute(SET_VERSION, &[])
}

/// Makes what comes after the second version.
fn go_on_from_second<S: Alter>(tx: &mut Transaction<'_, S>) -> Result<usize, Error>
    ensures same_reference { tx.new.conn.ghost_name ≡ tx.old.conn.ghost_name }
    ensures leads { LeadsOn (IsOnTheWay 2) IsDatabaseOf (state S.Store tx.old.conn.now)
        (state S.Store tx.new.conn.now) result }
{
    make_identities(tx)?;
    set_version(tx)
}

/// Makes what comes after the first version.
fn go_on_from_first<S: Alter>(tx: &mut Transaction<'_, S>) -> Result<usize, Error>
    ensures same_reference { tx.new.conn.ghost_name ≡ tx.old.conn.ghost_name }
    ensures leads { LeadsOn (IsOnTheWay 1) IsDatabaseOf (state S.Store tx.old.conn.now)
        (state S.Store tx.new.conn.now) result }
{
    make_group_readers(tx)?;
    go_on_from_second(tx)
}

/// Makes what comes after a version.
fn go_on<S: Alter>(tx: &mut Transaction<'_, S>, from: Version) -> Result<usize, Error>
    ensures same_reference { tx.new.conn.ghost_name ≡ tx.old.conn.ghost_name }
    ensures leads { LeadsOn (IsOnTheWay (number_of from)) IsDatabaseOf (state S.Store tx.old.conn.now)
        (state S.Store tx.new.conn.now) result }
{
    match from {
        Version::First => go_on_from_first(tx),
        Version::Second => go_on_from_second(tx),
        Version::Current => set_version(tx),
    }
}

/// Takes tables of a version to that of now, in one commit.
fn take_on<S: Alter>(conn: &mut Connection<S>, from: Version) -> Result<(), Error>
    requires { conn.old.in_transaction ≡ false }
    ensures closed { conn.new.in_transaction ≡ false }
    ensures commits { CommitsFrom (IsDatabaseIn (number_of from)) (Unit {0}) (λ t. t) (state S.Store conn.old)
        (state S.Store conn.new) result }
    ensures taken { HasCleanDisk (state S.Store conn.new) → IfErr result (λ e. (t : Tables)
        → IsDatabaseIn (number_of from) t (state S.Store conn.old).now → tells_taken e ≡ false) }
{
    let mut tx = conn.transaction();
    go_on(&mut tx, from)?;
    tx.commit()
}

/// Takes the tables of a connection to the version of now, all in one commit, and keeps each row. Tables of now stay as
/// they are.
///
/// # Errors
///
/// `NotOurs` where the tables are of no version of the counter's; `Memory` and `Database` as the database answers. All
/// is as it was then.
pub fn migrate<S: Alter>(conn: &mut Connection<S>) -> Result<(), OpenFault>
    requires { conn.old.in_transaction ≡ false }
    ensures closed { conn.new.in_transaction ≡ false }
    ensures migrates { Migrates (state S.Store conn.old) (state S.Store conn.new) result }
    ensures ours { HasCleanDisk (state S.Store conn.new)
        → OnOk result ((v : Value) × LooksAs v (state S.Store conn.old)) }
    ensures not_ours { IfErr result (λ e. e ≡ OpenFault.NotOurs → HasCleanDisk (state S.Store conn.new)
        → IsTrue (state S.Store conn.new).is_open → (v : Value) (t : Tables)
        → ¬ IsFoundIn (number_of v) t (state S.Store conn.old)) }
    ensures untold { IfErr result (λ e. e ≡ OpenFault.Database → HasCleanDisk (state S.Store conn.new)
        → IsUntold (state S.Store conn.old) (state S.Store conn.new)
        ⊎ ((v : Value) × LooksAs v (state S.Store conn.old))) }
{
    let version = match found_version(conn) {
        Ok(Some(version)) => version,
        Ok(None) => return Err(OpenFault::NotOurs),
        Err(error) => return Err(OpenFault::of(error, Task::Use)),
    };
    if version.is_current() {
        return Ok(());
    }
    match take_on(conn, version) {
        Ok(()) => Ok(()),
        Err(error) => Err(OpenFault::of(error, Task::Make)),
    }
}
