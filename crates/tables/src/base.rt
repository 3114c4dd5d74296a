//! A connection to the tables' database, with the count of its faults.

ghost use Rattle.std.specs.Prelude.{◌≡◌, ◌⊎◌, ◌<◌, length, false, Ok, Err, IfOk, IfErr, OnOk, OnErr};
ghost use Rattle.sqlite.specs.{Held.state, State.HasCleanDisk};
ghost use Rattle.book.specs.Entries.{entries_view};
ghost use Rattle.tables.specs.Versions.{IsFound, LooksOurs, LooksForeign, Creates, IsInTheWay, IsUntold, takes_name};
ghost use Rattle.tables.specs.Base.{IsHonest, IsOpen, Keeps, Recovers, IsStored};
ghost use Rattle.tables.specs.{QueryAnswers.Looks, QueryAnswers.StaysUsable, Schema.no_schema, Tables.Tables};
ghost use Rattle.tables.specs.{Tables.no_rows, Changes.applied_all, Changes.IsCounted, Faults.told_using};
ghost use Rattle.sqlite_trees.specs.Tree.{Trees};

use crate::changes::commit_entries;
use crate::creation::make_tables;
use crate::fault::{OpenFault, TableFault, Task};
use crate::version::{Version, found_version};
use book::Entry;
use sqlite::{Alter, Connection, Error};
use std::marker::Model;

/// A connection, and how many of its calls were refused for another cause than memory.
///
/// A look-up or a commit is refused with `Memory`, or with `Database`, which counts as a fault: a number of 2^63 or
/// more is one, since no column can have it.
#[derive(Drop)]
pub struct Base<S: Alter + Drop> {
    pub(crate) conn: Connection<S>,
    faults: u64,
}

impl<S: Alter + Drop> Model for Base<S> {
    ghost use Rattle.std.specs.Prelude.{◌≡◌, false};
    ghost use Rattle.tables.specs.Base.{BaseValue, base_code};

    ghost Value = { BaseValue S };

    ghost coded = { base_code S.code };

    ghost view = { λ b. record { conn = b.conn; faults = b.faults } };

    ghost invariant = { λ b. b.conn.in_transaction ≡ false };
}

impl<S: Alter + Drop> Base<S> {
    /// Makes the tables in an empty database, and what the entries change of them, the first of them first, all in one
    /// commit. Gives the connection back with a refusal.
    pub fn create(
        mut conn: Connection<S>,
        entries: &[Entry<'_>],
    ) -> Result<Base<S>, (OpenFault, Connection<S>)>
        requires { conn.in_transaction ≡ false }
        ensures made { IfOk result (λ base. Creates (entries_view entries.now) (state S.Store conn)
            (state S.Store base.conn) (Ok tt)) }
        ensures unused { IfOk result (λ base. HasCleanDisk (state S.Store base.conn)
            → takes_name (state S.Store conn).now.schema ≡ false) }
        ensures keeps { IfOk result (λ base. (state S.Store conn).now.schema ≡ no_schema
            → Keeps S.Store (applied_all (entries_view entries.now) no_rows) base) }
        ensures uncounted { IfOk result (λ base. base.faults ≡ 0) }
        ensures undone { IfErr result (λ e. (error : _)
            × Creates (entries_view entries.now) (state S.Store conn) (state S.Store e.1) (Err error)) }
        ensures taken { IfErr result (λ e. e.0 ≡ OpenFault.NotOurs → HasCleanDisk (state S.Store e.1)
            → IsInTheWay (state S.Store conn).now.schema) }
        ensures closed { IfErr result (λ e. e.1.in_transaction ≡ false) }
    {
        match make_tables(&mut conn, entries) {
            Ok(()) => Ok(Base { conn, faults: 0 }),
            Err(fault) => Err((fault, conn)),
        }
    }

    /// Takes a connection to tables that were made before, and gives it back with a refusal.
    pub fn adopt(mut conn: Connection<S>) -> Result<Base<S>, (OpenFault, Connection<S>)>
        requires { conn.in_transaction ≡ false }
        ensures looks { IfOk result (λ base. Looks (state S.Store conn) (state S.Store base.conn)) }
        ensures keeps { IfOk result (λ base. (t : Tables) → IsFound t (state S.Store conn) → Keeps S.Store t base) }
        ensures ours { IfOk result (λ base. HasCleanDisk (state S.Store base.conn) → LooksOurs (state S.Store conn)) }
        ensures uncounted { IfOk result (λ base. base.faults ≡ 0) }
        ensures unchanged { IfErr result (λ e. Looks (state S.Store conn) (state S.Store e.1)) }
        ensures not_ours { IfErr result (λ e. e.0 ≡ OpenFault.NotOurs → HasCleanDisk (state S.Store e.1) → (t : Tables)
            → ¬ IsFound t (state S.Store conn)) }
        ensures foreign { IfErr result (λ e. e.0 ≡ OpenFault.NotOurs → HasCleanDisk (state S.Store e.1)
            → LooksForeign (state S.Store conn)) }
        ensures untold { IfErr result (λ e. e.0 ≡ OpenFault.Database → HasCleanDisk (state S.Store e.1)
            → IsUntold (state S.Store conn) (state S.Store e.1)) }
        ensures closed { IfErr result (λ e. e.1.in_transaction ≡ false) }
    {
        match found_version(&mut conn) {
            Ok(Some(Version::Current)) => Ok(Base { conn, faults: 0 }),
            // `migrate` takes these to the version of now
            Ok(Some(Version::First)) => Err((OpenFault::NotOurs, conn)),
            Ok(Some(Version::Second)) => Err((OpenFault::NotOurs, conn)),
            Ok(None) => Err((OpenFault::NotOurs, conn)),
            Err(error) => Err((OpenFault::of(error, Task::Use), conn)),
        }
    }

    /// Want of memory as it is, and any other refusal as a fault that is counted.
    pub(crate) fn fault(&mut self, error: Error) -> TableFault
        ensures value { result ≡ told_using error }
        ensures same { self.new.conn ≡ self.old.conn }
        ensures counted { IsCounted result self.old.faults self.new.faults }
    {
        let fault = TableFault::of(error);
        match fault {
            TableFault::Memory => {}
            TableFault::Database => self.faults = self.faults.wrapping_add(1),
        }
        fault
    }

    /// Makes what the entries change, the first of them first, all in one commit. The caller's condition is that there
    /// is an entry.
    pub fn commit(&mut self, entries: &[Entry<'_>]) -> Result<(), TableFault>
        requires { 0 < length entries.now }
        ensures honest { IsHonest S.Store self.new → IsHonest S.Store self.old }
        ensures opened { IsHonest S.Store self.new → OnOk result (IsOpen S.Store self.old × IsOpen S.Store self.new) }
        ensures ok { (t : Tables) → Keeps S.Store t self.old
            → OnOk result (Keeps S.Store (applied_all (entries_view entries.now) t) self.new) }
        ensures err { (t : Tables) → Keeps S.Store t self.old → OnErr result (Keeps S.Store t self.new) }
        ensures crash { IsHonest S.Store self.new → (db : Trees) → Recovers S.Store self.new db
            → Recovers S.Store self.old db
            ⊎ ((t : Tables) → Keeps S.Store t self.old → IsStored (applied_all (entries_view entries.now) t) db) }
        ensures usable { StaysUsable (state S.Store self.old.conn) (state S.Store self.new.conn) }
        ensures counted { IfErr result (λ e. IsCounted e self.old.faults self.new.faults) }
        ensures uncounted { OnOk result (self.new.faults ≡ self.old.faults) }
    {
        match commit_entries(&mut self.conn, entries) {
            Ok(()) => Ok(()),
            Err(error) => Err(self.fault(error)),
        }
    }

    /// How many calls were refused for another cause than memory, modulo 2^64.
    pub fn faults(&self) -> u64
        ensures { result ≡ self.now.faults }
    {
        let Base { conn: _, faults } = self;
        *faults
    }

    /// The connection.
    pub fn into_connection(self) -> Connection<S>
        ensures same { result ≡ self.conn }
        ensures closed { result.in_transaction ≡ false }
    {
        let Base { conn, faults: _ } = self;
        conn
    }
}
