//! How a store is made over a connection, and closed.
ghost use Rattle.std.specs.Prelude.{◌≡◌, ◌⊎◌, [], false, IfOk, IfErr, OnOk, IsTrue, MatchResult};
ghost use Rattle.sqlite_wal.specs.Reads.{AreClean};
ghost use Rattle.sqlite.specs.{Files.over_files, Held.state, State.HasCleanDisk};
ghost use Rattle.tables.specs.Versions.{IsFound, IsFoundIn, LooksOurs, LooksAs, LooksForeign, IsInTheWay};
ghost use Rattle.tables.specs.{QueryAnswers.Looks, Migration.Migrates, Versions.IsUntold, Versions.number_of};
ghost use Rattle.tables.specs.{Versions.takes_name, declared.version.Version.Version, Schema.no_schema};
ghost use Rattle.book.specs.Entries.{entries_view, with_all, FitInTurn};
ghost use Rattle.book.specs.{Fault.IsOfStorage, Fault.IsOfStorageOr, History.History, Sound.IsSound};
ghost use Rattle.store.specs.Files.{HasClosed, LeavesFiles, LeavesAsItWas, LeavesOrMakes, LeavesOrMigrates};
ghost use Rattle.store.specs.{Files.told_closing, Stands.Stands, TablesOf.tables_of};

use crate::store::Store;
use book::{Entry, StoreFault};
use sqlite::{Alter, Connection, Error, FileStore};
use sqlite_disk::{Disk, Files};
use std::alloc::Global;
use tables::{Base, TableFault, migrate};

impl<S: Alter + Drop> Store<S> {
    /// Makes all tables in an empty database, in one commit: the store stands for the empty history. The caller's
    /// condition is a connection outside any transaction, which comes back with a refusal: `Memory`, `Database`, or
    /// `NotOurs` where a table's name is taken.
    pub fn create(
        alloc: Global,
        conn: Connection<S>,
    ) -> Result<Store<S>, (StoreFault, Connection<S>)>
        requires { conn.in_transaction ≡ false }
        ensures stands { IfOk result (λ store. (state S.Store conn).now.schema ≡ no_schema → Stands S.Store [] store) }
        ensures unused { IfOk result (λ store. HasCleanDisk (state S.Store store.conn)
            → takes_name (state S.Store conn).now.schema ≡ false) }
        ensures opened { IfOk result (λ store. HasCleanDisk (state S.Store store.conn)
            → IsTrue (state S.Store conn).is_open × IsTrue (state S.Store store.conn).is_open) }
        ensures kept { IfErr result (λ e. LeavesAsItWas (state S.Store conn) (state S.Store e.1)) }
        ensures crash { MatchResult result (λ store. LeavesOrMakes [] (state S.Store conn) (state S.Store store.conn))
            (λ e. LeavesOrMakes [] (state S.Store conn) (state S.Store e.1)) }
        ensures taken { IfErr result (λ e. e.0 ≡ StoreFault.NotOurs → HasCleanDisk (state S.Store e.1)
            → IsInTheWay (state S.Store conn).now.schema) }
        ensures closed { IfErr result (λ e. e.1.in_transaction ≡ false) }
        ensures uncounted { IfOk result (λ store. store.faults ≡ 0) }
        ensures refusals { IfErr result (λ e. IsOfStorageOr StoreFault.NotOurs e.0) }
    {
        match Store::create_with(alloc, conn, &[]) {
            Ok(store) => Ok(store),
            Err(refused) => Err(refused),
        }
    }

    /// Makes all tables in an empty database, and adds entries, the first of them first, all in one commit: the store
    /// stands for the history of these entries. The caller's conditions are a connection outside any transaction, and
    /// that each entry fits the history of those before it. Refused as `create` is: a refusal, and a stop at any
    /// moment, leaves no tables or all with these entries.
    pub fn create_with(
        alloc: Global,
        conn: Connection<S>,
        entries: &[Entry<'_>],
    ) -> Result<Store<S>, (StoreFault, Connection<S>)>
        requires { conn.in_transaction ≡ false }
        ensures stands { IfOk result (λ store. (state S.Store conn).now.schema ≡ no_schema
            → FitInTurn (entries_view entries.now) []
            → Stands S.Store (with_all (entries_view entries.now) []) store) }
        ensures unused { IfOk result (λ store. HasCleanDisk (state S.Store store.conn)
            → takes_name (state S.Store conn).now.schema ≡ false) }
        ensures opened { IfOk result (λ store. HasCleanDisk (state S.Store store.conn)
            → IsTrue (state S.Store conn).is_open × IsTrue (state S.Store store.conn).is_open) }
        ensures kept { IfErr result (λ e. LeavesAsItWas (state S.Store conn) (state S.Store e.1)) }
        ensures crash { MatchResult result
            (λ store. LeavesOrMakes (entries_view entries.now) (state S.Store conn) (state S.Store store.conn))
            (λ e. LeavesOrMakes (entries_view entries.now) (state S.Store conn) (state S.Store e.1)) }
        ensures taken { IfErr result (λ e. e.0 ≡ StoreFault.NotOurs → HasCleanDisk (state S.Store e.1)
            → IsInTheWay (state S.Store conn).now.schema) }
        ensures closed { IfErr result (λ e. e.1.in_transaction ≡ false) }
        ensures uncounted { IfOk result (λ store. store.faults ≡ 0) }
        ensures refusals { IfErr result (λ e. IsOfStorageOr StoreFault.NotOurs e.0) }
    {
        match Base::create(conn, entries) {
            Ok(base) => Ok(Store { base, alloc }),
            Err((fault, conn)) => Err((StoreFault::from(fault), conn)),
        }
    }

    /// Takes a connection to tables that were made before. The caller's condition is a connection outside any
    /// transaction, which comes back with a refusal: `Memory`, `Database`, or `NotOurs` where a query over the tables
    /// and columns isn't understood, or `meta` isn't its one row.
    pub fn adopt(
        alloc: Global,
        conn: Connection<S>,
    ) -> Result<Store<S>, (StoreFault, Connection<S>)>
        requires { conn.in_transaction ≡ false }
        ensures stands { IfOk result (λ store. (b : History) → IsSound b → IsFound (tables_of b) (state S.Store conn)
            → Stands S.Store b store) }
        ensures ours { IfOk result (λ store. HasCleanDisk (state S.Store store.conn) → LooksOurs (state S.Store conn)) }
        ensures looks { IfOk result (λ store. Looks (state S.Store conn) (state S.Store store.conn)) }
        ensures unchanged { IfErr result (λ e. Looks (state S.Store conn) (state S.Store e.1)) }
        ensures not_ours { IfErr result (λ e. e.0 ≡ StoreFault.NotOurs → HasCleanDisk (state S.Store e.1)
            → (b : History) → ¬ IsFound (tables_of b) (state S.Store conn)) }
        ensures foreign { IfErr result (λ e. e.0 ≡ StoreFault.NotOurs → HasCleanDisk (state S.Store e.1)
            → LooksForeign (state S.Store conn)) }
        ensures untold { IfErr result (λ e. e.0 ≡ StoreFault.Database → HasCleanDisk (state S.Store e.1)
            → IsUntold (state S.Store conn) (state S.Store e.1)) }
        ensures closed { IfErr result (λ e. e.1.in_transaction ≡ false) }
        ensures uncounted { IfOk result (λ store. store.faults ≡ 0) }
        ensures refusals { IfErr result (λ e. IsOfStorageOr StoreFault.NotOurs e.0) }
    {
        match Base::adopt(conn) {
            Ok(base) => Ok(Store { base, alloc }),
            Err((fault, conn)) => Err((StoreFault::from(fault), conn)),
        }
    }
}

impl<S: Alter + Drop> Store<S> {
    /// Takes tables of an earlier version to those of now, in one commit, and keeps each row; tables of now stay as
    /// they are. The caller's condition is a connection outside any transaction. Refused with `Memory`, `Database`, or
    /// `NotOurs` where the tables are of no version of the counter's; what is seen is as it was then.
    pub fn migrate(conn: &mut Connection<S>) -> Result<(), StoreFault>
        requires { conn.old.in_transaction ≡ false }
        ensures closed { conn.new.in_transaction ≡ false }
        ensures migrates { Migrates (state S.Store conn.old) (state S.Store conn.new) result }
        ensures crash { LeavesOrMigrates (state S.Store conn.old) (state S.Store conn.new) }
        ensures ours { HasCleanDisk (state S.Store conn.new)
            → OnOk result ((v : Version) × LooksAs v (state S.Store conn.old)) }
        ensures not_ours { IfErr result (λ e. e ≡ StoreFault.NotOurs → HasCleanDisk (state S.Store conn.new)
            → IsTrue (state S.Store conn.new).is_open → (v : Version) (b : History)
            → ¬ IsFoundIn (number_of v) (tables_of b) (state S.Store conn.old)) }
        ensures untold { IfErr result (λ e. e ≡ StoreFault.Database → HasCleanDisk (state S.Store conn.new)
            → IsUntold (state S.Store conn.old) (state S.Store conn.new)
            ⊎ ((v : Version) × LooksAs v (state S.Store conn.old))) }
        ensures refusals { IfErr result (IsOfStorageOr StoreFault.NotOurs) }
    {
        match migrate(conn) {
            Ok(()) => Ok(()),
            Err(fault) => Err(StoreFault::from(fault)),
        }
    }
}

impl<D: Disk + Drop> Store<FileStore<D>> {
    /// Copies what was committed into the database file, and gives back the log and that file, which close where they
    /// are dropped: from then on the database file alone is the database. Refused with `Memory` or `Database`, which
    /// closes the files as they are.
    pub fn close(self) -> Result<Files<D>, StoreFault>
        ensures copied { IfOk result (λ files. AreClean D.Disk files.log files.db
            → (b : History) → Stands over_files b self → LeavesFiles D.Disk b files) }
        ensures closed { HasClosed self.conn result }
        ensures refusals { IfErr result IsOfStorage }
    {
        close(self.into_connection())
    }
}

/// Closes a connection as a store is closed.
pub(crate) fn close<D: Disk + Drop>(conn: Connection<FileStore<D>>) -> Result<Files<D>, StoreFault>
    ensures closed { HasClosed conn result }
    ensures refusals { IfErr result IsOfStorage }
{
    match conn.close_files() {
        Ok(files) => Ok(files),
        Err((error, _left)) => Err(closing_fault(error)),
    }
}

/// Want of memory as it is, and any other refusal as the database's.
fn closing_fault(error: Error) -> StoreFault
    ensures value { result ≡ told_closing error }
    ensures refusals { IsOfStorage result }
{
    StoreFault::from(TableFault::of(error))
}
