//! The database at a path: how its store is opened, and how it is made.
ghost use Rattle.std.specs.Prelude.{◌≡◌, ◌↔◌, [], false, Ok, IfOk, IfErr, OnOk, IsTrue};
ghost use Rattle.sqlite_wal.specs.Files.{image_at};
ghost use Rattle.sqlite.specs.Files.{file_state, over_files, IsOpened, IsBlankAs};
ghost use Rattle.sqlite.specs.{Held.state, Start.FindsIn, State.HasCleanDisk, declared.error.Error.Error as SpecError};
ghost use Rattle.sqlite_store.specs.FileStore.{view};
ghost use Rattle.tables.specs.{QueryAnswers.Looks, Schema.no_schema, Versions.IsFound, Versions.LooksOurs};
ghost use Rattle.book.specs.Entries.{entries_view, with_all, FitInTurn};
ghost use Rattle.book.specs.{History.History, Sound.IsSound, Fault.IsOfStorageOr};
ghost use Rattle.store.specs.Files.{OpensFound, IsForeign, OpensNothing, SeemsForeign, IsMigrated, HasMigrated};
ghost use Rattle.store.specs.Files.{FailsToOpen, IsBare, IsFree, IsFreeAt, MigratesFound};
ghost use Rattle.store.specs.Files.{fault_where, fault_where_made, fault_at};
ghost use Rattle.store.specs.{TablesOf.tables_of, Stands.Stands, Files.told_opening};

use crate::connection::close;
use crate::paths::{FileState, Paths};
use crate::place::{Place, find};
use crate::store::Store;
use book::{Entry, StoreFault};
use sqlite::{Alter, Connection, Error, ErrorCode, FileFrom, FileStore, Start, Unknown};
use sqlite_disk::{Disk, Files};
use std::alloc::Global;
use tables::{OpenFault, Task};

/// What becomes of a connection's tables: those that are there are adopted, or new ones are created.
#[derive(Clone, Copy)]
pub(crate) enum Course {
    Adopt,
    Create,
}

impl<T: Start + Drop> Store<FileStore<FileFrom<T>>> {
    /// Opens the counter's database at a path. Refused with `Memory`; with `Database` where no file stands there, or it
    /// can't be read or written; and with `NotOurs` where what stands there is a file of no octets, one that doesn't
    /// begin as a database, or a database of another's, as for `adopt`. What stands there is left as it is then.
    pub fn open<P: Paths>(
        paths: &P,
        path: &str,
        start: T,
    ) -> Result<Store<FileStore<FileFrom<T>>>, StoreFault>
        ensures found { IfOk result (λ store. HasCleanDisk (file_state store.conn)
            → OpensFound (image_at T.Start) store) }
        ensures uncounted { IfOk result (λ store. store.faults ≡ 0) }
        ensures refusals { IfErr result (IsOfStorageOr StoreFault.NotOurs) }
    {
        let place = find_database(paths, path)?;
        Store::open_files(paths.system(), place, start, Course::Adopt, &[])
    }

    /// Makes the tables in a new database at a path, where no file stands, one of no octets, or a database without
    /// tables: the store stands for the empty history. Refused with `Memory`; with `Database` where the file can't be
    /// made, read or written; and with `NotOurs` where something else stands there, a database of the counter's too,
    /// which is left as it is.
    pub fn make<P: Paths>(
        paths: &P,
        path: &str,
        start: T,
    ) -> Result<Store<FileStore<FileFrom<T>>>, StoreFault>
        ensures made { IfOk result (λ store. Stands over_files [] store) }
        ensures opened { IfOk result (λ store. HasCleanDisk (file_state store.conn)
            → IsTrue (file_state store.conn).is_open) }
        ensures uncounted { IfOk result (λ store. store.faults ≡ 0) }
        ensures refusals { IfErr result (IsOfStorageOr StoreFault.NotOurs) }
    {
        Store::make_with(paths, path, start, &[])
    }

    /// Makes the tables in a new database at a path, and adds entries, the first of them first, all in one commit: the
    /// store stands for the history of these entries. The caller's condition is that each fits the history of those
    /// before it. Refused as `make` is: a refusal, and a stop at any moment, leaves no tables or all with these
    /// entries.
    pub fn make_with<P: Paths>(
        paths: &P,
        path: &str,
        start: T,
        entries: &[Entry<'_>],
    ) -> Result<Store<FileStore<FileFrom<T>>>, StoreFault>
        ensures made { IfOk result (λ store. FitInTurn (entries_view entries.now) []
            → Stands over_files (with_all (entries_view entries.now) []) store) }
        ensures opened { IfOk result (λ store. HasCleanDisk (file_state store.conn)
            → IsTrue (file_state store.conn).is_open) }
        ensures uncounted { IfOk result (λ store. store.faults ≡ 0) }
        ensures refusals { IfErr result (IsOfStorageOr StoreFault.NotOurs) }
    {
        let place = find(paths, path)?;
        may_make(place.found)?;
        Store::open_files(paths.system(), place, start, Course::Create, entries)
    }

    /// Takes the counter's database at a path to the schema of now, in one commit, and keeps each row; one of that
    /// schema stays as it is. Refused as `open` is: a database of an earlier schema is the counter's here. What stands
    /// there is left as it is then.
    pub fn migrate_at<P: Paths>(paths: &P, path: &str, start: T) -> Result<(), StoreFault>
        ensures migrated { IfOk result (λ _. MigratesFound ⟦<FileFrom<T> as Disk>⟧ (image_at T.Start)) }
        ensures refusals { IfErr result (IsOfStorageOr StoreFault.NotOurs) }
    {
        let place = find_database(paths, path)?;
        Store::migrate_at_place(paths.system(), place, start)
    }

    /// Opens the files at a place, and adopts the tables there or creates them, with these entries. The caller's
    /// condition is that what was found there allows that.
    fn open_files(
        rt: &HostRuntime,
        place: Place<'_>,
        start: T,
        course: Course,
        entries: &[Entry<'_>],
    ) -> Result<Store<FileStore<FileFrom<T>>>, StoreFault>
        requires { fault_at course place.found ≡ Ok tt }
        ensures found { course ≡ Course.Adopt → IfOk result (λ store. HasCleanDisk (file_state store.conn)
            → OpensFound (image_at T.Start) store) }
        ensures foreign { course ≡ Course.Adopt → IfErr result (λ e. e ≡ StoreFault.NotOurs
            → IsForeign ⟦<FileFrom<T> as Disk>⟧ (image_at T.Start)) }
        ensures made { course ≡ Course.Create → IfOk result (λ store. FitInTurn (entries_view entries.now) []
            → Stands over_files (with_all (entries_view entries.now) []) store) }
        ensures opened { course ≡ Course.Create → IfOk result (λ store. HasCleanDisk (file_state store.conn)
            → IsTrue (file_state store.conn).is_open) }
        ensures uncounted { IfOk result (λ store. store.faults ≡ 0) }
        ensures refusals { IfErr result (IsOfStorageOr StoreFault.NotOurs) }
    {
        let conn = connect(rt, place.path, start)?;
        match store_or_drop(rt.alloc(), conn, course, entries) {
            Ok(store) => Ok(store),
            Err(fault) => Err(fault),
        }
    }

    /// Takes the tables at a place to the schema of now. The caller's condition is that a database was found there.
    fn migrate_at_place(rt: &HostRuntime, place: Place<'_>, start: T) -> Result<(), StoreFault>
        requires { fault_where place.found ≡ Ok tt }
        ensures migrated { IfOk result (λ _. MigratesFound ⟦<FileFrom<T> as Disk>⟧ (image_at T.Start)) }
        ensures refusals { IfErr result (IsOfStorageOr StoreFault.NotOurs) }
    {
        let conn = connect(rt, place.path, start)?;
        match migrate_files(conn) {
            // What was committed stays in the log where it can't be copied into the file.
            Ok(_closed) => Ok(()),
            Err(fault) => Err(fault),
        }
    }
}

/// Takes the tables in the files of a connection to the schema of now, and closes it: what came of that.
fn migrate_files<D: Disk + Drop>(
    conn: Connection<FileStore<D>>,
) -> Result<Result<Files<D>, StoreFault>, StoreFault>
    requires { conn.in_transaction ≡ false }
    ensures migrated { IfOk result (IsMigrated conn) }
    ensures refusals { IfErr result (IsOfStorageOr StoreFault.NotOurs) }
{
    let conn = migrate_or_drop(conn)?;
    Ok(close(conn))
}

/// The place of a database.
fn find_database<'path, P: Paths>(paths: &P, path: &'path str) -> Result<Place<'path>, StoreFault>
    ensures found { IfOk result (λ place. fault_where place.found ≡ Ok tt) }
    ensures there { IfOk result (λ place. place.path.now ≡ path.now) }
    ensures refusals { IfErr result (IsOfStorageOr StoreFault.NotOurs) }
{
    let place = find(paths, path)?;
    may_open(place.found)?;
    Ok(place)
}

/// Whether a store may be opened where this was found.
fn may_open(found: FileState) -> Result<(), StoreFault>
    ensures { result ≡ fault_where found }
{
    match found {
        FileState::Nothing => Err(StoreFault::Database),
        FileState::Empty | FileState::Other => Err(StoreFault::NotOurs),
        FileState::Database => Ok(()),
    }
}

/// Whether tables may be made where this was found.
fn may_make(found: FileState) -> Result<(), StoreFault>
    ensures { result ≡ fault_where_made found }
{
    match found {
        FileState::Nothing | FileState::Empty | FileState::Database => Ok(()),
        FileState::Other => Err(StoreFault::NotOurs),
    }
}

/// Whether tables can be made in a new database at a path, as far as can be seen before: refused as `make` is, but for
/// what fails once they are written. What stands there is left as it is, and no file is left where none stood.
pub fn may_make_at<P: Paths>(paths: &P, path: &str) -> Result<(), StoreFault>
    ensures free { OnOk result (IsFreeAt ⟦<FileFrom<Unknown> as Disk>⟧ (image_at ⟦<Unknown as Start>⟧)
        P.Paths paths.now path.now) }
    ensures refusals { IfErr result (IsOfStorageOr StoreFault.NotOurs) }
{
    may_make_at_place(paths, find(paths, path)?)
}

/// The same at a place: where they can be made, nothing of the counter's or another's stands there.
fn may_make_at_place<P: Paths>(paths: &P, place: Place<'_>) -> Result<(), StoreFault>
    ensures free { OnOk result (IsFree ⟦<FileFrom<Unknown> as Disk>⟧ (image_at ⟦<Unknown as Start>⟧)
        (P.makes paths.now place.entry.path.now) place.entry.found) }
    ensures refusals { IfErr result (IsOfStorageOr StoreFault.NotOurs) }
{
    may_make(place.found)?;
    match place.found {
        FileState::Nothing => Ok(paths.try_making(place.path)?),
        FileState::Database => look_for_tables(paths.system(), place.path),
        FileState::Empty | FileState::Other => Ok(()),
    }
}

/// Looks whether the database at a path has no table: else it is `NotOurs`. Nothing is supposed of its files, since no
/// clause names what they hold.
fn look_for_tables(rt: &HostRuntime, path: &str) -> Result<(), StoreFault>
    ensures bare { OnOk result (IsBare ⟦<FileFrom<Unknown> as Disk>⟧ (image_at ⟦<Unknown as Start>⟧)) }
    ensures refusals { IfErr result (IsOfStorageOr StoreFault.NotOurs) }
{
    let conn = connect(rt, path, Unknown)?;
    drop_if_bare(conn)?;
    Ok(())
}

/// Drops a connection whose database has no table, index or view; else it is `NotOurs`.
fn drop_if_bare<S: Alter + Drop>(conn: Connection<S>) -> Result<(), StoreFault>
    ensures bare { OnOk result ((state S.Store conn).now.schema ≡ no_schema) }
    ensures refusals { IfErr result (λ fault. fault ≡ StoreFault.NotOurs) }
{
    if has_no_table(&conn) {
        Ok(())
    } else {
        Err(StoreFault::NotOurs)
    }
}

/// A connection to the files at a path, which are made where none stand. The pages of a new file carry no sums, which
/// `sqlite3` would spoil.
fn connect<T: Start + Drop>(
    rt: &HostRuntime,
    path: &str,
    start: T,
) -> Result<Connection<FileStore<FileFrom<T>>>, StoreFault>
    ensures closed { IfOk result (λ conn. conn.in_transaction ≡ false) }
    ensures opened { IfOk result (λ conn. HasCleanDisk (file_state conn) → IsOpened conn) }
    ensures found { IfOk result (λ conn. HasCleanDisk (file_state conn)
        → FindsIn (image_at T.Start) (file_state conn)) }
    ensures plain { IfOk result (λ conn. HasCleanDisk (file_state conn) → IsBlankAs false (image_at T.Start)
        → (view conn.store).has_sums ≡ false) }
    ensures none { IfErr result (λ e. e ≡ StoreFault.NotOurs
        → OpensNothing ⟦<FileFrom<T> as Disk>⟧ (image_at T.Start)) }
    ensures told { IfErr result (λ e. (error : SpecError) × (e ≡ told_opening error)
        × FailsToOpen ⟦<FileFrom<T> as Disk>⟧ (image_at T.Start) error) }
    ensures refusals { IfErr result (IsOfStorageOr StoreFault.NotOurs) }
{
    match Connection::open_from(rt, path, false, start) {
        Ok(conn) => Ok(conn),
        Err((error, _left)) => Err(opening_fault(error)),
    }
}

/// Want of memory as it is, what isn't a database as another's, and any other refusal as the database's.
fn opening_fault(error: Error) -> StoreFault
    ensures value { result ≡ told_opening error }
    ensures none { result ≡ StoreFault.NotOurs → error ≡ Error.SqliteFailure ErrorCode.NotADatabase }
    ensures refusals { IsOfStorageOr StoreFault.NotOurs result }
{
    StoreFault::from(OpenFault::of(error, Task::Open))
}

/// Takes the tables of a connection to the schema of now, or drops it with a refusal. What stands over files has these
/// steps in functions over any storage: a use of each type over files is dear to prove.
fn migrate_or_drop<S: Alter + Drop>(mut conn: Connection<S>) -> Result<Connection<S>, StoreFault>
    requires { conn.in_transaction ≡ false }
    ensures closed { IfOk result (λ left. left.in_transaction ≡ false) }
    ensures migrates { IfOk result (λ left. HasMigrated (state S.Store conn) (state S.Store left)) }
    ensures refusals { IfErr result (IsOfStorageOr StoreFault.NotOurs) }
{
    match Store::migrate(&mut conn) {
        Ok(()) => Ok(conn),
        Err(fault) => Err(fault),
    }
}

/// Adopts the tables of a connection or creates them, or drops it with a refusal.
fn store_or_drop<S: Alter + Drop>(
    alloc: Global,
    conn: Connection<S>,
    course: Course,
    entries: &[Entry<'_>],
) -> Result<Store<S>, StoreFault>
    requires { conn.in_transaction ≡ false }
    ensures stands { course ≡ Course.Adopt → IfOk result (λ store. (b : History) → IsSound b
        → IsFound (tables_of b) (state S.Store conn) → Stands S.Store b store) }
    ensures ours { course ≡ Course.Adopt → IfOk result (λ store. HasCleanDisk (state S.Store store.conn)
        → LooksOurs (state S.Store conn)) }
    ensures looks { course ≡ Course.Adopt
        → IfOk result (λ store. Looks (state S.Store conn) (state S.Store store.conn)) }
    ensures foreign { course ≡ Course.Adopt → IfErr result (λ e. e ≡ StoreFault.NotOurs → SeemsForeign S.Store conn) }
    ensures made { course ≡ Course.Create → IfOk result (λ store. FitInTurn (entries_view entries.now) []
        → Stands S.Store (with_all (entries_view entries.now) []) store) }
    ensures opened { course ≡ Course.Create → IfOk result (λ store. HasCleanDisk (state S.Store store.conn)
        → IsTrue (state S.Store store.conn).is_open) }
    ensures uncounted { IfOk result (λ store. store.faults ≡ 0) }
    ensures refusals { IfErr result (IsOfStorageOr StoreFault.NotOurs) }
{
    match course {
        Course::Adopt => adopt_or_drop(alloc, conn),
        Course::Create => create_or_drop(alloc, conn, entries),
    }
}

/// Takes a connection to tables that were made before, or drops it with a refusal.
fn adopt_or_drop<S: Alter + Drop>(
    alloc: Global,
    conn: Connection<S>,
) -> Result<Store<S>, StoreFault>
    requires { conn.in_transaction ≡ false }
    ensures stands { IfOk result (λ store. (b : History) → IsSound b → IsFound (tables_of b) (state S.Store conn)
        → Stands S.Store b store) }
    ensures ours { IfOk result (λ store. HasCleanDisk (state S.Store store.conn) → LooksOurs (state S.Store conn)) }
    ensures looks { IfOk result (λ store. Looks (state S.Store conn) (state S.Store store.conn)) }
    ensures foreign { IfErr result (λ e. e ≡ StoreFault.NotOurs → SeemsForeign S.Store conn) }
    ensures uncounted { IfOk result (λ store. store.faults ≡ 0) }
    ensures refusals { IfErr result (IsOfStorageOr StoreFault.NotOurs) }
{
    match Store::adopt(alloc, conn) {
        Ok(store) => Ok(store),
        Err((fault, _conn)) => Err(fault),
    }
}

/// Makes the tables in a database that has none yet, with these entries.
fn create_or_drop<S: Alter + Drop>(
    alloc: Global,
    conn: Connection<S>,
    entries: &[Entry<'_>],
) -> Result<Store<S>, StoreFault>
    requires { conn.in_transaction ≡ false }
    ensures made { IfOk result (λ store. FitInTurn (entries_view entries.now) []
        → Stands S.Store (with_all (entries_view entries.now) []) store) }
    ensures opened { IfOk result (λ store. HasCleanDisk (state S.Store store.conn)
        → IsTrue (state S.Store store.conn).is_open) }
    ensures uncounted { IfOk result (λ store. store.faults ≡ 0) }
    ensures refusals { IfErr result (IsOfStorageOr StoreFault.NotOurs) }
{
    if !has_no_table(&conn) {
        return Err(StoreFault::NotOurs);
    }
    match Store::create_with(alloc, conn, entries) {
        Ok(store) => Ok(store),
        Err((fault, _conn)) => Err(fault),
    }
}

/// Whether a database has no table, index or view.
fn has_no_table<S: Alter>(conn: &Connection<S>) -> bool
    ensures { IsTrue result ↔ ((state S.Store conn.now).now.schema ≡ no_schema) }
{
    let schema = conn.schema();
    schema.tables.is_empty() && schema.indexes.is_empty() && schema.views.is_empty()
}
