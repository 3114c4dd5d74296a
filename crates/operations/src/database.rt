//! The database at a path: what opens and makes it, and what is left of it once it is closed.
ghost use Rattle.std.specs.Prelude.{[], ℕ, List, IfErr, IfOk, OnOk, Result};
ghost use Rattle.sqlite_wal.specs.Recovery.{Image};
ghost use Rattle.sqlite.specs.Files.{over_files};
ghost use Rattle.tables.specs.Base.{IsHonest, IsOpen};
ghost use Rattle.store.specs.{Files.MigratesFound, Stands.over_tables};
ghost use Rattle.book.specs.Entries.{FitInTurn, entries_view, with_all};
ghost use Rattle.book.specs.{Stands.Stands, declared.fault.StoreFault.StoreFault as SpecFault};
ghost use Rattle.operations.specs.{DatabaseFaults.IsOpeningFault, OverFiles.IsMadeOver, OverFiles.IsOpenedOver};

use book::{Book, Entry, StoreFault};
use sqlite::FileStore;
use sqlite_disk::Disk;
use store::Store;

/// The database at a path, before it is opened.
#[derive(Drop)]
pub struct Database<'a, F> {
    /// Where it lies.
    pub path: &'a str,
    /// Its files.
    pub files: F,
}

/// The files of one database, before they are opened.
///
/// What is done to a database gets these in place of the machine, and they are used up by it: so it opens no other, and
/// none twice; and what an instance tells of a refusal is known only of one that it gave.
pub trait DatabaseFiles: Drop {
    /// The disk on which they lie.
    type Disk: Disk + Drop;

    // what they hold
    ghost held: { Image };

    // an opening at a path is refused so
    ghost refuses: { Self → List ℕ → SpecFault → Type 0 };

    // making a database is refused so
    ghost refuses_making: { Self → List ℕ → SpecFault → Type 0 };

    // at a path nothing stands but what a database can be made in
    ghost is_free: { Self → List ℕ → Type 0 };

    // taking one to the schema of now is refused so
    ghost refuses_migrating: { Self → List ℕ → SpecFault → Type 0 };

    /// Opens the database at a path. Refused with `Memory`, with `Database` where no file stands there or it can't be
    /// read or written, and with `NotOurs` where it isn't a database of the counter's: that is left as it is.
    fn open(self, path: &str) -> Result<Store<FileStore<Self::Disk>>, StoreFault>
        ensures opened { IfOk result (IsOpenedOver Self.Disk.Disk held) }
        ensures refused { IfErr result (refuses self path.now) }
        ensures refusals { IfErr result IsOpeningFault };

    /// Makes the tables in a new database at a path, where no file stands, an empty one, or a database without tables,
    /// with its first entries, in one commit. Refused with `Memory`, with `Database` where the file can't be made, read
    /// or written, and with `NotOurs` where something else stands there: that is left as it is.
    fn make(
        self,
        path: &str,
        entries: &[Entry<'_>],
    ) -> Result<Store<FileStore<Self::Disk>>, StoreFault>
        ensures stands { IfOk result (λ made. FitInTurn (entries_view entries.now) []
            → Stands (over_tables over_files) (with_all (entries_view entries.now) []) made) }
        ensures opened { IfOk result (λ made. IsHonest over_files made → IsOpen over_files made) }
        ensures refused { IfErr result (refuses_making self path.now) }
        ensures refusals { IfErr result IsOpeningFault };

    /// Whether one can be made at a path, as far as can be seen before: refused as `make` is.
    fn may_make(&self, path: &str) -> Result<(), StoreFault>
        ensures free { OnOk result (is_free self.now path.now) }
        ensures refusals { IfErr result IsOpeningFault };

    /// Takes the database at a path to the schema of now, in one commit: each row is kept. Refused as `open` is.
    fn migrate(self, path: &str) -> Result<(), StoreFault>
        ensures migrated { OnOk result (MigratesFound Self.Disk.Disk held) }
        ensures refused { IfErr result (refuses_migrating self path.now) }
        ensures refusals { IfErr result IsOpeningFault };
}

/// The history that an opened database keeps, until that is closed. What an instance tells of a closing is known only
/// of what was closed by it.
pub trait OpenDatabase: Book + Drop {
    /// What is left of it.
    type Left: Drop;

    // its closing is answered so
    ghost closes: { Self → Result Self.Left SpecFault → Type 0 };

    /// Closes it.
    fn close_database(self) -> Result<Self::Left, StoreFault>
        ensures { closes self result };
}

/// Makes the tables in a new database, where no file stands, an empty one, or a database without tables.
/// Refused with `Memory`, with `Database` where the file can't be made, read or written, and with `NotOurs` where
/// something else stands there, a database of the counter's too: that is left as it is.
pub fn init<F: DatabaseFiles>(database: Database<'_, F>) -> Result<(), StoreFault>
    // A store is made that stands for the empty history, and nothing is done to it.
    ensures made { OnOk result (IsMadeOver F.Disk.Disk []) }
    ensures refused { IfErr result (F.refuses_making database.entry.files database.entry.path.now) }
    ensures refusals { IfErr result IsOpeningFault }
{
    make_at(database, &[])
}

/// Takes the database, which an earlier version of the counter may have made, to the schema of now, in one commit: each
/// row is kept. Refused as `perform_at` is; what stands there is left as it is then.
pub fn migrate<F: DatabaseFiles>(database: Database<'_, F>) -> Result<(), StoreFault>
    ensures migrated { OnOk result (MigratesFound F.Disk.Disk F.held) }
    ensures refused { IfErr result (F.refuses_migrating database.entry.files database.entry.path.now) }
    ensures refusals { IfErr result IsOpeningFault }
{
    database.files.migrate(database.path)
}

/// Makes the tables in a new database, with its first entries, and closes it. Refused as `init` is.
pub(crate) fn make_at<F: DatabaseFiles>(
    database: Database<'_, F>,
    entries: &[Entry<'_>],
) -> Result<(), StoreFault>
    ensures made { OnOk result (IsMadeOver F.Disk.Disk (entries_view entries.now)) }
    ensures refused { IfErr result (F.refuses_making database.entry.files database.entry.path.now) }
    ensures refusals { IfErr result IsOpeningFault }
{
    let made = database.files.make(database.path, entries)?;
    let _closed = made.close_database();
    Ok(())
}
