//! What an opening finds of the tables.
ghost use Rattle.sqlite.specs.Effect.{Database, IsDatabase};
ghost use Rattle.tables.specs.Layout.{IsStored, IsDatabaseOf, IsStoredIn, IsDatabaseIn};
ghost use Rattle.tables.specs.{Tables.Tables, Versions.number_of, declared.version.Version.Version};

/// Trees in which tables are stored list the counter's schema and no other: a database that is found in them has these
/// tables.
pub fn stored_tables_are_found()
    ensures { (t : Tables) (d : Database) → IsDatabase d → IsStored t d.trees → IsDatabaseOf t d }
{}

/// The same of tables of each version.
pub fn earlier_tables_are_found()
    ensures { (v : Version) (t : Tables) (d : Database) → IsDatabase d → IsStoredIn (number_of v) t d.trees
        → IsDatabaseIn (number_of v) t d }
{}
