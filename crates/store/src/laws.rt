//! What holds of each history, and of the store as a book.
ghost use Rattle.std.specs.Prelude.{◌≡◌, ◌≤◌, ◌<◌, ◌↔◌, true, Contains};
ghost use Rattle.tables.specs.{Base.BaseValue, Tables.ReaderRow, Tables.TallyRow};
ghost use Rattle.book.specs.Stands.{Stands as BookStands, OnlyLooks as BookLooks};
ghost use Rattle.book.specs.History.{History, ReservationValue, Reserved};
ghost use Rattle.book.specs.History.{count_of_day, greatest_serial, reservations};
ghost use Rattle.book.specs.{Readers.Account, Readers.Group, Rights.is_reader, Sound.Fits, Sound.IsSound};
ghost use Rattle.store.specs.Alike.{HaveSameRows, AreAlike};
ghost use Rattle.store.specs.{Stands.Stands, Stands.OnlyLooks, Stops.FindsWhatIsHeld, TablesOf.tables_of};

use crate::store::Store;
use book::Standing;
use sqlite::Alter;
use sqlite_disk::Disk;
use tables::stored_tables_are_found;

/// Sound histories with the same rows in their tables, in whatever order, have the same views, and in both the same
/// account sees the same.
pub fn equal_tables_tell_the_same()
    ensures { (b d : History) → IsSound b → IsSound d → HaveSameRows (tables_of b) (tables_of d) → AreAlike b d }
{}

/// In the tables of a sound history a reader row stands exactly where the last entry about deposit and account is a
/// grant, one of a group exactly where the last about deposit and group is, and a tally row exactly where its count is
/// that of its account and day, and isn't 0.
pub fn rows_stand_exactly()
    ensures readers { (b : History) → IsSound b → (row : ReaderRow)
        → Contains (tables_of b).readers row ↔ (is_reader row.serial (Account row.name) b ≡ true) }
    ensures group_readers { (b : History) → IsSound b → (row : ReaderRow)
        → Contains (tables_of b).group_readers row ↔ (is_reader row.serial (Group row.name) b ≡ true) }
    ensures tallies { (b : History) → IsSound b → (row : TallyRow) → Contains (tables_of b).tallies row
        ↔ ((row.count ≡ count_of_day row.account row.day b) × (0 < row.count)) }
{}

/// The greatest serial number isn't below any that is reserved, and the next that is reserved is above all of them,
/// whether they are sealed or not.
pub fn serials_rise()
    ensures greatest { (b : History) (r : ReservationValue) → Contains (reservations b) r
        → r.serial ≤ greatest_serial b }
    ensures next { (b : History) (new r : ReservationValue) → Fits (Reserved new) b → Contains (reservations b) r
        → r.serial < new.serial }
{}

/// What is said of a store as of any book is said of the tables in its database, and the other way round: the
/// histories that it stands for, and what a look-up leaves.
pub fn book_stands_in_tables<S: Alter + Drop>()
    ensures stands { (b : History) (store : BaseValue S)
        → BookStands ⟦<Store<S> as Standing>⟧ b store ↔ Stands S.Store b store }
    ensures looks { (old new : BaseValue S) → BookLooks ⟦<Store<S> as Standing>⟧ old new ↔ OnlyLooks S.Store old new }
{}

/// What the files hold, an opening finds: the store stands for each sound history whose tables they hold, whatever left
/// these there. A stop between calls leaves those of the history for which the store stood; one in a call of entries
/// (`crash`), in the making of tables or in a migration may leave those that its clause names; and a closing those of
/// what was closed.
pub fn openings_find_what_was_left<D: Disk + Drop>()
    ensures { FindsWhatIsHeld D.Disk }
{
    stored_tables_are_found();
}
