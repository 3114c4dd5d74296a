//! What holds of a history that goes on in another database.
ghost use Rattle.std.specs.Prelude.{Option};
ghost use Rattle.sqlite_wal.specs.Recovery.{Image};
ghost use Rattle.operations.specs.OverFiles.{IsContinuedOver, TakesJourneys};
ghost use Rattle.operations.specs.declared.void_stamp.Floor.{Floor as SpecFloor};

use book::closed_books_hold_all_moments;
use desk::{
    closed_books_give_nothing_out, closed_books_stay_closed, continuations_rise,
    journeys_keep_their_promises,
};
use sqlite_disk::Disk;
use store::openings_find_what_was_left;

/// A journey goes over what `continue_in` did (`continued`): each one to a history whose tables the old files held goes
/// on in the new database, above all that it reserved, and the old one is closed for good.
pub fn journeys_go_over_continuations<D: Disk + Drop, E: Disk + Drop>()
    ensures { (held : Image) (floor : Option SpecFloor) → IsContinuedOver D.Disk held E.Disk floor
        → TakesJourneys D.Disk held E.Disk }
{
    openings_find_what_was_left::<D>();
    closed_books_hold_all_moments();
    closed_books_give_nothing_out();
    closed_books_stay_closed();
    continuations_rise();
    journeys_keep_their_promises();
}
