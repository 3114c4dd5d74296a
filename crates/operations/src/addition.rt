//! What an operator adds to the history.
ghost use Rattle.std.specs.Prelude.{◌≡◌, ◌⊎◌, [], ◌∷◌, Err, IfErr, IfOk, IsErr};
ghost use Rattle.book.specs.{Entries.Appends, History.History, Stands.LeavesAsBefore, Stands.Stands};
ghost use Rattle.operations.specs.Addition.{IsAdded, IsAdditionFault, IsBefore, entry_of, number_of};
ghost use Rattle.operations.specs.OverFiles.{IsDoneOver};

use crate::database::{Database, DatabaseFiles};
use crate::operation::{Operation, perform_at};
use book::{Book, Calibration, Hold, StoreFault};
use std::alloc::Global;

/// What an operator adds to the history.
#[derive(Clone, Copy)]
pub enum Addition {
    /// What the clock was found to be.
    Calibration(Calibration),
    /// Moments at which no token is given.
    Hold(Hold),
}

impl Addition {
    /// Adds it to a history. The caller's conditions are those of `Book::calibrate` and `Book::hold`, and so are the
    /// refusals: `Memory`, `Database`, and `Backwards` for a calibration whose reading is before that of the latest.
    /// The answer is its number: calibrations count 1, 2, 3 and so on, and so do holds.
    pub fn add_to<B: Book>(&self, book: &mut B) -> Result<u64, StoreFault>
        ensures appends { Appends B.Standing (entry_of self.now ∷ []) book.old book.new result }
        ensures number { B.honest book.new → (b : History) → Stands B.Standing b book.old
            → IfOk result (λ number. number ≡ number_of self.now b) }
        ensures backwards { B.honest book.new → (b : History) → Stands B.Standing b book.old
            → result ≡ Err StoreFault.Backwards → IsBefore self.now b }
        ensures refused { B.honest book.new → (b : History) → Stands B.Standing b book.old → IsBefore self.now b
            → IsErr result × LeavesAsBefore B.Standing book.old book.new }
        ensures refusals { IfErr result IsAdditionFault }
    {
        match self {
            Addition::Calibration(calibration) => book.calibrate(calibration),
            Addition::Hold(hold) => book.hold(hold),
        }
    }
}

impl Operation<(), ()> for Addition {
    type Answer = Result<u64, StoreFault>;

    ghost answers = { λ _ _ _ _ _ done. IfErr done IsAdditionFault };

    ghost moves = { λ _ g addition old new _ _ _ _ done. IsAdded g addition old new done };

    fn perform<B: Book + Drop>(
        self,
        _alloc: Global,
        book: B,
        _input: &mut (),
        _output: &mut (),
    ) -> (B, Result<u64, StoreFault>) {
        let mut book = book;
        let done = self.add_to(&mut book);
        (book, done)
    }
}

/// Adds it to the history that the database keeps, in one commit. Refused with `Memory`, with `Database`
/// where no file stands there or the database fails, with `NotOurs` where it isn't a database of the counter's, and as
/// `Addition::add_to`. A refused call makes no file, and changes no table, but where the database failed in the commit
/// itself: the next opening may find the addition then. The answer is its number.
pub fn add<F: DatabaseFiles>(
    alloc: Global,
    database: Database<'_, F>,
    addition: &Addition,
) -> Result<u64, StoreFault>
    // Whatever the files hold: it is added to the store that was opened over them, nothing else is done to that, and it
    // is closed.
    ensures added { IfOk result (λ _. IsDoneOver F.Disk.Disk F.held (λ g opened left.
        IsAdded g addition.now opened left result)) }
    ensures backwards { result ≡ Err StoreFault.Backwards → IsDoneOver F.Disk.Disk F.held (λ g opened left.
        IsAdded g addition.now opened left result) }
    // Where it is refused, no store was opened, by that refusal, or the one that was opened refused it.
    ensures refused { IfErr result (λ fault. F.refuses database.entry.files database.entry.path.now fault
        ⊎ IsDoneOver F.Disk.Disk F.held (λ g opened left. IsAdded g addition.now opened left result)) }
    ensures refusals { IfErr result (λ e. (e ≡ StoreFault.Memory)
        ⊎ ((e ≡ StoreFault.Database) ⊎ ((e ≡ StoreFault.NotOurs) ⊎ (e ≡ StoreFault.Backwards)))) }
{
    perform_at(alloc, database, *addition, &mut (), &mut ())?
}
