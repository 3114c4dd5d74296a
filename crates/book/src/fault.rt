ghost use Rattle.std.specs.Prelude.{◌≡◌};
ghost use Rattle.book.specs.declared.fault.StoreFault.TheVariants.{Memory};

use std::alloc::AllocFailed;
use thiserror::Error;

/// Why a call of a book, or its opening, is refused. Each refusal has a number, which the program prints.
#[derive(Clone, Copy, Debug, PartialEq, Eq, Error)]
pub enum StoreFault {
    /// Memory ran out: a growth was refused, or what keeps the book answered that it found none.
    #[error("out of memory")]
    Memory = 1,
    /// What keeps the book, as a database, refused for another cause; the book's count of such refusals rose.
    #[error("the database refused")]
    Database = 2,
    /// The database's tables aren't the counter's; for a new database, a table's name is taken.
    #[error("the database is not one of this counter")]
    NotOurs = 3,
    /// All serial numbers are used up.
    #[error("the serial numbers are used up")]
    Full = 4,
    /// A calibration whose reading is before the last one's.
    #[error("the reading is before that of the last calibration")]
    Backwards = 5,
}

impl<T: Drop> From<AllocFailed<T>> for StoreFault {
    ghost from_gives = { λ _ e. e ≡ Memory };

    fn from(_e: AllocFailed<T>) -> StoreFault {
        StoreFault::Memory
    }
}

impl StoreFault {
    ghost use Rattle.book.specs.Fault.{number_of};

    /// The refusal's number, 1 to 5.
    pub fn number(self) -> u8
        ensures { result ≡ number_of self }
    {
        self as u8
    }
}
