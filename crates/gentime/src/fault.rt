//! Why a moment or its text is refused.

ghost use Rattle.std.specs.Prelude.{◌≡◌};
ghost use Rattle.gentime.specs.declared.fault.GenTimeFault.TheVariants.{Memory};

use std::alloc::{AllocError, AllocFailed};
use thiserror::Error;

/// A refusal. Of several that hold, the one with the lowest number is answered; `Memory` comes where it is met.
#[derive(Clone, Copy, Debug, PartialEq, Eq, Error)]
pub enum GenTimeFault {
    /// The octets haven't the form of a GeneralizedTime in DER (X.690 11.7), whether or not there is such a time.
    #[error("not a GeneralizedTime in DER")]
    Form = 1,
    /// The calendar has no such date, or the day no such time (hour 24 and second 60 too).
    #[error("no such date or time of day")]
    Date = 2,
    /// The moment is before 1970 or after 9999, or has more than six digits of a fraction.
    #[error("outside the range of moments")]
    Range = 3,
    /// An allocation was refused.
    #[error("out of memory")]
    Memory = 4,
}

impl GenTimeFault {
    ghost use Rattle.gentime.specs.GenTimeFault.{number_of};

    /// The refusal's number: 1 Form, 2 Date, 3 Range, 4 Memory.
    pub fn number(self) -> u8
        ensures { result ≡ number_of self }
    {
        self as u8
    }
}

impl From<AllocError> for GenTimeFault {
    ghost from_gives = { λ _ fault. fault ≡ Memory };

    fn from(_error: AllocError) -> GenTimeFault {
        GenTimeFault::Memory
    }
}

impl<T: Drop> From<AllocFailed<T>> for GenTimeFault {
    ghost from_gives = { λ _ fault. fault ≡ Memory };

    fn from(_error: AllocFailed<T>) -> GenTimeFault {
        GenTimeFault::Memory
    }
}
