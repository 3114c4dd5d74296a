ghost use Rattle.std.specs.Prelude.{◌≡◌};
ghost use Rattle.policy.specs.declared.fault.PolicyFault.TheVariants.{Memory};

use crate::field::Field;
use std::alloc::{AllocError, AllocFailed};
use thiserror::Error;

/// Why a policy file is refused. Each refusal has a number, which the program prints.
#[derive(Clone, Copy, Debug, PartialEq, Eq, Error)]
pub enum PolicyFault {
    /// The text is no TOML document.
    #[error("the text is no TOML document")]
    Toml,
    /// A key or the table `counter` is missing.
    #[error("{0} is missing")]
    Missing(Field),
    /// A value of a wrong type, range or form, or an empty list where at least one name is asked.
    #[error("{0} has a wrong value")]
    BadValue(Field),
    /// A name, object identifier or key hash that an earlier entry of its array has, or a name twice in one list.
    #[error("{0} stands twice")]
    Duplicate(Field),
    /// A key that isn't one of its table's, a listed name that doesn't exist, or a `counter.anonymous` that names no
    /// account.
    #[error("{0} is unknown")]
    UnknownName(Field),
    /// More entries in an array than it may have.
    #[error("there are too many of {0}")]
    TooMany(Field),
    /// Memory ran out.
    #[error("out of memory")]
    Memory,
}

impl From<AllocError> for PolicyFault {
    ghost from_gives = { λ _ e. e ≡ Memory };

    fn from(_e: AllocError) -> PolicyFault {
        PolicyFault::Memory
    }
}

impl<T: Drop> From<AllocFailed<T>> for PolicyFault {
    ghost from_gives = { λ _ e. e ≡ Memory };

    fn from(_e: AllocFailed<T>) -> PolicyFault {
        PolicyFault::Memory
    }
}

impl PolicyFault {
    ghost use Rattle.policy.specs.Fault.{number_of};

    /// The refusal's number, 1 to 7.
    pub fn number(self) -> u8
        ensures { result ≡ number_of self }
    {
        match self {
            PolicyFault::Toml => 1,
            PolicyFault::Missing(_) => 2,
            PolicyFault::BadValue(_) => 3,
            PolicyFault::Duplicate(_) => 4,
            PolicyFault::UnknownName(_) => 5,
            PolicyFault::TooMany(_) => 6,
            PolicyFault::Memory => 7,
        }
    }
}
