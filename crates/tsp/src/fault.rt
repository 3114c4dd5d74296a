ghost use Rattle.std.specs.Prelude.{◌≡◌};
ghost use Rattle.tsp.specs.declared.fault.TspFault.TheVariants.{Memory};

use std::alloc::{AllocError, AllocFailed};
use thiserror::Error;

/// Why octets are refused. Each refusal has a number, which the program prints.
#[derive(Clone, Copy, Debug, PartialEq, Eq, Error)]
pub enum TspFault {
    /// The octets aren't of their grammar (RFC 3161 2.4.1, 2.4.2).
    #[error("the octets are not of their grammar")]
    Form = 1,
    /// More than 65,536 octets, which is judged first.
    #[error("there are more than 65,536 octets")]
    TooLong = 2,
    /// Memory ran out.
    #[error("out of memory")]
    Memory = 3,
}

impl From<AllocError> for TspFault {
    ghost from_gives = { λ _ e. e ≡ Memory };

    fn from(_e: AllocError) -> TspFault {
        TspFault::Memory
    }
}

impl<T: Drop> From<AllocFailed<T>> for TspFault {
    ghost from_gives = { λ _ e. e ≡ Memory };

    fn from(_e: AllocFailed<T>) -> TspFault {
        TspFault::Memory
    }
}

impl TspFault {
    ghost use Rattle.tsp.specs.Fault.{number_of};

    /// The refusal's number, 1 to 3.
    pub fn number(self) -> u8
        ensures { result ≡ number_of self }
    {
        self as u8
    }
}
