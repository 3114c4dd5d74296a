use std::alloc::{AllocError, AllocFailed};
use thiserror::Error;

/// Why octets or a text are refused. Each refusal has a number, which the program prints.
#[derive(Clone, Copy, Debug, PartialEq, Eq, Error)]
pub enum DerFault {
    /// Octets are missing: an identifier octet, length octets or contents octets (X.690 8.1.1).
    #[error("octets are missing")]
    Truncated = 1,
    /// The length octets are the indefinite form, a reserved form, or more than the fewest (X.690 8.1.3, 10.1).
    #[error("the length is not in the definite form in the fewest octets")]
    LengthForm = 2,
    /// A tag number of 31 and above, in the high-tag-number form (X.690 8.1.2.4).
    #[error("the tag number is 31 or above")]
    HighTag = 3,
    /// Another tag stands where a certain one is expected.
    #[error("another kind of value is expected")]
    WrongKind = 4,
    /// A value lies on level 33 or below; the outermost is level 1.
    #[error("values are nested more than 32 levels deep")]
    TooDeep = 5,
    /// Contents of 2^24 octets or more.
    #[error("the contents have 2^24 octets or more")]
    TooLong = 6,
    /// Octets stand after the value.
    #[error("octets stand after the value")]
    Trailing = 7,
    /// The contents or the text are not of their type.
    #[error("the contents or the text are malformed")]
    BadValue = 8,
    /// Memory ran out.
    #[error("out of memory")]
    Memory = 9,
}

ghost use Rattle.std.specs.Prelude.{◌≡◌};
ghost use Rattle.der.specs.declared.fault.DerFault.TheVariants.{Memory};

impl From<AllocError> for DerFault {
    ghost from_gives = { λ _ e. e ≡ Memory };

    fn from(_e: AllocError) -> DerFault {
        DerFault::Memory
    }
}

impl<T: Drop> From<AllocFailed<T>> for DerFault {
    ghost from_gives = { λ _ e. e ≡ Memory };

    fn from(_e: AllocFailed<T>) -> DerFault {
        DerFault::Memory
    }
}

impl DerFault {
    ghost use Rattle.der.specs.Fault.{number_of};

    /// The refusal's number, 1 to 9.
    pub fn number(self) -> u8
        ensures { result ≡ number_of self }
    {
        self as u8
    }
}
