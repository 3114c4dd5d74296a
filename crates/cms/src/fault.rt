ghost use Rattle.std.specs.Prelude.{◌≡◌};
ghost use Rattle.cms.specs.declared.fault.CmsFault.TheVariants.{Memory};

use std::alloc::{AllocError, AllocFailed};
use thiserror::Error;

/// Why a certificate, a chain or an algorithm is refused. Each refusal has a number, which the program prints.
#[derive(Clone, Copy, Debug, PartialEq, Eq, Error)]
pub enum CmsFault {
    /// The octets are no certificate (RFC 5280 4.1), or no AlgorithmIdentifier (RFC 5280 4.1.1.2).
    #[error("the octets are no certificate or algorithm")]
    NotCertificate = 1,
    /// More octets of one certificate or algorithm than are read, which is judged first.
    #[error("there are too many octets")]
    TooLarge = 2,
    /// Memory ran out.
    #[error("out of memory")]
    Memory = 3,
    /// More than three further certificates in a chain.
    #[error("there are too many certificates")]
    TooMany = 4,
    /// A certificate that stands twice among the signer's and those of its chain.
    #[error("a certificate stands twice")]
    Repeated = 5,
}

impl From<AllocError> for CmsFault {
    ghost from_gives = { λ _ e. e ≡ Memory };

    fn from(_e: AllocError) -> CmsFault {
        CmsFault::Memory
    }
}

impl<T: Drop> From<AllocFailed<T>> for CmsFault {
    ghost from_gives = { λ _ e. e ≡ Memory };

    fn from(_e: AllocFailed<T>) -> CmsFault {
        CmsFault::Memory
    }
}

impl CmsFault {
    ghost use Rattle.cms.specs.Fault.{number_of};

    /// The refusal's number, 1 to 5.
    pub fn number(self) -> u8
        ensures { result ≡ number_of self }
    {
        self as u8
    }
}
