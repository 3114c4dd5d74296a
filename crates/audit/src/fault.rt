ghost use Rattle.std.specs.Prelude.{◌≡◌};
ghost use Rattle.audit.specs.{Fault.fault_of, declared.fault.ExtractFault.TheVariants.Memory};

use book::StoreFault;
use std::alloc::{AllocError, AllocFailed};
use thiserror::Error;

/// Why an extract is refused. Each refusal has a number, which the program prints.
#[derive(Clone, Copy, Debug, PartialEq, Eq, Error)]
pub enum ExtractFault {
    /// The account is no active auditor of the policy file.
    #[error("only an auditor may have an extract")]
    NotAuditor = 1,
    /// The serial numbers aren't from 1 on, or the last is before the first.
    #[error("no such range of serial numbers")]
    Range = 2,
    /// Memory ran out: a growth was refused, or the store answered that it found none.
    #[error("out of memory")]
    Memory = 3,
    /// The store refused for another cause; its count of such refusals rose.
    #[error("the store failed")]
    Store = 4,
    /// A write failed, or took no octet. Or a line would take the extract beyond the limit that `write_extract` is
    /// given, or to 2^64 octets or more.
    #[error("the extract can't be written")]
    Write = 5,
}

impl From<AllocError> for ExtractFault {
    ghost from_gives = { λ _ e. e ≡ Memory };

    fn from(_e: AllocError) -> ExtractFault {
        ExtractFault::Memory
    }
}

impl<T: Drop> From<AllocFailed<T>> for ExtractFault {
    ghost from_gives = { λ _ e. e ≡ Memory };

    fn from(_e: AllocFailed<T>) -> ExtractFault {
        ExtractFault::Memory
    }
}

impl From<StoreFault> for ExtractFault {
    ghost from_gives = { λ fault e. e ≡ fault_of fault };

    fn from(fault: StoreFault) -> ExtractFault {
        match fault {
            StoreFault::Memory => ExtractFault::Memory,
            StoreFault::Database | StoreFault::NotOurs | StoreFault::Full | StoreFault::Backwards =>
                ExtractFault::Store,
        }
    }
}

impl ExtractFault {
    ghost use Rattle.audit.specs.Fault.{number_of};

    /// The refusal's number, 1 to 5.
    pub fn number(self) -> u8
        ensures { result ≡ number_of self }
    {
        self as u8
    }
}
