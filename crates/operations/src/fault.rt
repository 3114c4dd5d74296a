//! Why an operation over the database stops.
ghost use Rattle.std.specs.Prelude.{◌≡◌};
ghost use Rattle.operations.specs.declared.fault.ContinuationFault.TheVariants.{Unclosed};
ghost use Rattle.operations.specs.declared.fault.OperationFault.TheVariants.{Store};

use book::StoreFault;
use desk::Fault;

/// Why nothing is answered.
#[derive(Clone, Copy)]
pub enum OperationFault {
    /// The database refused, or isn't the counter's.
    Store(StoreFault),
    /// The identity can't be installed: the database refused, or memory ran out.
    Desk(Fault),
    /// The key holder can't be reached.
    Unreached,
    /// The address can't be listened on.
    Unheard,
    /// The clock failed.
    Clock,
}

/// Why a history doesn't go on in a new database, by what was done.
#[derive(Clone, Copy)]
pub enum ContinuationFault {
    /// The old database can't be opened.
    Unopened(StoreFault),
    /// The old database was only looked at: it can't be read, or no database can be made at the new path, or memory
    /// ran out.
    Unclosed(StoreFault),
    /// It was only looked at: the serial number isn't above its greatest, the moment is before its last genTime, or it
    /// has no stamp.
    NotAfter,
    /// From its closing on: it is closed for tokens, or as it was.
    Unfinished(StoreFault),
}

impl From<StoreFault> for ContinuationFault {
    ghost from_gives = { λ fault e. e ≡ Unclosed fault };

    fn from(fault: StoreFault) -> ContinuationFault {
        ContinuationFault::Unclosed(fault)
    }
}

impl From<StoreFault> for OperationFault {
    ghost from_gives = { λ fault e. e ≡ Store fault };

    fn from(fault: StoreFault) -> OperationFault {
        OperationFault::Store(fault)
    }
}
