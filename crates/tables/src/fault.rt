ghost use Rattle.std.specs.Prelude.{◌≡◌, ◌≢◌, true};
ghost use Rattle.tables.specs.Faults.{fault_of, opening_fault_of, told, told_using};
ghost use Rattle.tables.specs.Versions.{tells_taken};

use book::StoreFault;
use sqlite::{Error, ErrorCode};

/// Why a call on the tables was refused.
#[derive(Clone, Copy, Debug)]
pub enum TableFault {
    /// A growth was refused, or the database answered that it found no memory.
    Memory,
    /// The database refused for another cause, which counts as a fault.
    Database,
}

/// Why a connection wasn't taken.
#[derive(Clone, Copy, Debug)]
pub enum OpenFault {
    /// A growth was refused, or the database answered that it found no memory.
    Memory,
    /// The database refused for another cause.
    Database,
    /// A name is taken, or a table, a column or the row of `meta` isn't ours.
    NotOurs,
}

/// What the database was asked for, which says what its error tells.
#[derive(Clone, Copy)]
pub enum Task {
    /// To open its files.
    Open,
    /// To make tables.
    Make,
    /// Anything else.
    Use,
}

impl OpenFault {
    /// The database's error as a refusal: want of memory as it is; as another's what is no database, where its files
    /// are opened, and where tables are made a name that is taken, or a statement that isn't understood; and any other
    /// as the database's.
    pub fn of(error: Error, task: Task) -> OpenFault
        ensures value { result ≡ told error task }
        ensures never { task ≡ Task.Use → result ≢ OpenFault.NotOurs }
        ensures taken { task ≡ Task.Make → result ≡ OpenFault.NotOurs → tells_taken error ≡ true }
        ensures none { task ≡ Task.Open → result ≡ OpenFault.NotOurs
            → error ≡ Error.SqliteFailure ErrorCode.NotADatabase }
        ensures memory { result ≡ OpenFault.Database → error ≢ Error.SqliteFailure ErrorCode.OutOfMemory }
    {
        match error {
            Error::SqliteFailure(ErrorCode::OutOfMemory) => OpenFault::Memory,
            Error::SqliteFailure(ErrorCode::NotADatabase) => match task {
                Task::Open => OpenFault::NotOurs,
                Task::Make | Task::Use => OpenFault::Database,
            },
            Error::SqliteFailure(ErrorCode::NameTaken) | Error::SqlInputError(_) => match task {
                Task::Make => OpenFault::NotOurs,
                Task::Open | Task::Use => OpenFault::Database,
            },
            _ => OpenFault::Database,
        }
    }
}

impl TableFault {
    /// The database's error as a refusal of a call on the tables: want of memory as it is, and any other as the
    /// database's.
    pub fn of(error: Error) -> TableFault
        ensures { result ≡ told_using error }
    {
        match OpenFault::of(error, Task::Use) {
            OpenFault::Memory => TableFault::Memory,
            OpenFault::Database | OpenFault::NotOurs => TableFault::Database,
        }
    }
}

impl From<TableFault> for StoreFault {
    ghost from_gives = { λ fault e. e ≡ fault_of fault };

    fn from(fault: TableFault) -> StoreFault {
        match fault {
            TableFault::Memory => StoreFault::Memory,
            TableFault::Database => StoreFault::Database,
        }
    }
}

impl From<OpenFault> for StoreFault {
    ghost from_gives = { λ fault e. e ≡ opening_fault_of fault };

    fn from(fault: OpenFault) -> StoreFault {
        match fault {
            OpenFault::Memory => StoreFault::Memory,
            OpenFault::Database => StoreFault::Database,
            OpenFault::NotOurs => StoreFault::NotOurs,
        }
    }
}
