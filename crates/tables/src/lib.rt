//! The tables of the time-stamping counter's database: their schema, the statements on them, and what each entry
//! of the history and each query means of their rows.
#![tactic(auto)]

mod base;
mod calibrations;
mod changes;
mod creation;
mod deposits;
mod fault;
mod holds;
mod identities;
mod laws;
mod migration;
mod queries;
mod rights;
mod rows;
mod stamps;
mod tallies;
mod version;

pub use base::Base;
pub use book::{Deposit, IdentityRow, Stamp};
pub use fault::{OpenFault, TableFault, Task};
pub use laws::{earlier_tables_are_found, stored_tables_are_found};
pub use migration::migrate;
pub use rows::{ColumnNumber, Label, LastStamp, NumberedCalibration, Origin};
pub use version::Version;
