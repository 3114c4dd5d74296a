//! The history of what the counter accepted, kept in tables.
#![tactic(auto)]

mod connection;
mod cursors;
mod deposits;
mod labels;
mod laws;
mod path;
mod paths;
mod place;
mod ranges;
mod sequence;
mod store;

pub use book::{
    Book, Calibration, Deposit, Hold, Last, Listed, Reservation, Stamp, StampedDeposit,
    StampsBetween, Standing, StoreFault,
};
pub use laws::{
    book_stands_in_tables, equal_tables_tell_the_same, openings_find_what_was_left,
    rows_stand_exactly, serials_rise,
};
pub use path::may_make_at;
pub use paths::{FileState, Paths};
pub use store::Store;
