//! Plays scenarios: calls of the store, the desk, the extract and the service over a database in memory, a line for
//! each, and prints what they tell.

mod bench;
mod commands;
mod connection_calls;
mod desks;
mod entries;
mod extracts;
mod kept;
mod laws;
mod lines;
mod lists;
mod requests;
mod rows;
mod setting;
mod stamps;
mod stores;
mod table_calls;

pub use lines::play;
