//! Plays rows of calls of the lower crates, from values up to tokens, a line for each, and prints what they tell.
mod clocks;
mod decisions;
mod elements;
mod encodings;
mod ends;
mod files;
mod identifiers;
mod laws;
mod look_ups;
mod moments;
mod refusals;
mod requests;
mod rows;
mod signers;
mod tokens;
mod trees;
mod tst_infos;
mod values;

pub use rows::play;
